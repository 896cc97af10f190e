//! What the tests run: a journal of three members, and its lines.
ghost use Rattle.std.specs.Prelude.{◌≡◌, length, All, IfOk};
ghost use Rattle.run_journal.specs.Journal.{plan_of};
ghost use Rattle.line_rules.specs.Lines.{IsEvenLine};

use run_journal::{Journal, serves};
use sequencer_order::SequencerOrder;
use std::alloc::Global;
use std::test::*;
use upd_base::{Call, Kind, MemberId, Plan, Step, Text};
use upd_lines::LineMaker;

pub fn member(id: u8) -> Result<MemberId, Fail>
    ensures { IfOk result (λ m. m ≡ id) }
{
    Ok(MemberId::new(id).ok_or("no member")?)
}

/// A thread with one call: a member sends a payload.
fn send(alloc: Global, at: u8, payload: &[u8]) -> Result<Vec<Step>, Fail> {
    let mut steps = Vec::new(alloc);
    let text = Text::new(alloc, payload)?.ok_or("no payload")?;
    steps.push(Step {
        at: member(at)?,
        call: Call::Send(text),
    })?;
    Ok(steps)
}

/// The fresh journal of three members, of which the members 1 and 2 send a message each through the sequencer 0. Where it
/// is asked for, member 2 crashes too, in a thread of its own.
pub fn journal(alloc: Global, crashes: bool) -> Result<Journal<SequencerOrder>, Fail>
    ensures { IfOk result (λ j. (plan_of j).members ≡ 3) }
{
    let mut threads = Vec::new(alloc);
    threads.push(send(alloc, 1, b"a")?)?;
    threads.push(send(alloc, 2, b"b")?)?;
    if crashes {
        let mut steps = Vec::new(alloc);
        steps.push(Step {
            at: member(2)?,
            call: Call::Crash,
        })?;
        threads.push(steps)?;
    }
    let kind = Kind::Sequencer(member(0)?);
    let plan = Plan::new(3, kind, threads).ok_or("no plan")?;
    if plan.members() != 3 || !serves::<SequencerOrder>(&plan) {
        return Err("another plan".into());
    }
    Ok(Journal::begin(alloc, plan)?)
}

/// The lines of three members at their places; None for these links.
pub fn lines<M: LineMaker>(
    alloc: Global,
    maker: &mut M,
    missing: &[(u8, u8)],
) -> Result<Vec<Option<M::Line>>, Fail>
    ensures places { IfOk result (λ lines. length lines.items ≡ 9) }
    ensures even { IfOk result (λ lines. All (IsEvenLine M.Line.Line) lines.items) }
{
    let mut lines = Vec::new(alloc);
    for place in 0u8..9 {
        let (from, to) = (place / 3, place % 3);
        let made = maker.make_line(member(from)?, member(to)?).ok();
        let is_missing = missing.contains(&(from, to));
        lines.push(if is_missing { None } else { made })?;
    }
    Ok(lines)
}
