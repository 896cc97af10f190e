//! The rounds of the schedule: a round visits each thread, each link by (from, to), and each member.
ghost use Rattle.std.specs.Prelude.{ℕ, ◌≡◌, ◌+◌, ◌*◌, ◌<◌, ◌≤◌, length, OnOk};
ghost use Rattle.member_rules.specs.Kept.{rules_of};
ghost use Rattle.group_run.specs.Run.{IsRelease};
ghost use Rattle.upd_base.specs.Plan.{bound};
ghost use Rattle.run_journal.specs.Journal.{plan_of, past_of};
ghost use Rattle.line_rules.specs.Lines.{AreReady};
ghost use Rattle.line_rules.specs.Rest.{IsHeldUp};
ghost use Rattle.group_lines.specs.Visits.{IsIdle, IsLeftOut, IsLinkLeft, IsNotFull, IsRoundLeft, IsThreadLeft, LinkStands, MadeMany, Went};

use crate::links::link_at;
use crate::visits::{force_call, visit_line, visit_member, visit_thread};
use line_rules::LineState;
use order_trait::Ordering;
use run_journal::Journal;
use std::alloc::Global;
use upd_base::{NoMemory, member_at};
use upd_lines::Line;

/// Makes rounds until one makes no event, and no call is left either.
pub(crate) fn run_rounds<O: Ordering, L: Line>(
    alloc: Global,
    journal: &mut Journal<O>,
    lines: &mut [Option<L>],
    states: &mut [LineState],
) -> Result<(), NoMemory>
    requires ready { AreReady L.Line (rules_of O.Ordering) (plan_of journal.old) (past_of journal.old) lines.old states.old }
    ensures plan { plan_of journal.new ≡ plan_of journal.old }
    ensures went { Went L.Line (rules_of O.Ordering) (plan_of journal.old) (past_of journal.old) (past_of journal.new) lines.old lines.new states.old states.new }
    ensures rest { OnOk result (length (past_of journal.new) < bound (plan_of journal.old) → IsHeldUp (IsLeftOut (plan_of journal.old) states.new) (rules_of O.Ordering) (plan_of journal.old) (past_of journal.new)) }
{
    loop {
        let before = journal.len();
        make_turn(alloc, journal, lines, states)?;
        if journal.len() == before {
            return Ok(());
        }
    }
}

/// A round, or where it made no event the call that is left.
fn make_turn<O: Ordering, L: Line>(
    alloc: Global,
    journal: &mut Journal<O>,
    lines: &mut [Option<L>],
    states: &mut [LineState],
) -> Result<(), NoMemory>
    requires ready { AreReady L.Line (rules_of O.Ordering) (plan_of journal.old) (past_of journal.old) lines.old states.old }
    ensures plan { plan_of journal.new ≡ plan_of journal.old }
    ensures went { Went L.Line (rules_of O.Ordering) (plan_of journal.old) (past_of journal.old) (past_of journal.new) lines.old lines.new states.old states.new }
    ensures ready { OnOk result (AreReady L.Line (rules_of O.Ordering) (plan_of journal.old) (past_of journal.new) lines.new states.new) }
    ensures left { OnOk result (IsIdle (plan_of journal.old) (past_of journal.old) (past_of journal.new) → IsHeldUp (IsLeftOut (plan_of journal.old) states.new) (rules_of O.Ordering) (plan_of journal.old) (past_of journal.old)) }
{
    let before = journal.len();
    make_round(alloc, journal, lines, states)?;
    if journal.len() > before {
        return Ok(());
    }
    force_call(alloc, journal)
}

fn make_round<O: Ordering, L: Line>(
    alloc: Global,
    journal: &mut Journal<O>,
    lines: &mut [Option<L>],
    states: &mut [LineState],
) -> Result<(), NoMemory>
    requires ready { AreReady L.Line (rules_of O.Ordering) (plan_of journal.old) (past_of journal.old) lines.old states.old }
    ensures plan { plan_of journal.new ≡ plan_of journal.old }
    ensures went { Went L.Line (rules_of O.Ordering) (plan_of journal.old) (past_of journal.old) (past_of journal.new) lines.old lines.new states.old states.new }
    ensures ready { OnOk result (AreReady L.Line (rules_of O.Ordering) (plan_of journal.old) (past_of journal.new) lines.new states.new) }
    ensures left { OnOk result (IsIdle (plan_of journal.old) (past_of journal.old) (past_of journal.new) → IsRoundLeft (rules_of O.Ordering) (plan_of journal.old) (past_of journal.old) states.new) }
{
    visit_threads(alloc, journal)?;
    visit_links(alloc, journal, lines, states)?;
    visit_members(alloc, journal)
}

fn visit_threads<O: Ordering>(alloc: Global, journal: &mut Journal<O>) -> Result<(), NoMemory>
    ensures plan { plan_of journal.new ≡ plan_of journal.old }
    ensures made { MadeMany (plan_of journal.old) (past_of journal.old) (past_of journal.new) IsNotFull }
    ensures left { OnOk result (IsIdle (plan_of journal.old) (past_of journal.old) (past_of journal.new) → (thread : ℕ) → thread < length (plan_of journal.old).threads → IsThreadLeft (rules_of O.Ordering) (plan_of journal.old) (past_of journal.old) thread) }
{
    for thread in 0..journal.plan().threads() {
        visit_thread(alloc, journal, thread)?;
    }
    Ok(())
}

fn visit_members<O: Ordering>(alloc: Global, journal: &mut Journal<O>) -> Result<(), NoMemory>
    ensures plan { plan_of journal.new ≡ plan_of journal.old }
    ensures made { MadeMany (plan_of journal.old) (past_of journal.old) (past_of journal.new) IsNotFull }
    ensures left { OnOk result (IsIdle (plan_of journal.old) (past_of journal.old) (past_of journal.new) → (at : ℕ) → IsRelease (rules_of O.Ordering) (plan_of journal.old) (past_of journal.old) at → ⊥) }
{
    for at in 0..journal.plan().members() {
        visit_member(alloc, journal, member_at(at))?;
    }
    Ok(())
}

fn visit_links<O: Ordering, L: Line>(
    alloc: Global,
    journal: &mut Journal<O>,
    lines: &mut [Option<L>],
    states: &mut [LineState],
) -> Result<(), NoMemory>
    requires ready { AreReady L.Line (rules_of O.Ordering) (plan_of journal.old) (past_of journal.old) lines.old states.old }
    ensures plan { plan_of journal.new ≡ plan_of journal.old }
    ensures went { Went L.Line (rules_of O.Ordering) (plan_of journal.old) (past_of journal.old) (past_of journal.new) lines.old lines.new states.old states.new }
    ensures ready { OnOk result (AreReady L.Line (rules_of O.Ordering) (plan_of journal.old) (past_of journal.new) lines.new states.new) }
    ensures left { OnOk result (IsIdle (plan_of journal.old) (past_of journal.old) (past_of journal.new) → (from to : ℕ) → IsLinkLeft (rules_of O.Ordering) (plan_of journal.old) (past_of journal.old) states.new from to) }
{
    for place in 0..lines.len() {
        visit_link(alloc, journal, lines, states, place)?;
    }
    Ok(())
}

fn visit_link<O: Ordering, L: Line>(
    alloc: Global,
    journal: &mut Journal<O>,
    lines: &mut [Option<L>],
    states: &mut [LineState],
    place: usize,
) -> Result<(), NoMemory>
    requires ready { AreReady L.Line (rules_of O.Ordering) (plan_of journal.old) (past_of journal.old) lines.old states.old }
    requires place { place < length lines.old }
    ensures plan { plan_of journal.new ≡ plan_of journal.old }
    ensures went { Went L.Line (rules_of O.Ordering) (plan_of journal.old) (past_of journal.old) (past_of journal.new) lines.old lines.new states.old states.new }
    ensures ready { OnOk result (AreReady L.Line (rules_of O.Ordering) (plan_of journal.old) (past_of journal.new) lines.new states.new) }
    ensures left { OnOk result (IsIdle (plan_of journal.old) (past_of journal.old) (past_of journal.new) → (from to : ℕ) → LinkStands (plan_of journal.old).members from to place → IsLinkLeft (rules_of O.Ordering) (plan_of journal.old) (past_of journal.old) states.new from to) }
{
    let (from, to) = link_at(journal.plan().members(), place);
    visit_line(
        alloc,
        journal,
        &mut lines[place],
        &mut states[place],
        from,
        to,
    )
}
