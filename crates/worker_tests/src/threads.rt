//! Runs by threads: one that settles, one at a gate where two workers meet, one that a failing line holds up, one with a
//! lie, and one whose receiver crashes.
ghost use Rattle.std.specs.Prelude.{◌≡◌, IfOk};
ghost use Rattle.run_journal.specs.Journal.{plan_of};

use crate::making::{journal, lines, member};
use line_fakes::{LieLines, LineFail, MemLines, SureLines, Way};
use line_rules::RunEnd;
use member_threads::run_threads;
use run_journal::Journal;
use sequencer_order::SequencerOrder;
use std::alloc::Global;
use std::sync::Wait;
use std::test::*;
use std::thread::Threads;
use upd_lines::LineMaker;
use worker_gates::{Gate, OpenGate, TwoMeet};

/// Runs the journal over lines of this maker at the gate: how it ends, and the journal.
fn run<M: LineMaker, G: Gate, R: Threads + Wait + Sync>(
    rt: &R,
    alloc: Global,
    maker: &mut M,
    gate: &G,
    crashes: bool,
) -> Result<(RunEnd, Journal<SequencerOrder>), Fail>
    ensures { IfOk result (λ r. (plan_of r.1).members ≡ 3) }
{
    let lines = lines(alloc, maker, &[])?;
    let ran = run_threads(rt, alloc, journal(alloc, crashes)?, lines, gate);
    Ok((ran.end, ran.journal))
}

/// Whether every log has two messages, in one order.
fn in_one_order(journal: &Journal<SequencerOrder>) -> Result<bool, Fail>
    requires { (plan_of journal.now).members ≡ 3 }
{
    let first = journal.log(member(0)?);
    for id in 1..3 {
        if journal.log(member(id)?).entries() != first.entries() {
            return Ok(false);
        }
    }
    Ok(first.len() == 2)
}

#[test]
fn a_run_settles(rt: HostRuntime) -> Result<(), Fail> {
    let alloc = rt.alloc();
    let (end, journal) = run(&rt, alloc, &mut SureLines::new(alloc), &OpenGate, false)?;
    assert_eq!(rt; end, RunEnd::Settled);
    assert_eq!(rt; journal.len(), 10);
    assert!(rt; in_one_order(&journal)?);
    Ok(())
}

#[test]
fn two_workers_meet(rt: HostRuntime) -> Result<(), Fail> {
    let alloc = rt.alloc();
    let gate = TwoMeet::new();
    let (end, journal) = run(&rt, alloc, &mut SureLines::new(alloc), &gate, false)?;
    assert!(rt; gate.met());
    assert_eq!(rt; end, RunEnd::Settled);
    assert_eq!(rt; journal.len(), 10);
    Ok(())
}

#[test]
fn a_line_that_fails_holds_the_run_up(rt: HostRuntime) -> Result<(), Fail> {
    let alloc = rt.alloc();
    let (from, to) = (member(1)?, member(0)?);
    let fails = vec![in alloc;
        LineFail {
            from,
            to,
            way: Way::Get,
            nth: 1
        },
    ]?;
    let mut maker = MemLines::new(alloc, 4_096, fails);
    let (end, journal) = run(&rt, alloc, &mut maker, &OpenGate, false)?;
    assert_eq!(rt; end, RunEnd::Down { from, to });
    assert_eq!(rt; journal.len(), 6);
    Ok(())
}

#[test]
fn a_line_that_lies_is_told(rt: HostRuntime) -> Result<(), Fail> {
    let alloc = rt.alloc();
    let (from, to) = (member(1)?, member(0)?);
    let mut maker = LieLines::new(alloc, from, to, 11);
    let (end, journal) = run(&rt, alloc, &mut maker, &OpenGate, false)?;
    let told = RunEnd::Lied {
        from,
        to,
        at: 11,
        put: 0x61,
        got: 0x60,
    };
    assert_eq!(rt; end, told);
    assert_eq!(rt; journal.len(), 6);
    Ok(())
}

#[test]
fn a_receiver_may_crash_while_a_frame_comes(rt: HostRuntime) -> Result<(), Fail> {
    let alloc = rt.alloc();
    for _ in 0..50 {
        let (end, journal) = run(&rt, alloc, &mut SureLines::new(alloc), &OpenGate, true)?;
        assert_eq!(rt; end, RunEnd::Settled);
        assert!(rt; journal.crashed(member(2)?));
    }
    Ok(())
}
