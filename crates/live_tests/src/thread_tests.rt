//! Runs with threads over lines in memory and over sockets.

use crate::given::{TWO_SENDS, words_of};
use crate::passes::CountingGate;
use line_fakes::SureLines;
use loop_link::LoopLines;
use scenario_gen::generate;
use std::alloc::Global;
use std::sync::Wait;
use std::test::*;
use std::thread::Threads;
use top_calls::live;
use upd_fakes::{SureSink, SureSource};
use upd_lines::LineMaker;
use worker_gates::{Gate, OpenGate, TwoMeet};

/// The log of each member where the first message is ordered first.
const ONE_ORDER: &str = "version 0, sequencer 0, up, 2 delivered
  0 msg 1.0 a
  0 msg 2.0 b
";

/// The log of each member where it is ordered second.
const OTHER_ORDER: &str = "version 0, sequencer 0, up, 2 delivered
  0 msg 2.0 b
  0 msg 1.0 a
";

/// What a run came to: its exit status, how many events it has, how many lines came back, and what the sink got.
#[derive(Drop)]
struct Ran {
    status: u8,
    events: u64,
    lines: usize,
    text: String,
}

/// Runs a scenario with threads.
fn run<M: LineMaker, G: Gate, R: Threads + Wait + Sync>(
    rt: &R,
    alloc: Global,
    over: &str,
    scenario: &[u8],
    maker: &mut M,
    gate: &G,
) -> Result<Ran, Fail> {
    let words = words_of(alloc, &["run", over])?;
    let mut source = SureSource::new(Vec::from_slice(alloc, scenario)?);
    let mut sink = SureSink::new(alloc);
    let outcome = live(
        rt,
        alloc,
        words.as_slice(),
        &mut source,
        &mut sink,
        maker,
        gate,
    );
    let journal = outcome.journal.ok_or("no journal")?;
    Ok(Ran {
        status: outcome.status.code(),
        events: journal.len(),
        lines: outcome.lines.iter().filter(|line| line.is_some()).count(),
        text: String::from_utf8_lossy(alloc, sink.bytes())?,
    })
}

/// The report of the two sends where each member has this log.
fn report(alloc: Global, log: &str) -> Result<String, Fail> {
    let all =
        "run: 3 members, 10 events, 2 of 2 calls\nanswers: 2 accepted, 0 done, 0 full, 0 crashed\n";
    Ok(format!(in alloc; "{all}member 0: {log}member 1: {log}member 2: {log}end: settled\n")?)
}

/// Both messages stand in every log, in one order; all nine lines came back.
fn both_are_ordered(alloc: Global, ran: &Ran) -> Result<bool, Fail> {
    let text = ran.text.as_str();
    let ordered = text == report(alloc, ONE_ORDER)?.as_str()
        || text == report(alloc, OTHER_ORDER)?.as_str();
    Ok(ordered && (ran.status, ran.events, ran.lines) == (0, 10, 9))
}

#[test]
fn two_workers_meet(rt: HostRuntime) -> Result<(), Fail> {
    let alloc = rt.alloc();
    let gate = TwoMeet::new();
    let mut maker = SureLines::new(alloc);
    let ran = run(
        &rt,
        alloc,
        "memory",
        TWO_SENDS.as_bytes(),
        &mut maker,
        &gate,
    )?;
    assert!(rt; gate.met());
    assert!(rt; both_are_ordered(alloc, &ran)?);
    Ok(())
}

#[test]
fn frames_go_over_sockets(rt: HostRuntime) -> Result<(), Fail> {
    let alloc = rt.alloc();
    let mut maker = LoopLines::new(rt);
    let ran = run(
        &rt,
        alloc,
        "loopback",
        TWO_SENDS.as_bytes(),
        &mut maker,
        &OpenGate,
    )?;
    assert!(rt; both_are_ordered(alloc, &ran)?);
    Ok(())
}

#[test]
fn a_generated_run_goes_over_sockets(rt: HostRuntime) -> Result<(), Fail> {
    let alloc = rt.alloc();
    let scenario = generate(alloc, 7, 200)?;
    let mut maker = LoopLines::new(rt);
    let ran = run(
        &rt,
        alloc,
        "loopback",
        scenario.as_slice(),
        &mut maker,
        &OpenGate,
    )?;
    assert_eq!(rt; (ran.status, ran.lines), (0, 25));
    assert!(rt; ran.text.as_str().contains("200 of 200 calls\n"));
    assert!(rt; ran.text.as_str().ends_with("end: settled\n"));
    Ok(())
}

/// Each of the two workers passes before its call and after it, and once more before it finds that it has no call left. None passes
/// after the run has come back.
#[test]
fn all_workers_are_joined(rt: HostRuntime) -> Result<(), Fail> {
    let alloc = rt.alloc();
    for _ in 0..20 {
        let gate = CountingGate::new();
        let mut maker = SureLines::new(alloc);
        let ran = run(
            &rt,
            alloc,
            "memory",
            TWO_SENDS.as_bytes(),
            &mut maker,
            &gate,
        )?;
        assert_eq!(rt; gate.passes(), 6);
        assert!(rt; both_are_ordered(alloc, &ran)?);
    }
    Ok(())
}
