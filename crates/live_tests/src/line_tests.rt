//! Runs with threads over lines that fail or lie at each place.
ghost use Rattle.std.specs.Prelude.{◌≡◌, IfOk};

use crate::given::{TWO_SENDS, words_of};
use crate::two_lies::TwoLies;
use journal_file::read_journal;
use line_fakes::{LieLines, LineFail, MemLines, Way};
use module_binding::Module;
use scenario_gen::generate;
use std::alloc::Global;
use std::sync::Wait;
use std::test::*;
use std::thread::Threads;
use top_calls::live;
use upd_base::MemberId;
use upd_fakes::{SureSink, SureSource};
use upd_lines::LineMaker;
use worker_gates::OpenGate;

fn member(id: u8) -> Result<MemberId, Fail>
    ensures { IfOk result (λ m. m ≡ id) }
{
    Ok(MemberId::new(id).ok_or("no member")?)
}

/// What a run came to: its exit status, how many events it has, how many entries each of three members delivered, at which place
/// the first line is missing, and what the sink got.
#[derive(Drop)]
struct Ran {
    status: u8,
    events: u64,
    delivered: [usize; 3],
    missing: Option<usize>,
    text: String,
}

/// Runs the two sends over the lines of this maker.
fn run<M: LineMaker, R: Threads + Wait + Sync>(
    rt: &R,
    alloc: Global,
    maker: &mut M,
) -> Result<Ran, Fail> {
    let words = words_of(alloc, &["run", "memory"])?;
    let mut source = SureSource::new(Vec::from_slice(alloc, TWO_SENDS.as_bytes())?);
    let mut sink = SureSink::new(alloc);
    let outcome = live(
        rt,
        alloc,
        words.as_slice(),
        &mut source,
        &mut sink,
        maker,
        &OpenGate,
    );
    let journal = outcome.journal.ok_or("no journal")?;
    if journal.plan().members() != 3 {
        return Err("another plan")?;
    }
    Ok(Ran {
        status: outcome.status.code(),
        events: journal.len(),
        delivered: [
            journal.log(member(0)?).len(),
            journal.log(member(1)?).len(),
            journal.log(member(2)?).len(),
        ],
        missing: outcome.lines.iter().position(|line| line.is_none()),
        text: String::from_utf8_lossy(alloc, sink.bytes())?,
    })
}

fn fail(from: u8, to: u8, way: Way, nth: u64) -> Result<LineFail, Fail> {
    Ok(LineFail {
        from: member(from)?,
        to: member(to)?,
        way,
        nth,
    })
}

/// The two sends over lines in memory, of whose calls one fails.
fn run_with<R: Threads + Wait + Sync>(rt: &R, alloc: Global, one: LineFail) -> Result<Ran, Fail> {
    let mut maker = MemLines::new(alloc, 4_096, vec![in alloc; one]?);
    run(rt, alloc, &mut maker)
}

#[test]
fn the_line_of_a_sender_fails(rt: HostRuntime) -> Result<(), Fail> {
    let alloc = rt.alloc();
    for way in [Way::Make, Way::Put, Way::Get] {
        let ran = run_with(&rt, alloc, fail(1, 0, way, 1)?)?;
        assert_eq!(rt; (ran.status, ran.events, ran.delivered), (6, 6, [1, 1, 1]));
        assert!(rt; ran.text.as_str().contains("  0 msg 2.0 b\n"));
        assert!(rt;
            ran.text
                .as_str()
                .ends_with("undelivered msg 1.0 a\nend: line 1 0 down\n")
        );
    }
    Ok(())
}

#[test]
fn the_line_to_a_receiver_fails(rt: HostRuntime) -> Result<(), Fail> {
    let alloc = rt.alloc();
    let ran = run_with(&rt, alloc, fail(0, 2, Way::Make, 1)?)?;
    assert_eq!(rt; (ran.status, ran.events, ran.delivered), (6, 8, [2, 2, 0]));
    assert!(rt; !ran.text.as_str().contains("undelivered"));
    assert!(rt; ran.text.as_str().ends_with("end: line 0 2 down\n"));
    let ran = run_with(&rt, alloc, fail(0, 2, Way::Put, 2)?)?;
    assert_eq!(rt; (ran.status, ran.events, ran.delivered), (6, 9, [2, 2, 1]));
    assert!(rt; ran.text.as_str().ends_with("end: line 0 2 down\n"));
    Ok(())
}

#[test]
fn the_lowest_of_two_lines_is_told(rt: HostRuntime) -> Result<(), Fail> {
    let alloc = rt.alloc();
    let fails = vec![in alloc; fail(0, 1, Way::Make, 1)?, fail(0, 2, Way::Make, 1)?]?;
    let ran = run(&rt, alloc, &mut MemLines::new(alloc, 4_096, fails))?;
    assert_eq!(rt; (ran.status, ran.events, ran.delivered), (6, 6, [2, 0, 0]));
    assert!(rt; !ran.text.as_str().contains("undelivered"));
    assert!(rt; ran.text.as_str().ends_with("end: line 0 1 down\n"));
    Ok(())
}

#[test]
fn a_lie_is_told_before_a_line_that_is_down(rt: HostRuntime) -> Result<(), Fail> {
    let alloc = rt.alloc();
    let ran = run(&rt, alloc, &mut TwoLies::new(alloc, member(0)?, member(2)?))?;
    assert_eq!(rt; (ran.status, ran.events), (8, 4));
    assert!(rt;
        ran.text
            .as_str()
            .ends_with("end: line 0 2 lied at 0: put 00, got 01\n")
    );
    Ok(())
}

#[test]
fn a_line_that_nothing_goes_over_fails(rt: HostRuntime) -> Result<(), Fail> {
    let alloc = rt.alloc();
    let ran = run_with(&rt, alloc, fail(1, 2, Way::Make, 1)?)?;
    assert_eq!(rt; (ran.status, ran.events, ran.missing), (0, 10, Some(5)));
    for way in [Way::Put, Way::Get] {
        let ran = run_with(&rt, alloc, fail(1, 2, way, 1)?)?;
        assert_eq!(rt; (ran.status, ran.events, ran.missing), (0, 10, None));
    }
    Ok(())
}

#[test]
fn each_byte_of_a_line_lies(rt: HostRuntime) -> Result<(), Fail> {
    let alloc = rt.alloc();
    // Member 1 asks for its first message: version 0, an ask, a message of origin 1, number 0, one byte of text.
    let frame: [u8; 12] = [0, 0, 1, 0, 1, 0, 0, 0, 0, 0, 1, 0x61];
    for (at, put) in frame.iter().enumerate() {
        let mut maker = LieLines::new(alloc, member(1)?, member(0)?, at as u64);
        let ran = run(&rt, alloc, &mut maker)?;
        let got = put ^ 1;
        let end = format!(in alloc;
            "undelivered msg 1.0 a\nend: line 1 0 lied at {at}: put {put:02x}, got {got:02x}\n"
        )?;
        assert_eq!(rt; (ran.status, ran.events, ran.delivered), (8, 6, [1, 1, 1]));
        assert!(rt; ran.text.as_str().contains("  0 msg 2.0 b\n"));
        assert!(rt; ran.text.as_str().ends_with(end.as_str()));
    }
    let mut maker = LieLines::new(alloc, member(1)?, member(0)?, 12);
    let ran = run(&rt, alloc, &mut maker)?;
    assert_eq!(rt; (ran.status, ran.events), (0, 10));
    Ok(())
}

/// Runs the scenario over lines in memory, of whose calls one fails, and reads the journal that the sink got.
fn reads_back<R: Threads + Wait + Sync>(
    rt: &R,
    alloc: Global,
    scenario: &[u8],
    one: LineFail,
) -> Result<u8, Fail> {
    let words = words_of(alloc, &["run", "memory", "journal"])?;
    let mut source = SureSource::new(Vec::from_slice(alloc, scenario)?);
    let mut sink = SureSink::new(alloc);
    let mut maker = MemLines::new(alloc, 64, vec![in alloc; one]?);
    let outcome = live(
        rt,
        alloc,
        words.as_slice(),
        &mut source,
        &mut sink,
        &mut maker,
        &OpenGate,
    );
    match read_journal::<Module>(alloc, sink.bytes()) {
        Ok(read) if read.len() == outcome.journal.ok_or("no journal")?.len() => {}
        _ => return Err("a text that is not the journal's")?,
    }
    Ok(outcome.status.code())
}

#[test]
fn calls_of_lines_fail_under_a_switch(rt: HostRuntime) -> Result<(), Fail> {
    let alloc = rt.alloc();
    let scenario = generate(alloc, 7, 60)?;
    for nth in [1u64, 2, 8, 34] {
        for way in [Way::Put, Way::Get] {
            let one = fail(2, 0, way, nth)?;
            let status = reads_back(&rt, alloc, scenario.as_slice(), one)?;
            assert!(rt; status == 0 || status == 6);
        }
    }
    Ok(())
}
