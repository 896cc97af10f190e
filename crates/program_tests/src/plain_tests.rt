//! The commands on one thread, over sources and sinks that fail.
ghost use Rattle.std.specs.Prelude.{◌<◌};

use crate::given::{TWO_SENDS, done, done_in_pieces, generated, words_of};
use program_texts::Status;
use std::alloc::Global;
use std::test::*;
use top_calls::plain;
use upd_fakes::{MemSink, MemSource, SureSink, SureSource};

const ROW: &str =
    "{\"members\":3,\"first\":\"sequencer 0\",\"threads\":[[{\"at\":1,\"op\":\"send\",\"text\":\"a\"}]]}";

const SHORT: &str = "run: 3 members, 5 events, 1 of 1 calls
answers: 1 accepted, 0 done, 0 full, 0 crashed
member 0: version 0, sequencer 0, up, 1 delivered
member 1: version 0, sequencer 0, up, 1 delivered
member 2: version 0, sequencer 0, up, 1 delivered
end: settled
";

const ALONE: &str =
    "{\"members\":1,\"first\":\"sequencer 0\",\"threads\":[[{\"at\":0,\"op\":\"send\",\"text\":\"a\"}]]}";

const RECORDED: &str = "journal 1
members 1
first sequencer 0
threads 1
thread 1
0 send a
events 3
call 0 0 0 accepted 0
receive 0 0
receive 0 0
end
";

const CHECKED: &str = "run: 1 members, 3 events, 1 of 1 calls
answers: 1 accepted, 0 done, 0 full, 0 crashed
member 0: version 0, sequencer 0, up, 1 delivered
  0 msg 0.0 a
end: a run
";

const GENERATED: &str =
    "{\"members\":5,\"first\":\"consensus\",\"threads\":[[{\"at\":2,\"op\":\"send\",\"text\":\"m0\"}],\
[{\"at\":1,\"op\":\"send\",\"text\":\"m1\"}],[{\"at\":0,\"op\":\"send\",\"text\":\"m2\"}],[{\"at\":4,\"op\":\"send\",\"text\":\"m3\"}]]}
";

/// The exit status and what the sink got, for words, an input and the calls that fail.
fn run(
    alloc: Global,
    words: &[&str],
    input: &str,
    reads: &[u64],
    writes: &[u64],
) -> Result<(u8, String), Fail> {
    let (status, bytes) = done_in_pieces(alloc, words, input.as_bytes(), 5, reads, writes)?;
    Ok((status, String::from_utf8_lossy(alloc, bytes.as_slice())?))
}

#[test]
fn statuses(rt: HostRuntime) -> Result<(), Fail> {
    let alloc = rt.alloc();
    let paxos = "{\"members\":1,\"first\":\"paxos\",\"threads\":[[]]}";
    let (status, text) = run(alloc, &["rehearse", "7", "short"], ROW, &[], &[])?;
    assert_eq!(rt; (status, text.as_str()), (0, SHORT));
    let (status, text) = run(alloc, &["rehearse", "short"], ROW, &[2], &[])?;
    assert_eq!(rt; (status, text.as_str()), (3, "source failed\n"));
    let (status, text) = run(alloc, &["rehearse", "short"], ROW, &[], &[3])?;
    assert_eq!(rt; (status, text.as_str()), (4, "run: 3 mem"));
    let (status, text) = run(alloc, &["rehearse"], "{\"members\":8}", &[], &[2])?;
    assert_eq!(rt; (status, text.as_str()), (5, "scena"));
    let (status, text) = run(alloc, &["rehearse"], paxos, &[], &[])?;
    assert_eq!(rt;
        (status, text.as_str()),
        (5, "scenario refused at /first: bad kind\n")
    );
    Ok(())
}

#[test]
fn recorded(rt: HostRuntime) -> Result<(), Fail> {
    let alloc = rt.alloc();
    let (status, text) = run(alloc, &["rehearse", "journal"], ALONE, &[], &[])?;
    assert_eq!(rt; (status, text.as_str()), (0, RECORDED));
    let (status, text) = run(alloc, &["check"], text.as_str(), &[], &[])?;
    assert_eq!(rt; (status, text.as_str()), (0, CHECKED));
    Ok(())
}

#[test]
fn refused_journals(rt: HostRuntime) -> Result<(), Fail> {
    let alloc = rt.alloc();
    let other = "journal 1\nmembers 1\nfirst lamport\nthreads 1\nthread 1\n0 send a\nevents 1\n";
    let text = format!(in alloc; "{other}receive 0 0\nend\n")?;
    let (status, text) = run(alloc, &["check"], text.as_str(), &[], &[])?;
    assert_eq!(rt; (status, text.as_str()), (10, "not a run: event 1\n"));
    let (status, text) = run(alloc, &["check"], other, &[], &[])?;
    assert_eq!(rt; (status, text.as_str()), (11, "journal refused: line 8\n"));
    let (status, text) = run(alloc, &["check"], RECORDED, &[2], &[])?;
    assert_eq!(rt; (status, text.as_str()), (3, "source failed\n"));
    let (status, text) = run(alloc, &["check"], RECORDED, &[], &[2])?;
    assert_eq!(rt; (status, text.as_str()), (4, "run: "));
    Ok(())
}

#[test]
fn scenarios_by_a_seed(rt: HostRuntime) -> Result<(), Fail> {
    let alloc = rt.alloc();
    let (status, text) = run(alloc, &["gen", "7", "4"], "", &[1], &[])?;
    assert_eq!(rt; (status, text.as_str()), (0, GENERATED));
    let (status, text) = run(alloc, &["gen", "7", "4"], "", &[], &[2])?;
    assert_eq!(rt; (status, text.as_str()), (4, "{\"mem"));
    let (status, _) = run(alloc, &["gen", "7", "0"], "", &[], &[])?;
    assert_eq!(rt; status, 2);
    let (status, _) = run(alloc, &["gen", "7", "1001"], "", &[], &[])?;
    assert_eq!(rt; status, 2);
    Ok(())
}

#[test]
fn journals(rt: HostRuntime) -> Result<(), Fail> {
    let alloc = rt.alloc();
    let words = words_of(alloc, &["rehearse"])?;
    let mut source = SureSource::new(Vec::from_slice(alloc, TWO_SENDS.as_bytes())?);
    let mut sink = MemSink::new(alloc, 5, vec![in alloc; 1u64]?);
    let outcome = plain(alloc, words.as_slice(), &mut source, &mut sink);
    assert!(rt; matches!(&outcome.status, Status::SinkFailed));
    assert!(rt; sink.bytes().is_empty());
    let journal = outcome.journal.ok_or("no journal")?;
    assert_eq!(rt; journal.len(), 10);
    assert_eq!(rt; journal.plan().members(), 3);
    let mut sink = SureSink::new(alloc);
    let mut source = SureSource::new(Vec::from_slice(alloc, ROW.as_bytes())?);
    let outcome = plain(alloc, words.as_slice(), &mut source, &mut sink);
    assert_eq!(rt; outcome.status.code(), 0);
    assert!(rt; sink.bytes().ends_with(b"end: settled\n"));
    Ok(())
}

/// Each read of a scenario fails, and each write of what is made of it.
fn fails_at_each_place(alloc: Global, scenario: &[u8], piece: usize) -> Result<(), Fail>
    requires { 0 < piece }
{
    let words = ["rehearse"];
    let (status, whole) = done(alloc, &words, scenario)?;
    if status != 0 {
        return Err("a run that is not settled")?;
    }
    for nth in 1..=(scenario.len().div_ceil(piece) + 1) as u64 {
        let (status, text) = done_in_pieces(alloc, &words, scenario, piece, &[nth], &[])?;
        if status != 3 || text.as_slice() != b"source failed\n".as_slice() {
            return Err("another refusal")?;
        }
    }
    for nth in 0..whole.len().div_ceil(piece) {
        let fails = [nth as u64 + 1];
        let (status, text) = done_in_pieces(alloc, &words, scenario, piece, &[], &fails)?;
        let Some(front) = whole.as_slice().get(..nth * piece) else {
            return Err("a longer text")?;
        };
        if status != 4 || text.as_slice() != front {
            return Err("another text")?;
        }
    }
    Ok(())
}

#[test]
fn each_byte_of_an_edge_fails(rt: HostRuntime) -> Result<(), Fail> {
    let alloc = rt.alloc();
    fails_at_each_place(alloc, TWO_SENDS.as_bytes(), 1)
}

#[test]
fn each_piece_of_an_edge_fails_under_a_switch(rt: HostRuntime) -> Result<(), Fail> {
    let alloc = rt.alloc();
    let scenario = generated(alloc, "7", "60")?;
    fails_at_each_place(alloc, scenario.as_slice(), 512)
}
