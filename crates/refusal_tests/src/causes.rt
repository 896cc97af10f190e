//! What a refusal answers.
use crate::asked::{Asked, begun, call, member, receive, receive_next, request, threads_of};
use module_binding::Module;
use rehearsal::{RehearsalEnd, Rehearsed, round_robin};
use run_journal::{CallFault, Journal, ReceiveFault};
use std::alloc::Global;
use std::test::*;
use upd_base::{Answer, Kind};

/// Two threads, of which the first has made its call.
fn one_send(alloc: Global) -> Result<Journal<Module>, Fail> {
    let sends = [(1, Asked::Send(b'a'))];
    let more = [(2, Asked::Send(b'b'))];
    let threads = threads_of(alloc, &[sends.as_slice(), more.as_slice()])?;
    let mut journal = begun(alloc, 3, Kind::Sequencer(member(0)?), threads)?;
    if call(alloc, &mut journal)? != Ok(Answer::Accepted(0)) {
        return Err("an accepted message")?;
    }
    Ok(journal)
}

#[test]
fn a_link_without_a_frame(rt: HostRuntime) -> Result<(), Fail> {
    let alloc = rt.alloc();
    let mut journal = one_send(alloc)?;
    let sent = request(alloc, 0)?;
    let answer = receive(alloc, &mut journal, 0, 1, &sent)?;
    assert_eq!(rt; answer, Err(ReceiveFault::Nothing));
    assert_eq!(rt; journal.len(), 1);
    Ok(())
}

#[test]
fn another_frame(rt: HostRuntime) -> Result<(), Fail> {
    let alloc = rt.alloc();
    let mut journal = one_send(alloc)?;
    let sent = request(alloc, 0)?;
    let got = request(alloc, 1)?;
    let answer = receive(alloc, &mut journal, 1, 0, &got)?;
    assert_eq!(rt; answer, Err(ReceiveFault::Differs { sent, got }));
    let sent = request(alloc, 0)?;
    assert_eq!(rt; receive(alloc, &mut journal, 1, 0, &sent)?, Ok(()));
    assert_eq!(rt; journal.len(), 2);
    Ok(())
}

#[test]
fn a_call_too_many(rt: HostRuntime) -> Result<(), Fail> {
    let alloc = rt.alloc();
    let mut journal = one_send(alloc)?;
    assert_eq!(rt; call(alloc, &mut journal)?, Err(CallFault::PlanDone));
    assert_eq!(rt; journal.len(), 1);
    Ok(())
}

#[test]
fn a_crashed_receiver(rt: HostRuntime) -> Result<(), Fail> {
    let alloc = rt.alloc();
    let asked = [
        (1, Asked::Send(b'a')),
        (0, Asked::Crash),
        (2, Asked::Send(b'b')),
    ];
    let threads = threads_of(alloc, &[asked.as_slice()])?;
    let mut journal = begun(alloc, 3, Kind::Sequencer(member(0)?), threads)?;
    assert_eq!(rt; call(alloc, &mut journal)?, Ok(Answer::Accepted(0)));
    assert_eq!(rt; call(alloc, &mut journal)?, Ok(Answer::Done));
    let sent = request(alloc, 0)?;
    let answer = receive(alloc, &mut journal, 1, 0, &sent)?;
    assert_eq!(rt; answer, Err(ReceiveFault::Crashed));
    assert_eq!(rt; journal.len(), 2);
    Ok(())
}

/// A journal that holds as many events as its bound: no round of its members gathers two acceptances.
fn spent(alloc: Global) -> Result<Journal<Module>, Fail> {
    let asked = [
        (0, Asked::Suspect(1)),
        (1, Asked::Suspect(0)),
        (0, Asked::Send(b'a')),
    ];
    let threads = threads_of(alloc, &[asked.as_slice()])?;
    let journal = begun(alloc, 2, Kind::Consensus, threads)?;
    let Rehearsed { journal, end } = round_robin(alloc, journal);
    if end != RehearsalEnd::Spent {
        return Err("a bound that is reached")?;
    }
    Ok(journal)
}

/// On how many links something waits; each receipt is refused, since the bound is reached.
fn waiting(alloc: Global, journal: &mut Journal<Module>) -> Result<u8, Fail> {
    let mut count = 0u8;
    for (from, to) in [(0, 0), (0, 1), (1, 0), (1, 1)] {
        match receive_next(alloc, journal, from, to)? {
            None => {}
            Some(Err(ReceiveFault::Spent)) => count = count.saturating_add(1),
            Some(_) => return Err("a receipt past the bound")?,
        }
    }
    Ok(count)
}

#[test]
fn a_bound_that_is_reached(rt: HostRuntime) -> Result<(), Fail> {
    let alloc = rt.alloc();
    let mut journal = spent(alloc)?;
    assert_eq!(rt; journal.len(), 31);
    assert_eq!(rt; call(alloc, &mut journal)?, Err(CallFault::PlanDone));
    assert!(rt; waiting(alloc, &mut journal)? > 0);
    assert_eq!(rt; journal.len(), 31);
    Ok(())
}
