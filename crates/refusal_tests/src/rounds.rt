//! Whole runs by rounds, in which each event is made once more where memory is refused.
use crate::again::{call_again, receive_again, release_again};
use crate::asked::{Asked, all_delivered, begun, member, threads_of};
use module_binding::Module;
use rehearsal::{RehearsalEnd, Rehearsed, round_robin};
use run_journal::Journal;
use std::alloc::Global;
use std::test::*;
use upd_base::Kind;

/// Receives over each link by (from, to), and then releases at each member.
fn receive_all(alloc: Global, journal: &mut Journal<Module>) -> Result<(), Fail> {
    let members = journal.plan().members();
    for from in 0..members {
        for to in 0..members {
            receive_again(alloc, journal, from, to)?;
        }
    }
    for at in 0..members {
        release_again(alloc, journal, at)?;
    }
    Ok(())
}

/// Receives and releases until nothing is left.
fn empty_links(alloc: Global, journal: &mut Journal<Module>) -> Result<(), Fail> {
    for _ in 0..40 {
        let before = journal.len();
        receive_all(alloc, journal)?;
        if journal.len() == before {
            return Ok(());
        }
    }
    Err("an end")?
}

/// A message, a change of the kind, and a message of the other member.
fn one_change(alloc: Global) -> Result<Journal<Module>, Fail> {
    let asked = [
        (0, Asked::Send(b'a')),
        (0, Asked::Change(Kind::Lamport)),
        (1, Asked::Send(b'b')),
    ];
    let threads = threads_of(alloc, &[asked.as_slice()])?;
    begun(alloc, 2, Kind::Sequencer(member(0)?), threads)
}

/// The log of its run.
const ONE_CHANGE: [(u16, u8, u32, bool); 3] = [(0, 0, 0, true), (0, 0, 1, false), (1, 1, 0, true)];

/// The log where the second message is ordered before the change.
const CHANGE_LAST: [(u16, u8, u32, bool); 3] = [(0, 0, 0, true), (0, 1, 0, true), (0, 0, 1, false)];

/// The whole run by rounds.
fn one_change_run(alloc: Global) -> Result<Journal<Module>, Fail> {
    let mut journal = one_change(alloc)?;
    for _ in 0..20 {
        call_again(alloc, &mut journal)?;
        receive_all(alloc, &mut journal)?;
    }
    Ok(journal)
}

#[test]
fn a_change_by_rounds(rt: HostRuntime) -> Result<(), Fail> {
    let alloc = rt.alloc();
    let journal = one_change_run(alloc)?;
    assert!(rt; journal.settled());
    assert_eq!(rt; journal.len(), 16);
    assert!(rt; all_delivered(&journal, ONE_CHANGE.as_slice())?);
    Ok(())
}

/// Where memory is refused, the events are the first of the whole run. From there a round begins anew, so a call may come
/// before receipts that the whole run makes first.
#[test]
fn rounds_that_go_on(rt: HostRuntime) -> Result<(), Fail> {
    let alloc = rt.alloc();
    let whole = one_change_run(alloc)?;
    let Rehearsed {
        mut journal,
        mut end,
    } = round_robin(alloc, one_change(alloc)?);
    assert!(rt; whole.events().starts_with(journal.events()));
    if end == RehearsalEnd::NoMemory {
        let again = round_robin(alloc, journal);
        journal = again.journal;
        end = again.end;
    } else {
        assert_eq!(rt; journal.len(), whole.len());
    }
    assert_eq!(rt; end, RehearsalEnd::Settled);
    let planned = all_delivered(&journal, ONE_CHANGE.as_slice())?;
    let overtaken = all_delivered(&journal, CHANGE_LAST.as_slice())?;
    assert!(rt; planned || overtaken);
    Ok(())
}

/// A change to each kind, and messages between.
fn each_kind(alloc: Global) -> Result<Journal<Module>, Fail> {
    let asked = [
        (1, Asked::Send(b'a')),
        (0, Asked::Change(Kind::Consensus)),
        (2, Asked::Send(b'b')),
        (1, Asked::Change(Kind::Lamport)),
        (0, Asked::Send(b'c')),
        (2, Asked::Change(Kind::Sequencer(member(2)?))),
        (1, Asked::Send(b'd')),
    ];
    let threads = threads_of(alloc, &[asked.as_slice()])?;
    begun(alloc, 3, Kind::Sequencer(member(0)?), threads)
}

#[test]
fn a_change_to_each_kind(rt: HostRuntime) -> Result<(), Fail> {
    let alloc = rt.alloc();
    let mut journal = each_kind(alloc)?;
    for _ in 0..7 {
        call_again(alloc, &mut journal)?;
        empty_links(alloc, &mut journal)?;
    }
    assert!(rt; journal.settled());
    assert_eq!(rt; journal.len(), 91);
    let expected = [
        (0, 1, 0, true),
        (0, 0, 0, false),
        (1, 2, 0, true),
        (1, 1, 1, false),
        (2, 0, 1, true),
        (2, 2, 1, false),
        (3, 1, 2, true),
    ];
    assert!(rt; all_delivered(&journal, expected.as_slice())?);
    Ok(())
}
