//! A member crashes after each of the events of a run with a switch.
ghost use Rattle.std.specs.Prelude.{◌≡◌, ◌<◌};

use group_laws::canon;
use module_binding::Module;
use rehearsal::{RehearsalEnd, round_robin};
use run_journal::{Journal, serves};
use scenario::read;
use std::alloc::Global;
use std::test::*;
use upd_base::{Entry, Event, MemberId};

/// Two members, of which one changes the protocol between two sends.
const CHANGE: &str =
    r#"{"members":2,"first":"sequencer 0","threads":[[{"at":0,"op":"send","text":"a"},{"at":0,"op":"change","kind":"lamport"},{"at":1,"op":"send","text":"b"}]]}"#;

/// The same with a second thread, which crashes a member.
const CRASHES: [&str; 2] = [
    r#"{"members":2,"first":"sequencer 0","threads":[[{"at":0,"op":"send","text":"a"},{"at":0,"op":"change","kind":"lamport"},{"at":1,"op":"send","text":"b"}],[{"at":0,"op":"crash"}]]}"#,
    r#"{"members":2,"first":"sequencer 0","threads":[[{"at":0,"op":"send","text":"a"},{"at":0,"op":"change","kind":"lamport"},{"at":1,"op":"send","text":"b"}],[{"at":1,"op":"crash"}]]}"#,
];

fn begun(alloc: Global, text: &str) -> Result<Journal<Module>, Fail> {
    let plan = read(alloc, text.as_bytes()).ok().ok_or("a plan")?;
    if !serves::<Module>(&plan) {
        return Err("kinds that are served")?;
    }
    Ok(Journal::begin(alloc, plan)?)
}

/// Makes an event that is enabled, as it was made in another run.
fn make(alloc: Global, journal: &mut Journal<Module>, event: &Event) -> Result<(), Fail> {
    let members = journal.plan().members();
    let made = match *event {
        Event::Call { thread, .. } if thread < journal.plan().threads() => {
            journal.call(alloc, thread).is_ok()
        }
        Event::Receive { from, to } if from.get() < members && to.get() < members => {
            journal.receive_next(alloc, from, to) == Ok(true)
        }
        Event::Release { at } if at.get() < members => journal.release(alloc, at) == Ok(true),
        _ => false,
    };
    if !made {
        return Err("an event that is not enabled")?;
    }
    Ok(())
}

fn crash(alloc: Global, journal: &mut Journal<Module>) -> Result<(), Fail> {
    if journal.plan().threads() != 2 || journal.call(alloc, 1).is_err() {
        return Err("no crash")?;
    }
    Ok(())
}

/// The log of a member.
fn log(journal: &Journal<Module>, member: usize) -> Result<&[Entry], Fail> {
    let member = u8::try_from(member).ok().ok_or("a member")?;
    let member = MemberId::new(member).ok_or("a member")?;
    if member.get() >= journal.plan().members() {
        return Err("another member")?;
    }
    Ok(journal.log(member).entries())
}

/// The run of a plan with a crash, of which the first events are these; then the crash; then rounds to the end. Its logs agree.
fn run(alloc: Global, text: &str, events: &[Event]) -> Result<(), Fail> {
    let mut journal = begun(alloc, text)?;
    for event in events {
        make(alloc, &mut journal, event)?;
    }
    crash(alloc, &mut journal)?;
    let rehearsed = round_robin(alloc, journal);
    if rehearsed.end != RehearsalEnd::Settled || !rehearsed.journal.settled() {
        return Err("a run that is not settled")?;
    }
    let longest = log(&rehearsed.journal, canon(&rehearsed.journal))?;
    for member in 0usize..2 {
        if !longest.starts_with(log(&rehearsed.journal, member)?) {
            return Err("logs that differ")?;
        }
    }
    Ok(())
}

#[test]
fn a_member_crashes_after_each_event(rt: HostRuntime) -> Result<(), Fail> {
    let alloc = rt.alloc();
    let whole = round_robin(alloc, begun(alloc, CHANGE)?);
    let events = whole.journal.events();
    assert_eq!(rt; events.len(), 16);
    for text in CRASHES {
        for count in 0..=events.len() {
            run(alloc, text, &events[..count])?;
        }
    }
    Ok(())
}
