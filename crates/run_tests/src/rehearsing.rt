//! A run whose last call is refused by a full member, in rounds and by a seed.
use rehearsal::{RehearsalEnd, Rehearsed, round_robin, seeded};
use run_journal::{Journal, serves};
use sequencer_order::SequencerOrder;
use std::alloc::Global;
use std::test::*;
use upd_base::{Answer, Call, Event, Kind, MemberId, Plan, Step, Text};

fn member(id: u8) -> Result<MemberId, Fail> {
    Ok(MemberId::new(id).ok_or("a member")?)
}

/// The sequencer crashes; then the other member sends one message more than may be undelivered.
fn crash_and_sends(alloc: Global) -> Result<Vec<Step>, Fail> {
    let mut steps = Vec::new(alloc);
    steps.push(Step {
        at: member(0)?,
        call: Call::Crash,
    })?;
    for _i in 0..65 {
        let text = Text::new(alloc, b"a")?.ok_or("a payload")?;
        steps.push(Step {
            at: member(1)?,
            call: Call::Send(text),
        })?;
    }
    Ok(steps)
}

fn begun(alloc: Global) -> Result<Journal<SequencerOrder>, Fail> {
    let mut threads = Vec::new(alloc);
    threads.push(crash_and_sends(alloc)?)?;
    let kind = Kind::Sequencer(member(0)?);
    let plan = Plan::new(2, kind, threads).ok_or("a plan")?;
    if !serves::<SequencerOrder>(&plan) {
        return Err("kinds that are served")?;
    }
    Ok(Journal::begin(alloc, plan)?)
}

fn last_call(member: MemberId) -> Event {
    Event::Call {
        thread: 0,
        index: 65,
        member,
        answer: Answer::Full,
    }
}

#[test]
fn the_last_call_is_full(rt: HostRuntime) -> Result<(), Fail> {
    let alloc = rt.alloc();
    let last = last_call(member(1)?);
    let Rehearsed { journal, end } = round_robin(alloc, begun(alloc)?);
    assert_eq!(rt; (end, journal.len()), (RehearsalEnd::Settled, 66));
    assert_eq!(rt; journal.events().last(), Some(&last));
    let Rehearsed { journal, end } = seeded(alloc, begun(alloc)?, 7);
    assert_eq!(rt; (end, journal.len()), (RehearsalEnd::Settled, 66));
    assert_eq!(rt; journal.events().last(), Some(&last));
    Ok(())
}
