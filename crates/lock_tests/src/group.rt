//! Callers of a shared group: each public call once, a member that is full, and two and four threads.
ghost use Rattle.std.specs.Prelude.{◌≡◌, ◌<◌, length, IfOk, IfSome};
ghost use Rattle.turn_lock.specs.declared.pass.TheConstants.{PARTS};
ghost use Rattle.turn_lock.specs.Pass.{parts};
ghost use Rattle.run_journal.specs.Journal.{plan_of, events_of};
ghost use Rattle.live_group.specs.Calls.{StandInOrder};
ghost use Rattle.live_group.specs.SharedGroup.{plan_shared, IsPassOf};

use live_group::{GroupPass, LiveGroup, Offer};
use order_trait::Ordering;
use run_journal::{CallFault, Journal, ReceiveFault, serves};
use sequencer_order::SequencerOrder;
use std::alloc::Global;
use std::sync::Wait;
use std::test::*;
use turn_lock::PARTS;
use upd_base::{Answer, Call, Event, Frame, Kind, MemberId, Plan, Step, Text};

mod threads;

fn member(id: u8) -> Result<MemberId, Fail>
    ensures { IfOk result (λ m. m ≡ id) }
{
    Ok(MemberId::new(id).ok_or("no member")?)
}

/// So many messages, the first of which is sent by this member, and each next one by the next member of three.
fn sends(alloc: Global, first: u8, count: u16, alone: bool) -> Result<Vec<Step>, Fail> {
    let mut steps = Vec::new(alloc);
    for index in 0..count {
        let turn = if alone { 0 } else { index % 3 };
        let at = member(((first % 3) as u16 + turn) as u8 % 3)?;
        let text = Text::new(alloc, b"a")?.ok_or("no payload")?;
        steps.push(Step {
            at,
            call: Call::Send(text),
        })?;
    }
    Ok(steps)
}

/// The fresh journal of three members and so many threads, with so many messages each.
fn journal_of<O: Ordering>(
    alloc: Global,
    threads: u8,
    count: u16,
    alone: bool,
) -> Result<Journal<O>, Fail>
    ensures members { IfOk result (λ j. (plan_of j).members ≡ 3) }
    ensures threads { IfOk result (λ j. length (plan_of j).threads ≡ threads) }
{
    let mut lists = Vec::new(alloc);
    for thread in 0..threads {
        lists.push(sends(alloc, thread, count, alone)?)?;
    }
    let kind = Kind::Sequencer(member(0)?);
    let plan = Plan::new(3, kind, lists).ok_or("no plan")?;
    if plan.members() != 3 || plan.threads() != threads || !serves::<O>(&plan) {
        return Err("another plan".into());
    }
    Ok(Journal::begin(alloc, plan)?)
}

/// A group that shares it, and its first pass.
fn group_of<O: Ordering>(
    alloc: Global,
    threads: u8,
    count: u16,
    alone: bool,
) -> Result<(LiveGroup<O>, GroupPass<O>), Fail>
    ensures of { IfOk result (λ r. IsPassOf r.0 r.1) }
    ensures parts { IfOk result (λ r. parts r.1 ≡ PARTS) }
    ensures members { IfOk result (λ r. (plan_shared r.0).members ≡ 3) }
    ensures threads { IfOk result (λ r. length (plan_shared r.0).threads ≡ threads) }
{
    let journal = journal_of(alloc, threads, count, alone)?;
    match LiveGroup::share(alloc, journal) {
        Ok(shared) => Ok(shared),
        Err(_journal) => Err("no memory".into()),
    }
}

#[test]
fn each_call_once(rt: HostRuntime) -> Result<(), Fail> {
    let alloc = rt.alloc();
    let (zero, one) = (member(0)?, member(1)?);
    let (group, mut first) = group_of::<SequencerOrder>(alloc, 2, 1, false)?;
    let mut second = group.split(&mut first);
    let called = group.call(&rt, alloc, &mut second, 1);
    assert_eq!(rt; called, Ok(Offer::Answered(Answer::Accepted(0))));
    let again = group.call(&rt, alloc, &mut second, 1);
    assert_eq!(rt; again, Err(CallFault::PlanDone));
    let frame = group
        .fetch(&rt, alloc, &mut first, one, zero)?
        .ok_or("no frame")?;
    assert_eq!(rt; group.fetch(&rt, alloc, &mut first, zero, one), Ok(None));
    let nothing = group.receive(&rt, alloc, &mut first, zero, one, &frame);
    assert_eq!(rt; nothing, Err(ReceiveFault::Nothing));
    let received = group.receive(&rt, alloc, &mut first, one, zero, &frame);
    assert_eq!(rt; received, Ok(()));
    assert_eq!(rt; group.release(&rt, alloc, &mut first, zero), Ok(false));
    assert!(rt; !group.settled(&rt, &mut first));
    group.join(&mut first, second);
    let journal = group.close(first);
    assert_eq!(rt; journal.len(), 2);
    assert_eq!(rt; journal.made(1), 1);
    Ok(())
}

/// A pass that is split off makes two calls, and is joined into the one that closes: they stand in the journal, one behind
/// the other, with the answers that were told.
fn two_calls<O: Ordering, R: Wait>(
    rt: &R,
    alloc: Global,
    journal: Journal<O>,
    thread: u8,
) -> Option<(Journal<O>, Answer, Answer)>
    requires { thread < length (plan_of journal).threads }
    ensures { IfSome result (λ r. StandInOrder (events_of r.0) thread r.1 r.2) }
{
    let Ok((group, mut first)) = LiveGroup::share(alloc, journal) else {
        return None;
    };
    let mut second = group.split(&mut first);
    let Ok(Offer::Answered(one)) = group.call(rt, alloc, &mut second, thread) else {
        return None;
    };
    let Ok(Offer::Answered(two)) = group.call(rt, alloc, &mut second, thread) else {
        return None;
    };
    group.join(&mut first, second);
    Some((group.close(first), one, two))
}

#[test]
fn two_calls_of_one_pass_stand_in_order(rt: HostRuntime) -> Result<(), Fail> {
    let alloc = rt.alloc();
    let journal = journal_of::<SequencerOrder>(alloc, 1, 2, true)?;
    let (closed, one, two) = two_calls(&rt, alloc, journal, 0).ok_or("there is memory")?;
    assert!(rt; one == Answer::Accepted(0) && two == Answer::Accepted(1));
    assert_eq!(rt; closed.len(), 2);
    Ok(())
}

#[test]
fn a_full_member_is_not_called(rt: HostRuntime) -> Result<(), Fail> {
    let alloc = rt.alloc();
    let (group, mut pass) = group_of::<SequencerOrder>(alloc, 1, 65, true)?;
    for number in 0..64 {
        let called = group.call(&rt, alloc, &mut pass, 0);
        assert_eq!(rt; called, Ok(Offer::Answered(Answer::Accepted(number))));
    }
    assert_eq!(rt; group.call(&rt, alloc, &mut pass, 0), Ok(Offer::NotNow));
    let journal = group.close(pass);
    assert_eq!(rt; journal.len(), 64);
    assert!(rt; journal.would_fill(0));
    Ok(())
}
