//! A journal of three members: a call, receipts that are refused and one that is made, and what a fresh journal shows.
ghost use Rattle.std.specs.Prelude.{◌≡◌, length, IfOk};
ghost use Rattle.run_journal.specs.Journal.{plan_of};

use run_journal::{CallFault, Journal, ReceiveFault, serves};
use sequencer_order::SequencerOrder;
use std::alloc::Global;
use std::test::*;
use upd_base::{Answer, Body, Call, Frame, Item, Kind, MemberId, Plan, Step, Text};

fn member(id: u8) -> Result<MemberId, Fail>
    ensures { IfOk result (λ m. m ≡ id) }
{
    Ok(MemberId::new(id).ok_or("no member")?)
}

/// A thread that sends one message.
fn send(alloc: Global, at: MemberId, text: &[u8]) -> Result<Vec<Step>, Fail> {
    let text = Text::new(alloc, text)?.ok_or("no payload")?;
    let call = Call::Send(text);
    Ok(vec![in alloc; Step { at, call }]?)
}

/// Of three members, the second sends a and the third sends b.
fn two_sends(alloc: Global) -> Result<Journal<SequencerOrder>, Fail>
    ensures members { IfOk result (λ j. (plan_of j).members ≡ 3) }
    ensures threads { IfOk result (λ j. length (plan_of j).threads ≡ 2) }
{
    let mut threads = Vec::new(alloc);
    threads.push(send(alloc, member(1)?, b"a")?)?;
    threads.push(send(alloc, member(2)?, b"b")?)?;
    let kind = Kind::Sequencer(member(0)?);
    let plan = Plan::new(3, kind, threads).ok_or("no plan")?;
    if !serves::<SequencerOrder>(&plan) {
        return Err("kinds that are served")?;
    }
    Ok(Journal::begin(alloc, plan)?)
}

fn ask(alloc: Global, number: u32) -> Result<Frame, Fail> {
    let payload = Text::new(alloc, b"a")?.ok_or("no payload")?;
    let item = Item::Msg {
        origin: member(1)?,
        number,
        payload,
    };
    Ok(Frame {
        version: 0,
        body: Body::Ask { item },
    })
}

#[test]
fn a_call_is_made_once(rt: HostRuntime) -> Result<(), Fail> {
    let alloc = rt.alloc();
    let one = member(1)?;
    let mut journal = two_sends(alloc)?;
    assert_eq!(rt; journal.version_asked(one, 0), None);
    assert_eq!(rt; journal.call(alloc, 0), Ok(Answer::Accepted(0)));
    assert_eq!(rt; journal.call(alloc, 0), Err(CallFault::PlanDone));
    assert_eq!(rt; journal.version_asked(one, 0), Some(0));
    assert_eq!(rt; journal.made(0), 1);
    assert_eq!(rt; journal.plan().bound(), 110);
    Ok(())
}

#[test]
fn the_next_frame_alone_is_received(rt: HostRuntime) -> Result<(), Fail> {
    let alloc = rt.alloc();
    let (zero, one) = (member(0)?, member(1)?);
    let mut journal = two_sends(alloc)?;
    let right = ask(alloc, 0)?;
    assert_eq!(rt; journal.call(alloc, 0), Ok(Answer::Accepted(0)));
    assert_eq!(rt;
        journal.receive(alloc, zero, one, &right),
        Err(ReceiveFault::Nothing)
    );
    let differs = ReceiveFault::Differs {
        sent: ask(alloc, 0)?,
        got: ask(alloc, 1)?,
    };
    assert_eq!(rt;
        journal.receive(alloc, one, zero, &ask(alloc, 1)?),
        Err(differs)
    );
    assert_eq!(rt; journal.next_frame(one, zero), Some(&right));
    assert_eq!(rt; journal.receive(alloc, one, zero, &right), Ok(()));
    assert_eq!(rt; journal.len(), 2);
    Ok(())
}

#[test]
fn a_fresh_journal(rt: HostRuntime) -> Result<(), Fail> {
    let alloc = rt.alloc();
    let zero = member(0)?;
    let mut journal = two_sends(alloc)?;
    assert_eq!(rt; journal.release(alloc, zero), Ok(false));
    assert!(rt; !journal.ready(zero) && !journal.crashed(zero));
    assert!(rt; !journal.would_fill(0) && !journal.settled());
    assert_eq!(rt; journal.version(zero), 0);
    assert_eq!(rt; journal.kind(zero), Kind::Sequencer(zero));
    assert_eq!(rt; journal.log(zero).len(), 0);
    Ok(())
}
