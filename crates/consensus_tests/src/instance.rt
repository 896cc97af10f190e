//! One member in one instance: what it sends where coordinators are suspected, and a decision.
ghost use Rattle.std.specs.Prelude.{ℕ, ◌≡◌, ◌<◌, ◌≤◌, IfOk};
ghost use Rattle.upd_base.specs.Body.{BodyFits};
ghost use Rattle.ct_consensus.specs.Moves.{TrustsItself};
ghost use Rattle.ct_consensus.specs.Instance.{members_of, me_of};

use crate::given::{batch, decision, member};
use ct_consensus::Instance;
use order_trait::Outbox;
use std::alloc::Global;
use std::test::*;
use upd_base::Body;

fn estimate(alloc: Global, n: u8, round: u64) -> Result<Body, Fail>
    ensures { IfOk result (λ body. BodyFits n body) }
{
    Ok(Body::Est {
        instance: 1,
        round,
        stamp: 0,
        batch: batch(alloc, n)?,
    })
}

fn proposal(alloc: Global, n: u8) -> Result<Body, Fail>
    ensures { IfOk result (λ body. BodyFits n body) }
{
    Ok(Body::Prop {
        instance: 1,
        round: 1,
        batch: batch(alloc, n)?,
    })
}

fn reply(round: u64, agree: bool) -> Body
    ensures { (n : ℕ) → BodyFits n result }
{
    Body::Reply {
        instance: 1,
        round,
        yes: agree,
    }
}

/// Instance 1 of n members at a member, started with these suspicions.
fn started(
    alloc: Global,
    n: u8,
    me: u8,
    row: &[bool; 7],
    out: &mut Outbox,
) -> Result<Instance, Fail>
    requires few { n ≤ 7 }
    requires seated { me < n }
    requires not_me { TrustsItself row.now me }
    ensures members { IfOk result (λ i. members_of i ≡ n) }
    ensures me { IfOk result (λ i. me_of i ≡ me) }
{
    let seat = member(me)?;
    let Ok(mut instance) = Instance::new(alloc, 1, n, seat) else {
        return Err("memory")?;
    };
    if instance.start(alloc, batch(alloc, n)?, row, out).is_err() {
        return Err("memory")?;
    }
    Ok(instance)
}

#[test]
fn one_suspected(rt: HostRuntime) -> Result<(), Fail> {
    let alloc = rt.alloc();
    let mut out = Outbox::new(alloc);
    let row = [true, false, false, false, false, false, false];
    let instance = started(alloc, 3, 2, &row, &mut out)?;
    assert_eq!(rt;
        out.drain_first(),
        Some((member(0)?, estimate(alloc, 3, 1)?))
    );
    assert_eq!(rt; out.drain_first(), Some((member(0)?, reply(1, false))));
    assert_eq!(rt;
        out.drain_first(),
        Some((member(1)?, estimate(alloc, 3, 2)?))
    );
    assert!(rt; out.drain_first().is_none());
    assert_eq!(rt; instance.round(), 2);
    assert!(rt; instance.decided().is_none());
    match instance.copy(alloc) {
        Ok(copy) => assert_eq!(rt; copy.round(), 2),
        Err(_) => Err("memory")?,
    }
    Ok(())
}

/// What member 0 sends where it takes a body from itself.
fn answer(
    alloc: Global,
    instance: &mut Instance,
    body: &Body,
    out: &mut Outbox,
) -> Result<Body, Fail>
    requires one { members_of instance.old ≡ 1 }
    requires me { me_of instance.old ≡ 0 }
    requires fits { BodyFits 1 body.now }
    ensures members { members_of instance.new ≡ 1 }
    ensures me_stays { me_of instance.new ≡ 0 }
{
    let row = [false; 7];
    if instance
        .receive(alloc, member(0)?, body, &row, out)
        .is_err()
    {
        return Err("memory")?;
    }
    match out.drain_first() {
        Some((_, body)) => Ok(body),
        None => Err("an answer")?,
    }
}

#[test]
fn one_member_decides(rt: HostRuntime) -> Result<(), Fail> {
    let alloc = rt.alloc();
    let mut out = Outbox::new(alloc);
    let row = [false; 7];
    let mut instance = started(alloc, 1, 0, &row, &mut out)?;
    assert_eq!(rt;
        out.drain_first(),
        Some((member(0)?, estimate(alloc, 1, 1)?))
    );
    let proposed = answer(alloc, &mut instance, &estimate(alloc, 1, 1)?, &mut out)?;
    assert_eq!(rt; proposed, proposal(alloc, 1)?);
    let replied = answer(alloc, &mut instance, &proposal(alloc, 1)?, &mut out)?;
    assert_eq!(rt; replied, reply(1, true));
    let concluded = answer(alloc, &mut instance, &reply(1, true), &mut out)?;
    assert_eq!(rt; concluded, decision(alloc, 1)?);
    assert!(rt; instance.decided().is_none());
    assert!(rt;
        instance
            .receive(alloc, member(0)?, &decision(alloc, 1)?, &row, &mut out)
            .is_ok()
    );
    assert!(rt; instance.decided().is_some());
    assert!(rt; out.drain_first().is_none());
    assert_eq!(rt; instance.round(), 1);
    Ok(())
}

#[test]
fn suspected_later(rt: HostRuntime) -> Result<(), Fail> {
    let alloc = rt.alloc();
    let mut out = Outbox::new(alloc);
    let mut instance = started(alloc, 3, 2, &[false; 7], &mut out)?;
    assert_eq!(rt;
        out.drain_first(),
        Some((member(0)?, estimate(alloc, 3, 1)?))
    );
    let row = [true, false, false, false, false, false, false];
    assert!(rt; instance.suspect(alloc, &row, &mut out).is_ok());
    assert_eq!(rt; out.drain_first(), Some((member(0)?, reply(1, false))));
    assert_eq!(rt;
        out.drain_first(),
        Some((member(1)?, estimate(alloc, 3, 2)?))
    );
    assert!(rt; out.drain_first().is_none());
    assert_eq!(rt; instance.round(), 2);
    Ok(())
}

#[test]
fn two_suspected(rt: HostRuntime) -> Result<(), Fail> {
    let alloc = rt.alloc();
    let mut out = Outbox::new(alloc);
    let mut instance = started(alloc, 3, 2, &[false; 7], &mut out)?;
    let first = [true, false, false, false, false, false, false];
    assert!(rt; instance.suspect(alloc, &first, &mut out).is_ok());
    for _ in 0..3u8 {
        let _ = out.drain_first();
    }
    assert!(rt; out.drain_first().is_none());
    let both = [true, true, false, false, false, false, false];
    assert!(rt; instance.suspect(alloc, &both, &mut out).is_ok());
    assert_eq!(rt; out.drain_first(), Some((member(1)?, reply(2, false))));
    assert_eq!(rt;
        out.drain_first(),
        Some((member(2)?, estimate(alloc, 3, 3)?))
    );
    assert!(rt; out.drain_first().is_none());
    assert_eq!(rt; instance.round(), 3);
    assert!(rt; instance.decided().is_none());
    Ok(())
}
