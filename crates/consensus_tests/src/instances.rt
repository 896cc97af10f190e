//! A member of one that starts instances by number, decides them and copies them.
use crate::given::{batch, decision, member};
use instance_table::Instances;
use order_trait::Outbox;
use std::test::*;
use upd_base::Body;

#[test]
fn one_member(rt: HostRuntime) -> Result<(), Fail> {
    let alloc = rt.alloc();
    let mut out = Outbox::new(alloc);
    let me = member(0)?;
    let mut instances = Instances::new(alloc, 1, me);
    assert_eq!(rt; instances.round(1), 0);
    assert!(rt;
        instances
            .start(alloc, 1, batch(alloc, 1)?, &mut out)
            .is_ok()
    );
    assert!(rt; out.drain_first().is_some());
    assert_eq!(rt; instances.round(1), 1);
    let reply = Body::Reply {
        instance: 1,
        round: 1,
        yes: true,
    };
    assert!(rt; instances.hear(alloc, 1, me, &reply, &mut out).is_ok());
    assert!(rt; out.drain_first().is_none());
    let Ok(copy) = instances.copy(alloc) else {
        return Err("memory")?;
    };
    assert!(rt;
        instances
            .decide(alloc, 1, me, &decision(alloc, 1)?, &mut out)
            .is_ok()
    );
    assert!(rt; out.drain_first().is_some());
    assert_eq!(rt; instances.round(1), 0);
    assert_eq!(rt; copy.round(1), 1);
    assert_eq!(rt; copy.members(), 1);
    assert!(rt; copy.me() == me);
    Ok(())
}

#[test]
fn suspected(rt: HostRuntime) -> Result<(), Fail> {
    let alloc = rt.alloc();
    let mut out = Outbox::new(alloc);
    let mut instances = Instances::new(alloc, 2, member(1)?);
    assert!(rt; instances.suspect(alloc, member(0)?, &mut out).is_ok());
    assert!(rt; out.drain_first().is_none());
    instances.trust(member(0)?);
    Ok(())
}
