//! The links of a group, first in, first out.
use fifo_link::Links;
use std::test::Fail;
use upd_base::{Body, Frame, MemberId};

fn ack(stamp: u64) -> Frame {
    Frame {
        version: 0,
        body: Body::Ack { stamp },
    }
}

#[test]
fn one_member(rt: HostRuntime) -> Result<(), Fail> {
    let me = MemberId::new(0).ok_or("no member")?;
    let mut links = Links::new(rt.alloc(), 1)?;
    links.reserve(me, me, 2)?;
    links.send_ready(me, me, ack(1));
    links.send_ready(me, me, ack(2));
    assert_eq!(rt; links.take(me, me), Some(ack(1)));
    assert_eq!(rt; links.take(me, me), Some(ack(2)));
    assert_eq!(rt; links.take(me, me), None);
    Ok(())
}

#[test]
fn there_and_back(rt: HostRuntime) -> Result<(), Fail> {
    let zero = MemberId::new(0).ok_or("no member")?;
    let one = MemberId::new(1).ok_or("no member")?;
    let mut links = Links::new(rt.alloc(), 2)?;
    assert_eq!(rt; links.members(), 2);
    links.send(zero, one, ack(1))?;
    links.send(zero, one, ack(2))?;
    assert!(rt; links.next(one, zero).is_none());
    assert_eq!(rt; links.next(zero, one), Some(&ack(1)));
    assert_eq!(rt; links.take(zero, one), Some(ack(1)));
    assert_eq!(rt; links.next(zero, one), Some(&ack(2)));
    Ok(())
}
