use super::*;
use std::test::Fail;
use upd_base::{Body, Frame, MemberId};

fn frame(version: u16, stamp: u64) -> Frame {
    Frame {
        version,
        body: Body::Ack { stamp },
    }
}

#[test]
fn released_as_versions_are_reached(rt: HostRuntime) -> Result<(), Fail> {
    let zero = MemberId::new(0).ok_or("no member")?;
    let one = MemberId::new(1).ok_or("no member")?;
    let mut held = Held::new(rt.alloc());
    held.keep(zero, frame(2, 1))?;
    held.keep(one, frame(1, 2))?;
    assert!(rt; !held.ready(0));
    assert_eq!(rt; held.release(0), None);
    assert_eq!(rt; held.release(1), Some((one, frame(1, 2))));
    assert_eq!(rt; held.release(2), Some((zero, frame(2, 1))));
    Ok(())
}

#[test]
fn released_by_arrival(rt: HostRuntime) -> Result<(), Fail> {
    let zero = MemberId::new(0).ok_or("no member")?;
    let one = MemberId::new(1).ok_or("no member")?;
    let mut held = Held::new(rt.alloc());
    held.reserve()?;
    held.keep_ready(zero, frame(2, 1));
    assert!(rt; held.ready(2));
    held.keep(one, frame(1, 2))?;
    held.keep(zero, frame(2, 3))?;
    assert!(rt; held.waits(zero, 2) && !held.waits(zero, 1) && !held.waits(one, 2));
    assert_eq!(rt; held.first(2), Some(&(zero, frame(2, 1))));
    assert_eq!(rt; held.release(2), Some((zero, frame(2, 1))));
    assert_eq!(rt; held.release(2), Some((one, frame(1, 2))));
    assert_eq!(rt; held.release(2), Some((zero, frame(2, 3))));
    Ok(())
}

#[test]
fn versions_that_mix(rt: HostRuntime) -> Result<(), Fail> {
    let zero = MemberId::new(0).ok_or("no member")?;
    let mut held = Held::new(rt.alloc());
    for (version, stamp) in [
        (3, 1),
        (1, 2),
        (2, 3),
        (3, 4),
        (1, 5),
        (2, 6),
        (1, 7),
        (4, 8),
    ] {
        held.keep(zero, frame(version, stamp))?;
    }
    assert_eq!(rt; held.first(0), None);
    for stamp in [2, 5, 7] {
        assert_eq!(rt; held.release(1), Some((zero, frame(1, stamp))));
    }
    assert!(rt; !held.ready(1) && held.ready(2));
    assert!(rt; !held.waits(zero, 1) && held.waits(zero, 2) && held.waits(zero, 4));
    for (version, stamp) in [(3, 1), (2, 3), (3, 4), (2, 6), (4, 8)] {
        assert_eq!(rt; held.release(4), Some((zero, frame(version, stamp))));
    }
    assert_eq!(rt; held.release(4), None);
    Ok(())
}
