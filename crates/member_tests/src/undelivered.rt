//! What a member issues and has not delivered, and a switch that ends a version.
use replacement::{Act, Repl};
use std::alloc::Global;
use std::test::Fail;
use upd_base::{Item, Kind, MemberId, Text};

fn text(alloc: Global, bytes: &[u8]) -> Result<Text, Fail> {
    Ok(Text::new(alloc, bytes)?.ok_or("no payload")?)
}

#[test]
fn one_undelivered(rt: HostRuntime) -> Result<(), Fail> {
    let alloc = rt.alloc();
    let me = MemberId::new(2).ok_or("no member")?;
    let mut repl = Repl::new(alloc, me, Kind::Lamport);
    let item = repl.issue(&text(alloc, b"a")?)?.ok_or("full")?;
    let copy = repl.copy(alloc)?;
    assert!(rt; copy.undelivered() == 1);
    assert_eq!(rt; copy.made(), 1);
    let acts = repl.delivered(alloc, 0, vec![in alloc; item.copy()?]?)?;
    assert_eq!(rt; acts.as_slice(), [Act::Deliver(item)].as_slice());
    assert!(rt; repl.undelivered() == 0);
    Ok(())
}

#[test]
fn a_switch_ends_the_version(rt: HostRuntime) -> Result<(), Fail> {
    let alloc = rt.alloc();
    let me = MemberId::new(0).ok_or("no member")?;
    let mut repl = Repl::new(alloc, me, Kind::Sequencer(me));
    let first = repl.issue(&text(alloc, b"a")?)?.ok_or("full")?;
    let switch = repl.ask_change(Kind::Lamport).ok_or("last version")?;
    let second = repl.issue(&text(alloc, b"b")?)?.ok_or("full")?;
    let late = repl.issue(&text(alloc, b"c")?)?.ok_or("full")?;
    let items = vec![in alloc; first.copy()?, switch.copy()?, late.copy()?]?;
    let acts = repl.delivered(alloc, 0, items)?;
    assert_eq!(rt;
        acts.as_slice(),
        [
            Act::Deliver(first),
            Act::Deliver(switch),
            Act::Bind(Kind::Lamport),
            Act::Reissue(second),
            Act::Reissue(late.copy()?),
        ]
        .as_slice()
    );
    assert_eq!(rt; (repl.version(), repl.kind()), (1, Kind::Lamport));
    let acts = repl.delivered(alloc, 0, vec![in alloc; late]?)?;
    assert!(rt; acts.is_empty());
    Ok(())
}
