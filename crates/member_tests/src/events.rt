//! Tables of events of one member.
ghost use Rattle.std.specs.Prelude.{◌≡◌};
ghost use Rattle.member_core.specs.Member.{kept_by};

use crate::again::{Frames, Readings, make_again, says};
use crate::tests::{One, change, crash, member, send, started, suspect, take, trust};
use member_core::Input;
use std::alloc::Global;
use std::test::*;
use upd_base::{Answer, Body, Entry, Frame, Item, Kind, Text};

/// An event of member 0.
#[derive(Clone, Copy)]
enum Event {
    Send,
    /// A change to this sequencer.
    Change(u8),
    Suspect(u8),
    Trust(u8),
    Crash,
    /// It takes the next frame that it sent to itself.
    Own,
    /// Member 1 asks it in version 0 to order a message of this number.
    Ask(u32),
    /// Member 1 gives in version 1 this place to the message of this origin and number.
    Order(u64, u8, u32),
    Release,
}

fn message(alloc: Global, origin: u8, number: u32) -> Result<Item, Fail> {
    let payload = Text::new(alloc, b"a")?.ok_or("a payload")?;
    Ok(Item::Msg {
        origin: member(origin)?,
        number,
        payload,
    })
}

/// The next frame that member 0 sent to itself.
fn own_frame(out: &mut Frames) -> Result<Frame, Fail> {
    for _ in 0..8 {
        let Some((to, frame)) = out.pop_front() else {
            return Err("a frame")?;
        };
        if to.get() == 0 {
            return Ok(frame);
        }
    }
    Err("a frame to itself")?
}

/// The sender of the frame that an event brings, and the frame.
fn brought(alloc: Global, event: Event, out: &mut Frames) -> Result<(u8, Frame), Fail> {
    match event {
        Event::Ask(number) => {
            let item = message(alloc, 1, number)?;
            let body = Body::Ask { item };
            Ok((1, Frame { version: 0, body }))
        }
        Event::Order(place, origin, number) => {
            let item = message(alloc, origin, number)?;
            let body = Body::Ord { place, item };
            Ok((1, Frame { version: 1, body }))
        }
        _ => Ok((0, own_frame(out)?)),
    }
}

fn release(alloc: Global, one: &mut One, out: &mut Frames) -> Result<(), Fail>
    ensures { (kept_by one.new).members ≡ (kept_by one.old).members }
{
    if one.crashed() {
        return Err("up")?;
    }
    if !one.ready() {
        return Err("a held frame whose version is reached")?;
    }
    make_again(alloc, one, &Input::Release, out)?;
    Ok(())
}

/// Makes an event; what is answered, where it is a call.
fn make(
    alloc: Global,
    one: &mut One,
    n: u8,
    event: Event,
    out: &mut Frames,
) -> Result<Option<Answer>, Fail>
    requires { (kept_by one.old).members ≡ n }
    ensures { (kept_by one.new).members ≡ n }
{
    match event {
        Event::Send => Ok(Some(send(alloc, one, out)?)),
        Event::Change(to) => {
            let kind = Kind::Sequencer(member(to)?);
            Ok(Some(change(alloc, one, kind, out)?))
        }
        Event::Suspect(who) => Ok(Some(suspect(alloc, one, who, out)?)),
        Event::Trust(who) => Ok(Some(trust(alloc, one, who, out)?)),
        Event::Crash => Ok(Some(crash(alloc, one, out)?)),
        Event::Release => {
            release(alloc, one, out)?;
            Ok(None)
        }
        Event::Own | Event::Ask(_) | Event::Order(..) => {
            let (from, frame) = brought(alloc, event, out)?;
            take(alloc, one, n, from, frame, out)?;
            Ok(None)
        }
    }
}

/// Makes the events of a table, each of which has the answer that stands beside it.
fn make_all(
    alloc: Global,
    one: &mut One,
    n: u8,
    table: &[(Event, Option<Answer>)],
    out: &mut Frames,
) -> Result<(), Fail>
    requires { (kept_by one.old).members ≡ n }
    ensures { (kept_by one.new).members ≡ n }
{
    for (event, answer) in table {
        if make(alloc, one, n, *event, out)? != *answer {
            return Err("another answer")?;
        }
    }
    Ok(())
}

/// An entry in short: its version, its origin, its number, and whether it is a message.
fn short(entry: &Entry) -> (u16, u8, u32, bool) {
    match &entry.item {
        Item::Msg { origin, number, .. } => (entry.version, origin.get(), *number, true),
        Item::Switch { origin, number, .. } => (entry.version, origin.get(), *number, false),
    }
}

/// Whether these are the entries of its log.
fn delivered(one: &One, expected: &[(u16, u8, u32, bool)]) -> bool {
    let entries = one.log().entries();
    if entries.len() != expected.len() {
        return false;
    }
    for at in 0..entries.len() {
        if short(&entries[at]) != expected[at] {
            return false;
        }
    }
    true
}

/// A member that is up and holds no frame, and whose sequencer is this.
fn settled(sequencer: u8, entries: usize, accepted: u32) -> Result<Readings, Fail> {
    Ok(Readings {
        entries,
        version: 1,
        kind: Kind::Sequencer(member(sequencer)?),
        undelivered: 0,
        accepted,
        crashed: false,
        ready: false,
        would_fill: false,
    })
}

#[test]
fn events_of_the_sequencer(rt: HostRuntime) -> Result<(), Fail> {
    let alloc = rt.alloc();
    let mut out = Frames::new(alloc);
    let mut one = started(alloc, 3)?;
    let before = [
        (Event::Send, Some(Answer::Accepted(0))),
        (Event::Suspect(2), Some(Answer::Done)),
        (Event::Suspect(1), Some(Answer::Done)),
        (Event::Trust(2), Some(Answer::Done)),
        (Event::Change(1), Some(Answer::Accepted(1))),
        (Event::Ask(0), None),
        (Event::Own, None),
        (Event::Own, None),
        (Event::Own, None),
        (Event::Own, None),
        (Event::Send, Some(Answer::Accepted(2))),
        (Event::Order(1, 1, 1), None),
        (Event::Order(2, 2, 0), None),
    ];
    make_all(alloc, &mut one, 3, before.as_slice(), &mut out)?;
    assert!(rt; !one.ready());
    let log = [(0, 1, 0, true), (0, 0, 0, true)];
    assert!(rt; delivered(&one, log.as_slice()));
    let after = [
        (Event::Own, None),
        (Event::Order(3, 0, 2), None),
        (Event::Release, None),
        (Event::Release, None),
        (Event::Release, None),
        (Event::Trust(1), Some(Answer::Done)),
        (Event::Own, None),
        (Event::Own, None),
    ];
    make_all(alloc, &mut one, 3, after.as_slice(), &mut out)?;
    assert_eq!(rt; says(&one), settled(1, 6, 3)?);
    crash(alloc, &mut one, &mut out)?;
    assert!(rt; one.crashed());
    let log = [
        (0, 1, 0, true),
        (0, 0, 0, true),
        (0, 0, 1, false),
        (1, 1, 1, true),
        (1, 2, 0, true),
        (1, 0, 2, true),
    ];
    assert!(rt; delivered(&one, log.as_slice()));
    Ok(())
}
