ghost use Rattle.std.specs.Prelude.{true, ◌≡◌, ◌<◌, ◌≤◌, IfOk};
ghost use Rattle.upd_base.specs.Kind.{KindFits};
ghost use Rattle.member_core.specs.Member.{kept_by};

use crate::again::{Frames, make_again};
use member_core::{Input, Member};
use order_trait::Ordering;
use sequencer_order::SequencerOrder;
use std::alloc::Global;
use std::test::*;
use upd_base::{Answer, Body, Call, Frame, Item, Kind, MemberId, Text};

pub(crate) type One = Member<SequencerOrder>;

pub(crate) fn member(id: u8) -> Result<MemberId, Fail>
    ensures { IfOk result (λ m. m ≡ id) }
{
    match MemberId::new(id) {
        Some(member) => Ok(member),
        None => Err("a member")?,
    }
}

/// Member 0 of a group of n, whose first kind is the sequencer 0.
pub(crate) fn started(alloc: Global, n: u8) -> Result<One, Fail>
    requires some { 1 ≤ n }
    requires few { n ≤ 7 }
    ensures { IfOk result (λ m. (kept_by m).members ≡ n) }
{
    let zero = member(0)?;
    let first = Kind::Sequencer(zero);
    if !first.fits(n) {
        return Err("the first kind fits")?;
    }
    Ok(Member::start(alloc, n, zero, first)?)
}

/// What a call was answered.
fn answered(answer: Option<Answer>) -> Result<Answer, Fail> {
    Ok(answer.ok_or("an answer")?)
}

pub(crate) fn send(alloc: Global, one: &mut One, out: &mut Frames) -> Result<Answer, Fail>
    ensures { (kept_by one.new).members ≡ (kept_by one.old).members }
{
    let Some(text) = Text::new(alloc, b"a")? else {
        return Err("a payload")?;
    };
    if one.accepted() >= 1_000_000 {
        return Err("too many")?;
    }
    answered(make_again(alloc, one, &Input::Call(Call::Send(text)), out)?)
}

pub(crate) fn change(
    alloc: Global,
    one: &mut One,
    kind: Kind,
    out: &mut Frames,
) -> Result<Answer, Fail>
    ensures { (kept_by one.new).members ≡ (kept_by one.old).members }
{
    if !SequencerOrder::serves(kind) {
        return Err("a kind that is served")?;
    }
    if one.accepted() >= 1_000_000 {
        return Err("too many")?;
    }
    answered(make_again(alloc, one, &Input::Call(Call::Change(kind)), out)?)
}

pub(crate) fn suspect(
    alloc: Global,
    one: &mut One,
    who: u8,
    out: &mut Frames,
) -> Result<Answer, Fail>
    ensures { (kept_by one.new).members ≡ (kept_by one.old).members }
{
    if one.accepted() >= 1_000_000 {
        return Err("too many")?;
    }
    answered(make_again(alloc, one, &Input::Call(Call::Suspect(who)), out)?)
}

pub(crate) fn trust(alloc: Global, one: &mut One, who: u8, out: &mut Frames) -> Result<Answer, Fail>
    ensures { (kept_by one.new).members ≡ (kept_by one.old).members }
{
    if one.accepted() >= 1_000_000 {
        return Err("too many")?;
    }
    answered(make_again(alloc, one, &Input::Call(Call::Trust(who)), out)?)
}

pub(crate) fn crash(alloc: Global, one: &mut One, out: &mut Frames) -> Result<Answer, Fail>
    ensures { (kept_by one.new).members ≡ (kept_by one.old).members }
{
    if one.accepted() >= 1_000_000 {
        return Err("too many")?;
    }
    answered(make_again(alloc, one, &Input::Call(Call::Crash), out)?)
}

/// The member of a group of n takes a frame of another or of itself.
pub(crate) fn take(
    alloc: Global,
    one: &mut One,
    n: u8,
    from: u8,
    frame: Frame,
    out: &mut Frames,
) -> Result<(), Fail>
    requires { (kept_by one.old).members ≡ n }
    ensures { (kept_by one.new).members ≡ n }
{
    if one.crashed() {
        return Err("up")?;
    }
    if from >= n {
        return Err("a member of the group")?;
    }
    if !frame.fits(n) {
        return Err("a frame that fits")?;
    }
    if !frame.body.counts_from_one() {
        return Err("a body that counts")?;
    }
    let from = member(from)?;
    let input = Input::Receive { from, frame };
    make_again(alloc, one, &input, out)?;
    Ok(())
}

/// The member of a group of one takes a frame that it sent to itself.
fn receive(alloc: Global, one: &mut One, frame: Frame, out: &mut Frames) -> Result<(), Fail>
    requires { (kept_by one.old).members ≡ 1 }
    ensures { (kept_by one.new).members ≡ 1 }
{
    take(alloc, one, 1, 0, frame, out)
}

/// The next frame of the member of a group of one goes back to it.
fn pass(alloc: Global, one: &mut One, out: &mut Frames) -> Result<(), Fail>
    requires { (kept_by one.old).members ≡ 1 }
    ensures { (kept_by one.new).members ≡ 1 }
{
    let Some((_, frame)) = out.pop_front() else {
        return Err("a frame")?;
    };
    receive(alloc, one, frame, out)
}

/// A change to the sequencer 0 in a group of one, with its three receipts: the request, the order, and that the version is past.
fn replace(alloc: Global, one: &mut One) -> Result<Answer, Fail>
    requires { (kept_by one.old).members ≡ 1 }
    ensures { (kept_by one.new).members ≡ 1 }
{
    let mut out = Frames::new(alloc);
    let answer = change(alloc, one, Kind::Sequencer(member(0)?), &mut out)?;
    pass(alloc, one, &mut out)?;
    pass(alloc, one, &mut out)?;
    if out.pop_front().is_some() {
        return Err("three frames")?;
    }
    Ok(answer)
}

fn replace_again(alloc: Global, one: &mut One, times: u16) -> Result<(), Fail>
    requires { (kept_by one.old).members ≡ 1 }
    ensures { (kept_by one.new).members ≡ 1 }
{
    for _ in 0..times {
        replace(alloc, one)?;
    }
    Ok(())
}

#[test]
fn the_last_version(rt: HostRuntime) -> Result<(), Fail> {
    let alloc = rt.alloc();
    let mut out = Frames::new(alloc);
    let mut one = started(alloc, 1)?;
    assert_eq!(rt; replace(alloc, &mut one)?, Answer::Accepted(0));
    assert_eq!(rt; (one.version(), one.log().len()), (1, 1));
    replace_again(alloc, &mut one, 999)?;
    assert_eq!(rt; (one.version(), one.log().len()), (1000, 1000));
    let zero = Kind::Sequencer(member(0)?);
    assert_eq!(rt; one.kind(), zero);
    assert_eq!(rt;
        change(alloc, &mut one, zero, &mut out)?,
        Answer::VersionLimit
    );
    assert!(rt; out.pop_front().is_none());
    assert_eq!(rt; send(alloc, &mut one, &mut out)?, Answer::Accepted(1000));
    assert_eq!(rt; (one.undelivered(), one.would_fill()), (1, false));
    Ok(())
}

#[test]
fn refusals(rt: HostRuntime) -> Result<(), Fail> {
    let alloc = rt.alloc();
    let mut out = Frames::new(alloc);
    let mut one = started(alloc, 3)?;
    assert_eq!(rt; suspect(alloc, &mut one, 5, &mut out)?, Answer::BadMember);
    assert_eq!(rt; suspect(alloc, &mut one, 0, &mut out)?, Answer::BadMember);
    assert_eq!(rt; suspect(alloc, &mut one, 2, &mut out)?, Answer::Done);
    let four = Kind::Sequencer(member(4)?);
    assert_eq!(rt; change(alloc, &mut one, four, &mut out)?, Answer::BadKind);
    assert_eq!(rt; crash(alloc, &mut one, &mut out)?, Answer::Done);
    assert_eq!(rt; suspect(alloc, &mut one, 5, &mut out)?, Answer::Crashed);
    assert_eq!(rt; trust(alloc, &mut one, 2, &mut out)?, Answer::Crashed);
    assert_eq!(rt; crash(alloc, &mut one, &mut out)?, Answer::Crashed);
    assert_eq!(rt; change(alloc, &mut one, four, &mut out)?, Answer::Crashed);
    assert_eq!(rt; send(alloc, &mut one, &mut out)?, Answer::Crashed);
    assert!(rt; one.crashed());
    assert!(rt; out.pop_front().is_none());
    Ok(())
}

#[test]
fn prepared_and_committed(rt: HostRuntime) -> Result<(), Fail> {
    let alloc = rt.alloc();
    let mut one = started(alloc, 1)?;
    let text = Text::new(alloc, b"a")?.ok_or("a payload")?;
    let input = Input::Call(Call::Send(text));
    if one.accepted() >= 1_000_000 {
        return Err("too many")?;
    }
    let prepared = one.prepare(alloc, &input)?;
    assert_eq!(rt; prepared.answer(), Some(Answer::Accepted(0)));
    assert_eq!(rt; prepared.sent().len(), 1);
    assert_eq!(rt; one.accepted(), 0);
    let (answer, mut sent) = one.commit(prepared);
    assert_eq!(rt; (answer, one.accepted()), (Some(Answer::Accepted(0)), 1));
    let (to, frame) = sent.drain_first().ok_or("a frame")?;
    assert_eq!(rt; (to, frame.version), (member(0)?, 0));
    assert!(rt; matches!(&frame.body, Body::Ask { .. }));
    assert!(rt; sent.drain_first().is_none());
    Ok(())
}

/// The request of this message to the sequencer of version 0.
fn request(alloc: Global) -> Result<Frame, Fail> {
    let payload = Text::new(alloc, b"a")?.ok_or("a payload")?;
    let item = Item::Msg {
        origin: member(0)?,
        number: 0,
        payload,
    };
    let body = Body::Ask { item };
    Ok(Frame { version: 0, body })
}

#[test]
fn a_request_is_prepared(rt: HostRuntime) -> Result<(), Fail> {
    let alloc = rt.alloc();
    let mut one = started(alloc, 1)?;
    let frame = request(alloc)?;
    if one.crashed() || !frame.fits(1) || !frame.body.counts_from_one() {
        return Err("a frame that may be received")?;
    }
    let from = member(0)?;
    let input = Input::Receive { from, frame };
    let prepared = one.prepare(alloc, &input)?;
    assert!(rt; prepared.answer().is_none());
    assert_eq!(rt; prepared.sent().len(), 1);
    let (to, frame) = &prepared.sent()[0];
    assert_eq!(rt; (to.get(), frame.version), (0, 0));
    assert!(rt; matches!(&frame.body, Body::Ord { place: 1, .. }));
    assert_eq!(rt; one.log().len(), 0);
    Ok(())
}
