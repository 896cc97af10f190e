//! Reading frames, field by field from the left.
ghost use Rattle.std.specs.Prelude.{◌≡◌, ◌≤◌, ◌<◌, ◌-◌, ℕ, true, false, List, None, IfSome, IfNone, slice_index, length, drop, take, IfOk, IfErr, Ok, Err};
ghost use Rattle.std.specs.Int.{w16, w32, w64};
ghost use Rattle.std.specs.List.{list_all};
ghost use Rattle.upd_base.specs.Text.{is_printable, is_payload};
ghost use Rattle.upd_base.specs.Item.{id_of};
ghost use Rattle.upd_frame.specs.Spelling.{Spells};
ghost use Rattle.upd_frame.specs.Laws.{IsOfFront};
ghost use Rattle.upd_frame.specs.Reader.{Gives, place, byte, number, only, text};
ghost use Rattle.upd_frame.specs.Reading.{is_member, is_length, is_count, is_version, from_one, any, tag_of, flag_of, comes_after, member, kind_of, kind, message, switch, item, items, batch, count, body, frame, front, reading};

use crate::fault::FrameFault;
use crate::tag::{Tag, tag_of};
use std::alloc::Global;
use upd_base::{
    Batch, Body, Frame, Item, Kind, MAX_BATCH, MAX_PAYLOAD, MAX_VERSION, MemberId, Text,
    is_printable,
};

/// The origin and number of an item.
pub(crate) type Id = (u8, u32);

/// How many bytes stand before those that are left: the place of the next field.
pub(crate) fn place(all: usize, left: &[u8]) -> usize
    ensures { result ≡ place all left.now }
{
    all.saturating_sub(left.len())
}

#[tactic(auto, unfolding(crate::specs::Reader::byte))]
pub(crate) fn tag_at(all: usize, left: &mut &[u8]) -> Result<Tag, FrameFault>
    ensures { Gives (λ x. (x, left.new.now)) result (byte tag_of FrameFault.BadTag all left.old.now) }
{
    let [first, rest @ ..] = *left else {
        return Err(FrameFault::Short);
    };
    match tag_of(*first) {
        Some(tag) => {
            *left = rest;
            Ok(tag)
        }
        None => Err(FrameFault::BadTag(place(all, left))),
    }
}

#[tactic(auto, unfolding(crate::specs::Reader::byte))]
pub(crate) fn flag_at(all: usize, left: &mut &[u8]) -> Result<bool, FrameFault>
    ensures { Gives (λ x. (x, left.new.now)) result (byte flag_of FrameFault.BadTag all left.old.now) }
{
    match *left {
        [] => Err(FrameFault::Short),
        [0, rest @ ..] => {
            *left = rest;
            Ok(false)
        }
        [1, rest @ ..] => {
            *left = rest;
            Ok(true)
        }
        [_, ..] => Err(FrameFault::BadTag(place(all, left))),
    }
}

#[tactic(auto, unfolding(crate::specs::Reader::byte, crate::specs::Reading::member))]
pub(crate) fn member_at(all: usize, left: &mut &[u8]) -> Result<MemberId, FrameFault>
    ensures { Gives (λ x. (x, left.new.now)) result (member all left.old.now) }
{
    let [first, rest @ ..] = *left else {
        return Err(FrameFault::Short);
    };
    match MemberId::new(*first) {
        Some(member) => {
            *left = rest;
            Ok(member)
        }
        None => Err(FrameFault::BadNumber(place(all, left))),
    }
}

/// How many items a batch has.
#[tactic(auto, unfolding(crate::specs::Reader::byte))]
pub(crate) fn count_at(all: usize, left: &mut &[u8]) -> Result<u8, FrameFault>
    ensures gives { Gives (λ x. (x, left.new.now)) result (byte (only is_count) FrameFault.BadNumber all left.old.now) }
    ensures range { IfOk result (λ n. is_count n ≡ true) }
{
    let [first, rest @ ..] = *left else {
        return Err(FrameFault::Short);
    };
    if *first == 0 || usize::from(*first) > MAX_BATCH {
        return Err(FrameFault::BadNumber(place(all, left)));
    }
    *left = rest;
    Ok(*first)
}

#[tactic(auto, unfolding(crate::specs::Reader::number))]
pub(crate) fn version_at(all: usize, left: &mut &[u8]) -> Result<u16, FrameFault>
    ensures { Gives (λ x. (x, left.new.now)) result (number w16 is_version all left.old.now) }
{
    if left.len() < 2 {
        return Err(FrameFault::Short);
    }
    let (front, rest) = left.split_at(2);
    let version = u16::from_be_bytes([front[0], front[1]]);
    if version > MAX_VERSION {
        return Err(FrameFault::BadNumber(place(all, left)));
    }
    *left = rest;
    Ok(version)
}

/// How many bytes a payload has.
#[tactic(auto, unfolding(crate::specs::Reader::number))]
pub(crate) fn length_at(all: usize, left: &mut &[u8]) -> Result<usize, FrameFault>
    ensures gives { Gives (λ x. (x, left.new.now)) result (number w16 is_length all left.old.now) }
    ensures range { IfOk result (λ n. (1 ≤ n) × (n ≤ 256)) }
{
    if left.len() < 2 {
        return Err(FrameFault::Short);
    }
    let (front, rest) = left.split_at(2);
    let length = usize::from(u16::from_be_bytes([front[0], front[1]]));
    if length == 0 || length > MAX_PAYLOAD {
        return Err(FrameFault::BadNumber(place(all, left)));
    }
    *left = rest;
    Ok(length)
}

/// Whether an item of this origin and number stands behind the one before it.
fn comes_after(before: Option<Id>, origin: u8, number: u32) -> bool
    ensures { result ≡ comes_after before origin number }
{
    match before {
        None => true,
        Some(id) => id.0 < origin || (id.0 == origin && id.1 < number),
    }
}

/// The number of an item.
#[tactic(auto, unfolding(crate::specs::Reader::number))]
pub(crate) fn number_at(
    all: usize,
    before: Option<Id>,
    origin: u8,
    left: &mut &[u8],
) -> Result<u32, FrameFault>
    ensures { Gives (λ x. (x, left.new.now)) result (number w32 (comes_after before origin) all left.old.now) }
{
    if left.len() < 4 {
        return Err(FrameFault::Short);
    }
    let (front, rest) = left.split_at(4);
    let number = u32::from_be_bytes([front[0], front[1], front[2], front[3]]);
    if !comes_after(before, origin, number) {
        return Err(FrameFault::BadNumber(place(all, left)));
    }
    *left = rest;
    Ok(number)
}

/// A number that may be 0.
#[tactic(auto, unfolding(crate::specs::Reader::number))]
pub(crate) fn stamp_at(all: usize, left: &mut &[u8]) -> Result<u64, FrameFault>
    ensures { Gives (λ x. (x, left.new.now)) result (number w64 any all left.old.now) }
{
    if left.len() < 8 {
        return Err(FrameFault::Short);
    }
    let (front, rest) = left.split_at(8);
    let number = u64::from_be_bytes([
        front[0], front[1], front[2], front[3], front[4], front[5], front[6], front[7],
    ]);
    *left = rest;
    Ok(number)
}

/// A number that counts from 1.
#[tactic(auto, unfolding(crate::specs::Reader::number, crate::specs::Reading::count))]
pub(crate) fn counting_at(all: usize, left: &mut &[u8]) -> Result<u64, FrameFault>
    ensures { Gives (λ x. (x, left.new.now)) result (count all left.old.now) }
{
    let at = place(all, left);
    let number = stamp_at(all, left)?;
    if number == 0 {
        return Err(FrameFault::BadNumber(at));
    }
    Ok(number)
}

#[tactic(auto, unfolding(crate::specs::Reader::byte, crate::specs::Reading::kind, crate::specs::Reading::kind_of))]
pub(crate) fn kind_at(all: usize, left: &mut &[u8]) -> Result<Kind, FrameFault>
    ensures { Gives (λ x. (x, left.new.now)) result (kind all left.old.now) }
{
    match *left {
        [] => Err(FrameFault::Short),
        [0, rest @ ..] => {
            *left = rest;
            let member = member_at(all, left)?;
            Ok(Kind::Sequencer(member))
        }
        [1, rest @ ..] => {
            *left = rest;
            Ok(Kind::Lamport)
        }
        [2, rest @ ..] => {
            *left = rest;
            Ok(Kind::Consensus)
        }
        [_, ..] => Err(FrameFault::BadTag(place(all, left))),
    }
}

/// The place of the first byte that is not printable.
pub(crate) fn unprintable(bytes: &[u8]) -> Option<usize>
    ensures some { IfSome result (λ i. i < length bytes.now) }
    ensures found { IfSome result (λ i. is_printable (slice_index bytes.now i) ≡ false) }
    ensures before { IfSome result (λ i. (k : ℕ) → k < i → is_printable (slice_index bytes.now k) ≡ true) }
    ensures none { IfNone result ((k : ℕ) → k < length bytes.now → is_printable (slice_index bytes.now k) ≡ true) }
{
    for (i, byte) in bytes.iter().enumerate() {
        if !is_printable(*byte) {
            return Some(i);
        }
    }
    None
}

/// Why the next bytes are no payload of this size, where they are none.
fn text_fault(all: usize, size: usize, left: &[u8]) -> FrameFault
    requires { size ≤ length left.now → list_all is_printable (take size left.now) ≡ false }
    ensures { text size all left.now ≡ Err result }
{
    let seen = &left[..size.min(left.len())];
    match unprintable(seen) {
        Some(at) => FrameFault::BadText(place(all, &left[at..])),
        None => FrameFault::Short,
    }
}

#[tactic(auto, using(crate::proofs::Text::text_good))]
fn text_at(alloc: Global, all: usize, size: usize, left: &mut &[u8]) -> Result<Text, FrameFault>
    requires some { 1 ≤ size }
    requires most { size ≤ 256 }
    ensures { Gives (λ x. (x, left.new.now)) result (text size all left.old.now) }
{
    if size <= left.len() {
        let (front, rest) = left.split_at(size);
        if let Some(text) = Text::new(alloc, front)? {
            *left = rest;
            return Ok(text);
        }
    }
    Err(text_fault(all, size, left))
}

#[tactic(auto, unfolding(crate::specs::Reading::message))]
fn message_at(
    alloc: Global,
    all: usize,
    origin: MemberId,
    number: u32,
    left: &mut &[u8],
) -> Result<Item, FrameFault>
    ensures { Gives (λ x. (x, left.new.now)) result (message origin number all left.old.now) }
{
    let size = length_at(all, left)?;
    let payload = text_at(alloc, all, size, left)?;
    Ok(Item::Msg {
        origin,
        number,
        payload,
    })
}

#[tactic(auto, unfolding(crate::specs::Reading::switch))]
fn switch_at(
    all: usize,
    origin: MemberId,
    number: u32,
    left: &mut &[u8],
) -> Result<Item, FrameFault>
    ensures { Gives (λ x. (x, left.new.now)) result (switch origin number all left.old.now) }
{
    let kind = kind_at(all, left)?;
    Ok(Item::Switch {
        origin,
        number,
        kind,
    })
}

/// An item behind the one before it, where there is one.
#[tactic(auto, unfolding(crate::specs::Reading::item))]
fn item_at(
    alloc: Global,
    all: usize,
    before: Option<Id>,
    left: &mut &[u8],
) -> Result<Item, FrameFault>
    ensures { Gives (λ x. (x, left.new.now)) result (item before all left.old.now) }
{
    let switches = flag_at(all, left)?;
    let origin = member_at(all, left)?;
    let number = number_at(all, before, origin.get(), left)?;
    if switches {
        switch_at(all, origin, number, left)
    } else {
        message_at(alloc, all, origin, number, left)
    }
}

fn id_of(item: &Item) -> Id
    ensures { result ≡ id_of item.now }
{
    (item.origin().get(), item.number())
}

/// So many items, each behind the one before it.
fn items_at(alloc: Global, all: usize, count: u8, left: &mut &[u8]) -> Result<Vec<Item>, FrameFault>
    ensures { Gives (λ x. (x.items, left.new.now)) result (items count None all left.old.now) }
{
    let mut items = Vec::new(alloc);
    let mut before = None;
    for _ in 0..count {
        let item = item_at(alloc, all, before, left)?;
        before = Some(id_of(&item));
        items.push(item)?;
    }
    Ok(items)
}

#[tactic(auto, unfolding(crate::specs::Reading::batch))]
fn batch_at(alloc: Global, all: usize, left: &mut &[u8]) -> Result<Batch, FrameFault>
    ensures { Gives (λ x. (x, left.new.now)) result (batch all left.old.now) }
{
    let count = count_at(all, left)?;
    let items = items_at(alloc, all, count, left)?;
    Ok(Batch::new(items).unwrap())
}

#[tactic(auto, unfolding(crate::specs::Reading::body))]
fn estimate_at(alloc: Global, all: usize, left: &mut &[u8]) -> Result<Body, FrameFault>
    ensures { Gives (λ x. (x, left.new.now)) result (body Tag.Est all left.old.now) }
{
    let instance = counting_at(all, left)?;
    let round = counting_at(all, left)?;
    let stamp = stamp_at(all, left)?;
    let batch = batch_at(alloc, all, left)?;
    Ok(Body::Est {
        instance,
        round,
        stamp,
        batch,
    })
}

#[tactic(auto, unfolding(crate::specs::Reading::body))]
fn proposal_at(alloc: Global, all: usize, left: &mut &[u8]) -> Result<Body, FrameFault>
    ensures { Gives (λ x. (x, left.new.now)) result (body Tag.Prop all left.old.now) }
{
    let instance = counting_at(all, left)?;
    let round = counting_at(all, left)?;
    let batch = batch_at(alloc, all, left)?;
    Ok(Body::Prop {
        instance,
        round,
        batch,
    })
}

#[tactic(auto, unfolding(crate::specs::Reading::body))]
fn reply_at(all: usize, left: &mut &[u8]) -> Result<Body, FrameFault>
    ensures { Gives (λ x. (x, left.new.now)) result (body Tag.Reply all left.old.now) }
{
    let instance = counting_at(all, left)?;
    let round = counting_at(all, left)?;
    let yes = flag_at(all, left)?;
    Ok(Body::Reply {
        instance,
        round,
        yes,
    })
}

/// A body of this tag.
#[tactic(auto, unfolding(crate::specs::Reading::body))]
fn body_at(alloc: Global, all: usize, tag: Tag, left: &mut &[u8]) -> Result<Body, FrameFault>
    ensures { Gives (λ x. (x, left.new.now)) result (body tag all left.old.now) }
{
    match tag {
        Tag::Ask => Ok(Body::Ask {
            item: item_at(alloc, all, None, left)?,
        }),
        Tag::Ord => Ok(Body::Ord {
            place: counting_at(all, left)?,
            item: item_at(alloc, all, None, left)?,
        }),
        Tag::Req => Ok(Body::Req {
            stamp: counting_at(all, left)?,
            item: item_at(alloc, all, None, left)?,
        }),
        Tag::Ack => Ok(Body::Ack {
            stamp: counting_at(all, left)?,
        }),
        Tag::Rb => Ok(Body::Rb {
            item: item_at(alloc, all, None, left)?,
        }),
        Tag::Est => estimate_at(alloc, all, left),
        Tag::Prop => proposal_at(alloc, all, left),
        Tag::Reply => reply_at(all, left),
        Tag::Next => Ok(Body::Next {
            instance: counting_at(all, left)?,
            round: counting_at(all, left)?,
        }),
        Tag::Decide => Ok(Body::Decide {
            instance: counting_at(all, left)?,
            batch: batch_at(alloc, all, left)?,
        }),
        Tag::Past => Ok(Body::Past),
    }
}

#[tactic(auto, unfolding(crate::specs::Reading::frame))]
fn frame_at(alloc: Global, all: usize, left: &mut &[u8]) -> Result<Frame, FrameFault>
    ensures { Gives (λ x. (x, left.new.now)) result (frame all left.old.now) }
{
    let version = version_at(all, left)?;
    let tag = tag_at(all, left)?;
    let body = body_at(alloc, all, tag, left)?;
    Ok(Frame { version, body })
}

#[tactic(auto, unfolding(crate::specs::Reading::reading))]
fn read(alloc: Global, bytes: &[u8]) -> Result<Frame, FrameFault>
    ensures { Gives (λ x. x) result (reading bytes.now) }
{
    let mut left = bytes;
    let frame = frame_at(alloc, bytes.len(), &mut left)?;
    if !left.is_empty() {
        return Err(FrameFault::LongTail(place(bytes.len(), left)));
    }
    Ok(frame)
}

/// The frame that the bytes spell, all of the bytes, or the first fault.
pub fn decode(alloc: Global, bytes: &[u8]) -> Result<Frame, FrameFault>
    // What is read is spelled so, within its limits.
    ensures found { IfOk result (λ frame. Spells bytes.now frame) }
    // What is spelled so is read, unless memory runs out.
    ensures only { (f : Frame) → Spells bytes.now f → Gives (λ x. x) result (Ok f) }
    // Which fault it is.
    ensures exact { Gives (λ x. x) result (reading bytes.now) }
{
    read(alloc, bytes)
}

/// The frame that begins the bytes, and how many bytes it has; bytes may follow it.
pub fn decode_front(alloc: Global, bytes: &[u8]) -> Result<(Frame, usize), FrameFault>
    ensures within { IfOk result (λ found. found.1 ≤ length bytes.now) }
    ensures spelt { IfOk result (λ found. Spells (take found.1 bytes.now) found.0) }
    ensures fault { IfErr result IsOfFront }
    ensures exact { Gives (λ found. (found.0, drop found.1 bytes.now)) result (front bytes.now) }
{
    let mut left = bytes;
    let frame = frame_at(alloc, bytes.len(), &mut left)?;
    let size = bytes.len().saturating_sub(left.len());
    Ok((frame, size))
}
