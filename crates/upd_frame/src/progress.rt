//! Reading a frame whose bytes come piece by piece.
ghost use Rattle.std.specs.Prelude.{ℕ, if◌then◌else◌, ◌≡◌, ◌≤◌, ◌<◌, ◌-◌, List, length, take, drop, IfOk, IfErr, Ok, Err, OnOk, OnErr};
ghost use Rattle.std.specs.Int.{w16, w32, w64};
ghost use Rattle.upd_frame.specs.Reader.{Fails, Gives, place, byte, number, text};
ghost use Rattle.upd_frame.specs.Reading.{front, frame};
ghost use Rattle.upd_frame.specs.Laws.{IsOfFront};
ghost use Rattle.upd_frame.specs.Reading.{is_length};
ghost use Rattle.upd_frame.specs.Progress.{head_of, head, no_payload, item_head, to_come, EndsAt, Leaves, Steps};

use crate::fault::FrameFault;
use crate::reading::{
    Id, count_at, counting_at, flag_at, kind_at, length_at, member_at, number_at, place, stamp_at,
    tag_at, unprintable, version_at,
};
use crate::tag::Tag;

/// How far the reading of a frame has come.
#[derive(Clone, Copy, Debug, PartialEq, Eq)]
pub enum Stage {
    /// Before the frame's first byte.
    Start,
    /// Before so many bytes of a payload and, behind them, so many items; the origin and number of the item before
    /// those, where there is one.
    Within {
        size: usize,
        count: u8,
        before: Option<(u8, u32)>,
    },
}

/// How many items the body has, behind its other fields.
#[tactic(auto, unfolding(crate::specs::Progress::head_of))]
fn head_of(all: usize, tag: Tag, left: &mut &[u8]) -> Result<u8, FrameFault>
    ensures { Gives (λ x. (x, left.new.now)) result (head_of tag all left.old.now) }
{
    match tag {
        Tag::Ask | Tag::Rb => Ok(1),
        Tag::Ord | Tag::Req => {
            counting_at(all, left)?;
            Ok(1)
        }
        Tag::Ack => {
            counting_at(all, left)?;
            Ok(0)
        }
        Tag::Est => {
            counting_at(all, left)?;
            counting_at(all, left)?;
            stamp_at(all, left)?;
            count_at(all, left)
        }
        Tag::Prop => {
            counting_at(all, left)?;
            counting_at(all, left)?;
            count_at(all, left)
        }
        Tag::Reply => {
            counting_at(all, left)?;
            counting_at(all, left)?;
            flag_at(all, left)?;
            Ok(0)
        }
        Tag::Next => {
            counting_at(all, left)?;
            counting_at(all, left)?;
            Ok(0)
        }
        Tag::Decide => {
            counting_at(all, left)?;
            count_at(all, left)
        }
        Tag::Past => Ok(0),
    }
}

/// How many items the frame has, behind its other fields.
#[tactic(auto, unfolding(crate::specs::Progress::head))]
fn head_at(all: usize, left: &mut &[u8]) -> Result<u8, FrameFault>
    ensures { Gives (λ x. (x, left.new.now)) result (head all left.old.now) }
{
    version_at(all, left)?;
    let tag = tag_at(all, left)?;
    head_of(all, tag, left)
}

#[tactic(auto, unfolding(crate::specs::Progress::no_payload))]
fn no_payload_at(all: usize, left: &mut &[u8]) -> Result<usize, FrameFault>
    ensures range { IfOk result (λ size. size ≤ 256) }
    ensures gives { Gives (λ x. (x, left.new.now)) result (no_payload all left.old.now) }
{
    kind_at(all, left)?;
    Ok(0)
}

fn payload_at(all: usize, switches: bool, left: &mut &[u8]) -> Result<usize, FrameFault>
    ensures range { IfOk result (λ size. size ≤ 256) }
    ensures gives { Gives (λ x. (x, left.new.now)) result ((if switches then no_payload else number w16 is_length) all left.old.now) }
{
    if switches {
        no_payload_at(all, left)
    } else {
        length_at(all, left)
    }
}

/// How many bytes of a payload the item has behind its other fields, and its origin and number.
#[tactic(auto, unfolding(crate::specs::Progress::item_head))]
fn item_head_at(all: usize, before: Option<Id>, left: &mut &[u8]) -> Result<(usize, Id), FrameFault>
    ensures range { IfOk result (λ found. found.0 ≤ 256) }
    ensures gives { Gives (λ x. (x, left.new.now)) result (item_head before all left.old.now) }
{
    let switches = flag_at(all, left)?;
    let origin = member_at(all, left)?.get();
    let number = number_at(all, before, origin, left)?;
    let size = payload_at(all, switches, left)?;
    Ok((size, (origin, number)))
}

/// Over what stands before the items.
#[tactic(auto, using(crate::proofs::Onward::begins))]
fn begin(all: usize, left: &mut &[u8]) -> Result<Option<Stage>, FrameFault>
    ensures { Steps Stage.Start all left.old.now left.new.now result }
{
    let count = head_at(all, left)?;
    Ok(Some(Stage::Within {
        size: 0,
        count,
        before: None,
    }))
}

/// Over what stands before the payload of the next item.
fn next_item(
    all: usize,
    count: u8,
    before: Option<Id>,
    left: &mut &[u8],
) -> Result<Option<Stage>, FrameFault>
    requires { 0 < count }
    ensures { Steps (Stage.Within 0 count before) all left.old.now left.new.now result }
{
    let (size, id) = item_head_at(all, before, left)?;
    Ok(Some(Stage::Within {
        size,
        count: count - 1,
        before: Some(id),
    }))
}

/// Over the bytes of a payload that are there.
fn text_on(
    all: usize,
    size: usize,
    count: u8,
    before: Option<Id>,
    left: &mut &[u8],
) -> Result<Option<Stage>, FrameFault>
    requires { 0 < size }
    ensures { Steps (Stage.Within size count before) all left.old.now left.new.now result }
{
    let there = size.min(left.len());
    if there == 0 {
        return Err(FrameFault::Short);
    }
    let (seen, rest) = left.split_at(there);
    if let Some(at) = unprintable(seen) {
        return Err(FrameFault::BadText(place(all, &left[at..])));
    }
    *left = rest;
    Ok(Some(Stage::Within {
        size: size - seen.len(),
        count,
        before,
    }))
}

/// One step on; None where the frame is whole.
fn step(all: usize, stage: Stage, left: &mut &[u8]) -> Result<Option<Stage>, FrameFault>
    ensures { Steps stage all left.old.now left.new.now result }
{
    match stage {
        Stage::Start => begin(all, left),
        Stage::Within {
            size,
            count,
            before,
        } => {
            if size > 0 {
                text_on(all, size, count, before, left)
            } else if count > 0 {
                next_item(all, count, before, left)
            } else {
                Ok(None)
            }
        }
    }
}

/// Reads on in the bytes of a stream, where reading its first frame has come to a place and a stage. It is Ok exactly
/// where the frame is whole, and the place is then its end. An error is the first fault of the bytes, or that they are cut
/// short; the place and the stage are then as far as reading came.
pub fn read_on(bytes: &[u8], at: &mut usize, stage: &mut Stage) -> Result<(), FrameFault>
    requires within { at.old ≤ length bytes.now }
    requires leaves { Leaves (take at.old bytes.now) stage.old }
    ensures within { at.new ≤ length bytes.now }
    ensures leaves { Leaves (take at.new bytes.now) stage.new }
    ensures whole { OnOk result (EndsAt bytes.now at.new) }
    ensures fault { IfErr result (λ fault. Fails fault (front bytes.now)) }
    ensures kind { IfErr result IsOfFront }
{
    let all = bytes.len();
    let mut left = &bytes[*at..];
    while let Some(next) = step(all, *stage, &mut left)? {
        *stage = next;
        *at = place(all, left);
    }
    Ok(())
}
