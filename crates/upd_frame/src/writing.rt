//! Writing frames.
ghost use Rattle.std.specs.Prelude.{◌≡◌, ◌++◌, ◌∷◌, [], OnOk, IfOk, length};
ghost use Rattle.std.specs.Int.{w8, w16, w32, w64};
ghost use Rattle.std.specs.List.{flat_map};
ghost use Rattle.upd_frame.specs.Spelling.{digits, flag_byte, kind_bytes, item_bytes, batch_bytes, body_bytes, spelling};

use std::alloc::Global;
use upd_base::{Batch, Body, Frame, Item, Kind, NoMemory};

#[tactic(auto, unfolding(crate::specs::Spelling::digits))]
fn put_u16(out: &mut Vec<u8>, n: u16) -> Result<(), NoMemory>
    ensures { OnOk result (out.new.items ≡ out.old.items ++ digits w16 n) }
{
    out.extend_from_slice(&n.to_be_bytes())?;
    Ok(())
}

#[tactic(auto, unfolding(crate::specs::Spelling::digits))]
fn put_u32(out: &mut Vec<u8>, n: u32) -> Result<(), NoMemory>
    ensures { OnOk result (out.new.items ≡ out.old.items ++ digits w32 n) }
{
    out.extend_from_slice(&n.to_be_bytes())?;
    Ok(())
}

#[tactic(auto, unfolding(crate::specs::Spelling::digits))]
fn put_u64(out: &mut Vec<u8>, n: u64) -> Result<(), NoMemory>
    ensures { OnOk result (out.new.items ≡ out.old.items ++ digits w64 n) }
{
    out.extend_from_slice(&n.to_be_bytes())?;
    Ok(())
}

/// The low two bytes of a length.
#[tactic(auto, unfolding(crate::specs::Spelling::digits))]
fn put_length(out: &mut Vec<u8>, n: usize) -> Result<(), NoMemory>
    ensures { OnOk result (out.new.items ≡ out.old.items ++ digits w16 n) }
{
    let [.., high, low] = n.to_be_bytes();
    out.extend_from_slice(&[high, low])?;
    Ok(())
}

/// The low byte of a count.
#[tactic(auto, unfolding(crate::specs::Spelling::digits))]
fn put_count(out: &mut Vec<u8>, n: usize) -> Result<(), NoMemory>
    ensures { OnOk result (out.new.items ≡ out.old.items ++ digits w8 n) }
{
    let [.., low] = n.to_be_bytes();
    out.push(low)?;
    Ok(())
}

#[tactic(auto, unfolding(crate::specs::Spelling::flag_byte))]
fn put_flag(out: &mut Vec<u8>, yes: bool) -> Result<(), NoMemory>
    ensures { OnOk result (out.new.items ≡ out.old.items ++ flag_byte yes ∷ []) }
{
    out.push(if yes { 1 } else { 0 })?;
    Ok(())
}

#[tactic(auto, unfolding(crate::specs::Spelling::kind_bytes))]
fn put_kind(out: &mut Vec<u8>, kind: &Kind) -> Result<(), NoMemory>
    ensures { OnOk result (out.new.items ≡ out.old.items ++ kind_bytes kind.now) }
{
    match kind {
        Kind::Sequencer(member) => out.extend_from_slice(&[0, member.get()])?,
        Kind::Lamport => out.push(1)?,
        Kind::Consensus => out.push(2)?,
    }
    Ok(())
}

#[tactic(auto, unfolding(crate::specs::Spelling::item_bytes))]
fn put_item(out: &mut Vec<u8>, item: &Item) -> Result<(), NoMemory>
    ensures { OnOk result (out.new.items ≡ out.old.items ++ item_bytes item.now) }
{
    match item {
        Item::Msg {
            origin,
            number,
            payload,
        } => {
            out.extend_from_slice(&[0, origin.get()])?;
            put_u32(out, *number)?;
            put_length(out, payload.bytes().len())?;
            out.extend_from_slice(payload.bytes())?;
        }
        Item::Switch {
            origin,
            number,
            kind,
        } => {
            out.extend_from_slice(&[1, origin.get()])?;
            put_u32(out, *number)?;
            put_kind(out, kind)?;
        }
    }
    Ok(())
}

fn put_items(out: &mut Vec<u8>, items: &[Item]) -> Result<(), NoMemory>
    ensures { OnOk result (out.new.items ≡ out.old.items ++ flat_map item_bytes items.now) }
{
    for item in items {
        put_item(out, item)?;
    }
    Ok(())
}

#[tactic(auto, unfolding(crate::specs::Spelling::batch_bytes))]
fn put_batch(out: &mut Vec<u8>, batch: &Batch) -> Result<(), NoMemory>
    ensures { OnOk result (out.new.items ≡ out.old.items ++ batch_bytes batch.now) }
{
    put_count(out, batch.items().len())?;
    put_items(out, batch.items())
}

#[tactic(auto, unfolding(crate::specs::Spelling::body_bytes))]
fn put_body(out: &mut Vec<u8>, body: &Body) -> Result<(), NoMemory>
    ensures { OnOk result (out.new.items ≡ out.old.items ++ body_bytes body.now) }
{
    match body {
        Body::Ask { item } => {
            out.push(1)?;
            put_item(out, item)
        }
        Body::Ord { place, item } => {
            out.push(2)?;
            put_u64(out, *place)?;
            put_item(out, item)
        }
        Body::Req { stamp, item } => {
            out.push(3)?;
            put_u64(out, *stamp)?;
            put_item(out, item)
        }
        Body::Ack { stamp } => {
            out.push(4)?;
            put_u64(out, *stamp)
        }
        Body::Rb { item } => {
            out.push(5)?;
            put_item(out, item)
        }
        Body::Est {
            instance,
            round,
            stamp,
            batch,
        } => {
            out.push(6)?;
            put_u64(out, *instance)?;
            put_u64(out, *round)?;
            put_u64(out, *stamp)?;
            put_batch(out, batch)
        }
        Body::Prop {
            instance,
            round,
            batch,
        } => {
            out.push(7)?;
            put_u64(out, *instance)?;
            put_u64(out, *round)?;
            put_batch(out, batch)
        }
        Body::Reply {
            instance,
            round,
            yes,
        } => {
            out.push(8)?;
            put_u64(out, *instance)?;
            put_u64(out, *round)?;
            put_flag(out, *yes)
        }
        Body::Next { instance, round } => {
            out.push(9)?;
            put_u64(out, *instance)?;
            put_u64(out, *round)
        }
        Body::Decide { instance, batch } => {
            out.push(10)?;
            put_u64(out, *instance)?;
            put_batch(out, batch)
        }
        Body::Past => {
            out.push(11)?;
            Ok(())
        }
    }
}

/// The one spelling of the frame.
#[tactic(auto, unfolding(crate::specs::Spelling::spelling))]
pub fn encode(alloc: Global, frame: &Frame) -> Result<Vec<u8>, NoMemory>
    ensures { IfOk result (λ bytes. bytes.items ≡ spelling frame.now) }
{
    let mut bytes = Vec::new(alloc);
    put_u16(&mut bytes, frame.version)?;
    put_body(&mut bytes, &frame.body)?;
    Ok(bytes)
}
