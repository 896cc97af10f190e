//! What several tests are given: members, messages, the worked frame as bytes, and what decoding tells.
use std::alloc::Global;
use std::test::Fail;
use upd_base::{Body, Frame, Item, MemberId, Text};
use upd_frame::{FrameFault, decode};

pub fn member(id: u8) -> Result<MemberId, Fail> {
    Ok(MemberId::new(id).ok_or("no member")?)
}

pub fn message(alloc: Global, origin: u8, number: u32, bytes: &[u8]) -> Result<Item, Fail> {
    Ok(Item::Msg {
        origin: member(origin)?,
        number,
        payload: Text::new(alloc, bytes)?.ok_or("no payload")?,
    })
}

/// Version 0, Ask of the message a, number 0 of member 1.
pub fn asks_a(alloc: Global) -> Result<Vec<u8>, Fail> {
    Ok(vec![in alloc; 0u8, 0, 1, 0, 1, 0, 0, 0, 0, 0, 1, 0x61]?)
}

/// The worked frame with the byte at this place changed.
pub fn changed(alloc: Global, at: usize, byte: u8) -> Result<Vec<u8>, Fail> {
    let mut bytes = asks_a(alloc)?;
    let place = bytes.get_mut(at).ok_or("no such byte")?;
    *place = byte;
    Ok(bytes)
}

/// The text of an answer, as a test tells it: of a frame its version and the number of what it asks for.
pub fn told(alloc: Global, answer: Result<Option<Frame>, FrameFault>) -> Result<String, Fail> {
    match answer {
        Ok(Some(frame)) => {
            let number = match &frame.body {
                Body::Ask { item } => item.number(),
                _ => 0,
            };
            let version = frame.version;
            Ok(format!(in alloc; "{version} {number}")?)
        }
        Ok(None) => Ok(format!(in alloc; "None")?),
        Err(fault) => Ok(format!(in alloc; "{fault:?}")?),
    }
}

/// What decoding all of the bytes tells.
pub fn told_whole(alloc: Global, bytes: &[u8]) -> Result<String, Fail> {
    match decode(alloc, bytes) {
        Ok(frame) => told(alloc, Ok(Some(frame))),
        Err(fault) => told(alloc, Err(fault)),
    }
}
