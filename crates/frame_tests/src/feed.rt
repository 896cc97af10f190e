//! Frames from a stream in pieces of any size, and faults that stay.
ghost use Rattle.std.specs.Prelude.{◌<◌};

use crate::given::{asks_a, changed, told, told_whole};
use frame_feed::Feed;
use std::alloc::Global;
use std::test::Fail;
use upd_frame::{FrameFault, encode};

#[test]
fn byte_by_byte(rt: HostRuntime) -> Result<(), Fail> {
    let alloc = rt.alloc();
    let bytes = asks_a(alloc)?;
    let mut feed = Feed::new(alloc);
    for round in 0..3u8 {
        for byte in bytes.iter() {
            assert!(rt; matches!(feed.next(alloc), Ok(None)), "round {round}");
            feed.push(&[*byte])?;
        }
        let frame = feed.next(alloc).ok().flatten().ok_or("a frame")?;
        assert_eq!(rt; encode(alloc, &frame)?, asks_a(alloc)?);
    }
    assert!(rt; matches!(feed.next(alloc), Ok(None)));
    Ok(())
}

#[test]
fn in_one_piece(rt: HostRuntime) -> Result<(), Fail> {
    let alloc = rt.alloc();
    let bytes = asks_a(alloc)?;
    let mut stream = Vec::new(alloc);
    for _ in 0..100u8 {
        stream.extend_from_slice(bytes.as_slice())?;
    }
    let mut feed = Feed::new(alloc);
    feed.push(stream.as_slice())?;
    for _ in 0..100u8 {
        assert!(rt; matches!(feed.next(alloc), Ok(Some(_))));
    }
    assert!(rt; matches!(feed.next(alloc), Ok(None)));
    Ok(())
}

#[test]
fn a_fault_stays(rt: HostRuntime) -> Result<(), Fail> {
    let alloc = rt.alloc();
    let bytes = asks_a(alloc)?;
    // A frame whose payload is no text at its only byte.
    let mut broken = asks_a(alloc)?;
    let _ = broken.pop();
    let mut feed = Feed::new(alloc);
    feed.push(bytes.as_slice())?;
    feed.push(broken.as_slice())?;
    assert!(rt; matches!(feed.next(alloc), Ok(Some(_))));
    assert!(rt; matches!(feed.next(alloc), Ok(None)));
    feed.push(&[0x7f])?;
    assert!(rt; matches!(feed.next(alloc), Err(FrameFault::BadText(11))));
    feed.push(bytes.as_slice())?;
    assert!(rt; matches!(feed.next(alloc), Err(FrameFault::BadText(11))));
    Ok(())
}

/// What a feed tells that got the bytes in pieces of this size and was asked behind each: the first answer that isn't None.
fn told_in_pieces(alloc: Global, bytes: &[u8], size: usize) -> Result<String, Fail>
    requires { 0 < size }
{
    let mut feed = Feed::new(alloc);
    for piece in bytes.chunks(size) {
        feed.push(piece)?;
        match feed.next(alloc) {
            Ok(None) => {}
            answer => return told(alloc, answer),
        }
    }
    told(alloc, feed.next(alloc))
}

#[test]
fn one_byte_made_ff(rt: HostRuntime) -> Result<(), Fail> {
    let alloc = rt.alloc();
    // What decoding tells and what a feed tells.
    let cases = [
        ("BadNumber(0)", "BadNumber(0)"),
        ("255 0", "255 0"),
        ("BadTag(2)", "BadTag(2)"),
        ("BadTag(3)", "BadTag(3)"),
        ("BadNumber(4)", "BadNumber(4)"),
        ("0 4278190080", "0 4278190080"),
        ("0 16711680", "0 16711680"),
        ("0 65280", "0 65280"),
        ("0 255", "0 255"),
        ("BadNumber(9)", "BadNumber(9)"),
        ("Short", "None"),
        ("BadText(11)", "BadText(11)"),
    ];
    for (at, (decoded, fed)) in cases.iter().enumerate() {
        let bytes = changed(alloc, at, 0xff)?;
        let bytes = bytes.as_slice();
        assert_eq!(rt; told_whole(alloc, bytes)?.as_str(), *decoded, "byte {at}");
        assert_eq!(rt;
            told_in_pieces(alloc, bytes, 12)?.as_str(),
            *fed,
            "byte {at}"
        );
        assert_eq!(rt;
            told_in_pieces(alloc, bytes, 1)?.as_str(),
            *fed,
            "byte {at}"
        );
    }
    Ok(())
}
