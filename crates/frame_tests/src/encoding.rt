//! The worked frame, each kind of body there and back, and the first fault of frames with a byte changed.
use crate::given::{asks_a, changed, member, message, told_whole};
use std::alloc::Global;
use std::test::Fail;
use upd_base::{Batch, Body, Frame, Item, Kind};
use upd_frame::{decode, decode_front, encode};

fn switch(origin: u8, number: u32, kind: Kind) -> Result<Item, Fail> {
    Ok(Item::Switch {
        origin: member(origin)?,
        number,
        kind,
    })
}

#[test]
fn the_worked_frame(rt: HostRuntime) -> Result<(), Fail> {
    let alloc = rt.alloc();
    let item = message(alloc, 1, 0, b"a")?;
    let frame = Frame {
        version: 0,
        body: Body::Ask { item },
    };
    let bytes = encode(alloc, &frame)?;
    assert_eq!(rt; bytes, asks_a(alloc)?);
    let again = decode(alloc, bytes.as_slice()).ok().ok_or("a frame")?;
    assert!(rt; again == frame);
    Ok(())
}

#[test]
fn fronts_and_tails(rt: HostRuntime) -> Result<(), Fail> {
    let alloc = rt.alloc();
    let mut bytes = asks_a(alloc)?;
    bytes.push(0)?;
    assert_eq!(rt;
        told_whole(alloc, bytes.as_slice())?.as_str(),
        "LongTail(12)"
    );
    let (_, size) = decode_front(alloc, bytes.as_slice()).ok().ok_or("a front")?;
    assert_eq!(rt; size, 12);
    let _ = bytes.pop();
    for _ in 0..12u8 {
        let _ = bytes.pop();
        assert_eq!(rt; told_whole(alloc, bytes.as_slice())?.as_str(), "Short");
    }
    Ok(())
}

#[test]
fn one_byte_changed(rt: HostRuntime) -> Result<(), Fail> {
    let alloc = rt.alloc();
    let cases = [
        (2, 0, "BadTag(2)"),
        (2, 11, "LongTail(3)"),
        (2, 12, "BadTag(2)"),
        (4, 7, "BadNumber(4)"),
        (10, 0, "BadNumber(9)"),
        (11, 0x7f, "BadText(11)"),
    ];
    for (at, byte, want) in cases {
        assert_eq!(rt;
            told_whole(alloc, changed(alloc, at, byte)?.as_slice())?.as_str(),
            want,
            "byte {at}"
        );
    }
    let bytes = vec![in alloc; 3u8, 0xe9, 1, 0, 1, 0, 0, 0, 0, 0, 1, 0x61]?;
    assert_eq!(rt;
        told_whole(alloc, bytes.as_slice())?.as_str(),
        "BadNumber(0)"
    );
    Ok(())
}

#[test]
fn examples(rt: HostRuntime) -> Result<(), Fail> {
    let alloc = rt.alloc();
    let ack = Frame {
        version: 1,
        body: Body::Ack { stamp: 2 },
    };
    let bytes = vec![in alloc; 0u8, 1, 4, 0, 0, 0, 0, 0, 0, 0, 2]?;
    assert_eq!(rt; encode(alloc, &ack)?, bytes);
    let body = Body::Reply {
        instance: 1,
        round: 1,
        yes: true,
    };
    let reply = Frame { version: 2, body };
    let bytes = vec![in alloc;
        0u8, 2, 8, 0, 0, 0, 0, 0, 0, 0, 1, 0, 0, 0, 0, 0, 0, 0, 1, 1,
    ]?;
    assert_eq!(rt; encode(alloc, &reply)?, bytes);
    Ok(())
}

#[test]
fn past_there_and_back(rt: HostRuntime) -> Result<(), Fail> {
    let alloc = rt.alloc();
    let past = Frame {
        version: 1,
        body: Body::Past,
    };
    let bytes = vec![in alloc; 0u8, 1, 11]?;
    assert_eq!(rt; encode(alloc, &past)?, bytes);
    let again = decode(alloc, bytes.as_slice()).ok().ok_or("a frame")?;
    assert!(rt; again == past);
    Ok(())
}

/// The length of the spelling, where the frame is read again.
fn read_again(alloc: Global, version: u16, body: Body) -> Result<usize, Fail> {
    let frame = Frame { version, body };
    let bytes = encode(alloc, &frame)?;
    let again = decode(alloc, bytes.as_slice()).ok().ok_or("a frame")?;
    if again == frame {
        Ok(bytes.len())
    } else {
        Ok(0)
    }
}

#[test]
fn each_body(rt: HostRuntime) -> Result<(), Fail> {
    let alloc = rt.alloc();
    let item = switch(6, u32::MAX, Kind::Lamport)?;
    assert_eq!(rt; read_again(alloc, 1_000, Body::Ord { place: 1, item })?, 18);
    let item = switch(0, 1, Kind::Consensus)?;
    assert_eq!(rt;
        read_again(
            alloc,
            0,
            Body::Req {
                stamp: u64::MAX,
                item
            }
        )?,
        18
    );
    let item = switch(0, 1, Kind::Sequencer(member(6)?))?;
    assert_eq!(rt; read_again(alloc, 0, Body::Rb { item })?, 11);
    assert_eq!(rt;
        read_again(
            alloc,
            0,
            Body::Next {
                instance: 1,
                round: 9
            }
        )?,
        19
    );
    let items = vec![in alloc; message(alloc, 0, 7, b"x")?, switch(1, 0, Kind::Lamport)?]?;
    let batch = Batch::new(items).ok_or("no batch")?;
    assert_eq!(rt;
        read_again(alloc, 7, Body::Decide { instance: 3, batch })?,
        28
    );
    let items = vec![in alloc; switch(1, 0, Kind::Lamport)?]?;
    let batch = Batch::new(items).ok_or("no batch")?;
    assert_eq!(rt;
        read_again(
            alloc,
            7,
            Body::Prop {
                instance: 3,
                round: 1,
                batch
            }
        )?,
        27
    );
    Ok(())
}

#[test]
fn the_longest(rt: HostRuntime) -> Result<(), Fail> {
    let alloc = rt.alloc();
    let text = vec![in alloc; b'~'; 256]?;
    let mut items = Vec::new(alloc);
    for number in 0..32u32 {
        items.push(message(alloc, 3, number, text.as_slice())?)?;
    }
    let batch = Batch::new(items).ok_or("no batch")?;
    let body = Body::Est {
        instance: 1,
        round: 2,
        stamp: 0,
        batch,
    };
    assert_eq!(rt; read_again(alloc, 3, body)?, 8_476);
    Ok(())
}

#[test]
fn items_out_of_order(rt: HostRuntime) -> Result<(), Fail> {
    let alloc = rt.alloc();
    let items = vec![in alloc; switch(1, 5, Kind::Lamport)?, switch(2, 0, Kind::Lamport)?]?;
    let batch = Batch::new(items).ok_or("no batch")?;
    let frame = Frame {
        version: 0,
        body: Body::Decide { instance: 1, batch },
    };
    let mut bytes = encode(alloc, &frame)?;
    let origin = bytes.get_mut(20).ok_or("the second origin")?;
    *origin = 1;
    // The number of the second item stands at 21, and 0 is not above 5.
    assert_eq!(rt;
        told_whole(alloc, bytes.as_slice())?.as_str(),
        "BadNumber(21)"
    );
    Ok(())
}
