//! Frames over lines in memory: lines that carry all, lines that fail and lines that lie.
ghost use Rattle.std.specs.Prelude.{IfOk};
ghost use Rattle.upd_frame.specs.Spelling.{IsFrame};

use crate::given::{member, message};
use frame_carriage::{Came, CarryFault, carry, keeps_limits};
use line_fakes::{LieLines, LineFail, MemLines, SureLines, Way};
use std::alloc::Global;
use std::test::Fail;
use upd_base::{Batch, Body, Frame};
use upd_lines::LineMaker;

/// Version 0, Ask of the message a, number 0 of member 1: 00 00 01 00 01 00 00 00 00 00 01 61.
fn asks_a(alloc: Global) -> Result<Frame, Fail>
    ensures { IfOk result (λ frame. IsFrame frame) }
{
    let item = message(alloc, 1, 0, b"a")?;
    let frame = Frame {
        version: 0,
        body: Body::Ask { item },
    };
    keeps_limits(&frame);
    Ok(frame)
}

/// A frame of as many bytes as there may be.
fn largest(alloc: Global) -> Result<Frame, Fail>
    ensures { IfOk result (λ frame. IsFrame frame) }
{
    let mut items = Vec::new(alloc);
    for number in 0..32u32 {
        items.push(message(alloc, 1, number, &[0x61; 256])?)?;
    }
    let batch = Batch::new(items).ok_or("no batch")?;
    let frame = Frame {
        version: 1_000,
        body: Body::Est {
            instance: 1,
            round: 1,
            stamp: 0,
            batch,
        },
    };
    keeps_limits(&frame);
    Ok(frame)
}

/// What the second carriage of a frame over a new line gives, or the first one that fails.
fn twice<M: LineMaker>(
    alloc: Global,
    lines: &mut M,
    frame: &Frame,
) -> Result<Result<Came, CarryFault>, Fail>
    requires { IsFrame frame.now }
{
    let Ok(mut line) = lines.make_line(member(1)?, member(0)?) else {
        return Err("no line".into());
    };
    match carry(alloc, &mut line, frame) {
        Ok(_) => Ok(carry(alloc, &mut line, frame)),
        Err(fault) => Ok(Err(fault)),
    }
}

fn fails_at(way: Way, nth: u64) -> Result<LineFail, Fail> {
    Ok(LineFail {
        from: member(1)?,
        to: member(0)?,
        way,
        nth,
    })
}

#[test]
fn frames_come(rt: HostRuntime) -> Result<(), Fail> {
    let alloc = rt.alloc();
    let small = asks_a(alloc)?;
    let large = largest(alloc)?;
    let came = twice(alloc, &mut SureLines::new(alloc), &small)?
        .ok()
        .ok_or("no frame")?;
    assert!(rt; came.frame == small);
    assert_eq!(rt; came.bytes, 12);
    let came = twice(alloc, &mut SureLines::new(alloc), &large)?
        .ok()
        .ok_or("no frame")?;
    assert!(rt; came.frame == large);
    assert_eq!(rt; came.bytes, 8_476);
    for piece in [1, 3, 1_000, 5_000] {
        let mut lines = MemLines::new(alloc, piece, vec![in alloc]?);
        let came = twice(alloc, &mut lines, &large)?.ok().ok_or("no frame")?;
        assert!(rt; came.frame == large, "pieces of {piece}");
        assert_eq!(rt; came.bytes, 8_476, "pieces of {piece}");
    }
    Ok(())
}

#[test]
fn a_line_fails(rt: HostRuntime) -> Result<(), Fail> {
    let alloc = rt.alloc();
    let frame = asks_a(alloc)?;
    for nth in [1, 7, 12, 13, 24] {
        for way in [Way::Put, Way::Get] {
            let mut lines = MemLines::new(alloc, 1, vec![in alloc; fails_at(way, nth)?]?);
            let outcome = twice(alloc, &mut lines, &frame)?;
            assert_eq!(rt; outcome.err(), Some(CarryFault::Down), "call {nth}");
        }
    }
    for way in [Way::Put, Way::Get] {
        let mut lines = MemLines::new(alloc, 1, vec![in alloc; fails_at(way, 25)?]?);
        assert!(rt; twice(alloc, &mut lines, &frame)?.is_ok());
    }
    Ok(())
}

#[test]
fn a_line_lies(rt: HostRuntime) -> Result<(), Fail> {
    let alloc = rt.alloc();
    let frame = asks_a(alloc)?;
    let (from, to) = (member(1)?, member(0)?);
    // The place among the bytes of the line, and what is told: the second frame begins at 12.
    let cases = [
        (0, 0, 0x00, 0x01),
        (4, 4, 0x01, 0x00),
        (11, 11, 0x61, 0x60),
        (12, 0, 0x00, 0x01),
        (23, 11, 0x61, 0x60),
    ];
    for (lie, at, put, got) in cases {
        let mut lines = LieLines::new(alloc, from, to, lie);
        let outcome = twice(alloc, &mut lines, &frame)?;
        assert_eq!(rt;
            outcome.err(),
            Some(CarryFault::Lied { at, put, got }),
            "a lie at {lie}"
        );
    }
    assert!(rt; twice(alloc, &mut LieLines::new(alloc, from, to, 24), &frame)?.is_ok());
    let large = largest(alloc)?;
    let outcome = twice(alloc, &mut LieLines::new(alloc, from, to, 8_475), &large)?;
    assert_eq!(rt;
        outcome.err(),
        Some(CarryFault::Lied {
            at: 8_475,
            put: 0x61,
            got: 0x60
        })
    );
    Ok(())
}
