//! Lines in memory: faithful ones, ones that fail at a listed call, and ones that lie.
use crate::given::member;
use line_fakes::{LieLines, LineFail, MemLines, SureLines, Way};
use std::test::Fail;
use upd_base::EdgeFault;
use upd_lines::{Line, LineMaker};

/// Puts three bytes, and gets what comes.
fn carried<L: Line>(line: &mut L) -> Result<[u8; 3], EdgeFault> {
    let mut sent = 0usize;
    let bytes = [0x61u8, 0x62, 0x63];
    for _ in 0..3 {
        if sent < 3 {
            sent = sent.saturating_add(line.put(&bytes[sent.min(3)..])?);
        }
    }
    let mut buf = [0u8; 3];
    let mut got = 0usize;
    for _ in 0..3 {
        if got < 3 {
            got = got.saturating_add(line.get(&mut buf[got.min(3)..])?);
        }
    }
    Ok(buf)
}

#[test]
fn faithful_lines(rt: HostRuntime) -> Result<(), Fail> {
    let alloc = rt.alloc();
    let (from, to) = (member(1)?, member(0)?);
    let mut sure = SureLines::new(alloc);
    let mut line = sure.make_line(from, to).ok().ok_or("a line")?;
    assert_eq!(rt; carried(&mut line).ok(), Some([0x61, 0x62, 0x63]));
    let mut lines = MemLines::new(alloc, 1, vec![in alloc]?);
    let mut line = lines.make_line(from, to).ok().ok_or("a line")?;
    assert_eq!(rt; carried(&mut line).ok(), Some([0x61, 0x62, 0x63]));
    assert!(rt; matches!(line.get(&mut [0]), Ok(0)));
    Ok(())
}

#[test]
fn listed_calls_fail(rt: HostRuntime) -> Result<(), Fail> {
    let alloc = rt.alloc();
    let (from, to) = (member(1)?, member(0)?);
    let fails = vec![in alloc;
        LineFail {
            from,
            to,
            way: Way::Make,
            nth: 1
        },
        LineFail {
            from,
            to,
            way: Way::Put,
            nth: 2
        },
        LineFail {
            from,
            to,
            way: Way::Get,
            nth: 1
        },
        LineFail {
            from: to,
            to: from,
            way: Way::Put,
            nth: 1
        },
    ]?;
    let mut lines = MemLines::new(alloc, 2, fails);
    assert!(rt; matches!(lines.make_line(from, to), Err(EdgeFault::Failed)));
    let mut line = lines.make_line(from, to).ok().ok_or("a line")?;
    assert!(rt; matches!(line.put(b"abc"), Ok(2)));
    assert!(rt; matches!(line.put(b"c"), Err(EdgeFault::Failed)));
    assert!(rt; matches!(line.put(b"c"), Ok(1)));
    let mut buf = [0u8; 4];
    assert!(rt; matches!(line.get(&mut buf), Err(EdgeFault::Failed)));
    assert!(rt; matches!(line.get(&mut buf), Ok(2)));
    assert_eq!(rt; buf, [0x61, 0x62, 0, 0]);
    Ok(())
}

#[test]
fn lines_that_lie(rt: HostRuntime) -> Result<(), Fail> {
    let alloc = rt.alloc();
    let (from, to) = (member(1)?, member(0)?);
    let mut lines = LieLines::new(alloc, from, to, 0);
    let mut line = lines.make_line(from, to).ok().ok_or("a line")?;
    assert_eq!(rt; carried(&mut line).ok(), Some([0x60, 0x62, 0x63]));
    let mut other = lines.make_line(to, from).ok().ok_or("a line")?;
    assert_eq!(rt; carried(&mut other).ok(), Some([0x61, 0x62, 0x63]));
    Ok(())
}
