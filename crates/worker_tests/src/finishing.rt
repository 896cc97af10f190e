//! One thread makes all calls and receipts, over lines that carry all, that are missing, that lie and that fail.
use crate::making::{journal, lines, member};
use group_lines::{Ran, finish, link_at};
use line_fakes::{LieLines, LineFail, MemLines, SureLines, Way};
use line_rules::RunEnd;
use std::alloc::Global;
use std::test::*;
use upd_lines::LineMaker;

/// How two sends end over lines, and how many events are made.
fn end_over<M: LineMaker>(
    alloc: Global,
    maker: &mut M,
    missing: &[(u8, u8)],
) -> Result<(RunEnd, u64), Fail> {
    let lines = lines(alloc, maker, missing)?;
    let Ran { journal, end, .. } = finish(alloc, journal(alloc, false)?, lines);
    Ok((end, journal.len()))
}

#[test]
fn the_link_of_a_place(rt: HostRuntime) -> Result<(), Fail> {
    assert!(rt; link_at(3, 5) == (member(1)?, member(2)?));
    Ok(())
}

#[test]
fn sure_lines_carry_all(rt: HostRuntime) -> Result<(), Fail> {
    let alloc = rt.alloc();
    let mut maker = SureLines::new(alloc);
    assert_eq!(rt; end_over(alloc, &mut maker, &[])?, (RunEnd::Settled, 10));
    assert_eq!(rt;
        end_over(alloc, &mut maker, &[(1, 2)])?,
        (RunEnd::Settled, 10)
    );
    Ok(())
}

#[test]
fn lines_that_are_not_there(rt: HostRuntime) -> Result<(), Fail> {
    let alloc = rt.alloc();
    let mut maker = SureLines::new(alloc);
    let (from, to) = (member(0)?, member(2)?);
    let end = RunEnd::Down { from, to };
    assert_eq!(rt; end_over(alloc, &mut maker, &[(0, 2)])?, (end, 8));
    let end = RunEnd::Down {
        from,
        to: member(1)?,
    };
    assert_eq!(rt; end_over(alloc, &mut maker, &[(0, 1), (0, 2)])?, (end, 6));
    Ok(())
}

#[test]
fn a_line_that_lies(rt: HostRuntime) -> Result<(), Fail> {
    let alloc = rt.alloc();
    let (from, to) = (member(1)?, member(0)?);
    let mut maker = LieLines::new(alloc, from, to, 11);
    let end = RunEnd::Lied {
        from,
        to,
        at: 11,
        put: 0x61,
        got: 0x60,
    };
    assert_eq!(rt; end_over(alloc, &mut maker, &[])?, (end, 6));
    Ok(())
}

#[test]
fn a_line_that_fails(rt: HostRuntime) -> Result<(), Fail> {
    let alloc = rt.alloc();
    let (from, to) = (member(0)?, member(2)?);
    let fails = vec![in alloc;
        LineFail {
            from,
            to,
            way: Way::Put,
            nth: 2
        },
    ]?;
    let mut maker = MemLines::new(alloc, 4_096, fails);
    let end = RunEnd::Down { from, to };
    assert_eq!(rt; end_over(alloc, &mut maker, &[])?, (end, 9));
    Ok(())
}
