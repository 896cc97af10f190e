//! What each type takes and refuses at its limits, and copies that are the same.
use std::alloc::Global;
use std::test::Fail;
use upd_base::{
    Batch, Body, Call, Entry, Frame, Item, Kind, Log, MemberId, Plan, Step, Text, is_printable,
    member_at,
};

fn text(alloc: Global, bytes: &[u8]) -> Result<Text, Fail> {
    Ok(Text::new(alloc, bytes)?.ok_or("no payload")?)
}

fn message(alloc: Global, origin: u8, number: u32) -> Result<Item, Fail> {
    Ok(Item::Msg {
        origin: MemberId::new(origin).ok_or("no member")?,
        number,
        payload: text(alloc, b"a")?,
    })
}

#[test]
fn members_and_kinds(rt: HostRuntime) -> Result<(), Fail> {
    let alloc = rt.alloc();
    assert!(rt; MemberId::new(6) == Some(member_at(6)) && MemberId::new(7).is_none());
    let last = Kind::Sequencer(member_at(6));
    assert_eq!(rt; last.text(alloc)?.as_str(), "sequencer 6");
    assert!(rt; last.fits(7) && !last.fits(6));
    Ok(())
}

#[test]
fn payloads(rt: HostRuntime) -> Result<(), Fail> {
    let alloc = rt.alloc();
    let longest = vec![in alloc; b'~'; 256]?;
    let payload = text(alloc, longest.as_slice())?;
    payload.keeps_limits();
    assert_eq!(rt; payload.copy()?.bytes(), longest.as_slice());
    let too_long = vec![in alloc; b'a'; 257]?;
    assert!(rt; Text::new(alloc, too_long.as_slice())?.is_none());
    assert!(rt; Text::new(alloc, b"")?.is_none());
    assert!(rt; Text::new(alloc, b"\x1f")?.is_none());
    assert!(rt; Text::new(alloc, b"\x7f")?.is_none());
    assert!(rt; is_printable(0x7e) && !is_printable(0x7f));
    Ok(())
}

#[test]
fn batches(rt: HostRuntime) -> Result<(), Fail> {
    let alloc = rt.alloc();
    let items = vec![in alloc;
        message(alloc, 0, 7)?,
        message(alloc, 1, 0)?,
        message(alloc, 1, 1)?,
    ]?;
    let batch = Batch::new(items).ok_or("no batch")?;
    batch.keeps_limits();
    assert_eq!(rt; batch.copy(alloc)?, batch);
    assert!(rt; batch.fits(2) && !batch.fits(1));
    let twice = vec![in alloc; message(alloc, 1, 0)?, message(alloc, 1, 0)?]?;
    assert!(rt; Batch::new(twice).is_none());
    let decision = Frame {
        version: 1,
        body: Body::Decide { instance: 1, batch },
    };
    assert!(rt; decision.copy(alloc)?.is_same(&decision));
    assert!(rt; decision.fits(2) && decision.body.counts_from_one());
    Ok(())
}

#[test]
fn plans(rt: HostRuntime) -> Result<(), Fail> {
    let alloc = rt.alloc();
    let at = MemberId::new(4).ok_or("no member")?;
    let mut steps = Vec::new(alloc);
    for index in 0..1_000u16 {
        let call = match index % 32 {
            31 => Call::Change(Kind::Lamport),
            _ => Call::Send(text(alloc, b"m")?),
        };
        steps.push(Step { at, call })?;
    }
    let threads = vec![in alloc; steps]?;
    let plan = Plan::new(5, Kind::Consensus, threads).ok_or("no plan")?;
    let plan = plan.copy(alloc)?;
    plan.keeps_limits();
    assert_eq!(rt; (plan.members(), plan.first()), (5, Kind::Consensus));
    assert_eq!(rt; plan.bound(), 4_161_000);
    assert!(rt; plan.threads() == 1);
    assert!(rt; plan.steps(0) == 1_000);
    Ok(())
}

#[test]
fn logs(rt: HostRuntime) -> Result<(), Fail> {
    let alloc = rt.alloc();
    let mut log = Log::new(alloc);
    assert!(rt; log.is_empty());
    let item = message(alloc, 2, 3)?;
    log.push(Entry {
        version: 0,
        item: item.copy()?,
    })?;
    log.reserve(1)?;
    log.push_ready(Entry { version: 1, item });
    assert_eq!(rt; log.entries().len(), log.len());
    assert!(rt; log.len() == 2);
    assert_eq!(rt; log.at(1).version, 1);
    assert_eq!(rt; log.at(1).item, log.at(0).item);
    Ok(())
}

#[test]
fn the_first_entry_into_reserved_room(rt: HostRuntime) -> Result<(), Fail> {
    let alloc = rt.alloc();
    let mut log = Log::new(alloc);
    log.reserve(1)?;
    assert!(rt; log.is_empty());
    log.push_ready(Entry {
        version: 0,
        item: message(alloc, 1, 0)?,
    });
    assert!(rt; log.len() == 1);
    assert_eq!(rt; log.at(0).item, message(alloc, 1, 0)?);
    Ok(())
}
