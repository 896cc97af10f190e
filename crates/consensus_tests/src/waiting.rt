//! Items that wait: put in, taken out and batched by origin and number.
ghost use Rattle.std.specs.Prelude.{◌≡◌, IfOk};
ghost use Rattle.upd_base.specs.Item.{id_of};

use std::alloc::Global;
use std::test::*;
use upd_base::{Item, Kind, MemberId};
use waiting_items::Waiting;

fn item(origin: u8, number: u32) -> Result<Item, Fail>
    ensures { IfOk result (λ item. id_of item ≡ (origin, number)) }
{
    match MemberId::new(origin) {
        Some(origin) => Ok(Item::Switch {
            origin,
            number,
            kind: Kind::Lamport,
        }),
        None => Err("a member")?,
    }
}

fn put(alloc: Global, waiting: &mut Waiting, item: Item) -> Result<(), Fail> {
    if waiting.insert(alloc, item).is_err() {
        return Err("memory")?;
    }
    Ok(())
}

fn take_out(alloc: Global, waiting: &mut Waiting, item: Item) -> Result<(), Fail> {
    if waiting.remove_all(alloc, &[item]).is_err() {
        return Err("memory")?;
    }
    Ok(())
}

fn first(alloc: Global, waiting: &Waiting) -> Result<Option<Item>, Fail> {
    let Ok(Some(batch)) = waiting.first_batch(alloc) else {
        return Ok(None);
    };
    match batch.items() {
        [first, ..] => match first.copy() {
            Ok(item) => Ok(Some(item)),
            Err(_) => Err("memory")?,
        },
        [] => Ok(None),
    }
}

#[test]
fn by_origin_and_number(rt: HostRuntime) -> Result<(), Fail> {
    let alloc = rt.alloc();
    let Ok(mut waiting) = Waiting::new(alloc) else {
        return Err("memory")?;
    };
    assert!(rt; waiting.is_empty());
    put(alloc, &mut waiting, item(1, 0)?)?;
    put(alloc, &mut waiting, item(0, 7)?)?;
    put(alloc, &mut waiting, item(1, 0)?)?;
    let Ok(mut copy) = waiting.copy() else {
        return Err("memory")?;
    };
    take_out(alloc, &mut waiting, item(0, 7)?)?;
    assert_eq!(rt; first(alloc, &waiting)?, Some(item(1, 0)?));
    assert_eq!(rt; first(alloc, &copy)?, Some(item(0, 7)?));
    take_out(alloc, &mut copy, item(0, 7)?)?;
    take_out(alloc, &mut copy, item(1, 0)?)?;
    assert_eq!(rt; first(alloc, &copy)?, None);
    assert!(rt; copy.is_empty());
    Ok(())
}
