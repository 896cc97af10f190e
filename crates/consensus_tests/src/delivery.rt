//! Decided batches, in the order of their instances, and items that are in several of them.
ghost use Rattle.std.specs.Prelude.{◌≡◌, true, IfOk};
ghost use Rattle.std.specs.List.{list_all};
ghost use Rattle.upd_base.specs.Item.{ItemFits, item_fits};
ghost use Rattle.batch_delivery.specs.Delivery.{members_of};

use batch_delivery::Delivery;
use std::alloc::Global;
use std::test::*;
use upd_base::{Batch, Item, Kind, MemberId};

fn item(number: u32) -> Result<Item, Fail>
    ensures { IfOk result (λ item. ItemFits 7 item) }
{
    let Some(origin) = MemberId::new(0) else {
        return Err("a member")?;
    };
    Ok(Item::Switch {
        origin,
        number,
        kind: Kind::Lamport,
    })
}

fn batch(alloc: Global, number: u32) -> Result<Batch, Fail>
    ensures { IfOk result (λ b. list_all (item_fits 7) b ≡ true) }
{
    let mut items = Vec::new(alloc);
    items.push(item(number)?)?;
    let Some(batch) = Batch::new(items) else {
        return Err("a batch")?;
    };
    if !batch.fits(7) {
        return Err("fits")?;
    }
    Ok(batch)
}

fn empty(alloc: Global) -> Result<Delivery, Fail>
    ensures { IfOk result (λ d. members_of d ≡ 7) }
{
    match Delivery::new(alloc, 7) {
        Ok(delivery) => Ok(delivery),
        Err(_) => Err("memory")?,
    }
}

#[test]
fn in_the_order_of_the_instances(rt: HostRuntime) -> Result<(), Fail> {
    let alloc = rt.alloc();
    let mut delivered = Vec::new(alloc);
    let mut delivery = empty(alloc)?;
    assert!(rt; delivery.receive(alloc, item(4)?).is_ok());
    assert_eq!(rt; delivery.next(), Some(1));
    assert!(rt; delivery.decide(2, batch(alloc, 5)?).is_ok());
    assert!(rt; delivery.deliver(alloc, &mut delivered).is_ok());
    assert!(rt; delivered.is_empty());
    assert!(rt; delivery.is_decided(2));
    assert!(rt; !delivery.is_decided(1));
    let Ok(Some(first)) = delivery.first_batch(alloc) else {
        return Err("a batch")?;
    };
    assert!(rt; first == batch(alloc, 4)?);
    Ok(())
}

#[test]
fn a_copy_goes_its_own_way(rt: HostRuntime) -> Result<(), Fail> {
    let alloc = rt.alloc();
    let mut delivered = Vec::new(alloc);
    let mut delivery = empty(alloc)?;
    assert!(rt; delivery.decide(2, batch(alloc, 5)?).is_ok());
    let Ok(mut copy) = delivery.copy(alloc) else {
        return Err("memory")?;
    };
    assert!(rt; copy.decide(1, batch(alloc, 4)?).is_ok());
    assert!(rt; copy.deliver(alloc, &mut delivered).is_ok());
    assert_eq!(rt; delivered.len(), 2);
    assert_eq!(rt; copy.next(), Some(3));
    assert_eq!(rt; delivery.next(), Some(1));
    Ok(())
}
