//! What several tests are given: members, a batch of one change, and the decision for it.
ghost use Rattle.std.specs.Prelude.{◌≡◌, true, IfOk};
ghost use Rattle.upd_base.specs.Body.{BodyFits};
ghost use Rattle.ct_consensus.specs.Ballot.{all_fit};

use std::alloc::Global;
use std::test::*;
use upd_base::{Batch, Body, Item, Kind, MemberId};

pub fn member(id: u8) -> Result<MemberId, Fail>
    ensures { IfOk result (λ m. m ≡ id) }
{
    match MemberId::new(id) {
        Some(member) => Ok(member),
        None => Err("a member")?,
    }
}

/// A batch that fits a group of n members.
pub fn batch(alloc: Global, n: u8) -> Result<Batch, Fail>
    ensures { IfOk result (λ b. all_fit n b ≡ true) }
{
    let mut items = Vec::new(alloc);
    items.push(Item::Switch {
        origin: member(0)?,
        number: 4,
        kind: Kind::Lamport,
    })?;
    let Some(batch) = Batch::new(items) else {
        return Err("a batch")?;
    };
    if !batch.fits(n) {
        return Err("fits")?;
    }
    Ok(batch)
}

pub fn decision(alloc: Global, n: u8) -> Result<Body, Fail>
    ensures { IfOk result (λ body. BodyFits n body) }
{
    Ok(Body::Decide {
        instance: 1,
        batch: batch(alloc, n)?,
    })
}
