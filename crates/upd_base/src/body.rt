//! The messages of all three ordering protocols, as modules of one version send them to each other,
//! and what a member says of a version that it has left.
ghost use Rattle.std.specs.Prelude.{◌≡◌, IfOk};
ghost use Rattle.upd_base.specs.Body.{body_fits, is_body};

use crate::batch::Batch;
use crate::item::Item;
use crate::no_memory::NoMemory;
use std::alloc::Global;

/// What modules of one version send to each other, and what members say of a version. Places,
/// instances, rounds and the stamps of requests and acknowledgements count from 1; the stamp of an
/// estimate may be 0.
#[derive(Debug, Drop, PartialEq, Eq)]
pub enum Body {
    /// Fixed sequencer: order this item.
    Ask {
        item: Item,
    },
    /// Fixed sequencer: this item has this place.
    Ord {
        place: u64,
        item: Item,
    },
    /// Timestamps: a request with its sender's clock.
    Req {
        stamp: u64,
        item: Item,
    },
    /// Timestamps: an acknowledgement with its sender's clock.
    Ack {
        stamp: u64,
    },
    /// Consensus: reliable broadcast of an item.
    Rb {
        item: Item,
    },
    /// Consensus: an estimate with the round in which it was last adopted.
    Est {
        instance: u64,
        round: u64,
        stamp: u64,
        batch: Batch,
    },
    /// Consensus: the coordinator's proposal.
    Prop {
        instance: u64,
        round: u64,
        batch: Batch,
    },
    /// Consensus: an answer to a proposal.
    Reply {
        instance: u64,
        round: u64,
        yes: bool,
    },
    /// Consensus: the round is over without a decision.
    Next {
        instance: u64,
        round: u64,
    },
    /// Consensus: reliable broadcast of a decision.
    Decide {
        instance: u64,
        batch: Batch,
    },
    /// From a member and not from a module: it has left the frame's version. No module gets it.
    Past,
}

impl Body {
    /// The same body.
    pub fn copy(&self, alloc: Global) -> Result<Body, NoMemory>
        ensures { IfOk result (λ body. body ≡ self.now) }
    {
        match self {
            Body::Ask { item } => Ok(Body::Ask { item: item.copy()? }),
            Body::Ord { place, item } => Ok(Body::Ord {
                place: *place,
                item: item.copy()?,
            }),
            Body::Req { stamp, item } => Ok(Body::Req {
                stamp: *stamp,
                item: item.copy()?,
            }),
            Body::Ack { stamp } => Ok(Body::Ack { stamp: *stamp }),
            Body::Rb { item } => Ok(Body::Rb { item: item.copy()? }),
            Body::Est {
                instance,
                round,
                stamp,
                batch,
            } => Ok(Body::Est {
                instance: *instance,
                round: *round,
                stamp: *stamp,
                batch: batch.copy(alloc)?,
            }),
            Body::Prop {
                instance,
                round,
                batch,
            } => Ok(Body::Prop {
                instance: *instance,
                round: *round,
                batch: batch.copy(alloc)?,
            }),
            Body::Reply {
                instance,
                round,
                yes,
            } => Ok(Body::Reply {
                instance: *instance,
                round: *round,
                yes: *yes,
            }),
            Body::Next { instance, round } => Ok(Body::Next {
                instance: *instance,
                round: *round,
            }),
            Body::Decide { instance, batch } => Ok(Body::Decide {
                instance: *instance,
                batch: batch.copy(alloc)?,
            }),
            Body::Past => Ok(Body::Past),
        }
    }

    /// Whether each member that it names is below n.
    pub fn fits(&self, n: u8) -> bool
        ensures { result ≡ body_fits n self.now }
    {
        match self {
            Body::Ask { item }
            | Body::Ord { item, .. }
            | Body::Req { item, .. }
            | Body::Rb { item } => item.fits(n),
            Body::Est { batch, .. } | Body::Prop { batch, .. } | Body::Decide { batch, .. } => {
                batch.fits(n)
            }
            Body::Ack { .. } | Body::Reply { .. } | Body::Next { .. } | Body::Past => true,
        }
    }

    /// Whether its place, instance, round, and the stamp of a request or an acknowledgement, is at
    /// least 1.
    pub fn counts_from_one(&self) -> bool
        ensures { result ≡ is_body self.now }
    {
        match self {
            Body::Ask { .. } | Body::Rb { .. } | Body::Past => true,
            Body::Ord { place, .. } => *place >= 1,
            Body::Req { stamp, .. } | Body::Ack { stamp } => *stamp >= 1,
            Body::Est {
                instance,
                round,
                ..
            }
            | Body::Prop {
                instance,
                round,
                ..
            }
            | Body::Reply {
                instance,
                round,
                ..
            }
            | Body::Next { instance, round } => *instance >= 1 && *round >= 1,
            Body::Decide { instance, .. } => *instance >= 1,
        }
    }
}
