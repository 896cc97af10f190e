//! Duplicate detection in reliable broadcast: whether a receipt is the first, and whether the member must relay it.
ghost use Rattle.std.specs.Prelude.{◌≡◌, List, [], ◌∷◌, IfOk, OnOk, OnErr};
ghost use Rattle.reliable_bcast.specs.Rb.{Event, Started, Received, StandsFor, seen};

use number_runs::NumberRuns;
use std::alloc::Global;
use std::marker::Model;
use upd_base::NoMemory;

/// What a receipt was.
#[derive(Clone, Copy, Debug, PartialEq, Eq)]
pub enum Seen {
    /// The first of its key. `pass_on`: this member did not start the key, and has to send it on.
    First { pass_on: bool },
    /// A later one. Nothing is to be done.
    Again,
}

/// One member's share of reliable broadcasts, each named by the origin of its message and the number there.
///
/// It keeps no list of what was done to it: a clause speaks of every list of events for which it stands. What
/// is kept of the messages of an origin is as little as their numbers are in order.
#[derive(Drop)]
pub struct Rb {
    started: NumberRuns,
    received: NumberRuns,
}

impl Model for Rb {
    ghost use Rattle.reliable_bcast.specs.Rb.{Share};

    ghost Value = { Share };

    ghost view = { λ r. record { started = r.started; received = r.received } };
}

impl Rb {
    /// Nothing was started or received.
    pub fn new(alloc: Global) -> Rb
        ensures stands { StandsFor result [] }
    {
        Rb {
            started: NumberRuns::new(alloc),
            received: NumberRuns::new(alloc),
        }
    }

    /// This member started the broadcast. After `NoMemory` nothing has changed.
    pub fn start(&mut self, origin: u8, number: u32) -> Result<(), NoMemory>
        ensures stands { OnOk result ((past : List Event) → StandsFor self.old past → StandsFor self.new (Started (origin, number) ∷ past)) }
        ensures unchanged { OnErr result (self.new ≡ self.old) }
    {
        self.started.insert(origin, u64::from(number))?;
        Ok(())
    }

    /// The broadcast was received. After `NoMemory` nothing has changed.
    pub fn receive(&mut self, origin: u8, number: u32) -> Result<Seen, NoMemory>
        ensures stands { OnOk result ((past : List Event) → StandsFor self.old past → StandsFor self.new (Received (origin, number) ∷ past)) }
        ensures seen { IfOk result (λ answer. (past : List Event) → StandsFor self.old past → answer ≡ seen past (origin, number)) }
        ensures unchanged { OnErr result (self.new ≡ self.old) }
    {
        let number = u64::from(number);
        let pass_on = !self.started.contains(origin, number);
        if self.received.insert(origin, number)? {
            Ok(Seen::First { pass_on })
        } else {
            Ok(Seen::Again)
        }
    }

    /// An equal one.
    pub fn copy(&self, alloc: Global) -> Result<Rb, NoMemory>
        ensures { IfOk result (λ copy. copy ≡ self.now) }
    {
        let started = self.started.copy(alloc)?;
        let received = self.received.copy(alloc)?;
        Ok(Rb { started, received })
    }
}
