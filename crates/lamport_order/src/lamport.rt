//! Total order broadcast by Lamport timestamps: a request is delivered once every member was heard up to its stamp.
ghost use Rattle.std.specs.Prelude.{ℕ, ◌≡◌, ◌<◌, ◌≤◌, ◌∷◌, ◌++◌, if◌then◌else◌, max, not, nat_le, slice_index, slice_set, length, map, All, OnOk, IsOk};
ghost use Rattle.std.specs.List.{filter};
ghost use Rattle.fifo_net.specs.Net.{Called};
ghost use Rattle.upd_base.specs.Item.{ItemFits};
ghost use Rattle.order_trait.specs.Outbox.{Grows, SendFits};
ghost use Rattle.order_trait.specs.Runs.{Suspect, Trust, Inputs, at_seat};
ghost use Rattle.upd_base.specs.declared.body.Body.TheVariants.{Req};
ghost use Rattle.request_queue.specs.Request.{insert};
ghost use Rattle.lamport_rules.specs.Lamport.{is_lamport, sends_of, delivers_of, clock_at, least_below};

use crate::heard::{least, raise};
use order_trait::{Ordering, Outbox};
use request_queue::{Request, RequestQueue};
use std::alloc::Global;
use upd_base::{Body, Item, Kind, MemberId, NoMemory};

/// One member's part of ordering by timestamps.
///
/// An item goes to all with its sender's clock, and whoever takes it from another member acknowledges it
/// to all with its own. A member delivers the items in the order of stamp and sender, each once it has
/// heard at least that stamp from every member: no earlier one can come any more.
#[derive(Drop)]
pub struct LamportOrder {
    members: u8,
    me: MemberId,
    clock: u64,
    /// The greatest stamp that was taken from each member.
    heard: Vec<u64>,
    /// The requests above what every member was heard to.
    waiting: RequestQueue,
    ghost few: { members ≤ 7 },
    ghost row: { length heard.items ≡ members },
    ghost items_fit: { All (λ w. ItemFits members w.item) waiting },
}

impl LamportOrder {
    /// Sets the clock past the stamp of a request, and puts the request among those that wait.
    fn put(&mut self, stamp: u64, from: MemberId, item: Item) -> Result<(), NoMemory>
        requires { ItemFits self.old.members item }
        ensures members { self.new.members ≡ self.old.members }
        ensures me { self.new.me ≡ self.old.me }
        ensures clock { self.new.clock ≡ clock_at self.old.clock (Req stamp item) }
        ensures heard { self.new.heard.items ≡ self.old.heard.items }
        ensures waiting { OnOk result (self.new.waiting ≡ insert (record { stamp = stamp; from = from; item = item }) self.old.waiting) }
    {
        self.clock = self.clock.max(stamp).saturating_add(1);
        self.waiting.insert(Request { stamp, from, item })
    }

    /// Notes a stamp of a member, and delivers the requests that no earlier one can come before.
    fn hear(
        &mut self,
        from: MemberId,
        stamp: u64,
        delivered: &mut Vec<Item>,
    ) -> Result<(), NoMemory>
        requires { from < self.old.members }
        ensures members { self.new.members ≡ self.old.members }
        ensures me { self.new.me ≡ self.old.me }
        ensures clock { self.new.clock ≡ self.old.clock }
        ensures heard { self.new.heard.items ≡ slice_set self.old.heard.items from (max (slice_index self.old.heard.items from) stamp) }
        ensures waiting { OnOk result (self.new.waiting ≡ filter (λ w. not (nat_le w.stamp (least_below (length self.new.heard.items) (λ j. slice_index self.new.heard.items j)))) self.old.waiting) }
        ensures out { OnOk result (delivered.new.items ≡ delivered.old.items ++ map (λ w. w.item) (filter (λ w. nat_le w.stamp (least_below (length self.new.heard.items) (λ j. slice_index self.new.heard.items j))) self.old.waiting)) }
        ensures fits { OnOk result (Grows (ItemFits self.old.members) delivered.old.items delivered.new.items) }
    {
        raise(&mut self.heard, from.get() as usize, stamp);
        let limit = least(self.heard.as_slice());
        self.waiting.release_up_to(limit, delivered)
    }
}

impl Ordering for LamportOrder {
    ghost use Rattle.lamport_order.specs.LamportOrder.{seat_of, StandsFor};

    ghost is_served = { is_lamport };

    ghost sends = { sends_of };

    ghost delivers = { delivers_of };

    ghost seat = { seat_of };

    ghost stands = { StandsFor };

    fn serves(kind: Kind) -> bool {
        match kind {
            Kind::Lamport => true,
            Kind::Sequencer(_) | Kind::Consensus => false,
        }
    }

    fn fresh(alloc: Global, _kind: Kind, n: u8, me: MemberId) -> Result<Self, NoMemory> {
        Ok(LamportOrder {
            members: n,
            me,
            clock: 0,
            heard: vec![in alloc; 0; n as usize]?,
            waiting: RequestQueue::new(alloc),
        })
    }

    fn copy(&self, alloc: Global) -> Result<Self, NoMemory> {
        Ok(LamportOrder {
            members: self.members,
            me: self.me,
            clock: self.clock,
            heard: Vec::from_slice(alloc, self.heard.as_slice())?,
            waiting: self.waiting.copy(alloc)?,
        })
    }

    fn kind(&self) -> Kind {
        Kind::Lamport
    }

    fn broadcast(&mut self, alloc: Global, item: &Item, out: &mut Outbox) -> Result<(), NoMemory> {
        self.clock = self.clock.saturating_add(1);
        let req = Body::Req {
            stamp: self.clock,
            item: item.copy()?,
        };
        out.push_all(alloc, self.members, &req)
    }

    fn receive(
        &mut self,
        alloc: Global,
        from: MemberId,
        body: &Body,
        out: &mut Outbox,
        delivered: &mut Vec<Item>,
    ) -> Result<(), NoMemory> {
        match body {
            Body::Req { stamp, item } => {
                self.put(*stamp, from, item.copy()?)?;
                if from != self.me {
                    out.push_all(alloc, self.members, &Body::Ack { stamp: self.clock })?;
                }
                self.hear(from, *stamp, delivered)?;
                Ok(())
            }
            Body::Ack { stamp } => {
                self.hear(from, *stamp, delivered)?;
                Ok(())
            }
            _ => Ok(()),
        }
    }

    /// Suspicions change nothing and take no memory.
    fn suspect(
        &mut self,
        _alloc: Global,
        _who: MemberId,
        _on: bool,
        _out: &mut Outbox,
    ) -> Result<(), NoMemory>
        ensures ok { IsOk result }
        ensures same { self.new ≡ self.old }
        ensures quiet { _out.new ≡ _out.old }
        ensures seat { seat_of self.new ≡ seat_of self.old }
        ensures fits { OnOk result (Grows (SendFits (seat_of self.old).members) _out.old _out.new) }
        ensures stands { OnOk result ((past : Inputs) → StandsFor self.old past → StandsFor self.new (Called (if _on then Suspect _who else Trust _who) ∷ past)) }
        ensures sent { OnOk result ((past : Inputs) → StandsFor self.old past → _out.new ≡ _out.old ++ at_seat sends_of (seat_of self.old) (Called (if _on then Suspect _who else Trust _who) ∷ past)) }
    {
        Ok(())
    }

    ghost use Rattle.lamport_rules.proofs.Laws.{agreement_of, integrity_of, fulfilment_of, bound_of, never_past_of};

    ghost agreement = { agreement_of };

    ghost integrity = { integrity_of };

    ghost fulfilment = { fulfilment_of };

    ghost bound = { bound_of };

    ghost never_past = { never_past_of };
}
