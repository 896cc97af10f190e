//! Total order broadcast by successive instances of consensus: one member's state, and what it does at each body.
ghost use Rattle.std.specs.Prelude.{ℕ, List, ◌≡◌, ◌<◌, ◌≤◌, ◌∷◌, ◌++◌, [], true, None, IfOk, OnOk, option_to_list};
ghost use Rattle.std.specs.List.{flat_map};
ghost use Rattle.fifo_net.specs.Net.{Took};
ghost use Rattle.upd_base.specs.Body.{BodyFits, is_body};
ghost use Rattle.upd_base.specs.Item.{ItemFits, id_of};
ghost use Rattle.upd_base.specs.declared.body.Body.{Body};
ghost use Rattle.consensus_rules.specs.Items.{rb_item};
ghost use Rattle.order_trait.specs.Outbox.{Grows, SendFits};
ghost use Rattle.order_trait.specs.Runs.{Inputs};
ghost use Rattle.consensus_rules.specs.Delivered.{next};
ghost use Rattle.consensus_rules.specs.Instances.{number_in};
ghost use Rattle.consensus_rules.specs.Consensus as rules;
ghost use Rattle.instance_table.specs.Table as tables;
ghost use Rattle.batch_delivery.specs.Delivery as deliveries;

use batch_delivery::Delivery;
use instance_table::Instances;
use order_trait::Outbox;
use reliable_bcast::{Rb, Seen};
use std::alloc::Global;
use upd_base::{Body, Item, Kind, MemberId, NoMemory};

/// One member's part of ordering by consensus.
///
/// Items are diffused by reliable broadcast. Where received items wait, the member starts the instance
/// that it delivers next with the first 32 of them, by origin and number. What the instances decide is
/// delivered in their order, each item once.
#[derive(Drop)]
pub struct ConsensusOrder {
    /// The broadcasts of items, by origin and number.
    pub(crate) broadcasts: Rb,
    pub(crate) delivery: Delivery,
    pub(crate) instances: Instances,
    ghost same_members: { deliveries.members_of delivery ≡ tables.members_of instances },
}

/// The origin and the number of an item.
pub(crate) fn id(item: &Item) -> (u8, u32)
    ensures { result ≡ id_of item.now }
{
    (item.origin().get(), item.number())
}

/// The instance that a body names.
pub(crate) fn instance_of(body: &Body) -> Option<u64>
    ensures { option_to_list result ≡ number_in body.now }
{
    match body {
        Body::Est { instance, .. }
        | Body::Prop { instance, .. }
        | Body::Reply { instance, .. }
        | Body::Next { instance, .. }
        | Body::Decide { instance, .. } => Some(*instance),
        _ => None,
    }
}

impl ConsensusOrder {
    ghost use Rattle.consensus_order.specs.ConsensusOrder.{Heard, Ready, StandsFor, heard_by, seat_of};

    /// An Rb: the first of its item is passed on, unless this member has begun it, and is received.
    pub(crate) fn take_item(
        &mut self,
        alloc: Global,
        item: &Item,
        body: &Body,
        out: &mut Outbox,
    ) -> Result<(), NoMemory>
        requires holds { rb_item body.now ≡ item.now ∷ [] }
        requires fits { BodyFits (seat_of self.old).members body.now }
        ensures seat { seat_of self.new ≡ seat_of self.old }
        ensures fits_out { OnOk result (Grows (SendFits (seat_of self.old).members) out.old out.new) }
        ensures stands { OnOk result ((from : ℕ) (past : Inputs) → StandsFor self.old past → Heard self.new from body.now past) }
        ensures sent { OnOk result ((past : Inputs) → StandsFor self.old past → out.new ≡ out.old ++ rules.passes_rb (seat_of self.old).members past body.now) }
    {
        let (origin, number) = id(item);
        let Seen::First { pass_on } = self.broadcasts.receive(origin, number)? else {
            return Ok(());
        };
        if pass_on {
            out.push_all(alloc, self.instances.members(), body)?;
        }
        self.delivery.receive(alloc, item.copy()?)?;
        Ok(())
    }

    /// A body of an instance; a decided one has no more to say.
    pub(crate) fn take_say(
        &mut self,
        alloc: Global,
        number: u64,
        from: MemberId,
        body: &Body,
        out: &mut Outbox,
    ) -> Result<(), NoMemory>
        requires names { number_in body.now ≡ number ∷ [] }
        requires counts { 1 ≤ number }
        requires fits { BodyFits (seat_of self.old).members body.now }
        ensures seat { seat_of self.new ≡ seat_of self.old }
        ensures fits_out { OnOk result (Grows (SendFits (seat_of self.old).members) out.old out.new) }
        ensures stands { OnOk result ((past : Inputs) → StandsFor self.old past → Heard self.new from body.now past) }
        ensures sent { OnOk result ((past : Inputs) → StandsFor self.old past → out.new ≡ out.old ++ rules.hears_one (seat_of self.old).members (seat_of self.old).me from body.now past number) }
    {
        if self.delivery.is_decided(number) {
            return Ok(());
        }
        match body {
            Body::Decide { batch, .. } => {
                self.instances.decide(alloc, number, from, body, out)?;
                self.delivery.decide(number, batch.copy(alloc)?)?;
            }
            _ => self.instances.hear(alloc, number, from, body, out)?,
        }
        Ok(())
    }

    /// Starts the instance that is next, where the member takes no part in it and something waits.
    pub(crate) fn start_next(&mut self, alloc: Global, out: &mut Outbox) -> Result<(), NoMemory>
        ensures seat { seat_of self.new ≡ seat_of self.old }
        ensures fits_out { OnOk result (Grows (SendFits (seat_of self.old).members) out.old out.new) }
        ensures stands { OnOk result ((from : ℕ) (body : Body) (past : Inputs) → Ready self.old from body past → StandsFor self.new (Took from body ∷ past)) }
        ensures sent { OnOk result ((from : ℕ) (body : Body) (past : Inputs) → Ready self.old from body past → out.new ≡ out.old ++ rules.starts_up (seat_of self.old).members (seat_of self.old).me (next (Took from body ∷ past)) (Took from body ∷ past) (heard_by (seat_of self.old).members from body past (next (Took from body ∷ past)))) }
    {
        let Some(number) = self.delivery.next() else {
            return Ok(());
        };
        if self.instances.round(number) != 0 {
            return Ok(());
        }
        let Some(batch) = self.delivery.first_batch(alloc)? else {
            return Ok(());
        };
        self.instances.start(alloc, number, batch, out)?;
        Ok(())
    }
}
