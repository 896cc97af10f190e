//! Consensus as an `Ordering`: each body goes to an item's broadcast or to its instance, then delivery follows.
ghost use Rattle.std.specs.Prelude.{ℕ, List, true, ◌≡◌, ◌∷◌, ◌++◌, OnOk};
ghost use Rattle.std.specs.List.{flat_map};
ghost use Rattle.fifo_net.specs.Net.{Took};
ghost use Rattle.upd_base.specs.Body.{BodyFits, is_body};
ghost use Rattle.upd_base.specs.Item.{ItemFits};
ghost use Rattle.upd_base.specs.declared.body.Body.{Body};
ghost use Rattle.upd_base.specs.declared.item.Item.{Item};
ghost use Rattle.order_trait.specs.Outbox.{Grows, SendFits};
ghost use Rattle.order_trait.specs.Runs.{Inputs};
ghost use Rattle.consensus_rules.specs.Delivered.{delivers_by};
ghost use Rattle.consensus_rules.specs.Instances.{number_in};
ghost use Rattle.consensus_rules.specs.Consensus as rules;
ghost use Rattle.consensus_rules.specs.Consensus.{delivers_of, is_consensus, sends_of};
ghost use Rattle.consensus_order.specs.ConsensusOrder.{Heard, Ready, StandsFor, seat_of};

use crate::consensus::{ConsensusOrder, id, instance_of};
use batch_delivery::Delivery;
use instance_table::Instances;
use order_trait::{Ordering, Outbox};
use reliable_bcast::Rb;
use std::alloc::Global;
use upd_base::{Body, Item, Kind, MemberId, NoMemory};

impl ConsensusOrder {
    /// A body by its kind: an item, or what is said in an instance. One of another kind changes nothing.
    fn take(
        &mut self,
        alloc: Global,
        from: MemberId,
        body: &Body,
        out: &mut Outbox,
    ) -> Result<(), NoMemory>
        requires fits { BodyFits (seat_of self.old).members body.now }
        requires counts { is_body body.now ≡ true }
        ensures seat { seat_of self.new ≡ seat_of self.old }
        ensures fits_out { OnOk result (Grows (SendFits (seat_of self.old).members) out.old out.new) }
        ensures stands { OnOk result ((past : Inputs) → StandsFor self.old past → Heard self.new from body.now past) }
        ensures sent { OnOk result ((past : Inputs) → StandsFor self.old past → out.new ≡ out.old ++ (rules.passes_rb (seat_of self.old).members past body.now ++ flat_map (rules.hears_one (seat_of self.old).members (seat_of self.old).me from body.now past) (number_in body.now))) }
    {
        if let Body::Rb { item } = body {
            return self.take_item(alloc, item, body, out);
        }
        if let Some(number) = instance_of(body) {
            return self.take_say(alloc, number, from, body, out);
        }
        Ok(())
    }

    /// Delivers what a body that was taken makes deliverable.
    fn deliver(&mut self, alloc: Global, delivered: &mut Vec<Item>) -> Result<(), NoMemory>
        ensures seat { seat_of self.new ≡ seat_of self.old }
        ensures items_fit { OnOk result (Grows (ItemFits (seat_of self.old).members) delivered.old.items delivered.new.items) }
        ensures stands { OnOk result ((from : ℕ) (body : Body) (past : Inputs) → Heard self.old from body past → Ready self.new from body past) }
        ensures delivered { OnOk result ((from : ℕ) (body : Body) (past : Inputs) (more : List Item) → Heard self.old from body past → delivers_by (seat_of self.old).members (seat_of self.old).me (Took from body ∷ past) ≡ delivers_by (seat_of self.old).members (seat_of self.old).me past ++ more → delivered.new.items ≡ delivered.old.items ++ more) }
    {
        self.delivery.deliver(alloc, delivered)
    }
}

impl Ordering for ConsensusOrder {
    ghost is_served = { is_consensus };

    ghost sends = { sends_of };

    ghost delivers = { delivers_of };

    ghost seat = { seat_of };

    ghost stands = { StandsFor };

    fn serves(kind: Kind) -> bool {
        match kind {
            Kind::Consensus => true,
            Kind::Sequencer(_) | Kind::Lamport => false,
        }
    }

    fn fresh(alloc: Global, _kind: Kind, n: u8, me: MemberId) -> Result<Self, NoMemory> {
        Ok(ConsensusOrder {
            broadcasts: Rb::new(alloc),
            delivery: Delivery::new(alloc, n)?,
            instances: Instances::new(alloc, n, me),
        })
    }

    fn copy(&self, alloc: Global) -> Result<Self, NoMemory> {
        Ok(ConsensusOrder {
            broadcasts: self.broadcasts.copy(alloc)?,
            delivery: self.delivery.copy(alloc)?,
            instances: self.instances.copy(alloc)?,
        })
    }

    fn kind(&self) -> Kind {
        Kind::Consensus
    }

    fn broadcast(&mut self, alloc: Global, item: &Item, out: &mut Outbox) -> Result<(), NoMemory> {
        let (origin, number) = id(item);
        self.broadcasts.start(origin, number)?;
        let rb = Body::Rb { item: item.copy()? };
        out.push_all(alloc, self.instances.members(), &rb)
    }

    fn receive(
        &mut self,
        alloc: Global,
        from: MemberId,
        body: &Body,
        out: &mut Outbox,
        delivered: &mut Vec<Item>,
    ) -> Result<(), NoMemory> {
        self.take(alloc, from, body, out)?;
        self.deliver(alloc, delivered)?;
        self.start_next(alloc, out)
    }

    fn suspect(
        &mut self,
        alloc: Global,
        who: MemberId,
        on: bool,
        out: &mut Outbox,
    ) -> Result<(), NoMemory> {
        if on {
            return self.instances.suspect(alloc, who, out);
        }
        self.instances.trust(who);
        Ok(())
    }

    ghost use Rattle.consensus_laws.proofs.Laws.{agreement_of, integrity_of, fulfilment_of, bound_of, never_past_of};

    ghost agreement = { agreement_of };

    ghost integrity = { integrity_of };

    ghost fulfilment = { fulfilment_of };

    ghost bound = { bound_of };

    ghost never_past = { never_past_of };
}
