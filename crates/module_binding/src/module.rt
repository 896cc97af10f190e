//! The choice among the ordering modules at run time: fixed sequencer, timestamps or consensus, behind one trait.
ghost use Rattle.std.specs.Prelude.{ℕ, true, ◌≡◌};
ghost use Rattle.module_binding.specs.declared.module.Module.TheVariants.{Sequencer, Lamport, Consensus};
ghost use Rattle.module_binding.specs.Kinds.{is_served, sends_of, delivers_of};

use consensus_order::ConsensusOrder;
use lamport_order::LamportOrder;
use order_trait::{Ordering, Outbox};
use sequencer_order::SequencerOrder;
use std::alloc::Global;
use upd_base::{Body, Item, Kind, MemberId, NoMemory};

/// A module of any kind that is served: what the layers above are made with.
///
/// Each call is that of the module inside. A new kind adds a variant here, an arm to each call, and its
/// case to each definition of `specs/Kinds`.
#[derive(Drop)]
pub enum Module {
    Sequencer(SequencerOrder),
    Lamport(LamportOrder),
    Consensus(ConsensusOrder),
}

impl Ordering for Module {
    ghost is_served = { is_served };

    ghost sends = { sends_of };

    ghost delivers = { delivers_of };

    ghost seat = { elim [ Sequencer m ↦ ⟦<SequencerOrder as Ordering>⟧.seat m | Lamport m ↦ ⟦<LamportOrder as Ordering>⟧.seat m | Consensus m ↦ ⟦<ConsensusOrder as Ordering>⟧.seat m ] };

    ghost stands = { elim [ Sequencer m ↦ ⟦<SequencerOrder as Ordering>⟧.stands m | Lamport m ↦ ⟦<LamportOrder as Ordering>⟧.stands m | Consensus m ↦ ⟦<ConsensusOrder as Ordering>⟧.stands m ] };

    fn serves(kind: Kind) -> bool {
        match kind {
            Kind::Sequencer(_) | Kind::Lamport | Kind::Consensus => true,
        }
    }

    fn fresh(alloc: Global, kind: Kind, n: u8, me: MemberId) -> Result<Self, NoMemory> {
        match kind {
            Kind::Sequencer(_) => Ok(Module::Sequencer(SequencerOrder::fresh(alloc, kind, n, me)?)),
            Kind::Lamport => Ok(Module::Lamport(LamportOrder::fresh(alloc, kind, n, me)?)),
            Kind::Consensus => Ok(Module::Consensus(ConsensusOrder::fresh(alloc, kind, n, me)?)),
        }
    }

    fn kind(&self) -> Kind {
        match self {
            Module::Sequencer(m) => m.kind(),
            Module::Lamport(m) => m.kind(),
            Module::Consensus(m) => m.kind(),
        }
    }

    fn copy(&self, alloc: Global) -> Result<Self, NoMemory> {
        match self {
            Module::Sequencer(m) => Ok(Module::Sequencer(m.copy(alloc)?)),
            Module::Lamport(m) => Ok(Module::Lamport(m.copy(alloc)?)),
            Module::Consensus(m) => Ok(Module::Consensus(m.copy(alloc)?)),
        }
    }

    fn broadcast(&mut self, alloc: Global, item: &Item, out: &mut Outbox) -> Result<(), NoMemory> {
        match self {
            Module::Sequencer(m) => m.broadcast(alloc, item, out),
            Module::Lamport(m) => m.broadcast(alloc, item, out),
            Module::Consensus(m) => m.broadcast(alloc, item, out),
        }
    }

    fn receive(
        &mut self,
        alloc: Global,
        from: MemberId,
        body: &Body,
        out: &mut Outbox,
        delivered: &mut Vec<Item>,
    ) -> Result<(), NoMemory> {
        match self {
            Module::Sequencer(m) => m.receive(alloc, from, body, out, delivered),
            Module::Lamport(m) => m.receive(alloc, from, body, out, delivered),
            Module::Consensus(m) => m.receive(alloc, from, body, out, delivered),
        }
    }

    fn suspect(
        &mut self,
        alloc: Global,
        who: MemberId,
        on: bool,
        out: &mut Outbox,
    ) -> Result<(), NoMemory> {
        match self {
            Module::Sequencer(m) => m.suspect(alloc, who, on, out),
            Module::Lamport(m) => m.suspect(alloc, who, on, out),
            Module::Consensus(m) => m.suspect(alloc, who, on, out),
        }
    }

    ghost use Rattle.module_binding.specs.Kinds.{agreement_of, integrity_of, fulfilment_of, bound_of, never_past_of};

    ghost agreement = { agreement_of };

    ghost integrity = { integrity_of };

    ghost fulfilment = { fulfilment_of };

    ghost bound = { bound_of };

    ghost never_past = { never_past_of };
}
