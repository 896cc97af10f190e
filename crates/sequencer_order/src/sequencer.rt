//! Total order broadcast by a fixed sequencer, as one member's module: what the sequencer numbers, all deliver.
ghost use Rattle.upd_base.specs.Kind.{KindFits};
ghost use Rattle.upd_base.specs.Item.{ItemFits};
ghost use Rattle.upd_base.specs.declared.body.Body.TheVariants.{Ord};
ghost use Rattle.std.specs.Prelude.{ℕ, true, ◌≡◌, ◌==◌, ◌+◌, ◌<◌, ◌≤◌, [], ◌∷◌, ◌++◌, if◌then◌else◌, IsOk, IfOk, OnOk};
ghost use Rattle.order_trait.specs.Outbox.{to_all, Grows, SendFits};
ghost use Rattle.sequencer_rules.specs.Sequencer.{is_sequencer, sends_of, delivers_of, place_of};

use order_trait::{Ordering, Outbox};
use std::alloc::Global;
use upd_base::{Body, Item, Kind, MemberId, NoMemory};

/// One member's part of a fixed sequencer.
///
/// Whoever broadcasts asks the sequencer, which gives each item that it is asked for the next place and
/// sends it to all; all deliver what the sequencer sends, in that order. There is no failover.
#[derive(Drop)]
pub struct SequencerOrder {
    sequencer: MemberId,
    members: u8,
    me: MemberId,
    /// The last place that was given, at the sequencer; 0 at the others.
    placed: u64,
    ghost few: { members ≤ 7 },
    ghost sequencer_fits: { sequencer < members },
}

impl SequencerOrder {
    /// At the sequencer, gives an item that it was asked for the next place, and sends it to all.
    fn order(&mut self, alloc: Global, item: &Item, out: &mut Outbox) -> Result<(), NoMemory>
        requires { ItemFits self.old.members item.now }
        ensures sequencer { self.new.sequencer ≡ self.old.sequencer }
        ensures members { self.new.members ≡ self.old.members }
        ensures me { self.new.me ≡ self.old.me }
        ensures placed { self.old.me ≡ self.old.sequencer → OnOk result (self.new.placed ≡ place_of (self.old.placed + 1)) }
        ensures out { OnOk result (out.new ≡ out.old ++ (if self.old.me == self.old.sequencer then to_all self.old.members (Ord (place_of (self.old.placed + 1)) item.now) else [])) }
        ensures fits { OnOk result (Grows (SendFits self.old.members) out.old out.new) }
    {
        if self.me != self.sequencer {
            return Ok(());
        }
        self.placed = self.placed.saturating_add(1);
        let ord = Body::Ord {
            place: self.placed,
            item: item.copy()?,
        };
        out.push_all(alloc, self.members, &ord)
    }

    /// Delivers an item that the sequencer ordered.
    fn deliver(
        &self,
        from: MemberId,
        item: &Item,
        delivered: &mut Vec<Item>,
    ) -> Result<(), NoMemory>
        requires { ItemFits self.now.members item.now }
        ensures delivered { OnOk result (delivered.new.items ≡ delivered.old.items ++ (if from == self.now.sequencer then item.now ∷ [] else [])) }
        ensures fits { OnOk result (Grows (ItemFits self.now.members) delivered.old.items delivered.new.items) }
    {
        if from == self.sequencer {
            delivered.push(item.copy()?)?;
        }
        Ok(())
    }
}

impl Ordering for SequencerOrder {
    ghost use Rattle.sequencer_order.specs.SequencerOrder.{seat_of, StandsFor};

    ghost is_served = { is_sequencer };

    ghost sends = { sends_of };

    ghost delivers = { delivers_of };

    ghost seat = { seat_of };

    ghost stands = { StandsFor };

    fn serves(kind: Kind) -> bool {
        match kind {
            Kind::Sequencer(_) => true,
            Kind::Lamport | Kind::Consensus => false,
        }
    }

    /// It takes no memory.
    fn fresh(_alloc: Global, kind: Kind, n: u8, me: MemberId) -> Result<Self, NoMemory>
        requires served { is_sequencer kind ≡ true }
        requires some { 1 ≤ n }
        requires few { n ≤ 7 }
        requires me_fits { me < n }
        requires kind_fits { KindFits n kind }
        ensures ok { IsOk result }
        ensures seat { IfOk result (λ m. seat_of m ≡ record { kind = kind; members = n; me = me }) }
        ensures stands { IfOk result (λ m. StandsFor m []) }
    {
        match kind {
            Kind::Sequencer(sequencer) => Ok(SequencerOrder {
                sequencer,
                members: n,
                me,
                placed: 0,
            }),
            Kind::Lamport | Kind::Consensus => unreachable!(),
        }
    }

    /// An equal module; it takes no memory.
    fn copy(&self, _alloc: Global) -> Result<Self, NoMemory>
        ensures ok { IsOk result }
        ensures same { IfOk result (λ m. m ≡ self.now) }
    {
        Ok(SequencerOrder {
            sequencer: self.sequencer,
            members: self.members,
            me: self.me,
            placed: self.placed,
        })
    }

    fn kind(&self) -> Kind {
        Kind::Sequencer(self.sequencer)
    }

    fn broadcast(&mut self, _alloc: Global, item: &Item, out: &mut Outbox) -> Result<(), NoMemory> {
        out.push(self.sequencer, Body::Ask { item: item.copy()? })
    }

    fn receive(
        &mut self,
        alloc: Global,
        from: MemberId,
        body: &Body,
        out: &mut Outbox,
        delivered: &mut Vec<Item>,
    ) -> Result<(), NoMemory> {
        match body {
            Body::Ask { item } => {
                self.order(alloc, item, out)?;
                Ok(())
            }
            Body::Ord { item, .. } => {
                self.deliver(from, item, delivered)?;
                Ok(())
            }
            _ => Ok(()),
        }
    }

    /// Suspicions change nothing and take no memory.
    fn suspect(
        &mut self,
        _alloc: Global,
        _who: MemberId,
        _on: bool,
        _out: &mut Outbox,
    ) -> Result<(), NoMemory>
        ensures ok { IsOk result }
        ensures same { self.new ≡ self.old }
        ensures quiet { _out.new ≡ _out.old }
    {
        Ok(())
    }

    ghost use Rattle.sequencer_rules.proofs.Laws.{agreement_of, integrity_of, fulfilment_of, bound_of, never_past_of};

    ghost agreement = { agreement_of };

    ghost integrity = { integrity_of };

    ghost fulfilment = { fulfilment_of };

    ghost bound = { bound_of };

    ghost never_past = { never_past_of };
}
