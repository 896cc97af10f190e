//! Consensus as its callers see it: a member starts with a batch, takes bodies and suspicions, and may decide.
ghost use Rattle.std.specs.Arc.{arc_value};
ghost use Rattle.ct_consensus.specs.Stands.{IsState, StateFits, StateFits-prop};

use crate::running::Running;
use crate::seat::Seat;
use crate::state;
use crate::state::State;
use order_trait::Outbox;
use std::alloc::Global;
use std::sync::Arc;
use upd_base::{Batch, Body, MemberId, NoMemory};

/// One member's share of one instance.
///
/// It keeps no list of its inputs: a clause speaks of every list of inputs for which it stands. A new one
/// stands for the empty list; `start`, `receive` and `suspect` put their input in front, and send what the
/// definition sends there. The only error is want of memory; after it an instance is promised nothing but
/// whose share it is.
///
/// Rows of suspicions say by member whom this one suspects. In `start` and `receive` that is the set that
/// the list leaves; in `suspect` the one that it leaves with the new suspicion.
///
/// Copies share what they keep until one of them takes an input.
#[derive(Drop)]
pub struct Instance {
    seat: Seat,
    state: Arc<State, Global>,
    ghost fits: { StateFits seat.members (arc_value state) } by { StateFits-prop seat.members (arc_value state) },
}

impl Instance {
    ghost use Rattle.std.specs.Prelude.{ℕ, ◌≡◌, ◌<◌, ◌≤◌, ◌∷◌, [], true, Some, None, OnOk, IfOk, option_copied};
    ghost use Rattle.fifo_net.specs.Net.{Called, Took};
    ghost use Rattle.upd_base.specs.Body.{BodyFits};
    ghost use Rattle.order_trait.specs.Outbox.{Grows, SendFits};
    ghost use Rattle.instance_rules.specs.Say.{Turns, Say, Starts, Suspects};
    ghost use Rattle.instance_rules.specs.History as history;
    ghost use Rattle.instance_rules.specs.Place.{place};
    ghost use Rattle.instance_rules.specs.Says.{says};
    ghost use Rattle.instance_rules.specs.Bodies.{say_of};
    ghost use Rattle.ct_consensus.specs.Ballot.{all_fit};
    ghost use Rattle.ct_consensus.specs.Moves.{IsRow, TrustsItself, Sends};
    ghost use Rattle.ct_consensus.specs.Instance.{StandsFor, number_of, members_of, me_of};

    /// An instance without any input; `number` is at least 1, and `me` is one of the 1 to 7 members.
    pub fn new(alloc: Global, number: u64, n: u8, me: MemberId) -> Result<Instance, NoMemory>
        requires number { 1 ≤ number }
        requires some { 1 ≤ n }
        requires few { n ≤ 7 }
        requires seated { me < n }
        ensures number { IfOk result (λ i. (number_of i) ≡ number) }
        ensures members { IfOk result (λ i. (members_of i) ≡ n) }
        ensures me { IfOk result (λ i. (me_of i) ≡ me) }
        ensures stands { IfOk result (λ i. StandsFor i []) }
    {
        let seat = Seat {
            number,
            members: n,
            me,
        };
        let state = Arc::new(alloc, State::Undecided(Running::new(alloc, n)))?;
        Ok(Instance { seat, state })
    }

    /// An equal one: the same share of the same instance, which stands for every list for which this one
    /// stands.
    pub fn copy(&self, alloc: Global) -> Result<Instance, NoMemory>
        ensures number { IfOk result (λ i. (number_of i) ≡ (number_of self.now)) }
        ensures members { IfOk result (λ i. (members_of i) ≡ (members_of self.now)) }
        ensures me { IfOk result (λ i. (me_of i) ≡ (me_of self.now)) }
        ensures stands { IfOk result (λ i. (past : Turns) → StandsFor self.now past → StandsFor i past) }
    {
        let seat = Seat {
            number: self.seat.number,
            members: self.seat.members,
            me: self.seat.me,
        };
        let state = self.state.clone()?;
        Ok(Instance { seat, state })
    }

    /// A copy of what is kept, to be changed.
    fn own_state(&self, alloc: Global) -> Result<State, NoMemory>
        ensures stands { IfOk result (λ s. (past : Turns) → StandsFor self.now past → IsState (members_of self.now) (me_of self.now) s past) }
        ensures fits { IfOk result (λ s. StateFits (members_of self.now) s) }
    {
        state::copy(&self.state, alloc)
    }

    /// The member begins with a batch of items that name only its members. Where it has a round already,
    /// or has decided, nothing changes.
    pub fn start(
        &mut self,
        alloc: Global,
        batch: Batch,
        suspected: &[bool; 7],
        out: &mut Outbox,
    ) -> Result<(), NoMemory>
        requires not_me { TrustsItself suspected.now (me_of self.old) }
        requires batch_fits { all_fit (members_of self.old) batch ≡ true }
        ensures number { (number_of self.new) ≡ (number_of self.old) }
        ensures members { (members_of self.new) ≡ (members_of self.old) }
        ensures me { (me_of self.new) ≡ (me_of self.old) }
        ensures stands { OnOk result ((past : Turns) → IsRow suspected.now (history.suspected past) → StandsFor self.old past → StandsFor self.new (Called (Starts batch) ∷ past)) }
        ensures sent { OnOk result ((past : Turns) → IsRow suspected.now (history.suspected past) → StandsFor self.old past → Sends (members_of self.old) (number_of self.old) out.old out.new (says (members_of self.old) (me_of self.old) (Called (Starts batch) ∷ past))) }
        ensures fits { OnOk result (Grows (SendFits (members_of self.old)) out.old out.new) }
    {
        let mut state = self.own_state(alloc)?;
        state::start(&mut state, alloc, &self.seat, batch, suspected, out)?;
        self.state = Arc::new(alloc, state)?;
        Ok(())
    }

    /// Takes a body from a member. A body of another instance or of another kind is to be kept away; of it
    /// nothing is said.
    pub fn receive(
        &mut self,
        alloc: Global,
        from: MemberId,
        body: &Body,
        suspected: &[bool; 7],
        out: &mut Outbox,
    ) -> Result<(), NoMemory>
        requires not_me { TrustsItself suspected.now (me_of self.old) }
        requires body_fits { BodyFits (members_of self.old) body.now }
        ensures number { (number_of self.new) ≡ (number_of self.old) }
        ensures members { (members_of self.new) ≡ (members_of self.old) }
        ensures me { (me_of self.new) ≡ (me_of self.old) }
        ensures stands { OnOk result ((say : Say) (past : Turns) → say_of (number_of self.old) body.now ≡ Some say → IsRow suspected.now (history.suspected past) → StandsFor self.old past → StandsFor self.new (Took from say ∷ past)) }
        ensures sent { OnOk result ((say : Say) (past : Turns) → say_of (number_of self.old) body.now ≡ Some say → IsRow suspected.now (history.suspected past) → StandsFor self.old past → Sends (members_of self.old) (number_of self.old) out.old out.new (says (members_of self.old) (me_of self.old) (Took from say ∷ past))) }
        ensures fits { OnOk result (Grows (SendFits (members_of self.old)) out.old out.new) }
    {
        let mut state = self.own_state(alloc)?;
        state::take(&mut state, alloc, &self.seat, from, body, suspected, out)?;
        self.state = Arc::new(alloc, state)?;
        Ok(())
    }

    /// There is one more suspicion, which the row has already.
    pub fn suspect(
        &mut self,
        alloc: Global,
        suspected: &[bool; 7],
        out: &mut Outbox,
    ) -> Result<(), NoMemory>
        requires not_me { TrustsItself suspected.now (me_of self.old) }
        ensures number { (number_of self.new) ≡ (number_of self.old) }
        ensures members { (members_of self.new) ≡ (members_of self.old) }
        ensures me { (me_of self.new) ≡ (me_of self.old) }
        ensures stands { OnOk result ((past : Turns) (who : ℕ) → IsRow suspected.now (history.suspected (Called (Suspects who) ∷ past)) → StandsFor self.old past → StandsFor self.new (Called (Suspects who) ∷ past)) }
        ensures sent { OnOk result ((past : Turns) (who : ℕ) → IsRow suspected.now (history.suspected (Called (Suspects who) ∷ past)) → StandsFor self.old past → Sends (members_of self.old) (number_of self.old) out.old out.new (says (members_of self.old) (me_of self.old) (Called (Suspects who) ∷ past))) }
        ensures fits { OnOk result (Grows (SendFits (members_of self.old)) out.old out.new) }
    {
        let mut state = self.own_state(alloc)?;
        state::suspect(&mut state, alloc, &self.seat, suspected, out)?;
        self.state = Arc::new(alloc, state)?;
        Ok(())
    }

    /// The member's round: 0 before it takes part; after a decision the one that it was in.
    pub fn round(&self) -> u64
        ensures { (past : Turns) → StandsFor self.now past → result ≡ (place (members_of self.now) past).round }
    {
        state::round(&self.state)
    }

    /// The batch of the first decision that was taken; None exactly where none was.
    pub fn decided(&self) -> Option<&Batch>
        ensures { (past : Turns) → StandsFor self.now past → option_copied result ≡ history.decided past }
    {
        state::decided(&self.state)
    }
}
