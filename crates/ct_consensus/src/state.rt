//! An instance before and after its decision: the first decision holds, is passed on to all, and ends all else.
ghost use Rattle.std.specs.Prelude.{ℕ, ◌≡◌, ◌∷◌, [], true, Some, IfOk, OnOk, if◌then◌else◌, option_copied};
ghost use Rattle.fifo_net.specs.Net.{Called, Took};
ghost use Rattle.upd_base.specs.Body.{BodyFits};
ghost use Rattle.order_trait.specs.Outbox.{Grows, SendFits};
ghost use Rattle.instance_rules.specs.Say.{Turns, Say, Starts, Suspects, Decides};
ghost use Rattle.instance_rules.specs.History as history;
ghost use Rattle.instance_rules.specs.Place.{place};
ghost use Rattle.instance_rules.specs.Says.{says, to_each};
ghost use Rattle.instance_rules.specs.Bodies.{say_of};
ghost use Rattle.ct_consensus.specs.Ballot.{all_fit};
ghost use Rattle.ct_consensus.specs.Moves.{IsRow, TrustsItself, Sends};
ghost use Rattle.ct_consensus.specs.Stands.{IsState, StateFits};

use crate::running::{Running, send_all};
use crate::seat::Seat;
use order_trait::Outbox;
use std::alloc::Global;
use upd_base::{Batch, Body, MemberId, NoMemory};

/// What an instance keeps.
#[derive(Drop)]
pub enum State {
    Undecided(Running),
    Decided(Decision),
}

/// What is kept of a decision: all else is over.
#[derive(Drop)]
pub struct Decision {
    /// The member's round when it decided.
    pub round: u64,
    pub batch: Batch,
}

/// It stands for every list for which this one stands.
pub fn copy(state: &State, alloc: Global) -> Result<State, NoMemory>
    ensures stands { IfOk result (λ copy. (n me : ℕ) (past : Turns) → IsState n me state.now past → IsState n me copy past) }
    ensures fits { IfOk result (λ copy. (n : ℕ) → StateFits n state.now → StateFits n copy) }
{
    match state {
        State::Undecided(running) => Ok(State::Undecided(running.copy(alloc)?)),
        State::Decided(decision) => Ok(State::Decided(Decision {
            round: decision.round,
            batch: decision.batch.copy(alloc)?,
        })),
    }
}

/// The member begins with a batch.
#[tactic(auto, using(crate::proofs::Decided::decided_sends, crate::proofs::Decided::decided_stays))]
pub fn start(
    state: &mut State,
    alloc: Global,
    seat: &Seat,
    batch: Batch,
    suspected: &[bool; 7],
    out: &mut Outbox,
) -> Result<(), NoMemory>
    requires not_me { TrustsItself suspected.now seat.now.me }
    requires batch_fits { all_fit seat.now.members batch ≡ true }
    requires state_fits { StateFits seat.now.members state.old }
    ensures stands { OnOk result ((past : Turns) → IsRow suspected.now (history.suspected past) → IsState seat.now.members seat.now.me state.old past → IsState seat.now.members seat.now.me state.new (Called (Starts batch) ∷ past)) }
    ensures sent { OnOk result ((past : Turns) → IsRow suspected.now (history.suspected past) → IsState seat.now.members seat.now.me state.old past → Sends seat.now.members seat.now.number out.old out.new (says seat.now.members seat.now.me (Called (Starts batch) ∷ past))) }
    ensures grows { OnOk result (Grows (SendFits seat.now.members) out.old out.new) }
    ensures fits { StateFits seat.now.members state.new }
{
    match state {
        State::Undecided(running) => {
            running.start(alloc, seat, batch, suspected, out)?;
            Ok(())
        }
        State::Decided(_) => Ok(()),
    }
}

/// There is one more suspicion.
#[tactic(auto, using(crate::proofs::Decided::decided_sends, crate::proofs::Decided::decided_stays))]
pub fn suspect(
    state: &mut State,
    alloc: Global,
    seat: &Seat,
    suspected: &[bool; 7],
    out: &mut Outbox,
) -> Result<(), NoMemory>
    requires not_me { TrustsItself suspected.now seat.now.me }
    requires state_fits { StateFits seat.now.members state.old }
    ensures stands { OnOk result ((past : Turns) (who : ℕ) → IsRow suspected.now (history.suspected (Called (Suspects who) ∷ past)) → IsState seat.now.members seat.now.me state.old past → IsState seat.now.members seat.now.me state.new (Called (Suspects who) ∷ past)) }
    ensures sent { OnOk result ((past : Turns) (who : ℕ) → IsRow suspected.now (history.suspected (Called (Suspects who) ∷ past)) → IsState seat.now.members seat.now.me state.old past → Sends seat.now.members seat.now.number out.old out.new (says seat.now.members seat.now.me (Called (Suspects who) ∷ past))) }
    ensures grows { OnOk result (Grows (SendFits seat.now.members) out.old out.new) }
    ensures fits { StateFits seat.now.members state.new }
{
    match state {
        State::Undecided(running) => {
            running.suspect(alloc, seat, suspected, out)?;
            Ok(())
        }
        State::Decided(_) => Ok(()),
    }
}

/// Passes a decision on, unless this member has started one.
fn pass_on(
    alloc: Global,
    seat: &Seat,
    led: bool,
    batch: &Batch,
    out: &mut Outbox,
) -> Result<(), NoMemory>
    requires { all_fit seat.now.members batch.now ≡ true }
    ensures sent { OnOk result (Sends seat.now.members seat.now.number out.old out.new (if led then [] else to_each seat.now.members (Decides batch.now))) }
    ensures grows { OnOk result (Grows (SendFits seat.now.members) out.old out.new) }
{
    if led {
        return Ok(());
    }
    let body = Body::Decide {
        instance: seat.number,
        batch: batch.copy(alloc)?,
    };
    send_all(alloc, seat, &body, out)
}

/// The member decides; the first decision holds.
fn decide(
    state: &mut State,
    alloc: Global,
    seat: &Seat,
    batch: &Batch,
    out: &mut Outbox,
) -> Result<(), NoMemory>
    requires batch_fits { all_fit seat.now.members batch.now ≡ true }
    requires state_fits { StateFits seat.now.members state.old }
    ensures stands { OnOk result ((from : ℕ) (past : Turns) → IsState seat.now.members seat.now.me state.old past → IsState seat.now.members seat.now.me state.new (Took from (Decides batch.now) ∷ past)) }
    ensures sent { OnOk result ((from : ℕ) (past : Turns) → IsState seat.now.members seat.now.me state.old past → Sends seat.now.members seat.now.number out.old out.new (says seat.now.members seat.now.me (Took from (Decides batch.now) ∷ past))) }
    ensures grows { OnOk result (Grows (SendFits seat.now.members) out.old out.new) }
    ensures fits { StateFits seat.now.members state.new }
{
    let State::Undecided(running) = &*state else {
        return Ok(());
    };
    pass_on(alloc, seat, running.led, batch, out)?;
    let round = running.round();
    let batch = batch.copy(alloc)?;
    *state = State::Decided(Decision { round, batch });
    Ok(())
}

/// A body of the instance.
pub fn take(
    state: &mut State,
    alloc: Global,
    seat: &Seat,
    from: MemberId,
    body: &Body,
    suspected: &[bool; 7],
    out: &mut Outbox,
) -> Result<(), NoMemory>
    requires not_me { TrustsItself suspected.now seat.now.me }
    requires body_fits { BodyFits seat.now.members body.now }
    requires state_fits { StateFits seat.now.members state.old }
    ensures stands { OnOk result ((say : Say) (past : Turns) → say_of seat.now.number body.now ≡ Some say → IsRow suspected.now (history.suspected past) → IsState seat.now.members seat.now.me state.old past → IsState seat.now.members seat.now.me state.new (Took from say ∷ past)) }
    ensures sent { OnOk result ((say : Say) (past : Turns) → say_of seat.now.number body.now ≡ Some say → IsRow suspected.now (history.suspected past) → IsState seat.now.members seat.now.me state.old past → Sends seat.now.members seat.now.number out.old out.new (says seat.now.members seat.now.me (Took from say ∷ past))) }
    ensures grows { OnOk result (Grows (SendFits seat.now.members) out.old out.new) }
    ensures fits { StateFits seat.now.members state.new }
{
    if let Body::Decide { instance, batch } = body {
        if *instance != seat.number {
            return Ok(());
        }
        decide(state, alloc, seat, batch, out)?;
        return Ok(());
    }
    match state {
        State::Undecided(running) => {
            running.take(alloc, seat, from, body, suspected, out)?;
            Ok(())
        }
        State::Decided(_) => Ok(()),
    }
}

/// The member's round.
pub fn round(state: &State) -> u64
    ensures { (n me : ℕ) (past : Turns) → IsState n me state.now past → result ≡ (place n past).round }
{
    match state {
        State::Undecided(running) => running.round(),
        State::Decided(decision) => decision.round,
    }
}

/// The decision.
pub fn decided(state: &State) -> Option<&Batch>
    ensures { (n me : ℕ) (past : Turns) → IsState n me state.now past → option_copied result ≡ history.decided past }
{
    match state {
        State::Undecided(_) => None,
        State::Decided(decision) => Some(&decision.batch),
    }
}
