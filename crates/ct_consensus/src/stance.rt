//! The participant's role: how starts, proposals, ends of rounds and suspicions change its round and estimate.
ghost use Rattle.std.specs.Prelude.{ℕ, Bool, ◌≡◌, ◌≤◌, ◌∷◌, [], true, false, OnOk, IfOk};
ghost use Rattle.fifo_net.specs.Net.{Called, Took};
ghost use Rattle.order_trait.specs.Outbox.{Grows, SendFits};
ghost use Rattle.instance_rules.specs.Say.{Turns, Starts, Suspects, Proposes, Moves_on};
ghost use Rattle.instance_rules.specs.History as history;
ghost use Rattle.instance_rules.specs.Place as rules;
ghost use Rattle.ct_consensus.specs.Ballot.{all_fit};
ghost use Rattle.ct_consensus.specs.Moves.{IsRow, Sends};
ghost use Rattle.ct_consensus.specs.Fit.{MayStand};
ghost use Rattle.ct_consensus.specs.Stance.{standing, Settled};

use crate::moves::{accept, begin, go_on, is_suspected, refuse};
use crate::seat::Seat;
use instance_rules::Place;
use order_trait::Outbox;
use std::alloc::Global;
use upd_base::{Batch, MemberId, NoMemory};

/// The member begins with a batch, where it takes no part yet.
pub fn start(
    alloc: Global,
    seat: &Seat,
    stance: &mut Option<Place>,
    batch: Batch,
    suspected: &[bool; 7],
    out: &mut Outbox,
) -> Result<(), NoMemory>
    requires batch_fits { all_fit seat.now.members batch ≡ true }
    requires stance_fits { MayStand seat.now.members stance.old }
    ensures place { OnOk result ((past : Turns) → IsRow suspected.now (history.suspected past) → standing stance.new ≡ (rules.moves seat.now.members past (Called (Starts batch)) (standing stance.old)).place) }
    ensures sent { OnOk result ((past : Turns) → IsRow suspected.now (history.suspected past) → Sends seat.now.members seat.now.number out.old out.new (rules.moves seat.now.members past (Called (Starts batch)) (standing stance.old)).says) }
    ensures grows { OnOk result (Grows (SendFits seat.now.members) out.old out.new) }
    ensures fits { MayStand seat.now.members stance.new }
{
    if stance.is_some() {
        return Ok(());
    }
    let place = begin(alloc, seat, batch, suspected, out)?;
    *stance = Some(place);
    Ok(())
}

/// Whether a proposal for this round is still awaited.
fn awaits(stance: &Option<Place>, round: u64) -> bool
    ensures { result ≡ rules.awaits (standing stance.now) round }
{
    match stance {
        Some(place) => {
            round > 0 && (place.round < round || (place.round == round && !place.replied))
        }
        None => round > 0,
    }
}

/// A proposal: from the coordinator of a round that is not over, the member accepts it.
pub fn take_proposal(
    alloc: Global,
    seat: &Seat,
    stance: &mut Option<Place>,
    from: MemberId,
    round: u64,
    batch: &Batch,
    suspected: &[bool; 7],
    out: &mut Outbox,
) -> Result<(), NoMemory>
    requires batch_fits { all_fit seat.now.members batch.now ≡ true }
    requires stance_fits { MayStand seat.now.members stance.old }
    ensures place { OnOk result ((past : Turns) → IsRow suspected.now (history.suspected past) → standing stance.new ≡ (rules.moves seat.now.members past (Took from (Proposes round batch.now)) (standing stance.old)).place) }
    ensures sent { OnOk result ((past : Turns) → IsRow suspected.now (history.suspected past) → Sends seat.now.members seat.now.number out.old out.new (rules.moves seat.now.members past (Took from (Proposes round batch.now)) (standing stance.old)).says) }
    ensures grows { OnOk result (Grows (SendFits seat.now.members) out.old out.new) }
    ensures fits { MayStand seat.now.members stance.new }
{
    let coordinator = seat.coordinator(round);
    if from != coordinator {
        return Ok(());
    }
    if !awaits(stance, round) {
        return Ok(());
    }
    let taken = batch.copy(alloc)?;
    let place = accept(alloc, seat, round, taken, suspected, out)?;
    *stance = Some(place);
    Ok(())
}

/// The coordinator of a round says that it is over: a member that is in it goes on.
pub fn take_next(
    alloc: Global,
    seat: &Seat,
    stance: &mut Option<Place>,
    from: MemberId,
    round: u64,
    suspected: &[bool; 7],
    out: &mut Outbox,
) -> Result<(), NoMemory>
    requires { MayStand seat.now.members stance.old }
    ensures place { OnOk result ((past : Turns) → IsRow suspected.now (history.suspected past) → standing stance.new ≡ (rules.moves seat.now.members past (Took from (Moves_on round)) (standing stance.old)).place) }
    ensures sent { OnOk result ((past : Turns) → IsRow suspected.now (history.suspected past) → Sends seat.now.members seat.now.number out.old out.new (rules.moves seat.now.members past (Took from (Moves_on round)) (standing stance.old)).says) }
    ensures grows { OnOk result (Grows (SendFits seat.now.members) out.old out.new) }
    ensures fits { MayStand seat.now.members stance.new }
{
    let coordinator = seat.coordinator(round);
    if from != coordinator {
        return Ok(());
    }
    match stance {
        Some(place) => {
            if place.round == round {
                go_on(alloc, seat, place, suspected, out)?;
            }
            Ok(())
        }
        None => Ok(()),
    }
}

/// There is one more suspicion: where the coordinator of the member's round is suspected, it refuses
/// and goes on.
pub fn suspect(
    alloc: Global,
    seat: &Seat,
    stance: &mut Option<Place>,
    suspected: &[bool; 7],
    out: &mut Outbox,
) -> Result<(), NoMemory>
    requires { MayStand seat.now.members stance.old }
    ensures place { OnOk result ((past : Turns) (who : ℕ) → IsRow suspected.now (history.suspected (Called (Suspects who) ∷ past)) → Settled seat.now.members (history.suspected past) (standing stance.old) → standing stance.new ≡ (rules.moves seat.now.members past (Called (Suspects who)) (standing stance.old)).place) }
    ensures sent { OnOk result ((past : Turns) (who : ℕ) → IsRow suspected.now (history.suspected (Called (Suspects who) ∷ past)) → Settled seat.now.members (history.suspected past) (standing stance.old) → Sends seat.now.members seat.now.number out.old out.new (rules.moves seat.now.members past (Called (Suspects who)) (standing stance.old)).says) }
    ensures grows { OnOk result (Grows (SendFits seat.now.members) out.old out.new) }
    ensures fits { MayStand seat.now.members stance.new }
{
    match stance {
        Some(place) => {
            if is_suspected(seat, place.round, suspected) {
                refuse(seat, place, out)?;
                go_on(alloc, seat, place, suspected, out)?;
            }
            Ok(())
        }
        None => Ok(()),
    }
}
