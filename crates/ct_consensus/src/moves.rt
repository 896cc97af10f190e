//! What a participant sends as it goes from round to round: its estimate at each entry, then a yes or a refusal.
ghost use Rattle.std.specs.Prelude.{ℕ, Bool, ◌≡◌, ◌≤◌, ◌∷◌, [], true, false, OnOk, IfOk, if◌then◌else◌};
ghost use Rattle.order_trait.specs.Outbox.{Grows, SendFits};
ghost use Rattle.instance_rules.specs.Say as say;
ghost use Rattle.instance_rules.specs.Place as rules;
ghost use Rattle.instance_rules.specs.Say.{Replies, Estimates};
ghost use Rattle.ct_consensus.specs.Ballot.{all_fit};
ghost use Rattle.ct_consensus.specs.Moves.{IsRow, Sends, PlaceFits};

use crate::seat::Seat;
use instance_rules::{Estimate, Place};
use order_trait::Outbox;
use std::alloc::Global;
use upd_base::{Batch, Body, NoMemory};

/// Whether the coordinator of a round is suspected.
pub fn is_suspected(seat: &Seat, round: u64, suspected: &[bool; 7]) -> bool
    ensures { (suspects : ℕ → Bool) → IsRow suspected.now suspects → result ≡ suspects (say.coordinator seat.now.members round) }
{
    suspected[usize::from(seat.coordinator(round).get())]
}

/// Sends the estimate to the coordinator of a round.
fn give(
    alloc: Global,
    seat: &Seat,
    round: u64,
    held: &Estimate,
    out: &mut Outbox,
) -> Result<(), NoMemory>
    requires round { 1 ≤ round }
    requires fits { all_fit seat.now.members held.now.batch ≡ true }
    ensures { OnOk result (Sends seat.now.members seat.now.number out.old out.new ((say.coordinator seat.now.members round, Estimates round held.now) ∷ [])) }
{
    let body = Body::Est {
        instance: seat.number,
        round,
        stamp: held.stamp,
        batch: held.batch.copy(alloc)?,
    };
    out.push(seat.coordinator(round), body)
}

/// Sends a reply to the coordinator of a round.
fn reply(seat: &Seat, round: u64, agree: bool, out: &mut Outbox) -> Result<(), NoMemory>
    requires { 1 ≤ round }
    ensures { OnOk result (Sends seat.now.members seat.now.number out.old out.new ((say.coordinator seat.now.members round, Replies round agree) ∷ [])) }
{
    let body = Body::Reply {
        instance: seat.number,
        round,
        yes: agree,
    };
    out.push(seat.coordinator(round), body)
}

/// Refuses the present round, unless the member has replied in it.
pub fn refuse(seat: &Seat, place: &mut Place, out: &mut Outbox) -> Result<(), NoMemory>
    requires { 1 ≤ place.old.round }
    ensures place { place.new ≡ (rules.refuse seat.now.members place.old).place }
    ensures sent { OnOk result (Sends seat.now.members seat.now.number out.old out.new (rules.refuse seat.now.members place.old).says) }
{
    let replied = place.replied;
    place.replied = true;
    if replied {
        return Ok(());
    }
    reply(seat, place.round, false, out)
}

/// Enters a round: gives the estimate, and where the coordinator is suspected refuses and enters the
/// next. `more` says for how many rounds at most: a member does not suspect itself, so as many as there
/// are members are enough.
#[tactic(auto, using(crate::proofs::Steps::grows_none, crate::proofs::Steps::grows_of, crate::proofs::Steps::grows_then))]
fn enter(
    alloc: Global,
    seat: &Seat,
    more: u8,
    round: u64,
    place: &mut Place,
    suspected: &[bool; 7],
    out: &mut Outbox,
) -> Result<(), NoMemory>
    requires round { 1 ≤ round }
    requires fits { all_fit seat.now.members place.old.held.batch ≡ true }
    ensures place { OnOk result ((suspects : ℕ → Bool) → IsRow suspected.now suspects → place.new ≡ (rules.enter seat.now.members suspects more round place.old).place) }
    ensures sent { OnOk result ((suspects : ℕ → Bool) → IsRow suspected.now suspects → Sends seat.now.members seat.now.number out.old out.new (rules.enter seat.now.members suspects more round place.old).says) }
    ensures grows { OnOk result (Grows (SendFits seat.now.members) out.old out.new) }
    ensures fits { PlaceFits seat.now.members place.new }
{
    place.round = round;
    place.replied = false;
    give(alloc, seat, round, &place.held, out)?;
    if more == 0 {
        return Ok(());
    }
    if !is_suspected(seat, round, suspected) {
        return Ok(());
    }
    refuse(seat, place, out)?;
    if round == u64::MAX {
        return Ok(());
    }
    enter(alloc, seat, more - 1, round + 1, place, suspected, out)?;
    Ok(())
}

/// Enters the next round, where there is one.
#[tactic(auto, using(crate::proofs::Steps::grows_none, crate::proofs::Steps::grows_of, crate::proofs::Steps::grows_then))]
pub fn go_on(
    alloc: Global,
    seat: &Seat,
    place: &mut Place,
    suspected: &[bool; 7],
    out: &mut Outbox,
) -> Result<(), NoMemory>
    requires fits { PlaceFits seat.now.members place.old }
    ensures place { OnOk result ((suspects : ℕ → Bool) → IsRow suspected.now suspects → place.new ≡ (rules.go_on seat.now.members suspects place.old).place) }
    ensures sent { OnOk result ((suspects : ℕ → Bool) → IsRow suspected.now suspects → Sends seat.now.members seat.now.number out.old out.new (rules.go_on seat.now.members suspects place.old).says) }
    ensures grows { OnOk result (Grows (SendFits seat.now.members) out.old out.new) }
    ensures fits { PlaceFits seat.now.members place.new }
{
    if place.round == u64::MAX {
        return Ok(());
    }
    let next = place.round + 1;
    enter(alloc, seat, seat.members, next, place, suspected, out)
}

/// Begins with a batch: enters round 1.
#[tactic(auto, using(crate::proofs::Steps::grows_none, crate::proofs::Steps::grows_of, crate::proofs::Steps::grows_then))]
pub fn begin(
    alloc: Global,
    seat: &Seat,
    batch: Batch,
    suspected: &[bool; 7],
    out: &mut Outbox,
) -> Result<Place, NoMemory>
    requires fits { all_fit seat.now.members batch ≡ true }
    ensures place { IfOk result (λ place. (suspects : ℕ → Bool) → IsRow suspected.now suspects → place ≡ (rules.enter seat.now.members suspects seat.now.members 1 (record { round = 0; held = record { stamp = 0; batch = batch }; replied = false })).place) }
    ensures sent { OnOk result ((suspects : ℕ → Bool) → IsRow suspected.now suspects → Sends seat.now.members seat.now.number out.old out.new (rules.enter seat.now.members suspects seat.now.members 1 (record { round = 0; held = record { stamp = 0; batch = batch }; replied = false })).says) }
    ensures grows { OnOk result (Grows (SendFits seat.now.members) out.old out.new) }
    ensures fits { IfOk result (λ place. PlaceFits seat.now.members place) }
{
    let mut place = Place {
        round: 0,
        held: Estimate { stamp: 0, batch },
        replied: false,
    };
    enter(alloc, seat, seat.members, 1, &mut place, suspected, out)?;
    Ok(place)
}

/// Goes on where the coordinator of the present round is suspected.
fn leave(
    alloc: Global,
    seat: &Seat,
    place: &mut Place,
    suspected: &[bool; 7],
    out: &mut Outbox,
) -> Result<(), NoMemory>
    requires fits { PlaceFits seat.now.members place.old }
    ensures place { OnOk result ((suspects : ℕ → Bool) → IsRow suspected.now suspects → place.new ≡ (if suspects (say.coordinator seat.now.members place.old.round) then rules.go_on seat.now.members suspects place.old else rules.stay place.old).place) }
    ensures sent { OnOk result ((suspects : ℕ → Bool) → IsRow suspected.now suspects → Sends seat.now.members seat.now.number out.old out.new (if suspects (say.coordinator seat.now.members place.old.round) then rules.go_on seat.now.members suspects place.old else rules.stay place.old).says) }
    ensures grows { OnOk result (Grows (SendFits seat.now.members) out.old out.new) }
    ensures fits { PlaceFits seat.now.members place.new }
{
    if !is_suspected(seat, place.round, suspected) {
        return Ok(());
    }
    go_on(alloc, seat, place, suspected, out)
}

/// Takes a proposal over and says yes, and where the coordinator is suspected goes on.
pub fn accept(
    alloc: Global,
    seat: &Seat,
    round: u64,
    batch: Batch,
    suspected: &[bool; 7],
    out: &mut Outbox,
) -> Result<Place, NoMemory>
    requires round { 1 ≤ round }
    requires fits { all_fit seat.now.members batch ≡ true }
    ensures place { IfOk result (λ place. (suspects : ℕ → Bool) → IsRow suspected.now suspects → place ≡ (rules.accept seat.now.members suspects round batch).place) }
    ensures sent { OnOk result ((suspects : ℕ → Bool) → IsRow suspected.now suspects → Sends seat.now.members seat.now.number out.old out.new (rules.accept seat.now.members suspects round batch).says) }
    ensures grows { OnOk result (Grows (SendFits seat.now.members) out.old out.new) }
    ensures fits { IfOk result (λ place. PlaceFits seat.now.members place) }
{
    reply(seat, round, true, out)?;
    let mut place = Place {
        round,
        held: Estimate {
            stamp: round,
            batch,
        },
        replied: true,
    };
    leave(alloc, seat, &mut place, suspected, out)?;
    Ok(place)
}
