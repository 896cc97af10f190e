//! A member that has not decided, in both its roles: participant in each round, coordinator of some.
ghost use Rattle.std.specs.Prelude.{ℕ, Bool, ◌≡◌, ◌≢◌, ◌≤◌, ◌∷◌, ◌++◌, ◌||◌, [], true, None, Some, OnOk, IfOk, IfSome};
ghost use Rattle.fifo_net.specs.Net.{Called, Took};
ghost use Rattle.upd_base.specs.Body.{BodyFits, is_body};
ghost use Rattle.order_trait.specs.Outbox.{Grows, SendFits};
ghost use Rattle.instance_rules.specs.Say.{Turns, Say, Starts, Suspects, Estimates, Proposes, Replies, Moves_on};
ghost use Rattle.instance_rules.specs.History as history;
ghost use Rattle.instance_rules.specs.History.{decides};
ghost use Rattle.instance_rules.specs.Ballot.{firsts, estimate_for, reply_for, vote, quorum, best_of, all_yes, proposal};
ghost use Rattle.instance_rules.specs.Says as leading;
ghost use Rattle.instance_rules.specs.Bodies.{body_of, say_of};
ghost use Rattle.ct_consensus.specs.Ballots.{kept_of};
ghost use Rattle.ct_consensus.specs.Ballot.{all_fit, IsKept, ProposalFits, concludes};
ghost use Rattle.ct_consensus.specs.Moves.{IsRow, TrustsItself, Sends};
ghost use Rattle.ct_consensus.specs.Fit.{MayFit, BallotsFit};
ghost use Rattle.ct_consensus.specs.Stance.{standing};
ghost use Rattle.ct_consensus.specs.Stands.{IsRunning, RunningFits};

use crate::ballot::is_decision;
use crate::ballots::Ballots;
use crate::seat::Seat;
use crate::stance;
use instance_rules::{Estimate, Place};
use order_trait::Outbox;
use std::alloc::Global;
use upd_base::{Batch, Body, MemberId, NoMemory};

/// What is kept before a decision.
#[derive(Drop)]
pub struct Running {
    /// None before the member takes part.
    pub place: Option<Place>,
    /// Of the rounds that it coordinates.
    pub ballots: Ballots,
    /// Whether it has started the broadcast of a decision itself.
    pub led: bool,
}

/// The same place, where there is one.
fn copy_place(alloc: Global, place: &Option<Place>) -> Result<Option<Place>, NoMemory>
    ensures { IfOk result (λ copy. copy ≡ place.now) }
{
    match place {
        Some(place) => Ok(Some(place.copy(alloc)?)),
        None => Ok(None),
    }
}

/// Counts a member's estimate for a round; gives what is to be proposed.
fn count_estimate(
    alloc: Global,
    seat: &Seat,
    ballots: &mut Ballots,
    from: MemberId,
    round: u64,
    held: Estimate,
) -> Result<Option<Batch>, NoMemory>
    requires { all_fit seat.now.members held.batch ≡ true }
    ensures kept { OnOk result ((past : Turns) → IsKept seat.now.members round past (kept_of ballots.old round) → IsKept seat.now.members round (Took from (Estimates round held) ∷ past) (kept_of ballots.new round)) }
    ensures others { OnOk result ((r : ℕ) → r ≢ round → kept_of ballots.new r ≡ kept_of ballots.old r) }
    ensures made { IfOk result (λ proposed. (past : Turns) → IsKept seat.now.members round past (kept_of ballots.old round) → proposed ≡ leading.made (best_of (quorum seat.now.members (firsts (estimate_for round) past))) (best_of (quorum seat.now.members (firsts (estimate_for round) past ++ vote (firsts (estimate_for round) past) from (Some held))))) }
    ensures fits { BallotsFit seat.now.members ballots.old → BallotsFit seat.now.members ballots.new }
    ensures sent_fits { BallotsFit seat.now.members ballots.old → IfOk result (λ proposed. IfSome proposed (λ batch. all_fit seat.now.members batch ≡ true)) }
{
    let mut ballot = ballots.take(alloc, round);
    let proposed = ballot.count_estimate(alloc, seat, from, held)?;
    ballots.put(round, ballot)?;
    Ok(proposed)
}

/// Counts a member's reply in a round; gives the verdict of the majority that this one made, and the
/// batch that was proposed.
fn count_reply(
    alloc: Global,
    seat: &Seat,
    ballots: &mut Ballots,
    from: MemberId,
    round: u64,
    agree: bool,
) -> Result<(Option<bool>, Option<Batch>), NoMemory>
    ensures kept { OnOk result ((past : Turns) → IsKept seat.now.members round past (kept_of ballots.old round) → IsKept seat.now.members round (Took from (Replies round agree) ∷ past) (kept_of ballots.new round)) }
    ensures others { OnOk result ((r : ℕ) → r ≢ round → kept_of ballots.new r ≡ kept_of ballots.old r) }
    ensures verdict { IfOk result (λ found. (past : Turns) → IsKept seat.now.members round past (kept_of ballots.old round) → found.0 ≡ leading.made (all_yes (quorum seat.now.members (firsts (reply_for round) past))) (all_yes (quorum seat.now.members (firsts (reply_for round) past ++ vote (firsts (reply_for round) past) from (Some agree))))) }
    ensures batch { IfOk result (λ found. (past : Turns) (agreed : Bool) → found.0 ≡ Some agreed → IsKept seat.now.members round past (kept_of ballots.old round) → found.1 ≡ proposal seat.now.members round past) }
    ensures fits { BallotsFit seat.now.members ballots.old → BallotsFit seat.now.members ballots.new }
    ensures batch_fits { BallotsFit seat.now.members ballots.old → IfOk result (λ found. IfSome found.1 (λ batch. all_fit seat.now.members batch ≡ true)) }
{
    let mut ballot = ballots.take(alloc, round);
    let found = ballot.conclude(seat, from, agree)?;
    ballots.put(round, ballot)?;
    Ok(found)
}

/// Whether the member has led a decision, after a round that ends so.
fn leads_on(led: bool, verdict: &Option<bool>, proposed: &Option<Batch>) -> bool
    ensures { result ≡ (led || concludes verdict.now proposed.now) }
{
    led || is_decision(verdict, proposed)
}

/// Sends a body to all members.
pub fn send_all(alloc: Global, seat: &Seat, body: &Body, out: &mut Outbox) -> Result<(), NoMemory>
    requires fits { BodyFits seat.now.members body.now }
    requires counts { is_body body.now ≡ true }
    ensures sent { OnOk result ((say : Say) → body.now ≡ body_of seat.now.number say → Sends seat.now.members seat.now.number out.old out.new (leading.to_each seat.now.members say)) }
    ensures grows { OnOk result (Grows (SendFits seat.now.members) out.old out.new) }
{
    out.push_all(alloc, seat.members, body)?;
    Ok(())
}

/// Sends a proposal, where there is one, to all.
fn propose(
    alloc: Global,
    seat: &Seat,
    round: u64,
    proposed: Option<Batch>,
    out: &mut Outbox,
) -> Result<(), NoMemory>
    requires round { 1 ≤ round }
    requires fits { IfSome proposed (λ batch. all_fit seat.now.members batch ≡ true) }
    ensures sent { OnOk result (Sends seat.now.members seat.now.number out.old out.new (leading.propose seat.now.members round proposed)) }
    ensures grows { OnOk result (Grows (SendFits seat.now.members) out.old out.new) }
{
    match proposed {
        Some(batch) => {
            let body = Body::Prop {
                instance: seat.number,
                round,
                batch,
            };
            send_all(alloc, seat, &body, out)
        }
        None => Ok(()),
    }
}

/// Where a majority has replied to what was proposed, sends the decision or that the round is over to
/// all.
fn conclude(
    alloc: Global,
    seat: &Seat,
    round: u64,
    verdict: Option<bool>,
    proposed: Option<Batch>,
    out: &mut Outbox,
) -> Result<(), NoMemory>
    requires round { 1 ≤ round }
    requires fits { IfSome proposed (λ batch. all_fit seat.now.members batch ≡ true) }
    ensures sent { OnOk result (Sends seat.now.members seat.now.number out.old out.new (leading.conclude seat.now.members round verdict proposed)) }
    ensures grows { OnOk result (Grows (SendFits seat.now.members) out.old out.new) }
{
    let Some(batch) = proposed else {
        return Ok(());
    };
    let body = match verdict {
        Some(true) => Body::Decide {
            instance: seat.number,
            batch,
        },
        Some(false) => Body::Next {
            instance: seat.number,
            round,
        },
        None => return Ok(()),
    };
    send_all(alloc, seat, &body, out)
}

impl Running {
    /// Before any input, in a group of so many members.
    pub fn new(alloc: Global, members: u8) -> Running
        requires { members ≢ 0 }
        ensures stands { (n me : ℕ) → IsRunning n me result [] }
        ensures fits { (n : ℕ) → RunningFits n result }
    {
        Running {
            place: None,
            ballots: Ballots::new(alloc, members),
            led: false,
        }
    }

    /// It stands for every list for which this one stands.
    pub fn copy(&self, alloc: Global) -> Result<Running, NoMemory>
        ensures stands { IfOk result (λ copy. (n me : ℕ) (past : Turns) → IsRunning n me self.now past → IsRunning n me copy past) }
        ensures fits { IfOk result (λ copy. (n : ℕ) → RunningFits n self.now → RunningFits n copy) }
    {
        Ok(Running {
            place: copy_place(alloc, &self.place)?,
            ballots: self.ballots.copy(alloc)?,
            led: self.led,
        })
    }

    /// The member's round, 0 before it takes part.
    pub fn round(&self) -> u64
        ensures { result ≡ (standing self.now.place).round }
    {
        match &self.place {
            Some(place) => place.round,
            None => 0,
        }
    }

    /// The member begins with a batch.
    pub fn start(
        &mut self,
        alloc: Global,
        seat: &Seat,
        batch: Batch,
        suspected: &[bool; 7],
        out: &mut Outbox,
    ) -> Result<(), NoMemory>
        requires not_me { TrustsItself suspected.now seat.now.me }
        requires batch_fits { all_fit seat.now.members batch ≡ true }
        requires running_fits { RunningFits seat.now.members self.old }
        ensures stands { OnOk result ((past : Turns) → IsRow suspected.now (history.suspected past) → IsRunning seat.now.members seat.now.me self.old past → IsRunning seat.now.members seat.now.me self.new (Called (Starts batch) ∷ past)) }
        ensures sent { OnOk result ((past : Turns) → IsRow suspected.now (history.suspected past) → IsRunning seat.now.members seat.now.me self.old past → Sends seat.now.members seat.now.number out.old out.new (leading.says seat.now.members seat.now.me (Called (Starts batch) ∷ past))) }
        ensures grows { OnOk result (Grows (SendFits seat.now.members) out.old out.new) }
        ensures fits { RunningFits seat.now.members self.new }
    {
        stance::start(alloc, seat, &mut self.place, batch, suspected, out)?;
        Ok(())
    }

    /// There is one more suspicion.
    pub fn suspect(
        &mut self,
        alloc: Global,
        seat: &Seat,
        suspected: &[bool; 7],
        out: &mut Outbox,
    ) -> Result<(), NoMemory>
        requires not_me { TrustsItself suspected.now seat.now.me }
        requires running_fits { RunningFits seat.now.members self.old }
        ensures stands { OnOk result ((past : Turns) (who : ℕ) → IsRow suspected.now (history.suspected (Called (Suspects who) ∷ past)) → IsRunning seat.now.members seat.now.me self.old past → IsRunning seat.now.members seat.now.me self.new (Called (Suspects who) ∷ past)) }
        ensures sent { OnOk result ((past : Turns) (who : ℕ) → IsRow suspected.now (history.suspected (Called (Suspects who) ∷ past)) → IsRunning seat.now.members seat.now.me self.old past → Sends seat.now.members seat.now.number out.old out.new (leading.says seat.now.members seat.now.me (Called (Suspects who) ∷ past))) }
        ensures grows { OnOk result (Grows (SendFits seat.now.members) out.old out.new) }
        ensures fits { RunningFits seat.now.members self.new }
    {
        stance::suspect(alloc, seat, &mut self.place, suspected, out)?;
        Ok(())
    }

    /// A member's estimate for a round: its coordinator counts it, and proposes at a majority.
    fn take_estimate(
        &mut self,
        alloc: Global,
        seat: &Seat,
        from: MemberId,
        round: u64,
        held: Estimate,
        out: &mut Outbox,
    ) -> Result<(), NoMemory>
        requires batch_fits { all_fit seat.now.members held.batch ≡ true }
        requires running_fits { RunningFits seat.now.members self.old }
        ensures stands { OnOk result ((past : Turns) → IsRunning seat.now.members seat.now.me self.old past → IsRunning seat.now.members seat.now.me self.new (Took from (Estimates round held) ∷ past)) }
        ensures sent { OnOk result ((past : Turns) → IsRunning seat.now.members seat.now.me self.old past → Sends seat.now.members seat.now.number out.old out.new (leading.says seat.now.members seat.now.me (Took from (Estimates round held) ∷ past))) }
        ensures grows { OnOk result (Grows (SendFits seat.now.members) out.old out.new) }
        ensures fits { RunningFits seat.now.members self.new }
    {
        if !seat.coordinates(round) {
            return Ok(());
        }
        let proposed = count_estimate(alloc, seat, &mut self.ballots, from, round, held)?;
        propose(alloc, seat, round, proposed, out)?;
        Ok(())
    }

    /// A member's reply in a round: its coordinator counts it, and concludes the round at a majority.
    fn take_reply(
        &mut self,
        alloc: Global,
        seat: &Seat,
        from: MemberId,
        round: u64,
        agree: bool,
        out: &mut Outbox,
    ) -> Result<(), NoMemory>
        requires { RunningFits seat.now.members self.old }
        ensures stands { OnOk result ((past : Turns) → IsRunning seat.now.members seat.now.me self.old past → IsRunning seat.now.members seat.now.me self.new (Took from (Replies round agree) ∷ past)) }
        ensures sent { OnOk result ((past : Turns) → IsRunning seat.now.members seat.now.me self.old past → Sends seat.now.members seat.now.number out.old out.new (leading.says seat.now.members seat.now.me (Took from (Replies round agree) ∷ past))) }
        ensures grows { OnOk result (Grows (SendFits seat.now.members) out.old out.new) }
        ensures fits { RunningFits seat.now.members self.new }
    {
        if !seat.coordinates(round) {
            return Ok(());
        }
        let (verdict, proposed) = count_reply(alloc, seat, &mut self.ballots, from, round, agree)?;
        self.led = leads_on(self.led, &verdict, &proposed);
        conclude(alloc, seat, round, verdict, proposed, out)?;
        Ok(())
    }

    /// A proposal for a round.
    fn take_proposal(
        &mut self,
        alloc: Global,
        seat: &Seat,
        from: MemberId,
        round: u64,
        batch: &Batch,
        suspected: &[bool; 7],
        out: &mut Outbox,
    ) -> Result<(), NoMemory>
        requires not_me { TrustsItself suspected.now seat.now.me }
        requires batch_fits { all_fit seat.now.members batch.now ≡ true }
        requires running_fits { RunningFits seat.now.members self.old }
        ensures stands { OnOk result ((past : Turns) → IsRow suspected.now (history.suspected past) → IsRunning seat.now.members seat.now.me self.old past → IsRunning seat.now.members seat.now.me self.new (Took from (Proposes round batch.now) ∷ past)) }
        ensures sent { OnOk result ((past : Turns) → IsRow suspected.now (history.suspected past) → IsRunning seat.now.members seat.now.me self.old past → Sends seat.now.members seat.now.number out.old out.new (leading.says seat.now.members seat.now.me (Took from (Proposes round batch.now) ∷ past))) }
        ensures grows { OnOk result (Grows (SendFits seat.now.members) out.old out.new) }
        ensures fits { RunningFits seat.now.members self.new }
    {
        stance::take_proposal(
            alloc,
            seat,
            &mut self.place,
            from,
            round,
            batch,
            suspected,
            out,
        )?;
        Ok(())
    }

    /// The end of a round.
    fn take_next(
        &mut self,
        alloc: Global,
        seat: &Seat,
        from: MemberId,
        round: u64,
        suspected: &[bool; 7],
        out: &mut Outbox,
    ) -> Result<(), NoMemory>
        requires not_me { TrustsItself suspected.now seat.now.me }
        requires running_fits { RunningFits seat.now.members self.old }
        ensures stands { OnOk result ((past : Turns) → IsRow suspected.now (history.suspected past) → IsRunning seat.now.members seat.now.me self.old past → IsRunning seat.now.members seat.now.me self.new (Took from (Moves_on round) ∷ past)) }
        ensures sent { OnOk result ((past : Turns) → IsRow suspected.now (history.suspected past) → IsRunning seat.now.members seat.now.me self.old past → Sends seat.now.members seat.now.number out.old out.new (leading.says seat.now.members seat.now.me (Took from (Moves_on round) ∷ past))) }
        ensures grows { OnOk result (Grows (SendFits seat.now.members) out.old out.new) }
        ensures fits { RunningFits seat.now.members self.new }
    {
        stance::take_next(alloc, seat, &mut self.place, from, round, suspected, out)?;
        Ok(())
    }

    /// A body of this instance that is no decision.
    pub fn take(
        &mut self,
        alloc: Global,
        seat: &Seat,
        from: MemberId,
        body: &Body,
        suspected: &[bool; 7],
        out: &mut Outbox,
    ) -> Result<(), NoMemory>
        requires not_me { TrustsItself suspected.now seat.now.me }
        requires body_fits { BodyFits seat.now.members body.now }
        requires running_fits { RunningFits seat.now.members self.old }
        ensures stands { OnOk result ((say : Say) (past : Turns) → say_of seat.now.number body.now ≡ Some say → decides say ≡ None → IsRow suspected.now (history.suspected past) → IsRunning seat.now.members seat.now.me self.old past → IsRunning seat.now.members seat.now.me self.new (Took from say ∷ past)) }
        ensures sent { OnOk result ((say : Say) (past : Turns) → say_of seat.now.number body.now ≡ Some say → decides say ≡ None → IsRow suspected.now (history.suspected past) → IsRunning seat.now.members seat.now.me self.old past → Sends seat.now.members seat.now.number out.old out.new (leading.says seat.now.members seat.now.me (Took from say ∷ past))) }
        ensures grows { OnOk result (Grows (SendFits seat.now.members) out.old out.new) }
        ensures fits { RunningFits seat.now.members self.new }
    {
        match body {
            Body::Est {
                instance,
                round,
                stamp,
                batch,
            } => {
                if *instance != seat.number {
                    return Ok(());
                }
                let held = Estimate {
                    stamp: *stamp,
                    batch: batch.copy(alloc)?,
                };
                self.take_estimate(alloc, seat, from, *round, held, out)?;
                Ok(())
            }
            Body::Prop {
                instance,
                round,
                batch,
            } => {
                if *instance != seat.number {
                    return Ok(());
                }
                self.take_proposal(alloc, seat, from, *round, batch, suspected, out)?;
                Ok(())
            }
            Body::Reply {
                instance,
                round,
                yes,
            } => {
                if *instance != seat.number {
                    return Ok(());
                }
                self.take_reply(alloc, seat, from, *round, *yes, out)?;
                Ok(())
            }
            Body::Next { instance, round } => {
                if *instance != seat.number {
                    return Ok(());
                }
                self.take_next(alloc, seat, from, *round, suspected, out)?;
                Ok(())
            }
            Body::Decide { .. }
            | Body::Ask { .. }
            | Body::Ord { .. }
            | Body::Req { .. }
            | Body::Ack { .. }
            | Body::Past
            | Body::Rb { .. } => Ok(()),
        }
    }
}
