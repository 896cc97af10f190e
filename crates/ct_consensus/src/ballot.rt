//! One round's ballot at its coordinator: estimates and replies, each up to a majority, each member's counted once.
ghost use Rattle.std.specs.Prelude.{ℕ, Bool, ◌↔◌, IsTrue, ◌≡◌, ◌<◌, ◌≤◌, ◌++◌, true, List, [], None, Some, length, IfOk, IfSome, IsSome, OnOk, OnErr};
ghost use Rattle.instance_rules.specs.declared.estimate.Estimate.{Estimate};
ghost use Rattle.std.specs.List.{list_any, list_all, All};
ghost use Rattle.instance_rules.specs.Say as say;
ghost use Rattle.instance_rules.specs.Says as leading;
ghost use Rattle.instance_rules.specs.Ballot as rules;
ghost use Rattle.instance_rules.specs.Ballot.{is_from, vote, best_of, quorum, all_yes};
ghost use Rattle.std.specs.Global.{Vec};
ghost use Rattle.std.specs.Prelude.{Option};
ghost use Rattle.instance_rules.specs.Say.{Turns};
ghost use Rattle.ct_consensus.specs.Ballot.{all_fit, over, IsCounted, IsTallied, ClosesWith, IsPending, IsKept, ProposalFits, concludes};

use crate::seat::Seat;
use instance_rules::Estimate;
use std::alloc::Global;
use std::mem;
use upd_base::{Batch, MemberId, NoMemory};

/// What a coordinator keeps of one of its rounds.
#[derive(Drop)]
pub struct Ballot {
    pub proposal: Proposal,
    /// The first reply of each member, in the order taken; None once they made a majority.
    pub replies: Option<Vec<(MemberId, bool)>>,
}

/// How far a coordinator's proposal is.
#[derive(Drop)]
pub enum Proposal {
    /// The first estimate of each member, in the order taken: no majority yet.
    Awaited(Vec<(MemberId, Estimate)>),
    /// It was sent.
    Made(Batch),
    /// It was sent, and the replies were counted: nothing is sent in this round any more.
    Over,
}

/// Whether one of the votes is this member's.
fn has_voted<A>(votes: &[(MemberId, A)], from: MemberId) -> bool
    ensures { result ≡ list_any (is_from from) votes.now }
{
    votes.iter().any(|vote| vote.0 == from)
}

/// Adds a member's vote, unless it has one.
fn add_vote<A: Drop>(
    votes: &mut Vec<(MemberId, A)>,
    from: MemberId,
    value: A,
) -> Result<(), NoMemory>
    ensures ok { OnOk result (votes.new.items ≡ votes.old.items ++ vote votes.old.items from (Some value)) }
    ensures err { OnErr result (votes.new.items ≡ votes.old.items) }
{
    if !has_voted(votes.as_slice(), from) {
        votes.push((from, value))?;
    }
    Ok(())
}

/// Whether the first has the greater stamp, or the same and the lower member.
fn outranks(vote: &(MemberId, Estimate), other: &(MemberId, Estimate)) -> bool
    ensures { result ≡ rules.outranks vote.now other.now }
{
    other.1.stamp < vote.1.stamp || (vote.1.stamp == other.1.stamp && vote.0.get() < other.0.get())
}

/// The one that outranks the others.
fn best<'a>(
    first: &'a (MemberId, Estimate),
    rest: &'a [(MemberId, Estimate)],
) -> &'a (MemberId, Estimate)
    ensures { result.now ≡ rules.best first.now rest.now }
{
    match rest {
        [] => first,
        [vote, rest @ ..] => {
            if outranks(vote, first) {
                best(vote, rest)
            } else {
                best(first, rest)
            }
        }
    }
}

/// The batch of the best of these votes, where they are a majority.
fn chosen(
    alloc: Global,
    seat: &Seat,
    votes: &[(MemberId, Estimate)],
) -> Result<Option<Batch>, NoMemory>
    ensures chosen { length votes.now ≤ say.majority seat.now.members → IfOk result (λ batch. batch ≡ best_of (quorum seat.now.members votes.now)) }
    ensures fits { All (λ v. all_fit seat.now.members v.1.batch ≡ true) votes.now → IfOk result (λ found. IfSome found (λ batch. all_fit seat.now.members batch ≡ true)) }
{
    if votes.len() < seat.majority() {
        return Ok(None);
    }
    match votes {
        [first, rest @ ..] => Ok(Some(best(first, rest).1.batch.copy(alloc)?)),
        [] => Ok(None),
    }
}

/// Adds a member's estimate, unless it has one, and gives the batch of the best where they are a
/// majority.
fn count(
    alloc: Global,
    seat: &Seat,
    votes: &mut Vec<(MemberId, Estimate)>,
    from: MemberId,
    held: Estimate,
) -> Result<Option<Batch>, NoMemory>
    ensures votes { OnOk result (votes.new.items ≡ votes.old.items ++ vote votes.old.items from (Some held)) }
    ensures chosen { length votes.old.items < say.majority seat.now.members → IfOk result (λ batch. batch ≡ best_of (quorum seat.now.members (votes.old.items ++ vote votes.old.items from (Some held)))) }
    ensures fits { all_fit seat.now.members held.batch ≡ true → All (λ v. all_fit seat.now.members v.1.batch ≡ true) votes.old.items → All (λ v. all_fit seat.now.members v.1.batch ≡ true) votes.new.items }
    ensures sent_fits { all_fit seat.now.members held.batch ≡ true → All (λ v. all_fit seat.now.members v.1.batch ≡ true) votes.old.items → IfOk result (λ found. IfSome found (λ batch. all_fit seat.now.members batch ≡ true)) }
{
    add_vote(votes, from, held)?;
    chosen(alloc, seat, votes.as_slice())
}

/// Whether all of the replies say yes.
fn all_agree(votes: &[(MemberId, bool)]) -> bool
    ensures { result ≡ list_all (λ v. v.1) votes.now }
{
    votes.iter().all(|vote| vote.1)
}

/// Adds a member's reply, unless it has one, and tells whether all say yes where they are a majority.
fn tally(
    seat: &Seat,
    votes: &mut Vec<(MemberId, bool)>,
    from: MemberId,
    agree: bool,
) -> Result<Option<bool>, NoMemory>
    ensures votes { OnOk result (votes.new.items ≡ votes.old.items ++ vote votes.old.items from (Some agree)) }
    ensures verdict { length votes.old.items < say.majority seat.now.members → IfOk result (λ verdict. verdict ≡ all_yes (quorum seat.now.members (votes.old.items ++ vote votes.old.items from (Some agree)))) }
{
    add_vote(votes, from, agree)?;
    if votes.len() < seat.majority() {
        return Ok(None);
    }
    Ok(Some(all_agree(votes.as_slice())))
}

/// The same estimates.
fn copy_estimates(
    alloc: Global,
    votes: &[(MemberId, Estimate)],
) -> Result<Vec<(MemberId, Estimate)>, NoMemory>
    ensures { IfOk result (λ copies. copies.items ≡ votes.now) }
{
    let mut copies = Vec::new(alloc);
    for vote in votes {
        copies.push((vote.0, vote.1.copy(alloc)?))?;
    }
    Ok(copies)
}

/// The same replies.
fn copy_replies(
    alloc: Global,
    replies: &Option<Vec<(MemberId, bool)>>,
) -> Result<Option<Vec<(MemberId, bool)>>, NoMemory>
    ensures tallied { IfOk result (λ copies. (n : ℕ) (votes : List (ℕ × Bool)) → IsTallied n votes replies.now → IsTallied n votes copies) }
    ensures none { IfOk result (λ copies. replies.now ≡ None → copies ≡ None) }
{
    match replies {
        Some(votes) => Ok(Some(Vec::from_slice(alloc, votes.as_slice())?)),
        None => Ok(None),
    }
}

impl Proposal {
    /// It is as far as this one, with the same estimates or the same batch.
    pub fn copy(&self, alloc: Global) -> Result<Proposal, NoMemory>
        ensures counted { IfOk result (λ copy. (n : ℕ) (votes : List (ℕ × Estimate)) → IsCounted n votes self.now → IsCounted n votes copy) }
        ensures closes { IfOk result (λ copy. (replies : Option (Vec (ℕ × Bool))) → ClosesWith replies self.now → ClosesWith replies copy) }
        ensures fits { IfOk result (λ copy. (n : ℕ) → ProposalFits n self.now → ProposalFits n copy) }
    {
        match self {
            Proposal::Awaited(votes) => {
                Ok(Proposal::Awaited(copy_estimates(alloc, votes.as_slice())?))
            }
            Proposal::Made(batch) => Ok(Proposal::Made(batch.copy(alloc)?)),
            Proposal::Over => Ok(Proposal::Over),
        }
    }
}

impl Ballot {
    /// What is kept of the same votes.
    pub fn copy(&self, alloc: Global) -> Result<Ballot, NoMemory>
        ensures kept { IfOk result (λ copy. (n r : ℕ) (past : Turns) → IsKept n r past (Some self.now) → IsKept n r past (Some copy)) }
        ensures fits { IfOk result (λ copy. (n : ℕ) → ProposalFits n self.now.proposal → ProposalFits n copy.proposal) }
    {
        Ok(Ballot {
            proposal: self.proposal.copy(alloc)?,
            replies: copy_replies(alloc, &self.replies)?,
        })
    }

    /// Before any vote.
    pub fn new(alloc: Global) -> Ballot
        ensures counted { (n : ℕ) → IsCounted n [] result.proposal }
        ensures tallied { (n : ℕ) → IsTallied n [] result.replies }
        ensures closes { ClosesWith result.replies result.proposal }
        ensures fits { (n : ℕ) → ProposalFits n result.proposal }
    {
        Ballot {
            proposal: Proposal::Awaited(Vec::new(alloc)),
            replies: Some(Vec::new(alloc)),
        }
    }

    /// Of a round in which nothing is sent any more.
    pub fn over() -> Ballot
        ensures { result ≡ over }
    {
        Ballot {
            proposal: Proposal::Over,
            replies: None,
        }
    }

    /// Whether nothing is sent in the round any more.
    pub fn is_over(&self) -> bool
        ensures { IsTrue result ↔ (self.now ≡ over) }
    {
        match (&self.proposal, &self.replies) {
            (Proposal::Over, None) => true,
            _ => false,
        }
    }

    /// Counts a member's estimate. What it gives is to be proposed: this one made the majority.
    pub fn count_estimate(
        &mut self,
        alloc: Global,
        seat: &Seat,
        from: MemberId,
        held: Estimate,
    ) -> Result<Option<Batch>, NoMemory>
        requires { all_fit seat.now.members held.batch ≡ true }
        ensures counted { OnOk result ((votes : List (ℕ × Estimate)) → IsCounted seat.now.members votes self.old.proposal → IsCounted seat.now.members (votes ++ vote votes from (Some held)) self.new.proposal) }
        ensures made { IfOk result (λ batch. (votes : List (ℕ × Estimate)) → IsCounted seat.now.members votes self.old.proposal → batch ≡ leading.made (best_of (quorum seat.now.members votes)) (best_of (quorum seat.now.members (votes ++ vote votes from (Some held))))) }
        ensures replies { self.new.replies ≡ self.old.replies }
        ensures closes { ClosesWith self.old.replies self.old.proposal → ClosesWith self.new.replies self.new.proposal }
        ensures fits { ProposalFits seat.now.members self.old.proposal → ProposalFits seat.now.members self.new.proposal }
        ensures sent_fits { ProposalFits seat.now.members self.old.proposal → IfOk result (λ made. IfSome made (λ batch. all_fit seat.now.members batch ≡ true)) }
        ensures over { self.old ≡ over → self.new ≡ over }
    {
        match &mut self.proposal {
            Proposal::Awaited(votes) => {
                let Some(batch) = count(alloc, seat, votes, from, held)? else {
                    return Ok(None);
                };
                let proposed = batch.copy(alloc)?;
                self.proposal = Proposal::Made(batch);
                Ok(Some(proposed))
            }
            Proposal::Made(_) | Proposal::Over => Ok(None),
        }
    }

    /// Counts a member's reply. What it gives is whether all of the majority that this one made said
    /// yes.
    pub fn count_reply(
        &mut self,
        seat: &Seat,
        from: MemberId,
        agree: bool,
    ) -> Result<Option<bool>, NoMemory>
        ensures tallied { OnOk result ((votes : List (ℕ × Bool)) → IsTallied seat.now.members votes self.old.replies → IsTallied seat.now.members (votes ++ vote votes from (Some agree)) self.new.replies) }
        ensures verdict { IfOk result (λ verdict. (votes : List (ℕ × Bool)) → IsTallied seat.now.members votes self.old.replies → verdict ≡ leading.made (all_yes (quorum seat.now.members votes)) (all_yes (quorum seat.now.members (votes ++ vote votes from (Some agree))))) }
        ensures counts { IfOk result (λ verdict. IfSome verdict (λ agreed. self.new.replies ≡ None)) }
        ensures pending { ClosesWith self.old.replies self.old.proposal → IfOk result (λ verdict. IfSome verdict (λ agreed. IsPending self.new.proposal)) }
        ensures proposal { self.new.proposal ≡ self.old.proposal }
        ensures closes { ClosesWith self.old.replies self.old.proposal → ClosesWith self.new.replies self.new.proposal }
    {
        match &mut self.replies {
            Some(votes) => {
                let verdict = tally(seat, votes, from, agree)?;
                if verdict.is_some() {
                    self.replies = None;
                }
                Ok(verdict)
            }
            None => Ok(None),
        }
    }

    /// Gives the batch that was proposed, and keeps no more of the round.
    pub fn close(&mut self) -> Option<Batch>
        ensures counted { (n : ℕ) (votes : List (ℕ × Estimate)) → IsCounted n votes self.old.proposal → IsCounted n votes self.new.proposal }
        ensures batch { (n : ℕ) (votes : List (ℕ × Estimate)) → IsCounted n votes self.old.proposal → IsPending self.old.proposal → result ≡ best_of (quorum n votes) }
        ensures replies { self.new.replies ≡ self.old.replies }
        ensures closes { self.old.replies ≡ None → ClosesWith self.new.replies self.new.proposal }
        ensures fits { (n : ℕ) → ProposalFits n self.old.proposal → ProposalFits n self.new.proposal }
        ensures batch_fits { (n : ℕ) → ProposalFits n self.old.proposal → IfSome result (λ batch. all_fit n batch ≡ true) }
    {
        if let Proposal::Made(_) = &self.proposal {
            if let Proposal::Made(batch) = mem::replace(&mut self.proposal, Proposal::Over) {
                return Some(batch);
            }
        }
        None
    }

    /// Counts a member's reply. Where this one made the majority, it gives whether all of that majority
    /// said yes and the batch that was proposed, and nothing more is kept of the round.
    pub fn conclude(
        &mut self,
        seat: &Seat,
        from: MemberId,
        agree: bool,
    ) -> Result<(Option<bool>, Option<Batch>), NoMemory>
        ensures tallied { OnOk result ((votes : List (ℕ × Bool)) → IsTallied seat.now.members votes self.old.replies → IsTallied seat.now.members (votes ++ vote votes from (Some agree)) self.new.replies) }
        ensures counted { OnOk result ((votes : List (ℕ × Estimate)) → IsCounted seat.now.members votes self.old.proposal → IsCounted seat.now.members votes self.new.proposal) }
        ensures verdict { IfOk result (λ found. (votes : List (ℕ × Bool)) → IsTallied seat.now.members votes self.old.replies → found.0 ≡ leading.made (all_yes (quorum seat.now.members votes)) (all_yes (quorum seat.now.members (votes ++ vote votes from (Some agree))))) }
        ensures batch { ClosesWith self.old.replies self.old.proposal → IfOk result (λ found. IfSome found.0 (λ agreed. (votes : List (ℕ × Estimate)) → IsCounted seat.now.members votes self.old.proposal → found.1 ≡ best_of (quorum seat.now.members votes))) }
        ensures closes { ClosesWith self.old.replies self.old.proposal → OnOk result (ClosesWith self.new.replies self.new.proposal) }
        ensures fits { (n : ℕ) → ProposalFits n self.old.proposal → ProposalFits n self.new.proposal }
        ensures batch_fits { (n : ℕ) → ProposalFits n self.old.proposal → IfOk result (λ found. IfSome found.1 (λ batch. all_fit n batch ≡ true)) }
        ensures over { self.old ≡ over → self.new ≡ over }
    {
        let Some(agreed) = self.count_reply(seat, from, agree)? else {
            return Ok((None, None));
        };
        let proposed = self.close();
        Ok((Some(agreed), proposed))
    }
}

/// Whether a round ends with a decision.
pub fn is_decision(verdict: &Option<bool>, proposed: &Option<Batch>) -> bool
    ensures { result ≡ concludes verdict.now proposed.now }
{
    match verdict {
        Some(true) => proposed.is_some(),
        Some(false) | None => false,
    }
}
