//! The rounds that one member coordinates: open ones with their ballots, those that are over as numbers alone.
ghost use Rattle.std.specs.Prelude.{◌≢◌};

use crate::ballot::Ballot;
use crate::open_rounds::{copy_of, put_in};
use number_runs::NumberRuns;
use std::alloc::Global;
use std::collections::BTreeMap;
use upd_base::NoMemory;

/// What a coordinator keeps of the rounds of which it has taken an estimate or a reply. Of those that are over
/// it keeps the numbers alone.
#[derive(Drop)]
pub struct Ballots {
    members: u8,
    /// Those that are not over, by number.
    rounds: BTreeMap<u64, Ballot>,
    /// By the place of a round in its coordinator's turn.
    over: NumberRuns,
    ghost some: { members ≢ 0 },
}

impl Ballots {
    ghost use Rattle.std.specs.Prelude.{ℕ, ◌≡◌, true, None, Some, OnOk, IfOk};
    ghost use Rattle.number_runs.specs.Runs.{holds};
    ghost use Rattle.instance_rules.specs.Say.{Turns};
    ghost use Rattle.ct_consensus.specs.Ballot.{IsKept, ProposalFits, over};
    ghost use Rattle.ct_consensus.specs.Ballots.{kept_of, turn_of};
    ghost use Rattle.ct_consensus.specs.Fit.{MayFit, BallotsFit};

    /// Before any vote, in a group of so many members.
    pub fn new(alloc: Global, members: u8) -> Ballots
        requires { members ≢ 0 }
        ensures { (r : ℕ) → kept_of result r ≡ None }
    {
        Ballots {
            members,
            rounds: BTreeMap::new(alloc),
            over: NumberRuns::new(alloc),
        }
    }

    /// The place of a round in its coordinator's turn.
    fn turn_of(&self, round: u64) -> (u8, u64)
        ensures { result ≡ turn_of self.now.members round }
    {
        let members = u64::from(self.members);
        ((round % members) as u8, round / members)
    }

    fn is_over(&self, round: u64) -> bool
        ensures { result ≡ holds self.now.over (turn_of self.now.members round) }
    {
        let (row, number) = self.turn_of(round);
        self.over.contains(row, number)
    }

    /// Takes out what is kept of a round, to be put in again. A round that is over stays so.
    pub fn take(&mut self, alloc: Global, round: u64) -> Ballot
        ensures kept { (n : ℕ) (past : Turns) → IsKept n round past (kept_of self.old round) → IsKept n round past (Some result) }
        ensures others { (r : ℕ) → r ≢ round → kept_of self.new r ≡ kept_of self.old r }
        ensures over { holds self.new.over (turn_of self.new.members round) ≡ true → result ≡ over }
        ensures fits { (n : ℕ) → MayFit n (kept_of self.old round) → ProposalFits n result.proposal }
        ensures rest_fits { (n : ℕ) → BallotsFit n self.old → BallotsFit n self.new }
    {
        if self.is_over(round) {
            return Ballot::over();
        }
        match self.rounds.remove(&round) {
            Some(ballot) => ballot,
            None => Ballot::new(alloc),
        }
    }

    /// Puts in what is kept of a round.
    pub fn put(&mut self, round: u64, ballot: Ballot) -> Result<(), NoMemory>
        requires { holds self.old.over (turn_of self.old.members round) ≡ true → ballot ≡ over }
        ensures here { OnOk result (kept_of self.new round ≡ Some ballot) }
        ensures others { OnOk result ((r : ℕ) → r ≢ round → kept_of self.new r ≡ kept_of self.old r) }
        ensures fits { (n : ℕ) → BallotsFit n self.old → ProposalFits n ballot.proposal → BallotsFit n self.new }
    {
        if !ballot.is_over() {
            return put_in(&mut self.rounds, round, ballot);
        }
        let (row, number) = self.turn_of(round);
        self.over.insert(row, number)?;
        Ok(())
    }

    /// What is kept of the same votes.
    pub fn copy(&self, alloc: Global) -> Result<Ballots, NoMemory>
        ensures kept { IfOk result (λ copies. (n r : ℕ) (past : Turns) → IsKept n r past (kept_of self.now r) → IsKept n r past (kept_of copies r)) }
        ensures fits { IfOk result (λ copies. (n : ℕ) → BallotsFit n self.now → BallotsFit n copies) }
    {
        Ok(Ballots {
            members: self.members,
            rounds: copy_of(alloc, &self.rounds)?,
            over: self.over.copy(alloc)?,
        })
    }
}
