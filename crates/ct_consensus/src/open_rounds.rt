//! Ordered maps from rounds to ballots: putting in and copying, and what becomes of each round's ballot.
ghost use Rattle.std.specs.Prelude.{ℕ, ◌≡◌, ◌≢◌, Some, OnOk, IfOk};
ghost use Rattle.std.specs.Ordering.{nat_cmp};
ghost use Rattle.std.specs.BTreeMap.{get, insert_entry};
ghost use Rattle.instance_rules.specs.Say.{Turns};
ghost use Rattle.ct_consensus.specs.Ballot.{IsKept, ProposalFits};
ghost use Rattle.ct_consensus.specs.Fit.{MayFit};

use crate::ballot::Ballot;
use std::alloc::Global;
use std::collections::BTreeMap;
use upd_base::NoMemory;

/// Puts in what is kept of a round.
pub fn put_in(
    rounds: &mut BTreeMap<u64, Ballot>,
    round: u64,
    ballot: Ballot,
) -> Result<(), NoMemory>
    ensures here { OnOk result (get nat_cmp rounds.new round ≡ Some ballot) }
    ensures entries { OnOk result (rounds.new.entries ≡ insert_entry nat_cmp rounds.old.entries round ballot) }
    ensures others { OnOk result ((r : ℕ) → r ≢ round → get nat_cmp rounds.new r ≡ get nat_cmp rounds.old r) }
    ensures fits { (n r : ℕ) → MayFit n (get nat_cmp rounds.old r) → ProposalFits n ballot.proposal → MayFit n (get nat_cmp rounds.new r) }
{
    rounds.insert(round, ballot)?;
    Ok(())
}

/// What is kept of the same votes.
pub fn copy_of(
    alloc: Global,
    rounds: &BTreeMap<u64, Ballot>,
) -> Result<BTreeMap<u64, Ballot>, NoMemory>
    ensures kept { IfOk result (λ copies. (n r : ℕ) (past : Turns) → IsKept n r past (get nat_cmp rounds.now r) → IsKept n r past (get nat_cmp copies r)) }
    ensures fits { IfOk result (λ copies. (n r : ℕ) → MayFit n (get nat_cmp rounds.now r) → MayFit n (get nat_cmp copies r)) }
{
    let mut copies = BTreeMap::new(alloc);
    for (round, ballot) in rounds.iter() {
        put_in(&mut copies, *round, ballot.copy(alloc)?)?;
    }
    Ok(copies)
}
