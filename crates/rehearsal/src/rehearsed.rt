//! What a schedule leaves: the journal that it went on with, and whether its run is settled or has spent its bound.
ghost use Rattle.std.specs.Prelude.{◌≡◌, ◌≤◌, if◌then◌else◌, length, OnOk, OnErr};
ghost use Rattle.upd_base.specs.Plan.{bound};
ghost use Rattle.member_rules.specs.Kept.{rules_of};
ghost use Rattle.run_journal.specs.Journal.{plan_of, past_of};
ghost use Rattle.rehearsal.specs.Ends.{TellsRun};

use order_trait::Ordering;
use run_journal::Journal;
use upd_base::NoMemory;

/// How a rehearsal ended.
#[derive(Clone, Copy, Debug, PartialEq, Eq)]
pub enum RehearsalEnd {
    /// Every planned call is made, and nothing is left to be received or released.
    Settled,
    /// As many events as the plan's bound were made, and something is left.
    Spent,
    NoMemory,
}

/// A journal that a schedule went on with.
#[derive(Drop)]
pub struct Rehearsed<O: Ordering> {
    pub journal: Journal<O>,
    pub end: RehearsalEnd,
}

/// How a schedule ended, by whether it came to its end.
pub(crate) fn end_of<O: Ordering>(journal: &Journal<O>, made: Result<(), NoMemory>) -> RehearsalEnd
    ensures few { length (past_of journal.now) ≤ bound (plan_of journal.now) }
    ensures end { OnOk made (TellsRun (rules_of O.Ordering) (plan_of journal.now) (past_of journal.now) result) }
    ensures memory { OnErr made (result ≡ RehearsalEnd.NoMemory) }
{
    let _events = journal.len();
    match made {
        Ok(()) => end_by(journal.settled()),
        Err(NoMemory) => RehearsalEnd::NoMemory,
    }
}

fn end_by(settled: bool) -> RehearsalEnd
    ensures { result ≡ (if settled then RehearsalEnd.Settled else RehearsalEnd.Spent) }
{
    if settled {
        RehearsalEnd::Settled
    } else {
        RehearsalEnd::Spent
    }
}
