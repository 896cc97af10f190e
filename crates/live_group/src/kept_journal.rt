//! What the lock with history holds: a journal with the length of the list that it stands for, plan included.
ghost use Rattle.std.specs.Prelude.{◌≡◌, length};
ghost use Rattle.run_journal.specs.Journal.{plan_of, events_of};
ghost use Rattle.live_group.specs.Recorded.{entries};

use crate::recorded::Recorded;
use order_trait::Ordering;
use run_journal::Journal;
use turn_lock::Kept;

/// A journal as it lies under the lock: it stands for its plan, followed by its events.
#[derive(Drop)]
pub struct KeptJournal<O: Ordering> {
    pub(crate) journal: Journal<O>,
    count: u64,
    ghost counted: { count ≡ length (entries (plan_of journal) (events_of journal)) },
}

impl<O: Ordering> Kept for KeptJournal<O> {
    type Entry = Recorded;

    ghost list = { λ k. entries (plan_of k.journal) (events_of k.journal) };

    fn count(&self) -> u64 {
        self.count
    }
}

impl<O: Ordering> KeptJournal<O> {
    pub(crate) fn of(journal: Journal<O>) -> KeptJournal<O>
        ensures { result.journal ≡ journal }
    {
        // A run has fewer than 2^30 events.
        journal.plan();
        let count = journal.len() + 1;
        KeptJournal { journal, count }
    }
}
