//! The theorem at a journal: total order, delivery of all where the run is settled and quiet, and the bound on its events.
ghost use Rattle.std.specs.Prelude.{◌≡◌, ◌≤◌, length};
ghost use Rattle.upd_base.specs.Plan.{bound};
ghost use Rattle.member_rules.specs.Kept.{rules_of};
ghost use Rattle.group_run.specs.Ordered.{IsOrdered};
ghost use Rattle.group_run.specs.Settled.{IsFulfilled, IsQuiet, IsSettled, IsTrusting};
ghost use Rattle.run_journal.specs.Journal.{plan_of, past_of};
ghost use Rattle.group_laws.specs.Versions.{CountsSwitches, HasSwitchedKinds, HasWholeSegments};

use group_bound::trusting_runs_are_bounded;
use group_fulfilment::settled_quiet_runs_are_fulfilled;
use group_order::{runs_are_ordered, segments_are_whole, versions_count_switches};
use order_trait::Ordering;
use run_journal::Journal;

/// The run of a journal is ordered: of the logs of two members one begins the other, no origin and number stands twice in
/// a log, and each entry was accepted by its origin.
pub fn journal_is_ordered<O: Ordering>(journal: &Journal<O>)
    ensures { IsOrdered (rules_of O.Ordering) (plan_of journal.now) (past_of journal.now) }
{
    journal.plan();
    runs_are_ordered();
}

/// Where the run of a journal is settled and quiet, every accepted message stands in every log, and all members have one
/// version.
pub fn journal_is_fulfilled<O: Ordering>(journal: &Journal<O>)
    ensures { IsSettled (rules_of O.Ordering) (plan_of journal.now) (past_of journal.now) → IsQuiet (plan_of journal.now) (past_of journal.now)
        → IsFulfilled (rules_of O.Ordering) (plan_of journal.now) (past_of journal.now) }
{
    journal.plan();
    settled_quiet_runs_are_fulfilled();
}

/// Where no suspicion was taken and the journal has as many events as its plan's bound, the run is settled.
pub fn journal_is_bounded<O: Ordering>(journal: &Journal<O>)
    ensures { IsTrusting (plan_of journal.now) (past_of journal.now) → length (past_of journal.now) ≡ bound (plan_of journal.now)
        → IsSettled (rules_of O.Ordering) (plan_of journal.now) (past_of journal.now) }
{
    journal.plan();
    trusting_runs_are_bounded();
}

/// The version of each member is the number of switches in its log; each version above 0 has the kind of the switch that ended
/// the one below; and what counts of a version is what its module delivered up to and with the first switch.
pub fn journal_counts_switches<O: Ordering>(journal: &Journal<O>)
    ensures counts { CountsSwitches (rules_of O.Ordering) (plan_of journal.now) (past_of journal.now) }
    ensures kinds { HasSwitchedKinds (rules_of O.Ordering) (plan_of journal.now) (past_of journal.now) }
    ensures segments { HasWholeSegments (rules_of O.Ordering) (plan_of journal.now) (past_of journal.now) }
{
    journal.plan();
    versions_count_switches();
    segments_are_whole();
}
