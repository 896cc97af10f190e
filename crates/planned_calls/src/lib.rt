//! What a recorded run says of the planned calls, for any ordering modules that keep the four laws.
#![tactic(auto)]

ghost use Rattle.std.specs.Prelude.{[]};
ghost use Rattle.member_rules.specs.Kept.{rules_of};
ghost use Rattle.group_run.specs.Settled.{IsQuiet, IsSettled, IsTrusting};
ghost use Rattle.run_journal.specs.Journal.{plan_of, past_of};
ghost use Rattle.rehearsal.specs.FullAtRest.{FullAtRest};
ghost use Rattle.planned_calls.specs.Calls.{HasNo, MakesEach, MakesPlanned, is_crash, is_suspect};
ghost use Rattle.planned_calls.specs.Sends.{DeliversSends, QuietRunsDeliver};

use order_trait::Ordering;
use run_journal::Journal;

/// Each call of a journal is a planned one, at its member; each thread's calls stand there in their order, and none
/// twice. Once it is settled each planned call stands there.
pub fn journal_makes_calls<O: Ordering>(journal: &Journal<O>)
    ensures planned { MakesPlanned (plan_of journal.now) (past_of journal.now) }
    ensures each { IsSettled (rules_of O.Ordering) (plan_of journal.now) (past_of journal.now) → MakesEach (plan_of journal.now) (past_of journal.now) }
{
    journal.plan();
}

/// A run of a plan without suspicions is trusting; where the plan has no crash either, it is quiet.
pub fn journal_is_calm<O: Ordering>(journal: &Journal<O>)
    ensures trusting { HasNo is_suspect (plan_of journal.now) → IsTrusting (plan_of journal.now) (past_of journal.now) }
    ensures quiet { HasNo is_suspect (plan_of journal.now) → HasNo is_crash (plan_of journal.now) → IsQuiet (plan_of journal.now) (past_of journal.now) }
{
    journal.plan();
}

/// Where calls were answered as full only at rest, the settled quiet run of a journal has each planned send in every log.
pub fn journal_delivers_sends<O: Ordering>(journal: &Journal<O>)
    ensures { FullAtRest (rules_of O.Ordering) (plan_of journal.now) [] (past_of journal.now) → IsSettled (rules_of O.Ordering) (plan_of journal.now) (past_of journal.now)
        → IsQuiet (plan_of journal.now) (past_of journal.now) → DeliversSends (rules_of O.Ordering) (plan_of journal.now) (past_of journal.now) }
{
    journal.plan();
    quiet_runs_deliver_sends();
}

/// A message finds no room only while the group is at rest. There a quiet run has every accepted message in its sender's
/// log, so that nothing is undelivered and there is room: every send is accepted, and at the end it stands in every log.
pub fn quiet_runs_deliver_sends()
    ensures { QuietRunsDeliver }
{}
