//! What stays of a run where its plan goes on: an open group's calls are decided as it runs, so its plan grows with it.
#![tactic(auto)]

ghost use Rattle.group_growth.specs.Laws.{ActsAreRuns, BeginningsFollow, GoOn, LogsGrow, LogsGrowOn, MoreActsGoOn, OpenLogsGrow, OpenRunsKeepTheorem, ReadAlike, RestIsSettled, SaidGoesOn, SaidIsOpen, SaysAtOnce};

use group_fulfilment::quiet_runs_at_rest_are_fulfilled;
use group_order::runs_are_ordered;

/// A run of a plan is a run of each plan that goes on from it, and all that is read of it is the same by either.
pub fn runs_go_on()
    ensures runs { GoOn }
    ensures alike { ReadAlike }
{}

/// A plan with a call more goes on from the plan without it; and where each planned call was made, the call more may be
/// made at once, with the answer that its member gives. Then each planned call is made again.
pub fn calls_are_said_at_once()
    ensures goes_on { SaidGoesOn }
    ensures opens { SaidIsOpen }
    ensures said { SaysAtOnce }
{}

/// For kinds that keep agreement and integrity a member's log only grows, within a run and where its plan goes on.
pub fn logs_only_grow()
    ensures within { LogsGrow }
    ensures on { LogsGrowOn }
{}

/// Acts of which each could come at its place are a run of their plan, in which each planned call was made, so that one at
/// rest is settled. More acts go on from fewer, in plan and events, and a member's log only grows.
pub fn acts_make_open_runs()
    ensures runs { ActsAreRuns }
    ensures beginnings { BeginningsFollow }
    ensures go_on { MoreActsGoOn }
    ensures settled { RestIsSettled }
    ensures logs { OpenLogsGrow }
{}

/// The theorem of open runs, for kinds that keep agreement, integrity and fulfilment.
pub fn open_runs_keep_the_theorem()
    ensures { OpenRunsKeepTheorem }
{
    runs_are_ordered();
    quiet_runs_at_rest_are_fulfilled();
}
