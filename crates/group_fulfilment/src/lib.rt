//! Composition, second part: a settled quiet run has delivered everything everywhere.
#![tactic(auto)]

ghost use Rattle.group_run.specs.Laws.{FulfilsRuns};
ghost use Rattle.group_fulfilment.specs.AtRest.{FulfilsAtRest};

/// For kinds that keep agreement, integrity and fulfilment: a settled quiet run has every accepted message in every log,
/// and all members have one version.
///
/// Nothing can be received or released, and nobody crashed: so at each member that reached a version every body of it was
/// taken, and by fulfilment each item broadcast in a version that all reached was delivered at all. The switch that ended
/// a version at one member was so delivered at every member, and ended it there: what one reached all reached. An
/// accepted message stands in its origin's log, or was broadcast in the newest version; there no segment ends, so what was
/// delivered is in every log.
pub fn settled_quiet_runs_are_fulfilled()
    ensures { FulfilsRuns }
{}

/// The same of a quiet run in which nothing can be received or released, also where calls are left.
pub fn quiet_runs_at_rest_are_fulfilled()
    ensures { FulfilsAtRest }
{}
