//! The bound: how many events a run without suspicion has at most.
#![tactic(auto)]

ghost use Rattle.group_run.specs.Laws.{BoundsRuns, SettlesAtBound};

/// For kinds that keep agreement, integrity and the bound: a run in which no suspicion was answered as done has at most
/// `bound(plan)` events, and one of so many is settled.
///
/// An event is a call, a receipt or a release. There are no more calls than are planned, and no more releases than
/// receipts, since each releases a frame that was received. The frames that were received were sent as bodies of some
/// version: a version has at most one broadcast for each accepted item, hence at most so many bodies as the kind's bound
/// says of these; and there is one version more than there are switches in the longest log, hence than accepted changes.
/// If one more event were enabled at the bound, the run with it would pass the bound: so none is.
pub fn trusting_runs_are_bounded()
    ensures at_most { BoundsRuns }
    ensures settled { SettlesAtBound }
{}
