//! Projection: what the modules of one version do in a group run is a run of modules of one kind. So what a module
//! delivered stays, on which the contract of one member rests.
#![tactic(auto)]

ghost use Rattle.group_run.specs.Laws.{GivesInputs, GrowsRuns, ProjectsRuns};

/// For kinds that keep agreement and integrity: in each group run all members that reached a version have one kind of it,
/// and the projection on it is a module run of that kind. The inputs of a member's modules are those that the projections
/// give it; this holds for every list of events, and whatever the kinds do.
///
/// The proof goes move by move, and within a move step by step: a step in a module, or a fresh module, leaves a world
/// (the modules of all, the frames sent, the projections) in which all this holds. A body that is taken is the next of its
/// link in the projection, since links keep the order of each version. What a member broadcasts is new, since its numbers
/// ascend, and what it broadcasts again stands in no segment of an earlier version. A fresh module has one kind at all
/// members: by agreement, members that ended a version have the same segment of it, hence the same switch.
pub fn projections_are_runs()
    ensures runs { ProjectsRuns }
    ensures inputs { GivesInputs }
{}

/// For kinds that keep agreement and integrity the inputs of each member of a group run are growing: at each of them what
/// a module delivered stays in front of what it delivers after, and the next number was in no entry of the log.
///
/// Each step of a turn is one of a module run, and in a module run what was delivered stays, by agreement. An entry of
/// the log was accepted by its origin, and what a member accepted has a lower number than the next. This is what the
/// contract of one member relies on, which knows its own inputs and not the run.
pub fn inputs_are_growing()
    ensures { GrowsRuns }
{}
