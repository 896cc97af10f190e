//! What a group run is: the definitions, and what follows from them alone.
//!
//! A group is 1 to 7 members that send each other frames over links, first in, first out. Each member has one ordering
//! module for each version that it has reached. A delivered `Switch` ends a version. The definitions stand in specs/,
//! from the group and one member's versions up to runs and the laws that hold of all of them; the laws are proved by
//! the crates above, each by a function without a body.
#![tactic(auto)]

ghost use Rattle.group_run.specs.Growing.{ReceiptsAdd, ReleasesAdd};
ghost use Rattle.group_run.specs.Laws.{KeepsPrefixes};

/// A run up to any of its events is a run.
///
/// Events stand with the newest first, and whether an event is enabled is said of those behind it alone. So leaving out
/// the newest events leaves a list in which each event is enabled at its place.
pub fn prefixes_are_runs()
    ensures { KeepsPrefixes }
{}

/// Where a member whose inputs are growing processes a frame, the module of the frame's version delivers what it had and
/// maybe more: at a receipt, and at a release.
///
/// The frame's module gets the frame's body in that turn, and no other input.
pub fn frames_add()
    ensures receipts { ReceiptsAdd }
    ensures releases { ReleasesAdd }
{}
