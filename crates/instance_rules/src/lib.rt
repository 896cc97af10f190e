//! One instance of consensus with a rotating coordinator and a majority, after Chandra and Toueg (1996),
//! in outline: its definition, and the agreement of its runs.
#![tactic(auto)]

ghost use Rattle.instance_rules.specs.Run.{InstanceAgrees, InstanceIsValid};

mod estimate;
mod place;

pub use estimate::Estimate;
pub use place::Place;

/// In every run of one instance, under any suspicions and wherever members stop: two members that have
/// decided have decided the same batch, and it is one that a member started with.
pub fn instance_laws()
    ensures agreement { InstanceAgrees }
    ensures validity { InstanceIsValid }
{}
