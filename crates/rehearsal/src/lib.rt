//! The two schedules by which a run is rehearsed on one thread.
#![tactic(auto)]

mod choices;
mod draws;
mod rehearsed;
mod rounds;
mod visit;

pub use draws::seeded;
pub use rehearsed::{RehearsalEnd, Rehearsed};
pub use rounds::round_robin;
