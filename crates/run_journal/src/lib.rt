//! The recorded run: a plan, the events that were made, and the world that they leave. The type keeps that the events are
//! a run of the plan, within its bound.
#![tactic(auto)]

mod faults;
mod journal;
mod making;
mod serving;

pub use faults::{CallFault, ReceiveFault, ReleaseFault};
pub use journal::Journal;
pub use serving::serves;
