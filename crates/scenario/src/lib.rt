//! The reading of a scenario.
#![tactic(auto)]

mod before;
mod fault;
mod keys;
mod op;
mod root;
mod step;
mod steps;
mod tree;

pub use before::Before;
pub use fault::{PathText, Reason, ScenarioFault};
pub use op::Op;
pub use root::{MAX_TEXT, read};
