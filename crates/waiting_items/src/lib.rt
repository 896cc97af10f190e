//! Items that wait to be ordered, by origin and number.
#![tactic(auto)]

mod row;
mod waiting;

pub use waiting::Waiting;
