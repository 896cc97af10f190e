//! Sets of numbers by row, kept as runs of successive numbers: what comes in ascending order takes next to
//! no memory, however much it is, and is copied at once.
#![tactic(auto)]

mod runs;

pub use runs::NumberRuns;

#[cfg(test)]
mod tests;
