//! Scenarios that are generated from a seed.
#![tactic(auto)]

mod draw;
mod scenario_text;
mod write;

pub use scenario_text::generate;
