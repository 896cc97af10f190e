//! The report of a recorded run.
#![tactic(auto)]

mod absent;
mod counts;
mod lines;
mod text;

pub use text::report_text;
