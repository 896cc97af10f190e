//! The calls of the program, from the bytes that a source has to the bytes that a sink gets: `plain` on one thread and `live` with
//! threads over lines.
#![tactic(auto)]

mod check;
mod commands;
mod generate;
mod journal;
mod journal_input;
mod line_runs;
mod making;
mod outcome;
mod refusals;
mod scenario_input;
mod scenario_runs;
mod writing;

pub use commands::plain;
pub use line_runs::live;
pub use outcome::Outcome;
