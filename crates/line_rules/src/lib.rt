//! What came over the lines of a group in a call, when a line is used no more, and how a run over lines ends: definitions, and
//! what follows from them.
#![tactic(auto)]

mod line_state;
mod run_end;

pub use line_state::{Lie, LineState, MAX_FRAME};
pub use run_end::RunEnd;
