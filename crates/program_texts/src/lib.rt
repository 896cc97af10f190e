//! How the program ends, and the texts that it writes: refusals, reports with their last line, journals.
#![tactic(auto)]

mod run_end;
mod status;
mod texts;

pub use run_end::End;
pub use status::Status;
pub use texts::{checked_text, refusal_text, run_text};
