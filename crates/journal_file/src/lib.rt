//! The text of a recorded run, and its reading.
#![tactic(auto)]

mod fault;
mod front;
mod limits;
mod lines;
mod reading;
mod replay;
mod stage;
mod text;
mod values;

pub use fault::JournalFault;
pub use limits::MAX_TEXT;
pub use reading::read_journal;
pub use text::journal_text;
