//! The shared group: one journal under the lock with history, and the calls that threads make on it. Each call takes one
//! turn and makes at most one event. What a pass has seen is a beginning of the journal's events, and the places of its
//! own events are known.
#![tactic(auto)]

mod group;
mod kept_journal;
mod offer;
mod recorded;

pub use group::{GroupPass, LiveGroup};
pub use kept_journal::KeptJournal;
pub use offer::Offer;
pub use recorded::Recorded;
