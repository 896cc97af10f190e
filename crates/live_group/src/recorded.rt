//! The entries of the history that passes speak of; they stand in contracts alone.
use upd_base::{Event, Plan};

/// One entry of the list that a shared journal stands for: the plan with which it began, and then each event that was
/// made. No value of it is ever made.
pub enum Recorded {
    /// The journal began with this plan.
    Began(Plan),
    /// This event was made.
    Made(Event),
}
