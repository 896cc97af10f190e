//! What waits, what is decided and what was delivered: batches in the order of their instances, each item
//! once.
#![tactic(auto)]

mod delivery;

pub use delivery::Delivery;
