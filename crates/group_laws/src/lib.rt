//! The theorem at a recorded run, for any ordering modules that keep the four laws. What holds of all runs is proved in `group_order`,
//! `group_fulfilment` and `group_bound`.
#![tactic(auto)]

mod laws;
mod longest;
mod loud;

pub use laws::{
    journal_counts_switches, journal_is_bounded, journal_is_fulfilled, journal_is_ordered,
};
pub use longest::canon;
pub use loud::quiet;
