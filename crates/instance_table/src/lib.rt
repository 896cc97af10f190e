//! The instances of consensus in which a member takes part, by number.
#![tactic(auto)]

mod table;

pub use table::Instances;
