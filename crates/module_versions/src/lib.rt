//! The modules of one member by version: one for each version that it reached. No other crate uses it: a member keeps its modules
//! itself.
#![tactic(auto)]

mod bound;

pub use bound::Bound;

#[cfg(test)]
mod tests;
