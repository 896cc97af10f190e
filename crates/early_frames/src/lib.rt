//! Frames that a member holds until it may process them.
#![tactic(auto)]

mod arrivals;
mod held;
mod numbers;

pub use held::Held;

#[cfg(test)]
mod tests;
