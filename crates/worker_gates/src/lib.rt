//! Gates between the steps of workers: places where a worker may be held up for a while, which tell nothing.
#![tactic(auto)]

mod gate;
mod two_meet;

pub use gate::{Gate, OpenGate};
pub use two_meet::TwoMeet;

#[cfg(test)]
mod tests;
