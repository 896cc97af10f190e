//! Reliable broadcast by diffusion, after Chandra and Toueg (1996), in outline: at the first receipt of
//! a message each member passes it on, so that what one member receives, all that are up receive.
#![tactic(auto)]

mod rb;

pub use rb::{Rb, Seen};

#[cfg(test)]
mod tests;
