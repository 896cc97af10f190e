//! One member's share of one instance of consensus with a rotating coordinator and a majority, after
//! Chandra and Toueg (1996), in outline.
#![tactic(auto)]

mod ballot;
mod ballots;
mod instance;
mod laws;
mod moves;
mod open_rounds;
mod running;
mod seat;
mod stance;
mod state;

pub use instance::Instance;
pub use laws::stands_longer;
