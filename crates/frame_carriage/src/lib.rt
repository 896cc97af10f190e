//! One frame over one line: it is put in pieces, each is got back and compared, and what came is read as a frame.
#![tactic(auto)]

mod carriage;
mod limits;

pub use carriage::{Came, CarryFault, PIECE, carry};
pub use limits::keeps_limits;
