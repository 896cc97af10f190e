//! Frames as bytes: the one spelling of each frame, and its reading with the first fault.
#![tactic(auto)]

mod fault;
mod laws;
mod progress;
mod reading;
mod tag;
mod writing;

pub use fault::FrameFault;
pub use laws::spellings;
pub use progress::{Stage, read_on};
pub use reading::{decode, decode_front};
pub use writing::encode;
