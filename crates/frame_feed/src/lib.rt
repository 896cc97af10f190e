//! Frames from a stream of bytes that comes in pieces.
#![tactic(auto)]

mod feed;
mod laws;

pub use feed::Feed;
pub use laws::streams;
