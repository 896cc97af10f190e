//! The ordering module of timestamps: items in the order of their senders' clocks.
#![tactic(auto)]

mod heard;
mod lamport;

pub use lamport::LamportOrder;
