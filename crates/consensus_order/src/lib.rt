//! The ordering module of consensus: instances in order, each deciding a batch of items.
#![tactic(auto)]

mod consensus;
mod ordering;

pub use consensus::ConsensusOrder;
