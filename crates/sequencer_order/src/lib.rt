//! The ordering module of the fixed sequencer: items in the order of one member.
#![tactic(auto)]

mod sequencer;

pub use sequencer::SequencerOrder;
