//! Lines: what carries the bytes of frames from one member to another.
#![tactic(auto)]

mod line;

pub use line::{Line, LineMaker};
