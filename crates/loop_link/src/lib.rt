//! Lines by TCP on 127.0.0.1, both ends in this process: what carries the bytes of a link. They tell how many bytes were put and got,
//! and no bytes.
#![tactic(auto)]

mod loop_line;
mod loop_lines;
mod tries;

pub use loop_line::LoopLine;
pub use loop_lines::LoopLines;

#[cfg(test)]
mod tests;
