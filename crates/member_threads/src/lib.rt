//! Members as threads: one worker makes the calls of each thread of a plan, and one serves each link through its line. They share the
//! journal in turns, and what they leave is made on one thread.
#![tactic(auto)]

mod calling;
mod chains;
mod running;
mod serving;
mod step;

pub use running::run_threads;
