//! Undelivered messages and switches of one member, after the replacement layer of Rütti,
//! Wojciechowski and Schiper (2006).
#![tactic(auto)]

mod act;
mod repl;

pub use act::Act;
pub use repl::Repl;
