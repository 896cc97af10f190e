//! A module of any kind that is served.
#![tactic(auto)]

mod laws;
mod module;

pub use laws::{a_run_of_each_kind, every_kind_keeps_the_laws};
pub use module::Module;

#[cfg(test)]
mod tests;
