//! Whole groups of modules of any kind, run from scenarios to their end.
#![tactic(auto)]

#[cfg(test)]
mod crashes;
#[cfg(test)]
mod tests;
