//! Scenarios: read with their first fault, and generated from a seed.
#![tactic(auto)]

#[cfg(test)]
mod generating;
#[cfg(test)]
mod reading;
