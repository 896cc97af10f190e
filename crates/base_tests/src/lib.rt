//! The shared types at work: payloads, batches, plans and logs at their limits.
#![tactic(auto)]

#[cfg(test)]
mod types;
