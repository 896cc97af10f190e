//! Runs over lines in memory: with one thread for all, and with a thread for each that calls and each link.
#![tactic(auto)]

#[cfg(test)]
mod finishing;
#[cfg(test)]
mod making;
#[cfg(test)]
mod threads;
