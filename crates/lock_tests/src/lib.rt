//! The lock with history and the group shared under it, used by one thread and by several.
#![tactic(auto)]

#[cfg(test)]
mod group;
#[cfg(test)]
mod lock;
