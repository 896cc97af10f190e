//! Consensus at work: what waits, one instance at a member and all of its instances, decisions that are delivered, and
//! members that order by a sequence of instances.
#![tactic(auto)]

#[cfg(test)]
mod delivery;
#[cfg(test)]
mod given;
#[cfg(test)]
mod instance;
#[cfg(test)]
mod instances;
#[cfg(test)]
mod ordering;
#[cfg(test)]
mod waiting;
