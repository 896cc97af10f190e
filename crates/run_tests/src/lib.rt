//! The runs of a journal: its members and links, its calls and receipts, rehearsals, and texts that are read back.
#![tactic(auto)]

#[cfg(test)]
mod calls;
#[cfg(test)]
mod reading;
#[cfg(test)]
mod rehearsing;
#[cfg(test)]
mod world;
