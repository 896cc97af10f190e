//! One member whose modules are fixed sequencers, called as an application calls it, and its parts: links, and what is
//! undelivered.
#![tactic(auto)]

#[cfg(test)]
mod again;
#[cfg(test)]
mod events;
#[cfg(test)]
mod links;
#[cfg(test)]
mod tests;
#[cfg(test)]
mod undelivered;
