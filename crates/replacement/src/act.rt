//! What a delivery makes a member do: log an item, bind the next protocol, or broadcast a message again in that one.
use upd_base::{Item, Kind};

/// What a member does where the module of its present version delivers.
#[derive(Debug, Drop, PartialEq, Eq)]
pub enum Act {
    /// The item goes into the log.
    Deliver(Item),
    /// A fresh module of this kind is bound.
    Bind(Kind),
    /// The message is broadcast in the fresh module.
    Reissue(Item),
}
