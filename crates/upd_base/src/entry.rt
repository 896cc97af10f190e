//! A delivery as it stands in a log: the item, and which protocol version ordered it.
use crate::item::Item;

/// One item of a log, with the version that ordered it.
#[derive(Debug, Drop, PartialEq, Eq)]
pub struct Entry {
    pub version: u16,
    pub item: Item,
}
