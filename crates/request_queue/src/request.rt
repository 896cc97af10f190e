//! An item with the logical clock of its sender, and the order of such requests: by clock, and then by sender.
ghost use Rattle.std.specs.Prelude.{◌≡◌, IfOk};
ghost use Rattle.request_queue.specs.Request.{stands_before};

use upd_base::{Item, MemberId, NoMemory};

/// A request to deliver an item: the item with the clock of the member that sent it.
#[derive(Debug, Drop, PartialEq, Eq)]
pub struct Request {
    pub stamp: u64,
    pub from: MemberId,
    pub item: Item,
}

impl Request {
    /// Whether it stands before another: by ascending stamp, and of one stamp by ascending sender. Of
    /// two with one stamp and one sender each stands before the other.
    pub fn stands_before(&self, other: &Request) -> bool
        ensures { result ≡ stands_before self.now other.now }
    {
        self.stamp < other.stamp || (self.stamp == other.stamp && self.from <= other.from)
    }

    /// The same request.
    pub fn copy(&self) -> Result<Request, NoMemory>
        ensures { IfOk result (λ request. request ≡ self.now) }
    {
        Ok(Request {
            stamp: self.stamp,
            from: self.from,
            item: self.item.copy()?,
        })
    }
}
