//! A queue kept sorted by timestamp and then sender, from which all requests up to a given stamp are released.
ghost use Rattle.std.specs.Prelude.{List, not, nat_le, map, ◌≡◌, ◌<◌, ◌≤◌, [], ◌++◌, All, IfOk, IfSome, IfNone, OnOk, OnErr, option_to_list};
ghost use Rattle.std.specs.List.{filter};
ghost use Rattle.request_queue.specs.Request.{insert};
ghost use Rattle.request_queue.specs.declared.request.Request.{Request};

use crate::request::Request;
use std::alloc::Global;
use std::collections::VecDeque;
use std::marker::Model;
use upd_base::{Item, NoMemory};

/// Requests in ascending order of stamp and sender, those of one stamp and one sender as they came.
#[derive(Drop)]
pub struct RequestQueue {
    requests: VecDeque<Request>,
}

impl Model for RequestQueue {
    ghost use Rattle.std.specs.Prelude.{List, ◌≡◌, true};
    ghost use Rattle.request_queue.specs.declared.request.Request.{Request};
    ghost use Rattle.request_queue.specs.Request.{is_sorted};

    ghost Value = { List Request };

    ghost view = { λ q. q.requests.items };

    ghost invariant = { λ q. is_sorted q.requests.items ≡ true };
}

impl RequestQueue {
    /// An empty one.
    pub fn new(alloc: Global) -> RequestQueue
        ensures { result ≡ [] }
    {
        RequestQueue {
            requests: VecDeque::new(alloc),
        }
    }

    /// Puts a request behind those that stand before it. Without memory nothing changes.
    pub fn insert(&mut self, request: Request) -> Result<(), NoMemory>
        ensures ok { OnOk result (self.new ≡ insert request self.old) }
        ensures err { OnErr result (self.new ≡ self.old) }
    {
        let place = self
            .requests
            .partition_point(|old| old.stands_before(&request));
        self.requests.insert(place, request)?;
        Ok(())
    }

    /// Takes out the first request, where its stamp is at most the limit; None exactly where every
    /// stamp is above the limit.
    pub fn pop_up_to(&mut self, limit: u64) -> Option<Request>
        ensures first { self.old ≡ option_to_list result ++ self.new }
        ensures within { IfSome result (λ request. request.stamp ≤ limit) }
        ensures none { IfNone result (All (λ request. limit < request.stamp) self.old) }
    {
        if self.requests.front()?.stamp > limit {
            return None;
        }
        self.requests.pop_front()
    }

    /// Takes out the requests whose stamps are at most the limit, and appends their items. Without
    /// memory some requests from the front are gone, with or without their items.
    pub fn release_up_to(&mut self, limit: u64, items: &mut Vec<Item>) -> Result<(), NoMemory>
        ensures kept { OnOk result (self.new ≡ filter (λ request. not (nat_le request.stamp limit)) self.old) }
        ensures released { OnOk result (items.new.items ≡ items.old.items ++ map (λ request. request.item) (filter (λ request. nat_le request.stamp limit) self.old)) }
        ensures err { OnErr result ((gone : List Request) × (self.old ≡ gone ++ self.new)) }
    {
        while let Some(request) = self.pop_up_to(limit) {
            items.push(request.item)?;
        }
        Ok(())
    }

    /// The same requests in the same order.
    pub fn copy(&self, alloc: Global) -> Result<RequestQueue, NoMemory>
        ensures { IfOk result (λ queue. queue ≡ self.now) }
    {
        let mut requests = VecDeque::new(alloc);
        for place in 0..self.requests.len() {
            requests.push_back(self.requests[place].copy()?)?;
        }
        Ok(RequestQueue { requests })
    }
}
