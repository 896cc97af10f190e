//! The queue into which an ordering module puts what it sends; its caller takes the bodies out in the same order.
ghost use Rattle.std.specs.Prelude.{ℕ, true, ◌≡◌, ◌<◌, ◌≤◌, [], ◌∷◌, ◌++◌, OnOk, OnErr, IfNone, option_to_list};
ghost use Rattle.upd_base.specs.Body.{BodyFits, is_body};
ghost use Rattle.order_trait.specs.Outbox.{to_all, Grows, SendFits};

use std::alloc::Global;
use std::collections::VecDeque;
use std::marker::Model;
use upd_base::{Body, MemberId, NoMemory};

/// Bodies that wait to be sent, each with its receiver, in the order in which they are to go.
#[derive(Drop)]
pub struct Outbox {
    bodies: VecDeque<(MemberId, Body)>,
}

impl Model for Outbox {
    ghost use Rattle.std.specs.Prelude.{ℕ, List};
    ghost use Rattle.upd_base.specs.declared.body.Body.{Body};

    ghost Value = { List (ℕ × Body) };

    ghost view = { λ o. o.bodies.items };
}

impl Outbox {
    /// An empty one.
    pub fn new(alloc: Global) -> Outbox
        ensures { result ≡ [] }
    {
        Outbox {
            bodies: VecDeque::new(alloc),
        }
    }

    /// Appends a body. Without memory nothing is appended.
    pub fn push(&mut self, to: MemberId, body: Body) -> Result<(), NoMemory>
        ensures ok { OnOk result (self.new ≡ self.old ++ (to, body) ∷ []) }
        ensures err { OnErr result (self.new ≡ self.old) }
    {
        self.bodies.push_back((to, body))?;
        Ok(())
    }

    /// Appends a copy of the body to each member below n, in ascending order; n is at most 7. Without
    /// memory the copies to the first so many members are appended.
    pub fn push_all(&mut self, alloc: Global, n: u8, body: &Body) -> Result<(), NoMemory>
        requires { n ≤ 7 }
        ensures ok { OnOk result (self.new ≡ self.old ++ to_all n body.now) }
        ensures err { OnErr result ((k : ℕ) × (k < n) × (self.new ≡ self.old ++ to_all k body.now)) }
        ensures fits { BodyFits n body.now → is_body body.now ≡ true → Grows (SendFits n) self.old self.new }
    {
        for to in 0..n {
            if let Some(member) = MemberId::new(to) {
                self.push(member, body.copy(alloc)?)?;
            }
        }
        Ok(())
    }

    /// Takes out the first body; None exactly where there is none.
    pub fn drain_first(&mut self) -> Option<(MemberId, Body)>
        ensures first { self.old ≡ option_to_list result ++ self.new }
        ensures none { IfNone result (self.old ≡ []) }
    {
        self.bodies.pop_front()
    }
}
