//! The outgoing frames of a member, in order.
ghost use Rattle.std.specs.Prelude.{◌≡◌, [], ◌++◌, IfNone, option_to_list};

use std::alloc::Global;
use std::collections::VecDeque;
use std::marker::Model;
use upd_base::{Frame, MemberId};

/// Frames to be sent, each with its receiver, in order.
#[derive(Drop)]
pub struct Sent {
    frames: VecDeque<(MemberId, Frame)>,
}

impl Model for Sent {
    ghost use Rattle.std.specs.Prelude.{ℕ, List};
    ghost use Rattle.upd_base.specs.declared.frame.Frame.{Frame};

    ghost Value = { List (ℕ × Frame) };

    ghost view = { λ s. s.frames.items };
}

impl Sent {
    /// None yet.
    pub fn new(alloc: Global) -> Sent
        ensures { result ≡ [] }
    {
        Sent {
            frames: VecDeque::new(alloc),
        }
    }

    /// These. Takes no memory.
    pub(crate) fn of(frames: Vec<(MemberId, Frame)>) -> Sent
        ensures { result ≡ frames.items }
    {
        Sent {
            frames: VecDeque::from(frames),
        }
    }

    /// Takes out the first; None exactly where there is none.
    pub fn drain_first(&mut self) -> Option<(MemberId, Frame)>
        ensures first { self.old ≡ option_to_list result ++ self.new }
        ensures none { IfNone result (self.old ≡ []) }
    {
        self.frames.pop_front()
    }
}
