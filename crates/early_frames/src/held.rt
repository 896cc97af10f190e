//! Frames that came before their version was reached, and the release of the earliest whose version now is.
ghost use Rattle.std.specs.Prelude.{◌≡◌, ◌≤◌, ◌+◌, [], ◌∷◌, ◌++◌, OnOk, OnErr, is_some, option_copied};
ghost use Rattle.group_run.specs.Held.{first_ready, waits, without_ready};

use crate::arrivals::{Arrival, first_among, is_reached, put, take_first, waits_among};
use crate::numbers::renumber;
use std::alloc::Global;
use std::collections::VecDeque;
use std::marker::Model;
use upd_base::{Frame, MemberId, NoMemory};

/// Frames with their senders, seen in the order of arrival. They stand by version, those of one version
/// in the order of arrival, so that no call goes through all of them: a version is found by a binary
/// search, and a frame that is put or taken moves those in front of it or those behind it, whichever
/// are fewer.
#[derive(Drop)]
pub struct Held {
    kept: VecDeque<Arrival>,
    /// The number of the next frame, above those of all that are held.
    next: u64,
}

impl Model for Held {
    ghost use Rattle.std.specs.Prelude.{◌-◌, ◌^◌, min};
    ghost use Rattle.std.specs.VecDeque.{deque_len, deque_capacity};
    ghost use Rattle.early_frames.specs.Held.{Kept};
    ghost use Rattle.early_frames.specs.Arrivals.{frames_of, Queued};

    ghost Value = { Kept };

    ghost view = { λ h. record { frames = frames_of h.kept.items; spare = min (deque_capacity h.kept - deque_len h.kept) (2 ^ 64 - 1 - h.next) } };

    ghost invariant = { λ h. Queued h.kept.items h.next };
}

impl Held {
    /// Holds nothing, and takes no memory yet.
    pub fn new(alloc: Global) -> Held
        ensures { result.frames ≡ [] }
    {
        Held {
            kept: VecDeque::new(alloc),
            next: 0,
        }
    }

    /// Appends. After want of memory the frames are as they were.
    pub fn keep(&mut self, from: MemberId, frame: Frame) -> Result<(), NoMemory>
        ensures ok { OnOk result (self.new.frames ≡ self.old.frames ++ (from, frame) ∷ []) }
        ensures err { OnErr result (self.new.frames ≡ self.old.frames) }
    {
        self.reserve()?;
        self.keep_ready(from, frame);
        Ok(())
    }

    /// Whether a frame of this sender and version is held.
    pub fn waits(&self, from: MemberId, version: u16) -> bool
        ensures { result ≡ waits from version self.now.frames }
    {
        waits_among(&self.kept, from, version)
    }

    /// Whether the version of a held frame is at most this one.
    pub fn ready(&self, version: u16) -> bool
        ensures { result ≡ is_some (first_ready version self.now.frames) }
    {
        is_reached(&self.kept, version)
    }

    /// The frame that `release` takes.
    pub fn first(&self, version: u16) -> Option<&(MemberId, Frame)>
        ensures { option_copied result ≡ first_ready version self.now.frames }
    {
        first_among(&self.kept, version)
    }

    /// Takes the first frame, in the order of arrival, whose version is at most this one; None exactly
    /// where there is none. Takes no memory.
    pub fn release(&mut self, version: u16) -> Option<(MemberId, Frame)>
        ensures first { result ≡ first_ready version self.old.frames }
        ensures rest { self.new.frames ≡ without_ready version self.old.frames }
        ensures spare { self.old.spare ≤ self.new.spare }
    {
        take_first(&mut self.kept, version)
    }

    /// Makes room for one frame more. The frames are as they were, also after want of memory.
    pub fn reserve(&mut self) -> Result<(), NoMemory>
        ensures same { self.new.frames ≡ self.old.frames }
        ensures room { OnOk result (1 ≤ self.new.spare) }
        ensures spare { self.old.spare ≤ self.new.spare }
    {
        if self.next == u64::MAX {
            self.next = renumber(&mut self.kept)?;
        }
        self.kept.reserve(1)?;
        Ok(())
    }

    /// Appends into room that was made before. Takes no memory.
    pub fn keep_ready(&mut self, from: MemberId, frame: Frame)
        requires { 1 ≤ self.old.spare }
        ensures frames { self.new.frames ≡ self.old.frames ++ (from, frame) ∷ [] }
        ensures spare { self.old.spare ≤ self.new.spare + 1 }
    {
        put(&mut self.kept, self.next, (from, frame));
        self.next += 1;
    }
}

#[cfg(test)]
mod tests {
    use super::*;
    use std::test::Fail;
    use upd_base::Body;

    fn frame(version: u16, stamp: u64) -> Frame {
        Frame {
            version,
            body: Body::Ack { stamp },
        }
    }

    #[test]
    fn the_order_outlasts_the_numbers(rt: HostRuntime) -> Result<(), Fail> {
        let zero = MemberId::new(0).ok_or("no member")?;
        let one = MemberId::new(1).ok_or("no member")?;
        let mut held = Held {
            kept: VecDeque::new(rt.alloc()),
            next: u64::MAX - 2,
        };
        held.keep(zero, frame(3, 1))?;
        held.keep(one, frame(1, 2))?;
        held.keep(zero, frame(3, 3))?;
        held.keep(one, frame(2, 4))?;
        for stamp in 1..5_u64 {
            let (_, released) = held.release(3).ok_or("nothing is held")?;
            assert!(rt; released.body == Body::Ack { stamp });
        }
        assert_eq!(rt; held.release(3), None);
        Ok(())
    }
}
