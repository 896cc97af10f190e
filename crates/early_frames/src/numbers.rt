//! New arrival numbers for the held frames, whose order stays: no count of arrivals exhausts the numbers.
ghost use Rattle.std.specs.Prelude.{◌≡◌, ◌<◌, ◌+◌, ◌^◌, [], ◌++◌, length, All, AllPairs, IfNone, IfOk, OnErr, option_to_list};
ghost use Rattle.std.specs.VecDeque.{deque_len};
ghost use Rattle.early_frames.specs.Arrivals.{frames_of, Precedes};

use crate::arrivals::{Arrival, first_place, put};
use std::collections::VecDeque;
use upd_base::{Frame, MemberId, NoMemory};

/// Numbers the frames anew, from 0 on, and returns the next number: the numbers of 64 bits run out
/// after so many arrivals. After want of memory they are as they were.
pub fn renumber(kept: &mut VecDeque<Arrival>) -> Result<u64, NoMemory>
    requires { AllPairs Precedes kept.old.items }
    ensures frames { frames_of kept.new.items ≡ frames_of kept.old.items }
    ensures ordered { AllPairs Precedes kept.new.items }
    ensures numbered { IfOk result (λ next. All (λ a. a.number < next) kept.new.items) }
    ensures low { IfOk result (λ next. next < 2 ^ 63) }
    ensures err { OnErr result (kept.new.items ≡ kept.old.items) }
{
    let mut fresh = VecDeque::with_capacity(*kept.allocator(), kept.len())?;
    let mut next = 0;
    while let Some(frame) = take_oldest(kept) {
        put(&mut fresh, next, frame);
        next += 1;
    }
    *kept = fresh;
    Ok(next)
}

/// Takes the frame that arrived first.
fn take_oldest(kept: &mut VecDeque<Arrival>) -> Option<(MemberId, Frame)>
    requires { AllPairs Precedes kept.old.items }
    ensures frames { frames_of kept.old.items ≡ option_to_list result ++ frames_of kept.new.items }
    ensures ordered { AllPairs Precedes kept.new.items }
    ensures len { deque_len kept.new + length (option_to_list result) ≡ deque_len kept.old }
    ensures none { IfNone result (kept.old.items ≡ []) }
{
    let count = kept.len();
    if count == 0 {
        return None;
    }
    let place = first_place(kept, count);
    let arrival = kept.remove(place)?;
    Some(arrival.frame)
}
