//! A queue of held frames, sorted by version and then by arrival: how the earliest one that may go is found.
ghost use Rattle.std.specs.Prelude.{ℕ, ◌≡◌, ◌<◌, ◌≤◌, ◌+◌, [], ◌∷◌, ◌++◌, length, All, AllPairs, is_some, option_copied};
ghost use Rattle.std.specs.List.{AllWithin};
ghost use Rattle.std.specs.VecDeque.{deque_len, deque_capacity};
ghost use Rattle.early_frames.specs.Arrivals.{frames_of, version_of, IsEarliest, Precedes};
ghost use Rattle.group_run.specs.Held.{first_ready, waits, without_ready};

use std::collections::VecDeque;
use upd_base::{Frame, MemberId};

/// A frame with its sender, and its number in the order of arrival.
#[derive(Drop)]
pub struct Arrival {
    pub number: u64,
    pub frame: (MemberId, Frame),
}

/// How many have versions up to this one: they stand in front.
pub fn count_up_to(kept: &VecDeque<Arrival>, version: u16) -> usize
    requires { AllPairs Precedes kept.now.items }
    ensures within { result ≤ deque_len kept.now }
    ensures below { AllWithin (λ a. version_of a ≤ version) kept.now.items 0 result }
    ensures above { AllWithin (λ a. version < version_of a) kept.now.items result (length kept.now.items) }
{
    kept.partition_point(|arrival| arrival.frame.1.version <= version)
}

/// Whether there is one whose version is reached. Only the first is looked at.
pub fn is_reached(kept: &VecDeque<Arrival>, version: u16) -> bool
    requires { AllPairs Precedes kept.now.items }
    ensures { result ≡ is_some (first_ready version (frames_of kept.now.items)) }
{
    match kept.front() {
        Some(first) => first.frame.1.version <= version,
        None => false,
    }
}

/// The place of the one that arrived first, of so many from the front. Of each version only the
/// first is looked at.
pub fn first_place(kept: &VecDeque<Arrival>, count: usize) -> usize
    requires ordered { AllPairs Precedes kept.now.items }
    requires some { 0 < count }
    requires within { count ≤ deque_len kept.now }
    ensures { IsEarliest kept.now.items count result }
{
    let mut first = 0;
    let mut at = count_up_to(kept, kept[0].frame.1.version);
    while at < count {
        if kept[at].number < kept[first].number {
            first = at;
        }
        at = count_up_to(kept, kept[at].frame.1.version);
    }
    first
}

/// The frame that arrived first, of those whose version is reached.
pub fn first_among(kept: &VecDeque<Arrival>, version: u16) -> Option<&(MemberId, Frame)>
    requires { AllPairs Precedes kept.now.items }
    ensures { option_copied result ≡ first_ready version (frames_of kept.now.items) }
{
    let reached = count_up_to(kept, version);
    if reached == 0 {
        return None;
    }
    let place = first_place(kept, reached);
    Some(&kept[place].frame)
}

/// Takes the frame that arrived first, of those whose version is reached.
pub fn take_first(kept: &mut VecDeque<Arrival>, version: u16) -> Option<(MemberId, Frame)>
    requires { AllPairs Precedes kept.old.items }
    ensures first { result ≡ first_ready version (frames_of kept.old.items) }
    ensures rest { frames_of kept.new.items ≡ without_ready version (frames_of kept.old.items) }
    ensures ordered { AllPairs Precedes kept.new.items }
    ensures numbered { (n : ℕ) → All (λ a. a.number < n) kept.old.items → All (λ a. a.number < n) kept.new.items }
    ensures len { deque_len kept.new ≤ deque_len kept.old }
    ensures capacity { deque_capacity kept.new ≡ deque_capacity kept.old }
{
    let reached = count_up_to(kept, version);
    if reached == 0 {
        return None;
    }
    let place = first_place(kept, reached);
    let arrival = kept.remove(place)?;
    Some(arrival.frame)
}

/// Puts a frame behind those of its version, into room that was made before.
pub fn put(kept: &mut VecDeque<Arrival>, number: u64, frame: (MemberId, Frame))
    requires ordered { AllPairs Precedes kept.old.items }
    requires newest { All (λ a. a.number < number) kept.old.items }
    requires room { deque_len kept.old < deque_capacity kept.old }
    ensures frames { frames_of kept.new.items ≡ frames_of kept.old.items ++ frame ∷ [] }
    ensures ordered { AllPairs Precedes kept.new.items }
    ensures numbered { All (λ a. a.number < number + 1) kept.new.items }
    ensures len { deque_len kept.new ≡ deque_len kept.old + 1 }
    ensures capacity { deque_capacity kept.old ≤ deque_capacity kept.new }
{
    let place = count_up_to(kept, frame.1.version);
    // There is room, so it is not refused.
    drop(kept.insert(place, Arrival { number, frame }));
}

/// Whether a frame of this sender and version is among them. Only those of this version are looked
/// at.
pub fn waits_among(kept: &VecDeque<Arrival>, from: MemberId, version: u16) -> bool
    requires { AllPairs Precedes kept.now.items }
    ensures { result ≡ waits from version (frames_of kept.now.items) }
{
    let mut at = count_up_to(kept, version);
    while at > 0 && kept[at - 1].frame.1.version == version {
        at -= 1;
        if kept[at].frame.0 == from {
            return true;
        }
    }
    false
}
