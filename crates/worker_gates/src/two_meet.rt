//! A gate at which two workers meet.
ghost use Rattle.std.specs.Prelude.{◌≡◌, ◌+◌, ◌<◌, ◌↔◌, IsTrue, IfSome};

use crate::gate::Gate;
use std::sync::atomic::{AtomicBool, Ordering};
use std::thread;

/// How often a worker looks for the other at most.
const MOST_LOOKS: u64 = 500_000_000;

/// A gate at which the workers 0 and 1 meet after their first calls: each of the two raises its own flag there and
/// waits till it sees the other's, for at most 500,000,000 turns of its thread. Every other worker and every other turn
/// passes at once.
#[derive(Drop)]
pub struct TwoMeet {
    came: [AtomicBool; 2],
    saw: [AtomicBool; 2],
}

/// Whether a worker waits for the other at this turn: the workers 0 and 1 do after their first calls.
fn is_meeting(worker: usize, turn: u64) -> bool
    ensures { IsTrue result ↔ ((worker < 2) × (turn ≡ 1)) }
{
    worker < 2 && turn == 1
}

/// The other one of the workers 0 and 1.
fn other_of(worker: usize) -> usize
    requires { worker < 2 }
    ensures { result + worker ≡ 1 }
{
    1 - worker
}

/// Waits for the flag: how often it was looked for in vain, or None where it was not seen in time. Between two looks
/// another thread may run.
fn looks_in_vain(flag: &AtomicBool) -> Option<u64>
    ensures { IfSome result (λ looks. looks < 500000000) }
{
    for looks in 0..MOST_LOOKS {
        if flag.load(Ordering::SeqCst) {
            return Some(looks);
        }
        thread::yield_now();
    }
    None
}

impl TwoMeet {
    /// A gate to which nobody came yet.
    pub fn new() -> TwoMeet {
        TwoMeet {
            came: [AtomicBool::new(false), AtomicBool::new(false)],
            saw: [AtomicBool::new(false), AtomicBool::new(false)],
        }
    }

    /// Whether each of the two workers saw the other's flag in time. It stays so from then on.
    pub fn met(&self) -> bool {
        self.saw[0].load(Ordering::SeqCst) && self.saw[1].load(Ordering::SeqCst)
    }

    /// Raises the worker's flag, and waits for the other's.
    fn meet(&self, worker: usize)
        requires { worker < 2 }
    {
        self.came[worker].store(true, Ordering::SeqCst);
        if looks_in_vain(&self.came[other_of(worker)]).is_some() {
            self.saw[worker].store(true, Ordering::SeqCst);
        }
    }
}

impl Gate for TwoMeet {
    fn pass(&self, worker: usize, turn: u64) {
        if is_meeting(worker, turn) {
            self.meet(worker);
        }
    }
}
