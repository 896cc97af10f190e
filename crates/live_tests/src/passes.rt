//! A gate that counts.

use std::sync::atomic::{AtomicU64, Ordering};
use worker_gates::Gate;

/// A gate that lets every worker pass at once, and counts how often one passed.
#[derive(Drop)]
pub struct CountingGate {
    passes: AtomicU64,
}

impl CountingGate {
    /// Nobody passed yet.
    pub fn new() -> CountingGate {
        CountingGate {
            passes: AtomicU64::new(0),
        }
    }

    /// How often a worker passed.
    pub fn passes(&self) -> u64 {
        self.passes.load(Ordering::SeqCst)
    }
}

impl Gate for CountingGate {
    fn pass(&self, _worker: usize, _turn: u64) {
        self.passes.fetch_add(1, Ordering::SeqCst);
    }
}
