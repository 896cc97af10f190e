//! What stands between two steps of a worker.

/// A place where a worker may be held up for a while between two of its steps. `pass` always returns. It tells nothing
/// and changes nothing that a clause sees, so what is proved of the workers holds through every gate.
pub trait Gate: Sync {
    /// Lets a worker pass. The turns of a worker count from 0: before its call of number k it passes at turn 2 k, and
    /// after that call at turn 2 k + 1.
    fn pass(&self, worker: usize, turn: u64);
}

/// A gate that lets every worker pass at once.
#[derive(Clone, Copy, Debug)]
pub struct OpenGate;

impl Gate for OpenGate {
    fn pass(&self, _worker: usize, _turn: u64) {}
}
