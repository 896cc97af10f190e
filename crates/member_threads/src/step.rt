//! What one step of a worker came to: whether it made an event, and whether the worker goes on.

/// What became of a step of a worker.
#[derive(Clone, Copy, Debug, PartialEq, Eq)]
pub(crate) enum Step {
    /// It made an event.
    Went,
    /// It made none, and may make one later.
    Nothing,
    /// The worker ends.
    Ended,
    /// A request for memory was refused.
    Wanted,
}
