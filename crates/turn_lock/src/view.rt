//! The ghost state of a pass: its parts, the prefix of the history it saw, the places it owns, and its stage.
use crate::stage::Stage;
use std::collections::LinkedList;

/// What a pass knows, as plain data. It stands in proofs alone: no value of it is ever made.
pub struct View<E> {
    /// How many of the lock's parts it has. A view with none is spent: its pass was joined into another.
    pub parts: u64,
    /// A beginning of the lock's list.
    pub seen: LinkedList<E>,
    /// The places of the entries that this pass, or one joined into it, committed.
    pub own: LinkedList<u64>,
    pub stage: Stage<E>,
}
