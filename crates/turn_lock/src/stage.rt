//! The states of a pass: idle, waiting for its ticket's turn, in its turn, or just joined with another pass.
use std::collections::LinkedList;

/// Where a pass stands in its turns.
pub enum Stage<E> {
    /// It is in no turn.
    Idle,
    /// It has drawn this ticket, and waits.
    Waits(u64),
    /// It is in the turn of this ticket, and noted this list, that of the value which it was given.
    Turns(u64, LinkedList<E>),
    /// It took in another pass, and has yet to look: the list that it had seen, and the other's.
    Joined(LinkedList<E>, LinkedList<E>),
}
