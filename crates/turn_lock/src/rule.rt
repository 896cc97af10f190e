//! The shared invariant of the lock: two counters, of tickets drawn and turns finished, and one slot for the value.
use crate::kept::Kept;
use crate::view::View;
use atomic_table::TableRule;
use std::snapshot::Snapshot;

/// The rule of the lock's table: word 0 counts the tickets drawn, word 1 the turns finished, and the one slot is for
/// the value. The key is the value that the lock was made of.
pub struct LockRule;

impl<T: Kept> TableRule<Option<T>, View<T::Entry>, Snapshot<T>> for LockRule {
    ghost use Rattle.turn_lock.specs.Rule.{Keeps};
    ghost use Rattle.turn_lock.specs.View.{first_view};

    ghost holds = { λ k. Keeps T.list (T.list k.value) };

    ghost first = { λ k. first_view (T.list k.value) };
}
