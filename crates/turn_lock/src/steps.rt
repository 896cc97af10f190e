//! The atomic steps on the lock's shared state, each with its relation of what was before and after.

// The kinds of step on the lock's table, by what each tells its caller.
use crate::kept::Kept;
use crate::view::View;
use atomic_table::{Join, Play, Split};

/// Draws a ticket.
pub(crate) struct Draw;

impl<T, E> Play<Option<T>, View<E>> for Draw {
    ghost use Rattle.turn_lock.specs.Steps.{Drew};

    ghost then = { Drew };
}

/// Looks at the turns finished, and takes the value where the ticket is next.
pub(crate) struct Look;

impl<T: Kept> Play<Option<T>, View<T::Entry>> for Look {
    ghost use Rattle.turn_lock.specs.Steps.{Looked};

    ghost then = { Looked T.list };
}

/// Finishes the turn, and gives the value back.
pub(crate) struct Finish;

impl<T: Kept> Play<Option<T>, View<T::Entry>> for Finish {
    ghost use Rattle.turn_lock.specs.Steps.{Finished};

    ghost then = { Finished T.list };
}

/// Compares the two lists of a pass that took in another.
pub(crate) struct Compare;

impl<T, E> Play<Option<T>, View<E>> for Compare {
    ghost use Rattle.turn_lock.specs.Steps.{Compared};

    ghost then = { Compared };
}

/// How a pass gives up one part, and takes in another pass.
pub(crate) struct Parts;

impl<E> Split<View<E>> for Parts {
    ghost use Rattle.turn_lock.specs.View.{less_one_part, one_part_of};

    ghost left = { less_one_part };

    ghost right = { one_part_of };
}

impl<E> Join<View<E>> for Parts {
    ghost use Rattle.turn_lock.specs.View.{both_views, spent_view};

    ghost both = { both_views };

    ghost spent = { spent_view };
}
