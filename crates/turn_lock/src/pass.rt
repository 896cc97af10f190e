//! A fractional permission to take turns, which knows a prefix of the history and which entries there are its own.
ghost use Rattle.std.specs.Prelude.{◌≡◌, ◌<◌, ◌≤◌, true, length};
ghost use Rattle.turn_lock.specs.Places.{Ascends, Ascends-prop};
ghost use Rattle.turn_lock.specs.Stage.{is_settled, slots_at};
ghost use Rattle.turn_lock.specs.View.{known};

use crate::kept::Kept;
use crate::view::View;
use atomic_table::Seat;

/// How many parts a lock's first pass has, and all passes of a lock together.
pub const PARTS: u64 = 1_000_000;

/// The leave to take turns on one lock, and what its holder knows: the list that it has seen, the places of its own
/// entries, and its parts. It has no bytes. A pass that is let go takes its parts with it, and the lock can't be closed
/// any more.
#[derive(Drop)]
pub struct Pass<T: Kept> {
    pub(crate) seat: Seat<Option<T>, View<<T as Kept>::Entry>>,
    // It has a part, and between two calls it is in no turn, or in one and has the value out.
    pub ghost settled: { (0 < seat.me.0.parts) × (is_settled seat.me.0.stage ≡ true) × (seat.me.1 ≡ slots_at seat.me.0.stage) },
    // Its own places rise, and are places in the list that it has seen.
    pub ghost places: { Ascends 0 (length seat.me.0.seen) seat.me.0.own } by { Ascends-prop 0 (length seat.me.0.seen) seat.me.0.own },
    // The list that its turn noted is no shorter than the one that it has seen.
    pub ghost grows: { length seat.me.0.seen ≤ length (known seat.me.0) },
}
