//! What holds of one member whatever it is given: what it accepts and broadcasts, how many inputs its modules get, and
//! that it stays quiet where nothing disturbs it.
#![tactic(auto)]

ghost use Rattle.group_members.specs.Accepted.{AcceptsAlike};

/// What the members accepted is what the events of the run accepted, each item at its origin.
///
/// A call that is answered `Accepted` adds one item to its member, no other input adds one, and none takes one away.
pub fn accepted_items_are_kept()
    ensures { AcceptsAlike }
{}
