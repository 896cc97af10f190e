//! The kinds, segments and log of one member's versions: what one more input, or one more module, changes of them.
#![tactic(auto)]

ghost use Rattle.group_versions.specs.Served.{ServesKinds};

/// Each version of a member has a kind that is served, where the first kind is.
///
/// A version ends by a switch to a kind that is served alone, and the next version has the kind of that switch.
pub fn kinds_are_served()
    ensures { ServesKinds }
{}
