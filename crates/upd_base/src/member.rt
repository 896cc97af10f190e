//! A member's identity as a type: by its invariant it is below 7, whatever the size of the group.
ghost use Rattle.std.specs.Prelude.{◌≡◌, ℕ, ◌<◌, ◌≤◌, IfSome, IfNone};

use crate::limits::MAX_MEMBERS;
use std::marker::Model;

/// A member of the group: a number from 0 to 6.
#[derive(Clone, Copy, Debug, PartialEq, Eq, PartialOrd, Ord)]
pub struct MemberId {
    id: u8,
}

impl Model for MemberId {
    ghost use Rattle.std.specs.Prelude.{ℕ, ◌<◌};

    ghost Value = { ℕ };

    ghost view = { λ m. m.id };

    ghost invariant = { λ m. m.id < 7 };

    ghost inverse = { λ n. record { id = n } };
}

impl MemberId {
    /// None exactly where the number is above 6.
    pub fn new(id: u8) -> Option<MemberId>
        ensures some { IfSome result (λ m. m ≡ id) }
        ensures none { IfNone result (7 ≤ id) }
    {
        if id < MAX_MEMBERS {
            Some(MemberId { id })
        } else {
            None
        }
    }

    /// Its number, from 0 to 6.
    pub fn get(self) -> u8
        ensures value { result ≡ self }
        ensures range { result < 7 }
    {
        self.id
    }
}

/// The member of this number, which is known to be below 7.
pub fn member_at(id: u8) -> MemberId
    requires { id < 7 }
    ensures { result ≡ id }
{
    MemberId { id }
}
