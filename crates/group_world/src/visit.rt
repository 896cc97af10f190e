//! One input on its way to one member: what a move of the group comes to before it is prepared.
use member_core::Input;
use upd_base::MemberId;

/// A member and the input that it is to have.
#[derive(Drop)]
pub struct Visit {
    pub at: MemberId,
    pub input: Input,
}
