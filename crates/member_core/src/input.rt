//! The three sorts of input of a member; suspicions and crashes are calls too.
use upd_base::{Call, Frame, MemberId};

/// What comes to a member: a call of the application, a frame of a link, or the release of a frame that it holds.
#[derive(Debug, Drop)]
pub enum Input {
    Call(Call),
    Receive { from: MemberId, frame: Frame },
    Release,
}
