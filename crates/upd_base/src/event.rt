//! The three atomic events of a run, of which a recorded run is a list: a call, a receipt, a release.
use crate::answer::Answer;
use crate::member::MemberId;

/// One atomic step of a group: one call, one receipt or one release, with all that it changes at one
/// member and all frames that this member sends.
#[derive(Clone, Copy, Debug, PartialEq, Eq)]
pub enum Event {
    /// The planned call of this thread and index, at this member, with this answer.
    Call {
        thread: u8,
        index: u16,
        member: MemberId,
        answer: Answer,
    },
    /// The first frame of this link is received.
    Receive {
        from: MemberId,
        to: MemberId,
    },
    /// The first held frame whose version the member has reached is processed.
    Release {
        at: MemberId,
    },
}
