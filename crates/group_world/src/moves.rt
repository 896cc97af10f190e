//! What a schedule of a group chooses among: calls, receipts and releases.
use upd_base::MemberId;

/// What may be chosen next in a group.
#[derive(Clone, Copy, Debug, PartialEq, Eq)]
pub enum Move {
    /// The next call of this thread.
    Call(u8),
    /// The receipt of the first frame on the link from one member to another.
    Receive(MemberId, MemberId),
    /// The release of the first held frame whose version this member has reached.
    Release(MemberId),
}
