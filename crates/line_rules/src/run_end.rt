//! The ways in which a run over lines can end, with the line at fault where one is.
use upd_base::MemberId;

/// How a run over lines ended.
#[derive(Clone, Copy, Debug, PartialEq, Eq)]
pub enum RunEnd {
    /// Every planned call is made, and nothing can be received or released.
    Settled,
    /// The journal holds as many events as its plan's bound, and the run is not settled.
    Spent,
    /// The line of this link, the lowest that was found so, gave another byte than was put: `got` in the place of `put`, at this
    /// place of the bytes that it gave in the call, counted from 0.
    Lied {
        from: MemberId,
        to: MemberId,
        at: u64,
        put: u8,
        got: u8,
    },
    /// The line of this link, the lowest that was found so, has failed or is not there.
    Down {
        from: MemberId,
        to: MemberId,
    },
    /// A request for memory was refused.
    NoMemory,
}
