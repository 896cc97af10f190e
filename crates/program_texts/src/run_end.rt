//! The ways a run stops: settled, at its bound of events, or held up over a line that lied or is down.
use upd_base::MemberId;

/// How a run ended: nothing is left to do, or as many events as the bound were made. A run over lines may also be held
/// up by a line that gave another byte than was put, or by one that is down.
#[derive(Clone, Copy, Debug, PartialEq, Eq)]
pub enum End {
    Settled,
    Spent,
    Lied {
        from: MemberId,
        to: MemberId,
        at: u64,
        put: u8,
        got: u8,
    },
    Down {
        from: MemberId,
        to: MemberId,
    },
}
