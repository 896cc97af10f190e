//! What has become of one line in a call: whether it serves, or why it is used no more.

/// How many bytes a frame has at most: an estimate of 32 messages of 256 bytes.
pub const MAX_FRAME: usize = 8_476;

/// A lie of a line: at this place of the bytes that it gave in the call, counted from 0, another byte came than was put.
#[derive(Clone, Copy, Debug, PartialEq, Eq)]
pub struct Lie {
    pub at: u64,
    pub put: u8,
    pub got: u8,
}

/// Whether a line is still used in a call.
#[derive(Clone, Copy, Debug, PartialEq, Eq)]
pub enum LineState {
    /// There is none.
    Missing,
    /// It carries frames; so many bytes came over it in the call.
    Serving(u64),
    /// It has failed.
    Down,
    /// It has lied.
    Lied(Lie),
    /// It stopped within or behind a frame that was not received, for want of memory or of room in the journal, or since the receiver
    /// crashed.
    Stopped,
}
