//! Why bytes are no frame.
ghost use Rattle.std.specs.Prelude.{◌≡◌};
ghost use Rattle.upd_frame.specs.declared.fault.FrameFault.TheVariants.{NoMemory};

use std::alloc::{AllocError, AllocFailed};
use thiserror::Error;
use upd_base::NoMemory;

/// Why bytes are no frame: the first fault in the order of the bytes. A place counts from 0 and is that of the
/// field's first byte.
#[derive(Debug, Drop, Error)]
pub enum FrameFault {
    /// The bytes end before a field or within it, and each field before it is good.
    #[error("the frame is cut short")]
    Short,
    /// Bytes stand behind a whole frame; the place is the frame's length.
    #[error("bytes behind the frame's end at {0}")]
    LongTail(usize),
    /// A tag, or a byte that chooses a form, with no meaning.
    #[error("no such tag at {0}")]
    BadTag(usize),
    /// A number out of its limits, or an item that is not behind the one before it.
    #[error("a number out of its limits at {0}")]
    BadNumber(usize),
    /// A byte of a payload that is not printable ASCII.
    #[error("no text at {0}")]
    BadText(usize),
    /// A request for memory was refused.
    #[error("no memory")]
    NoMemory,
}

impl From<NoMemory> for FrameFault {
    ghost from_gives = { λ _ e. e ≡ NoMemory };

    fn from(_refused: upd_base::NoMemory) -> FrameFault {
        FrameFault::NoMemory
    }
}

impl From<AllocError> for FrameFault {
    ghost from_gives = { λ _ e. e ≡ NoMemory };

    fn from(_refused: AllocError) -> FrameFault {
        FrameFault::NoMemory
    }
}

impl<T: Drop> From<AllocFailed<T>> for FrameFault {
    ghost from_gives = { λ _ e. e ≡ NoMemory };

    fn from(_refused: AllocFailed<T>) -> FrameFault {
        FrameFault::NoMemory
    }
}
