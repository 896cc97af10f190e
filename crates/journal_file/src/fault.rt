//! Why a journal is refused: its length, its first bad line, its first bad event, or want of memory.
ghost use Rattle.std.specs.Prelude.{◌≡◌};

use thiserror::Error;
use upd_base::NoMemory;

/// Why bytes are no journal.
#[derive(Clone, Copy, Debug, Error, PartialEq, Eq)]
pub enum JournalFault {
    /// More bytes than the most.
    #[error("too long")]
    TooLong,
    /// This line, from 1, is the first that isn't what the grammar wants there.
    #[error("line {0}")]
    Line(u64),
    /// This event, from 1, is the first that can't be made at its place, or that is answered otherwise.
    #[error("event {0}")]
    Event(u64),
    /// Memory ran out.
    #[error("out of memory")]
    NoMemory,
}

impl From<NoMemory> for JournalFault {
    ghost use Rattle.journal_file.specs.declared.fault.JournalFault.TheVariants.{NoMemory};

    ghost from_gives = { λ _ e. e ≡ NoMemory };

    fn from(_refused: NoMemory) -> JournalFault {
        JournalFault::NoMemory
    }
}
