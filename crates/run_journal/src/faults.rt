//! Why a journal refuses an event: spent, nothing to do, another frame than was sent, a crash, or want of memory.
ghost use Rattle.std.specs.Prelude.{◌≡◌};

use upd_base::{Frame, NoMemory};

/// Why a call isn't made.
#[derive(Debug, Drop, PartialEq, Eq)]
pub enum CallFault {
    /// The thread's calls are all made.
    PlanDone,
    /// The journal holds as many events as the plan's bound.
    Spent,
    NoMemory,
}

/// Why a frame isn't received.
#[derive(Debug, Drop, PartialEq, Eq)]
pub enum ReceiveFault {
    /// The receiver has crashed.
    Crashed,
    /// The link has no frame that was not received.
    Nothing,
    /// The link's next frame is another one.
    Differs { sent: Frame, got: Frame },
    /// The journal holds as many events as the plan's bound.
    Spent,
    NoMemory,
}

/// Why a held frame isn't released.
#[derive(Debug, Drop, PartialEq, Eq)]
pub enum ReleaseFault {
    /// The journal holds as many events as the plan's bound.
    Spent,
    NoMemory,
}

impl From<NoMemory> for CallFault {
    ghost use Rattle.run_journal.specs.declared.faults.CallFault.TheVariants.{NoMemory};

    ghost from_gives = { λ _ e. e ≡ NoMemory };

    fn from(_refused: NoMemory) -> CallFault {
        CallFault::NoMemory
    }
}

impl From<NoMemory> for ReceiveFault {
    ghost use Rattle.run_journal.specs.declared.faults.ReceiveFault.TheVariants.{NoMemory};

    ghost from_gives = { λ _ e. e ≡ NoMemory };

    fn from(_refused: NoMemory) -> ReceiveFault {
        ReceiveFault::NoMemory
    }
}

impl From<NoMemory> for ReleaseFault {
    ghost use Rattle.run_journal.specs.declared.faults.ReleaseFault.TheVariants.{NoMemory};

    ghost from_gives = { λ _ e. e ≡ NoMemory };

    fn from(_refused: NoMemory) -> ReleaseFault {
        ReleaseFault::NoMemory
    }
}
