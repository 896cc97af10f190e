//! The value that a member holds for an instance of consensus, stamped with the round in which it was adopted.
ghost use Rattle.std.specs.Prelude.{◌≡◌, IfOk};

use std::alloc::Global;
use upd_base::{Batch, NoMemory};

/// A batch with its stamp: the round in which the member took it over, 0 where the member began with
/// it.
#[derive(Debug, Drop)]
pub struct Estimate {
    pub stamp: u64,
    pub batch: Batch,
}

impl Estimate {
    /// The same estimate.
    pub fn copy(&self, alloc: Global) -> Result<Estimate, NoMemory>
        ensures { IfOk result (λ estimate. estimate ≡ self.now) }
    {
        Ok(Estimate {
            stamp: self.stamp,
            batch: self.batch.copy(alloc)?,
        })
    }
}
