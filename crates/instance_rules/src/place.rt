//! A member's state in one instance of consensus, as far as one round hands it to the next.
ghost use Rattle.std.specs.Prelude.{◌≡◌, IfOk};

use crate::estimate::Estimate;
use std::alloc::Global;
use upd_base::NoMemory;

/// Where a member stands in an instance: its round, its estimate, and whether it has replied in this
/// round. Before it takes part its round is 0, and its estimate means nothing.
#[derive(Debug, Drop)]
pub struct Place {
    pub round: u64,
    pub held: Estimate,
    pub replied: bool,
}

impl Place {
    /// The same place.
    pub fn copy(&self, alloc: Global) -> Result<Place, NoMemory>
        ensures { IfOk result (λ place. place ≡ self.now) }
    {
        Ok(Place {
            round: self.round,
            held: self.held.copy(alloc)?,
            replied: self.replied,
        })
    }
}
