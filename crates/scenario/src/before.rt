//! Running counts while a scenario is read, for the limits of its calls and of its changes.
ghost use Rattle.std.specs.Prelude.{◌≡◌, ◌<◌};
ghost use Rattle.scenario.specs.Reading.{after};

use upd_base::{Call, MAX_CALLS, Step};

/// How many steps of the scenario, and how many changes among them, stand before.
#[derive(Clone, Copy, Debug, PartialEq, Eq)]
pub struct Before {
    pub steps: u64,
    pub changes: u64,
}

impl Before {
    pub(crate) fn after(self, step: &Step) -> Before
        requires steps { self.steps < MAX_CALLS }
        requires changes { self.changes < MAX_CALLS }
        ensures { result ≡ after self step.now }
    {
        let changes = match &step.call {
            Call::Change(_) => self.changes + 1,
            _ => self.changes,
        };
        Before {
            steps: self.steps + 1,
            changes,
        }
    }
}
