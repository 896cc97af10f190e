//! A plan that is read of a source.
ghost use Rattle.std.specs.Prelude.{◌≡◌, ◌+◌};
ghost use Rattle.upd_io.specs.Whole.{TakesAtMost};
ghost use Rattle.scenario.specs.declared.root.TheConstants.{MAX_TEXT};
ghost use Rattle.top_calls.specs.Causes.{PlanFrom, refused};

use program_texts::Status;
use scenario::{MAX_TEXT, ScenarioFault, read};
use std::alloc::Global;
use upd_base::{EdgeFault, Plan, Source};
use upd_io::read_all;

/// Reads a plan from the source.
pub(crate) fn plan_from<S: Source>(alloc: Global, source: &mut S) -> Result<Plan, Status>
    ensures taken { TakesAtMost (S.left source.old) (S.left source.new) (MAX_TEXT + 1) }
    ensures from { PlanFrom result (S.faults source.old) (S.faults source.new) (S.left source.old) (S.left source.new) }
{
    let bytes = match read_all(alloc, source, MAX_TEXT) {
        Ok(bytes) => bytes,
        Err(EdgeFault::Failed) => return Err(Status::SourceFailed),
        Err(EdgeFault::NoMemory) => return Err(Status::NoMemory),
    };
    match read(alloc, bytes.as_slice()) {
        Ok(plan) => Ok(plan),
        Err(fault) => Err(refused(fault)),
    }
}

/// The status of a refused scenario. Want of memory has its own.
fn refused(fault: ScenarioFault) -> Status
    ensures { result ≡ refused fault }
{
    match fault {
        ScenarioFault::NoMemory => Status::NoMemory,
        fault => Status::Scenario(fault),
    }
}
