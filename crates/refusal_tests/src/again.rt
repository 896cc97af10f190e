//! Events that are made once more where memory is refused: the refusal is to have left the run as it was.
ghost use Rattle.std.specs.Prelude.{◌≡◌, ◌<◌};
ghost use Rattle.run_journal.specs.Journal.{plan_of};

use crate::asked::member;
use module_binding::Module;
use run_journal::{CallFault, Journal, ReleaseFault};
use std::alloc::Global;
use std::test::*;

/// How many events were made, and whether the run is settled.
fn reached(journal: &Journal<Module>) -> (u64, bool) {
    (journal.len(), journal.settled())
}

fn unchanged(journal: &Journal<Module>, before: (u64, bool)) -> Result<(), Fail> {
    if reached(journal) != before {
        return Err("a refusal that changed the run")?;
    }
    Ok(())
}

/// Makes the next call of thread 0, where it has one that is not answered as full.
pub fn call_again(alloc: Global, journal: &mut Journal<Module>) -> Result<(), Fail> {
    if journal.plan().threads() == 0 || journal.would_fill(0) {
        return Ok(());
    }
    let before = reached(journal);
    if journal.call(alloc, 0) != Err(CallFault::NoMemory) {
        return Ok(());
    }
    unchanged(journal, before)?;
    if journal.call(alloc, 0) == Err(CallFault::NoMemory) {
        return Err("a second refusal")?;
    }
    Ok(())
}

/// Receives what a link has next.
pub fn receive_again(
    alloc: Global,
    journal: &mut Journal<Module>,
    from: u8,
    to: u8,
) -> Result<(), Fail> {
    let members = journal.plan().members();
    if from >= members || to >= members {
        return Ok(());
    }
    let sender = member(from)?;
    let receiver = member(to)?;
    let before = reached(journal);
    if journal.receive_next(alloc, sender, receiver) != Err(ReleaseFault::NoMemory) {
        return Ok(());
    }
    unchanged(journal, before)?;
    if journal.receive_next(alloc, sender, receiver) == Err(ReleaseFault::NoMemory) {
        return Err("a second refusal")?;
    }
    Ok(())
}

/// Releases what a member holds.
pub fn release_again(alloc: Global, journal: &mut Journal<Module>, at: u8) -> Result<(), Fail> {
    if at >= journal.plan().members() {
        return Ok(());
    }
    let before = reached(journal);
    if journal.release(alloc, member(at)?) != Err(ReleaseFault::NoMemory) {
        return Ok(());
    }
    unchanged(journal, before)?;
    if journal.release(alloc, member(at)?) == Err(ReleaseFault::NoMemory) {
        return Err("a second refusal")?;
    }
    Ok(())
}
