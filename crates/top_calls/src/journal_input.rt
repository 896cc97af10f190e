//! A journal that is read of a source.
ghost use Rattle.std.specs.Prelude.{◌≡◌, ◌+◌, IfErr, IfOk, IfSome, OnOk};
ghost use Rattle.std.specs.Io.KnownBytes.{IsAtEnd};
ghost use Rattle.upd_io.specs.Whole.{TakesAtMost};
ghost use Rattle.run_journal.specs.Journal.{events_of, plan_of};
ghost use Rattle.journal_file.specs.declared.limits.TheConstants.{MAX_TEXT};
ghost use Rattle.journal_file.specs.Reading.{IsJournalText};
ghost use Rattle.top_calls.specs.Checked.{JournalCause, journal_refused};

use journal_file::{JournalFault, MAX_TEXT, read_journal};
use module_binding::Module;
use program_texts::Status;
use run_journal::Journal;
use std::alloc::Global;
use upd_base::{EdgeFault, Source};
use upd_io::read_all;

/// Reads the text of a journal from the source, and makes its events.
pub(crate) fn journal_from<S: Source>(
    alloc: Global,
    source: &mut S,
) -> Result<Journal<Module>, Status>
    ensures taken { TakesAtMost (S.left source.old) (S.left source.new) (MAX_TEXT + 1) }
    ensures text { IfOk result (λ j. IfSome (S.left source.old) (λ all. IsJournalText all (plan_of j) (events_of j))) }
    ensures to_end { OnOk result (IsAtEnd (S.left source.new)) }
    ensures cause { IfErr result (λ status. JournalCause status (S.faults source.old) (S.faults source.new) (S.left source.old)) }
{
    let bytes = match read_all(alloc, source, MAX_TEXT) {
        Ok(bytes) => bytes,
        Err(EdgeFault::Failed) => return Err(Status::SourceFailed),
        Err(EdgeFault::NoMemory) => return Err(Status::NoMemory),
    };
    match read_journal(alloc, bytes.as_slice()) {
        Ok(journal) => Ok(journal),
        Err(fault) => Err(journal_refused(fault)),
    }
}

/// The status of a refused journal text. Want of memory has its own, and so has an event that can't be made.
fn journal_refused(fault: JournalFault) -> Status
    ensures { result ≡ journal_refused fault }
{
    match fault {
        JournalFault::TooLong | JournalFault::Line(_) => Status::JournalRefused(fault),
        JournalFault::Event(place) => Status::NotARun(place),
        JournalFault::NoMemory => Status::NoMemory,
    }
}
