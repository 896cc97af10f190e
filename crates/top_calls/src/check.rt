//! `check`: a journal's text, read and reported.
ghost use Rattle.std.specs.Prelude.{◌≡◌, ◌≢◌, ◌⊎◌, ◌+◌, [], IfNone, IfSome, List, None, OnSome, Some, reverse};
ghost use Rattle.std.specs.Io.KnownBytes.{IsAtEnd, Keeps};
ghost use Rattle.upd_base.specs.Edge.{Rose};
ghost use Rattle.upd_io.specs.Whole.{AppendsPrefix, TakesAtMost};
ghost use Rattle.run_journal.specs.Journal.{events_of, past_of, plan_of};
ghost use Rattle.upd_base.specs.Plan.{Planned};
ghost use Rattle.upd_base.specs.declared.event.Event.{Event};
ghost use Rattle.group_run.specs.Run.{IsGroupRun};
ghost use Rattle.journal_file.specs.Reading.{IsJournalText, ReadFault};
ghost use Rattle.journal_file.specs.declared.limits.TheConstants.{MAX_TEXT};
ghost use Rattle.journal_file.specs.declared.fault.JournalFault.{JournalFault};
ghost use Rattle.journal_file.specs.declared.fault.JournalFault.TheVariants as journal_faults;
ghost use Rattle.top_calls.specs.Causes.{IsRefusal, OrMemory, Told};
ghost use Rattle.top_calls.specs.Checked.{IsOfCheck, IsWritten, JournalCause, WroteCheck, journal_refused};
ghost use Rattle.program_texts.specs.Rules.{the_rules};
ghost use Rattle.top_calls.specs.Rehearsal.{KeepsLaws};
ghost use Rattle.program_texts.specs.Texts.{refusal_text};
ghost use Rattle.program_texts.specs.declared.status.Status.{Status};

use crate::journal::keeps_laws;
use crate::journal_input::journal_from;
use crate::outcome::Outcome;
use crate::refusals::{refuse, without_journal};
use crate::writing::write_text;
use journal_laws::one_answer_is_right;
use module_binding::Module;
use program_texts::{Status, checked_text};
use run_journal::Journal;
use std::alloc::Global;
use upd_base::{NoLine, NoMemory, Sink, Source};

/// Reads a journal from the source and writes the report of its run to the sink.
pub(crate) fn check_journal<S: Source, K: Sink>(
    alloc: Global,
    source: &mut S,
    sink: &mut K,
) -> Outcome<NoLine>
    ensures kind { IsOfCheck result.status }
    ensures no_lines { result.lines.items ≡ [] }
    ensures taken { TakesAtMost (S.left source.old) (S.left source.new) (MAX_TEXT + 1) }
    ensures text { IfSome result.journal (λ j. IfSome (S.left source.old) (λ all. IsJournalText all (plan_of j) (events_of j))) }
    ensures to_end { OnSome result.journal (IsAtEnd (S.left source.new)) }
    ensures laws { IfSome result.journal (λ j. KeepsLaws (plan_of j) (past_of j)) }
    ensures written { OnSome result.journal (IsWritten result.status) }
    ensures wrote { IfSome result.journal (λ j. WroteCheck result.status (plan_of j) (past_of j) (K.held sink.old) (K.held sink.new)) }
    ensures sink_failed { result.status ≡ Status.SinkFailed → Rose (K.faults sink.old) (K.faults sink.new) }
    ensures cause { IfNone result.journal (JournalCause result.status (S.faults source.old) (S.faults source.new) (S.left source.old)) }
    ensures text_only { IfSome (S.left source.old) (λ all. (p : Planned) (es : List Event) → IsJournalText all p es → IsGroupRun the_rules p (reverse es)
        → IsWritten result.status ⊎ (result.status ≡ Status.SourceFailed)) }
    ensures fault_only { IfSome (S.left source.old) (λ all. (f : JournalFault) → f ≢ journal_faults.NoMemory → ReadFault the_rules all f
        → OrMemory result.status (journal_refused f) ⊎ (result.status ≡ Status.SourceFailed)) }
    ensures refusal { IsRefusal result.status → Told (K.faults sink.old) (K.faults sink.new) (K.held sink.old) (K.held sink.new) (refusal_text result.status) }
    ensures refused_journal { IsRefusal result.status → result.journal ≡ None }
    ensures memory { result.status ≡ Status.NoMemory → IfNone result.journal (Keeps (K.held sink.old) (K.held sink.new) ⊎ ((s : Status)
        × IsRefusal s × JournalCause s (S.faults source.old) (S.faults source.new) (S.left source.old) × AppendsPrefix (K.held sink.old) (K.held sink.new) (refusal_text s))) }
{
    one_answer_is_right();
    match journal_from(alloc, source) {
        Ok(journal) => report_read(alloc, journal, sink),
        Err(Status::NoMemory) => without_journal(alloc, Status::NoMemory),
        Err(status) => refuse(alloc, status, sink),
    }
}

/// Reports a journal that was read, and gives it back.
fn report_read<K: Sink>(alloc: Global, journal: Journal<Module>, sink: &mut K) -> Outcome<NoLine>
    ensures journal { result.journal ≡ Some journal }
    ensures no_lines { result.lines.items ≡ [] }
    ensures laws { KeepsLaws (plan_of journal) (past_of journal) }
    ensures status { IsWritten result.status }
    ensures wrote { WroteCheck result.status (plan_of journal) (past_of journal) (K.held sink.old) (K.held sink.new) }
    ensures cause { result.status ≡ Status.SinkFailed → Rose (K.faults sink.old) (K.faults sink.new) }
{
    keeps_laws(&journal);
    let status = report(alloc, &journal, sink);
    Outcome {
        status,
        journal: Some(journal),
        lines: Vec::new(alloc),
    }
}

/// Writes the report of a run that was read.
fn report<K: Sink>(alloc: Global, journal: &Journal<Module>, sink: &mut K) -> Status
    ensures status { IsWritten result }
    ensures wrote { WroteCheck result (plan_of journal.now) (past_of journal.now) (K.held sink.old) (K.held sink.new) }
    ensures cause { result ≡ Status.SinkFailed → Rose (K.faults sink.old) (K.faults sink.new) }
{
    match checked_text(alloc, journal) {
        Ok(text) => write_text(text.as_slice(), sink),
        Err(NoMemory) => Status::NoMemory,
    }
}
