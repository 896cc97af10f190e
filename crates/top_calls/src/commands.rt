//! The commands that need no lines.
ghost use Rattle.std.specs.Prelude.{ℕ, ◌≡◌, ◌≢◌, ◌⊎◌, ◌+◌, List, [], reverse, Some, None, Ok, Err, IfSome, IsSome, IfNone, OnSome, map, string_bytes};
ghost use Rattle.std.specs.Io.KnownBytes.{IsAtEnd, Keeps};
ghost use Rattle.upd_base.specs.Edge.{Rose};
ghost use Rattle.upd_base.specs.Plan.{Planned};
ghost use Rattle.upd_base.specs.declared.event.Event.{Event};
ghost use Rattle.group_run.specs.Run.{IsGroupRun};
ghost use Rattle.upd_io.specs.Whole.{AppendsLess, AppendsPrefix, TakesAtMost};
ghost use Rattle.scenario.specs.Reading.{reading};
ghost use Rattle.scenario.specs.declared.root.TheConstants.{MAX_TEXT as MAX_SCENARIO};
ghost use Rattle.scenario.specs.declared.fault.ScenarioFault.{ScenarioFault};
ghost use Rattle.scenario.specs.declared.fault.ScenarioFault.TheVariants as scenario_faults;
ghost use Rattle.scenario_gen.specs.Spelling.{spelt};
ghost use Rattle.run_journal.specs.Journal.{events_of, past_of, plan_of};
ghost use Rattle.journal_file.specs.Reading.{HasWrongEvent, IsJournalText, ReadFault};
ghost use Rattle.journal_file.specs.declared.limits.TheConstants.{MAX_TEXT as MAX_JOURNAL};
ghost use Rattle.journal_file.specs.declared.fault.JournalFault.{JournalFault};
ghost use Rattle.journal_file.specs.declared.fault.JournalFault.TheVariants as journal_faults;
ghost use Rattle.planned_calls.specs.Calls.{HasNo, is_suspect};
ghost use Rattle.program_words.specs.Words.{command};
ghost use Rattle.program_texts.specs.Rules.{the_rules};
ghost use Rattle.top_calls.specs.Rehearsal.{IsRehearsalOf, KeepsLaws};
ghost use Rattle.program_texts.specs.Texts.{refusal_text};
ghost use Rattle.top_calls.specs.Causes.{IsOfScenario, IsRefusal, IsWriting, OrMemory, RefusalCause, Told, WroteRun};
ghost use Rattle.top_calls.specs.Checked.{IsOfCheck, IsOfText, IsWritten, WroteCheck, WroteText, journal_refused};
ghost use Rattle.program_words.specs.declared.words.Generate.{Generate};
ghost use Rattle.program_words.specs.declared.words.Rehearse.{Rehearse};
ghost use Rattle.program_words.specs.declared.words.Command.TheVariants as commands;
ghost use Rattle.program_texts.specs.declared.status.Status.{Status};

use crate::check::check_journal;
use crate::generate::write_scenario;
use crate::outcome::Outcome;
use crate::refusals::refuse;
use crate::scenario_runs::rehearse_scenario;
use program_texts::Status;
use program_words::{Command, command_of};
use std::alloc::Global;
use upd_base::{NoLine, Sink, Source};

/// Does what the words ask for. `rehearse [SEED] [short|journal]` reads a scenario from the source, runs it on
/// one thread and writes its report, or its journal's text, to the sink. `check` reads a journal's text and writes the
/// report of its run. `gen SEED CALLS` reads nothing and writes a scenario. It always returns.
pub fn plain<S: Source, K: Sink>(
    alloc: Global,
    words: &[String],
    source: &mut S,
    sink: &mut K,
) -> Outcome<NoLine>
    // Words: exactly where the words are no command.
    ensures words { result.status ≡ Status.Words → command (map string_bytes words.now) ≡ None }
    ensures words_only { command (map string_bytes words.now) ≡ None → OrMemory result.status Status.Words }
    // SourceFailed: only where the source's faults rose.
    ensures source_failed { result.status ≡ Status.SourceFailed → Rose (S.faults source.old) (S.faults source.new) }
    // SinkFailed: only where the sink's faults rose.
    ensures sink_failed { result.status ≡ Status.SinkFailed → Rose (K.faults sink.old) (K.faults sink.new) }
    // Scenario: exactly where the bytes read as that fault.
    ensures scenario { (f : ScenarioFault) → result.status ≡ Status.Scenario f → (f ≢ scenario_faults.NoMemory) × IfSome (S.left source.old) (λ all. reading all ≡ Err f) }
    ensures scenario_only { (asked : Rehearse) → command (map string_bytes words.now) ≡ Some (commands.Rehearse asked) → IfSome (S.left source.old) (λ all. (f : ScenarioFault) → reading all ≡ Err f
        → OrMemory result.status (Status.Scenario f) ⊎ (result.status ≡ Status.SourceFailed)) }
    // No more is taken from the source than the limit of its text and a byte.
    ensures taken { (asked : Rehearse) → command (map string_bytes words.now) ≡ Some (commands.Rehearse asked) → TakesAtMost (S.left source.old) (S.left source.new) (MAX_SCENARIO + 1) }
    ensures checked_taken { command (map string_bytes words.now) ≡ Some commands.Check → TakesAtMost (S.left source.old) (S.left source.new) (MAX_JOURNAL + 1) }
    // A run comes to its end, and its text is written.
    ensures run_only { (asked : Rehearse) → command (map string_bytes words.now) ≡ Some (commands.Rehearse asked) → IfSome (S.left source.old) (λ all. (p : Planned) → reading all ≡ Ok p
        → IsWriting result.status ⊎ (result.status ≡ Status.SourceFailed)) }
    // Where the plan has no suspicion and no edge fails, the run is settled and its text is written, want of memory aside.
    ensures complete { (asked : Rehearse) → command (map string_bytes words.now) ≡ Some (commands.Rehearse asked) → IfSome (S.left source.old) (λ all. (p : Planned) → reading all ≡ Ok p → HasNo is_suspect p
        → (Rose (S.faults source.old) (S.faults source.new) → ⊥) → (Rose (K.faults sink.old) (K.faults sink.new) → ⊥) → OrMemory result.status Status.Done) }
    // At the status of a run the journal is there, or memory did not suffice; it is of the plan that the whole input is.
    ensures there { (asked : Rehearse) → command (map string_bytes words.now) ≡ Some (commands.Rehearse asked) → IsWriting result.status → (result.status ≡ Status.NoMemory) ⊎ IsSome result.journal }
    ensures plan { (asked : Rehearse) → command (map string_bytes words.now) ≡ Some (commands.Rehearse asked) → IfSome result.journal (λ j. IfSome (S.left source.old) (λ all. reading all ≡ Ok (plan_of j))) }
    ensures to_end { OnSome result.journal (IsAtEnd (S.left source.new)) }
    // Its events are those of the schedule that the words ask for, and a run that keeps all that is promised of it.
    ensures rehearsal { (asked : Rehearse) → command (map string_bytes words.now) ≡ Some (commands.Rehearse asked) → IfSome result.journal (λ j. IsRehearsalOf asked.seed result.status (plan_of j) (past_of j)) }
    // The sink got the text of that run, or a prefix of it.
    ensures run { (asked : Rehearse) → command (map string_bytes words.now) ≡ Some (commands.Rehearse asked) → IfSome result.journal (λ j. WroteRun result.status asked.form (plan_of j) (past_of j) (K.held sink.old) (K.held sink.new)) }
    ensures rehearse_only { (asked : Rehearse) → command (map string_bytes words.now) ≡ Some (commands.Rehearse asked) → IsOfScenario result.status }
    // A journal that was read is that of the whole input, its events keep the laws of a run, and its report is written.
    ensures checked { command (map string_bytes words.now) ≡ Some commands.Check → IfSome result.journal (λ j. IfSome (S.left source.old) (λ all. IsJournalText all (plan_of j) (events_of j))) }
    ensures checked_laws { command (map string_bytes words.now) ≡ Some commands.Check → IfSome result.journal (λ j. KeepsLaws (plan_of j) (past_of j)) }
    ensures checked_report { command (map string_bytes words.now) ≡ Some commands.Check → IfSome result.journal (λ j. WroteCheck result.status (plan_of j) (past_of j) (K.held sink.old) (K.held sink.new)) }
    ensures checked_there { command (map string_bytes words.now) ≡ Some commands.Check → IsWritten result.status → (result.status ≡ Status.NoMemory) ⊎ IsSome result.journal }
    ensures check_only { command (map string_bytes words.now) ≡ Some commands.Check → IsOfCheck result.status }
    // NotARun: the text is good, and that event is the first that can't be made. JournalRefused: the text is none.
    ensures not_a_run { (place : ℕ) → result.status ≡ Status.NotARun place → IfSome (S.left source.old) (λ all. HasWrongEvent the_rules all place) }
    ensures journal_refused { (f : JournalFault) → result.status ≡ Status.JournalRefused f → IsOfText f × IfSome (S.left source.old) (λ all. ReadFault the_rules all f) }
    // Each comes where its cause holds, and where the bytes are the text of a run, that is told.
    ensures checked_fault_only { command (map string_bytes words.now) ≡ Some commands.Check → IfSome (S.left source.old) (λ all. (f : JournalFault) → f ≢ journal_faults.NoMemory → ReadFault the_rules all f
        → OrMemory result.status (journal_refused f) ⊎ (result.status ≡ Status.SourceFailed)) }
    ensures checked_text_only { command (map string_bytes words.now) ≡ Some commands.Check → IfSome (S.left source.old) (λ all. (p : Planned) (es : List Event) → IsJournalText all p es → IsGroupRun the_rules p (reverse es)
        → IsWritten result.status ⊎ (result.status ≡ Status.SourceFailed)) }
    // A generated scenario is written, and nothing is read.
    ensures generated { (asked : Generate) → command (map string_bytes words.now) ≡ Some (commands.Generate asked) → IsWritten result.status × WroteText result.status (spelt asked.seed asked.calls) (K.held sink.old) (K.held sink.new) }
    ensures generated_alone { (asked : Generate) → command (map string_bytes words.now) ≡ Some (commands.Generate asked) → (result.journal ≡ None) × (source.new ≡ source.old) }
    ensures refusal { IsRefusal result.status → Told (K.faults sink.old) (K.faults sink.new) (K.held sink.old) (K.held sink.new) (refusal_text result.status) }
    ensures refused_journal { IsRefusal result.status → result.journal ≡ None }
    ensures no_lines { result.lines.items ≡ [] }
    // At want of memory without a journal it got nothing, a prefix of the text of a refusal that has its cause, or of the
    // scenario that the words ask for.
    ensures memory { result.status ≡ Status.NoMemory → IfNone result.journal (Keeps (K.held sink.old) (K.held sink.new)
        ⊎ ((s : Status) × RefusalCause s (command (map string_bytes words.now)) (S.faults source.old) (S.faults source.new) (S.left source.old) × AppendsPrefix (K.held sink.old) (K.held sink.new) (refusal_text s))
        ⊎ ((asked : Generate) × (command (map string_bytes words.now) ≡ Some (commands.Generate asked)) × AppendsLess (K.held sink.old) (K.held sink.new) (spelt asked.seed asked.calls))) }
{
    match command_of(words) {
        Some(Command::Rehearse(asked)) => rehearse_scenario(alloc, asked, source, sink),
        Some(Command::Check) => check_journal(alloc, source, sink),
        Some(Command::Generate(asked)) => write_scenario(alloc, asked, sink),
        None => refuse(alloc, Status::Words, sink),
    }
}
