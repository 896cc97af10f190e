//! `rehearse`: a scenario that is read and run on one thread.
ghost use Rattle.std.specs.Prelude.{◌≡◌, ◌≢◌, ◌⊎◌, ◌+◌, Some, None, Ok, Err, [], IfSome, IsSome, IfNone, OnSome};
ghost use Rattle.std.specs.Io.KnownBytes.{Keeps, IsAtEnd};
ghost use Rattle.upd_base.specs.Edge.{Rose};
ghost use Rattle.upd_base.specs.Plan.{Planned};
ghost use Rattle.upd_io.specs.Whole.{AppendsPrefix, TakesAtMost};
ghost use Rattle.scenario.specs.Reading.{reading};
ghost use Rattle.scenario.specs.declared.root.TheConstants.{MAX_TEXT};
ghost use Rattle.scenario.specs.declared.fault.ScenarioFault.{ScenarioFault};
ghost use Rattle.scenario.specs.declared.fault.ScenarioFault.TheVariants as scenario_faults;
ghost use Rattle.run_journal.specs.Journal.{plan_of, past_of};
ghost use Rattle.planned_calls.specs.Calls.{HasNo, is_suspect};
ghost use Rattle.top_calls.specs.Rehearsal.{IsRehearsalOf};
ghost use Rattle.program_texts.specs.Texts.{refusal_text};
ghost use Rattle.top_calls.specs.Causes.{CameBy, IsAfter, IsOfScenario, IsRefusal, IsWriting, OrMemory, ScenarioCause, Told, WroteRun};
ghost use Rattle.program_texts.specs.declared.status.Status.{Status};

use crate::journal::{keeps_laws, opening, rehearse};
use crate::outcome::Outcome;
use crate::refusals::{refuse, without_journal};
use crate::scenario_input::plan_from;
use crate::writing::write_run;
use module_binding::Module;
use program_texts::{End, Status};
use program_words::{Form, Rehearse};
use rehearsal::{RehearsalEnd, Rehearsed};
use run_journal::Journal;
use std::alloc::Global;
use upd_base::{NoLine, NoMemory, Plan, Sink, Source};

/// Reads a scenario from the source, runs it on one thread and writes its report, or its journal's text, to the sink.
pub(crate) fn rehearse_scenario<S: Source, K: Sink>(
    alloc: Global,
    asked: Rehearse,
    source: &mut S,
    sink: &mut K,
) -> Outcome<NoLine>
    ensures kind { IsOfScenario result.status }
    ensures no_lines { result.lines.items ≡ [] }
    ensures taken { TakesAtMost (S.left source.old) (S.left source.new) (MAX_TEXT + 1) }
    ensures source_failed { result.status ≡ Status.SourceFailed → Rose (S.faults source.old) (S.faults source.new) }
    ensures sink_failed { result.status ≡ Status.SinkFailed → Rose (K.faults sink.old) (K.faults sink.new) }
    ensures scenario { (f : ScenarioFault) → result.status ≡ Status.Scenario f → (f ≢ scenario_faults.NoMemory) × IfSome (S.left source.old) (λ all. reading all ≡ Err f) }
    ensures scenario_only { IfSome (S.left source.old) (λ all. (f : ScenarioFault) → reading all ≡ Err f
        → OrMemory result.status (Status.Scenario f) ⊎ (result.status ≡ Status.SourceFailed)) }
    ensures run_only { IfSome (S.left source.old) (λ all. (p : Planned) → reading all ≡ Ok p
        → IsWriting result.status ⊎ (result.status ≡ Status.SourceFailed)) }
    ensures complete { IfSome (S.left source.old) (λ all. (p : Planned) → reading all ≡ Ok p → HasNo is_suspect p
        → (Rose (S.faults source.old) (S.faults source.new) → ⊥) → (Rose (K.faults sink.old) (K.faults sink.new) → ⊥) → OrMemory result.status Status.Done) }
    ensures there { IsWriting result.status → (result.status ≡ Status.NoMemory) ⊎ IsSome result.journal }
    ensures plan { IfSome result.journal (λ j. IfSome (S.left source.old) (λ all. reading all ≡ Ok (plan_of j))) }
    ensures to_end { OnSome result.journal (IsAtEnd (S.left source.new)) }
    ensures rehearsal { IfSome result.journal (λ j. IsRehearsalOf asked.seed result.status (plan_of j) (past_of j)) }
    ensures run { IfSome result.journal (λ j. WroteRun result.status asked.form (plan_of j) (past_of j) (K.held sink.old) (K.held sink.new)) }
    ensures refusal { IsRefusal result.status → Told (K.faults sink.old) (K.faults sink.new) (K.held sink.old) (K.held sink.new) (refusal_text result.status) }
    ensures refused_journal { IsRefusal result.status → result.journal ≡ None }
    ensures memory { result.status ≡ Status.NoMemory → IfNone result.journal (Keeps (K.held sink.old) (K.held sink.new) ⊎ ((s : Status)
        × IsRefusal s × ScenarioCause s (S.faults source.old) (S.faults source.new) (S.left source.old) × AppendsPrefix (K.held sink.old) (K.held sink.new) (refusal_text s))) }
{
    match plan_from(alloc, source) {
        Ok(plan) => run(alloc, asked, plan, sink),
        Err(Status::NoMemory) => without_journal(alloc, Status::NoMemory),
        Err(status) => refuse(alloc, status, sink),
    }
}

/// Runs a plan and writes its text.
fn run<K: Sink>(alloc: Global, asked: Rehearse, plan: Plan, sink: &mut K) -> Outcome<NoLine>
    ensures no_lines { result.lines.items ≡ [] }
    ensures status { IsWriting result.status }
    ensures there { (result.status ≡ Status.NoMemory) ⊎ IsSome result.journal }
    ensures plan { IfSome result.journal (λ j. plan_of j ≡ plan) }
    ensures rehearsal { IfSome result.journal (λ j. IsRehearsalOf asked.seed result.status (plan_of j) (past_of j)) }
    ensures complete { HasNo is_suspect plan → (Rose (K.faults sink.old) (K.faults sink.new) → ⊥) → OrMemory result.status Status.Done }
    ensures wrote { IfSome result.journal (λ j. WroteRun result.status asked.form (plan_of j) (past_of j) (K.held sink.old) (K.held sink.new)) }
    ensures cause { result.status ≡ Status.SinkFailed → Rose (K.faults sink.old) (K.faults sink.new) }
    ensures memory { IfNone result.journal (Keeps (K.held sink.old) (K.held sink.new)) }
{
    match opening(alloc, plan) {
        Ok(journal) => run_through(alloc, asked, journal, sink),
        Err(NoMemory) => without_journal(alloc, Status::NoMemory),
    }
}

/// Rehearses a fresh journal and writes the text of its run.
fn run_through<K: Sink>(
    alloc: Global,
    asked: Rehearse,
    journal: Journal<Module>,
    sink: &mut K,
) -> Outcome<NoLine>
    requires { past_of journal ≡ [] }
    ensures no_lines { result.lines.items ≡ [] }
    ensures there { IsSome result.journal }
    ensures status { IsWriting result.status }
    ensures plan { IfSome result.journal (λ j. plan_of j ≡ plan_of journal) }
    ensures rehearsal { IfSome result.journal (λ j. IsRehearsalOf asked.seed result.status (plan_of j) (past_of j)) }
    ensures complete { HasNo is_suspect (plan_of journal) → (Rose (K.faults sink.old) (K.faults sink.new) → ⊥) → OrMemory result.status Status.Done }
    ensures wrote { IfSome result.journal (λ j. WroteRun result.status asked.form (plan_of j) (past_of j) (K.held sink.old) (K.held sink.new)) }
    ensures cause { result.status ≡ Status.SinkFailed → Rose (K.faults sink.old) (K.faults sink.new) }
{
    let rehearsed = rehearse(alloc, asked.seed, journal);
    keeps_laws(&rehearsed.journal);
    finish(alloc, asked.form, rehearsed, sink)
}

/// Gives back the journal of a rehearsal, whose text it writes where the run has come to its end.
fn finish<K: Sink>(
    alloc: Global,
    form: Form,
    rehearsed: Rehearsed<Module>,
    sink: &mut K,
) -> Outcome<NoLine>
    requires { CameBy rehearsed.end (plan_of rehearsed.journal) (past_of rehearsed.journal) }
    ensures no_lines { result.lines.items ≡ [] }
    ensures journal { result.journal ≡ Some rehearsed.journal }
    ensures status { IsAfter rehearsed.end result.status }
    ensures wrote { WroteRun result.status form (plan_of rehearsed.journal) (past_of rehearsed.journal) (K.held sink.old) (K.held sink.new) }
    ensures cause { result.status ≡ Status.SinkFailed → Rose (K.faults sink.old) (K.faults sink.new) }
{
    let Rehearsed { journal, end } = rehearsed;
    let status = write_end(alloc, form, &journal, end, sink);
    Outcome {
        status,
        journal: Some(journal),
        lines: Vec::new(alloc),
    }
}

/// Writes the text of a rehearsal, where it has come to the end of its run.
fn write_end<K: Sink>(
    alloc: Global,
    form: Form,
    journal: &Journal<Module>,
    end: RehearsalEnd,
    sink: &mut K,
) -> Status
    requires { CameBy end (plan_of journal.now) (past_of journal.now) }
    ensures status { IsAfter end result }
    ensures wrote { WroteRun result form (plan_of journal.now) (past_of journal.now) (K.held sink.old) (K.held sink.new) }
    ensures cause { result ≡ Status.SinkFailed → Rose (K.faults sink.old) (K.faults sink.new) }
{
    match end {
        RehearsalEnd::Settled => write_run(alloc, form, journal, &End::Settled, sink),
        RehearsalEnd::Spent => write_run(alloc, form, journal, &End::Spent, sink),
        RehearsalEnd::NoMemory => Status::NoMemory,
    }
}
