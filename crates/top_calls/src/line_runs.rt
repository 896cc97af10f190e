//! `run`: a scenario that is read and run with threads over lines.
ghost use Rattle.std.specs.Prelude.{ℕ, ◌≡◌, ◌≢◌, ◌⊎◌, ◌+◌, ◌*◌, All, Some, None, Ok, Err, [], IfSome, IsSome, IfNone, OnSome, length, map, string_bytes};
ghost use Rattle.std.specs.Io.KnownBytes.{Keeps, IsAtEnd};
ghost use Rattle.upd_base.specs.Edge.{Rose};
ghost use Rattle.upd_base.specs.Plan.{Planned};
ghost use Rattle.upd_io.specs.Whole.{AppendsPrefix, TakesAtMost};
ghost use Rattle.scenario.specs.Reading.{reading};
ghost use Rattle.scenario.specs.declared.root.TheConstants.{MAX_TEXT};
ghost use Rattle.scenario.specs.declared.fault.ScenarioFault.{ScenarioFault};
ghost use Rattle.scenario.specs.declared.fault.ScenarioFault.TheVariants as scenario_faults;
ghost use Rattle.run_journal.specs.Journal.{plan_of, past_of};
ghost use Rattle.line_rules.specs.Lines.{IsEvenLine};
ghost use Rattle.planned_calls.specs.Calls.{HasNo, is_suspect};
ghost use Rattle.program_words.specs.Words.{run_of};
ghost use Rattle.program_texts.specs.Texts.{refusal_text};
ghost use Rattle.top_calls.specs.Causes.{IsRefusal, OrMemory, ScenarioCause, Told, WroteRunOf};
ghost use Rattle.top_calls.specs.Made.{AreMade};
ghost use Rattle.top_calls.specs.Live.{AreSteady, IsComplete, IsLiveRun, IsOfLive, IsRunStatus, LiveRefusal, told_end};
ghost use Rattle.line_rules.specs.declared.run_end.RunEnd.{RunEnd};
ghost use Rattle.program_words.specs.declared.words.Run.{Run};
ghost use Rattle.program_texts.specs.declared.status.Status.{Status};

use crate::journal::{keeps_laws, opening};
use crate::making::make_lines;
use crate::outcome::Outcome;
use crate::refusals::{refuse, without_journal};
use crate::scenario_input::plan_from;
use crate::writing::write_run;
use line_rules::RunEnd;
use member_threads::run_threads;
use module_binding::Module;
use program_texts::{End, Status};
use program_words::{Form, run_of};
use run_journal::Journal;
use std::alloc::Global;
use std::sync::Wait;
use std::thread::Threads;
use upd_base::{NoMemory, Plan, Sink, Source};
use upd_lines::{Line, LineMaker};
use worker_gates::Gate;

/// Does what the words `run memory|loopback [short|journal]` ask for: reads a scenario from the source, makes a line for
/// each link of its group, in the order of `from * n + to`, runs the group with threads over them, and writes the report of
/// its run, or its journal's text, to the sink. Which lines the words name is the caller's to look at. It waits for its
/// threads, so its promise holds if it returns.
pub fn live<S: Source, K: Sink, M: LineMaker, G: Gate, R: Threads + Wait + Sync>(
    rt: &R,
    alloc: Global,
    words: &[String],
    source: &mut S,
    sink: &mut K,
    lines: &mut M,
    gate: &G,
) -> Outcome<M::Line>
    // Words: exactly where the words are no such command.
    ensures words { result.status ≡ Status.Words → run_of (map string_bytes words.now) ≡ None }
    ensures words_only { run_of (map string_bytes words.now) ≡ None → OrMemory result.status Status.Words }
    // SourceFailed: only where the source's faults rose.
    ensures source_failed { result.status ≡ Status.SourceFailed → Rose (S.faults source.old) (S.faults source.new) }
    // SinkFailed: only where the sink's faults rose.
    ensures sink_failed { result.status ≡ Status.SinkFailed → Rose (K.faults sink.old) (K.faults sink.new) }
    // Scenario: exactly where the bytes read as that fault.
    ensures scenario { (f : ScenarioFault) → result.status ≡ Status.Scenario f → (f ≢ scenario_faults.NoMemory) × IfSome (S.left source.old) (λ all. reading all ≡ Err f) }
    ensures scenario_only { (asked : Run) → run_of (map string_bytes words.now) ≡ Some asked → IfSome (S.left source.old) (λ all. (f : ScenarioFault) → reading all ≡ Err f
        → OrMemory result.status (Status.Scenario f) ⊎ (result.status ≡ Status.SourceFailed)) }
    // No more is taken from the source than its limit and a byte.
    ensures taken { (asked : Run) → run_of (map string_bytes words.now) ≡ Some asked → TakesAtMost (S.left source.old) (S.left source.new) (MAX_TEXT + 1) }
    // A run comes to an end, and its text is written.
    ensures run_only { (asked : Run) → run_of (map string_bytes words.now) ≡ Some asked → IfSome (S.left source.old) (λ all. (p : Planned) → reading all ≡ Ok p
        → IsRunStatus result.status ⊎ (result.status ≡ Status.SourceFailed)) }
    ensures live_only { (asked : Run) → run_of (map string_bytes words.now) ≡ Some asked → IsOfLive result.status }
    // Where the plan has no suspicion and no count of faults rose, the run is settled, or a line that is not faithful lied.
    ensures complete { (asked : Run) → run_of (map string_bytes words.now) ≡ Some asked → IfSome (S.left source.old) (λ all. (p : Planned) → reading all ≡ Ok p → HasNo is_suspect p
        → (Rose (S.faults source.old) (S.faults source.new) → ⊥) → (Rose (K.faults sink.old) (K.faults sink.new) → ⊥)
        → AreSteady M.Line.Line p.members (M.faults lines.old) (M.faults lines.new) result.lines.items → IsComplete M.Line.Line result.status p.members result.lines.items) }
    // At the status of a run the journal is there, or memory did not suffice; it is of the plan that the whole input is.
    ensures there { IsRunStatus result.status → (result.status ≡ Status.NoMemory) ⊎ IsSome result.journal }
    ensures plan { IfSome result.journal (λ j. IfSome (S.left source.old) (λ all. reading all ≡ Ok (plan_of j))) }
    ensures to_end { OnSome result.journal (IsAtEnd (S.left source.new)) }
    // Its events are those of a run that keeps all that is promised of it, over the lines that the maker made in this call;
    // the sink got the text of that run, or a prefix of it.
    ensures live_run { (asked : Run) → run_of (map string_bytes words.now) ≡ Some asked → IfSome result.journal (λ j. IsLiveRun M.Line.Line (M.faults lines.old) (M.faults lines.new) result.status asked.form
        (plan_of j) (past_of j) result.lines.items (K.held sink.old) (K.held sink.new)) }
    ensures refusal { IsRefusal result.status → Told (K.faults sink.old) (K.faults sink.new) (K.held sink.old) (K.held sink.new) (refusal_text result.status) }
    ensures refused_journal { IsRefusal result.status → result.journal ≡ None }
    // At want of memory without a journal it got nothing, or a prefix of the text of a refusal that has its cause.
    ensures memory { result.status ≡ Status.NoMemory → IfNone result.journal (Keeps (K.held sink.old) (K.held sink.new)
        ⊎ ((s : Status) × LiveRefusal s (run_of (map string_bytes words.now)) (S.faults source.old) (S.faults source.new) (S.left source.old) × AppendsPrefix (K.held sink.old) (K.held sink.new) (refusal_text s))) }
{
    match run_of(words) {
        Some(asked) => run_scenario(rt, alloc, asked.form, source, sink, lines, gate),
        None => refuse(alloc, Status::Words, sink),
    }
}

/// Reads a scenario from the source, runs it over new lines and writes the text of its run.
fn run_scenario<S: Source, K: Sink, M: LineMaker, G: Gate, R: Threads + Wait + Sync>(
    rt: &R,
    alloc: Global,
    form: Form,
    source: &mut S,
    sink: &mut K,
    lines: &mut M,
    gate: &G,
) -> Outcome<M::Line>
    ensures kind { IsOfLive result.status }
    ensures taken { TakesAtMost (S.left source.old) (S.left source.new) (MAX_TEXT + 1) }
    ensures source_failed { result.status ≡ Status.SourceFailed → Rose (S.faults source.old) (S.faults source.new) }
    ensures sink_failed { result.status ≡ Status.SinkFailed → Rose (K.faults sink.old) (K.faults sink.new) }
    ensures scenario { (f : ScenarioFault) → result.status ≡ Status.Scenario f → (f ≢ scenario_faults.NoMemory) × IfSome (S.left source.old) (λ all. reading all ≡ Err f) }
    ensures scenario_only { IfSome (S.left source.old) (λ all. (f : ScenarioFault) → reading all ≡ Err f
        → OrMemory result.status (Status.Scenario f) ⊎ (result.status ≡ Status.SourceFailed)) }
    ensures run_only { IfSome (S.left source.old) (λ all. (p : Planned) → reading all ≡ Ok p → IsRunStatus result.status ⊎ (result.status ≡ Status.SourceFailed)) }
    ensures complete { IfSome (S.left source.old) (λ all. (p : Planned) → reading all ≡ Ok p → HasNo is_suspect p
        → (Rose (S.faults source.old) (S.faults source.new) → ⊥) → (Rose (K.faults sink.old) (K.faults sink.new) → ⊥)
        → AreSteady M.Line.Line p.members (M.faults lines.old) (M.faults lines.new) result.lines.items → IsComplete M.Line.Line result.status p.members result.lines.items) }
    ensures there { IsRunStatus result.status → (result.status ≡ Status.NoMemory) ⊎ IsSome result.journal }
    ensures plan { IfSome result.journal (λ j. IfSome (S.left source.old) (λ all. reading all ≡ Ok (plan_of j))) }
    ensures to_end { OnSome result.journal (IsAtEnd (S.left source.new)) }
    ensures live_run { IfSome result.journal (λ j. IsLiveRun M.Line.Line (M.faults lines.old) (M.faults lines.new) result.status form (plan_of j) (past_of j) result.lines.items (K.held sink.old) (K.held sink.new)) }
    ensures refusal { IsRefusal result.status → Told (K.faults sink.old) (K.faults sink.new) (K.held sink.old) (K.held sink.new) (refusal_text result.status) }
    ensures refused_journal { IsRefusal result.status → result.journal ≡ None }
    ensures memory { result.status ≡ Status.NoMemory → IfNone result.journal (Keeps (K.held sink.old) (K.held sink.new) ⊎ ((s : Status)
        × IsRefusal s × ScenarioCause s (S.faults source.old) (S.faults source.new) (S.left source.old) × AppendsPrefix (K.held sink.old) (K.held sink.new) (refusal_text s))) }
{
    match plan_from(alloc, source) {
        Ok(plan) => run_plan(rt, alloc, form, plan, sink, lines, gate),
        Err(Status::NoMemory) => without_journal(alloc, Status::NoMemory),
        Err(status) => refuse(alloc, status, sink),
    }
}

/// Runs a plan over new lines and writes the text of its run.
fn run_plan<K: Sink, M: LineMaker, G: Gate, R: Threads + Wait + Sync>(
    rt: &R,
    alloc: Global,
    form: Form,
    plan: Plan,
    sink: &mut K,
    lines: &mut M,
    gate: &G,
) -> Outcome<M::Line>
    ensures status { IsRunStatus result.status }
    ensures there { IfNone result.journal (result.status ≡ Status.NoMemory) }
    ensures plan { IfSome result.journal (λ j. plan_of j ≡ plan) }
    ensures live_run { IfSome result.journal (λ j. IsLiveRun M.Line.Line (M.faults lines.old) (M.faults lines.new) result.status form (plan_of j) (past_of j) result.lines.items (K.held sink.old) (K.held sink.new)) }
    ensures complete { HasNo is_suspect plan → (Rose (K.faults sink.old) (K.faults sink.new) → ⊥) → AreSteady M.Line.Line plan.members (M.faults lines.old) (M.faults lines.new) result.lines.items
        → IsComplete M.Line.Line result.status plan.members result.lines.items }
    ensures cause { result.status ≡ Status.SinkFailed → Rose (K.faults sink.old) (K.faults sink.new) }
    ensures memory { IfNone result.journal (Keeps (K.held sink.old) (K.held sink.new)) }
{
    plan.keeps_limits();
    let Ok(made) = make_lines(alloc, plan.members(), lines) else {
        return without_journal(alloc, Status::NoMemory);
    };
    match opening(alloc, plan) {
        Ok(journal) => run_over(rt, alloc, form, journal, made, sink, gate),
        Err(NoMemory) => without_journal(alloc, Status::NoMemory),
    }
}

/// Runs a fresh journal over its lines and writes the text of its run.
fn run_over<K: Sink, L: Line, G: Gate, R: Threads + Wait + Sync>(
    rt: &R,
    alloc: Global,
    form: Form,
    journal: Journal<Module>,
    lines: Vec<Option<L>>,
    sink: &mut K,
    gate: &G,
) -> Outcome<L>
    requires fresh { past_of journal ≡ [] }
    requires places { length lines.items ≡ (plan_of journal).members * (plan_of journal).members }
    requires even { All (IsEvenLine L.Line) lines.items }
    ensures there { IsSome result.journal }
    ensures status { IsRunStatus result.status }
    ensures plan { IfSome result.journal (λ j. plan_of j ≡ plan_of journal) }
    ensures live_run { IfSome result.journal (λ j. (before now : ℕ → ℕ → ℕ) → AreMade L.Line (plan_of journal).members before now lines.items
        → IsLiveRun L.Line before now result.status form (plan_of j) (past_of j) result.lines.items (K.held sink.old) (K.held sink.new)) }
    ensures cause { result.status ≡ Status.SinkFailed → Rose (K.faults sink.old) (K.faults sink.new) }
{
    let ran = run_threads(rt, alloc, journal, lines, gate);
    keeps_laws(&ran.journal);
    finish(alloc, form, ran.journal, ran.lines, ran.end, sink)
}

/// Gives back the journal and the lines of a run, whose text it writes where the run has come to an end.
fn finish<K: Sink, L: Line>(
    alloc: Global,
    form: Form,
    journal: Journal<Module>,
    lines: Vec<Option<L>>,
    end: RunEnd,
    sink: &mut K,
) -> Outcome<L>
    ensures journal { result.journal ≡ Some journal }
    ensures lines { result.lines.items ≡ lines.items }
    ensures status { IsRunStatus result.status }
    ensures wrote { WroteRunOf (λ other. told_end other ≡ end) result.status form (plan_of journal) (past_of journal) (K.held sink.old) (K.held sink.new) }
    ensures cause { result.status ≡ Status.SinkFailed → Rose (K.faults sink.old) (K.faults sink.new) }
{
    let status = write_end(alloc, form, &journal, end, sink);
    Outcome {
        status,
        journal: Some(journal),
        lines,
    }
}

/// Writes the text of a run over lines, where it has come to an end.
fn write_end<K: Sink>(
    alloc: Global,
    form: Form,
    journal: &Journal<Module>,
    end: RunEnd,
    sink: &mut K,
) -> Status
    ensures status { IsRunStatus result }
    ensures wrote { WroteRunOf (λ other. told_end other ≡ end) result form (plan_of journal.now) (past_of journal.now) (K.held sink.old) (K.held sink.new) }
    ensures cause { result ≡ Status.SinkFailed → Rose (K.faults sink.old) (K.faults sink.new) }
{
    match end_of(end) {
        Some(end) => write_run(alloc, form, journal, &end, sink),
        None => Status::NoMemory,
    }
}

/// The end that a run over lines came to, None where memory did not suffice.
fn end_of(end: RunEnd) -> Option<End>
    ensures some { IfSome result (λ e. told_end e ≡ end) }
    ensures none { IfNone result (end ≡ RunEnd.NoMemory) }
{
    match end {
        RunEnd::Settled => Some(End::Settled),
        RunEnd::Spent => Some(End::Spent),
        RunEnd::Lied {
            from,
            to,
            at,
            put,
            got,
        } => Some(End::Lied {
            from,
            to,
            at,
            put,
            got,
        }),
        RunEnd::Down { from, to } => Some(End::Down { from, to }),
        RunEnd::NoMemory => None,
    }
}
