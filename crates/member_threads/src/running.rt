//! A run through threads: the journal is shared, the workers run, and what they leave is made on one thread.
ghost use Rattle.std.specs.Prelude.{ℕ, true, false, ◌≡◌, ◌+◌, ◌*◌, ◌<◌, ◌≤◌, List, Option, length, All, IfOk};
ghost use Rattle.member_rules.specs.Kept.{rules_of};
ghost use Rattle.group_run.specs.Run.{Events};
ghost use Rattle.run_journal.specs.Journal.{plan_of, past_of};
ghost use Rattle.line_rules.specs.Received.{GoesOn};
ghost use Rattle.line_rules.specs.Lines.{AreOnTheWay, AreReady, ComeBack, IsAside, IsEvenLine};
ghost use Rattle.line_rules.specs.Rest.{GoesOnFullAtRestBut};
ghost use Rattle.line_rules.specs.Ends.{EndsRun};

use crate::chains::{Left, run_workers};
use group_lines::{Ran, finish_from};
use line_rules::{LineState, RunEnd};
use live_group::LiveGroup;
use order_trait::Ordering;
use run_journal::Journal;
use std::alloc::{AllocError, Global};
use std::sync::Wait;
use std::thread::Threads;
use upd_lines::Line;
use worker_gates::Gate;

/// So many states, which say of no line yet that it is there.
fn no_states(alloc: Global, count: usize) -> Result<Vec<LineState>, AllocError>
    ensures { IfOk result (λ states. length states.items ≡ count) }
{
    let mut states = Vec::new(alloc);
    for _ in 0..count {
        states.push(LineState::Missing)?;
    }
    Ok(states)
}

/// The run as it was, where memory was wanted before anything was made.
fn untouched<O: Ordering, L: Line>(journal: Journal<O>, lines: Vec<Option<L>>) -> Ran<O, L>
    requires places { length lines.items ≡ (plan_of journal).members * (plan_of journal).members }
    requires even { All (IsEvenLine L.Line) lines.items }
    ensures plan { plan_of result.journal ≡ plan_of journal }
    ensures lines { ComeBack L.Line (rules_of O.Ordering) (plan_of journal) (past_of journal) (past_of result.journal) lines.items result.lines.items }
    ensures end { EndsRun L.Line (rules_of O.Ordering) (plan_of journal) (past_of journal) (past_of result.journal) lines.items result.lines.items result.end }
    ensures full { GoesOnFullAtRestBut (IsAside L.Line (rules_of O.Ordering) (plan_of journal) (past_of journal) (past_of result.journal) lines.items result.lines.items) (rules_of O.Ordering) (plan_of journal) (past_of journal) (past_of result.journal) }
{
    let end = RunEnd::NoMemory;
    Ran {
        journal,
        lines,
        end,
    }
}

/// What remains where the workers have ended, unless memory was wanted.
fn finish_workers<O: Ordering, L: Line>(
    alloc: Global,
    journal: Journal<O>,
    left: Left<L>,
) -> Ran<O, L>
    requires ready { left.wanted ≡ false → AreReady L.Line (rules_of O.Ordering) (plan_of journal) (past_of journal) left.lines.items left.states.items }
    ensures plan { plan_of result.journal ≡ plan_of journal }
    ensures lines { (start : Events) (old : List (Option L)) → GoesOn start (past_of journal) → AreOnTheWay L.Line (rules_of O.Ordering) (plan_of journal) start (past_of journal) old left.lines.items left.states.items
        → ComeBack L.Line (rules_of O.Ordering) (plan_of journal) start (past_of result.journal) old result.lines.items }
    ensures end { (start : Events) (old : List (Option L)) → GoesOn start (past_of journal) → AreOnTheWay L.Line (rules_of O.Ordering) (plan_of journal) start (past_of journal) old left.lines.items left.states.items
        → EndsRun L.Line (rules_of O.Ordering) (plan_of journal) start (past_of result.journal) old result.lines.items result.end }
    ensures full { (start : Events) (old : List (Option L)) → GoesOn start (past_of journal) → AreOnTheWay L.Line (rules_of O.Ordering) (plan_of journal) start (past_of journal) old left.lines.items left.states.items
        → GoesOnFullAtRestBut (λ _ _. ⊥) (rules_of O.Ordering) (plan_of journal) start (past_of journal)
        → GoesOnFullAtRestBut (IsAside L.Line (rules_of O.Ordering) (plan_of journal) start (past_of result.journal) old result.lines.items) (rules_of O.Ordering) (plan_of journal) start (past_of result.journal) }
{
    let Left {
        lines,
        states,
        wanted,
    } = left;
    if wanted {
        return Ran {
            journal,
            lines,
            end: RunEnd::NoMemory,
        };
    }
    finish_from(alloc, journal, lines, states)
}

/// Runs the workers of a journal that is shared among them.
fn share_out<O: Ordering, L: Line, G: Gate, R: Threads + Wait + Sync>(
    rt: &R,
    alloc: Global,
    journal: Journal<O>,
    lines: Vec<Option<L>>,
    states: Vec<LineState>,
    gate: &G,
) -> Ran<O, L>
    requires places { length lines.items ≡ (plan_of journal).members * (plan_of journal).members }
    requires stated { length states.items ≡ length lines.items }
    requires even { All (IsEvenLine L.Line) lines.items }
    ensures plan { plan_of result.journal ≡ plan_of journal }
    ensures lines { ComeBack L.Line (rules_of O.Ordering) (plan_of journal) (past_of journal) (past_of result.journal) lines.items result.lines.items }
    ensures end { EndsRun L.Line (rules_of O.Ordering) (plan_of journal) (past_of journal) (past_of result.journal) lines.items result.lines.items result.end }
    ensures full { GoesOnFullAtRestBut (IsAside L.Line (rules_of O.Ordering) (plan_of journal) (past_of journal) (past_of result.journal) lines.items result.lines.items) (rules_of O.Ordering) (plan_of journal) (past_of journal) (past_of result.journal) }
{
    let members = journal.plan().members();
    let threads = journal.plan().threads();
    journal.plan().keeps_limits();
    match LiveGroup::share(alloc, journal) {
        Err(journal) => untouched(journal, lines),
        Ok((group, pass)) => {
            let left = Left {
                lines,
                states,
                wanted: false,
            };
            let (pass, left) = run_workers(
                rt, alloc, &group, gate, pass, left, 0, threads, members,
            );
            let journal = group.close(pass);
            journal.len();
            finish_workers(alloc, journal, left)
        }
    }
}

/// Runs a journal to its end by threads: one makes the calls of each thread of the plan, and one serves each link whose line is there, so
/// that a frame comes over its line before it is received. What these leave is then made on one thread, as by `group_lines::finish`.
///
/// The lines stand at `from * n + to`, None where there is none; all that was put into them was got. Threads take turns on the journal, so
/// the order of events is theirs; what is promised of a run is what `group_lines::finish` promises. Where no thread can be made, a
/// worker runs in this one.
pub fn run_threads<O: Ordering, L: Line, G: Gate, R: Threads + Wait + Sync>(
    rt: &R,
    alloc: Global,
    journal: Journal<O>,
    lines: Vec<Option<L>>,
    gate: &G,
) -> Ran<O, L>
    requires places { length lines.items ≡ (plan_of journal).members * (plan_of journal).members }
    requires even { All (IsEvenLine L.Line) lines.items }
    ensures plan { plan_of result.journal ≡ plan_of journal }
    ensures lines { ComeBack L.Line (rules_of O.Ordering) (plan_of journal) (past_of journal) (past_of result.journal) lines.items result.lines.items }
    ensures end { EndsRun L.Line (rules_of O.Ordering) (plan_of journal) (past_of journal) (past_of result.journal) lines.items result.lines.items result.end }
    ensures full { GoesOnFullAtRestBut (IsAside L.Line (rules_of O.Ordering) (plan_of journal) (past_of journal) (past_of result.journal) lines.items result.lines.items) (rules_of O.Ordering) (plan_of journal) (past_of journal) (past_of result.journal) }
{
    match no_states(alloc, lines.len()) {
        Ok(states) => share_out(rt, alloc, journal, lines, states, gate),
        Err(AllocError) => untouched(journal, lines),
    }
}
