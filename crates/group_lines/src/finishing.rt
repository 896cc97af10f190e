//! The rest of a group's run over lines, on one thread: with lines that are new in the call, or used before in it.
ghost use Rattle.std.specs.Prelude.{ℕ, ◌≡◌, ◌*◌, ◌<◌, List, Option, length, map, All, IfOk};
ghost use Rattle.member_rules.specs.Kept.{rules_of};
ghost use Rattle.group_run.specs.Run.{Events};
ghost use Rattle.run_journal.specs.Journal.{plan_of, past_of};
ghost use Rattle.line_rules.specs.Received.{GoesOn};
ghost use Rattle.line_rules.specs.Lines.{AreOnTheWay, AreReady, ComeBack, IsAside, IsEvenLine};
ghost use Rattle.line_rules.specs.Rest.{GoesOnFullAtRestBut};
ghost use Rattle.line_rules.specs.Ends.{EndsRun};
ghost use Rattle.group_lines.specs.Visits.{Went};
ghost use Rattle.group_lines.specs.Told.{TellsEnd, first_state};

use crate::ending::end_of;
use crate::ran::Ran;
use crate::rounds::run_rounds;
use line_rules::{LineState, RunEnd};
use order_trait::Ordering;
use run_journal::Journal;
use std::alloc::{AllocError, Global};
use upd_base::NoMemory;
use upd_lines::Line;

/// Makes what remains of a run on one thread, by rounds: each thread makes its next call unless that would be answered as full; on each
/// link, by (from, to), the next frame is received through the link's line; each member makes a release. A line that fails or gives
/// another byte than was put is used no more. After a round that made no event the lowest thread that has a call makes it.
///
/// The lines stand at `from * n + to`, None where there is none; all that was put into them was got.
pub fn finish<O: Ordering, L: Line>(
    alloc: Global,
    journal: Journal<O>,
    lines: Vec<Option<L>>,
) -> Ran<O, L>
    requires places { length lines.items ≡ (plan_of journal).members * (plan_of journal).members }
    requires even { All (IsEvenLine L.Line) lines.items }
    ensures plan { plan_of result.journal ≡ plan_of journal }
    ensures lines { ComeBack L.Line (rules_of O.Ordering) (plan_of journal) (past_of journal) (past_of result.journal) lines.items result.lines.items }
    ensures end { EndsRun L.Line (rules_of O.Ordering) (plan_of journal) (past_of journal) (past_of result.journal) lines.items result.lines.items result.end }
    ensures full { GoesOnFullAtRestBut (IsAside L.Line (rules_of O.Ordering) (plan_of journal) (past_of journal) (past_of result.journal) lines.items result.lines.items) (rules_of O.Ordering) (plan_of journal) (past_of journal) (past_of result.journal) }
{
    match states_of(alloc, lines.as_slice()) {
        Ok(states) => finish_from(alloc, journal, lines, states),
        Err(_) => Ran {
            journal,
            lines,
            end: RunEnd::NoMemory,
        },
    }
}

/// The states of lines that no frame came over yet.
fn states_of<L>(alloc: Global, lines: &[Option<L>]) -> Result<Vec<LineState>, AllocError>
    ensures { IfOk result (λ states. states.items ≡ map first_state lines.now) }
{
    lines.iter().map(first_state).collect(alloc)
}

fn first_state<L>(line: &Option<L>) -> LineState
    ensures { result ≡ first_state line.now }
{
    match line {
        Some(_) => LineState::Serving(0),
        None => LineState::Missing,
    }
}

/// The same where the lines were used before in the call, from whatever start with whatever lines.
pub fn finish_from<O: Ordering, L: Line>(
    alloc: Global,
    journal: Journal<O>,
    lines: Vec<Option<L>>,
    states: Vec<LineState>,
) -> Ran<O, L>
    requires ready { AreReady L.Line (rules_of O.Ordering) (plan_of journal) (past_of journal) lines.items states.items }
    ensures plan { plan_of result.journal ≡ plan_of journal }
    ensures goes_on { GoesOn (past_of journal) (past_of result.journal) }
    ensures lines { (start : Events) (old : List (Option L)) → GoesOn start (past_of journal) → AreOnTheWay L.Line (rules_of O.Ordering) (plan_of journal) start (past_of journal) old lines.items states.items
        → ComeBack L.Line (rules_of O.Ordering) (plan_of journal) start (past_of result.journal) old result.lines.items }
    ensures end { (start : Events) (old : List (Option L)) → GoesOn start (past_of journal) → AreOnTheWay L.Line (rules_of O.Ordering) (plan_of journal) start (past_of journal) old lines.items states.items
        → EndsRun L.Line (rules_of O.Ordering) (plan_of journal) start (past_of result.journal) old result.lines.items result.end }
    ensures full { (start : Events) (old : List (Option L)) → GoesOn start (past_of journal) → AreOnTheWay L.Line (rules_of O.Ordering) (plan_of journal) start (past_of journal) old lines.items states.items
        → GoesOnFullAtRestBut (λ _ _. ⊥) (rules_of O.Ordering) (plan_of journal) start (past_of journal)
        → GoesOnFullAtRestBut (IsAside L.Line (rules_of O.Ordering) (plan_of journal) start (past_of result.journal) old result.lines.items) (rules_of O.Ordering) (plan_of journal) start (past_of result.journal) }
{
    let mut journal = journal;
    let mut lines = lines;
    let mut states = states;
    let end = run_to_end(
        alloc,
        &mut journal,
        lines.as_mut_slice(),
        states.as_mut_slice(),
    );
    Ran {
        journal,
        lines,
        end,
    }
}

fn run_to_end<O: Ordering, L: Line>(
    alloc: Global,
    journal: &mut Journal<O>,
    lines: &mut [Option<L>],
    states: &mut [LineState],
) -> RunEnd
    requires ready { AreReady L.Line (rules_of O.Ordering) (plan_of journal.old) (past_of journal.old) lines.old states.old }
    ensures plan { plan_of journal.new ≡ plan_of journal.old }
    ensures went { Went L.Line (rules_of O.Ordering) (plan_of journal.old) (past_of journal.old) (past_of journal.new) lines.old lines.new states.old states.new }
    ensures end { TellsEnd (rules_of O.Ordering) (plan_of journal.old) (past_of journal.new) states.new result }
{
    match run_rounds(alloc, journal, lines, states) {
        Ok(()) => end_of(journal, states),
        Err(NoMemory) => RunEnd::NoMemory,
    }
}
