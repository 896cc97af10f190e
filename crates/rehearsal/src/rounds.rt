//! The round-robin schedule: a round gives each thread, each link and each member at most one event.
ghost use Rattle.std.specs.Prelude.{ℕ, true, ◌≡◌, ◌<◌, length, OnOk, OnErr, IfOk, IfErr, All};
ghost use Rattle.upd_base.specs.Plan.{bound};
ghost use Rattle.member_rules.specs.Kept.{rules_of};
ghost use Rattle.group_run.specs.Settled.{IsSettled};
ghost use Rattle.run_journal.specs.Journal.{plan_of, past_of};
ghost use Rattle.rehearsal.specs.Choices.{choices, has_room};
ghost use Rattle.rehearsal.specs.Rounds.{round, round_robin, turn};
ghost use Rattle.rehearsal.specs.Ends.{EndsAt, IsOnTheWay};
ghost use Rattle.rehearsal.specs.FullAtRest.{GoesOnFullAtRest};

use crate::choices::choices;
use crate::rehearsed::{Rehearsed, end_of};
use crate::visit::{force, visit_all};
use group_world::Move;
use order_trait::Ordering;
use run_journal::Journal;
use std::alloc::Global;
use upd_base::NoMemory;

/// Goes on with a journal by rounds to the end of its run. A round visits each thread, which makes its next call unless
/// that would be answered as full; then each link by (from, to), which makes one receipt where that is enabled; then each
/// member, which makes one release where that is enabled. After a round that made no event the lowest thread that has a
/// call makes it. So a call is answered as full only where nothing can be received or released.
pub fn round_robin<O: Ordering>(alloc: Global, journal: Journal<O>) -> Rehearsed<O>
    ensures plan { plan_of result.journal ≡ plan_of journal }
    ensures events { EndsAt (rules_of O.Ordering) (plan_of journal) result.end (past_of result.journal) (round_robin (rules_of O.Ordering) (plan_of journal) (past_of journal)) }
    ensures full { GoesOnFullAtRest (rules_of O.Ordering) (plan_of journal) (past_of journal) (past_of result.journal) }
{
    let mut journal = journal;
    let made = run_rounds(alloc, &mut journal);
    let end = end_of(&journal, made);
    Rehearsed { journal, end }
}

/// Makes rounds until one makes no event.
fn run_rounds<O: Ordering>(alloc: Global, journal: &mut Journal<O>) -> Result<(), NoMemory>
    ensures plan { plan_of journal.new ≡ plan_of journal.old }
    ensures made { OnOk result (past_of journal.new ≡ round_robin (rules_of O.Ordering) (plan_of journal.old) (past_of journal.old)) }
    ensures rests { OnOk result (has_room (plan_of journal.old) (past_of journal.new) ≡ true → IsSettled (rules_of O.Ordering) (plan_of journal.old) (past_of journal.new)) }
    ensures err { OnErr result (IsOnTheWay (past_of journal.new) (round_robin (rules_of O.Ordering) (plan_of journal.old) (past_of journal.old))) }
    ensures grows { IsOnTheWay (past_of journal.old) (past_of journal.new) }
{
    let choices = choices(alloc, journal.plan())?;
    loop {
        let before = journal.len();
        make_turn(alloc, journal, choices.as_slice())?;
        if journal.len() == before {
            return Ok(());
        }
    }
}

/// A round, or where it made no event the call that is left.
fn make_turn<O: Ordering>(
    alloc: Global,
    journal: &mut Journal<O>,
    all: &[Move],
) -> Result<(), NoMemory>
    requires { all.now ≡ choices (plan_of journal.old) }
    ensures plan { plan_of journal.new ≡ plan_of journal.old }
    ensures made { OnOk result (past_of journal.new ≡ turn (rules_of O.Ordering) (plan_of journal.old) (past_of journal.old)) }
    ensures err { OnErr result (IsOnTheWay (past_of journal.new) (turn (rules_of O.Ordering) (plan_of journal.old) (past_of journal.old))) }
    ensures grows { IsOnTheWay (past_of journal.old) (past_of journal.new) }
{
    let before = journal.len();
    visit_all(alloc, journal, all)?;
    if journal.len() > before {
        return Ok(());
    }
    force(alloc, journal)
}
