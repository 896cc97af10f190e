//! The random schedule: a seeded generator draws each next event from the open moves, so plan and seed fix the run.
ghost use Rattle.std.specs.Prelude.{ℕ, true, false, ◌≡◌, ◌<◌, ◌≤◌, ◌+◌, length, OnOk, OnErr, IfOk, Some, All, is_some, option_copied, slice_get, filter, not, ◌&&◌};
ghost use Rattle.rand_pcg.specs.Lcg.{Lcg};
ghost use Rattle.upd_base.specs.Plan.{bound};
ghost use Rattle.member_rules.specs.Kept.{rules_of};
ghost use Rattle.group_run.specs.Settled.{IsSettled};
ghost use Rattle.run_journal.specs.Journal.{plan_of, past_of};
ghost use Rattle.rehearsal.specs.Choices.{IsChoice, choices, has_room, is_open};
ghost use Rattle.rehearsal.specs.Seeded.{drawn, seeded, words_of};
ghost use Rattle.rehearsal.specs.Ends.{EndsAt, IsOnTheWay};
ghost use Rattle.rehearsal.specs.FullAtRest.{GoesOnFullAtRest};

use crate::choices::choices;
use crate::rehearsed::{Rehearsed, end_of};
use crate::visit::{force, visit};
use group_world::Move;
use order_trait::Ordering;
use rand_core::SeedableRng;
use rand_core::utils::NextWord;
use rand_pcg::Pcg32;
use run_journal::Journal;
use std::alloc::Global;
use upd_base::NoMemory;

/// Goes on with a journal to the end of its run, where before each event the next word of the generator of this seed
/// chooses among the enabled moves: the next call of each thread, but for one that would be answered as full, then the
/// receipts by (from, to), then the releases by member. Where there are none, the lowest thread that has a call makes it.
/// So a call is answered as full only where nothing can be received or released.
pub fn seeded<O: Ordering>(alloc: Global, journal: Journal<O>, seed: u64) -> Rehearsed<O>
    ensures plan { plan_of result.journal ≡ plan_of journal }
    ensures events { EndsAt (rules_of O.Ordering) (plan_of journal) result.end (past_of result.journal) (seeded (rules_of O.Ordering) (plan_of journal) (past_of journal) (words_of seed)) }
    ensures full { GoesOnFullAtRest (rules_of O.Ordering) (plan_of journal) (past_of journal) (past_of result.journal) }
{
    let mut journal = journal;
    let mut words = Pcg32::seed_from_u64(seed);
    let made = run_draws(alloc, &mut journal, &mut words);
    let end = end_of(&journal, made);
    Rehearsed { journal, end }
}

/// Makes events until none is made.
fn run_draws<O: Ordering>(
    alloc: Global,
    journal: &mut Journal<O>,
    words: &mut Pcg32,
) -> Result<(), NoMemory>
    ensures plan { plan_of journal.new ≡ plan_of journal.old }
    ensures made { OnOk result (past_of journal.new ≡ seeded (rules_of O.Ordering) (plan_of journal.old) (past_of journal.old) words.old) }
    ensures rests { OnOk result (has_room (plan_of journal.old) (past_of journal.new) ≡ true → IsSettled (rules_of O.Ordering) (plan_of journal.old) (past_of journal.new)) }
    ensures err { OnErr result (IsOnTheWay (past_of journal.new) (seeded (rules_of O.Ordering) (plan_of journal.old) (past_of journal.old) words.old)) }
    ensures grows { IsOnTheWay (past_of journal.old) (past_of journal.new) }
{
    let choices = choices(alloc, journal.plan())?;
    let limit = journal.plan().bound();
    loop {
        let before = journal.len();
        draw(alloc, journal, choices.as_slice(), limit, words)?;
        if journal.len() == before {
            return Ok(());
        }
    }
}

/// Makes one event, where there is room and something is left.
fn draw<O: Ordering>(
    alloc: Global,
    journal: &mut Journal<O>,
    all: &[Move],
    limit: u64,
    words: &mut Pcg32,
) -> Result<(), NoMemory>
    requires all { all.now ≡ choices (plan_of journal.old) }
    requires limit { limit ≡ bound (plan_of journal.old) }
    ensures plan { plan_of journal.new ≡ plan_of journal.old }
    ensures made { OnOk result (past_of journal.new ≡ (drawn (rules_of O.Ordering) (plan_of journal.old) (past_of journal.old) words.old).past) }
    ensures words { OnOk result (words.new ≡ (drawn (rules_of O.Ordering) (plan_of journal.old) (past_of journal.old) words.old).words) }
    ensures err { OnErr result (past_of journal.new ≡ past_of journal.old) }
{
    if journal.len() >= limit {
        return Ok(());
    }
    let count = count_open(journal, all);
    if count == 0 {
        return force(alloc, journal);
    }
    let word = words.next_word() as usize;
    match nth_open(journal, all, word % count) {
        Some(choice) => visit(alloc, journal, choice),
        None => Ok(()),
    }
}

/// Whether a choice is open.
fn is_open<O: Ordering>(journal: &Journal<O>, choice: &Move) -> bool
    requires { IsChoice (plan_of journal.now) choice.now }
    ensures { result ≡ is_open (rules_of O.Ordering) (plan_of journal.now) (past_of journal.now) choice.now }
{
    match choice {
        Move::Call(thread) => {
            journal.made(*thread) < journal.plan().steps(*thread) && !journal.would_fill(*thread)
        }
        Move::Receive(from, to) => journal.next_frame(*from, *to).is_some(),
        Move::Release(at) => journal.ready(*at),
    }
}

/// How many of the choices are open.
fn count_open<O: Ordering>(journal: &Journal<O>, all: &[Move]) -> usize
    requires { All (λ choice. IsChoice (plan_of journal.now) choice) all.now }
    ensures { result ≡ length (filter (is_open (rules_of O.Ordering) (plan_of journal.now) (past_of journal.now)) all.now) }
{
    let mut count = 0;
    for choice in all {
        if is_open(journal, choice) {
            count += 1;
        }
    }
    count
}

/// The open choice at this place among the open ones, from 0.
fn nth_open<'a, O: Ordering>(
    journal: &Journal<O>,
    all: &'a [Move],
    place: usize,
) -> Option<&'a Move>
    requires { All (λ choice. IsChoice (plan_of journal.now) choice) all.now }
    ensures { option_copied result ≡ slice_get (filter (is_open (rules_of O.Ordering) (plan_of journal.now) (past_of journal.now)) all.now) place }
{
    let mut left = place;
    for choice in all {
        if is_open(journal, choice) {
            if left == 0 {
                return Some(choice);
            }
            left -= 1;
        }
    }
    None
}
