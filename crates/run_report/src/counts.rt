//! The totals of a report: members, events, calls made of those planned, and the answers of each sort.
ghost use Rattle.std.specs.Prelude.{◌≡◌, ◌++◌, OnOk, count_by, sum_by};
ghost use Rattle.upd_base.specs.Plan.{steps_in};
ghost use Rattle.run_journal.specs.Journal.{plan_of, past_of};
ghost use Rattle.run_report.specs.Report.{counts_of, counts_text, is_accepted, is_answered, is_call, is_crashed, is_done, is_full};

use crate::lines::{answers_line, put, run_line};
use order_trait::Ordering;
use run_journal::Journal;
use std::alloc::{AllocError, Global};
use upd_base::{Answer, Event, Plan};

/// The two lines of counts.
pub fn put_counts<O: Ordering>(
    alloc: Global,
    out: &mut Vec<u8>,
    journal: &Journal<O>,
) -> Result<(), AllocError>
    ensures { OnOk result (out.new.items ≡ out.old.items ++ counts_text (plan_of journal.now) (past_of journal.now)) }
{
    let plan = journal.plan();
    put_lines(alloc, out, plan.members(), planned(plan), journal.events())
}

fn put_lines(
    alloc: Global,
    out: &mut Vec<u8>,
    members: u8,
    planned: u64,
    events: &[Event],
) -> Result<(), AllocError>
    ensures { OnOk result (out.new.items ≡ out.old.items ++ counts_of members planned events.now) }
{
    let first = run_line(alloc, members, events.len(), calls(events), planned)?;
    put(out, first.as_str())?;
    let second = answers_line(
        alloc,
        accepted(events),
        done(events),
        full(events),
        crashed(events),
    )?;
    put(out, second.as_str())
}

/// How many calls a plan has: at most 1,000.
fn planned(plan: &Plan) -> u64
    ensures { result ≡ sum_by steps_in plan.now.threads }
{
    plan.keeps_limits();
    let mut calls = 0u64;
    for thread in 0..plan.threads() {
        calls = calls.saturating_add(u64::from(plan.steps(thread)));
    }
    calls
}

fn calls(events: &[Event]) -> usize
    ensures { result ≡ count_by is_call events.now }
{
    events.iter().filter(|event| is_call(event)).count()
}

fn is_call(event: &Event) -> bool
    ensures { result ≡ is_call event.now }
{
    match event {
        Event::Call { .. } => true,
        Event::Receive { .. } | Event::Release { .. } => false,
    }
}

fn accepted(events: &[Event]) -> usize
    ensures { result ≡ count_by (is_answered is_accepted) events.now }
{
    events.iter().filter(|event| is_accepted(event)).count()
}

fn is_accepted(event: &Event) -> bool
    ensures { result ≡ is_answered is_accepted event.now }
{
    match event {
        Event::Call { answer, .. } => match answer {
            Answer::Accepted(_) => true,
            _ => false,
        },
        Event::Receive { .. } | Event::Release { .. } => false,
    }
}

fn done(events: &[Event]) -> usize
    ensures { result ≡ count_by (is_answered is_done) events.now }
{
    events.iter().filter(|event| is_done(event)).count()
}

fn is_done(event: &Event) -> bool
    ensures { result ≡ is_answered is_done event.now }
{
    match event {
        Event::Call { answer, .. } => match answer {
            Answer::Done => true,
            _ => false,
        },
        Event::Receive { .. } | Event::Release { .. } => false,
    }
}

fn full(events: &[Event]) -> usize
    ensures { result ≡ count_by (is_answered is_full) events.now }
{
    events.iter().filter(|event| is_full(event)).count()
}

fn is_full(event: &Event) -> bool
    ensures { result ≡ is_answered is_full event.now }
{
    match event {
        Event::Call { answer, .. } => match answer {
            Answer::Full => true,
            _ => false,
        },
        Event::Receive { .. } | Event::Release { .. } => false,
    }
}

fn crashed(events: &[Event]) -> usize
    ensures { result ≡ count_by (is_answered is_crashed) events.now }
{
    events.iter().filter(|event| is_crashed(event)).count()
}

fn is_crashed(event: &Event) -> bool
    ensures { result ≡ is_answered is_crashed event.now }
{
    match event {
        Event::Call { answer, .. } => match answer {
            Answer::Crashed => true,
            _ => false,
        },
        Event::Receive { .. } | Event::Release { .. } => false,
    }
}
