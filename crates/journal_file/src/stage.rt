//! The grammar of a journal as a state machine over lines: what is wanted next, with what was read so far.
ghost use Rattle.std.specs.Prelude.{◌≡◌, ◌≤◌, [], IfOk, IfSome, IfNone, length, map};
ghost use Rattle.upd_base.specs.Plan.{change_count};
ghost use Rattle.journal_file.specs.Grammar.{calls_with, event_or_end, step_or_thread, thread_or_events, with_thread};
ghost use Rattle.journal_file.specs.Grammar.Wanted.{WantsEnd, WantsEvent, WantsEvents, WantsFirst, WantsHeading, WantsMembers, WantsNothing, WantsStep, WantsThread, WantsThreads};
ghost use Rattle.journal_file.specs.Reading.{IsLine, IsRefused};
ghost use Rattle.journal_file.specs.Stage.{AreCounted, IsCounted, IsNext, drafted, wanted_by};
ghost use Rattle.journal_file.specs.Within.{IsWithin};
ghost use Rattle.journal_file.specs.Written.{event_written};

use crate::lines::{
    Written, event_of, events_of, first_of, is_heading, is_last, members_of, step_of, thread_of,
    threads_of,
};
use std::alloc::Global;
use upd_base::{Call, Kind, MAX_CALLS, MAX_CHANGES, NoMemory, Plan, Step};

/// A plan that is being read: the threads that are whole, and how many calls and changes were read.
#[derive(Drop)]
pub(crate) struct Draft {
    members: u8,
    first: Kind,
    threads: Vec<Vec<Step>>,
    /// Of the threads that are whole.
    calls: u64,
    /// Of these, and of the thread that is being read.
    changes: u64,
}

/// What a text says.
#[derive(Drop)]
pub(crate) struct Recorded {
    pub(crate) plan: Plan,
    pub(crate) events: Vec<Written>,
}

/// What is wanted next, with what was read so far.
#[derive(Drop)]
pub(crate) enum Stage {
    Heading,
    Members,
    First {
        members: u8,
    },
    Threads {
        members: u8,
        first: Kind,
    },
    /// A thread, with so many left behind it.
    Thread {
        draft: Draft,
        left: u8,
    },
    /// A step, after these of its thread, with so many left behind it, and so many threads.
    Step {
        draft: Draft,
        steps: Vec<Step>,
        left: u16,
        threads: u8,
    },
    /// How many events there are.
    Events {
        plan: Plan,
    },
    /// An event, with so many left behind it.
    Event {
        plan: Plan,
        events: Vec<Written>,
        left: u64,
    },
    End {
        plan: Plan,
        events: Vec<Written>,
    },
    Nothing {
        plan: Plan,
        events: Vec<Written>,
    },
}

impl Stage {
    /// The stage after a line; None exactly where the line isn't what is wanted.
    pub(crate) fn after(self, alloc: Global, line: &[u8]) -> Result<Option<Stage>, NoMemory>
        requires within { IsWithin (wanted_by self) }
        requires counted { IsCounted self }
        ensures { IfOk result (IsNext (wanted_by self) line.now) }
    {
        match self {
            Stage::Heading => Ok(after_heading(line)),
            Stage::Members => Ok(after_members(line)),
            Stage::First { members } => Ok(after_first(line, members)),
            Stage::Threads { members, first } => Ok(after_threads(alloc, line, members, first)),
            Stage::Thread { draft, left } => after_thread(alloc, line, draft, left),
            Stage::Step {
                draft,
                steps,
                left,
                threads,
            } => after_step(alloc, line, draft, steps, left, threads),
            Stage::Events { plan } => Ok(after_events(alloc, line, plan)),
            Stage::Event { plan, events, left } => after_event(line, plan, events, left),
            Stage::End { plan, events } => Ok(after_end(line, plan, events)),
            Stage::Nothing { .. } => Ok(None),
        }
    }

    /// What was read, where no line more is wanted and no byte is left.
    pub(crate) fn finish(self, rest: &[u8]) -> Option<Recorded>
        requires { IsLine rest.now }
        ensures some { IfSome result (λ r. (wanted_by self ≡ WantsNothing r.plan (map event_written r.events.items)) × (rest.now ≡ [])) }
        ensures none { IfNone result (IsRefused (wanted_by self) rest.now) }
    {
        match self {
            Stage::Nothing { plan, events } => {
                if rest.is_empty() {
                    Some(Recorded { plan, events })
                } else {
                    None
                }
            }
            _ => None,
        }
    }
}

fn after_heading(line: &[u8]) -> Option<Stage>
    ensures { IsNext WantsHeading line.now result }
{
    if is_heading(line) {
        Some(Stage::Members)
    } else {
        None
    }
}

fn after_members(line: &[u8]) -> Option<Stage>
    ensures { IsNext WantsMembers line.now result }
{
    let members = members_of(line)?;
    Some(Stage::First { members })
}

fn after_first(line: &[u8], members: u8) -> Option<Stage>
    requires { IsWithin (WantsFirst members) }
    ensures { IsNext (WantsFirst members) line.now result }
{
    let first = first_of(line, members)?;
    Some(Stage::Threads { members, first })
}

fn after_threads(alloc: Global, line: &[u8], members: u8, first: Kind) -> Option<Stage>
    ensures { IsNext (WantsThreads members first) line.now result }
{
    let count = threads_of(line)?;
    let draft = Draft {
        members,
        first,
        threads: Vec::new(alloc),
        calls: 0,
        changes: 0,
    };
    Some(Stage::Thread {
        draft,
        left: count - 1,
    })
}

fn after_thread(
    alloc: Global,
    line: &[u8],
    draft: Draft,
    left: u8,
) -> Result<Option<Stage>, NoMemory>
    requires within { IsWithin (WantsThread (drafted draft) left) }
    requires counted { AreCounted draft [] }
    ensures { IfOk result (IsNext (WantsThread (drafted draft) left) line.now) }
{
    let Some(count) = thread_of(line, MAX_CALLS - draft.calls) else {
        return Ok(None);
    };
    let stage = step_or_thread(draft, Vec::new(alloc), count, left)?;
    Ok(Some(stage))
}

fn after_step(
    alloc: Global,
    line: &[u8],
    draft: Draft,
    mut steps: Vec<Step>,
    left: u16,
    threads: u8,
) -> Result<Option<Stage>, NoMemory>
    requires within { IsWithin (WantsStep (drafted draft) steps.items left threads) }
    requires counted { AreCounted draft steps.items }
    ensures { IfOk result (IsNext (WantsStep (drafted draft) steps.items left threads) line.now) }
{
    let Some(step) = step_of(alloc, line, draft.members)? else {
        return Ok(None);
    };
    let changes = draft.changes + change_count(&step.call);
    if changes > MAX_CHANGES {
        return Ok(None);
    }
    let draft = Draft { changes, ..draft };
    steps.push(step)?;
    let stage = step_or_thread(draft, steps, left, threads)?;
    Ok(Some(stage))
}

fn after_events(alloc: Global, line: &[u8], plan: Plan) -> Option<Stage>
    ensures { IsNext (WantsEvents plan) line.now result }
{
    let count = events_of(line, plan.bound())?;
    Some(event_or_end(plan, Vec::new(alloc), count))
}

fn after_event(
    line: &[u8],
    plan: Plan,
    mut events: Vec<Written>,
    left: u64,
) -> Result<Option<Stage>, NoMemory>
    ensures { IfOk result (IsNext (WantsEvent plan (map event_written events.items) left) line.now) }
{
    let Some(event) = event_of(line) else {
        return Ok(None);
    };
    events.push(event)?;
    Ok(Some(event_or_end(plan, events, left)))
}

fn after_end(line: &[u8], plan: Plan, events: Vec<Written>) -> Option<Stage>
    ensures { IsNext (WantsEnd plan (map event_written events.items)) line.now result }
{
    if is_last(line) {
        Some(Stage::Nothing { plan, events })
    } else {
        None
    }
}

/// The stage where so many steps of a thread are left, and so many threads behind it.
fn step_or_thread(draft: Draft, steps: Vec<Step>, left: u16, threads: u8) -> Result<Stage, NoMemory>
    requires within { IsWithin (step_or_thread (drafted draft) steps.items left threads) }
    requires counted { AreCounted draft steps.items }
    ensures wanted { IfOk result (λ stage. wanted_by stage ≡ step_or_thread (drafted draft) steps.items left threads) }
    ensures counted { IfOk result IsCounted }
{
    if left > 0 {
        return Ok(Stage::Step {
            draft,
            steps,
            left: left - 1,
            threads,
        });
    }
    Ok(thread_or_events(with_thread(draft, steps)?, threads))
}

/// The draft with one more thread.
fn with_thread(draft: Draft, steps: Vec<Step>) -> Result<Draft, NoMemory>
    requires few { calls_with (drafted draft) (length steps.items) ≤ MAX_CALLS }
    requires counted { AreCounted draft steps.items }
    ensures plan { IfOk result (λ d. drafted d ≡ with_thread (drafted draft) steps.items) }
    ensures counted { IfOk result (λ d. AreCounted d []) }
{
    let Draft {
        members,
        first,
        mut threads,
        calls,
        changes,
    } = draft;
    let calls = calls + steps.len() as u64;
    threads.push(steps)?;
    Ok(Draft {
        members,
        first,
        threads,
        calls,
        changes,
    })
}

/// The stage where so many threads are left.
fn thread_or_events(draft: Draft, left: u8) -> Stage
    requires within { IsWithin (thread_or_events (drafted draft) left) }
    requires counted { AreCounted draft [] }
    ensures wanted { wanted_by result ≡ thread_or_events (drafted draft) left }
    ensures counted { IsCounted result }
{
    if left > 0 {
        return Stage::Thread {
            draft,
            left: left - 1,
        };
    }
    match Plan::new(draft.members, draft.first, draft.threads) {
        Some(plan) => Stage::Events { plan },
        None => unreachable!(),
    }
}

/// The stage where so many events are left.
fn event_or_end(plan: Plan, events: Vec<Written>, left: u64) -> Stage
    ensures wanted { wanted_by result ≡ event_or_end plan (map event_written events.items) left }
    ensures counted { IsCounted result }
{
    if left > 0 {
        return Stage::Event {
            plan,
            events,
            left: left - 1,
        };
    }
    Stage::End { plan, events }
}

fn change_count(call: &Call) -> u64
    ensures { result ≡ change_count call.now }
{
    match call {
        Call::Change(_) => 1,
        Call::Send(_) | Call::Suspect(_) | Call::Trust(_) | Call::Crash => 0,
    }
}
