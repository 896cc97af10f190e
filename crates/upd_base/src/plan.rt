//! The input of a run, checked once against all limits, with the bound on events that follows from its counts.
ghost use Rattle.std.specs.Prelude.{◌≡◌, true, ◌+◌, ◌*◌, ◌≤◌, ◌<◌, ◌^◌, ◌-◌, min, map, Some, IfOk, sum_by, length, slice_get};
ghost use Rattle.std.specs.List.{list_all};
ghost use Rattle.upd_base.specs.Plan.{bodies_bound, bound, call_fits, change_count, changes_in, is_plan, plan_of, plan_where_it_fits, planned, send_count, sends_in, step_fits, steps_in, steps_of, Planned};

use crate::call::{Call, Step};
use crate::kind::Kind;
use crate::limits::{MAX_CALLS, MAX_CHANGES, MAX_MEMBERS, MAX_THREADS};
use crate::no_memory::NoMemory;
use std::alloc::Global;
use std::marker::Model;

/// What a run is asked for: 1 to 7 members, the kind of version 0, and for each of 1 to 16 threads its
/// calls in order, at most 1,000 in all and at most 32 of them changes. Each call is one that no member
/// refuses as bad kind or bad member.
#[derive(Drop)]
pub struct Plan {
    members: u8,
    first: Kind,
    threads: Vec<Vec<Step>>,
}

impl Model for Plan {
    ghost use Rattle.std.specs.Prelude.{map, ◌≡◌, true};
    ghost use Rattle.upd_base.specs.Plan.{Planned, is_plan};

    ghost Value = { Planned };

    ghost view = { λ p. record { members = p.members; first = p.first; threads = map (λ t. t.items) p.threads.items } };

    ghost invariant = { λ p. is_plan (record { members = p.members; first = p.first; threads = map (λ t. t.items) p.threads.items }) ≡ true };
}

impl Plan {
    /// None exactly where a limit or rule is broken.
    pub fn new(members: u8, first: Kind, threads: Vec<Vec<Step>>) -> Option<Plan>
        ensures { result ≡ plan_where_it_fits (plan_of members first (map (λ t. t.items) threads.items)) }
    {
        if !within_limits(members, &first, threads.as_slice()) {
            return None;
        }
        Some(Plan {
            members,
            first,
            threads,
        })
    }

    /// How many members the group has, from 1 to 7.
    pub fn members(&self) -> u8
        ensures { result ≡ self.now.members }
    {
        self.members
    }

    /// The kind of version 0.
    pub fn first(&self) -> Kind
        ensures { result ≡ self.now.first }
    {
        self.first
    }

    /// How many threads there are: 1 to 16.
    pub fn threads(&self) -> u8
        ensures { result ≡ length self.now.threads }
    {
        self.threads.len() as u8
    }

    /// How many calls the thread has: at most 1,000.
    pub fn steps(&self, thread: u8) -> u16
        requires { thread < length self.now.threads }
        ensures { result ≡ length (steps_of self.now thread) }
    {
        thread_at(self.threads.as_slice(), thread).len() as u16
    }

    /// The thread's planned call at this place, counted from 0.
    pub fn step(&self, thread: u8, index: u16) -> &Step
        requires thread { thread < length self.now.threads }
        requires index { index < length (steps_of self.now thread) }
        ensures { planned self.now thread index ≡ Some result.now }
    {
        &thread_at(self.threads.as_slice(), thread)[index as usize]
    }

    /// How many events a run has at most: the calls, and for each of the M messages and C changes, in
    /// each of up to C + 1 versions, a sending and a receipt of each of up to 2n² + 3n frames, for n
    /// members. At the limits it is 7,855,000.
    pub fn bound(&self) -> u64
        ensures { result ≡ bound self.now }
    {
        let threads = self.threads.as_slice();
        let changes = total_changes(threads);
        bound_of(
            self.members as u64,
            total_steps(threads),
            total_sends(threads),
            changes,
        )
    }

    /// The plan keeps its limits and rules: a law, for a caller that holds it borrowed.
    pub fn keeps_limits(&self)
        ensures { is_plan self.now ≡ true }
    {
        let _members = self.members;
    }

    /// The same plan; payloads' bytes are shared.
    pub fn copy(&self, alloc: Global) -> Result<Plan, NoMemory>
        ensures { IfOk result (λ plan. plan ≡ self.now) }
    {
        let threads = copies_of(alloc, self.threads.as_slice())?;
        Ok(Plan {
            members: self.members,
            first: self.first,
            threads,
        })
    }
}

#[tactic(auto, unfolding(crate::specs::Plan::is_plan, crate::specs::Plan::is_open))]
fn within_limits(members: u8, first: &Kind, threads: &[Vec<Step>]) -> bool
    ensures { result ≡ is_plan (plan_of members first.now (map (λ t. t.items) threads.now)) }
{
    if members < 1 || members > MAX_MEMBERS {
        return false;
    }
    if !first.fits(members) {
        return false;
    }
    if threads.is_empty() || threads.len() > MAX_THREADS {
        return false;
    }
    if !all_fit(members, threads) {
        return false;
    }
    if total_steps(threads) > MAX_CALLS {
        return false;
    }
    total_changes(threads) <= MAX_CHANGES
}

fn step_fits(members: u8, step: &Step) -> bool
    ensures { result ≡ step_fits members step.now }
{
    let at = step.at.get();
    if at >= members {
        return false;
    }
    match &step.call {
        Call::Change(kind) => kind.fits(members),
        Call::Suspect(who) | Call::Trust(who) => *who < members && *who != at,
        Call::Send(_) | Call::Crash => true,
    }
}

fn thread_fits(members: u8, thread: &[Step]) -> bool
    ensures { result ≡ list_all (step_fits members) thread.now }
{
    thread.iter().all(|step| step_fits(members, step))
}

fn all_fit(members: u8, threads: &[Vec<Step>]) -> bool
    ensures { result ≡ list_all (λ t. list_all (step_fits members) t.items) threads.now }
{
    threads
        .iter()
        .all(|thread| thread_fits(members, thread.as_slice()))
}

/// How many steps there are, up to the greatest u64.
fn total_steps(threads: &[Vec<Step>]) -> u64
    ensures { result ≡ min (sum_by (λ t. length t.items) threads.now) (2 ^ 64 - 1) }
{
    let mut count = 0u64;
    for thread in threads {
        count = count.saturating_add(thread.len() as u64);
    }
    count
}

/// How many changes there are, up to the greatest u64.
fn changes_of(thread: &[Step]) -> u64
    ensures { result ≡ min (changes_in thread.now) (2 ^ 64 - 1) }
{
    let mut count = 0u64;
    for step in thread {
        if let Call::Change(_) = &step.call {
            count = count.saturating_add(1);
        }
    }
    count
}

fn total_changes(threads: &[Vec<Step>]) -> u64
    ensures { result ≡ min (sum_by (λ t. changes_in t.items) threads.now) (2 ^ 64 - 1) }
{
    let mut count = 0u64;
    for thread in threads {
        count = count.saturating_add(changes_of(thread.as_slice()));
    }
    count
}

/// How many messages a thread sends, up to the greatest u64.
fn sends_of(thread: &[Step]) -> u64
    ensures { result ≡ min (sends_in thread.now) (2 ^ 64 - 1) }
{
    let mut count = 0u64;
    for step in thread {
        if let Call::Send(_) = &step.call {
            count = count.saturating_add(1);
        }
    }
    count
}

/// How many messages are sent, up to the greatest u64.
fn total_sends(threads: &[Vec<Step>]) -> u64
    ensures { result ≡ min (sum_by (λ t. sends_in t.items) threads.now) (2 ^ 64 - 1) }
{
    let mut count = 0u64;
    for thread in threads {
        count = count.saturating_add(sends_of(thread.as_slice()));
    }
    count
}

fn copy_of(alloc: Global, steps: &[Step]) -> Result<Vec<Step>, NoMemory>
    ensures { IfOk result (λ copies. copies.items ≡ steps.now) }
{
    let mut copies = Vec::new(alloc);
    for step in steps {
        copies.push(step.copy()?)?;
    }
    Ok(copies)
}

fn copies_of(alloc: Global, threads: &[Vec<Step>]) -> Result<Vec<Vec<Step>>, NoMemory>
    ensures { IfOk result (λ copies. map (λ t. t.items) copies.items ≡ map (λ t. t.items) threads.now) }
{
    let mut copies = Vec::new(alloc);
    for thread in threads {
        copies.push(copy_of(alloc, thread.as_slice())?)?;
    }
    Ok(copies)
}

fn thread_at(threads: &[Vec<Step>], thread: u8) -> &[Step]
    requires { thread < length threads.now }
    ensures { slice_get (map (λ t. t.items) threads.now) thread ≡ Some result.now }
{
    threads[thread as usize].as_slice()
}

fn bound_of(members: u64, calls: u64, sends: u64, changes: u64) -> u64
    requires members { members ≤ MAX_MEMBERS }
    requires calls { calls ≤ MAX_CALLS }
    requires broadcasts { sends + changes ≤ calls }
    requires changes { changes ≤ MAX_CHANGES }
    ensures { result ≡ calls + 2 * bodies_bound members * (sends + changes) * (changes + 1) }
{
    let bodies = 2 * members * members + 3 * members;
    calls + 2 * bodies * (sends + changes) * (changes + 1)
}
