//! The worker of a thread of the plan: it makes the thread's calls.
ghost use Rattle.std.specs.Prelude.{◌≡◌, ◌<◌, length};
ghost use Rattle.turn_lock.specs.Lists.{IsPrefix};
ghost use Rattle.turn_lock.specs.Pass.{parts};
ghost use Rattle.live_group.specs.SharedGroup.{plan_shared};
ghost use Rattle.live_group.specs.Pass.{events_seen};
ghost use Rattle.member_threads.specs.Worker.{IsWorkersPass};

use crate::step::Step;
use live_group::{GroupPass, LiveGroup, Offer};
use order_trait::Ordering;
use run_journal::CallFault;
use std::alloc::Global;
use std::sync::Wait;
use std::thread;
use upd_base::MAX_CALLS;
use worker_gates::Gate;

/// How often one call is tried at most, as long as its member is full.
const TRIES: u32 = 1_000;

/// Makes the next call of a thread, unless its member is full.
fn try_call<O: Ordering, R: Wait>(
    rt: &R,
    alloc: Global,
    group: &LiveGroup<O>,
    pass: &mut GroupPass<O>,
    thread: u8,
) -> Step
    requires pass { IsWorkersPass group.now (λ _. ⊥) pass.old }
    requires thread { thread < length (plan_shared group.now).threads }
    ensures pass { IsWorkersPass group.now (λ _. ⊥) pass.new }
    ensures parts { parts pass.new ≡ parts pass.old }
    ensures seen { IsPrefix (events_seen pass.old) (events_seen pass.new) }
{
    match group.call(rt, alloc, pass, thread) {
        Ok(Offer::Answered(_)) => Step::Went,
        Ok(Offer::NotNow) => Step::Nothing,
        Err(CallFault::PlanDone) | Err(CallFault::Spent) => Step::Ended,
        Err(CallFault::NoMemory) => Step::Wanted,
    }
}

/// The same, tried again for a while where the member is full.
fn make_call<O: Ordering, R: Wait>(
    rt: &R,
    alloc: Global,
    group: &LiveGroup<O>,
    pass: &mut GroupPass<O>,
    thread: u8,
) -> Step
    requires pass { IsWorkersPass group.now (λ _. ⊥) pass.old }
    requires thread { thread < length (plan_shared group.now).threads }
    ensures pass { IsWorkersPass group.now (λ _. ⊥) pass.new }
    ensures parts { parts pass.new ≡ parts pass.old }
    ensures seen { IsPrefix (events_seen pass.old) (events_seen pass.new) }
{
    for _ in 0..TRIES {
        match try_call(rt, alloc, group, pass, thread) {
            Step::Nothing => thread::yield_now(),
            step => return step,
        }
    }
    Step::Ended
}

/// Makes the calls of a thread, one after another. Before its call of number k it passes the gate at turn 2 k, and after that call at
/// turn 2 k + 1. It leaves the rest of the thread where a member stays full. It comes back with its pass, and whether a request for
/// memory was refused.
pub(crate) fn make_calls<O: Ordering, G: Gate, R: Wait>(
    rt: &R,
    alloc: Global,
    group: &LiveGroup<O>,
    gate: &G,
    mut pass: GroupPass<O>,
    thread: u8,
) -> (GroupPass<O>, bool)
    requires pass { IsWorkersPass group.now (λ _. ⊥) pass }
    requires thread { thread < length (plan_shared group.now).threads }
    ensures pass { IsWorkersPass group.now (λ _. ⊥) result.0 }
    ensures parts { parts result.0 ≡ parts pass }
    ensures seen { IsPrefix (events_seen pass) (events_seen result.0) }
{
    for number in 0..MAX_CALLS {
        gate.pass(thread as usize, 2 * number);
        match make_call(rt, alloc, group, &mut pass, thread) {
            Step::Went => gate.pass(thread as usize, 2 * number + 1),
            step => return (pass, step == Step::Wanted),
        }
    }
    (pass, false)
}
