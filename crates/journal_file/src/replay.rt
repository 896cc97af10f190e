//! The replay of a recorded run: each event is made again from the plan, and each call must get the answer written.
ghost use Rattle.std.specs.Prelude.{ℕ, List, true, Some, ◌≡◌, ◌<◌, ◌≤◌, IfOk, IfErr, IfSome, IfNone, length, map};
ghost use Rattle.upd_base.specs.Plan.{bound, planned};
ghost use Rattle.upd_base.specs.declared.call.Step.{Step};
ghost use Rattle.upd_base.specs.declared.event.Event.TheVariants.{Call as CallEvent, Receive, Release};
ghost use Rattle.group_run.specs.Laws.{ServesPlan};
ghost use Rattle.group_run.specs.Run.{IsGroupRun};
ghost use Rattle.member_rules.specs.Kept.{rules_of};
ghost use Rattle.run_journal.specs.Journal.{plan_of, events_of, past_of};
ghost use Rattle.journal_file.specs.Reading.{IsJournalText, ReadFault};
ghost use Rattle.journal_file.specs.Tried.{IsTried};
ghost use Rattle.journal_file.specs.Written.{event_written};

use crate::fault::JournalFault;
use crate::lines::Written;
use order_trait::Ordering;
use run_journal::{CallFault, Journal, ReleaseFault};
use std::alloc::Global;
use upd_base::{Answer, MemberId, NoMemory, Plan};

/// Makes the events of a text in their order, from the opening of its plan.
pub(crate) fn replay<O: Ordering>(
    alloc: Global,
    plan: Plan,
    events: &[Written],
) -> Result<Journal<O>, JournalFault>
    requires first_served { O.is_served plan.first ≡ true }
    requires served { ServesPlan (rules_of O.Ordering) plan }
    requires few { length events.now ≤ bound plan }
    ensures plan { IfOk result (λ j. plan_of j ≡ plan) }
    ensures events { IfOk result (λ j. events_of j ≡ map event_written events.now) }
    ensures fault { IfErr result (λ fault. (bytes : List ℕ) → IsJournalText bytes plan (map event_written events.now) → ReadFault (rules_of O.Ordering) bytes fault) }
{
    let mut journal = Journal::begin(alloc, plan)?;
    for (index, written) in events.iter().enumerate() {
        if !make(alloc, &mut journal, written)? {
            return Err(JournalFault::Event(index as u64 + 1));
        }
    }
    Ok(journal)
}

/// Makes an event, where it can be made and is answered so. Else it is none of the run.
fn make<O: Ordering>(
    alloc: Global,
    journal: &mut Journal<O>,
    written: &Written,
) -> Result<bool, NoMemory>
    requires { length (past_of journal.old) < bound (plan_of journal.old) }
    ensures plan { plan_of journal.new ≡ plan_of journal.old }
    ensures run { IsGroupRun (rules_of O.Ordering) (plan_of journal.old) (past_of journal.old) }
    ensures tried { IfOk result (IsTried (rules_of O.Ordering) (plan_of journal.old) (past_of journal.old) (past_of journal.new) (event_written written.now)) }
{
    journal.plan();
    match *written {
        Written::Call {
            thread,
            index,
            member,
            answer,
        } => make_call(alloc, journal, thread, index, member, answer),
        Written::Receive { from, to } => make_receipt(alloc, journal, from, to),
        Written::Release { at } => make_release(alloc, journal, at),
    }
}

fn make_call<O: Ordering>(
    alloc: Global,
    journal: &mut Journal<O>,
    thread: u32,
    index: u32,
    member: u32,
    answer: Answer,
) -> Result<bool, NoMemory>
    requires { length (past_of journal.old) < bound (plan_of journal.old) }
    ensures plan { plan_of journal.new ≡ plan_of journal.old }
    ensures tried { IfOk result (IsTried (rules_of O.Ordering) (plan_of journal.old) (past_of journal.old) (past_of journal.new) (CallEvent thread index member answer)) }
{
    let Some(thread) = thread_of_call(journal.plan(), thread, index, member) else {
        return Ok(false);
    };
    if u32::from(journal.made(thread)) != index {
        return Ok(false);
    }
    match journal.call(alloc, thread) {
        Ok(given) => Ok(given == answer),
        Err(CallFault::NoMemory) => Err(NoMemory),
        Err(CallFault::PlanDone | CallFault::Spent) => unreachable!(),
    }
}

/// The thread of a planned call; None exactly where the plan has no such call at such a member.
fn thread_of_call(plan: &Plan, thread: u32, index: u32, member: u32) -> Option<u8>
    ensures some { IfSome result (λ t. (t ≡ thread) × (t < length plan.now.threads) × (s : Step) × (planned plan.now thread index ≡ Some s) × (member ≡ s.at)) }
    ensures none { IfNone result ((s : Step) → planned plan.now thread index ≡ Some s → member ≡ s.at → ⊥) }
{
    if thread >= u32::from(plan.threads()) {
        return None;
    }
    let thread = thread as u8;
    if index >= u32::from(plan.steps(thread)) {
        return None;
    }
    if u32::from(plan.step(thread, index as u16).at.get()) != member {
        return None;
    }
    Some(thread)
}

fn make_receipt<O: Ordering>(
    alloc: Global,
    journal: &mut Journal<O>,
    from: u32,
    to: u32,
) -> Result<bool, NoMemory>
    requires { length (past_of journal.old) < bound (plan_of journal.old) }
    ensures plan { plan_of journal.new ≡ plan_of journal.old }
    ensures tried { IfOk result (IsTried (rules_of O.Ordering) (plan_of journal.old) (past_of journal.old) (past_of journal.new) (Receive from to)) }
{
    let Some(from) = member_of(journal.plan(), from) else {
        return Ok(false);
    };
    let Some(to) = member_of(journal.plan(), to) else {
        return Ok(false);
    };
    match journal.receive_next(alloc, from, to) {
        Ok(made) => Ok(made),
        Err(ReleaseFault::NoMemory) => Err(NoMemory),
        Err(ReleaseFault::Spent) => unreachable!(),
    }
}

fn make_release<O: Ordering>(
    alloc: Global,
    journal: &mut Journal<O>,
    at: u32,
) -> Result<bool, NoMemory>
    requires { length (past_of journal.old) < bound (plan_of journal.old) }
    ensures plan { plan_of journal.new ≡ plan_of journal.old }
    ensures tried { IfOk result (IsTried (rules_of O.Ordering) (plan_of journal.old) (past_of journal.old) (past_of journal.new) (Release at)) }
{
    let Some(at) = member_of(journal.plan(), at) else {
        return Ok(false);
    };
    match journal.release(alloc, at) {
        Ok(made) => Ok(made),
        Err(ReleaseFault::NoMemory) => Err(NoMemory),
        Err(ReleaseFault::Spent) => unreachable!(),
    }
}

/// The member of this number; None exactly where the plan has none.
fn member_of(plan: &Plan, number: u32) -> Option<MemberId>
    ensures some { IfSome result (λ m. (m ≡ number) × (m < plan.now.members)) }
    ensures none { IfNone result (plan.now.members ≤ number) }
{
    plan.keeps_limits();
    if number >= u32::from(plan.members()) {
        return None;
    }
    MemberId::new(number as u8)
}
