//! One step of a schedule: a chosen call, receipt or release is made where it is open, and passed over elsewhere.
ghost use Rattle.std.specs.Prelude.{ℕ, true, ◌≡◌, ◌<◌, if◌then◌else◌, length, OnOk, OnErr, IfSome, All, is_some};
ghost use Rattle.upd_base.specs.Plan.{bound};
ghost use Rattle.member_rules.specs.Kept.{rules_of};
ghost use Rattle.run_journal.specs.Journal.{plan_of, past_of};
ghost use Rattle.run_journal.specs.Causes.{next_call};
ghost use Rattle.rehearsal.specs.Choices.{IsChoice, has_room, is_open, made, waiting_thread};
ghost use Rattle.rehearsal.specs.Rounds.{all_visited, forced_call, visited};
ghost use Rattle.rehearsal.specs.Ends.{IsOnTheWay};

use group_world::Move;
use order_trait::Ordering;
use run_journal::{CallFault, Journal, ReleaseFault};
use std::alloc::Global;
use upd_base::{MemberId, NoMemory};

/// Makes a choice where it is open. At want of memory nothing is made.
pub fn visit<O: Ordering>(
    alloc: Global,
    journal: &mut Journal<O>,
    choice: &Move,
) -> Result<(), NoMemory>
    requires { IsChoice (plan_of journal.old) choice.now }
    ensures plan { plan_of journal.new ≡ plan_of journal.old }
    ensures made { OnOk result (past_of journal.new ≡ visited (rules_of O.Ordering) (plan_of journal.old) (past_of journal.old) choice.now) }
    ensures err { OnErr result (past_of journal.new ≡ past_of journal.old) }
{
    match choice {
        Move::Call(thread) => visit_thread(alloc, journal, *thread),
        Move::Receive(from, to) => visit_link(alloc, journal, *from, *to),
        Move::Release(at) => visit_member(alloc, journal, *at),
    }
}

fn visit_thread<O: Ordering>(
    alloc: Global,
    journal: &mut Journal<O>,
    thread: u8,
) -> Result<(), NoMemory>
    requires { thread < length (plan_of journal.old).threads }
    ensures plan { plan_of journal.new ≡ plan_of journal.old }
    ensures made { OnOk result (past_of journal.new ≡ visited (rules_of O.Ordering) (plan_of journal.old) (past_of journal.old) (Move.Call thread)) }
    ensures err { OnErr result (past_of journal.new ≡ past_of journal.old) }
{
    if journal.would_fill(thread) {
        return Ok(());
    }
    call(alloc, journal, thread)
}

/// Makes the next call of a thread, where it has one.
pub fn call<O: Ordering>(
    alloc: Global,
    journal: &mut Journal<O>,
    thread: u8,
) -> Result<(), NoMemory>
    requires { thread < length (plan_of journal.old).threads }
    ensures plan { plan_of journal.new ≡ plan_of journal.old }
    ensures made { OnOk result (past_of journal.new ≡ (if has_room (plan_of journal.old) (past_of journal.old) then made (rules_of O.Ordering) (plan_of journal.old) (past_of journal.old) (Move.Call thread) else past_of journal.old)) }
    ensures err { OnErr result (past_of journal.new ≡ past_of journal.old) }
{
    match journal.call(alloc, thread) {
        Ok(_) | Err(CallFault::PlanDone) | Err(CallFault::Spent) => Ok(()),
        Err(CallFault::NoMemory) => Err(NoMemory),
    }
}

fn visit_link<O: Ordering>(
    alloc: Global,
    journal: &mut Journal<O>,
    from: MemberId,
    to: MemberId,
) -> Result<(), NoMemory>
    requires from_fits { from < (plan_of journal.old).members }
    requires to_fits { to < (plan_of journal.old).members }
    ensures plan { plan_of journal.new ≡ plan_of journal.old }
    ensures made { OnOk result (past_of journal.new ≡ visited (rules_of O.Ordering) (plan_of journal.old) (past_of journal.old) (Move.Receive from to)) }
    ensures err { OnErr result (past_of journal.new ≡ past_of journal.old) }
{
    match journal.receive_next(alloc, from, to) {
        Ok(_) | Err(ReleaseFault::Spent) => Ok(()),
        Err(ReleaseFault::NoMemory) => Err(NoMemory),
    }
}

fn visit_member<O: Ordering>(
    alloc: Global,
    journal: &mut Journal<O>,
    at: MemberId,
) -> Result<(), NoMemory>
    requires { at < (plan_of journal.old).members }
    ensures plan { plan_of journal.new ≡ plan_of journal.old }
    ensures made { OnOk result (past_of journal.new ≡ visited (rules_of O.Ordering) (plan_of journal.old) (past_of journal.old) (Move.Release at)) }
    ensures err { OnErr result (past_of journal.new ≡ past_of journal.old) }
{
    match journal.release(alloc, at) {
        Ok(_) | Err(ReleaseFault::Spent) => Ok(()),
        Err(ReleaseFault::NoMemory) => Err(NoMemory),
    }
}

/// Visits choices one after another. At want of memory the events are on the way there.
pub fn visit_all<O: Ordering>(
    alloc: Global,
    journal: &mut Journal<O>,
    choices: &[Move],
) -> Result<(), NoMemory>
    requires { All (λ choice. IsChoice (plan_of journal.old) choice) choices.now }
    ensures plan { plan_of journal.new ≡ plan_of journal.old }
    ensures made { OnOk result (past_of journal.new ≡ all_visited (rules_of O.Ordering) (plan_of journal.old) (past_of journal.old) choices.now) }
    ensures err { OnErr result (IsOnTheWay (past_of journal.new) (all_visited (rules_of O.Ordering) (plan_of journal.old) (past_of journal.old) choices.now)) }
    ensures grows { IsOnTheWay (past_of journal.old) (past_of journal.new) }
{
    for choice in choices {
        visit(alloc, journal, choice)?;
    }
    Ok(())
}

/// The lowest thread that has a call.
fn waiting_thread<O: Ordering>(journal: &Journal<O>) -> Option<u8>
    ensures within { IfSome result (λ thread. thread < length (plan_of journal.now).threads) }
    ensures value { result ≡ waiting_thread (plan_of journal.now) (past_of journal.now) }
{
    for thread in 0..journal.plan().threads() {
        if journal.made(thread) < journal.plan().steps(thread) {
            return Some(thread);
        }
    }
    None
}

/// Makes the call that is left where nothing else is open.
pub fn force<O: Ordering>(alloc: Global, journal: &mut Journal<O>) -> Result<(), NoMemory>
    ensures plan { plan_of journal.new ≡ plan_of journal.old }
    ensures made { OnOk result (past_of journal.new ≡ forced_call (rules_of O.Ordering) (plan_of journal.old) (past_of journal.old)) }
    ensures err { OnErr result (past_of journal.new ≡ past_of journal.old) }
{
    match waiting_thread(journal) {
        Some(thread) => call(alloc, journal, thread),
        None => Ok(()),
    }
}
