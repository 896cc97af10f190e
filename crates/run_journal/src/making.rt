//! Steps of recording an event: room for the record is made before the world changes, so the two always agree.
ghost use Rattle.std.specs.Prelude.{ℕ, true, ◌≡◌, ◌≢◌, ◌⊎◌, ◌<◌, ◌≤◌, ◌-◌, ◌∷◌, [], ◌++◌, length, map, set, IfOk, IfErr, OnOk, OnErr, slice_index_or, vec_len, vec_capacity};
ghost use Rattle.group_run.specs.Run.{Events};
ghost use Rattle.group_world.specs.Seen.{IsWorldOf, seen_by};
ghost use Rattle.group_world.specs.Moves.{is_enabled, IsMove};
ghost use Rattle.group_world.specs.Stands.{Stands, IsShort};
ghost use Rattle.run_journal.specs.Asked.{listed, empty_lists, answer_in, IsCallEvent};
ghost use Rattle.run_journal.specs.declared.faults.ReceiveFault.TheVariants.{Differs, NoMemory as WantsMemory};

use crate::faults::ReceiveFault;
use group_world::{Move, World};
use order_trait::Ordering;
use std::alloc::Global;
use upd_base::{Answer, Event, Frame, MemberId, NoMemory, Plan};

/// Makes an enabled move, and records its event. After want of memory both are as they were.
pub(crate) fn advance<O: Ordering>(
    alloc: Global,
    plan: &Plan,
    world: &mut World<O>,
    events: &mut Vec<Event>,
    choice: Move,
) -> Result<Event, NoMemory>
    requires of_plan { IsWorldOf O.Ordering plan.now (seen_by world.old) }
    requires enabled { is_enabled plan.now (seen_by world.old) choice ≡ true }
    ensures of_plan { IsWorldOf O.Ordering plan.now (seen_by world.new) }
    ensures event { IfOk result (λ e. IsMove choice e) }
    ensures stands { IfOk result (λ e. (past : Events) → Stands O.Ordering plan.now (seen_by world.old) past → IsShort past → Stands O.Ordering plan.now (seen_by world.new) (e ∷ past)) }
    ensures events { IfOk result (λ e. events.new.items ≡ events.old.items ++ e ∷ []) }
    ensures err { OnErr result ((seen_by world.new ≡ seen_by world.old) × (events.new.items ≡ events.old.items)) }
{
    events.reserve(1)?;
    let event = world.step(alloc, plan, choice)?;
    record(events, &event);
    Ok(event)
}

/// Appends an event, into room that was made before.
fn record(events: &mut Vec<Event>, event: &Event)
    requires { vec_len events.old < vec_capacity events.old }
    ensures { events.new.items ≡ events.old.items ++ event.now ∷ [] }
{
    events.push_reserved(*event);
}

/// The answer of a call's event.
pub(crate) fn answer_of(event: &Event) -> Answer
    requires { IsCallEvent event.now }
    ensures { answer_in event.now result }
{
    match event {
        Event::Call { answer, .. } => *answer,
        Event::Receive { .. } | Event::Release { .. } => unreachable!(),
    }
}

/// Room for one version more in a member's list.
pub(crate) fn make_room(lists: &mut Vec<Vec<u16>>, at: MemberId) -> Result<(), NoMemory>
    requires { at < length lists.old.items }
    ensures same { map (λ v. v.items) lists.new.items ≡ map (λ v. v.items) lists.old.items }
    ensures room { OnOk result (1 ≤ slice_index_or (map (λ v. vec_capacity v - vec_len v) lists.new.items) at 0) }
{
    lists[at.get() as usize].reserve(1)?;
    Ok(())
}

/// Notes the version of an accepted item, into room that was made before. Takes no memory.
pub(crate) fn note(lists: &mut Vec<Vec<u16>>, at: MemberId, version: u16, answer: &Answer)
    requires at { at < length lists.old.items }
    requires room { 1 ≤ slice_index_or (map (λ v. vec_capacity v - vec_len v) lists.old.items) at 0 }
    ensures { map (λ v. v.items) lists.new.items ≡ listed answer.now at version (map (λ v. v.items) lists.old.items) }
{
    if let Answer::Accepted(_) = answer {
        lists[at.get() as usize].push_reserved(version);
    }
}

/// That a frame is the one that was sent.
pub(crate) fn compare(alloc: Global, sent: &Frame, got: &Frame) -> Result<(), ReceiveFault>
    ensures same { OnOk result (sent.now ≡ got.now) }
    ensures cause { IfErr result (λ e. (e ≡ WantsMemory) ⊎ ((sent.now ≢ got.now) × (e ≡ Differs sent.now got.now))) }
{
    if sent.is_same(got) {
        return Ok(());
    }
    Err(ReceiveFault::Differs {
        sent: sent.copy(alloc)?,
        got: got.copy(alloc)?,
    })
}

/// So many empty lists.
pub(crate) fn no_lists(alloc: Global, n: u8) -> Result<Vec<Vec<u16>>, NoMemory>
    ensures { IfOk result (λ lists. map (λ v. v.items) lists.items ≡ empty_lists n) }
{
    let mut lists = Vec::new(alloc);
    for _i in 0..n {
        lists.push(Vec::new(alloc))?;
    }
    Ok(lists)
}
