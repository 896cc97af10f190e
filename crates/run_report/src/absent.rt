//! The accepted items that even the longest log lacks, and which of these are changes that another switch overtook.
ghost use Rattle.std.specs.Prelude.{ℕ, true, ◌≡◌, ◌<◌, ◌++◌, ◌∷◌, [], IfOk, OnOk, All, Contains, flat_map, length, option_to_list, reverse};
ghost use Rattle.upd_base.specs.Item.{is_message, origin_of};
ghost use Rattle.upd_base.specs.declared.answer.Answer.TheVariants.{Accepted};
ghost use Rattle.member_rules.specs.Kept.{rules_of};
ghost use Rattle.group_run.specs.Ordered.{accepted_at, accepted_by, accepted_in};
ghost use Rattle.group_run.specs.Part.{is_logged};
ghost use Rattle.group_laws.specs.Canon.{one_list};
ghost use Rattle.run_journal.specs.Journal.{plan_of, past_of};
ghost use Rattle.run_report.specs.Report.{absent_from, absent_items, absent_line, accepted_of, by_origin, has_switch_of, is_overtaken, of_origin};

use crate::lines::{absence_text, put, put_item};
use crate::text::member_at;
use group_laws::canon;
use group_members::accepted_items_are_kept;
use order_trait::Ordering;
use run_journal::Journal;
use std::alloc::Global;
use upd_base::{Answer, Call, Entry, Event, Item, MemberId, NoMemory, Plan};

/// The lines of the accepted items that the longest log lacks, by (origin, number).
pub fn put_absents<O: Ordering>(
    alloc: Global,
    out: &mut Vec<u8>,
    journal: &Journal<O>,
) -> Result<(), NoMemory>
    ensures { OnOk result (out.new.items ≡ out.old.items ++ flat_map (absent_line (rules_of O.Ordering) (plan_of journal.now) (past_of journal.now)) (absent_items (rules_of O.Ordering) (plan_of journal.now) (past_of journal.now))) }
{
    let absent = absent_items(alloc, journal)?;
    put_lines(alloc, out, journal, absent.as_slice())
}

fn put_lines<O: Ordering>(
    alloc: Global,
    out: &mut Vec<u8>,
    journal: &Journal<O>,
    items: &[Item],
) -> Result<(), NoMemory>
    requires { All (λ item. Contains (accepted_in (plan_of journal.now) (past_of journal.now)) item) items.now }
    ensures { OnOk result (out.new.items ≡ out.old.items ++ flat_map (absent_line (rules_of O.Ordering) (plan_of journal.now) (past_of journal.now)) items.now) }
{
    for item in items {
        put_line(alloc, out, journal, item)?;
    }
    Ok(())
}

#[tactic(auto, unfolding(crate::specs::Report::absent_line))]
fn put_line<O: Ordering>(
    alloc: Global,
    out: &mut Vec<u8>,
    journal: &Journal<O>,
    item: &Item,
) -> Result<(), NoMemory>
    requires { Contains (accepted_in (plan_of journal.now) (past_of journal.now)) item.now }
    ensures { OnOk result (out.new.items ≡ out.old.items ++ absent_line (rules_of O.Ordering) (plan_of journal.now) (past_of journal.now) item.now) }
{
    put(out, absence_text(is_overtaken(journal, item)))?;
    put_item(alloc, out, item)?;
    out.push(b'\n')?;
    Ok(())
}

/// Whether an accepted item is a change, and the longest log holds a switch of the version in which it was accepted.
fn is_overtaken<O: Ordering>(journal: &Journal<O>, item: &Item) -> bool
    requires { Contains (accepted_in (plan_of journal.now) (past_of journal.now)) item.now }
    ensures { result ≡ is_overtaken (rules_of O.Ordering) (plan_of journal.now) (past_of journal.now) item.now }
{
    journal.plan();
    accepted_items_are_kept();
    match item {
        Item::Msg { .. } => false,
        Item::Switch { origin, number, .. } => {
            has_switch_of(journal.asked_in(*origin, *number), longest_log(journal))
        }
    }
}

fn has_switch_of(version: u16, log: &[Entry]) -> bool
    ensures { result ≡ has_switch_of version log.now }
{
    log.iter().any(|entry| entry.version == version && entry.item.switch().is_some())
}

/// The longest log, of the lowest member that has it.
fn longest_log<O: Ordering>(journal: &Journal<O>) -> &[Entry]
    ensures { result.now ≡ one_list (rules_of O.Ordering) (plan_of journal.now) (past_of journal.now) }
{
    journal.plan().keeps_limits();
    journal.log(member_at(canon(journal))).entries()
}

/// The accepted items that the longest log lacks, by (origin, number).
fn absent_items<O: Ordering>(alloc: Global, journal: &Journal<O>) -> Result<Vec<Item>, NoMemory>
    ensures items { IfOk result (λ v. v.items ≡ absent_items (rules_of O.Ordering) (plan_of journal.now) (past_of journal.now)) }
    ensures accepted { IfOk result (λ v. All (λ item. Contains (accepted_in (plan_of journal.now) (past_of journal.now)) item) v.items) }
{
    let accepted = accepted_items(alloc, journal.plan(), journal.events())?;
    let sorted = by_origin(alloc, journal.plan().members(), accepted.as_slice())?;
    absent_from(alloc, longest_log(journal), sorted.as_slice())
}

/// The items that the calls of a run made, in the order of their acceptance.
fn accepted_items(alloc: Global, plan: &Plan, events: &[Event]) -> Result<Vec<Item>, NoMemory>
    ensures { IfOk result (λ v. v.items ≡ flat_map (accepted_of plan.now) events.now) }
{
    let mut items = Vec::new(alloc);
    for event in events {
        if let Some(item) = accepted_of(plan, event)? {
            items.push(item)?;
        }
    }
    Ok(items)
}

/// The item that an event made: an accepted send makes a message, an accepted change a switch.
fn accepted_of(plan: &Plan, event: &Event) -> Result<Option<Item>, NoMemory>
    ensures { IfOk result (λ o. option_to_list o ≡ accepted_of plan.now event.now) }
{
    match event {
        Event::Call {
            thread,
            index,
            member,
            answer: Answer::Accepted(number),
        } => {
            if *thread >= plan.threads() || *index >= plan.steps(*thread) {
                return Ok(None);
            }
            item_of(*member, &plan.step(*thread, *index).call, *number)
        }
        _ => Ok(None),
    }
}

fn item_of(origin: MemberId, call: &Call, number: u32) -> Result<Option<Item>, NoMemory>
    ensures { IfOk result (λ o. option_to_list o ≡ accepted_by origin call.now (Accepted number)) }
{
    match call {
        Call::Send(text) => Ok(Some(Item::Msg {
            origin,
            number,
            payload: text.copy()?,
        })),
        Call::Change(kind) => Ok(Some(Item::Switch {
            origin,
            number,
            kind: *kind,
        })),
        Call::Suspect(_) | Call::Trust(_) | Call::Crash => Ok(None),
    }
}

/// The items by origin: each origin's in the order in which they stand.
fn by_origin(alloc: Global, members: u8, items: &[Item]) -> Result<Vec<Item>, NoMemory>
    ensures { IfOk result (λ v. v.items ≡ by_origin members items.now) }
{
    let mut sorted = Vec::new(alloc);
    for origin in 0..members {
        push_of_origin(&mut sorted, origin, items)?;
    }
    Ok(sorted)
}

fn push_of_origin(out: &mut Vec<Item>, origin: u8, items: &[Item]) -> Result<(), NoMemory>
    ensures { OnOk result (out.new.items ≡ out.old.items ++ of_origin items.now origin) }
{
    for item in items {
        if item.origin().get() == origin {
            out.push(item.copy()?)?;
        }
    }
    Ok(())
}

/// The items that a log lacks.
fn absent_from(alloc: Global, log: &[Entry], items: &[Item]) -> Result<Vec<Item>, NoMemory>
    ensures { IfOk result (λ v. v.items ≡ absent_from log.now items.now) }
{
    let mut absent = Vec::new(alloc);
    for item in items {
        if !is_logged(item, log) {
            absent.push(item.copy()?)?;
        }
    }
    Ok(absent)
}

fn is_logged(item: &Item, log: &[Entry]) -> bool
    ensures { result ≡ is_logged item.now log.now }
{
    log.iter().any(|entry| entry.item.has_id_of(item))
}
