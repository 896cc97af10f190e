//! The spelling of each line of a report: items, log entries, members, and the counts of the run.
ghost use Rattle.std.specs.Prelude.{◌≡◌, ◌++◌, OnOk, IfOk, string_bytes, flat_map};
ghost use Rattle.run_report.specs.Report.{state_text, item_text, entry_line, member_line, run_line, answers_line, absence_text};

use std::alloc::{AllocError, Global};
use upd_base::{Entry, Item};

/// Adds an item: a message with its payload, or a switch with its kind.
#[tactic(auto, unfolding(crate::specs::Report::item_text))]
pub fn put_item(alloc: Global, out: &mut Vec<u8>, item: &Item) -> Result<(), AllocError>
    ensures { OnOk result (out.new.items ≡ out.old.items ++ item_text item.now) }
{
    match item {
        Item::Msg {
            origin,
            number,
            payload,
        } => {
            let front = format!(in alloc; "msg {}.{} ", origin.get(), *number)?;
            out.extend_from_slice(front.as_bytes())?;
            out.extend_from_slice(payload.bytes())
        }
        Item::Switch {
            origin,
            number,
            kind,
        } => {
            let kind = kind.text(alloc)?;
            let text = format!(in alloc; "switch {}.{} {}", origin.get(), *number, kind)?;
            out.extend_from_slice(text.as_bytes())
        }
    }
}

/// Adds the line of a delivered item, with the version that delivered it.
#[tactic(auto, unfolding(crate::specs::Report::entry_line))]
pub fn put_entry(alloc: Global, out: &mut Vec<u8>, entry: &Entry) -> Result<(), AllocError>
    ensures { OnOk result (out.new.items ≡ out.old.items ++ entry_line entry.now) }
{
    let front = format!(in alloc; "  {} ", entry.version)?;
    out.extend_from_slice(front.as_bytes())?;
    put_item(alloc, out, &entry.item)?;
    Ok(out.push(b'\n')?)
}

/// How a member ended.
#[tactic(auto, unfolding(crate::specs::Report::state_text))]
pub fn state_text(crashed: bool) -> &'static str
    ensures { result.now ≡ state_text crashed }
{
    if crashed { "crashed" } else { "up" }
}

/// The first line of a member.
pub fn member_line(
    alloc: Global,
    i: usize,
    version: u16,
    kind: &str,
    state: &str,
    delivered: usize,
) -> Result<String, AllocError>
    ensures { IfOk result (λ s. string_bytes s ≡ member_line i version kind.now state.now delivered) }
{
    format!(in alloc; "member {i}: version {version}, {kind}, {state}, {delivered} delivered\n")
}

/// Adds a text at the end.
pub fn put(out: &mut Vec<u8>, text: &str) -> Result<(), AllocError>
    ensures { OnOk result (out.new.items ≡ out.old.items ++ text.now) }
{
    out.extend_from_slice(text.as_bytes())
}

/// Adds the lines of what a member delivered, in its order.
pub fn put_entries(alloc: Global, out: &mut Vec<u8>, log: &[Entry]) -> Result<(), AllocError>
    ensures { OnOk result (out.new.items ≡ out.old.items ++ flat_map entry_line log.now) }
{
    for entry in log {
        put_entry(alloc, out, entry)?;
    }
    Ok(())
}

/// The first line of a report.
pub fn run_line(
    alloc: Global,
    members: u8,
    events: usize,
    made: usize,
    planned: u64,
) -> Result<String, AllocError>
    ensures { IfOk result (λ s. string_bytes s ≡ run_line members events made planned) }
{
    format!(in alloc; "run: {members} members, {events} events, {made} of {planned} calls\n")
}

/// How many calls got each answer.
pub fn answers_line(
    alloc: Global,
    accepted: usize,
    done: usize,
    full: usize,
    crashed: usize,
) -> Result<String, AllocError>
    ensures { IfOk result (λ s. string_bytes s ≡ answers_line accepted done full crashed) }
{
    format!(in alloc; "answers: {accepted} accepted, {done} done, {full} full, {crashed} crashed\n")
}

/// How the line of an absent item begins.
#[tactic(auto, unfolding(crate::specs::Report::absence_text))]
pub fn absence_text(overtaken: bool) -> &'static str
    ensures { result.now ≡ absence_text overtaken }
{
    if overtaken {
        "overtaken "
    } else {
        "undelivered "
    }
}
