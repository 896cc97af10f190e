//! Journals of short plans, and what is read from them.
ghost use Rattle.std.specs.Prelude.{◌≡◌, IfOk};

use module_binding::Module;
use run_journal::{CallFault, Journal, ReceiveFault, serves};
use std::alloc::Global;
use std::test::*;
use upd_base::{Answer, Body, Call, Entry, Frame, Item, Kind, MemberId, Plan, Step, Text};

/// A planned call; a message has one byte.
#[derive(Clone, Copy)]
pub enum Asked {
    Send(u8),
    Change(Kind),
    Suspect(u8),
    Crash,
}

pub fn member(id: u8) -> Result<MemberId, Fail>
    ensures { IfOk result (λ m. m ≡ id) }
{
    match MemberId::new(id) {
        Some(member) => Ok(member),
        None => Err("a member")?,
    }
}

fn call_of(alloc: Global, asked: Asked) -> Result<Call, Fail> {
    match asked {
        Asked::Send(byte) => Ok(Call::Send(Text::new(alloc, &[byte])?.ok_or("a payload")?)),
        Asked::Change(kind) => Ok(Call::Change(kind)),
        Asked::Suspect(who) => Ok(Call::Suspect(who)),
        Asked::Crash => Ok(Call::Crash),
    }
}

fn steps_of(alloc: Global, asked: &[(u8, Asked)]) -> Result<Vec<Step>, Fail> {
    let mut steps = Vec::new(alloc);
    for (at, call) in asked {
        let at = member(*at)?;
        let call = call_of(alloc, *call)?;
        steps.push(Step { at, call })?;
    }
    Ok(steps)
}

/// Threads that make these calls, each at a member.
pub fn threads_of(alloc: Global, asked: &[&[(u8, Asked)]]) -> Result<Vec<Vec<Step>>, Fail> {
    let mut threads = Vec::new(alloc);
    for calls in asked {
        threads.push(steps_of(alloc, calls)?)?;
    }
    Ok(threads)
}

/// A journal of so many members, before any event.
pub fn begun(
    alloc: Global,
    members: u8,
    first: Kind,
    threads: Vec<Vec<Step>>,
) -> Result<Journal<Module>, Fail> {
    let plan = Plan::new(members, first, threads).ok_or("a plan")?;
    if !serves::<Module>(&plan) {
        return Err("kinds that are served")?;
    }
    Ok(Journal::begin(alloc, plan)?)
}

/// The request to the sequencer of version 0 for member 1's message `a` of this number.
pub fn request(alloc: Global, number: u32) -> Result<Frame, Fail> {
    let item = Item::Msg {
        origin: member(1)?,
        number,
        payload: Text::new(alloc, b"a")?.ok_or("a payload")?,
    };
    Ok(Frame {
        version: 0,
        body: Body::Ask { item },
    })
}

/// The next call of thread 0.
pub fn call(
    alloc: Global,
    journal: &mut Journal<Module>,
) -> Result<Result<Answer, CallFault>, Fail> {
    if journal.plan().threads() == 0 {
        return Err("a thread")?;
    }
    Ok(journal.call(alloc, 0))
}

/// The receipt of a frame on a link.
pub fn receive(
    alloc: Global,
    journal: &mut Journal<Module>,
    from: u8,
    to: u8,
    got: &Frame,
) -> Result<Result<(), ReceiveFault>, Fail> {
    let members = journal.plan().members();
    if from >= members || to >= members {
        return Err("a link")?;
    }
    Ok(journal.receive(alloc, member(from)?, member(to)?, got))
}

/// The receipt of the frame that a link has next, where it has one.
pub fn receive_next(
    alloc: Global,
    journal: &mut Journal<Module>,
    from: u8,
    to: u8,
) -> Result<Option<Result<(), ReceiveFault>>, Fail> {
    let members = journal.plan().members();
    if from >= members || to >= members {
        return Err("a link")?;
    }
    let Some(frame) = journal.next_frame(member(from)?, member(to)?) else {
        return Ok(None);
    };
    let got = frame.copy(alloc)?;
    Ok(Some(receive(alloc, journal, from, to, &got)?))
}

/// An entry in short: its version, its origin, its number, and whether it is a message.
pub type Short = (u16, u8, u32, bool);

fn short(entry: &Entry) -> Short {
    match &entry.item {
        Item::Msg { origin, number, .. } => (entry.version, origin.get(), *number, true),
        Item::Switch { origin, number, .. } => (entry.version, origin.get(), *number, false),
    }
}

fn are(entries: &[Entry], expected: &[Short]) -> bool {
    if entries.len() != expected.len() {
        return false;
    }
    for at in 0..entries.len() {
        if short(&entries[at]) != expected[at] {
            return false;
        }
    }
    true
}

/// Whether each member has delivered these.
pub fn all_delivered(journal: &Journal<Module>, expected: &[Short]) -> Result<bool, Fail> {
    for at in 0..journal.plan().members() {
        if !are(journal.log(member(at)?).entries(), expected) {
            return Ok(false);
        }
    }
    Ok(true)
}
