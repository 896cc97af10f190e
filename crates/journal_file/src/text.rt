//! Writing a journal: a line for each part of the plan and each event, in the one spelling that the reader takes.
ghost use Rattle.std.specs.Prelude.{◌≡◌, ◌++◌, ◌<◌, ◌≤◌, All, IfOk, OnOk, length, string_bytes};
ghost use Rattle.upd_base.specs.declared.event.Event.TheVariants.{Call as CallEvent};
ghost use Rattle.upd_base.specs.Plan.{steps_of};
ghost use Rattle.run_journal.specs.Journal.{plan_of, events_of};
ghost use Rattle.journal_file.specs.declared.limits.TheConstants.{MAX_TEXT};
ghost use Rattle.journal_file.specs.Grammar.{AnswerFits, EventFits, IsNumber, TextFits};
ghost use Rattle.journal_file.specs.Reading.{HasPayloads, IsJournalText};
ghost use Rattle.journal_file.specs.Text.{answer_text, call_text, ended, event_line, event_lines, events_line, first_line, journal_text, members_line, plan_lines, step_line, text_of, thread_line, thread_lines, threads_line};

use order_trait::Ordering;
use run_journal::Journal;
use std::alloc::{AllocError, Global};
use upd_base::{Answer, Call, Event, Kind, NoMemory, Plan, Step};

/// The text of a journal: its plan and its events. Each has one spelling, and a text of at most `MAX_TEXT` bytes is read back.
pub fn journal_text<O: Ordering>(alloc: Global, journal: &Journal<O>) -> Result<Vec<u8>, NoMemory>
    ensures text { IfOk result (λ text. text.items ≡ journal_text (plan_of journal.now) (events_of journal.now)) }
    ensures readable { IfOk result (λ text. length text.items ≤ MAX_TEXT → IsJournalText text.items (plan_of journal.now) (events_of journal.now)) }
{
    journal.plan().keeps_limits();
    let _few = journal.len();
    let text = whole_text(alloc, journal)?;
    Ok(text)
}

/// The text of a journal, and that its plan and its events keep the limits of a text.
#[tactic(auto, unfolding(crate::specs::Text::journal_text))]
fn whole_text<O: Ordering>(alloc: Global, journal: &Journal<O>) -> Result<Vec<u8>, NoMemory>
    ensures text { IfOk result (λ text. text.items ≡ journal_text (plan_of journal.now) (events_of journal.now)) }
    ensures payloads { OnOk result (HasPayloads (plan_of journal.now)) }
    ensures fit { OnOk result (All EventFits (events_of journal.now)) }
{
    let mut out = Vec::new(alloc);
    put(&mut out, "journal 1\n")?;
    put_plan(alloc, &mut out, journal.plan())?;
    put_events(alloc, &mut out, journal.events())?;
    put(&mut out, "end\n")?;
    Ok(out)
}

/// Adds a text at the end.
fn put(out: &mut Vec<u8>, text: &str) -> Result<(), AllocError>
    ensures { OnOk result (out.new.items ≡ out.old.items ++ text.now) }
{
    out.extend_from_slice(text.as_bytes())
}

/// The lines of a plan.
fn put_plan(alloc: Global, out: &mut Vec<u8>, plan: &Plan) -> Result<(), AllocError>
    ensures out { OnOk result (out.new.items ≡ out.old.items ++ text_of (plan_lines plan.now)) }
    ensures fits { OnOk result (HasPayloads plan.now) }
{
    put_head(alloc, out, plan.members(), plan.first(), plan.threads())?;
    for thread in 0..plan.threads() {
        put_thread(alloc, out, plan, thread)?;
    }
    Ok(())
}

/// The first three lines of a plan.
#[tactic(auto, unfolding(crate::specs::Text::members_line, crate::specs::Text::first_line, crate::specs::Text::threads_line))]
fn put_head(
    alloc: Global,
    out: &mut Vec<u8>,
    members: u8,
    first: Kind,
    threads: u8,
) -> Result<(), AllocError>
    ensures { OnOk result (out.new.items ≡ out.old.items ++ (ended (members_line members) ++ ended (first_line first) ++ ended (threads_line threads))) }
{
    let kind = first.text(alloc)?;
    let head = format!(in alloc; "members {members}\nfirst {kind}\nthreads {threads}\n")?;
    put(out, head.as_str())
}

/// The lines of a thread.
fn put_thread(alloc: Global, out: &mut Vec<u8>, plan: &Plan, thread: u8) -> Result<(), AllocError>
    requires { thread < length plan.now.threads }
    ensures out { OnOk result (out.new.items ≡ out.old.items ++ text_of (thread_lines (steps_of plan.now thread))) }
    ensures fits { OnOk result (All (λ s. TextFits s.call) (steps_of plan.now thread)) }
{
    let steps = plan.steps(thread);
    put_thread_head(alloc, out, steps)?;
    for index in 0..steps {
        put_step(alloc, out, plan.step(thread, index))?;
    }
    Ok(())
}

#[tactic(auto, unfolding(crate::specs::Text::thread_line))]
fn put_thread_head(alloc: Global, out: &mut Vec<u8>, steps: u16) -> Result<(), AllocError>
    ensures { OnOk result (out.new.items ≡ out.old.items ++ ended (thread_line steps)) }
{
    put(out, format!(in alloc; "thread {steps}\n")?.as_str())
}

#[tactic(auto, unfolding(crate::specs::Text::step_line))]
fn put_step(alloc: Global, out: &mut Vec<u8>, step: &Step) -> Result<(), AllocError>
    ensures out { OnOk result (out.new.items ≡ out.old.items ++ ended (step_line step.now)) }
    ensures fits { OnOk result (TextFits step.now.call) }
{
    let at = format!(in alloc; "{} ", step.at.get())?;
    put(out, at.as_str())?;
    put_call(alloc, out, &step.call)?;
    Ok(out.push(b'\n')?)
}

#[tactic(auto, unfolding(crate::specs::Text::call_text))]
fn put_call(alloc: Global, out: &mut Vec<u8>, call: &Call) -> Result<(), AllocError>
    ensures out { OnOk result (out.new.items ≡ out.old.items ++ call_text call.now) }
    ensures fits { OnOk result (TextFits call.now) }
{
    match call {
        Call::Send(text) => {
            text.keeps_limits();
            put(out, "send ")?;
            out.extend_from_slice(text.bytes())
        }
        Call::Change(kind) => {
            put(out, "change ")?;
            put(out, kind.text(alloc)?.as_str())
        }
        Call::Suspect(who) => put(out, format!(in alloc; "suspect {who}")?.as_str()),
        Call::Trust(who) => put(out, format!(in alloc; "trust {who}")?.as_str()),
        Call::Crash => put(out, "crash"),
    }
}

/// How many events there are, and a line for each.
fn put_events(alloc: Global, out: &mut Vec<u8>, events: &[Event]) -> Result<(), AllocError>
    ensures out { OnOk result (out.new.items ≡ out.old.items ++ text_of (event_lines events.now)) }
    ensures fits { OnOk result (All EventFits events.now) }
{
    put_events_head(alloc, out, events.len())?;
    for event in events {
        put_event(alloc, out, event)?;
    }
    Ok(())
}

#[tactic(auto, unfolding(crate::specs::Text::events_line))]
fn put_events_head(alloc: Global, out: &mut Vec<u8>, count: usize) -> Result<(), AllocError>
    ensures { OnOk result (out.new.items ≡ out.old.items ++ ended (events_line count)) }
{
    put(out, format!(in alloc; "events {count}\n")?.as_str())
}

#[tactic(auto, unfolding(crate::specs::Text::event_line))]
fn put_event(alloc: Global, out: &mut Vec<u8>, event: &Event) -> Result<(), AllocError>
    ensures out { OnOk result (out.new.items ≡ out.old.items ++ ended (event_line event.now)) }
    ensures fits { OnOk result (EventFits event.now) }
{
    match event {
        Event::Call {
            thread,
            index,
            member,
            answer,
        } => put_call_event(alloc, out, *thread, *index, member.get(), answer),
        Event::Receive { from, to } => {
            let line = format!(in alloc; "receive {} {}\n", from.get(), to.get())?;
            put(out, line.as_str())
        }
        Event::Release { at } => put(out, format!(in alloc; "release {}\n", at.get())?.as_str()),
    }
}

#[tactic(auto, unfolding(crate::specs::Text::event_line))]
fn put_call_event(
    alloc: Global,
    out: &mut Vec<u8>,
    thread: u8,
    index: u16,
    member: u8,
    answer: &Answer,
) -> Result<(), AllocError>
    ensures out { OnOk result (out.new.items ≡ out.old.items ++ ended (event_line (CallEvent thread index member answer.now))) }
    ensures fits { OnOk result (EventFits (CallEvent thread index member answer.now)) }
{
    let answer = answer_text(alloc, answer)?;
    let line = format!(in alloc; "call {thread} {index} {member} {answer}\n")?;
    put(out, line.as_str())
}

#[tactic(auto, unfolding(crate::specs::Text::answer_text))]
fn answer_text(alloc: Global, answer: &Answer) -> Result<String, AllocError>
    ensures text { IfOk result (λ s. string_bytes s ≡ answer_text answer.now) }
    ensures fits { AnswerFits answer.now }
{
    match answer {
        Answer::Accepted(number) => {
            is_number(*number);
            format!(in alloc; "accepted {number}")
        }
        Answer::Done => String::from_str(alloc, "done"),
        Answer::Full => String::from_str(alloc, "full"),
        Answer::Crashed => String::from_str(alloc, "crashed"),
        Answer::VersionLimit => String::from_str(alloc, "version limit"),
        Answer::BadKind => String::from_str(alloc, "bad kind"),
        Answer::BadMember => String::from_str(alloc, "bad member"),
    }
}

/// A number of 32 bits is one that a text has: a law.
fn is_number(number: u32)
    ensures { IsNumber number }
{
    let _number = number;
}
