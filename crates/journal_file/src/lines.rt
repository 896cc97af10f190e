//! One reader for each line of the text.
ghost use Rattle.std.specs.Prelude.{ℕ, ◌≡◌, ◌≤◌, ◌++◌, true, IsTrue, ◌↔◌, IfSome, IfNone, IfOk, decimal};
ghost use Rattle.upd_base.specs.Kind.{KindFits};
ghost use Rattle.upd_base.specs.Plan.{step_fits};
ghost use Rattle.upd_base.specs.declared.answer.Answer.{Answer};
ghost use Rattle.upd_base.specs.declared.call.Step.{Step};
ghost use Rattle.upd_base.specs.declared.event.Event.{Event};
ghost use Rattle.upd_base.specs.declared.event.Event.TheVariants.{Call as CallEvent, Receive as ReceiveEvent, Release as ReleaseEvent};
ghost use Rattle.upd_base.specs.declared.kind.Kind.{Kind};
ghost use Rattle.journal_file.specs.Text.{event_line, events_line, first_line, heading_line, last_line, members_line, step_line, thread_line, threads_line};
ghost use Rattle.journal_file.specs.Grammar.{EventFits, IsNumber, TextFits};
ghost use Rattle.journal_file.specs.Written.{event_written};

use crate::values::{after, answer_of, at_most, call_of, field, kind_of, last, member_at};
use std::alloc::Global;
use upd_base::{Answer, Kind, MAX_CALLS, MAX_MEMBERS, MAX_THREADS, NoMemory, Step};

/// An event as a line writes it: whether it can be is not asked.
#[derive(Clone, Copy, Debug, PartialEq, Eq)]
pub(crate) enum Written {
    Call {
        thread: u32,
        index: u32,
        member: u32,
        answer: Answer,
    },
    Receive {
        from: u32,
        to: u32,
    },
    Release {
        at: u32,
    },
}

// The events of a text are kept until all of it is read.
const _: () = prove!(size_of::<Written>() <= 24);

/// Whether the line is the first of a text.
pub(crate) fn is_heading(line: &[u8]) -> bool
    ensures { IsTrue result ↔ (line.now ≡ heading_line) }
{
    line == "journal 1".as_bytes()
}

/// Whether the line is the last of a text.
pub(crate) fn is_last(line: &[u8]) -> bool
    ensures { IsTrue result ↔ (line.now ≡ last_line) }
{
    line == "end".as_bytes()
}

/// How many members the line says that there are.
#[tactic(auto, unfolding(crate::specs::Text::members_line))]
pub(crate) fn members_of(line: &[u8]) -> Option<u8>
    ensures some { IfSome result (λ n. line.now ≡ members_line n) }
    ensures least { IfSome result (λ n. 1 ≤ n) }
    ensures most { IfSome result (λ n. n ≤ MAX_MEMBERS) }
    ensures none { IfNone result ((n : ℕ) → 1 ≤ n → n ≤ MAX_MEMBERS → line.now ≡ members_line n → ⊥) }
{
    counted(line, "members ", MAX_MEMBERS)
}

/// The number from 1 to the most that stands behind the word.
fn counted(line: &[u8], word: &str, most: u8) -> Option<u8>
    ensures some { IfSome result (λ n. line.now ≡ word.now ++ decimal n) }
    ensures least { IfSome result (λ n. 1 ≤ n) }
    ensures most { IfSome result (λ n. n ≤ most) }
    ensures none { IfNone result ((n : ℕ) → 1 ≤ n → n ≤ most → line.now ≡ word.now ++ decimal n → ⊥) }
{
    let n = at_most(after(line, word)?, u64::from(most))? as u8;
    if n == 0 { None } else { Some(n) }
}

/// The kind of version 0, which fits a group of so many members.
#[tactic(auto, unfolding(crate::specs::Text::first_line))]
pub(crate) fn first_of(line: &[u8], members: u8) -> Option<Kind>
    requires { members ≤ MAX_MEMBERS }
    ensures some { IfSome result (λ kind. line.now ≡ first_line kind) }
    ensures fits { IfSome result (λ kind. KindFits members kind) }
    ensures none { IfNone result ((kind : Kind) → KindFits members kind → line.now ≡ first_line kind → ⊥) }
{
    kind_of(after(line, "first ")?, members)
}

/// How many threads the line says that there are.
#[tactic(auto, unfolding(crate::specs::Text::threads_line))]
pub(crate) fn threads_of(line: &[u8]) -> Option<u8>
    ensures some { IfSome result (λ n. line.now ≡ threads_line n) }
    ensures least { IfSome result (λ n. 1 ≤ n) }
    ensures most { IfSome result (λ n. n ≤ MAX_THREADS) }
    ensures none { IfNone result ((n : ℕ) → 1 ≤ n → n ≤ MAX_THREADS → line.now ≡ threads_line n → ⊥) }
{
    counted(line, "threads ", MAX_THREADS as u8)
}

/// How many calls the line says that a thread has, where they are at most so many.
#[tactic(auto, unfolding(crate::specs::Text::thread_line))]
pub(crate) fn thread_of(line: &[u8], most: u64) -> Option<u16>
    requires { most ≤ MAX_CALLS }
    ensures some { IfSome result (λ count. line.now ≡ thread_line count) }
    ensures most { IfSome result (λ count. count ≤ most) }
    ensures none { IfNone result ((count : ℕ) → count ≤ most → line.now ≡ thread_line count → ⊥) }
{
    Some(at_most(after(line, "thread ")?, most)? as u16)
}

/// The planned call that the line says, where it fits a group of so many members.
///
/// # Errors
///
/// Memory for a payload was refused.
#[tactic(auto, unfolding(crate::specs::Text::step_line))]
pub(crate) fn step_of(alloc: Global, line: &[u8], members: u8) -> Result<Option<Step>, NoMemory>
    requires { members ≤ MAX_MEMBERS }
    ensures some { IfOk result (λ found. IfSome found (λ s. line.now ≡ step_line s)) }
    ensures fits { IfOk result (λ found. IfSome found (λ s. step_fits members s ≡ true)) }
    ensures text { IfOk result (λ found. IfSome found (λ s. TextFits s.call)) }
    ensures none { IfOk result (λ found. IfNone found ((s : Step) → step_fits members s ≡ true → TextFits s.call → line.now ≡ step_line s → ⊥)) }
{
    let Some((at, words)) = member_at(line, members) else {
        return Ok(None);
    };
    match call_of(alloc, words, members, at)? {
        Some(call) => Ok(Some(Step { at, call })),
        None => Ok(None),
    }
}

/// How many events the line says that there are, where they are at most so many.
#[tactic(auto, unfolding(crate::specs::Text::events_line))]
pub(crate) fn events_of(line: &[u8], most: u64) -> Option<u64>
    ensures some { IfSome result (λ count. line.now ≡ events_line count) }
    ensures most { IfSome result (λ count. count ≤ most) }
    ensures none { IfNone result ((count : ℕ) → count ≤ most → line.now ≡ events_line count → ⊥) }
{
    at_most(after(line, "events ")?, most)
}

/// The event that the line says.
#[tactic(auto, unfolding(crate::specs::Text::event_line))]
pub(crate) fn event_of(line: &[u8]) -> Option<Written>
    ensures some { IfSome result (λ w. line.now ≡ event_line (event_written w)) }
    ensures fits { IfSome result (λ w. EventFits (event_written w)) }
    ensures none { IfNone result ((e : Event) → EventFits e → line.now ≡ event_line e → ⊥) }
{
    if let Some(written) = receive_of(line) {
        return Some(written);
    }
    if let Some(written) = call_event_of(line) {
        return Some(written);
    }
    release_of(line)
}

/// The receipt that the line says.
#[tactic(auto, unfolding(crate::specs::Text::event_line))]
fn receive_of(line: &[u8]) -> Option<Written>
    ensures some { IfSome result (λ w. line.now ≡ event_line (event_written w)) }
    ensures fits { IfSome result (λ w. EventFits (event_written w)) }
    ensures none { IfNone result ((from to : ℕ) → EventFits (ReceiveEvent from to) → line.now ≡ event_line (ReceiveEvent from to) → ⊥) }
{
    let (from, rest) = field(after(line, "receive ")?)?;
    Some(Written::Receive {
        from,
        to: last(rest)?,
    })
}

/// The call and its answer that the line says.
#[tactic(auto, unfolding(crate::specs::Text::event_line))]
fn call_event_of(line: &[u8]) -> Option<Written>
    ensures some { IfSome result (λ w. line.now ≡ event_line (event_written w)) }
    ensures fits { IfSome result (λ w. EventFits (event_written w)) }
    ensures none { IfNone result ((thread index member : ℕ) (answer : Answer) → EventFits (CallEvent thread index member answer) → line.now ≡ event_line (CallEvent thread index member answer) → ⊥) }
{
    let (thread, rest) = field(after(line, "call ")?)?;
    let (index, rest) = field(rest)?;
    let (member, rest) = field(rest)?;
    Some(Written::Call {
        thread,
        index,
        member,
        answer: answer_of(rest)?,
    })
}

/// The release that the line says.
#[tactic(auto, unfolding(crate::specs::Text::event_line))]
fn release_of(line: &[u8]) -> Option<Written>
    ensures some { IfSome result (λ w. line.now ≡ event_line (event_written w)) }
    ensures fits { IfSome result (λ w. EventFits (event_written w)) }
    ensures none { IfNone result ((at : ℕ) → EventFits (ReleaseEvent at) → line.now ≡ event_line (ReleaseEvent at) → ⊥) }
{
    Some(Written::Release {
        at: last(after(line, "release ")?)?,
    })
}
