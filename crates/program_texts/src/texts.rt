//! The texts that the sink gets.
ghost use Rattle.std.specs.Prelude.{◌≡◌, ◌++◌, IfOk, string_bytes};
ghost use Rattle.run_report.specs.Report.{report};
ghost use Rattle.program_texts.specs.Rules.{the_rules};
ghost use Rattle.run_journal.specs.Journal.{plan_of, past_of};
ghost use Rattle.program_texts.specs.Texts.{checked_text, down_line, end_line, fault_text, journal_fault_text, lied_line, lied_text, reason_text, refusal_text, run_text, two_digits, usage};

use crate::run_end::End;
use crate::status::Status;
use journal_file::{JournalFault, journal_text};
use module_binding::Module;
use program_words::Form;
use run_journal::Journal;
use run_report::report_text;
use scenario::{Reason, ScenarioFault};
use std::alloc::{AllocError, Global};
use upd_base::NoMemory;

fn usage() -> &'static str
    ensures { result.now ≡ usage }
{
    "usage: updatectl rehearse [SEED] [short|journal]
       updatectl check
       updatectl gen SEED CALLS
       updatectl run memory|loopback [short|journal]
"
}

fn reason_text(reason: Reason) -> &'static str
    ensures { result.now ≡ reason_text reason }
{
    match reason {
        Reason::Missing => "missing",
        Reason::WrongType => "wrong type",
        Reason::OutOfRange => "out of range",
        Reason::UnknownKey => "unknown key",
        Reason::BadText => "bad text",
        Reason::BadKind => "bad kind",
        Reason::BadOp => "bad op",
        Reason::TooMany => "too many",
    }
}

#[tactic(auto, unfolding(crate::specs::Texts::fault_text))]
fn fault_text(alloc: Global, fault: &ScenarioFault) -> Result<Vec<u8>, AllocError>
    ensures { IfOk result (λ text. text.items ≡ fault_text fault.now) }
{
    match fault {
        ScenarioFault::TooLong => Vec::from_slice(alloc, b"scenario refused: too long\n"),
        ScenarioFault::NotJson => Vec::from_slice(alloc, b"scenario refused: not JSON\n"),
        ScenarioFault::At { path, reason } => {
            let mut text = Vec::from_slice(alloc, b"scenario refused at ")?;
            text.extend_from_slice(path.bytes())?;
            text.extend_from_slice(b": ")?;
            text.extend_from_slice(reason_text(*reason).as_bytes())?;
            text.extend_from_slice(b"\n")?;
            Ok(text)
        }
        ScenarioFault::NoMemory => Ok(Vec::new(alloc)),
    }
}

/// The text that tells a refusal; of a status that is none, no text.
#[tactic(auto, unfolding(crate::specs::Texts::refusal_text))]
pub fn refusal_text(alloc: Global, status: &Status) -> Result<Vec<u8>, AllocError>
    ensures { IfOk result (λ text. text.items ≡ refusal_text status.now) }
{
    match status {
        Status::Words => Vec::from_slice(alloc, usage().as_bytes()),
        Status::SourceFailed => Vec::from_slice(alloc, b"source failed\n"),
        Status::Scenario(fault) => fault_text(alloc, fault),
        Status::Done
        | Status::SinkFailed
        | Status::LineDown { .. }
        | Status::TurnsSpent
        | Status::LineLied { .. }
        | Status::NoMemory => Ok(Vec::new(alloc)),
        Status::NotARun(place) => text_of(format!(in alloc; "not a run: event {}\n", *place)?),
        Status::JournalRefused(fault) => journal_fault_text(alloc, fault),
    }
}

fn text_of(text: String) -> Result<Vec<u8>, AllocError>
    ensures { IfOk result (λ bytes. bytes.items ≡ string_bytes text) }
{
    Ok(text.into_bytes())
}

#[tactic(auto, unfolding(crate::specs::Texts::journal_fault_text))]
fn journal_fault_text(alloc: Global, fault: &JournalFault) -> Result<Vec<u8>, AllocError>
    ensures { IfOk result (λ text. text.items ≡ journal_fault_text fault.now) }
{
    match fault {
        JournalFault::TooLong => Vec::from_slice(alloc, b"journal refused: too long\n"),
        JournalFault::Line(number) => {
            text_of(format!(in alloc; "journal refused: line {}\n", *number)?)
        }
        JournalFault::Event(_) | JournalFault::NoMemory => Ok(Vec::new(alloc)),
    }
}

/// The report of a run with its end line, or its journal's text.
#[tactic(auto, unfolding(crate::specs::Texts::run_text))]
pub fn run_text(
    alloc: Global,
    form: Form,
    journal: &Journal<Module>,
    end: &End,
) -> Result<Vec<u8>, NoMemory>
    ensures { IfOk result (λ text. text.items ≡ run_text form (plan_of journal.now) (past_of journal.now) end.now) }
{
    match form {
        Form::Long => report_with(alloc, journal, false, end_line(alloc, end)?.as_str()),
        Form::Short => report_with(alloc, journal, true, end_line(alloc, end)?.as_str()),
        Form::Journal => journal_text(alloc, journal),
    }
}

/// The report of a run that was read.
#[tactic(auto, unfolding(crate::specs::Texts::checked_text))]
pub fn checked_text(alloc: Global, journal: &Journal<Module>) -> Result<Vec<u8>, NoMemory>
    ensures { IfOk result (λ text. text.items ≡ checked_text (plan_of journal.now) (past_of journal.now)) }
{
    report_with(alloc, journal, false, "end: a run\n")
}

/// The report of a run with a last line.
fn report_with(
    alloc: Global,
    journal: &Journal<Module>,
    short: bool,
    last: &str,
) -> Result<Vec<u8>, NoMemory>
    ensures { IfOk result (λ text. text.items ≡ report the_rules (plan_of journal.now) (past_of journal.now) short ++ last.now) }
{
    let mut text = report_text(alloc, journal, short)?;
    text.extend_from_slice(last.as_bytes())?;
    Ok(text)
}

fn end_line(alloc: Global, end: &End) -> Result<String, AllocError>
    ensures { IfOk result (λ line. string_bytes line ≡ end_line end.now) }
{
    match *end {
        End::Settled => String::from_str(alloc, "end: settled\n"),
        End::Spent => String::from_str(alloc, "end: turns spent\n"),
        End::Lied {
            from,
            to,
            at,
            put,
            got,
        } => lied_line(alloc, from.get(), to.get(), at, put, got),
        End::Down { from, to } => down_line(alloc, from.get(), to.get()),
    }
}

fn lied_line(
    alloc: Global,
    from: u8,
    to: u8,
    at: u64,
    put: u8,
    got: u8,
) -> Result<String, AllocError>
    ensures { IfOk result (λ line. string_bytes line ≡ lied_line from to at put got) }
{
    let put = two_digits(alloc, put)?;
    let got = two_digits(alloc, got)?;
    lied_text(alloc, from, to, at, put.as_str(), got.as_str())
}

fn lied_text(
    alloc: Global,
    from: u8,
    to: u8,
    at: u64,
    put: &str,
    got: &str,
) -> Result<String, AllocError>
    ensures { IfOk result (λ line. string_bytes line ≡ lied_text from to at put.now got.now) }
{
    format!(in alloc; "end: line {from} {to} lied at {at}: put {put}, got {got}\n")
}

fn down_line(alloc: Global, from: u8, to: u8) -> Result<String, AllocError>
    ensures { IfOk result (λ line. string_bytes line ≡ down_line from to) }
{
    format!(in alloc; "end: line {from} {to} down\n")
}

#[tactic(auto, using(std::proofs::lemmas::Fmt::hex_byte), unfolding(crate::specs::Texts::two_digits))]
fn two_digits(alloc: Global, byte: u8) -> Result<String, AllocError>
    ensures { IfOk result (λ text. string_bytes text ≡ two_digits byte) }
{
    format!(in alloc; "{byte:02x}")
}
