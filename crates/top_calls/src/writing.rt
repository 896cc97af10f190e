//! Texts that are written whole.
ghost use Rattle.std.specs.Prelude.{◌≡◌};
ghost use Rattle.upd_base.specs.Edge.{Rose};
ghost use Rattle.run_journal.specs.Journal.{plan_of, past_of};
ghost use Rattle.top_calls.specs.Causes.{IsAt, WroteRunOf, status_at, status_of};
ghost use Rattle.top_calls.specs.Checked.{IsWritten, WroteText, unwritten};
ghost use Rattle.program_texts.specs.declared.status.Status.{Status};

use module_binding::Module;
use program_texts::{End, Status, run_text};
use program_words::Form;
use run_journal::Journal;
use std::alloc::Global;
use upd_base::{EdgeFault, NoMemory, Sink};
use upd_io::write_all;

/// Writes the text of a run that has come to this end.
pub(crate) fn write_run<K: Sink>(
    alloc: Global,
    form: Form,
    journal: &Journal<Module>,
    end: &End,
    sink: &mut K,
) -> Status
    ensures status { IsAt end.now result }
    ensures wrote { WroteRunOf (λ other. other ≡ end.now) result form (plan_of journal.now) (past_of journal.now) (K.held sink.old) (K.held sink.new) }
    ensures cause { result ≡ Status.SinkFailed → Rose (K.faults sink.old) (K.faults sink.new) }
{
    match run_text(alloc, form, journal, end) {
        Ok(text) => {
            let wrote = write_all(sink, text.as_slice());
            written(end, wrote)
        }
        Err(NoMemory) => Status::NoMemory,
    }
}

/// The status of a run that came to this end, by how the writing of its text went.
fn written(end: &End, wrote: Result<(), EdgeFault>) -> Status
    ensures { result ≡ status_of end.now wrote }
{
    match wrote {
        Ok(()) => whole(end),
        Err(fault) => unwritten(fault),
    }
}

fn whole(end: &End) -> Status
    ensures { result ≡ status_at end.now }
{
    match *end {
        End::Settled => Status::Done,
        End::Spent => Status::TurnsSpent,
        End::Lied {
            from,
            to,
            at,
            put,
            got,
        } => Status::LineLied {
            from,
            to,
            at,
            put,
            got,
        },
        End::Down { from, to } => Status::LineDown { from, to },
    }
}

/// Writes a text that is done once it is written.
pub(crate) fn write_text<K: Sink>(text: &[u8], sink: &mut K) -> Status
    ensures status { IsWritten result }
    ensures wrote { WroteText result text.now (K.held sink.old) (K.held sink.new) }
    ensures cause { result ≡ Status.SinkFailed → Rose (K.faults sink.old) (K.faults sink.new) }
{
    match write_all(sink, text) {
        Ok(()) => Status::Done,
        Err(fault) => unwritten(fault),
    }
}

/// The status where a text was not written whole.
pub(crate) fn unwritten(fault: EdgeFault) -> Status
    ensures { result ≡ unwritten fault }
{
    match fault {
        EdgeFault::Failed => Status::SinkFailed,
        EdgeFault::NoMemory => Status::NoMemory,
    }
}
