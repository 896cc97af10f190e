//! What the program does where there is no journal.
ghost use Rattle.std.specs.Prelude.{◌≡◌, None, []};
ghost use Rattle.upd_io.specs.Whole.{AppendsPrefix};
ghost use Rattle.top_calls.specs.Causes.{IsRefusal, OrMemory, Told};
ghost use Rattle.program_texts.specs.Texts.{refusal_text};

use crate::outcome::Outcome;
use program_texts::{Status, refusal_text};
use std::alloc::Global;
use upd_base::{EdgeFault, Sink};
use upd_io::write_all;

/// What the program did without a journal.
pub(crate) fn without_journal<L: Drop>(alloc: Global, status: Status) -> Outcome<L>
    ensures status { result.status ≡ status }
    ensures journal { result.journal ≡ None }
    ensures no_lines { result.lines.items ≡ [] }
{
    Outcome {
        status,
        journal: None,
        lines: Vec::new(alloc),
    }
}

/// Writes a refusal's text. A fault of the sink changes no status.
pub(crate) fn refuse<K: Sink, L: Drop>(alloc: Global, status: Status, sink: &mut K) -> Outcome<L>
    requires { IsRefusal status }
    ensures journal { result.journal ≡ None }
    ensures no_lines { result.lines.items ≡ [] }
    ensures status { OrMemory result.status status }
    ensures told { result.status ≡ status → Told (K.faults sink.old) (K.faults sink.new) (K.held sink.old) (K.held sink.new) (refusal_text status) }
    ensures front { AppendsPrefix (K.held sink.old) (K.held sink.new) (refusal_text status) }
{
    let Ok(text) = refusal_text(alloc, &status) else {
        return without_journal(alloc, Status::NoMemory);
    };
    match write_all(sink, text.as_slice()) {
        Ok(()) | Err(EdgeFault::Failed) => without_journal(alloc, status),
        Err(EdgeFault::NoMemory) => without_journal(alloc, Status::NoMemory),
    }
}
