//! `gen`: a scenario by a seed.
ghost use Rattle.std.specs.Prelude.{◌≡◌, ◌≤◌, None, []};
ghost use Rattle.upd_base.specs.Edge.{Rose};
ghost use Rattle.scenario_gen.specs.Spelling.{spelt};
ghost use Rattle.top_calls.specs.Checked.{IsWritten, WroteText};
ghost use Rattle.program_texts.specs.declared.status.Status.{Status};

use crate::outcome::Outcome;
use crate::refusals::without_journal;
use crate::writing::write_text;
use program_texts::Status;
use program_words::Generate;
use scenario_gen::generate;
use std::alloc::Global;
use upd_base::{NoLine, NoMemory, Sink};

/// Writes the scenario of a seed with so many calls to the sink.
pub(crate) fn write_scenario<K: Sink>(
    alloc: Global,
    asked: Generate,
    sink: &mut K,
) -> Outcome<NoLine>
    requires { asked.calls ≤ 1000 }
    ensures journal { result.journal ≡ None }
    ensures no_lines { result.lines.items ≡ [] }
    ensures status { IsWritten result.status }
    ensures wrote { WroteText result.status (spelt asked.seed asked.calls) (K.held sink.old) (K.held sink.new) }
    ensures cause { result.status ≡ Status.SinkFailed → Rose (K.faults sink.old) (K.faults sink.new) }
{
    let status = match generate(alloc, asked.seed, asked.calls) {
        Ok(text) => write_text(text.as_slice(), sink),
        Err(NoMemory) => Status::NoMemory,
    };
    without_journal(alloc, status)
}
