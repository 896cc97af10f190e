//! The spelling of what was chosen, token by token.
ghost use Rattle.std.specs.Prelude.{◌≡◌, ◌<◌, ◌++◌, OnOk};
ghost use Rattle.json.specs.Tree.{json_tokens, members_tokens};
ghost use Rattle.scenario_gen.specs.Generate.{message, numbered};
ghost use Rattle.scenario_gen.specs.Spelling.{change_json, scenario_json, send_json, step_json, thread_json, threads_json};

use crate::draw::{kind_by, member_by};
use json::Writer;
use std::alloc::{AllocError, Global};
use upd_base::Kind;

/// Every so many calls, the last one is a change.
const PERIOD: usize = 32;

const THREADS: usize = 4;

/// The scenario of these words.
pub(crate) fn write_scenario(
    alloc: Global,
    out: &mut Writer,
    words: &[u32],
) -> Result<(), AllocError>
    ensures before { OnOk result (out.new.before ≡ out.old.before) }
    ensures tokens { OnOk result (out.new.tokens ≡ out.old.tokens ++ json_tokens (scenario_json words.now)) }
{
    out.begin_object()?;
    out.key("members")?;
    out.u64(5)?;
    out.key("first")?;
    out.string("consensus")?;
    out.key("threads")?;
    write_threads(alloc, out, words)?;
    out.end_object()
}

fn write_threads(alloc: Global, out: &mut Writer, words: &[u32]) -> Result<(), AllocError>
    ensures before { OnOk result (out.new.before ≡ out.old.before) }
    ensures tokens { OnOk result (out.new.tokens ≡ out.old.tokens ++ json_tokens (threads_json (numbered words.now))) }
{
    out.begin_array()?;
    for thread in 0..THREADS {
        write_thread(alloc, out, words, thread)?;
    }
    out.end_array()
}

/// The calls of a thread, in order.
fn write_thread(
    alloc: Global,
    out: &mut Writer,
    words: &[u32],
    thread: usize,
) -> Result<(), AllocError>
    ensures before { OnOk result (out.new.before ≡ out.old.before) }
    ensures tokens { OnOk result (out.new.tokens ≡ out.old.tokens ++ json_tokens (thread_json (numbered words.now) thread)) }
{
    out.begin_array()?;
    for (call, word) in words.iter().enumerate() {
        if call % THREADS == thread {
            write_step(alloc, out, call, *word)?;
        }
    }
    out.end_array()
}

/// A call, by its number and its word.
fn write_step(alloc: Global, out: &mut Writer, call: usize, word: u32) -> Result<(), AllocError>
    ensures before { OnOk result (out.new.before ≡ out.old.before) }
    ensures tokens { OnOk result (out.new.tokens ≡ out.old.tokens ++ json_tokens (step_json (call, word))) }
{
    out.begin_object()?;
    out.key("at")?;
    out.u64(u64::from(member_by(word)))?;
    if call % PERIOD == PERIOD - 1 {
        write_change(alloc, out, kind_by(word))
    } else {
        write_send(alloc, out, call)
    }
}

/// The rest of a step that is a change.
fn write_change(alloc: Global, out: &mut Writer, kind: Kind) -> Result<(), AllocError>
    ensures before { OnOk result (out.new.before ≡ out.old.before) }
    ensures tokens { OnOk result (out.new.tokens ≡ out.old.tokens ++ members_tokens (change_json kind)) }
{
    let name = kind.text(alloc)?;
    out.key("op")?;
    out.string("change")?;
    out.key("kind")?;
    out.string(name.as_str())?;
    out.end_object()
}

/// The rest of a step that sends.
fn write_send(alloc: Global, out: &mut Writer, call: usize) -> Result<(), AllocError>
    ensures before { OnOk result (out.new.before ≡ out.old.before) }
    ensures tokens { OnOk result (out.new.tokens ≡ out.old.tokens ++ members_tokens (send_json (message call))) }
{
    let text = format!(in alloc; "m{call}")?;
    out.key("op")?;
    out.string("send")?;
    out.key("text")?;
    out.string(text.as_str())?;
    out.end_object()
}
