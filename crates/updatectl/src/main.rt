//! Reads a scenario, runs the group that it describes, and reports what each member delivered. Checks the text of a
//! recorded run. Writes scenarios by a seed.
#![tactic(auto)]

mod std_edge;

use line_fakes::SureLines;
use loop_link::LoopLines;
use program_texts::Status;
use program_words::{LineKind, run_of};
use std::alloc::Global;
use std::env;
use std::io::{Error, ErrorKind};
use std::net::Net;
use std::process::ExitCode;
use std::sync::Wait;
use std::thread::Threads;
use std_edge::{StdSink, StdSource};
use top_calls::{live, plain};
use upd_base::{Sink, Source};
use worker_gates::OpenGate;

/// The words without the program's name. Arguments that are no text count as one empty word, which is no
/// command.
fn words_of(rt: &HostRuntime) -> Result<Vec<String>, Error> {
    let alloc = rt.alloc();
    let mut words = Vec::new(alloc);
    match env::args(rt) {
        Ok(args) => {
            for word in args.skip(1) {
                words.push(word)?;
            }
        }
        Err(error) if error.kind() == ErrorKind::OutOfMemory => return Err(error),
        Err(_) => words.push(String::new(alloc))?,
    }
    Ok(words)
}

/// Runs a scenario with threads over lines of this kind.
fn run<S: Source, K: Sink, N: Net + Drop, R: Threads + Wait + Sync>(
    rt: &R,
    net: N,
    alloc: Global,
    over: LineKind,
    words: &[String],
    source: &mut S,
    sink: &mut K,
) -> Status
where
    N::Stream: Send,
{
    match over {
        LineKind::Memory => {
            let mut lines = SureLines::new(alloc);
            live(rt, alloc, words, source, sink, &mut lines, &OpenGate).status
        }
        LineKind::Loopback => {
            let mut lines = LoopLines::new(net);
            live(rt, alloc, words, source, sink, &mut lines, &OpenGate).status
        }
    }
}

fn main(rt: HostRuntime) -> ExitCode {
    let Ok(words) = words_of(&rt) else {
        return ExitCode::from(Status::NoMemory.code());
    };
    let alloc = rt.alloc();
    let words = words.as_slice();
    let mut source = StdSource::new(rt.stdin());
    let mut sink = StdSink::new(rt.stdout());
    let status = match run_of(words) {
        Some(asked) => run(&rt, rt, alloc, asked.over, words, &mut source, &mut sink),
        None => plain(alloc, words, &mut source, &mut sink).status,
    };
    ExitCode::from(status.code())
}

#[cfg(test)]
mod tests;
