//! Scenarios, and what the program made of them.
ghost use Rattle.std.specs.Prelude.{◌<◌};

use std::alloc::Global;
use std::test::*;
use top_calls::plain;
use upd_fakes::{MemSink, MemSource, SureSink, SureSource};

/// Members 1 and 2 of three send a message each.
pub const TWO_SENDS: &str =
    r#"{"members":3,"first":"sequencer 0","threads":[[{"at":1,"op":"send","text":"a"}],[{"at":2,"op":"send","text":"b"}]]}"#;

/// The words of a command.
pub fn words_of(alloc: Global, words: &[&str]) -> Result<Vec<String>, Fail> {
    let mut given = Vec::new(alloc);
    for word in words {
        given.push(String::from_str(alloc, word)?)?;
    }
    Ok(given)
}

/// The exit status of a command, and what its sink got.
pub fn done(alloc: Global, words: &[&str], input: &[u8]) -> Result<(u8, Vec<u8>), Fail> {
    let words = words_of(alloc, words)?;
    let mut source = SureSource::new(Vec::from_slice(alloc, input)?);
    let mut sink = SureSink::new(alloc);
    let outcome = plain(alloc, words.as_slice(), &mut source, &mut sink);
    Ok((outcome.status.code(), Vec::from_slice(alloc, sink.bytes())?))
}

/// The generated scenario of this seed.
pub fn generated(alloc: Global, seed: &str, calls: &str) -> Result<Vec<u8>, Fail> {
    let (status, text) = done(alloc, &["gen", seed, calls], b"")?;
    if status != 0 {
        return Err("no scenario")?;
    }
    Ok(text)
}

/// The same where a source gives and a sink takes at most so many bytes at once, and these reads and writes fail.
pub fn done_in_pieces(
    alloc: Global,
    words: &[&str],
    input: &[u8],
    piece: usize,
    reads: &[u64],
    writes: &[u64],
) -> Result<(u8, Vec<u8>), Fail>
    requires { 0 < piece }
{
    let words = words_of(alloc, words)?;
    let input = Vec::from_slice(alloc, input)?;
    let mut source = MemSource::new(input, piece, Vec::from_slice(alloc, reads)?);
    let mut sink = MemSink::new(alloc, piece, Vec::from_slice(alloc, writes)?);
    let outcome = plain(alloc, words.as_slice(), &mut source, &mut sink);
    Ok((outcome.status.code(), Vec::from_slice(alloc, sink.bytes())?))
}
