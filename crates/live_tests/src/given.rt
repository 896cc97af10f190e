//! The scenario that most runs have, and words as `live` takes them.
use std::alloc::Global;
use std::test::*;

/// Members 1 and 2 of three send a message each.
pub const TWO_SENDS: &str =
    r#"{"members":3,"first":"sequencer 0","threads":[[{"at":1,"op":"send","text":"a"}],[{"at":2,"op":"send","text":"b"}]]}"#;

/// The words of a command.
pub fn words_of(alloc: Global, words: &[&str]) -> Result<Vec<String>, Fail> {
    let mut given = Vec::new(alloc);
    for word in words {
        given.push(String::from_str(alloc, word)?)?;
    }
    Ok(given)
}
