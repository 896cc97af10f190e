//! Scenarios that are read, and the first fault of those that are not.
use scenario::{ScenarioFault, read};
use std::alloc::Global;
use std::test::*;

fn shown(alloc: Global, text: &str) -> Result<String, Fail> {
    match read(alloc, text.as_bytes()) {
        Ok(plan) => Ok(format!(in alloc; "plan of {}", plan.members())?),
        Err(ScenarioFault::TooLong) => Ok(String::from_str(alloc, "too long")?),
        Err(ScenarioFault::NotJson) => Ok(String::from_str(alloc, "not JSON")?),
        Err(ScenarioFault::NoMemory) => Ok(String::from_str(alloc, "no memory")?),
        Err(ScenarioFault::At { path, reason }) => {
            let path = String::from_utf8_lossy(alloc, path.bytes())?;
            Ok(format!(in alloc; "{} {:?}", path.as_str(), reason)?)
        }
    }
}

#[test]
fn rows(rt: HostRuntime) -> Result<(), Fail> {
    for (text, want) in [
        (
            "{\"members\":3,\"first\":\"sequencer 0\",\"threads\":[[{\"at\":1,\"op\":\"send\",\"text\":\"a\"}]]}",
            "plan of 3",
        ),
        (
            "{\"members\":2,\"first\":\"lamport\",\"threads\":[[]]}",
            "plan of 2",
        ),
        (
            "{\"members\":8,\"first\":\"sequencer 9\",\"threads\":3}",
            "/members OutOfRange",
        ),
        (
            "{\"members\":3,\"first\":\"sequencer 3\",\"threads\":[]}",
            "/first BadKind",
        ),
        (
            "{\"members\":3,\"first\":\"consensus\",\"threads\":[]}",
            "/threads OutOfRange",
        ),
        (
            "{\"members\":3,\"first\":\"consensus\",\"threads\":[3]}",
            "/threads/0 WrongType",
        ),
        (
            "{\"members\":3,\"first\":\"consensus\",\"threads\":[[{\"at\":9}]]}",
            "/threads/0/0/at OutOfRange",
        ),
        (
            "{\"members\":3,\"first\":\"consensus\",\"threads\":[[{\"at\":1,\"op\":\"sent\"}]]}",
            "/threads/0/0/op BadOp",
        ),
        (
            "{\"members\":3,\"first\":\"consensus\",\"threads\":[[{\"at\":1,\"op\":\"send\",\"text\":\"\"}]]}",
            "/threads/0/0/text BadText",
        ),
        (
            "{\"members\":3,\"first\":\"consensus\",\"threads\":[[{\"at\":1,\"op\":\"trust\",\"member\":1}]]}",
            "/threads/0/0/member OutOfRange",
        ),
        (
            "{\"members\":3,\"first\":\"consensus\",\"threads\":[[{\"at\":1,\"op\":\"crash\",\"member\":1}]]}",
            "/threads/0/0 UnknownKey",
        ),
        (
            "{\"members\":3,\"first\":\"consensus\",\"threads\":[[]],\"x\":1}",
            "/ UnknownKey",
        ),
        (
            "{\"members\":1.0,\"first\":\"consensus\",\"threads\":[[]]}",
            "/members WrongType",
        ),
        (
            "{\"members\":1e0,\"first\":\"consensus\",\"threads\":[[]]}",
            "/members WrongType",
        ),
        (
            "{\"members\":-0,\"first\":\"consensus\",\"threads\":[[]]}",
            "/members WrongType",
        ),
        (
            "{\"members\":9,\"members\":1,\"first\":\"consensus\",\"threads\":[[]]}",
            "plan of 1",
        ),
        ("[]", "/ WrongType"),
        ("", "not JSON"),
        (
            "{\"members\":1,\"first\":\"consensus\",\"threads\":[[]]} x",
            "not JSON",
        ),
    ] {
        let got = shown(rt.alloc(), text)?;
        assert_eq!(rt; got.as_str(), want);
    }
    Ok(())
}
