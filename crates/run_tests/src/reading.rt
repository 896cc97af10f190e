//! Texts of journals: read and written again, and the first line or event that is refused.
use journal_file::{journal_text, read_journal};
use module_binding::Module;
use std::alloc::Global;
use std::test::Fail;

/// Two members: the second sends, and the first suspects it.
const HEAD: &str =
    "journal 1\nmembers 2\nfirst sequencer 0\nthreads 2\nthread 1\n1 send a b\nthread 1\n0 suspect 1\n";

/// A plan that asks for nothing.
const IDLE: &str = "journal 1\nmembers 1\nfirst lamport\nthreads 1\nthread 0\n";

/// A plan of one call, which is to follow.
const ONE_CALL: &str = "journal 1\nmembers 2\nfirst lamport\nthreads 1\nthread 1\n";

/// What a text comes to: the text of its journal, or its fault.
fn told(alloc: Global, text: &str) -> Result<String, Fail> {
    match read_journal::<Module>(alloc, text.as_bytes()) {
        Ok(journal) => Ok(
            String::from_utf8(journal_text(alloc, &journal)?)
                .ok()
                .ok_or("a text")?,
        ),
        Err(fault) => Ok(format!(in alloc; "{fault}")?),
    }
}

#[test]
fn a_run_there_and_back(rt: HostRuntime) -> Result<(), Fail> {
    let alloc = rt.alloc();
    let text = format!(in alloc;
        "{HEAD}events 5\ncall 0 0 1 accepted 0\nreceive 1 0\nreceive 0 1\nreceive 0 0\ncall 1 0 0 done\nend\n"
    )?;
    assert_eq!(rt; told(alloc, text.as_str())?.as_str(), text.as_str());
    let part = format!(in alloc; "{HEAD}events 0\nend\n")?;
    assert_eq!(rt; told(alloc, part.as_str())?.as_str(), part.as_str());
    for call in [
        "1 send a  b ",
        "0 change sequencer 1",
        "0 change consensus",
        "0 suspect 1",
        "0 trust 1",
        "0 crash",
    ] {
        let text = format!(in alloc; "{ONE_CALL}{call}\nevents 0\nend\n")?;
        assert_eq!(rt; told(alloc, text.as_str())?.as_str(), text.as_str());
    }
    Ok(())
}

#[test]
fn the_first_line_that_is_refused(rt: HostRuntime) -> Result<(), Fail> {
    let alloc = rt.alloc();
    for (front, back, want) in [
        ("", "", "line 1"),
        ("", "journal 1", "line 1"),
        ("", "journal 2\n", "line 1"),
        ("", "journal 01\n", "line 1"),
        ("", "journal 1\n", "line 2"),
        ("", "journal 1\nmembers 7\n", "line 3"),
        ("", "journal 1\nmembers 8\n", "line 2"),
        ("", "journal 1\nmembers 2\nfirst sequencer 2\n", "line 3"),
        (
            "",
            "journal 1\nmembers 2\nfirst lamport\nthreads 17\n",
            "line 4",
        ),
        (
            "",
            "journal 1\nmembers 2\nfirst lamport\nthreads 1\nthread 1000\n",
            "line 6",
        ),
        (
            "",
            "journal 1\nmembers 2\nfirst lamport\nthreads 1\nthread 1001\n",
            "line 5",
        ),
        (
            "",
            "journal 1\nmembers 2\nfirst lamport\nthreads 2\nthread 1\n0 crash\nthread 1000\n",
            "line 7",
        ),
        (
            "",
            "journal 1\nmembers 2\nfirst lamport\nthreads 1\nthread 1\n2 crash\n",
            "line 6",
        ),
        (
            "",
            "journal 1\nmembers 2\nfirst lamport\nthreads 1\nthread 1\nevents 0\n",
            "line 6",
        ),
        (
            "",
            "journal 1\nmembers 2\nfirst lamport\nthreads 16\n",
            "line 5",
        ),
        (
            "",
            "journal 1\nmembers 2\nfirst lamport\nthreads 0\n",
            "line 4",
        ),
        (ONE_CALL, "0 send \n", "line 6"),
        (ONE_CALL, "0 suspect 0\n", "line 6"),
        (ONE_CALL, "0 change sequencer 2\n", "line 6"),
        (IDLE, "events 1\n", "line 6"),
        (IDLE, "events 0\nend \n", "line 7"),
        (IDLE, "events 0\n", "line 7"),
        (IDLE, "events 0\nend", "line 7"),
        (IDLE, "events 0\nrelease 0\nend\n", "line 7"),
        (IDLE, "events 0\nend\n\n", "line 8"),
        (IDLE, "events 0\nend\nend", "line 8"),
        (HEAD, "events 31\n", "line 9"),
        (HEAD, "events 018\n", "line 9"),
        (HEAD, "events 1\nrelease 4294967296\nend\n", "line 10"),
        (HEAD, "events 1\nreceive 1\nend\n", "line 10"),
        (HEAD, "events 1\ncall 0 0  1 done\nend\n", "line 10"),
        (HEAD, "events 2\nrelease 0\nend\n", "line 11"),
        (HEAD, "events 1\nrelease 0\nrelease 0\nend\n", "line 11"),
        (HEAD, "events 1\nreceive 0 4294967296\nend\n", "line 10"),
    ] {
        let text = format!(in alloc; "{front}{back}")?;
        assert_eq!(rt; told(alloc, text.as_str())?.as_str(), want, "at {text}");
    }
    Ok(())
}

#[test]
fn a_change_above_the_most(rt: HostRuntime) -> Result<(), Fail> {
    let alloc = rt.alloc();
    let mut text = String::from_str(
        alloc,
        "journal 1\nmembers 1\nfirst lamport\nthreads 2\nthread 1\n0 change lamport\nthread 33\n",
    )?;
    for _ in 0..31 {
        text.push_str("0 change lamport\n")?;
    }
    let above = format!(in alloc; "{text}0 change lamport\n0 crash\nevents 0\nend\n")?;
    assert_eq!(rt; told(alloc, above.as_str())?.as_str(), "line 39");
    let within = format!(in alloc; "{text}0 crash\n")?;
    assert_eq!(rt; told(alloc, within.as_str())?.as_str(), "line 40");
    Ok(())
}

#[test]
fn the_first_event_that_cannot_be_made(rt: HostRuntime) -> Result<(), Fail> {
    let alloc = rt.alloc();
    for (events, want) in [
        (
            "events 2\ncall 0 0 1 accepted 0\ncall 0 0 1 accepted 1\n",
            "event 2",
        ),
        ("events 1\ncall 0 0 1 accepted 1\n", "event 1"),
        ("events 1\ncall 0 0 1 done\n", "event 1"),
        ("events 1\ncall 0 0 0 accepted 0\n", "event 1"),
        ("events 1\ncall 0 1 1 accepted 0\n", "event 1"),
        ("events 1\ncall 0 0 1 version limit\n", "event 1"),
        ("events 1\ncall 0 0 4294967295 accepted 0\n", "event 1"),
        ("events 1\ncall 2 0 1 accepted 0\n", "event 1"),
        ("events 1\ncall 256 0 1 accepted 0\n", "event 1"),
        ("events 1\ncall 0 65536 1 accepted 0\n", "event 1"),
        ("events 2\ncall 0 0 1 accepted 0\nreceive 0 1\n", "event 2"),
        (
            "events 2\ncall 0 0 1 accepted 0\nreceive 1 256\n",
            "event 2",
        ),
        (
            "events 3\ncall 1 0 0 done\ncall 0 0 1 accepted 0\nrelease 0\n",
            "event 3",
        ),
        ("events 1\nrelease 4294967295\n", "event 1"),
    ] {
        let text = format!(in alloc; "{HEAD}{events}end\n")?;
        assert_eq!(rt; told(alloc, text.as_str())?.as_str(), want, "at {events}");
    }
    Ok(())
}
