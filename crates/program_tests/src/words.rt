//! Words of the command line, and what they ask for.
use crate::given::words_of;
use program_words::{Command, Form, Generate, LineKind, Rehearse, Run, command_of, run_of};
use std::alloc::Global;
use std::test::*;

fn asked(alloc: Global, words: &[&str]) -> Result<Option<Command>, Fail> {
    Ok(command_of(words_of(alloc, words)?.as_slice()))
}

fn asked_run(alloc: Global, words: &[&str]) -> Result<Option<Run>, Fail> {
    Ok(run_of(words_of(alloc, words)?.as_slice()))
}

#[test]
fn rehearsals(rt: HostRuntime) -> Result<(), Fail> {
    let alloc = rt.alloc();
    let plain = Command::Rehearse(Rehearse {
        seed: None,
        form: Form::Long,
    });
    let seeded = Command::Rehearse(Rehearse {
        seed: Some(7),
        form: Form::Journal,
    });
    assert_eq!(rt; asked(alloc, &["rehearse"])?, Some(plain));
    assert_eq!(rt;
        asked(alloc, &["rehearse", "007", "journal"])?,
        Some(seeded)
    );
    assert_eq!(rt; asked(alloc, &["rehearse", "short", "7"])?, None);
    assert_eq!(rt; asked(alloc, &["rehearse", "18446744073709551616"])?, None);
    Ok(())
}

#[test]
fn other_commands(rt: HostRuntime) -> Result<(), Fail> {
    let alloc = rt.alloc();
    let generate = Command::Generate(Generate {
        seed: 7,
        calls: 1000,
    });
    assert_eq!(rt; asked(alloc, &["check"])?, Some(Command::Check));
    assert_eq!(rt; asked(alloc, &["check", "short"])?, None);
    assert_eq!(rt; asked(alloc, &["gen", "7", "1000"])?, Some(generate));
    assert_eq!(rt; asked(alloc, &["gen", "7", "1001"])?, None);
    assert_eq!(rt; asked(alloc, &["gen", "7", "00001"])?, None);
    assert_eq!(rt; asked(alloc, &[])?, None);
    Ok(())
}

#[test]
fn runs(rt: HostRuntime) -> Result<(), Fail> {
    let alloc = rt.alloc();
    let memory = Run {
        over: LineKind::Memory,
        form: Form::Long,
    };
    let loopback = Run {
        over: LineKind::Loopback,
        form: Form::Short,
    };
    assert_eq!(rt; asked_run(alloc, &["run", "memory"])?, Some(memory));
    assert_eq!(rt;
        asked_run(alloc, &["run", "loopback", "short"])?,
        Some(loopback)
    );
    assert_eq!(rt; asked_run(alloc, &["run"])?, None);
    assert_eq!(rt; asked_run(alloc, &["rehearse"])?, None);
    Ok(())
}
