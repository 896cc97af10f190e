//! The texts of a run without events, and that of a refusal.
use module_binding::Module;
use program_texts::{End, Status, checked_text, refusal_text, run_text};
use program_words::Form;
use run_journal::{Journal, serves};
use std::alloc::Global;
use std::test::*;
use upd_base::{Kind, Plan};

const ENDED: &str = "run: 1 members, 0 events, 0 of 0 calls
answers: 0 accepted, 0 done, 0 full, 0 crashed
member 0: version 0, lamport, up, 0 delivered
end: settled
";

const CHECKED: &str = "run: 1 members, 0 events, 0 of 0 calls
answers: 0 accepted, 0 done, 0 full, 0 crashed
member 0: version 0, lamport, up, 0 delivered
end: a run
";

/// A journal without events, of a member to whom nothing is asked.
fn journal(alloc: Global) -> Result<Journal<Module>, Fail> {
    let threads = vec![in alloc; Vec::new(alloc)]?;
    let plan = Plan::new(1, Kind::Lamport, threads).ok_or("a plan")?;
    if !serves::<Module>(&plan) {
        return Err("kinds that are served")?;
    }
    Ok(Journal::begin(alloc, plan)?)
}

#[test]
fn texts_of_runs(rt: HostRuntime) -> Result<(), Fail> {
    let alloc = rt.alloc();
    let journal = journal(alloc)?;
    let Ok(report) = run_text(alloc, Form::Long, &journal, &End::Settled) else {
        return Err("memory")?;
    };
    assert_eq!(rt; report.as_slice(), ENDED.as_bytes());
    let Ok(checked) = checked_text(alloc, &journal) else {
        return Err("memory")?;
    };
    assert_eq!(rt; checked.as_slice(), CHECKED.as_bytes());
    Ok(())
}

#[test]
fn refusals(rt: HostRuntime) -> Result<(), Fail> {
    let alloc = rt.alloc();
    let not_a_run = Status::NotARun(12);
    assert_eq!(rt; not_a_run.code(), 10);
    let text = refusal_text(alloc, &not_a_run)?;
    assert_eq!(rt; text.as_slice(), b"not a run: event 12\n".as_slice());
    Ok(())
}
