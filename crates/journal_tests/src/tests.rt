ghost use Rattle.std.specs.Prelude.{◌<◌, ◌≤◌, ◌≡◌, IfOk, length};
ghost use Rattle.run_journal.specs.Journal.{plan_of};

use frame_feed::Feed;
use group_laws::{
    canon, journal_counts_switches, journal_is_bounded, journal_is_fulfilled, journal_is_ordered,
    quiet,
};
use lamport_order::LamportOrder;
use line_fakes::SureLines;
use module_binding::Module;
use order_trait::Ordering;
use rehearsal::{RehearsalEnd, Rehearsed, round_robin, seeded};
use run_journal::{Journal, serves};
use run_report::report_text;
use scenario::read;
use std::alloc::Global;
use std::test::*;
use upd_base::{Answer, Entry, Event, Frame, Item, MemberId};
use upd_frame::encode;
use upd_lines::{Line, LineMaker};

const TWO_SENDS: &str =
    r#"{"members":3,"first":"sequencer 0","threads":[[{"at":1,"op":"send","text":"a"}],[{"at":2,"op":"send","text":"b"}]]}"#;

const CHANGE: &str =
    r#"{"members":2,"first":"sequencer 0","threads":[[{"at":0,"op":"send","text":"a"},{"at":0,"op":"change","kind":"lamport"},{"at":1,"op":"send","text":"b"}]]}"#;

const SAME_KIND: &str =
    r#"{"members":1,"first":"sequencer 0","threads":[[{"at":0,"op":"send","text":"a"},{"at":0,"op":"change","kind":"sequencer 0"},{"at":0,"op":"send","text":"b"}]]}"#;

const OVERTAKEN: &str =
    r#"{"members":2,"first":"sequencer 0","threads":[[{"at":0,"op":"change","kind":"lamport"}],[{"at":1,"op":"change","kind":"consensus"}]]}"#;

const STAMPS: &str =
    r#"{"members":2,"first":"lamport","threads":[[{"at":0,"op":"send","text":"a"}],[{"at":1,"op":"send","text":"b"}]]}"#;

const CRASH: &str =
    r#"{"members":3,"first":"sequencer 0","threads":[[{"at":1,"op":"send","text":"a"},{"at":0,"op":"crash"},{"at":2,"op":"send","text":"b"}]]}"#;

const ALONE: &str =
    r#"{"members":1,"first":"consensus","threads":[[{"at":0,"op":"send","text":"a"}]]}"#;

const ONE_SUSPECTED: &str =
    r#"{"members":3,"first":"consensus","threads":[[{"at":2,"op":"suspect","member":0},{"at":1,"op":"send","text":"a"}]]}"#;

const EACH_SUSPECTED: &str =
    r#"{"members":2,"first":"consensus","threads":[[{"at":0,"op":"suspect","member":1},{"at":1,"op":"suspect","member":0},{"at":0,"op":"send","text":"a"}]]}"#;

const EACH_KIND: &str =
    r#"{"members":3,"first":"sequencer 0","threads":[[{"at":1,"op":"send","text":"a"},{"at":0,"op":"change","kind":"consensus"},{"at":2,"op":"send","text":"b"},{"at":1,"op":"change","kind":"lamport"},{"at":0,"op":"send","text":"c"},{"at":2,"op":"change","kind":"sequencer 2"},{"at":1,"op":"send","text":"d"}]]}"#;

/// What each member delivers in it.
const EACH_LOG: &str = "version 3, sequencer 2, up, 7 delivered
  0 msg 1.0 a
  0 switch 0.0 consensus
  1 msg 2.0 b
  1 switch 1.1 lamport
  2 msg 0.1 c
  2 switch 2.1 sequencer 2
  3 msg 1.2 d
";

// A run of millions of events is kept in memory.
const _: () = prove!(size_of::<Event>() <= 24);

const STAMPS_OVERTAKEN: &str =
    r#"{"members":2,"first":"lamport","threads":[[{"at":0,"op":"change","kind":"lamport"}],[{"at":1,"op":"change","kind":"lamport"}]]}"#;

/// A journal of the plan that a scenario is read as.
fn begun<O: Ordering>(alloc: Global, text: &str) -> Result<Journal<O>, Fail> {
    let plan = read(alloc, text.as_bytes()).ok().ok_or("a plan")?;
    if !serves::<O>(&plan) {
        return Err("kinds that are served")?;
    }
    Ok(Journal::begin(alloc, plan)?)
}

/// An entry in short: its version, its origin, its number, and whether it is a message.
fn short(entry: &Entry) -> (u16, u8, u32, bool) {
    match &entry.item {
        Item::Msg { origin, number, .. } => (entry.version, origin.get(), *number, true),
        Item::Switch { origin, number, .. } => (entry.version, origin.get(), *number, false),
    }
}

/// The log of the member with the longest one, in short.
fn longest<O: Ordering>(
    alloc: Global,
    journal: &Journal<O>,
) -> Result<Vec<(u16, u8, u32, bool)>, Fail> {
    let lead = u8::try_from(canon(journal)).ok().ok_or("a member")?;
    let lead = MemberId::new(lead).ok_or("a member")?;
    let mut entries = Vec::new(alloc);
    for entry in journal.log(lead).entries() {
        entries.push(short(entry))?;
    }
    Ok(entries)
}

/// Runs a scenario by rounds to its end: how it ended, how many events it had, and the longest log.
fn run(
    alloc: Global,
    text: &str,
) -> Result<(RehearsalEnd, u64, bool, Vec<(u16, u8, u32, bool)>), Fail> {
    let Rehearsed { journal, end } = round_robin(alloc, begun::<Module>(alloc, text)?);
    journal_is_ordered(&journal);
    journal_counts_switches(&journal);
    journal_is_fulfilled(&journal);
    journal_is_bounded(&journal);
    let log = longest(alloc, &journal)?;
    Ok((end, journal.len(), quiet(&journal), log))
}

#[test]
fn runs_by_rounds(rt: HostRuntime) -> Result<(), Fail> {
    let alloc = rt.alloc();
    let settled = RehearsalEnd::Settled;
    let sends = run(alloc, TWO_SENDS)?;
    assert_eq!(rt; (sends.0, sends.1, sends.2), (settled, 10, true));
    assert_eq!(rt;
        sends.3.as_slice(),
        [(0, 1, 0, true), (0, 2, 0, true)].as_slice()
    );
    let change = run(alloc, CHANGE)?;
    assert_eq!(rt; (change.0, change.1, change.2), (settled, 16, true));
    assert_eq!(rt;
        change.3.as_slice(),
        [(0, 0, 0, true), (0, 0, 1, false), (1, 1, 0, true)].as_slice()
    );
    let same = run(alloc, SAME_KIND)?;
    assert_eq!(rt; (same.0, same.1), (settled, 11));
    assert_eq!(rt;
        same.3.as_slice(),
        [(0, 0, 0, true), (0, 0, 1, false), (1, 0, 2, true)].as_slice()
    );
    let overtaken = run(alloc, OVERTAKEN)?;
    assert_eq!(rt; (overtaken.0, overtaken.1), (settled, 8));
    assert_eq!(rt; overtaken.3.as_slice(), [(0, 0, 0, false)].as_slice());
    let stamps = run(alloc, STAMPS)?;
    assert_eq!(rt; (stamps.0, stamps.1), (settled, 10));
    assert_eq!(rt;
        stamps.3.as_slice(),
        [(0, 0, 0, true), (0, 1, 0, true)].as_slice()
    );
    let crash = run(alloc, CRASH)?;
    assert_eq!(rt; (crash.0, crash.1, crash.2), (settled, 6, false));
    assert_eq!(rt; crash.3.as_slice(), [(0, 1, 0, true)].as_slice());
    Ok(())
}

/// The event at a place, where there is one.
fn event_at<O: Ordering>(journal: &Journal<O>, place: u64) -> Option<Event> {
    if place < journal.events().len() as u64 {
        Some(*journal.event(place))
    } else {
        None
    }
}

/// The call of thread 0 or 1 at the member of the same number, accepted as its first.
fn accepted(thread: u8) -> Option<Event> {
    Some(Event::Call {
        thread,
        index: 0,
        member: MemberId::new(thread)?,
        answer: Answer::Accepted(0),
    })
}

/// A receipt on the link of a member to itself.
fn received(at: u8) -> Option<Event> {
    let to = MemberId::new(at)?;
    Some(Event::Receive { from: to, to })
}

#[test]
fn a_run_of_stamps_alone(rt: HostRuntime) -> Result<(), Fail> {
    let alloc = rt.alloc();
    let begun = begun::<LamportOrder>(alloc, STAMPS_OVERTAKEN)?;
    let Rehearsed { journal, end } = round_robin(alloc, begun);
    assert_eq!(rt; (end, journal.len()), (RehearsalEnd::Settled, 10));
    assert_eq!(rt; event_at(&journal, 0), accepted(0));
    assert_eq!(rt; event_at(&journal, 1), accepted(1));
    assert_eq!(rt; event_at(&journal, 2), received(0));
    assert_eq!(rt; event_at(&journal, 9), received(1));
    assert!(rt; event_at(&journal, 10).is_none());
    assert_eq!(rt;
        longest(alloc, &journal)?.as_slice(),
        [(0, 0, 0, false)].as_slice()
    );
    Ok(())
}

#[test]
fn runs_of_consensus(rt: HostRuntime) -> Result<(), Fail> {
    let alloc = rt.alloc();
    let settled = RehearsalEnd::Settled;
    let alone = run(alloc, ALONE)?;
    assert_eq!(rt; (alone.0, alone.1, alone.2), (settled, 6, true));
    assert_eq!(rt; alone.3.as_slice(), [(0, 0, 0, true)].as_slice());
    // The suspected coordinator of the first round gives it up, and the second round decides.
    let one = run(alloc, ONE_SUSPECTED)?;
    assert_eq!(rt; (one.0, one.1, one.2), (settled, 41, false));
    assert_eq!(rt; one.3.as_slice(), [(0, 1, 0, true)].as_slice());
    // No round gathers two acceptances.
    let each = run(alloc, EACH_SUSPECTED)?;
    assert_eq!(rt; (each.0, each.1, each.2), (RehearsalEnd::Spent, 31, false));
    assert!(rt; each.3.is_empty());
    Ok(())
}

const OVERTAKEN_REPORT: &str = "run: 2 members, 8 events, 2 of 2 calls
answers: 2 accepted, 0 done, 0 full, 0 crashed
member 0: version 1, lamport, up, 1 delivered
  0 switch 0.0 lamport
member 1: version 1, lamport, up, 1 delivered
  0 switch 0.0 lamport
overtaken switch 1.0 consensus
";

#[test]
fn a_report(rt: HostRuntime) -> Result<(), Fail> {
    let alloc = rt.alloc();
    let Rehearsed { journal, .. } = round_robin(alloc, begun::<Module>(alloc, OVERTAKEN)?);
    let long = report_text(alloc, &journal, false)?;
    assert!(rt; long.as_slice() == OVERTAKEN_REPORT.as_bytes());
    let short = report_text(alloc, &journal, true)?;
    assert!(rt; short.as_slice().starts_with(b"run: 2 members"));
    assert!(rt; short.len() < long.len());
    Ok(())
}

#[test]
fn runs_by_a_seed(rt: HostRuntime) -> Result<(), Fail> {
    let alloc = rt.alloc();
    let Rehearsed { journal, end } = seeded(alloc, begun::<Module>(alloc, CHANGE)?, 7);
    assert_eq!(rt; (end, quiet(&journal)), (RehearsalEnd::Settled, true));
    assert_eq!(rt; longest(alloc, &journal)?.len(), 3);
    Ok(())
}

/// A frame as a line and a feed in pieces of one byte give it.
fn carried(alloc: Global, from: MemberId, to: MemberId, frame: &Frame) -> Result<Frame, Fail> {
    let mut lines = SureLines::new(alloc);
    let mut line = lines.make_line(from, to).ok().ok_or("a line")?;
    let mut feed = Feed::new(alloc);
    for byte in encode(alloc, frame)? {
        line.put(&[byte]).ok().ok_or("a put")?;
        let mut piece = [0];
        line.get(&mut piece).ok().ok_or("a get")?;
        feed.push(&piece)?;
        if let Some(frame) = feed.next(alloc).ok().ok_or("a frame")? {
            return Ok(frame);
        }
    }
    Err("a whole frame")?
}

/// Receives what waits on a link, as a line carries it. Whether something did.
fn receive_over(
    alloc: Global,
    journal: &mut Journal<Module>,
    from: MemberId,
    to: MemberId,
) -> Result<bool, Fail>
    requires from_fits { from < (plan_of journal.old).members }
    requires to_fits { to < (plan_of journal.old).members }
    ensures { (plan_of journal.new).members ≡ (plan_of journal.old).members }
{
    let Some(frame) = journal.next_frame(from, to) else {
        return Ok(false);
    };
    let got = carried(alloc, from, to, frame)?;
    journal
        .receive(alloc, from, to, &got)
        .ok()
        .ok_or("a receipt")?;
    Ok(true)
}

/// Receives over each link by (from, to). Whether something was received.
fn receive_all(alloc: Global, journal: &mut Journal<Module>) -> Result<bool, Fail> {
    let mut received = false;
    for from in 0..7 {
        for to in 0..7 {
            if from < journal.plan().members()
                && to < journal.plan().members()
                && let Some(sender) = MemberId::new(from)
                && let Some(receiver) = MemberId::new(to)
                && receive_over(alloc, journal, sender, receiver)?
            {
                received = true;
            }
        }
    }
    Ok(received)
}

#[test]
fn a_run_over_lines(rt: HostRuntime) -> Result<(), Fail> {
    let alloc = rt.alloc();
    let mut journal = begun::<Module>(alloc, TWO_SENDS)?;
    for thread in 0..2 {
        if thread < journal.plan().threads() {
            journal.call(alloc, thread).ok().ok_or("a call")?;
        }
    }
    for _ in 0..4 {
        receive_all(alloc, &mut journal)?;
    }
    assert!(rt; journal.settled());
    assert_eq!(rt;
        longest(alloc, &journal)?.as_slice(),
        [(0, 1, 0, true), (0, 2, 0, true)].as_slice()
    );
    Ok(())
}

#[test]
fn a_change_to_each_kind(rt: HostRuntime) -> Result<(), Fail> {
    let alloc = rt.alloc();
    let mut journal = begun::<Module>(alloc, EACH_KIND)?;
    for _ in 0..7 {
        if journal.plan().threads() > 0 {
            journal.call(alloc, 0).ok().ok_or("a call")?;
        }
        for _ in 0..20 {
            receive_all(alloc, &mut journal)?;
        }
    }
    assert!(rt; journal.settled());
    assert_eq!(rt; (journal.len(), quiet(&journal)), (91, true));
    let all =
        "run: 3 members, 91 events, 7 of 7 calls\nanswers: 7 accepted, 0 done, 0 full, 0 crashed\n";
    let report = format!(in alloc;
        "{all}member 0: {EACH_LOG}member 1: {EACH_LOG}member 2: {EACH_LOG}"
    )?;
    assert!(rt; report_text(alloc, &journal, false)?.as_slice() == report.as_bytes());
    Ok(())
}
