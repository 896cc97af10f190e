//! A report put together: counts, then each member with its version and log, then the items that are absent.
ghost use Rattle.std.specs.Prelude.{◌≡◌, ◌++◌, ◌<◌, IfOk, OnOk, if◌then◌else◌, [], flat_map};
ghost use Rattle.member_rules.specs.Kept.{rules_of};
ghost use Rattle.group_run.specs.Run.{log_in, version_in, kind_in, crashed_in};
ghost use Rattle.run_journal.specs.Journal.{plan_of, past_of};
ghost use Rattle.run_report.specs.Report.{entry_line, member_text, members_text, report};

use crate::absent::put_absents;
use crate::counts::put_counts;
use crate::lines::{member_line, put, put_entries, state_text};
use order_trait::Ordering;
use run_journal::Journal;
use std::alloc::Global;
use upd_base::{MemberId, NoMemory};

/// The report of a run, without its end line; the short one leaves out the lines of entries and of absent items.
#[tactic(auto, unfolding(crate::specs::Report::report))]
pub fn report_text<O: Ordering>(
    alloc: Global,
    journal: &Journal<O>,
    short: bool,
) -> Result<Vec<u8>, NoMemory>
    ensures { IfOk result (λ text. text.items ≡ report (rules_of O.Ordering) (plan_of journal.now) (past_of journal.now) short) }
{
    let mut out = Vec::new(alloc);
    put_counts(alloc, &mut out, journal)?;
    put_members(alloc, &mut out, journal, short)?;
    if !short {
        put_absents(alloc, &mut out, journal)?;
    }
    Ok(out)
}

/// The members, in ascending order.
fn put_members<O: Ordering>(
    alloc: Global,
    out: &mut Vec<u8>,
    journal: &Journal<O>,
    short: bool,
) -> Result<(), NoMemory>
    ensures { OnOk result (out.new.items ≡ out.old.items ++ members_text (rules_of O.Ordering) (plan_of journal.now) (past_of journal.now) short) }
{
    for i in 0..journal.plan().members() {
        put_member(alloc, out, journal, short, i)?;
    }
    Ok(())
}

#[tactic(auto, unfolding(crate::specs::Report::member_text))]
fn put_member<O: Ordering>(
    alloc: Global,
    out: &mut Vec<u8>,
    journal: &Journal<O>,
    short: bool,
    i: u8,
) -> Result<(), NoMemory>
    requires { i < (plan_of journal.now).members }
    ensures { OnOk result (out.new.items ≡ out.old.items ++ member_text (rules_of O.Ordering) (plan_of journal.now) (past_of journal.now) short i) }
{
    journal.plan().keeps_limits();
    let member = member_at(i as usize);
    let kind = journal.kind(member).text(alloc)?;
    let log = journal.log(member).entries();
    let line = member_line(
        alloc,
        i as usize,
        journal.version(member),
        kind.as_str(),
        state_text(journal.crashed(member)),
        log.len(),
    )?;
    put(out, line.as_str())?;
    if !short {
        put_entries(alloc, out, log)?;
    }
    Ok(())
}

/// The member of this number.
pub fn member_at(i: usize) -> MemberId
    requires { i < 7 }
    ensures { result ≡ i }
{
    match MemberId::new(i as u8) {
        Some(m) => m,
        None => unreachable!(),
    }
}
