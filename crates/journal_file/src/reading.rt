//! From bytes to a journal in two passes: the whole text by its grammar first, and only then its events, made again.
ghost use Rattle.std.specs.Prelude.{true, ◌≡◌, IfOk, IfErr, map};
ghost use Rattle.upd_base.specs.declared.kind.Kind.{Kind};
ghost use Rattle.group_run.specs.Group.{Rules};
ghost use Rattle.member_rules.specs.Kept.{rules_of};
ghost use Rattle.run_journal.specs.Journal.{plan_of, events_of};
ghost use Rattle.journal_file.specs.Reading.{IsJournalText, ReadFault};
ghost use Rattle.journal_file.specs.Written.{event_written};

use crate::fault::JournalFault;
use crate::front::front_line;
use crate::limits::MAX_TEXT;
use crate::replay::replay;
use crate::stage::{Recorded, Stage};
use order_trait::Ordering;
use run_journal::Journal;
use std::alloc::Global;

/// Reads the text of a journal, and makes its events. All kinds are served by condition.
///
/// # Errors
///
/// `TooLong` above `MAX_TEXT` bytes. Then `Line` names the first line that isn't what the grammar wants there. Only where
/// the whole text is good, `Event` names the first event that can't be made at its place or is answered otherwise.
pub fn read_journal<O: Ordering>(alloc: Global, bytes: &[u8]) -> Result<Journal<O>, JournalFault>
    requires { (kind : Kind) → O.is_served kind ≡ true }
    ensures text { IfOk result (λ j. IsJournalText bytes.now (plan_of j) (events_of j)) }
    ensures fault { IfErr result (ReadFault (rules_of O.Ordering) bytes.now) }
{
    let Recorded { plan, events } = read_text(alloc, bytes)?;
    replay(alloc, plan, events.as_slice())
}

/// The plan and the events of a text, whether or not they can be.
fn read_text(alloc: Global, bytes: &[u8]) -> Result<Recorded, JournalFault>
    ensures text { IfOk result (λ r. IsJournalText bytes.now r.plan (map event_written r.events.items)) }
    ensures fault { IfErr result (λ fault. (rules : Rules) → ReadFault rules bytes.now fault) }
{
    if bytes.len() > MAX_TEXT {
        return Err(JournalFault::TooLong);
    }
    let mut stage = Stage::Heading;
    let mut rest = bytes;
    let mut number = 1u64;
    while let Some((line, more)) = front_line(rest) {
        let Some(next) = stage.after(alloc, line)? else {
            return Err(JournalFault::Line(number));
        };
        stage = next;
        rest = more;
        number += 1;
    }
    stage.finish(rest).ok_or(JournalFault::Line(number))
}
