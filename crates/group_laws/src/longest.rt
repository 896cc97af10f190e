//! The longest of the members' delivery logs; by total order, each member's log is a prefix of it.
ghost use Rattle.std.specs.Prelude.{ℕ, ◌≡◌, ◌<◌, ◌≤◌, length};
ghost use Rattle.fifo_net.specs.Net.{IsPrefix};
ghost use Rattle.member_rules.specs.Kept.{rules_of};
ghost use Rattle.group_run.specs.Run.{log_in};
ghost use Rattle.run_journal.specs.Journal.{plan_of, past_of};
ghost use Rattle.group_laws.specs.Canon.{canon_in, longer_of};

use crate::laws::journal_is_ordered;
use order_trait::Ordering;
use run_journal::Journal;
use upd_base::MemberId;

/// The lowest member with a longest log. Every log is a beginning of its log. Takes no memory.
pub fn canon<O: Ordering>(journal: &Journal<O>) -> usize
    ensures value { result ≡ canon_in (rules_of O.Ordering) (plan_of journal.now) (past_of journal.now) }
    ensures within { result < (plan_of journal.now).members }
    ensures longest { (i : ℕ) → i < (plan_of journal.now).members → length (log_in (rules_of O.Ordering) (plan_of journal.now) (past_of journal.now) i) ≤ length (log_in (rules_of O.Ordering) (plan_of journal.now) (past_of journal.now) result) }
    ensures lowest { (i : ℕ) → i < result → length (log_in (rules_of O.Ordering) (plan_of journal.now) (past_of journal.now) i) < length (log_in (rules_of O.Ordering) (plan_of journal.now) (past_of journal.now) result) }
    ensures begins { (i : ℕ) → i < (plan_of journal.now).members → IsPrefix (log_in (rules_of O.Ordering) (plan_of journal.now) (past_of journal.now) i) (log_in (rules_of O.Ordering) (plan_of journal.now) (past_of journal.now) result) }
{
    journal_is_ordered(journal);
    let members = journal.plan().members();
    let mut lead = 0;
    for i in 0..members {
        lead = longer_of(journal, lead, i);
    }
    lead as usize
}

/// Of two members the one with the longer log, at a tie the first.
fn longer_of<O: Ordering>(journal: &Journal<O>, i: u8, j: u8) -> u8
    requires i_fits { i < (plan_of journal.now).members }
    requires j_fits { j < (plan_of journal.now).members }
    ensures value { result ≡ longer_of (rules_of O.Ordering) (plan_of journal.now) (past_of journal.now) i j }
    ensures fits { result < (plan_of journal.now).members }
{
    if entries_of(journal, i) < entries_of(journal, j) {
        j
    } else {
        i
    }
}

/// How many entries the log of a member has.
fn entries_of<O: Ordering>(journal: &Journal<O>, i: u8) -> usize
    requires { i < (plan_of journal.now).members }
    ensures { result ≡ length (log_in (rules_of O.Ordering) (plan_of journal.now) (past_of journal.now) i) }
{
    journal.plan();
    match MemberId::new(i) {
        Some(m) => journal.log(m).len(),
        None => 0,
    }
}
