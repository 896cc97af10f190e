//! Whether a run is free of crashes and of suspicions, told from the calls and answers that its journal records.
ghost use Rattle.std.specs.Prelude.{◌≡◌, ◌↔◌, IsTrue};
ghost use Rattle.group_run.specs.Settled.{IsQuiet, is_loud};
ghost use Rattle.group_laws.specs.Loud.{is_loud_event};
ghost use Rattle.run_journal.specs.Journal.{plan_of, past_of};

use order_trait::Ordering;
use run_journal::Journal;
use upd_base::{Answer, Call, Event, Plan};

/// Whether no crash and no suspicion was answered as done. Takes no memory.
pub fn quiet<O: Ordering>(journal: &Journal<O>) -> bool
    ensures { IsTrue result ↔ IsQuiet (plan_of journal.now) (past_of journal.now) }
{
    for i in 0..journal.len() {
        if is_loud_event(journal.plan(), journal.event(i)) {
            return false;
        }
    }
    true
}

/// Whether an event is a crash or a suspicion that was answered as done.
fn is_loud_event(plan: &Plan, event: &Event) -> bool
    ensures { result ≡ is_loud_event plan.now event.now }
{
    match event {
        Event::Call {
            thread,
            index,
            answer,
            ..
        } => {
            *thread < plan.threads()
                && *index < plan.steps(*thread)
                && is_loud(&plan.step(*thread, *index).call, answer)
        }
        Event::Receive { .. } | Event::Release { .. } => false,
    }
}

fn is_loud(call: &Call, answer: &Answer) -> bool
    ensures { result ≡ is_loud call.now answer.now }
{
    match (call, answer) {
        (Call::Crash, Answer::Done) | (Call::Suspect(_), Answer::Done) => true,
        _ => false,
    }
}
