//! The opening and the rehearsal of a plan, and what holds of every recorded run.
ghost use Rattle.std.specs.Prelude.{◌≡◌, [], IfOk};
ghost use Rattle.run_journal.specs.Journal.{plan_of, past_of};
ghost use Rattle.rehearsal.specs.Ends.{EndsAt};
ghost use Rattle.rehearsal.specs.FullAtRest.{GoesOnFullAtRest};
ghost use Rattle.program_texts.specs.Rules.{the_rules};
ghost use Rattle.top_calls.specs.Recorded.{scheduled};
ghost use Rattle.top_calls.specs.Rehearsal.{KeepsLaws};

use group_laws::{
    journal_counts_switches, journal_is_bounded, journal_is_fulfilled, journal_is_ordered,
};
use module_binding::Module;
use planned_calls::{journal_delivers_sends, journal_is_calm, journal_makes_calls};
use rehearsal::{Rehearsed, round_robin, seeded};
use run_journal::Journal;
use std::alloc::Global;
use upd_base::{NoMemory, Plan};

/// A journal without events. Modules serve every kind.
pub(crate) fn opening(alloc: Global, plan: Plan) -> Result<Journal<Module>, NoMemory>
    ensures plan { IfOk result (λ j. plan_of j ≡ plan) }
    ensures past { IfOk result (λ j. past_of j ≡ []) }
{
    Journal::begin(alloc, plan)
}

/// Goes on with a fresh journal on one thread, by the seeded schedule where there is a seed and else by rounds.
pub(crate) fn rehearse(
    alloc: Global,
    seed: Option<u64>,
    journal: Journal<Module>,
) -> Rehearsed<Module>
    requires { past_of journal ≡ [] }
    ensures plan { plan_of result.journal ≡ plan_of journal }
    ensures events { EndsAt the_rules (plan_of result.journal) result.end (past_of result.journal) (scheduled seed (plan_of result.journal)) }
    ensures full { GoesOnFullAtRest the_rules (plan_of result.journal) [] (past_of result.journal) }
{
    match seed {
        Some(seed) => seeded(alloc, journal, seed),
        None => round_robin(alloc, journal),
    }
}

/// All laws hold of a journal.
pub(crate) fn keeps_laws(journal: &Journal<Module>)
    ensures { KeepsLaws (plan_of journal.now) (past_of journal.now) }
{
    journal.plan();
    journal_is_ordered(journal);
    journal_counts_switches(journal);
    journal_is_fulfilled(journal);
    journal_is_bounded(journal);
    journal_makes_calls(journal);
    journal_is_calm(journal);
    journal_delivers_sends(journal);
}
