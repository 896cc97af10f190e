//! How a run over lines ends, by the states of its lines.
ghost use Rattle.std.specs.Prelude.{ℕ, ◌≡◌, ◌*◌, ◌<◌, None, false, length, IfNone, IfSome, IsTrue, slice_index_or};
ghost use Rattle.member_rules.specs.Kept.{rules_of};
ghost use Rattle.upd_base.specs.Plan.{bound};
ghost use Rattle.run_journal.specs.Journal.{plan_of, past_of};
ghost use Rattle.run_journal.specs.Causes.{open_frame};
ghost use Rattle.line_rules.specs.declared.line_state.LineState.TheVariants.{Missing};
ghost use Rattle.line_rules.specs.Rest.{IsHeldUp};
ghost use Rattle.group_lines.specs.Visits.{IsLeftOut};
ghost use Rattle.group_lines.specs.Told.{IsDownLink, IsDownState, IsLyingState, TellsEnd};

use crate::links::link_at;
use line_rules::{Lie, LineState, RunEnd};
use order_trait::Ordering;
use run_journal::Journal;
use upd_base::MemberId;

/// How the run ended where its rounds came to their end.
pub(crate) fn end_of<O: Ordering>(journal: &Journal<O>, states: &[LineState]) -> RunEnd
    requires places { length states.now ≡ (plan_of journal.now).members * (plan_of journal.now).members }
    requires rest { length (past_of journal.now) < bound (plan_of journal.now) → IsHeldUp (IsLeftOut (plan_of journal.now) states.now) (rules_of O.Ordering) (plan_of journal.now) (past_of journal.now) }
    ensures { TellsEnd (rules_of O.Ordering) (plan_of journal.now) (past_of journal.now) states.now result }
{
    if journal.settled() {
        return RunEnd::Settled;
    }
    if journal.len() >= journal.plan().bound() {
        return RunEnd::Spent;
    }
    let members = journal.plan().members();
    if let Some((place, lie)) = lowest_lie(states) {
        let (from, to) = link_at(members, place);
        let Lie { at, put, got } = lie;
        return RunEnd::Lied {
            from,
            to,
            at,
            put,
            got,
        };
    }
    if let Some(place) = lowest_down(journal, states) {
        let (from, to) = link_at(members, place);
        return RunEnd::Down { from, to };
    }
    unreachable!()
}

/// The lowest place of a line that has lied, and its lie.
fn lowest_lie(states: &[LineState]) -> Option<(usize, Lie)>
    ensures found { IfSome result (λ found. (found.0 < length states.now) × (slice_index_or states.now found.0 Missing ≡ LineState.Lied found.1)) }
    ensures none { IfNone result ((place : ℕ) → place < length states.now → IsLyingState (slice_index_or states.now place Missing) → ⊥) }
{
    for (place, state) in states.iter().enumerate() {
        if let LineState::Lied(lie) = state {
            return Some((place, *lie));
        }
    }
    None
}

/// The lowest place of a line that is down, or that is not there while its link has a frame to be received.
fn lowest_down<O: Ordering>(journal: &Journal<O>, states: &[LineState]) -> Option<usize>
    requires { length states.now ≡ (plan_of journal.now).members * (plan_of journal.now).members }
    ensures within { IfSome result (λ place. place < length states.now) }
    ensures found { IfSome result (λ place. IsDownState (slice_index_or states.now place Missing)) }
    ensures none { IfNone result ((from to : ℕ) → from < (plan_of journal.now).members → to < (plan_of journal.now).members → IsDownLink (plan_of journal.now) states.now from to → open_frame (rules_of O.Ordering) (plan_of journal.now) (past_of journal.now) from to ≡ None) }
{
    let members = journal.plan().members();
    for (place, state) in states.iter().enumerate() {
        let (from, to) = link_at(members, place);
        if is_down(journal, *state, from, to) {
            return Some(place);
        }
    }
    None
}

fn is_down<O: Ordering>(
    journal: &Journal<O>,
    state: LineState,
    from: MemberId,
    to: MemberId,
) -> bool
    requires from_fits { from < (plan_of journal.now).members }
    requires to_fits { to < (plan_of journal.now).members }
    ensures down { IsTrue result → IsDownState state }
    ensures none { result ≡ false → IsDownState state → open_frame (rules_of O.Ordering) (plan_of journal.now) (past_of journal.now) from to ≡ None }
{
    match state {
        LineState::Down => true,
        LineState::Missing => journal.next_frame(from, to).is_some(),
        LineState::Serving(_) | LineState::Lied(_) | LineState::Stopped => false,
    }
}
