//! One visit of a round: to a thread, to a link through its line, or to a member.
ghost use Rattle.std.specs.Prelude.{ℕ, ◌≡◌, ◌+◌, ◌*◌, ◌<◌, ◌≤◌, Some, None, ◌∷◌, length, OnOk, OnErr};
ghost use Rattle.member_rules.specs.Kept.{rules_of};
ghost use Rattle.group_run.specs.Run.{IsReceipt, IsRelease};
ghost use Rattle.run_journal.specs.Journal.{plan_of, past_of};
ghost use Rattle.run_journal.specs.Causes.{next_call, open_frame};
ghost use Rattle.upd_base.specs.declared.event.Event.TheVariants.{Receive};
ghost use Rattle.upd_base.specs.Plan.{bound};
ghost use Rattle.line_rules.specs.declared.line_state.TheConstants.{MAX_FRAME};
ghost use Rattle.line_rules.specs.Given.{IsEven};
ghost use Rattle.line_rules.specs.LineState.{IsSetAside};
ghost use Rattle.line_rules.specs.Lines.{IsReadyAt};
ghost use Rattle.line_rules.specs.declared.line_state.LineState.TheVariants.{Serving};
ghost use Rattle.group_lines.specs.Visits.{IsIdle, IsNoReceipt, IsNotFull, IsThreadLeft, LinkWent, MadeOne};

use crate::bringing::bring;
use frame_carriage::keeps_limits;
use line_rules::LineState;
use order_trait::Ordering;
use run_journal::{CallFault, Journal, ReceiveFault, ReleaseFault};
use std::alloc::Global;
use upd_base::{Frame, MemberId, NoMemory};
use upd_lines::Line;

/// Makes the next call of a thread, where it has one that would not be answered as full.
pub(crate) fn visit_thread<O: Ordering>(
    alloc: Global,
    journal: &mut Journal<O>,
    thread: u8,
) -> Result<(), NoMemory>
    requires { thread < length (plan_of journal.old).threads }
    ensures plan { plan_of journal.new ≡ plan_of journal.old }
    ensures made { MadeOne (plan_of journal.old) (past_of journal.old) (past_of journal.new) IsNotFull }
    ensures left { OnOk result (IsIdle (plan_of journal.old) (past_of journal.old) (past_of journal.new) → IsThreadLeft (rules_of O.Ordering) (plan_of journal.old) (past_of journal.old) thread) }
{
    if journal.would_fill(thread) {
        return Ok(());
    }
    match journal.call(alloc, thread) {
        Ok(_) | Err(CallFault::PlanDone) | Err(CallFault::Spent) => Ok(()),
        Err(CallFault::NoMemory) => Err(NoMemory),
    }
}

/// Makes a release at a member, where one is enabled.
pub(crate) fn visit_member<O: Ordering>(
    alloc: Global,
    journal: &mut Journal<O>,
    at: MemberId,
) -> Result<(), NoMemory>
    requires { at < (plan_of journal.old).members }
    ensures plan { plan_of journal.new ≡ plan_of journal.old }
    ensures made { MadeOne (plan_of journal.old) (past_of journal.old) (past_of journal.new) IsNotFull }
    ensures left { OnOk result (IsIdle (plan_of journal.old) (past_of journal.old) (past_of journal.new) → IsRelease (rules_of O.Ordering) (plan_of journal.old) (past_of journal.old) at → ⊥) }
{
    match journal.release(alloc, at) {
        Ok(_) | Err(ReleaseFault::Spent) => Ok(()),
        Err(ReleaseFault::NoMemory) => Err(NoMemory),
    }
}

/// The lowest thread that has a call makes it, whatever its answer.
pub(crate) fn force_call<O: Ordering>(
    alloc: Global,
    journal: &mut Journal<O>,
) -> Result<(), NoMemory>
    ensures plan { plan_of journal.new ≡ plan_of journal.old }
    ensures made { MadeOne (plan_of journal.old) (past_of journal.old) (past_of journal.new) IsNoReceipt }
    ensures left { OnOk result (IsIdle (plan_of journal.old) (past_of journal.old) (past_of journal.new) → (thread : ℕ) → next_call (plan_of journal.old) (past_of journal.old) thread ≡ None) }
{
    for thread in 0..journal.plan().threads() {
        match journal.call(alloc, thread) {
            Ok(_) | Err(CallFault::Spent) => return Ok(()),
            Err(CallFault::PlanDone) => {}
            Err(CallFault::NoMemory) => return Err(NoMemory),
        }
    }
    Ok(())
}

/// Receives the frame that a link has next over its line, where that is enabled and the line is still used.
pub(crate) fn visit_line<O: Ordering, L: Line>(
    alloc: Global,
    journal: &mut Journal<O>,
    line: &mut Option<L>,
    state: &mut LineState,
    from: MemberId,
    to: MemberId,
) -> Result<(), NoMemory>
    requires from_fits { from < (plan_of journal.old).members }
    requires to_fits { to < (plan_of journal.old).members }
    requires ready { IsReadyAt L.Line (rules_of O.Ordering) (plan_of journal.old) (past_of journal.old) to line.old state.old }
    ensures plan { plan_of journal.new ≡ plan_of journal.old }
    ensures went { LinkWent L.Line (rules_of O.Ordering) (plan_of journal.old) (past_of journal.old) (past_of journal.new) from to line.old line.new state.old state.new }
    ensures ready { OnOk result (IsReadyAt L.Line (rules_of O.Ordering) (plan_of journal.old) (past_of journal.new) to line.new state.new) }
    ensures left { OnOk result (IsIdle (plan_of journal.old) (past_of journal.old) (past_of journal.new) → IsReceipt (rules_of O.Ordering) (plan_of journal.old) (past_of journal.old) from to → IsSetAside state.new) }
{
    let LineState::Serving(count) = *state else {
        return Ok(());
    };
    let Some(line) = line else {
        return Ok(());
    };
    if journal.len() >= journal.plan().bound() {
        return Ok(());
    }
    serve_link(alloc, journal, line, state, count, from, to)
}

/// The same where the line is used and the journal has room; so many bytes came over the line before.
fn serve_link<O: Ordering, L: Line>(
    alloc: Global,
    journal: &mut Journal<O>,
    line: &mut L,
    state: &mut LineState,
    count: u64,
    from: MemberId,
    to: MemberId,
) -> Result<(), NoMemory>
    requires from_fits { from < (plan_of journal.old).members }
    requires to_fits { to < (plan_of journal.old).members }
    requires room { length (past_of journal.old) < bound (plan_of journal.old) }
    requires serving { state.old ≡ Serving count }
    requires even { IsEven (L.told line.old) }
    requires few { count ≤ MAX_FRAME * length (past_of journal.old) }
    ensures plan { plan_of journal.new ≡ plan_of journal.old }
    ensures went { LinkWent L.Line (rules_of O.Ordering) (plan_of journal.old) (past_of journal.old) (past_of journal.new) from to (Some line.old) (Some line.new) state.old state.new }
    ensures ready { OnOk result (IsReadyAt L.Line (rules_of O.Ordering) (plan_of journal.old) (past_of journal.new) to (Some line.new) state.new) }
    ensures left { OnOk result (IsIdle (plan_of journal.old) (past_of journal.old) (past_of journal.new) → IsReceipt (rules_of O.Ordering) (plan_of journal.old) (past_of journal.old) from to → IsSetAside state.new) }
{
    let Some(frame) = journal.next_frame(from, to) else {
        return Ok(());
    };
    keeps_limits(frame);
    let came = match bring(alloc, line, state, count, frame) {
        Ok(Some(came)) => came,
        Ok(None) => return Ok(()),
        Err(NoMemory) => return Err(NoMemory),
    };
    match note_receipt(alloc, journal, from, to, &came) {
        Ok(()) => Ok(()),
        Err(NoMemory) => {
            *state = LineState::Stopped;
            Err(NoMemory)
        }
    }
}

/// Makes a receipt on a link, where the frame that came is the link's next and the journal has room.
fn note_receipt<O: Ordering>(
    alloc: Global,
    journal: &mut Journal<O>,
    from: MemberId,
    to: MemberId,
    came: &Frame,
) -> Result<(), NoMemory>
    requires from_fits { from < (plan_of journal.old).members }
    requires to_fits { to < (plan_of journal.old).members }
    requires room { length (past_of journal.old) < bound (plan_of journal.old) }
    requires next { open_frame (rules_of O.Ordering) (plan_of journal.old) (past_of journal.old) from to ≡ Some came.now }
    ensures plan { plan_of journal.new ≡ plan_of journal.old }
    ensures made { OnOk result (past_of journal.new ≡ Receive from to ∷ past_of journal.old) }
    ensures err { OnErr result (past_of journal.new ≡ past_of journal.old) }
{
    match journal.receive(alloc, from, to, came) {
        Ok(()) => Ok(()),
        Err(ReceiveFault::NoMemory) => Err(NoMemory),
        Err(_) => unreachable!(),
    }
}
