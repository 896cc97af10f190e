//! Steps and threads of steps.
ghost use Rattle.std.specs.Prelude.{◌≡◌, ◌+◌, ◌||◌, not, nat_lt, ◌<◌, ◌≤◌, IfOk, map, true, length};
ghost use Rattle.std.specs.List.{list_all};
ghost use Rattle.upd_base.specs.Plan.{step_fits, change_count, changes_in};
ghost use Rattle.scenario.specs.Within.{IsWithin};
ghost use Rattle.serde_json.specs.View.{view, items_view};
ghost use Rattle.scenario.specs.Gives.{Gives};
ghost use Rattle.scenario.specs.Reading.{step, is_change, each, thread, none_before};

use crate::before::Before;
use crate::fault::{Reason, ScenarioFault, fault_at, item_path};
use crate::keys::has_only_keys_of;
use crate::op::Op;
use crate::step::{call_at, member_at, op_at};
use serde_json::Value;
use std::alloc::Global;
use upd_base::{MAX_CALLS, MAX_CHANGES, MemberId, Step};

/// Whether a step of this op may follow.
fn has_room(op: Op, before: Before) -> bool
    ensures { result ≡ (not (is_change op) || nat_lt before.changes 32) }
{
    op != Op::Change || before.changes < MAX_CHANGES
}

/// The step at a path.
#[tactic(auto, unfolding(crate::specs::Reading::step))]
fn step_at(
    alloc: Global,
    members: u8,
    before: Before,
    path: &[u8],
    value: &Value,
) -> Result<(Step, Before), ScenarioFault>
    requires members { members ≤ 7 }
    requires few { before.changes ≤ MAX_CHANGES }
    ensures given { Gives (λ s. s) result (step members before path.now (view value.now)) }
    ensures few { IfOk result (λ s. s.1.changes ≤ MAX_CHANGES) }
    ensures most { IfOk result (λ s. s.1.steps ≤ MAX_CALLS) }
    ensures fits { IfOk result (λ s. step_fits members s.0 ≡ true) }
    ensures steps { IfOk result (λ s. s.1.steps ≡ before.steps + 1) }
    ensures changes { IfOk result (λ s. s.1.changes ≡ before.changes + change_count s.0.call) }
{
    if before.steps >= MAX_CALLS {
        return Err(fault_at(alloc, path, Reason::TooMany));
    }
    let Some(object) = value.as_object() else {
        return Err(fault_at(alloc, path, Reason::WrongType));
    };
    let at = member_at(alloc, members, path, "at", value)?;
    let op = op_at(alloc, path, value)?;
    if !has_room(op, before) {
        return Err(fault_at(alloc, path, Reason::TooMany));
    }
    let call = call_at(alloc, members, at, path, value, op)?;
    if !has_only_keys_of(op, object) {
        return Err(fault_at(alloc, path, Reason::UnknownKey));
    }
    match MemberId::new(at) {
        Some(at) => {
            let step = Step { at, call };
            let after = before.after(&step);
            Ok((step, after))
        }
        None => Err(fault_at(alloc, path, Reason::OutOfRange)),
    }
}

/// The steps of a thread, and how many then stand before.
fn steps_of(
    alloc: Global,
    members: u8,
    before: Before,
    path: &[u8],
    list: &[Value],
) -> Result<(Vec<Step>, Before), ScenarioFault>
    requires members { members ≤ 7 }
    requires few { before.changes ≤ MAX_CHANGES }
    requires most { before.steps ≤ MAX_CALLS }
    ensures given { Gives (λ x. (x.0.items, x.1)) result (each (step members) before path.now 0 (items_view list.now)) }
    ensures few { IfOk result (λ x. x.1.changes ≤ MAX_CHANGES) }
    ensures most { IfOk result (λ x. x.1.steps ≤ MAX_CALLS) }
    ensures fits { IfOk result (λ x. list_all (step_fits members) x.0.items ≡ true) }
    ensures steps { IfOk result (λ x. x.1.steps ≡ before.steps + length x.0.items) }
    ensures changes { IfOk result (λ x. x.1.changes ≡ before.changes + changes_in x.0.items) }
{
    let mut found = Vec::new(alloc);
    let mut so_far = before;
    for (i, value) in list.iter().enumerate() {
        let own = item_path(alloc, path, i)?;
        let (step, after) = step_at(alloc, members, so_far, &own, value)?;
        found.push(step)?;
        so_far = after;
    }
    Ok((found, so_far))
}

/// The thread at a path.
#[tactic(auto, unfolding(crate::specs::Reading::thread))]
fn thread_at(
    alloc: Global,
    members: u8,
    before: Before,
    path: &[u8],
    value: &Value,
) -> Result<(Vec<Step>, Before), ScenarioFault>
    requires members { members ≤ 7 }
    requires few { before.changes ≤ MAX_CHANGES }
    requires most { before.steps ≤ MAX_CALLS }
    ensures given { Gives (λ x. (x.0.items, x.1)) result (thread members before path.now (view value.now)) }
    ensures few { IfOk result (λ x. x.1.changes ≤ MAX_CHANGES) }
    ensures most { IfOk result (λ x. x.1.steps ≤ MAX_CALLS) }
    ensures fits { IfOk result (λ x. list_all (step_fits members) x.0.items ≡ true) }
    ensures steps { IfOk result (λ x. x.1.steps ≡ before.steps + length x.0.items) }
    ensures changes { IfOk result (λ x. x.1.changes ≡ before.changes + changes_in x.0.items) }
{
    match value.as_array() {
        Some(list) => steps_of(alloc, members, before, path, list.as_slice()),
        None => Err(fault_at(alloc, path, Reason::WrongType)),
    }
}

/// The threads of a list.
pub(crate) fn threads_of(
    alloc: Global,
    members: u8,
    path: &[u8],
    list: &[Value],
) -> Result<(Vec<Vec<Step>>, Before), ScenarioFault>
    requires { members ≤ 7 }
    ensures given { Gives (λ x. (map (λ t. t.items) x.0.items, x.1)) result (each (thread members) none_before path.now 0 (items_view list.now)) }
    ensures within { IfOk result (λ x. IsWithin members x.0.items) }
    ensures count { IfOk result (λ x. length x.0.items ≡ length list.now) }
{
    let mut found = Vec::new(alloc);
    let mut so_far = Before {
        steps: 0,
        changes: 0,
    };
    for (i, value) in list.iter().enumerate() {
        let own = item_path(alloc, path, i)?;
        let (thread, after) = thread_at(alloc, members, so_far, &own, value)?;
        found.push(thread)?;
        so_far = after;
    }
    Ok((found, so_far))
}
