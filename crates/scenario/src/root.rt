//! The root of a scenario.
ghost use Rattle.std.specs.Prelude.{◌≡◌, ◌<◌, ◌≤◌, IfOk, map, length};
ghost use Rattle.serde_json.specs.View.{view};
ghost use Rattle.scenario.specs.Gives.{Gives};
ghost use Rattle.scenario.specs.Within.{IsWithin};
ghost use Rattle.scenario.specs.Reading.{members_in, threads_in, plan_of, tree, reading};

use crate::fault::{Reason, ScenarioFault, fault_at, fault_at_key};
use crate::keys::has_only_root_keys;
use crate::step::kind_at;
use crate::steps::threads_of;
use crate::tree::{field, number};
use serde_json::{Category, Value};
use std::alloc::Global;
use upd_base::{MAX_MEMBERS, MAX_THREADS, Plan, Step};

/// The most bytes of a scenario.
pub const MAX_TEXT: usize = 1_048_576;

#[tactic(auto, unfolding(crate::specs::Reading::members_in))]
fn members_at(alloc: Global, object: &Value) -> Result<u8, ScenarioFault>
    ensures given { Gives (λ m. m) result (members_in (view object.now)) }
    ensures some { IfOk result (λ m. 1 ≤ m) }
    ensures few { IfOk result (λ m. m ≤ 7) }
{
    let value = field(alloc, b"", "members", object)?;
    let members = number(alloc, b"", "members", value)?;
    if members < 1 || members > u64::from(MAX_MEMBERS) {
        return Err(fault_at_key(alloc, b"", "members", Reason::OutOfRange));
    }
    Ok(members as u8)
}

#[tactic(auto, unfolding(crate::specs::Reading::threads_in), using(crate::proofs::Loops::count_of_view))]
fn threads_at(alloc: Global, members: u8, object: &Value) -> Result<Vec<Vec<Step>>, ScenarioFault>
    requires { members ≤ 7 }
    ensures given { Gives (λ v. map (λ t. t.items) v.items) result (threads_in members (view object.now)) }
    ensures within { IfOk result (λ v. IsWithin members v.items) }
    ensures some { IfOk result (λ v. 1 ≤ length v.items) }
    ensures most { IfOk result (λ v. length v.items ≤ 16) }
{
    let value = field(alloc, b"", "threads", object)?;
    let Some(list) = value.as_array() else {
        return Err(fault_at_key(alloc, b"", "threads", Reason::WrongType));
    };
    if list.is_empty() || list.len() > MAX_THREADS {
        return Err(fault_at_key(alloc, b"", "threads", Reason::OutOfRange));
    }
    let (threads, _) = threads_of(alloc, members, b"/threads", list.as_slice())?;
    Ok(threads)
}

/// The plan that a tree is.
#[tactic(auto, unfolding(crate::specs::Reading::plan_of))]
fn plan_at(alloc: Global, value: &Value) -> Result<Plan, ScenarioFault>
    ensures { Gives (λ p. p) result (plan_of (view value.now)) }
{
    let Some(object) = value.as_object() else {
        return Err(fault_at(alloc, b"/", Reason::WrongType));
    };
    let members = members_at(alloc, value)?;
    let first = kind_at(alloc, members, b"", "first", value)?;
    let threads = threads_at(alloc, members, value)?;
    if !has_only_root_keys(object) {
        return Err(fault_at(alloc, b"/", Reason::UnknownKey));
    }
    match Plan::new(members, first, threads) {
        Some(plan) => Ok(plan),
        None => unreachable!(),
    }
}

/// The tree of the bytes.
#[tactic(auto, unfolding(crate::specs::Reading::tree))]
fn tree_of(alloc: Global, bytes: &[u8]) -> Result<Value, ScenarioFault>
    ensures { Gives (λ v. view v) result (tree bytes.now) }
{
    match Value::from_slice(alloc, bytes) {
        Ok(value) => Ok(value),
        Err(error) => match error.classify() {
            Category::Memory => Err(ScenarioFault::NoMemory),
            _ => Err(ScenarioFault::NotJson),
        },
    }
}

/// The plan that a scenario is, or the first fault in reading order.
#[tactic(auto, unfolding(crate::specs::Reading::reading))]
pub fn read(alloc: Global, bytes: &[u8]) -> Result<Plan, ScenarioFault>
    ensures { Gives (λ p. p) result (reading bytes.now) }
{
    if bytes.len() > MAX_TEXT {
        return Err(ScenarioFault::TooLong);
    }
    let value = tree_of(alloc, bytes)?;
    plan_at(alloc, &value)
}
