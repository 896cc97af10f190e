//! The parts of a step.
ghost use Rattle.std.specs.Prelude.{◌≡◌, ◌≢◌, ◌<◌, ◌≤◌, IfOk, IfSome, true, if◌then◌else◌, codes};
ghost use Rattle.serde_json.specs.View.{view};
ghost use Rattle.upd_base.specs.Kind.{kind_fits};
ghost use Rattle.upd_base.specs.Plan.{call_fits, change_count};
ghost use Rattle.scenario.specs.Gives.{Gives};
ghost use Rattle.scenario.specs.Tree.{key_path};
ghost use Rattle.scenario.specs.Reading.{kind_of, kind, kind_in, member_below, member_in, other_member, payload_of, op_named, op_in, is_change, call_of};

use crate::fault::{Reason, ScenarioFault, fault_at_key};
use crate::op::Op;
use crate::tree::{field, number, text};
use serde_json::Value;
use std::alloc::Global;
use upd_base::{Call, Kind, MemberId, Text};

/// The kind of a spelling, in a group of so many members.
fn kind_named(members: u8, name: &str) -> Option<Kind>
    requires { members ≤ 7 }
    ensures given { result ≡ kind_of members name.now }
    ensures fits { IfSome result (λ k. kind_fits members k ≡ true) }
{
    if name == "lamport" {
        return Some(Kind::Lamport);
    }
    if name == "consensus" {
        return Some(Kind::Consensus);
    }
    let bytes = name.as_bytes();
    if bytes.len() != 11 || &bytes[..10] != b"sequencer ".as_slice() {
        return None;
    }
    let digit = bytes[10];
    if digit < 48 || digit >= 48 + members {
        return None;
    }
    match MemberId::new(digit - 48) {
        Some(member) => Some(Kind::Sequencer(member)),
        None => None,
    }
}

/// The kind at a key of the object at a path.
#[tactic(auto, unfolding(crate::specs::Reading::kind_in, crate::specs::Reading::kind))]
pub(crate) fn kind_at(
    alloc: Global,
    members: u8,
    path: &[u8],
    key: &str,
    object: &Value,
) -> Result<Kind, ScenarioFault>
    requires { members ≤ 7 }
    ensures given { Gives (λ k. k) result (kind_in members path.now key.now (view object.now)) }
    ensures fits { IfOk result (λ k. kind_fits members k ≡ true) }
{
    let value = field(alloc, path, key, object)?;
    let name = text(alloc, path, key, value)?;
    match kind_named(members, name) {
        Some(kind) => Ok(kind),
        None => Err(fault_at_key(alloc, path, key, Reason::BadKind)),
    }
}

/// The member at a key of the object at a path.
#[tactic(auto, unfolding(crate::specs::Reading::member_in, crate::specs::Reading::member_below))]
pub(crate) fn member_at(
    alloc: Global,
    members: u8,
    path: &[u8],
    key: &str,
    object: &Value,
) -> Result<u8, ScenarioFault>
    ensures given { Gives (λ m. m) result (member_in members path.now key.now (view object.now)) }
    ensures below { IfOk result (λ m. m < members) }
{
    let value = field(alloc, path, key, object)?;
    let member = number(alloc, path, key, value)?;
    if member >= members as u64 {
        return Err(fault_at_key(alloc, path, key, Reason::OutOfRange));
    }
    Ok(member as u8)
}

/// The member of a suspicion, which is not the step's own.
#[tactic(auto, unfolding(crate::specs::Reading::other_member))]
fn other_at(
    alloc: Global,
    members: u8,
    at: u8,
    path: &[u8],
    object: &Value,
) -> Result<u8, ScenarioFault>
    ensures given { Gives (λ m. m) result (other_member members at path.now (view object.now)) }
    ensures below { IfOk result (λ m. m < members) }
    ensures apart { IfOk result (λ m. m ≢ at) }
{
    let member = member_at(alloc, members, path, "member", object)?;
    if member == at {
        return Err(fault_at_key(alloc, path, "member", Reason::OutOfRange));
    }
    Ok(member)
}

/// The payload of a step that sends.
#[tactic(auto, unfolding(crate::specs::Reading::payload_of))]
fn payload_at(alloc: Global, path: &[u8], object: &Value) -> Result<Text, ScenarioFault>
    ensures { Gives (λ t. t) result (payload_of path.now (view object.now)) }
{
    let value = field(alloc, path, "text", object)?;
    let bytes = text(alloc, path, "text", value)?;
    match Text::new(alloc, bytes.as_bytes()) {
        Ok(Some(text)) => Ok(text),
        Ok(None) => Err(fault_at_key(alloc, path, "text", Reason::BadText)),
        Err(_) => Err(ScenarioFault::NoMemory),
    }
}

fn op_of(name: &str) -> Option<Op>
    ensures { result ≡ op_named name.now }
{
    match name {
        "send" => Some(Op::Send),
        "change" => Some(Op::Change),
        "suspect" => Some(Op::Suspect),
        "trust" => Some(Op::Trust),
        "crash" => Some(Op::Crash),
        _ => None,
    }
}

/// The op of a step.
#[tactic(auto, unfolding(crate::specs::Reading::op_in))]
pub(crate) fn op_at(alloc: Global, path: &[u8], object: &Value) -> Result<Op, ScenarioFault>
    ensures { Gives (λ o. o) result (op_in path.now (view object.now)) }
{
    let value = field(alloc, path, "op", object)?;
    let name = text(alloc, path, "op", value)?;
    match op_of(name) {
        Some(op) => Ok(op),
        None => Err(fault_at_key(alloc, path, "op", Reason::BadOp)),
    }
}

/// The call of a step.
#[tactic(auto, unfolding(crate::specs::Reading::call_of))]
pub(crate) fn call_at(
    alloc: Global,
    members: u8,
    at: u8,
    path: &[u8],
    object: &Value,
    op: Op,
) -> Result<Call, ScenarioFault>
    requires { members ≤ 7 }
    ensures given { Gives (λ c. c) result (call_of members at path.now (view object.now) op) }
    ensures fits { IfOk result (λ c. call_fits members at c ≡ true) }
    ensures changes { IfOk result (λ c. change_count c ≡ (if is_change op then 1 else 0)) }
{
    match op {
        Op::Send => Ok(Call::Send(payload_at(alloc, path, object)?)),
        Op::Change => Ok(Call::Change(kind_at(alloc, members, path, "kind", object)?)),
        Op::Suspect => Ok(Call::Suspect(other_at(alloc, members, at, path, object)?)),
        Op::Trust => Ok(Call::Trust(other_at(alloc, members, at, path, object)?)),
        Op::Crash => Ok(Call::Crash),
    }
}
