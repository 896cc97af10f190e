//! A group's initial state: each member at its seat with no input yet, and no call made.
ghost use Rattle.std.specs.Prelude.{true, ◌≡◌, [], IfOk, length, map, replicate};
ghost use Rattle.member_core.specs.Member.{kept_by};
ghost use Rattle.member_rules.specs.Stands.{Stands};
ghost use Rattle.group_world.specs.Seen.{EachAt, IsSeated};

use member_core::Member;
use order_trait::Ordering;
use std::alloc::Global;
use upd_base::{MemberId, NoMemory, Plan};

/// The members of a plan before any event.
pub fn fresh_members<O: Ordering>(alloc: Global, plan: &Plan) -> Result<Vec<Member<O>>, NoMemory>
    requires first_served { O.is_served plan.now.first ≡ true }
    ensures many { IfOk result (λ ms. length ms.items ≡ plan.now.members) }
    ensures seats { IfOk result (λ ms. EachAt (IsSeated plan.now) (map (λ m. kept_by m) ms.items)) }
    ensures stand { IfOk result (λ ms. EachAt (λ i k. Stands O.Ordering k []) (map (λ m. kept_by m) ms.items)) }
{
    plan.keeps_limits();
    let mut members = Vec::new(alloc);
    for number in 0..plan.members() {
        if let Some(me) = MemberId::new(number) {
            members.push(Member::start(alloc, plan.members(), me, plan.first())?)?;
        }
    }
    Ok(members)
}

/// No call of any thread yet.
pub fn no_calls(alloc: Global, threads: u8) -> Result<Vec<u16>, NoMemory>
    ensures { IfOk result (λ made. made.items ≡ replicate threads 0) }
{
    let made = vec![in alloc; 0u16; threads as usize]?;
    Ok(made)
}
