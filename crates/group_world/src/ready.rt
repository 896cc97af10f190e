//! The phase of an event that may be refused: its member's turn is prepared, and its links get room for the sends.
ghost use Rattle.std.specs.Prelude.{◌≡◌, ◌<◌, ◌≤◌, ℕ, Some, IfOk, OnOk, is_some, length, map, slice_get};
ghost use Rattle.fifo_net.specs.Net.{bodies_to};
ghost use Rattle.fifo_link.specs.Links.{spare_of};
ghost use Rattle.member_rules.specs.Kept.{Kept};
ghost use Rattle.member_core.specs.Member.{kept_by};
ghost use Rattle.member_core.specs.Input.{MayHave, is_call};
ghost use Rattle.member_core.specs.Prepared.{answer_of};
ghost use Rattle.group_world.specs.Prepared.{MemberHasRoom};
ghost use Rattle.group_world.specs.Makes.{IsPrepared};

use fifo_link::Links;
use member_core::{Input, Member, Prepared};
use order_trait::Ordering;
use std::alloc::Global;
use upd_base::{Frame, MemberId, NoMemory};

/// Prepares an event of one of these members.
pub fn prepare_at<O: Ordering>(
    alloc: Global,
    members: &mut Vec<Member<O>>,
    at: MemberId,
    input: &Input,
) -> Result<Prepared<O>, NoMemory>
    requires at_fits { at < length members.old.items }
    requires may { (k : Kept _) → slice_get (map (λ m. kept_by m) members.old.items) at ≡ Some k → MayHave O.Ordering k input.now }
    ensures kept { map (λ m. kept_by m) members.new.items ≡ map (λ m. kept_by m) members.old.items }
    ensures answered { IfOk result (λ p. is_some (answer_of p) ≡ is_call input.now) }
    ensures ready { IfOk result (λ p. MemberHasRoom O.Ordering members.new.items at p) }
    ensures prepared { IfOk result (λ p. (k : Kept _) → slice_get (map (λ m. kept_by m) members.old.items) at ≡ Some k → IsPrepared O.Ordering k input.now p) }
{
    let member = &mut members[at.get() as usize];
    member.prepare(alloc, input)
}

/// How many of these frames go to a member.
fn frames_to(sent: &[(MemberId, Frame)], to: MemberId) -> usize
    ensures { result ≡ length (bodies_to to sent.now) }
{
    sent.iter().filter(|s| s.0 == to).count()
}

/// Makes room on a member's links for all these frames.
pub fn reserve_for(
    links: &mut Links,
    from: MemberId,
    sent: &[(MemberId, Frame)],
) -> Result<(), NoMemory>
    requires { from < links.old.members }
    ensures members { links.new.members ≡ links.old.members }
    ensures same { links.new.waiting ≡ links.old.waiting }
    ensures room { OnOk result ((to : ℕ) → to < links.old.members → length (bodies_to to sent.now) ≤ spare_of links.new from to) }
{
    for number in 0..links.members() {
        if let Some(to) = MemberId::new(number) {
            links.reserve(from, to, frames_to(sent, to))?;
        }
    }
    Ok(())
}
