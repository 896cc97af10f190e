//! The commit of a prepared event, part by part: its member, links and count of calls. No part can be refused.
ghost use Rattle.std.specs.Prelude.{◌≡◌, ◌<◌, ◌≤◌, ◌++◌, ◌==◌, ℕ, Some, All, [], if◌then◌else◌, length, map, set, slice_get, slice_index_or};
ghost use Rattle.fifo_net.specs.Net.{bodies_to};
ghost use Rattle.fifo_link.specs.Links.{on_link, spare_of};
ghost use Rattle.member_rules.specs.Kept.{Kept};
ghost use Rattle.member_core.specs.Member.{kept_by};
ghost use Rattle.member_core.specs.Prepared.{committed, sent_of};
ghost use Rattle.group_world.specs.Prepared.{HasSender, HasThread, MemberHasRoom, left_on, made_after, place_of};

use fifo_link::Links;
use member_core::{Member, Prepared, Sent};
use order_trait::Ordering;
use upd_base::{Event, MemberId};

/// The member at which an event happens.
pub fn place_of(event: &Event) -> MemberId
    ensures { result ≡ place_of event.now }
{
    match event {
        Event::Call { member, .. } => *member,
        Event::Receive { to, .. } => *to,
        Event::Release { at } => *at,
    }
}

/// Commits what was prepared on one of these members. What it sends is handed out.
pub fn commit_at<O: Ordering>(
    members: &mut Vec<Member<O>>,
    at: MemberId,
    prepared: Prepared<O>,
) -> Sent
    requires { MemberHasRoom O.Ordering members.old.items at prepared }
    ensures members { (k : Kept _) → slice_get (map (λ m. kept_by m) members.old.items) at ≡ Some k → map (λ m. kept_by m) members.new.items ≡ set (map (λ m. kept_by m) members.old.items) at (committed k prepared) }
    ensures sent { result ≡ sent_of prepared }
{
    let member = &mut members[at.get() as usize];
    let (_, sent) = member.commit(prepared);
    sent
}

/// Takes off its link what an event receives.
pub fn take_off(links: &mut Links, event: &Event)
    requires { HasSender event.now links.old.members }
    ensures members { links.new.members ≡ links.old.members }
    ensures left { (from to : ℕ) → from < links.old.members → to < links.old.members → on_link links.new from to ≡ left_on event.now from to (on_link links.old from to) }
    ensures spare { (from to : ℕ) → from < links.old.members → to < links.old.members → spare_of links.old from to ≤ spare_of links.new from to }
{
    if let Event::Receive { from, to } = event {
        links.take(*from, *to);
    }
}

/// Counts the call that an event makes.
pub fn count(made: &mut Vec<u16>, event: &Event)
    requires { HasThread event.now made.old.items }
    ensures threads { length made.new.items ≡ length made.old.items }
    ensures made { (thread : ℕ) → thread < length made.old.items → slice_index_or made.new.items thread 0 ≡ made_after event.now thread (slice_index_or made.old.items thread 0) }
{
    if let Event::Call { thread, .. } = event {
        made[*thread as usize] += 1;
    }
}

/// Puts these frames of a member on its links, into room that was made before.
pub fn put_on(links: &mut Links, from: MemberId, mut sent: Sent)
    requires from_fits { from < links.old.members }
    requires receivers { All (λ s. s.0 < links.old.members) sent }
    requires room { (to : ℕ) → to < links.old.members → length (bodies_to to sent) ≤ spare_of links.old from to }
    ensures members { links.new.members ≡ links.old.members }
    ensures added { (i j : ℕ) → i < links.old.members → j < links.old.members → on_link links.new i j ≡ on_link links.old i j ++ (if from == i then bodies_to j sent else []) }
{
    while let Some((to, frame)) = sent.drain_first() {
        links.send_ready(from, to, frame);
    }
}
