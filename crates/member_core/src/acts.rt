//! What deliveries do to a member: log entries, and at a switch the fresh module, told the suspicions and given the
//! undelivered messages to broadcast again.
ghost use Rattle.std.specs.Prelude.{ℕ, Bool, true, false, Some, None, ◌≡◌, ◌<◌, ◌≤◌, [], ◌∷◌, ◌++◌, length, map, All, IfOk, OnOk, slice_get, unwrap_or};
ghost use Rattle.std.specs.List.{filter};
ghost use Rattle.upd_base.specs.Kind.{KindFits};
ghost use Rattle.upd_base.specs.Item.{origin_of, ItemFits};
ghost use Rattle.upd_base.specs.declared.item.Item.{Item};
ghost use Rattle.upd_base.specs.declared.limits.TheConstants.{MAX_MEMBERS, MAX_VERSION};
ghost use Rattle.order_trait.specs.Outbox.{Grows, SendFits};
ghost use Rattle.order_trait.specs.Runs.{Broadcast, Inputs, Seat};
ghost use Rattle.replacement.specs.Repl.{State};
ghost use Rattle.group_run.specs.Version.{entries};
ghost use Rattle.member_rules.specs.Acts.{is_kept, delivered_by, reissued_by, bound_by, suspicions_in, orders_after, orders_sent};
ghost use Rattle.member_rules.specs.Steps.{Came, fresh_orders};

use crate::start::fresh_of;
use order_trait::{Ordering, Outbox};
use replacement::{Act, Repl};
use std::alloc::Global;
use upd_base::{Entry, Item, Kind, MemberId, NoMemory};

/// What the items that a module delivered come to.
#[derive(Drop)]
pub struct Outcome {
    /// The replacement, where it is another one.
    pub repl: Option<Repl>,
    /// What comes to the log.
    pub entries: Vec<Entry>,
    /// The kind of the next version, where this one ended.
    pub next: Option<Kind>,
    /// The messages that are issued again in it.
    pub again: Vec<Item>,
}

/// What the items that the module of a version delivered come to: nothing where the member has a later
/// version.
pub fn replaced<O: Ordering>(
    alloc: Global,
    repl: &Repl,
    version: u16,
    delivered: Vec<Item>,
) -> Result<Outcome, NoMemory>
    requires version { version ≤ repl.now.version }
    requires low { repl.now.version ≤ MAX_VERSION }
    ensures came { IfOk result (λ r. Came O.is_served repl.now (unwrap_or r.repl repl.now) version delivered.items r.entries.items r.next r.again.items) }
    ensures few { IfOk result (λ r. (unwrap_or r.repl repl.now).version ≤ MAX_VERSION) }
{
    if version < repl.version() {
        return Ok(untouched(alloc));
    }
    if delivered.is_empty() {
        return Ok(untouched(alloc));
    }
    let served = served_of::<O>(alloc, delivered)?;
    let mut copied = repl.copy(alloc)?;
    let acts = copied.delivered(alloc, version, served)?;
    let mut entries = Vec::new(alloc);
    let mut again = Vec::new(alloc);
    let next = sort_acts(acts, version, &mut entries, &mut again)?;
    Ok(Outcome {
        repl: Some(copied),
        entries,
        next,
        again,
    })
}

/// Nothing changes.
fn untouched(alloc: Global) -> Outcome
    ensures repl { result.repl ≡ None }
    ensures entries { result.entries.items ≡ [] }
    ensures next { result.next ≡ None }
{
    Outcome {
        repl: None,
        entries: Vec::new(alloc),
        next: None,
        again: Vec::new(alloc),
    }
}

/// The items but the switches to kinds that are not served.
fn served_of<O: Ordering>(alloc: Global, items: Vec<Item>) -> Result<Vec<Item>, NoMemory>
    ensures { IfOk result (λ v. v.items ≡ filter (is_kept O.is_served) items.items) }
{
    let mut kept = Vec::new(alloc);
    for item in items {
        match item.switch() {
            None => kept.push(item)?,
            Some(kind) => {
                if O::serves(kind) {
                    kept.push(item)?;
                }
            }
        }
    }
    Ok(kept)
}

/// Takes acts apart: the entries, the kind to be bound, and the items to be issued again.
fn sort_acts(
    acts: Vec<Act>,
    version: u16,
    log: &mut Vec<Entry>,
    again: &mut Vec<Item>,
) -> Result<Option<Kind>, NoMemory>
    ensures log { OnOk result (log.new.items ≡ log.old.items ++ entries version (delivered_by acts.items)) }
    ensures again { OnOk result (again.new.items ≡ again.old.items ++ reissued_by acts.items) }
    ensures bound { IfOk result (λ b. b ≡ bound_by None acts.items) }
{
    let mut bound = None;
    for act in acts {
        match act {
            Act::Deliver(item) => log.push(Entry { version, item })?,
            Act::Bind(kind) => bound = Some(kind),
            Act::Reissue(item) => again.push(item)?,
        }
    }
    Ok(bound)
}

/// A fresh module, which is told the suspicions and given the messages that are left.
pub fn enter<O: Ordering>(
    alloc: Global,
    kind: &Kind,
    n: u8,
    me: MemberId,
    suspected: &[bool],
    again: &[Item],
    bodies: &mut Outbox,
) -> Result<O, NoMemory>
    requires served { O.is_served kind.now ≡ true }
    requires some { 1 ≤ n }
    requires few { n ≤ MAX_MEMBERS }
    requires me_fits { me < n }
    requires kind_fits { KindFits n kind.now }
    requires row { length suspected.now ≡ n }
    requires not_self { slice_get suspected.now me ≡ Some false }
    requires own { All (λ item. origin_of item ≡ me) again.now }
    requires items_fit { All (λ item. ItemFits n item) again.now }
    ensures seat { IfOk result (λ m. O.seat m ≡ record { kind = kind.now; members = n; me = me }) }
    ensures fits { OnOk result (Grows (SendFits n) bodies.old bodies.new) }
    ensures stands { IfOk result (λ m. O.stands m (orders_after (fresh_orders suspected.now again.now) [])) }
    ensures sent { OnOk result (bodies.new ≡ bodies.old ++ orders_sent (O.sends kind.now n me) (fresh_orders suspected.now again.now) []) }
{
    let mut module = fresh_of::<O>(alloc, kind, n, me)?;
    tell(alloc, &mut module, suspected, bodies)?;
    give(alloc, &mut module, again, bodies)?;
    Ok(module)
}

/// Tells a module each suspicion, by ascending member.
fn tell<O: Ordering>(
    alloc: Global,
    ordering: &mut O,
    suspected: &[bool],
    bodies: &mut Outbox,
) -> Result<(), NoMemory>
    requires few { length suspected.now ≤ 7 }
    requires row { length suspected.now ≡ (O.seat ordering.old).members }
    requires not_self { slice_get suspected.now (O.seat ordering.old).me ≡ Some false }
    ensures seat { O.seat ordering.new ≡ O.seat ordering.old }
    ensures fits { OnOk result (Grows (SendFits (O.seat ordering.old).members) bodies.old bodies.new) }
    ensures stands { OnOk result ((past : Inputs) → O.stands ordering.old past → O.stands ordering.new (orders_after (suspicions_in 0 suspected.now) past)) }
    ensures sent { OnOk result ((past : Inputs) → O.stands ordering.old past → bodies.new ≡ bodies.old ++ orders_sent (O.sends (O.seat ordering.old).kind (O.seat ordering.old).members (O.seat ordering.old).me) (suspicions_in 0 suspected.now) past) }
{
    let mut who = 0;
    while who < suspected.len() {
        if suspected[who] {
            if let Some(member) = MemberId::new(who as u8) {
                ordering.suspect(alloc, member, true, bodies)?;
            }
        }
        who += 1;
    }
    Ok(())
}

/// Gives a module each item to broadcast.
fn give<O: Ordering>(
    alloc: Global,
    ordering: &mut O,
    again: &[Item],
    bodies: &mut Outbox,
) -> Result<(), NoMemory>
    requires own { All (λ item. origin_of item ≡ (O.seat ordering.old).me) again.now }
    requires items_fit { All (λ item. ItemFits (O.seat ordering.old).members item) again.now }
    ensures seat { O.seat ordering.new ≡ O.seat ordering.old }
    ensures fits { OnOk result (Grows (SendFits (O.seat ordering.old).members) bodies.old bodies.new) }
    ensures stands { OnOk result ((past : Inputs) → O.stands ordering.old past → O.stands ordering.new (orders_after (map (λ item. Broadcast item) again.now) past)) }
    ensures sent { OnOk result ((past : Inputs) → O.stands ordering.old past → bodies.new ≡ bodies.old ++ orders_sent (O.sends (O.seat ordering.old).kind (O.seat ordering.old).members (O.seat ordering.old).me) (map (λ item. Broadcast item) again.now) past) }
{
    let mut at = 0;
    while at < again.len() {
        ordering.broadcast(alloc, &again[at], bodies)?;
        at += 1;
    }
    Ok(())
}
