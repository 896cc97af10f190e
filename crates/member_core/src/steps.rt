//! Steps of ordering modules, made on copies: the member stays as it is until it commits, and bodies become frames.
ghost use Rattle.std.specs.List.{AllZip};
ghost use Rattle.std.specs.Prelude.{ℕ, List, All, length, ◌≤◌, ◌≡◌, ◌≢◌, ◌<◌, ◌∷◌, ◌++◌, if◌then◌else◌, true, IfOk, OnOk};
ghost use Rattle.fifo_net.specs.Net.{Called, Took};
ghost use Rattle.upd_base.specs.Body.{BodyFits, is_body};
ghost use Rattle.upd_base.specs.Item.{origin_of, ItemFits};
ghost use Rattle.upd_base.specs.declared.item.Item.{Item};
ghost use Rattle.upd_base.specs.declared.limits.TheConstants.{MAX_VERSION};
ghost use Rattle.order_trait.specs.Outbox.{Grows};
ghost use Rattle.order_trait.specs.Runs.{Broadcast, Suspect, Trust, Inputs, at_seat};
ghost use Rattle.group_run.specs.Turn.{framed};
ghost use Rattle.member_rules.specs.Steps.{IsNext, StandAt, SentFits, sent_from};

use order_trait::{Ordering, Outbox};
use std::alloc::Global;
use upd_base::{Body, Frame, Item, MemberId, NoMemory};

/// The bodies become frames of a version.
pub fn frame_all(
    mut bodies: Outbox,
    version: u16,
    sent: &mut Vec<(MemberId, Frame)>,
) -> Result<(), NoMemory>
    ensures { OnOk result (sent.new.items ≡ sent.old.items ++ framed version bodies) }
{
    while let Some((to, body)) = bodies.drain_first() {
        sent.push((to, Frame { version, body }))?;
    }
    Ok(())
}

/// The module after a broadcast; its frames go out.
pub fn after_broadcast<O: Ordering>(
    alloc: Global,
    ordering: &O,
    version: u16,
    item: &Item,
    sent: &mut Vec<(MemberId, Frame)>,
) -> Result<O, NoMemory>
    requires low { version ≤ MAX_VERSION }
    requires own { origin_of item.now ≡ (O.seat ordering.now).me }
    requires item_fits { ItemFits (O.seat ordering.now).members item.now }
    ensures seat { IfOk result (λ m. O.seat m ≡ O.seat ordering.now) }
    ensures fits { OnOk result (Grows (SentFits (O.seat ordering.now).members) sent.old.items sent.new.items) }
    ensures stands { IfOk result (λ m. (past : Inputs) → O.stands ordering.now past → O.stands m (Called (Broadcast item.now) ∷ past)) }
    ensures sent { OnOk result ((past : Inputs) → O.stands ordering.now past → sent.new.items ≡ sent.old.items ++ framed version (at_seat O.sends (O.seat ordering.now) (Called (Broadcast item.now) ∷ past))) }
{
    let mut next = ordering.copy(alloc)?;
    let mut bodies = Outbox::new(alloc);
    next.broadcast(alloc, item, &mut bodies)?;
    frame_all(bodies, version, sent)?;
    Ok(next)
}

/// The module after it took a body; its frames go out, and what it delivered is added.
pub fn after_receipt<O: Ordering>(
    alloc: Global,
    ordering: &O,
    from: MemberId,
    frame: &Frame,
    sent: &mut Vec<(MemberId, Frame)>,
    delivered: &mut Vec<Item>,
) -> Result<O, NoMemory>
    requires low { frame.now.version ≤ MAX_VERSION }
    requires from_fits { from < (O.seat ordering.now).members }
    requires body_fits { BodyFits (O.seat ordering.now).members frame.now.body }
    requires body_counts { is_body frame.now.body ≡ true }
    ensures seat { IfOk result (λ m. O.seat m ≡ O.seat ordering.now) }
    ensures fits { OnOk result (Grows (SentFits (O.seat ordering.now).members) sent.old.items sent.new.items) }
    ensures items_fit { OnOk result (Grows (ItemFits (O.seat ordering.now).members) delivered.old.items delivered.new.items) }
    ensures stands { IfOk result (λ m. (past : Inputs) → O.stands ordering.now past → O.stands m (Took from frame.now.body ∷ past)) }
    ensures sent { OnOk result ((past : Inputs) → O.stands ordering.now past → sent.new.items ≡ sent.old.items ++ framed frame.now.version (at_seat O.sends (O.seat ordering.now) (Took from frame.now.body ∷ past))) }
    ensures delivered { OnOk result ((past : Inputs) → O.stands ordering.now past → (more : List Item) → at_seat O.delivers (O.seat ordering.now) (Took from frame.now.body ∷ past) ≡ at_seat O.delivers (O.seat ordering.now) past ++ more → delivered.new.items ≡ delivered.old.items ++ more) }
{
    let mut next = ordering.copy(alloc)?;
    let mut bodies = Outbox::new(alloc);
    next.receive(alloc, from, &frame.body, &mut bodies, delivered)?;
    frame_all(bodies, frame.version, sent)?;
    Ok(next)
}

/// The module after a suspicion came or went; its frames go out.
pub fn after_suspicion<O: Ordering>(
    alloc: Global,
    ordering: &O,
    version: u16,
    who: MemberId,
    on: bool,
    sent: &mut Vec<(MemberId, Frame)>,
) -> Result<O, NoMemory>
    requires low { version ≤ MAX_VERSION }
    requires who_fits { who < (O.seat ordering.now).members }
    requires not_me { who ≢ (O.seat ordering.now).me }
    ensures seat { IfOk result (λ m. O.seat m ≡ O.seat ordering.now) }
    ensures fits { OnOk result (Grows (SentFits (O.seat ordering.now).members) sent.old.items sent.new.items) }
    ensures stands { IfOk result (λ m. (past : Inputs) → O.stands ordering.now past → O.stands m (Called (if on then Suspect who else Trust who) ∷ past)) }
    ensures sent { OnOk result ((past : Inputs) → O.stands ordering.now past → sent.new.items ≡ sent.old.items ++ framed version (at_seat O.sends (O.seat ordering.now) (Called (if on then Suspect who else Trust who) ∷ past))) }
{
    let mut next = ordering.copy(alloc)?;
    let mut bodies = Outbox::new(alloc);
    next.suspect(alloc, who, on, &mut bodies)?;
    frame_all(bodies, version, sent)?;
    Ok(next)
}

/// The modules after a suspicion came or went, by ascending version; their frames go out.
pub fn all_after_suspicion<O: Ordering>(
    alloc: Global,
    modules: &[O],
    who: MemberId,
    on: bool,
    sent: &mut Vec<(MemberId, Frame)>,
) -> Result<Vec<O>, NoMemory>
    requires few { length modules.now ≤ 1001 }
    requires who_fits { All (λ m. who < (O.seat m).members) modules.now }
    requires not_me { All (λ m. who ≢ (O.seat m).me) modules.now }
    ensures next { IfOk result (λ v. AllZip (IsNext O.Ordering (Called (if on then Suspect who else Trust who))) modules.now v.items) }
    ensures fits { OnOk result ((n : ℕ) → All (λ m. (O.seat m).members ≡ n) modules.now → Grows (SentFits n) sent.old.items sent.new.items) }
    ensures sent { OnOk result ((inputs : ℕ → Inputs) → StandAt O.Ordering modules.now inputs → sent.new.items ≡ sent.old.items ++ sent_from O.Ordering 0 modules.now inputs (Called (if on then Suspect who else Trust who))) }
{
    let mut all = Vec::new(alloc);
    let mut version = 0;
    for module in modules {
        all.push(after_suspicion(alloc, module, version, who, on, sent)?)?;
        version += 1;
    }
    Ok(all)
}
