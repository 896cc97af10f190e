//! From decided batches to one total order: batches go by instance, and an item in several of them is delivered once.
ghost use Rattle.std.specs.Prelude.{ℕ, List, All, true, false, None, ◌≡◌, ◌≢◌, ◌<◌, ◌≤◌, ◌+◌, ◌∷◌, ◌++◌, ◌||◌, [], IfOk, IfSome, IfNone, OnOk, OnErr, is_some, length, Some, take};
ghost use Rattle.std.specs.List.{list_all};
ghost use Rattle.std.specs.Ordering.{nat_cmp};
ghost use Rattle.std.specs.BTreeMap.{btree_map_len, get, insert_entry};
ghost use Rattle.std.specs.Map.{values_of};
ghost use Rattle.upd_base.specs.Item.{ItemFits, id_of, item_fits};
ghost use Rattle.order_trait.specs.Outbox.{Grows};
ghost use Rattle.instance_rules.specs.Say.{Items};
ghost use Rattle.consensus_rules.specs.Items.{add_new, knows};
ghost use Rattle.consensus_rules.specs.Delivered.{batches, decision, items_of};
ghost use Rattle.consensus_rules.specs.Instances.{last_instance};
ghost use Rattle.consensus_rules.specs.Waiting.{in_order};
ghost use Rattle.number_runs.specs.Runs.{holds};
ghost use Rattle.waiting_items.specs.Ids.{apart_from, first_of};

use number_runs::NumberRuns;
use std::alloc::Global;
use std::collections::BTreeMap;
use upd_base::{Batch, Item, NoMemory};
use waiting_items::Waiting;

/// What waits, what is decided and what was delivered.
///
/// A clause speaks of all received items and all decisions for which it stands. Of an instance that was
/// delivered nothing is kept but the origins and numbers of its items.
#[derive(Drop)]
pub struct Delivery {
    members: u8,
    /// How many instances were delivered: those from 1 on.
    count: u64,
    /// The batches of later instances that are decided, by number.
    ahead: BTreeMap<u64, Batch>,
    /// Origin and number of each item that was delivered.
    ids: NumberRuns,
    /// What was received and not delivered.
    waiting: Waiting,
    ghost ahead_fit: { All (λ b. list_all (item_fits members) b ≡ true) (values_of ahead.entries) },
    ghost waiting_fit: { All (ItemFits members) waiting },
}

impl Delivery {
    ghost use Rattle.batch_delivery.specs.Delivery.{AreIdsOf, IsUpTo, StandsFor, members_of, news};

    /// Before any input.
    pub fn new(alloc: Global, members: u8) -> Result<Delivery, NoMemory>
        ensures members { IfOk result (λ d. members_of d ≡ members) }
        ensures stands { IfOk result (λ d. StandsFor d [] []) }
    {
        Ok(Delivery {
            members,
            count: 0,
            ahead: BTreeMap::new(alloc),
            ids: NumberRuns::new(alloc),
            waiting: Waiting::new(alloc)?,
        })
    }

    /// Whether an item with this one's origin and number was delivered.
    fn was_delivered(&self, item: &Item) -> bool
        ensures { result ≡ holds self.now.ids (id_of item.now) }
    {
        let (origin, number) = id(item);
        self.ids.contains(origin, number)
    }

    /// An item was received for the first time.
    pub fn receive(&mut self, alloc: Global, item: Item) -> Result<(), NoMemory>
        requires { ItemFits (members_of self.old) item }
        ensures members { members_of self.new ≡ members_of self.old }
        ensures stands { OnOk result ((items : Items) (ds : List (ℕ × Items)) → knows items item ≡ false → StandsFor self.old items ds → StandsFor self.new (items ++ item ∷ []) ds) }
    {
        if self.was_delivered(&item) {
            return Ok(());
        }
        self.waiting.insert(alloc, item)?;
        Ok(())
    }

    /// Whether an instance is decided; instances count from 1.
    pub fn is_decided(&self, instance: u64) -> bool
        ensures { (items : Items) (ds : List (ℕ × Items)) → 1 ≤ instance → StandsFor self.now items ds → result ≡ is_some (decision instance ds) }
    {
        instance <= self.count || self.ahead.contains_key(&instance)
    }

    /// An instance was decided that was not decided before.
    pub fn decide(&mut self, instance: u64, batch: Batch) -> Result<(), NoMemory>
        requires { list_all (item_fits (members_of self.old)) batch ≡ true }
        ensures members { members_of self.new ≡ members_of self.old }
        ensures stands { OnOk result ((items : Items) (ds : List (ℕ × Items)) → decision instance ds ≡ None → StandsFor self.old items ds → IsUpTo self.new (items_of (batches ds)) items (ds ++ (instance, batch) ∷ [])) }
    {
        put(&mut self.ahead, instance, batch)
    }

    /// Takes out the batch of the instance that is next, where it is decided.
    fn take_next(&mut self) -> Option<Batch>
        ensures members { self.new.members ≡ self.old.members }
        ensures ids { self.new.ids ≡ self.old.ids }
        ensures waiting { self.new.waiting ≡ self.old.waiting }
        ensures some { IfSome result (λ batch. get nat_cmp self.old.ahead (self.old.count + 1) ≡ Some batch) }
        ensures count { IfSome result (λ batch. self.new.count ≡ self.old.count + 1) }
        ensures rest { IfSome result (λ batch. (k : ℕ) → self.new.count < k → get nat_cmp self.new.ahead k ≡ get nat_cmp self.old.ahead k) }
        ensures fits { IfSome result (λ batch. list_all (item_fits self.old.members) batch ≡ true) }
        ensures less { IfSome result (λ batch. btree_map_len self.new.ahead < btree_map_len self.old.ahead) }
        ensures none { IfNone result (self.old.count + 1 ≤ last_instance → get nat_cmp self.old.ahead (self.old.count + 1) ≡ None) }
        ensures same_count { IfNone result (self.new.count ≡ self.old.count) }
        ensures same { IfNone result ((k : ℕ) → get nat_cmp self.new.ahead k ≡ get nat_cmp self.old.ahead k) }
    {
        let next = self.count.checked_add(1)?;
        let batch = self.ahead.remove(&next)?;
        self.count = next;
        Some(batch)
    }

    /// Delivers an item, unless one with its origin and number was delivered.
    fn deliver_item(&mut self, item: &Item, delivered: &mut Vec<Item>) -> Result<(), NoMemory>
        ensures members { self.new.members ≡ self.old.members }
        ensures count { self.new.count ≡ self.old.count }
        ensures ahead { self.new.ahead ≡ self.old.ahead }
        ensures waiting { self.new.waiting ≡ self.old.waiting }
        ensures ids { OnOk result ((known : Items) → AreIdsOf self.old.ids known → AreIdsOf self.new.ids (add_new known (item.now ∷ []))) }
        ensures delivered { OnOk result ((known : Items) → AreIdsOf self.old.ids known → delivered.new.items ≡ delivered.old.items ++ news known (item.now ∷ [])) }
        ensures fits { ItemFits self.old.members item.now → OnOk result (Grows (ItemFits self.old.members) delivered.old.items delivered.new.items) }
    {
        let (origin, number) = id(item);
        if self.ids.insert(origin, number)? {
            delivered.push(item.copy()?)?;
        }
        Ok(())
    }

    /// Delivers each of the items, unless one with its origin and number was delivered.
    fn deliver_items(&mut self, items: &[Item], delivered: &mut Vec<Item>) -> Result<(), NoMemory>
        requires { list_all (item_fits self.old.members) items.now ≡ true }
        ensures members { self.new.members ≡ self.old.members }
        ensures count { self.new.count ≡ self.old.count }
        ensures ahead { self.new.ahead ≡ self.old.ahead }
        ensures waiting { self.new.waiting ≡ self.old.waiting }
        ensures ids { OnOk result ((known : Items) → AreIdsOf self.old.ids known → AreIdsOf self.new.ids (add_new known items.now)) }
        ensures delivered { OnOk result ((known : Items) → AreIdsOf self.old.ids known → delivered.new.items ≡ delivered.old.items ++ news known items.now) }
        ensures fits { OnOk result (Grows (ItemFits self.old.members) delivered.old.items delivered.new.items) }
    {
        match items {
            [] => Ok(()),
            [item, rest @ ..] => {
                self.deliver_item(item, delivered)?;
                self.deliver_items(rest, delivered)
            }
        }
    }

    /// Delivers the items of a batch; none of them waits any more.
    fn deliver_batch(
        &mut self,
        alloc: Global,
        items: &[Item],
        delivered: &mut Vec<Item>,
    ) -> Result<(), NoMemory>
        requires { list_all (item_fits self.old.members) items.now ≡ true }
        ensures members { self.new.members ≡ self.old.members }
        ensures count { self.new.count ≡ self.old.count }
        ensures ahead { self.new.ahead ≡ self.old.ahead }
        ensures ids { OnOk result ((known : Items) → AreIdsOf self.old.ids known → AreIdsOf self.new.ids (add_new known items.now)) }
        ensures waiting { OnOk result (self.new.waiting ≡ apart_from items.now self.old.waiting) }
        ensures delivered { OnOk result ((known : Items) → AreIdsOf self.old.ids known → delivered.new.items ≡ delivered.old.items ++ news known items.now) }
        ensures fits { OnOk result (Grows (ItemFits self.old.members) delivered.old.items delivered.new.items) }
    {
        self.waiting.remove_all(alloc, items)?;
        self.deliver_items(items, delivered)
    }

    /// Delivers what the decisions let be delivered: from the instance that is next up to the first that
    /// is not decided.
    pub fn deliver(&mut self, alloc: Global, delivered: &mut Vec<Item>) -> Result<(), NoMemory>
        ensures members { members_of self.new ≡ members_of self.old }
        ensures stands { OnOk result ((known items : Items) (ds : List (ℕ × Items)) → IsUpTo self.old known items ds → StandsFor self.new items ds) }
        ensures delivered { OnOk result ((known items : Items) (ds : List (ℕ × Items)) (more : Items) → IsUpTo self.old known items ds → items_of (batches ds) ≡ known ++ more → delivered.new.items ≡ delivered.old.items ++ more) }
        ensures fits { OnOk result (Grows (ItemFits (members_of self.old)) delivered.old.items delivered.new.items) }
    {
        while let Some(batch) = self.take_next() {
            self.deliver_batch(alloc, batch.items(), delivered)?;
        }
        Ok(())
    }

    /// The number of the instance that is next; None exactly where a u64 does not hold it.
    pub fn next(&self) -> Option<u64>
        ensures counts { IfSome result (λ k. 1 ≤ k) }
        ensures some { IfSome result (λ k. (items : Items) (ds : List (ℕ × Items)) → StandsFor self.now items ds → k ≡ 1 + length (batches ds)) }
        ensures none { IfNone result ((items : Items) (ds : List (ℕ × Items)) → StandsFor self.now items ds → last_instance < 1 + length (batches ds)) }
    {
        self.count.checked_add(1)
    }

    /// The first 32 of the received and undelivered items by origin and number; None exactly where there
    /// are none.
    pub fn first_batch(&self, alloc: Global) -> Result<Option<Batch>, NoMemory>
        ensures is { IfOk result (λ batch. (items : Items) (ds : List (ℕ × Items)) → StandsFor self.now items ds → batch ≡ first_of (in_order (apart_from (items_of (batches ds)) items))) }
        ensures fits { IfOk result (λ found. IfSome found (λ batch. list_all (item_fits (members_of self.now)) batch ≡ true)) }
    {
        self.waiting.first_batch(alloc)
    }

    /// It stands for all for which this one stands.
    pub fn copy(&self, alloc: Global) -> Result<Delivery, NoMemory>
        ensures members { IfOk result (λ copy. members_of copy ≡ members_of self.now) }
        ensures stands { IfOk result (λ copy. (items : Items) (ds : List (ℕ × Items)) → StandsFor self.now items ds → StandsFor copy items ds) }
    {
        Ok(Delivery {
            members: self.members,
            count: self.count,
            ahead: copy_batches(alloc, &self.ahead)?,
            ids: self.ids.copy(alloc)?,
            waiting: self.waiting.copy()?,
        })
    }
}

/// The origin and the number of an item.
fn id(item: &Item) -> (u8, u64)
    ensures { result ≡ id_of item.now }
{
    (item.origin().get(), u64::from(item.number()))
}

/// The same batches.
fn copy_batches(
    alloc: Global,
    batches: &BTreeMap<u64, Batch>,
) -> Result<BTreeMap<u64, Batch>, NoMemory>
    ensures { IfOk result (λ copies. copies.entries ≡ batches.now.entries) }
{
    let mut copies = BTreeMap::new(alloc);
    for (number, batch) in batches.iter() {
        put(&mut copies, *number, batch.copy(alloc)?)?;
    }
    Ok(copies)
}

fn put(batches: &mut BTreeMap<u64, Batch>, number: u64, batch: Batch) -> Result<(), NoMemory>
    ensures ok { OnOk result (batches.new.entries ≡ insert_entry nat_cmp batches.old.entries number batch) }
    ensures err { OnErr result (batches.new.entries ≡ batches.old.entries) }
    ensures here { OnOk result (get nat_cmp batches.new number ≡ Some batch) }
    ensures others { OnOk result ((k : ℕ) → k ≢ number → get nat_cmp batches.new k ≡ get nat_cmp batches.old k) }
{
    batches.insert(number, batch)?;
    Ok(())
}
