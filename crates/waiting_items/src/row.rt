//! A persistent list of waiting items: copies share it, and a change makes a new one.
ghost use Rattle.std.specs.Prelude.{◌≡◌, ◌≤◌, ◌==◌, true, IfOk, OnOk, ◌++◌, ◌∷◌, drop, length, take};
ghost use Rattle.std.specs.List.{list_any};
ghost use Rattle.upd_base.specs.Item.{origin_of};
ghost use Rattle.upd_base.specs.declared.limits.TheConstants.{MAX_BATCH};
ghost use Rattle.consensus_rules.specs.Items.{knows};
ghost use Rattle.consensus_rules.specs.Waiting.{insert};
ghost use Rattle.waiting_items.specs.Ids.{apart_from};
ghost use Rattle.waiting_items.specs.Rows.{of_origin};

use std::alloc::Global;
use std::marker::Model;
use std::sync::Arc;
use upd_base::{Item, MAX_BATCH, NoMemory};

/// A list of items that copies share.
#[derive(Drop)]
pub struct Row {
    items: Arc<Vec<Item>, Global>,
}

impl Model for Row {
    ghost use Rattle.std.specs.Prelude.{List};
    ghost use Rattle.std.specs.Arc.{arc_value};
    ghost use Rattle.upd_base.specs.declared.item.Item.{Item};

    ghost Value = { List Item };

    ghost view = { λ r. (arc_value r.items).items };
}

impl Row {
    /// A row of these items.
    pub fn new(alloc: Global, items: Vec<Item>) -> Result<Row, NoMemory>
        ensures { IfOk result (λ row. row ≡ items.items) }
    {
        let items = Arc::new(alloc, items)?;
        Ok(Row { items })
    }

    /// The list of its items.
    pub fn items(&self) -> &[Item]
        ensures { result.now ≡ self.now }
    {
        self.items.as_slice()
    }

    /// The same row.
    pub fn copy(&self) -> Result<Row, NoMemory>
        ensures { IfOk result (λ copy. copy ≡ self.now) }
    {
        let items = self.items.clone()?;
        Ok(Row { items })
    }

    /// The row, with one more item behind those that stand before it.
    pub fn with_item(&self, alloc: Global, item: Item) -> Result<Row, NoMemory>
        ensures { IfOk result (λ more. more ≡ insert item self.now) }
    {
        let items = with_item(alloc, self.items(), item)?;
        Row::new(alloc, items)
    }

    /// The row without each item that has the origin and number of one of these.
    pub fn without(&self, alloc: Global, origin: u8, gone: &[Item]) -> Result<Row, NoMemory>
        requires { of_origin origin self.now ≡ true }
        ensures { IfOk result (λ left. left ≡ apart_from gone.now self.now) }
    {
        if !has_origin(gone, origin) {
            return self.copy();
        }
        if !knows_any(gone, self.items()) {
            return self.copy();
        }
        let items = without(alloc, self.items(), gone)?;
        Row::new(alloc, items)
    }
}

/// Whether one of the items has this one's origin and number.
pub fn knows(items: &[Item], item: &Item) -> bool
    ensures { result ≡ knows items.now item.now }
{
    items.iter().any(|other| other.has_id_of(item))
}

/// Whether one of the items has the origin and number of one of the known.
fn knows_any(known: &[Item], items: &[Item]) -> bool
    ensures { result ≡ list_any (knows known.now) items.now }
{
    items.iter().any(|item| knows(known, item))
}

/// Whether one of the items is of this origin.
fn has_origin(items: &[Item], origin: u8) -> bool
    ensures { result ≡ list_any (λ x. origin_of x == origin) items.now }
{
    items.iter().any(|item| item.origin().get() == origin)
}

/// Adds copies of the first of these, as many as a batch has room for.
pub fn add_first(items: &mut Vec<Item>, more: &[Item]) -> Result<(), NoMemory>
    requires { length items.old.items ≤ MAX_BATCH }
    ensures { OnOk result (items.new.items ≡ take MAX_BATCH (items.old.items ++ more.now)) }
{
    for item in more {
        if items.len() == MAX_BATCH {
            break;
        }
        items.push(item.copy()?)?;
    }
    Ok(())
}

/// The items, with one more behind those that stand before it.
fn with_item(alloc: Global, items: &[Item], item: Item) -> Result<Vec<Item>, NoMemory>
    ensures { IfOk result (λ more. more.items ≡ insert item items.now) }
{
    let place = place_of(items, &item);
    let mut more = Vec::new(alloc);
    more.reserve(items.len() + 1)?;
    copy_to(&mut more, &items[..place])?;
    more.push(item)?;
    copy_to(&mut more, &items[place..])?;
    Ok(more)
}

/// How many items stand before the first that does not stand before this one.
fn place_of(items: &[Item], item: &Item) -> usize
    ensures within { result ≤ length items.now }
    ensures place { insert item.now items.now ≡ take result items.now ++ item.now ∷ drop result items.now }
{
    let mut place = 0;
    while place < items.len() {
        if !items[place].stands_before(item) {
            return place;
        }
        place += 1;
    }
    place
}

/// Adds copies of the items.
fn copy_to(copies: &mut Vec<Item>, items: &[Item]) -> Result<(), NoMemory>
    ensures { OnOk result (copies.new.items ≡ copies.old.items ++ items.now) }
{
    copies.reserve(items.len())?;
    for item in items {
        copies.push(item.copy()?)?;
    }
    Ok(())
}

/// The items that have not the origin and number of one of the others.
fn without(alloc: Global, items: &[Item], gone: &[Item]) -> Result<Vec<Item>, NoMemory>
    ensures { IfOk result (λ left. left.items ≡ apart_from gone.now items.now) }
{
    let mut left = Vec::new(alloc);
    for item in items {
        if !knows(gone, item) {
            left.push(item.copy()?)?;
        }
    }
    Ok(left)
}
