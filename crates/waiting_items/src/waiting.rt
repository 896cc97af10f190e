//! A persistent ordered set of items that wait for a decision, from which batches are taken: one shared row for each
//! origin.
ghost use Rattle.std.specs.Prelude.{ℕ, All, true, false, ◌≡◌, ◌<◌, ◌==◌, ◌↔◌, [], IfOk, IsTrue, OnOk, OnErr, length, map, replicate, set};
ghost use Rattle.std.specs.List.{list_all};
ghost use Rattle.upd_base.specs.Item.{ItemFits};
ghost use Rattle.upd_base.specs.declared.limits.TheConstants.{MAX_MEMBERS};
ghost use Rattle.consensus_rules.specs.Items.{knows};
ghost use Rattle.consensus_rules.specs.Waiting.{insert};
ghost use Rattle.waiting_items.specs.Ids.{apart_from, first_of};
ghost use Rattle.waiting_items.specs.Rows.{by_origin};

use crate::row::{Row, add_first, knows};
use std::alloc::Global;
use std::marker::Model;
use std::sync::Arc;
use upd_base::{Batch, Item, MAX_MEMBERS, NoMemory};

/// Items in ascending order of origin and number, of each origin and number one.
///
/// The items of each member stand in a row of their own. Copies share the rows, and a change makes anew
/// only the rows that it touches.
#[derive(Drop)]
pub struct Waiting {
    rows: Arc<Vec<Row>, Global>,
}

impl Model for Waiting {
    ghost use Rattle.std.specs.Prelude.{List};
    ghost use Rattle.std.specs.Arc.{arc_value};
    ghost use Rattle.upd_base.specs.declared.item.Item.{Item};
    ghost use Rattle.waiting_items.specs.Rows.{joined, AreRows};

    ghost Value = { List Item };

    ghost view = { λ w. joined (arc_value w.rows).items };

    ghost invariant = { λ w. AreRows (arc_value w.rows).items };
}

impl Waiting {
    /// None waits.
    pub fn new(alloc: Global) -> Result<Waiting, NoMemory>
        ensures { IfOk result (λ w. w ≡ []) }
    {
        let rows = empty_rows(alloc)?;
        let rows = Arc::new(alloc, rows)?;
        Ok(Waiting { rows })
    }

    /// Whether none waits.
    pub fn is_empty(&self) -> bool
        ensures { IsTrue result ↔ (self.now ≡ []) }
    {
        are_empty(self.rows.as_slice())
    }

    /// Puts an item behind those that stand before it; where one waits with its origin and number, nothing
    /// changes. Without memory nothing changes.
    pub fn insert(&mut self, alloc: Global, item: Item) -> Result<(), NoMemory>
        ensures ok { knows self.old item ≡ false → OnOk result (self.new ≡ insert item self.old) }
        ensures err { OnErr result (self.new ≡ self.old) }
        ensures fits { (n : ℕ) → ItemFits n item → All (ItemFits n) self.old → All (ItemFits n) self.new }
    {
        let place = usize::from(item.origin().get());
        let row = &self.rows[place];
        if knows(row.items(), &item) {
            return Ok(());
        }
        let row = row.with_item(alloc, item)?;
        let rows = with_row(alloc, self.rows.as_slice(), place, row)?;
        self.rows = Arc::new(alloc, rows)?;
        Ok(())
    }

    /// Takes out each item with the origin and number of one of these. Without memory nothing changes.
    pub fn remove_all(&mut self, alloc: Global, gone: &[Item]) -> Result<(), NoMemory>
        ensures ok { OnOk result (self.new ≡ apart_from gone.now self.old) }
        ensures err { OnErr result (self.new ≡ self.old) }
    {
        let rows = rows_without(alloc, self.rows.as_slice(), gone)?;
        self.rows = Arc::new(alloc, rows)?;
        Ok(())
    }

    /// The first 32 items, or all where there are fewer; None exactly where none waits.
    pub fn first_batch(&self, alloc: Global) -> Result<Option<Batch>, NoMemory>
        ensures { IfOk result (λ batch. batch ≡ first_of self.now) }
    {
        let mut items = Vec::new(alloc);
        for row in self.rows.iter() {
            add_first(&mut items, row.items())?;
        }
        Ok(Batch::new(items))
    }

    /// The same items.
    pub fn copy(&self) -> Result<Waiting, NoMemory>
        ensures { IfOk result (λ copy. copy ≡ self.now) }
    {
        let rows = self.rows.clone()?;
        Ok(Waiting { rows })
    }
}

/// An empty row for each member.
fn empty_rows(alloc: Global) -> Result<Vec<Row>, NoMemory>
    ensures { IfOk result (λ rows. rows.items ≡ replicate MAX_MEMBERS []) }
{
    let empty = Row::new(alloc, Vec::new(alloc))?;
    let mut rows = Vec::new(alloc);
    for member in 0..MAX_MEMBERS {
        rows.push(empty.copy()?)?;
    }
    Ok(rows)
}

/// Whether each of the rows is empty.
fn are_empty(rows: &[Row]) -> bool
    ensures { result ≡ list_all (λ row. length row == 0) rows.now }
{
    rows.iter().all(|row| row.items().is_empty())
}

/// The rows, with this one at that place.
fn with_row(alloc: Global, rows: &[Row], place: usize, row: Row) -> Result<Vec<Row>, NoMemory>
    requires { place < length rows.now }
    ensures { IfOk result (λ new. new.items ≡ set rows.now place row) }
{
    let mut new = copies(alloc, rows)?;
    new[place] = row;
    Ok(new)
}

/// The same rows.
fn copies(alloc: Global, rows: &[Row]) -> Result<Vec<Row>, NoMemory>
    ensures { IfOk result (λ copies. copies.items ≡ rows.now) }
{
    let mut copies = Vec::new(alloc);
    copies.reserve(rows.len())?;
    for row in rows {
        copies.push(row.copy()?)?;
    }
    Ok(copies)
}

/// The rows without each item that has the origin and number of one of these.
fn rows_without(alloc: Global, rows: &[Row], gone: &[Item]) -> Result<Vec<Row>, NoMemory>
    requires length { length rows.now ≡ MAX_MEMBERS }
    requires origins { by_origin 0 rows.now ≡ true }
    ensures { IfOk result (λ left. left.items ≡ map (apart_from gone.now) rows.now) }
{
    let mut left = Vec::new(alloc);
    left.reserve(rows.len())?;
    for origin in 0..MAX_MEMBERS {
        let row = &rows[usize::from(origin)];
        left.push(row.without(alloc, origin, gone)?)?;
    }
    Ok(left)
}
