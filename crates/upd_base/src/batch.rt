//! What one instance of consensus decides on: a set of items, kept in one canonical order so that a set is one list.
ghost use Rattle.std.specs.Prelude.{◌≡◌, true, IfOk};
ghost use Rattle.std.specs.List.{list_all};
ghost use Rattle.upd_base.specs.Batch.{ascends, comes_first, batch, is_batch};
ghost use Rattle.upd_base.specs.Item.{item_fits};

use crate::item::Item;
use crate::limits::MAX_BATCH;
use crate::no_memory::NoMemory;
use std::alloc::Global;
use std::marker::Model;

/// 1 to 32 items, strictly ascending by (origin, number).
#[derive(Debug, Drop)]
pub struct Batch {
    items: Vec<Item>,
}

impl Model for Batch {
    ghost use Rattle.std.specs.Prelude.{List, ◌≡◌, true};
    ghost use Rattle.upd_base.specs.declared.item.Item.{Item};
    ghost use Rattle.upd_base.specs.Batch.{is_batch};

    ghost Value = { List Item };

    ghost view = { λ b. b.items.items };

    ghost invariant = { λ b. is_batch b.items.items ≡ true };
}

impl Batch {
    /// None exactly where the items are not 1 to 32 in strictly ascending order.
    pub fn new(items: Vec<Item>) -> Option<Batch>
        ensures { result ≡ batch items.items }
    {
        if !is_batch(items.as_slice()) {
            return None;
        }
        Some(Batch { items })
    }

    /// The list of its items.
    pub fn items(&self) -> &[Item]
        ensures { result.now ≡ self.now }
    {
        self.items.as_slice()
    }

    /// The batch keeps its limits and its order: a law, for a caller that holds it borrowed.
    pub fn keeps_limits(&self)
        ensures { is_batch self.now ≡ true }
    {
        let _items = self.items.as_slice();
    }

    /// The same batch.
    pub fn copy(&self, alloc: Global) -> Result<Batch, NoMemory>
        ensures { IfOk result (λ batch. batch ≡ self.now) }
    {
        let items = copy_of(alloc, self.items.as_slice())?;
        Ok(Batch { items })
    }

    /// Whether each member that it names is below n.
    pub fn fits(&self, n: u8) -> bool
        ensures { result ≡ list_all (item_fits n) self.now }
    {
        self.items.iter().all(|item| item.fits(n))
    }
}

impl PartialEq for Batch {
    ghost use Rattle.std.specs.Cmp.Lexicographic.{pointwise, lists_per};
    ghost use Rattle.upd_base.specs.contracts.item.ItemPartialEq.TheImpl.Laws as ItemLaws;

    ghost eq = { pointwise ⟦<Item as PartialEq>⟧.eq };

    ghost laws = { lists_per ItemLaws.laws-law };

    fn eq(&self, other: &Batch) -> bool {
        self.items() == other.items()
    }
}

impl Eq for Batch {
    ghost use Rattle.std.specs.Cmp.Lexicographic.{lists_equiv};
    ghost use Rattle.upd_base.specs.contracts.item.ItemEq.TheImpl.Laws as ItemLaws;

    ghost laws = { lists_equiv ItemLaws.laws-law };
}

fn copy_of(alloc: Global, items: &[Item]) -> Result<Vec<Item>, NoMemory>
    ensures { IfOk result (λ copies. copies.items ≡ items.now) }
{
    let mut copies = Vec::new(alloc);
    for item in items {
        copies.push(item.copy()?)?;
    }
    Ok(copies)
}

fn is_batch(items: &[Item]) -> bool
    ensures { result ≡ is_batch items.now }
{
    if items.is_empty() || items.len() > MAX_BATCH {
        return false;
    }
    ascends(items)
}

fn comes_first(first: &Item, rest: &[Item]) -> bool
    ensures { result ≡ comes_first first.now rest.now }
{
    match rest {
        [second, ..] => first.stands_before(second),
        [] => true,
    }
}

fn ascends(items: &[Item]) -> bool
    ensures { result ≡ ascends items.now }
{
    match items {
        [first, rest @ ..] => comes_first(first, rest) && ascends(rest),
        [] => true,
    }
}
