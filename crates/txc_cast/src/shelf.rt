// The shelf with the items of a broadcast list.
ghost use Rattle.std.specs.Prelude.{◌≡◌, ◌↔◌, IfSome, IsTrue};
ghost use Rattle.txc_cast.specs.Sights.{IsOf};

use crate::sight::Sight;
use std::alloc::{AllocError, Global};
use std::marker::Model;
use std::sync::Arc;
use txc_base::Item;

pub(crate) type Items = boxcar::Vec<Item>;

/// The items of a broadcast list by their slots, in an append-only buffer. Threads can read it at any time without a
/// lock, even while items are appended. An item stays on the shelf even if its append is undone.
#[derive(Drop)]
pub struct Shelf {
    pub(crate) items: Arc<Items, Global>,
}

impl Model for Shelf {
    ghost use Rattle.std.specs.Arc.{arc_value};
    ghost use Rattle.boxcar.specs.Table.{Shelves, shelves_coded};

    ghost Value = { Shelves };

    ghost coded = { shelves_coded };

    ghost view = { λ shelf. arc_value shelf.items };
}

impl Shelf {
    /// Returns an empty shelf. Returns an error if allocation fails.
    pub(crate) fn new(alloc: Global) -> Result<Shelf, AllocError> {
        let items = Arc::new(alloc, Items::new(alloc)?)?;
        Ok(Shelf { items })
    }

    /// Returns a sight of the item at a slot, or `None` if there is no item yet.
    pub fn look(&self, slot: usize) -> Option<Sight>
        ensures own { IfSome result (λ sight. IsOf self.now sight) }
        ensures slot { IfSome result (λ sight. sight.slot ≡ slot) }
    {
        let token = self.items.witness(slot)?;
        let item = *self.items.value(&token);
        Some(Sight { slot, item, token })
    }

    /// Returns whether two sights of this shelf are of one slot. If they are, they show one item.
    pub fn same(&self, first: &Sight, second: &Sight) -> bool
        requires first { IsOf self.now first.now }
        requires second { IsOf self.now second.now }
        ensures same { IsTrue result ↔ (first.now.slot ≡ second.now.slot) }
        ensures items { IsTrue result → first.now.item ≡ second.now.item }
    {
        if first.slot != second.slot {
            return false;
        }
        self.items.agrees(&first.token, &second.token);
        true
    }
}
