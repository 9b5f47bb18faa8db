// The shelves of a table's channels.
ghost use Rattle.std.specs.Prelude.{◌≡◌, ◌↔◌, IfSome, IsTrue, map};
ghost use Rattle.txc_table.specs.Seen.{IsSeen};

use std::marker::Model;
use std::snapshot::Snapshot;
use txc_cast::{Shelf, Sight};
use txc_chan::{Chan, Log};

/// The shelf of each channel of a table, and, only for proofs, the channels as they were made. In a contract it is
/// these channels.
#[derive(Drop)]
pub(crate) struct Shelves<K: Log> {
    // One for each line; `None` if the kind of the line is a queue.
    shelves: Vec<Option<Shelf>>,
    chans: Snapshot<Vec<Chan<K>>>,
}

impl<K: Log> Model for Shelves<K> {
    ghost use Rattle.std.specs.Prelude.{◌≡◌, List, map};
    ghost use Rattle.txc_chan.specs.ChanView.{ChanView};

    ghost Value = { List ChanView };

    ghost view = { λ shelves. shelves.chans.value.items };

    ghost invariant = { λ shelves. shelves.shelves.items ≡ map (λ held. held.shelf) shelves.chans.value.items };
}

impl<K: Log> Shelves<K> {
    /// Creates the shelves of these channels, one by one.
    pub(crate) fn new(shelves: Vec<Option<Shelf>>, chans: &Vec<Chan<K>>) -> Shelves<K>
        requires { shelves.items ≡ map (λ held. held.shelf) chans.now.items }
        ensures { result ≡ chans.now.items }
    {
        Shelves {
            shelves,
            chans: Snapshot::of(chans),
        }
    }

    /// Returns what is at a slot of a channel. Returns `None` if the channel has no shelf or if the slot is still
    /// empty. Takes no lock.
    pub(crate) fn look(&self, chan: usize, slot: usize) -> Option<Sight>
        ensures own { IfSome result (λ sight. IsSeen self.now chan sight) }
        ensures slot { IfSome result (λ sight. sight.slot ≡ slot) }
    {
        match self.shelves.as_slice().get(chan) {
            Some(Some(shelf)) => shelf.look(slot),
            _ => None,
        }
    }

    /// Returns whether two sights of this channel's shelf are of one slot. They then show one item.
    pub(crate) fn same(&self, chan: usize, first: &Sight, second: &Sight) -> bool
        requires first { IsSeen self.now chan first.now }
        requires second { IsSeen self.now chan second.now }
        ensures same { IsTrue result ↔ (first.now.slot ≡ second.now.slot) }
        ensures items { IsTrue result → first.now.item ≡ second.now.item }
    {
        match self.shelves.as_slice().get(chan) {
            Some(Some(shelf)) => shelf.same(first, second),
            _ => unreachable!(),
        }
    }
}
