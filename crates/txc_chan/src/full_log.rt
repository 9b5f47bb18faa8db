// A log with all its entries in memory.
ghost use Rattle.std.specs.Prelude.{◌≡◌};

use crate::log::Log;
use std::alloc::{AllocError, Global};
use std::marker::Model;
use txc_base::Entry;

/// A recorded log: all its entries are in memory, so a snapshot can include them.
#[derive(Drop)]
pub struct FullLog {
    all: Vec<Entry>,
    undoable: usize,
}

impl Model for FullLog {
    ghost use Rattle.std.specs.Prelude.{◌≤◌, vec_len, vec_capacity};
    ghost use Rattle.txc_chan.specs.Log.{LogView};

    ghost Value = { LogView };

    ghost view = { λ log. record { entries = log.all.items; undoable = log.undoable; room = vec_capacity log.all } };

    ghost invariant = { λ log. log.undoable ≤ vec_len log.all };
}

impl FullLog {
    /// Returns all entries, in order.
    pub fn all(&self) -> &[Entry]
        ensures { result.now ≡ self.now.entries }
    {
        self.all.as_slice()
    }

    /// Returns all entries, in order. Consumes the log.
    pub(crate) fn into_all(self) -> Vec<Entry>
        ensures { result.items ≡ self.entries }
    {
        let FullLog { all, undoable: _ } = self;
        all
    }
}

impl Log for FullLog {
    ghost use Rattle.std.specs.Prelude.{◌≤◌, ◌+◌, length, true};

    ghost entries = { λ log. log.entries };

    ghost undoable = { λ log. log.undoable };

    ghost HasRoom = { λ log more. length log.entries + more ≤ log.room };

    ghost HasSettledRoom = { λ log. length log.entries + 1 ≤ log.room };

    ghost shelves = { true };

    fn shelves() -> bool {
        true
    }

    fn new(alloc: Global) -> Self {
        FullLog {
            all: Vec::new(alloc),
            undoable: 0,
        }
    }

    fn allocator(&self) -> Global {
        *self.all.allocator()
    }

    fn reserve(&mut self, more: usize) -> Result<(), AllocError> {
        self.all.reserve(more)
    }

    fn push_reserved(&mut self, entry: Entry) {
        self.all.push_reserved(entry);
        self.undoable += 1;
    }

    fn reserve_settled(&mut self) -> Result<(), AllocError> {
        self.all.reserve(1)
    }

    fn push_settled(&mut self, entry: &Entry) {
        self.all.push_reserved(*entry);
    }

    fn pop(&mut self) -> Option<Entry> {
        self.undoable -= 1;
        self.all.pop()
    }

    fn len(&self) -> usize {
        self.all.len()
    }

    fn undoable(&self) -> usize {
        let _all = &self.all;
        self.undoable
    }

    fn entry(&self, place: usize) -> Option<Entry> {
        self.all.as_slice().get(place).copied()
    }

    fn settle(&mut self) {
        self.undoable = 0;
    }
}
