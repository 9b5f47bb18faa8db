// A log with only its last entries in memory.
use crate::ghost_list::GhostList;
use crate::log::Log;
use std::alloc::{AllocError, Global};
use std::marker::Model;
use txc_base::Entry;

/// An unrecorded log: only the entries that can be undone are in memory. Earlier entries exist only in proofs.
#[derive(Drop)]
pub struct GhostLog {
    before: GhostList<Entry>,
    // The number of entries that are no longer in memory.
    settled: usize,
    pending: Vec<Entry>,
}

impl Model for GhostLog {
    ghost use Rattle.std.specs.Prelude.{◌+◌, ◌++◌, length, vec_len, vec_capacity};
    ghost use Rattle.txc_chan.specs.Log.{LogView, IsForgotten};

    ghost Value = { LogView };

    ghost view = { λ log. record {
      entries = log.before ++ log.pending.items;
      undoable = vec_len log.pending;
      room = log.settled + vec_capacity log.pending;
    } };

    ghost invariant = { λ log. IsForgotten (length log.before) log.settled (vec_len log.pending) };
}

impl Log for GhostLog {
    ghost use Rattle.std.specs.Prelude.{◌≤◌, ◌+◌, length, false};
    ghost use Rattle.txc_base.specs.declared.limits.TheConstants.{GREATEST_NUMBER};

    ghost entries = { λ log. log.entries };

    ghost undoable = { λ log. log.undoable };

    ghost HasRoom = { λ log more. (length log.entries + more ≤ log.room)
        × (length log.entries + more ≤ GREATEST_NUMBER) };

    ghost HasSettledRoom = { λ log. length log.entries + 1 ≤ GREATEST_NUMBER };

    ghost shelves = { false };

    fn shelves() -> bool {
        false
    }

    fn new(alloc: Global) -> Self {
        GhostLog {
            before: GhostList::new(),
            settled: 0,
            pending: Vec::new(alloc),
        }
    }

    fn allocator(&self) -> Global {
        *self.pending.allocator()
    }

    fn reserve(&mut self, more: usize) -> Result<(), AllocError> {
        // Memory bounds only the pending entries, not the number of all entries.
        if usize::MAX - (self.settled + self.pending.len()) < more {
            return Err(AllocError);
        }
        self.pending.reserve(more)
    }

    fn push_reserved(&mut self, entry: Entry) {
        self.pending.push_reserved(entry);
    }

    fn reserve_settled(&mut self) -> Result<(), AllocError> {
        if self.settled + self.pending.len() == usize::MAX {
            return Err(AllocError);
        }
        Ok(())
    }

    fn push_settled(&mut self, entry: &Entry) {
        self.before.push(entry);
        self.settled += 1;
    }

    fn pop(&mut self) -> Option<Entry> {
        self.pending.pop()
    }

    fn len(&self) -> usize {
        self.settled + self.pending.len()
    }

    fn undoable(&self) -> usize {
        self.pending.len()
    }

    fn entry(&self, place: usize) -> Option<Entry> {
        self.pending.as_slice().get(place - self.settled).copied()
    }

    fn settle(&mut self) {
        self.settled += self.pending.len();
        self.before.add(&self.pending);
        self.pending.clear();
    }
}
