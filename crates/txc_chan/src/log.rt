// How a channel stores its log.
ghost use Rattle.std.specs.Prelude.{◌≡◌, ◌≤◌, ◌<◌, ◌+◌, ◌++◌, ◌∷◌, [], length, slice_get, OnOk, IfSome, IsSome};
ghost use Rattle.txc_base.specs.declared.limits.TheConstants.{GREATEST_NUMBER};

use std::alloc::{AllocError, Global};
use txc_base::Entry;

/// The log of a channel, whose last entries can be undone. A type that implements this decides how much of the log is
/// in memory; contracts speak of all of it. No method blocks, and only `reserve` and `reserve_settled` can allocate.
pub trait Log: Drop {
    ghost use Rattle.std.specs.Prelude.{Bool, ℕ, List};
    ghost use Rattle.txc_base.specs.declared.entry.Entry.{Entry};

    /// All entries, in order.
    ghost entries: { Self → List Entry };

    /// How many of the last entries can be undone.
    ghost undoable: { Self → ℕ };

    /// Whether there is room for this many more entries.
    ghost HasRoom: { Self → ℕ → Type 0 };

    /// Whether there is room for one more entry that is final at once.
    ghost HasSettledRoom: { Self → Type 0 };

    /// Whether a broadcast channel with this type of log has its items on a shelf, from which none is removed.
    ghost shelves: { Bool };

    /// Returns whether a broadcast channel with this type of log has its items on a shelf.
    fn shelves() -> bool
        ensures { result ≡ shelves };

    /// Creates a log with no entries.
    fn new(alloc: Global) -> Self
        ensures entries { entries result ≡ [] }
        ensures undoable { undoable result ≡ 0 };

    /// Returns its allocator.
    fn allocator(&self) -> Global;

    /// Makes room for this many more entries. Returns `AllocError` if allocation fails or if there would be more than
    /// `GREATEST_NUMBER` entries.
    fn reserve(&mut self, more: usize) -> Result<(), AllocError>
        ensures room { OnOk result ((n : ℕ) → n ≤ more → HasRoom self.new n) }
        ensures few { OnOk result (length (entries self.old) + more ≤ GREATEST_NUMBER) }
        ensures entries { entries self.new ≡ entries self.old }
        ensures undoable { undoable self.new ≡ undoable self.old };

    /// Adds an entry. There must be room for it.
    fn push_reserved(&mut self, entry: Entry)
        requires { HasRoom self.old 1 }
        ensures entries { entries self.new ≡ entries self.old ++ entry ∷ [] }
        ensures undoable { undoable self.new ≡ undoable self.old + 1 }
        ensures room { (n : ℕ) → HasRoom self.old (n + 1) → HasRoom self.new n };

    /// Makes room for one entry that is final at once. Returns `AllocError` like `reserve`.
    fn reserve_settled(&mut self) -> Result<(), AllocError>
        ensures room { OnOk result (HasSettledRoom self.new) }
        ensures few { OnOk result (length (entries self.old) + 1 ≤ GREATEST_NUMBER) }
        ensures entries { entries self.new ≡ entries self.old }
        ensures undoable { undoable self.new ≡ undoable self.old };

    /// Adds an entry that is final at once. There must be room for it, and no entry that can be undone.
    fn push_settled(&mut self, entry: &Entry)
        requires room { HasSettledRoom self.old }
        requires clean { undoable self.old ≡ 0 }
        ensures entries { entries self.new ≡ entries self.old ++ entry.now ∷ [] }
        ensures undoable { undoable self.new ≡ 0 };

    /// Removes the last entry and returns it. There must be an entry that can be undone.
    fn pop(&mut self) -> Option<Entry>
        requires { 0 < undoable self.old }
        ensures some { IsSome result }
        ensures entries { IfSome result (λ entry. entries self.old ≡ entries self.new ++ entry ∷ []) }
        ensures undoable { undoable self.old ≡ undoable self.new + 1 };

    /// Returns the number of entries.
    fn len(&self) -> usize
        ensures { result ≡ length (entries self.now) };

    /// How many of the last entries can be undone.
    fn undoable(&self) -> usize
        ensures { result ≡ undoable self.now };

    /// Returns the entry at this place, from 0, or `None` past the end. The place must be at or past the first entry
    /// that can be undone.
    fn entry(&self, place: usize) -> Option<Entry>
        requires { length (entries self.now) ≤ place + undoable self.now }
        ensures { result ≡ slice_get (entries self.now) place };

    /// Makes all entries final: none of them can be undone.
    fn settle(&mut self)
        ensures entries { entries self.new ≡ entries self.old }
        ensures undoable { undoable self.new ≡ 0 };
}
