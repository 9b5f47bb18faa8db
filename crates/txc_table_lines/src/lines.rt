// The locks of a table's lines.
ghost use Rattle.std.specs.Prelude.{◌≡◌, length, map};

use std::marker::Model;
use txc_chan::Log;
use txc_table_line::LineLock;

mod lock_order;

pub use lock_order::LockOrder;

/// The lines of a table, each under a lock of its own. Only a `LockOrder` locks some of them. In a contract it is the
/// list of them.
#[derive(Drop)]
pub struct Lines<K: Log> {
    locks: Vec<LineLock<K>>,
}

impl<K: Log> Model for Lines<K> {
    ghost use Rattle.std.specs.Prelude.{List, map};
    ghost use Rattle.txc_table_line.specs.Line.{LineId};

    ghost Value = { List LineId };

    ghost view = { λ lines. map (λ lock. lock.label.value.line) lines.locks.items };
}

impl<K: Log> Lines<K> {
    /// Makes the lines of a table with these locks.
    pub(crate) fn new(locks: Vec<LineLock<K>>) -> Lines<K>
        ensures { result ≡ map (λ lock. lock.label.value.line) locks.items }
    {
        Lines { locks }
    }

    /// Returns the locks. The table then has no lines.
    pub(crate) fn into_locks(self) -> Vec<LineLock<K>>
        ensures { map (λ lock. lock.label.value.line) result.items ≡ self }
    {
        self.locks
    }

    /// Returns how many lines there are.
    pub fn len(&self) -> usize
        ensures { result ≡ length self.now }
    {
        self.locks.len()
    }
}
