// Memory for the locks of a table's lines.
ghost use Rattle.std.specs.Prelude.{◌≤◌, length, IfOk};

use crate::lines::Lines;
use std::alloc::{AllocError, Global};
use std::marker::Model;
use txc_chan::Log;
use txc_table_line::LockedLine;

/// Memory for the locks of a table's lines, so that `Lines::lock_all` does not allocate. In a contract it is the number
/// of lines that it is enough for.
#[derive(Drop)]
pub struct LockBuffer<K: Log> {
    // Empty.
    pub(crate) lines: Vec<Option<LockedLine<K>>>,
}

impl<K: Log> Model for LockBuffer<K> {
    ghost use Rattle.std.specs.Prelude.{◌≡◌, [], ℕ, vec_capacity};

    ghost Value = { ℕ };

    ghost view = { λ room. vec_capacity room.lines };

    ghost invariant = { λ room. room.lines.items ≡ [] };
}

impl<K: Log> Lines<K> {
    /// Makes room for the locks of all lines. Returns `AllocError` if the allocation fails.
    pub fn lock_buffer(&self, alloc: Global) -> Result<LockBuffer<K>, AllocError>
        ensures { IfOk result (λ room. length self.now ≤ room) }
    {
        let lines = Vec::with_capacity(alloc, self.len())?;
        Ok(LockBuffer { lines })
    }
}
