// The lock of a line.
ghost use Rattle.std.specs.Prelude.{◌≡◌, IfOk};

use crate::line_chan::LineChan;
use std::alloc::{AllocError, Global};
use std::snapshot::Snapshot;
use std::sync::Wait;
use txc_chan::Log;
use txc_table_lock::{Lock, LockInvariant};

/// What the label of a line's lock says of the value: it is the channel of that line.
pub struct LineInvariant;

impl<K: Log> LockInvariant<LineChan<K>, Snapshot<LineChan<K>>> for LineInvariant {
    ghost use Rattle.std.specs.Prelude.{◌≡◌};

    ghost holds = { λ label channel. channel.line ≡ label.value.line };
}

/// The lock of a line. Its label says which line it is.
pub type LineLock<K> = Lock<LineChan<K>, Snapshot<LineChan<K>>, LineInvariant>;

/// The lock of a line, or a reference to it.
pub trait AsLineLock<K: Log>: Drop {
    ghost use Rattle.txc_table_lock.specs.Lock.{LockView};
    ghost use Rattle.txc_table_line.specs.Line.{LineId};

    /// Which line it is, and which lock.
    ghost of_line: { Self → LockView LineId };

    /// Returns a reference to the lock.
    fn lock(&self) -> &LineLock<K>
        ensures line { result.now.label.value.line ≡ (of_line self.now).label }
        ensures id { result.now.id ≡ (of_line self.now).id };
}

impl<K: Log> AsLineLock<K> for LineLock<K> {
    ghost of_line = { λ lock. record { label = lock.label.value.line; id = lock.id } };

    fn lock(&self) -> &LineLock<K> {
        self
    }
}

impl<'a, K: Log> AsLineLock<K> for &'a LineLock<K> {
    ghost of_line = { λ lock. record { label = lock.now.label.value.line; id = lock.now.id } };

    fn lock(&self) -> &LineLock<K> {
        self
    }
}

impl<K: Log> LineChan<K> {
    /// Puts the channel under a lock, which is free. Returns `AllocError` if an allocation fails; the channel is then
    /// dropped.
    pub fn into_lock(self, alloc: Global) -> Result<LineLock<K>, AllocError>
        ensures { IfOk result (λ lock. lock.label.value.line ≡ self.line) }
    {
        let label = Snapshot::of(&self);
        Lock::new(alloc, self, &label)
    }

    /// Takes the channel out of its lock, and undoes what was not committed. A lock whose guard was never dropped
    /// blocks for ever.
    pub fn from_lock<R: Wait>(rt: &R, lock: LineLock<K>) -> LineChan<K>
        ensures line { result.line ≡ lock.label.value.line }
        ensures clean { result.held.logged.pending ≡ 0 }
    {
        let mut channel = lock.into_inner(rt);
        channel.clean();
        channel
    }
}
