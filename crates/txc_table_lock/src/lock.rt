// A lock with a label.
ghost use Rattle.std.specs.Prelude.{◌≡◌, IfOk, IfSome};

use crate::rule::{LockInvariant, LockRule};
use crate::steps::is_free;
use crate::words::{NEW, STATE};
use atomic_table::{Refused, Seat, Shared, Table};
use crossbeam_utils::CachePadded;
use std::alloc::{AllocError, Global};
use std::marker::Model;
use std::sync::{Mutex, Wait};

/// A lock whose value fits a label whenever the lock is free. In a contract it is its label and an identity, which its
/// tokens share. If other data can be next to the value, the value should end with a cache line of unused bytes. The
/// queue of the threads that wait shares no cache line with other data.
#[derive(Drop)]
pub struct Lock<X, G, F: LockInvariant<X, G>> {
    pub(crate) table: Table<X, G, G, LockRule<F>, Global>,
    // Held by the thread that waits for the lock, until it has the lock.
    pub(crate) queue: CachePadded<Mutex<()>>,
}

impl<X, G, F: LockInvariant<X, G>> Model for Lock<X, G, F> {
    ghost use Rattle.std.specs.Prelude.{◌≡◌};
    ghost use Rattle.txc_table_lock.specs.Lock.{LockView};
    ghost use Rattle.txc_table_lock.specs.declared.words.TheConstants.{WORDS};

    ghost Value = { LockView G };

    ghost view = { λ lock. record { label = lock.table.shared.key; id = lock.table.shared.table_id } };

    ghost invariant = { λ lock. (lock.table.shared.table_id.words ≡ WORDS)
        × (lock.table.shared.table_id.slots ≡ 1) };
}

/// The right to use the value of a taken lock and to return it with `Lock::unlock`. `seat.slot_mut(lock.shared(), 0)`
/// lends the value. A token has no bytes and cannot be dropped.
pub struct LockToken<X, G> {
    /// The seat of the lock's table that has the value.
    pub seat: Seat<X, G>,
}

impl<X: Drop, G, F: LockInvariant<X, G>> Lock<X, G, F> {
    /// Makes a free lock of a value that fits the label. Fails with `AllocError` if allocation fails, and then drops
    /// the value.
    pub fn new(alloc: Global, value: X, label: &G) -> Result<Lock<X, G, F>, AllocError>
        requires holds { F.holds label.now value }
        ensures label { IfOk result (λ lock. lock.label ≡ label.now) }
    {
        let mut slots = Vec::with_capacity(alloc, 1)?;
        slots.push_reserved(value);
        match Table::new(alloc, &NEW, slots, label) {
            Ok((table, _seat)) => Ok(Lock {
                table,
                queue: CachePadded::new(Mutex::new(())),
            }),
            Err(Refused { slots: _ }) => Err(AllocError),
        }
    }

    /// Returns the argument of `Seat::slot_mut` that lends the value of a token.
    pub fn shared(&self) -> &Shared<X, G, G, LockRule<F>>
        ensures { result.now.table_id ≡ self.now.id }
    {
        &self.table.shared
    }

    // Returns the value, or `None` if the lock is taken.
    fn try_into_inner(self) -> Option<X>
        ensures { IfSome result (F.holds self.label) }
    {
        let Lock { table, queue: _ } = self;
        let mut closed = table.close();
        let state = closed.word(STATE);
        let value = closed.take(0);
        closed.free();
        if is_free(state) {
            return Some(value);
        }
        drop(value);
        None
    }

    /// Returns the value. Blocks for ever if the lock is taken, since its token was not returned.
    pub fn into_inner<R: Wait>(self, rt: &R) -> X
        ensures holds { F.holds self.label result }
    {
        if let Some(value) = self.try_into_inner() {
            return value;
        }
        for _ in rt.forever() {}
        unreachable!()
    }
}
