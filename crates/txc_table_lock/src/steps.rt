// The single steps on the word of a lock.
ghost use Rattle.std.specs.Prelude.{◌≡◌, IfSome, IsFalse, IsTrue};
ghost use Rattle.txc_table_lock.specs.Lock.{HasValue, IsFree};

use crate::lock::{Lock, LockToken};
use crate::rule::{Acquire, LockInvariant, Observe, Release};
use crate::words::{FREE, RESERVED, STATE, STILL, TAKEN};
use atomic_table::Seat;

/// Returns whether a lock with this word is free.
pub(crate) fn is_free(state: u64) -> bool
    ensures { IsTrue result → IsFree state }
{
    state == FREE || state == RESERVED
}

impl<X: Drop, G, F: LockInvariant<X, G>> Lock<X, G, F> {
    /// Takes the lock if its word is `free`, and returns the value. Returns `None` otherwise.
    pub(crate) fn try_take(&self, free: u64) -> Option<LockToken<X, G>>
        requires { IsFree free }
        ensures of { IfSome result (λ token. token.seat.table_id ≡ self.now.id) }
        ensures has { IfSome result (λ token. HasValue (F.holds self.now.label) token.seat.me) }
    {
        let shared = &self.table.shared;
        let (_, mut seat) = shared.load_new_seat::<Observe>(STILL);
        let found = shared.compare_exchange::<Acquire<F>>(&mut seat, STATE, free, TAKEN);
        if found == free {
            return Some(LockToken { seat });
        }
        None
    }

    /// Returns the value to the lock if the word is `taken`. Then the lock is free for any thread. The result says
    /// whether the word was `taken`.
    pub(crate) fn leave(&self, seat: &mut Seat<X, G>, taken: u64) -> bool
        requires of { seat.old.table_id ≡ self.now.id }
        requires has { HasValue (F.holds self.now.label) seat.old.me }
        ensures of { seat.new.table_id ≡ self.now.id }
        ensures has { IsFalse result → HasValue (F.holds self.now.label) seat.new.me }
    {
        let found = self
            .table
            .shared
            .compare_exchange::<Release>(seat, STATE, taken, FREE);
        found == taken
    }

    /// Returns the value to the lock and reserves the lock for the thread that has claimed it.
    pub(crate) fn hand_over(&self, seat: &mut Seat<X, G>)
        requires of { seat.old.table_id ≡ self.now.id }
        requires has { HasValue (F.holds self.now.label) seat.old.me }
    {
        self.table.shared.store::<Release>(seat, STATE, RESERVED);
    }

    /// Writes `taken` if the word is `seen`. Returns whether it did.
    pub(crate) fn mark(&self, seen: u64, taken: u64) -> bool
        requires { ¬ IsFree taken }
    {
        let shared = &self.table.shared;
        let (_, mut seat) = shared.load_new_seat::<Observe>(STILL);
        let found = shared.compare_exchange::<Observe>(&mut seat, STATE, seen, taken);
        found == seen
    }
}
