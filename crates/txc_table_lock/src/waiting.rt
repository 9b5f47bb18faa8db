// How a thread takes a lock and releases it.
ghost use Rattle.std.specs.Prelude.{◌≡◌, IfSome};
ghost use Rattle.txc_table_lock.specs.Lock.{HasValue};

use crate::lock::{Lock, LockToken};
use crate::rule::LockInvariant;
use crate::steps::is_free;
use crate::words::{AWAITED, CLAIMED, FREE, STATE, TAKEN};
use atomic_table::Seat;
use std::hint::spin_loop;
use std::sync::{MutexGuard, Wait};
use std::thread::yield_now;

/// The maximum number of pauses between two tries.
const MAX_PAUSES: u32 = 64;

/// How many tries have pauses before them. Before each later one, the thread lets other threads run.
const PAUSED_TRIES: u32 = 12;

/// How often a thread that waits in its turn reads the word of a taken lock in a loop.
const LOOKS: u32 = 100;

/// How often a thread lets other threads run and looks again, before it sleeps.
const YIELDS: u32 = 30;

/// How often a thread sleeps before it claims the lock.
const MAX_SLEEPS: u32 = 2;

impl<X: Drop, G, F: LockInvariant<X, G>> Lock<X, G, F> {
    /// Takes the lock and returns its value. If the lock is taken, the thread looks again `tries` times: 12 times after
    /// pauses that get longer, and then after it has let other threads run. Then it blocks: it waits for its turn in
    /// the lock's queue, and only the first thread of the queue waits for the lock. A thread that already has the lock
    /// blocks for ever.
    pub fn lock<R: Wait>(&self, rt: &R, tries: u32) -> LockToken<X, G>
        ensures of { result.seat.table_id ≡ self.now.id }
        ensures has { HasValue (F.holds self.now.label) result.seat.me }
    {
        if let Some(token) = self.try_take(FREE) {
            return token;
        }
        self.wait(rt, tries)
    }

    /// Returns the value to the lock and releases the lock. Wakes a thread that sleeps until the lock is free.
    pub fn unlock(&self, token: LockToken<X, G>)
        requires of { token.seat.table_id ≡ self.now.id }
        requires has { HasValue (F.holds self.now.label) token.seat.me }
    {
        let LockToken { mut seat } = token;
        if !self.leave(&mut seat, TAKEN) {
            self.wake(&mut seat);
        }
    }

    // Releases the lock and wakes a thread that may sleep. While a lock is taken, its word only rises. So a word that
    // is neither `TAKEN` nor `AWAITED` is `CLAIMED`.
    #[cold]
    #[inline(never)]
    fn wake(&self, seat: &mut Seat<X, G>)
        requires of { seat.old.table_id ≡ self.now.id }
        requires has { HasValue (F.holds self.now.label) seat.old.me }
    {
        if !self.leave(seat, AWAITED) {
            self.hand_over(seat);
        }
        self.table.shared.wake_one(STATE);
    }

    // Waits for the lock, and takes it.
    #[cold]
    #[inline(never)]
    fn wait<R: Wait>(&self, rt: &R, tries: u32) -> LockToken<X, G>
        ensures of { result.seat.table_id ≡ self.now.id }
        ensures has { HasValue (F.holds self.now.label) result.seat.me }
    {
        if let Some(token) = self.try_again(tries) {
            return token;
        }
        let turn = self.wait_for_turn(rt);
        let token = self.wait_in_turn(rt);
        drop(turn);
        token
    }

    // Waits until this thread is the first one of the queue. It is until the result is dropped.
    fn wait_for_turn<R: Wait>(&self, rt: &R) -> MutexGuard<'_, ()> {
        for _ in 0..YIELDS {
            if let Some(turn) = self.queue.try_lock() {
                return turn;
            }
            yield_now();
        }
        self.queue.lock(rt)
    }

    // Takes the lock if it is free at one of `tries` looks. Before each of the first ones there are pauses, which get
    // longer. Returns `None` if each look found the lock taken.
    fn try_again(&self, tries: u32) -> Option<LockToken<X, G>>
        ensures of { IfSome result (λ token. token.seat.table_id ≡ self.now.id) }
        ensures has { IfSome result (λ token. HasValue (F.holds self.now.label) token.seat.me) }
    {
        let mut pauses = 1u32;
        for look in 0..tries {
            if look < PAUSED_TRIES {
                for _ in 0..pauses {
                    spin_loop();
                }
                pauses = pauses.saturating_mul(2).min(MAX_PAUSES);
            } else {
                yield_now();
            }
            // A try takes the word's cache line from the thread that has the lock. A look does not.
            if self.table.shared.peek(STATE) == FREE {
                if let Some(token) = self.try_take(FREE) {
                    return Some(token);
                }
            }
        }
        None
    }

    // Takes the lock as the first thread of the queue. No other thread sleeps at the lock meanwhile, so the thread that
    // takes the lock writes `TAKEN`. Other threads can take the lock before a woken thread does. After some sleeps this
    // thread claims the lock, which is then reserved for it.
    fn wait_in_turn<R: Wait>(&self, rt: &R) -> LockToken<X, G>
        ensures of { result.seat.table_id ≡ self.now.id }
        ensures has { HasValue (F.holds self.now.label) result.seat.me }
    {
        let mut sleeps = 0u32;
        for _ in rt.forever() {
            let seen = self.look();
            if is_free(seen) {
                if let Some(token) = self.try_take(seen) {
                    return token;
                }
            } else if self.sleep(rt, seen, sleeps >= MAX_SLEEPS) {
                sleeps = sleeps.saturating_add(1);
            }
        }
        unreachable!()
    }

    // Reads the word until it differs from `TAKEN`, and returns it. Returns `TAKEN` if it still is after all looks.
    fn look(&self) -> u64 {
        for look in 0..LOOKS + YIELDS {
            let seen = self.table.shared.peek(STATE);
            if seen != TAKEN {
                return seen;
            }
            if look < LOOKS {
                spin_loop();
            } else {
                yield_now();
            }
        }
        TAKEN
    }

    // Records in the word that a thread sleeps for the lock or claims it, and sleeps. Returns `false` without sleeping
    // if the word is no longer `seen`.
    fn sleep<R: Wait>(&self, rt: &R, seen: u64, claims: bool) -> bool {
        let wanted = if claims { CLAIMED } else { AWAITED };
        if seen < wanted && !self.mark(seen, wanted) {
            return false;
        }
        self.table.shared.park(rt, STATE, wanted as u32);
        true
    }
}
