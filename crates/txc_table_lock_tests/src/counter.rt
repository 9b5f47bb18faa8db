// A counter under a lock.
ghost use Rattle.std.specs.Prelude.{◌≡◌};

use std::marker::Model;
use std::sync::Wait;
use txc_table_lock::{Lock, LockInvariant, LockToken};

/// A number that grows by the same step each time.
#[derive(Drop)]
pub struct Counter {
    /// By how much it grows.
    pub step: u64,
    /// The number.
    pub count: u64,
}

/// A counter fits the label that is its step.
pub struct HasStep;

impl LockInvariant<Counter, u64> for HasStep {
    ghost use Rattle.std.specs.Prelude.{◌≡◌};

    ghost holds = { λ step counter. counter.step ≡ step };
}

/// A counter whose lock is taken. The lock is free again when this is dropped. In a contract it is the counter's step.
pub struct Guard<'a> {
    lock: &'a Lock<Counter, u64, HasStep>,
    token: LockToken<Counter, u64>,
}

impl<'a> Model for Guard<'a> {
    ghost use Rattle.std.specs.Prelude.{◌≡◌, ℕ};
    ghost use Rattle.txc_table_lock.specs.Lock.{HasValue};

    ghost Value = { ℕ };

    ghost view = { λ guard. guard.lock.now.label };

    ghost invariant = { λ guard. (guard.token.seat.table_id ≡ guard.lock.now.id)
        × HasValue (λ counter. counter.step ≡ guard.lock.now.label) guard.token.seat.me };
}

impl<'a> Guard<'a> {
    /// Takes the lock. It blocks while another thread has it, and does not allocate.
    pub fn take<R: Wait>(rt: &R, lock: &'a Lock<Counter, u64, HasStep>, tries: u32) -> Guard<'a>
        ensures { result ≡ lock.now.label }
    {
        let token = lock.lock(rt, tries);
        Guard { lock, token }
    }

    /// Adds the step to the number, and returns the step. It never blocks and does not allocate.
    pub fn add(&mut self) -> u64
        ensures step { result ≡ self.old }
        ensures same { self.new ≡ self.old }
    {
        let counter = self.token.seat.slot_mut(self.lock.shared(), 0);
        counter.count = counter.count.wrapping_add(counter.step);
        counter.step
    }
}

impl Drop for Guard<'_> {
    fn drop(self) {
        let Guard { lock, token } = self;
        lock.unlock(token);
    }
}
