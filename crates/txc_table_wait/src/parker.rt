// What wakes a seat that waits.
ghost use Rattle.std.specs.Prelude.{◌≡◌, IfOk};
ghost use Rattle.std.specs.Vec.{vec_len};

use crate::waiters::WaiterState;
use crossbeam_utils::CachePadded;
use std::alloc::{AllocError, Global};
use std::hint::spin_loop;
use std::sync::Condvar;
use std::sync::atomic::AtomicBool;
use std::sync::atomic::Ordering::SeqCst;
use std::thread::yield_now;

/// How many times a seat first looks whether it was notified, in a spin loop of about two microseconds.
const LOOKS: u32 = 200;

/// How many times the seat then yields to other threads and looks again, before it sleeps.
const YIELDS: u32 = 15;

/// What wakes a seat that waits.
#[derive(Drop)]
pub(crate) struct Parker {
    // Whether the seat was notified or stalled since it registered. The flag follows the seat's state and is written
    // only under the lock of the states. It can be read without the lock, so that a seat can poll its own flag.
    flag: CachePadded<AtomicBool>,
    // Notified when the seat's state changes while it sleeps.
    pub(crate) changed: Condvar,
}

/// Creates the parkers of this number of seats. None of them was notified or stalled.
pub(crate) fn make_parkers(alloc: Global, seats: usize) -> Result<Vec<Parker>, AllocError>
    ensures { IfOk result (λ parkers. vec_len parkers ≡ seats) }
{
    let mut parkers = Vec::with_capacity(alloc, seats)?;
    for _made in 0..seats {
        parkers.push(Parker {
            flag: CachePadded::new(AtomicBool::new(false)),
            changed: Condvar::new(),
        })?;
    }
    Ok(parkers)
}

impl Parker {
    /// Returns whether the seat was notified or stalled since it registered.
    pub(crate) fn is_woken(&self) -> bool {
        self.flag.load(SeqCst)
    }

    /// Publishes outside the lock of the states whether the seat was notified or stalled. This is its state.
    pub(crate) fn show(&self, state: WaiterState) {
        self.flag.store(state.was_woken(), SeqCst);
    }

    /// Polls for a while whether the seat was notified or stalled, before it waits under the lock.
    pub(crate) fn spin(&self) {
        for look in 0..LOOKS + YIELDS {
            if self.is_woken() {
                break;
            }
            if look < LOOKS {
                spin_loop();
            } else {
                yield_now();
            }
        }
    }
}
