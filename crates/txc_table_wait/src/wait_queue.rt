// The wait queue.
ghost use Rattle.std.specs.Prelude.{◌≡◌, ◌≤◌, ◌-◌, IfNone, IfOk, IfSome, false, min, true};
ghost use Rattle.std.specs.Duration.{as_nanos};
ghost use Rattle.std.specs.Time.{instant_nanos};
ghost use Rattle.txc_base.specs.declared.limits.TheConstants.{MAX_SEATS_OF_LARGE};

use crate::change::{Change, Interest};
use crate::interested_seats::{InterestedSeats, make_interested};
use crate::parker::{Parker, make_parkers};
use crate::seats::{Seats, bit_of};
use crate::waiters::Waiters;
use crossbeam_utils::CachePadded;
use std::alloc::{AllocError, Global};
use std::marker::Model;
use std::sync::{Mutex, Wait};
use std::time::{Clock, Duration, Instant};
use txc_base::MAX_SEATS_OF_LARGE;

/// A wait queue: seats wait at it for commits that change channels as they need. Threads share it by reference. Each
/// seat registers and waits in one thread at a time, under its number, and leaves once, after its last wait.
///
/// Channels and seats are numbered from 0. A wait queue ignores channels that it does not have. It treats a seat that
/// it does not have like a seat that has left: the seat is never notified, and its waits return at once.
#[derive(Drop)]
pub struct WaitQueue {
    // For each channel, the seats that wait for it.
    interested: Vec<InterestedSeats>,
    // For each seat, what wakes it.
    parkers: Vec<Parker>,
    waiters: CachePadded<Mutex<Waiters>>,
}

impl Model for WaitQueue {
    ghost use Rattle.std.specs.Vec.{vec_len};
    ghost use Rattle.txc_table_wait.specs.Size.{Size};

    ghost Value = { Size };

    ghost view = { λ wait_queue. record
        { channels = vec_len wait_queue.interested; seats = vec_len wait_queue.parkers } };
}

/// Returns the time left from `now` until `until`: zero if it has passed, or if there is no `now`.
fn left_at(now: Option<Instant>, until: Instant) -> Duration
    ensures some { IfSome now (λ time. as_nanos result ≡ instant_nanos until - instant_nanos time) }
    ensures none { IfNone now (as_nanos result ≡ 0) }
{
    match now {
        Some(time) => until.saturating_duration_since(time),
        None => Duration::ZERO,
    }
}

/// Returns the time left until `until`: zero if it has passed or if the clock cannot be read.
fn time_left<R: Clock>(rt: &R, until: Instant) -> Duration {
    left_at(Instant::now(rt).ok(), until)
}

impl WaitQueue {
    /// Creates a wait queue for this number of channels and this number of seats, but at most 64 seats. No seat waits
    /// or has left. Returns `AllocError` if an allocation fails. Allocates.
    pub fn new(alloc: Global, channels: u16, seats: u16) -> Result<WaitQueue, AllocError>
        ensures channels { IfOk result (λ wait_queue. wait_queue.channels ≡ channels) }
        ensures seats { IfOk result (λ wait_queue. wait_queue.seats ≡ min seats MAX_SEATS_OF_LARGE) }
    {
        let seats = usize::from(seats).min(MAX_SEATS_OF_LARGE);
        let interested = make_interested(alloc, usize::from(channels))?;
        let parkers = make_parkers(alloc, seats)?;
        let waiters = Waiters::new(alloc, seats)?;
        Ok(WaitQueue {
            interested,
            parkers,
            waiters: CachePadded::new(Mutex::new(waiters)),
        })
    }

    /// Registers a seat that is about to wait for these changes: from now on, a notification for one of them ends its
    /// next wait. The seat must try once more before it waits. Blocks only for the wait queue's lock.
    pub fn register<R: Wait>(&self, rt: &R, seat: u16, interests: &[Interest]) {
        let index = usize::from(seat);
        let Some(parker) = self.parkers.get(index) else {
            return;
        };
        if parker.is_woken() {
            let mut waiters = self.waiters.lock(rt);
            waiters.register(index);
            parker.show(waiters.state(index));
        }
        let bit = 1u64 << bit_of(seat);
        for interest in interests {
            if let Some(interested) = self.interested.get(usize::from(interest.chan)) {
                interested.add(interest.change, bit);
            }
        }
    }

    /// Unregisters a seat from these changes. If it is not called, the seat can be notified once too often.
    pub fn unregister(&self, seat: u16, interests: &[Interest]) {
        if usize::from(seat) >= self.parkers.len() {
            return;
        }
        let bit = 1u64 << bit_of(seat);
        for interest in interests {
            if let Some(interested) = self.interested.get(usize::from(interest.chan)) {
                interested.remove(bit);
            }
        }
    }

    /// Removes and returns the seats that wait for this change of a channel; for `Any`, all seats that wait for a
    /// change of it. The caller must notify them, because they are no longer registered there: [`Seats`] cannot be
    /// dropped.
    pub fn take_registered(&self, chan: u16, change: Change) -> Seats
        ensures { self.now.channels ≤ chan → result.bits ≡ 0 }
    {
        match self.interested.get(usize::from(chan)) {
            Some(interested) => Seats {
                bits: interested.take_bits(change),
            },
            None => Seats::none(),
        }
    }

    /// Notifies these seats: each that is registered or waits tries again. Call it after a commit, once its locks are
    /// released. Does nothing if there are no seats. Blocks only for the wait queue's lock.
    #[inline(always)]
    pub fn notify<R: Wait>(&self, rt: &R, seats: Seats) {
        if seats.bits == 0 {
            let Seats { bits: _ } = seats;
        } else {
            self.notify_some(rt, seats);
        }
    }

    // Notifies these seats. There must be at least one.
    #[cold]
    #[inline(never)]
    fn notify_some<R: Wait>(&self, rt: &R, seats: Seats) {
        let mut notified = seats;
        let mut waited = Seats::none();
        {
            let mut waiters = self.waiters.lock(rt);
            while let Some(seat) = notified.pop() {
                if waiters.state(seat).awaits() {
                    waited.bits |= 1 << seat;
                }
                waiters.notify(seat);
                if let Some(parker) = self.parkers.get(seat) {
                    parker.show(waiters.state(seat));
                }
            }
        }
        while let Some(seat) = waited.pop() {
            if let Some(parker) = self.parkers.get(seat) {
                parker.changed.notify_all();
            }
        }
        let Seats { bits: _ } = notified;
        let Seats { bits: _ } = waited;
    }

    /// Blocks until this seat is notified, or until each seat that has not left waits with no deadline. In the second
    /// case no seat can proceed by itself, which is a stall: the waits of all these seats return `false`. Otherwise
    /// returns `true`. Returns at once if this seat was notified since it registered, or if each other seat that has
    /// not left already waits with no deadline. Blocks forever if a seat that has not left never notifies, waits or
    /// leaves again. Returns `true` at once if the wait queue has no such seat.
    pub fn wait<R: Wait>(&self, rt: &R, seat: u16) -> bool
        ensures { self.now.seats ≤ seat → result ≡ true }
    {
        let seat = usize::from(seat);
        let Some(parker) = self.parkers.get(seat) else {
            return true;
        };
        parker.spin();
        let mut waiters = self.waiters.lock(rt);
        if waiters.wait(seat) {
            self.stall(&waiters);
        }
        let awaits = |waiters: &mut Waiters| waiters.state(seat).awaits();
        let mut waiters = parker.changed.wait_while(rt, waiters, awaits);
        let was_notified = waiters.end_wait(seat);
        parker.show(waiters.state(seat));
        was_notified
    }

    /// Blocks until this seat is notified, or until the time `until`. Returns `true` as soon as the seat has been
    /// notified since it registered, and `false` if the time passes first. Until the time has passed, the seat counts
    /// as running, because it proceeds by itself: no seat stalls, and this seat never does. The seat does not wait if
    /// the time has already passed or the clock cannot be read, and returns `false` at once if the wait queue has no
    /// such seat.
    pub fn wait_until<R: Wait + Clock>(&self, rt: &R, seat: u16, until: Instant) -> bool
        ensures { self.now.seats ≤ seat → result ≡ false }
    {
        let seat = usize::from(seat);
        let Some(parker) = self.parkers.get(seat) else {
            return false;
        };
        let left = time_left(rt, until);
        let mut waiters = if left.is_zero() {
            self.waiters.lock(rt)
        } else {
            parker.spin();
            let mut waiters = self.waiters.lock(rt);
            waiters.wait_until(seat);
            let awaits = |waiters: &mut Waiters| waiters.state(seat).awaits();
            parker
                .changed
                .wait_timeout_while(rt, waiters, left, awaits)
                .0
        };
        let was_notified = waiters.end_wait_until(seat);
        parker.show(waiters.state(seat));
        was_notified
    }

    /// Removes a seat that will not wait again. If each other seat waits with no deadline or has left, the waiting
    /// seats stall: their waits return `false`. Blocks only for the wait queue's lock.
    pub fn leave<R: Wait>(&self, rt: &R, seat: u16) {
        let mut waiters = self.waiters.lock(rt);
        if waiters.leave(usize::from(seat)) {
            self.stall(&waiters);
        }
    }

    // Publishes the states of all seats after a stall, and notifies them.
    fn stall(&self, waiters: &Waiters) {
        for (seat, parker) in self.parkers.iter().enumerate() {
            parker.show(waiters.state(seat));
            parker.changed.notify_all();
        }
    }
}
