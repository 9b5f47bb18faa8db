// The states of the seats of a wait queue.
ghost use Rattle.std.specs.Prelude.{◌≡◌, not, map, replicate, slice_set, IfOk};
ghost use Rattle.std.specs.List.{list_all};
ghost use Rattle.txc_table_wait.specs.declared.waiters.WaiterState.TheVariants.{Left, Running};
ghost use Rattle.txc_table_wait.specs.Waiters.{awaits, is_blocked, registered, after_check, state_at};
ghost use Rattle.txc_table_wait.specs.Waiters.{notified, stalled, waiting, waiting_until};
ghost use Rattle.txc_table_wait.specs.Waiters.{was_notified, was_stalled, was_woken};

use std::alloc::{AllocError, Global};
use std::marker::Model;

/// The state of a seat of a wait queue.
#[derive(Clone, Copy, PartialEq, Eq)]
pub(crate) enum WaiterState {
    /// The seat was neither notified nor stalled since it registered.
    Running,
    /// The seat was notified since it registered.
    Notified,
    /// The seat waits, with no deadline.
    Waits,
    /// The seat waits until a deadline. Then it proceeds by itself, so it counts as running.
    WaitsUntil,
    /// The seat waited with no deadline while each other seat also did or had left.
    Stalled,
    /// The seat has left, or the wait queue has no such seat.
    Left,
}

impl WaiterState {
    /// Returns the state after the seat registers: an earlier notification or stall is forgotten.
    fn registered(self) -> WaiterState
        ensures { result ≡ registered self }
    {
        match self {
            WaiterState::Left => WaiterState::Left,
            _ => WaiterState::Running,
        }
    }

    /// Returns the state after the seat is notified.
    fn notified(self) -> WaiterState
        ensures { result ≡ notified self }
    {
        match self {
            WaiterState::Running | WaiterState::Waits | WaiterState::WaitsUntil =>
                WaiterState::Notified,
            other => other,
        }
    }

    /// Returns the state after the seat begins to wait with no deadline. It waits only if it was `Running`.
    fn waiting(self) -> WaiterState
        ensures { result ≡ waiting self }
    {
        match self {
            WaiterState::Running => WaiterState::Waits,
            other => other,
        }
    }

    /// Returns the state after the seat begins to wait until a deadline. It waits only if it was `Running`.
    fn waiting_until(self) -> WaiterState
        ensures { result ≡ waiting_until self }
    {
        match self {
            WaiterState::Running => WaiterState::WaitsUntil,
            other => other,
        }
    }

    /// Returns the state after a stall. A seat that waits until a deadline does not stall.
    fn stalled(self) -> WaiterState
        ensures { result ≡ stalled self }
    {
        match self {
            WaiterState::Waits => WaiterState::Stalled,
            other => other,
        }
    }

    /// Returns whether the seat was notified or stalled since it registered.
    pub(crate) fn was_woken(self) -> bool
        ensures { result ≡ was_woken self }
    {
        matches!(self, WaiterState::Notified | WaiterState::Stalled)
    }

    /// Returns whether the seat was notified since it registered.
    fn was_notified(self) -> bool
        ensures { result ≡ was_notified self }
    {
        matches!(self, WaiterState::Notified)
    }

    /// Returns whether the seat stalled since it registered.
    fn was_stalled(self) -> bool
        ensures { result ≡ was_stalled self }
    {
        matches!(self, WaiterState::Stalled)
    }

    /// Returns whether the seat waits, with a deadline or without.
    pub(crate) fn awaits(self) -> bool
        ensures { result ≡ awaits self }
    {
        matches!(self, WaiterState::Waits | WaiterState::WaitsUntil)
    }

    /// Returns whether the seat waits with no deadline or has left, so that it cannot proceed by itself.
    fn is_blocked(self) -> bool
        ensures { result ≡ is_blocked self }
    {
        matches!(self, WaiterState::Waits | WaiterState::Left)
    }
}

/// The state of each seat of a wait queue.
#[derive(Drop)]
pub(crate) struct Waiters {
    states: Vec<WaiterState>,
}

impl Model for Waiters {
    ghost use Rattle.std.specs.Prelude.{List};
    ghost use Rattle.txc_table_wait.specs.declared.waiters.WaiterState.{WaiterState};

    ghost Value = { List WaiterState };

    ghost view = { λ waiters. waiters.states.items };
}

impl Waiters {
    /// Creates the states of this number of seats. None of them waits or has left. Returns `AllocError` if the
    /// allocation fails. Allocates.
    pub(crate) fn new(alloc: Global, seats: usize) -> Result<Waiters, AllocError>
        ensures { IfOk result (λ waiters. waiters ≡ replicate seats Running) }
    {
        let states = vec![in alloc; WaiterState::Running; seats]?;
        Ok(Waiters { states })
    }

    /// Returns the state of a seat: `Left` if there is no such seat.
    pub(crate) fn state(&self, seat: usize) -> WaiterState
        ensures { result ≡ state_at self.now seat }
    {
        if seat >= self.states.len() {
            return WaiterState::Left;
        }
        self.states[seat]
    }

    /// Changes the state of a seat. Does nothing if there is no such seat.
    fn set(&mut self, seat: usize, state: WaiterState)
        ensures { self.new ≡ slice_set self.old seat state }
    {
        if seat < self.states.len() {
            self.states[seat] = state;
        }
    }

    /// Records that a seat registers: an earlier notification or stall is forgotten.
    pub(crate) fn register(&mut self, seat: usize)
        ensures { self.new ≡ slice_set self.old seat (registered (state_at self.old seat)) }
    {
        self.set(seat, self.state(seat).registered());
    }

    /// Ends a seat's wait with no deadline. Returns `false` if the seat stalled since it registered, and `true` in each
    /// other state, also if there is no such seat. The notification or stall is forgotten.
    pub(crate) fn end_wait(&mut self, seat: usize) -> bool
        ensures is { result ≡ not (was_stalled (state_at self.old seat)) }
        ensures new { self.new ≡ slice_set self.old seat (registered (state_at self.old seat)) }
    {
        let was_stalled = self.state(seat).was_stalled();
        self.register(seat);
        !was_stalled
    }

    /// Ends a seat's wait until a deadline. Returns `true` if the seat was notified since it registered, and `false` in
    /// each other state, also if there is no such seat. The notification is forgotten, and the seat no longer waits.
    pub(crate) fn end_wait_until(&mut self, seat: usize) -> bool
        ensures is { result ≡ was_notified (state_at self.old seat) }
        ensures new { self.new ≡ slice_set self.old seat (registered (state_at self.old seat)) }
    {
        let was_notified = self.state(seat).was_notified();
        self.register(seat);
        was_notified
    }

    /// Records that a seat is notified.
    pub(crate) fn notify(&mut self, seat: usize)
        ensures { self.new ≡ slice_set self.old seat (notified (state_at self.old seat)) }
    {
        self.set(seat, self.state(seat).notified());
    }

    /// Returns whether each seat waits with no deadline or has left.
    fn is_blocked(&self) -> bool
        ensures { result ≡ list_all is_blocked self.now }
    {
        self.states.iter().all(|state| state.is_blocked())
    }

    /// Stalls all seats that wait with no deadline.
    fn stall(&mut self)
        ensures { self.new ≡ map stalled self.old }
    {
        for seat in 0..self.states.len() {
            self.states[seat] = self.states[seat].stalled();
        }
    }

    /// Stalls all waiting seats if each seat waits with no deadline or has left. Returns whether that is so.
    fn check_for_stall(&mut self) -> bool
        ensures new { self.new ≡ after_check self.old }
        ensures is { result ≡ list_all is_blocked self.old }
    {
        let is_stall = self.is_blocked();
        if is_stall {
            self.stall();
        }
        is_stall
    }

    /// Records that a seat waits with no deadline, if it was `Running`. Returns whether each seat then waits with no
    /// deadline or has left, which is a stall.
    pub(crate) fn wait(&mut self, seat: usize) -> bool
        ensures new { self.new ≡ after_check (slice_set self.old seat (waiting (state_at self.old seat))) }
        ensures is { result ≡ list_all is_blocked (slice_set self.old seat (waiting (state_at self.old seat))) }
    {
        self.set(seat, self.state(seat).waiting());
        self.check_for_stall()
    }

    /// Records that a seat waits until a deadline, if it was `Running`. This never causes a stall.
    pub(crate) fn wait_until(&mut self, seat: usize)
        ensures { self.new ≡ slice_set self.old seat (waiting_until (state_at self.old seat)) }
    {
        self.set(seat, self.state(seat).waiting_until());
    }

    /// Records that a seat leaves. Returns whether each other seat waits with no deadline or has left, which is a
    /// stall.
    pub(crate) fn leave(&mut self, seat: usize) -> bool
        ensures new { self.new ≡ after_check (slice_set self.old seat Left) }
        ensures is { result ≡ list_all is_blocked (slice_set self.old seat Left) }
    {
        self.set(seat, WaiterState::Left);
        self.check_for_stall()
    }
}
