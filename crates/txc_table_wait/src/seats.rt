// A set of seats.
ghost use Rattle.std.specs.Prelude.{◌≡◌, ◌≢◌, ◌<◌, ◌↔◌, ◌%◌, ℕ, max, IfNone, IfSome, IsTrue};
ghost use Rattle.std.specs.Int.{bit_at};
ghost use Rattle.txc_base.specs.declared.limits.TheConstants.{MAX_SEATS_OF_LARGE};

use txc_base::MAX_SEATS_OF_LARGE;

/// Returns the number of the bit of a seat: its own number modulo `MAX_SEATS_OF_LARGE`.
pub(crate) fn bit_of(seat: u16) -> usize
    ensures few { result < MAX_SEATS_OF_LARGE }
    ensures state { result ≡ seat % MAX_SEATS_OF_LARGE }
{
    usize::from(seat) % MAX_SEATS_OF_LARGE
}

/// A set of seats of a table, stored as the bits of a number. The caller must notify them: the type is not `Drop`, and
/// only [`WaitQueue::notify`](crate::WaitQueue::notify) consumes it, so code that forgets the notification does not
/// compile.
pub struct Seats {
    pub(crate) bits: u64,
}

impl Seats {
    /// Returns the empty set.
    pub fn none() -> Seats
        ensures { result.bits ≡ 0 }
    {
        Seats { bits: 0 }
    }

    /// Returns whether the set is empty.
    pub fn is_empty(&self) -> bool
        ensures { IsTrue result ↔ (self.now.bits ≡ 0) }
    {
        self.bits == 0
    }

    /// Returns the union of two sets.
    pub fn union(self, others: Seats) -> Seats
        ensures { (n : ℕ) → bit_at result.bits n ≡ max (bit_at self.bits n) (bit_at others.bits n) }
    {
        let Seats { bits } = self;
        let Seats { bits: more } = others;
        Seats { bits: bits | more }
    }

    /// Returns the set without the seat with this number. That seat is then not notified: it must not wait before it
    /// registers again.
    pub fn without(self, seat: u16) -> Seats
        ensures gone { bit_at result.bits (seat % MAX_SEATS_OF_LARGE) ≡ 0 }
        ensures others { (n : ℕ) → n < MAX_SEATS_OF_LARGE → n ≢ seat % MAX_SEATS_OF_LARGE
            → bit_at result.bits n ≡ bit_at self.bits n }
    {
        let Seats { bits } = self;
        let seat = bit_of(seat);
        Seats {
            bits: bits & !(1 << seat),
        }
    }

    /// Removes the seat with the lowest number and returns it. Returns `None` if the set is empty.
    pub(crate) fn pop(&mut self) -> Option<usize>
        ensures none { IfNone result (self.old.bits ≡ 0) }
        ensures few { IfSome result (λ seat. seat < MAX_SEATS_OF_LARGE) }
        ensures had { IfSome result (λ seat. bit_at self.old.bits seat ≡ 1) }
        ensures first { IfSome result (λ seat. (n : ℕ) → n < seat → bit_at self.old.bits n ≡ 0) }
        ensures gone { IfSome result (λ seat. bit_at self.new.bits seat ≡ 0) }
        ensures others { IfSome result (λ seat. (n : ℕ) → n < MAX_SEATS_OF_LARGE → n ≢ seat
            → bit_at self.new.bits n ≡ bit_at self.old.bits n) }
        ensures fewer { IfSome result (λ seat. self.new.bits < self.old.bits) }
    {
        let bits = self.bits;
        if bits == 0 {
            return None;
        }
        let seat = bits.trailing_zeros() as usize;
        self.bits = bits & !(1 << seat);
        Some(seat)
    }
}
