// The right of a seat to lock lines.
ghost use Rattle.std.specs.Prelude.{◌≡◌, ◌<◌, ◌+◌};

use std::marker::Model;

/// The right of a seat to lock lines of its table, as `LockOrder::new` takes it. It cannot be copied and has no bytes.
#[derive(Drop)]
pub struct LockPermit {
    marker: (),
}

/// The permits of the seats of a new table that no seat has yet. In a contract it is the number of them.
#[derive(Drop)]
pub struct LockPermits {
    left: u16,
}

impl Model for LockPermits {
    ghost use Rattle.std.specs.Prelude.{ℕ};

    ghost Value = { ℕ };

    ghost view = { λ permits. permits.left };
}

impl LockPermits {
    /// Makes the permits of this number of seats.
    pub(crate) fn new(seats: u16) -> LockPermits
        ensures { result ≡ seats }
    {
        LockPermits { left: seats }
    }

    /// Returns the permit of one more seat.
    pub fn take(&mut self) -> LockPermit
        requires { 0 < self.old }
        ensures { self.new + 1 ≡ self.old }
    {
        self.left -= 1;
        LockPermit { marker: () }
    }
}
