// A call in an attempt, while its locks are held.
use crate::guards::Guards;
use txc_chan::Log;

/// A value that is made only while an attempt holds all its locks. It has no bytes.
#[derive(Drop)]
pub struct HeldLocks {
    marker: (),
}

impl HeldLocks {
    /// Makes the value for locked lines: those of an attempt are all locked.
    pub(crate) fn of<K: Log>(guards: &Guards<'_, K>) -> HeldLocks {
        // Only for the compiler: no other value shows that the locks are held.
        let _ = guards;
        HeldLocks { marker: () }
    }
}

/// A hook that an attempt calls once, after it has acquired the last lock and before its first operation.
pub trait Gate {
    /// What a call does, between the gate before it and after it. By default any two gates are so.
    ghost HasPassed: { Self → Self → Type 0 } = { λ _ _. Unit {0} };

    /// Runs the hook. It can block; meanwhile the locks of the attempt are held.
    fn pass(&mut self, held: &HeldLocks)
        ensures passed { HasPassed self.old self.new };
}
