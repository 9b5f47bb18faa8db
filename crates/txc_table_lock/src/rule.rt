// What holds for a lock between any two steps, and the effect of each step.
ghost use Rattle.std.specs.Prelude.{◌≡◌, ◌≢◌};
ghost use Rattle.txc_table_lock.specs.Lock.{HasValue, IsKept};

use atomic_table::{Play, TableRule};
use std::marker::PhantomData;

/// Which values fit which label.
pub trait LockInvariant<X, G> {
    /// The relation: a value fits a label.
    ghost holds: { G → X → Type 0 };
}

/// The rule of a lock's table, for proofs: while the lock is free, its value is there and fits the label.
pub struct LockRule<F> {
    of: PhantomData<F>,
}

impl<X, G, F: LockInvariant<X, G>> TableRule<X, G, G> for LockRule<F> {
    ghost holds = { λ label. IsKept (F.holds label) };

    ghost first = { λ label. label };
}

/// A step that takes nothing and puts nothing back.
pub(crate) struct Observe;

impl<X, G> Play<X, G> for Observe {
    ghost then = { λ _ before _ after. after ≡ before };
}

/// A step that takes the value if it finds the number that it looks for.
pub(crate) struct Acquire<F> {
    of: PhantomData<F>,
}

impl<X, G, F: LockInvariant<X, G>> Play<X, G> for Acquire<F> {
    ghost then = { λ step before found after. (found ≡ step.first → HasValue (F.holds before.0) after)
        × (found ≢ step.first → after ≡ before) };
}

/// A step that puts the value back if it finds the number that it looks for.
pub(crate) struct Release;

impl<X, G> Play<X, G> for Release {
    ghost then = { λ step before found after. found ≢ step.first → after ≡ before };
}
