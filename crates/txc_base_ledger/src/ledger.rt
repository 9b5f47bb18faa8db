// A ledger.
ghost use Rattle.std.specs.Prelude.{◌≡◌, ◌<◌, ◌≤◌, ◌+◌, ℕ};

use crate::changes::{open, record};
use crate::share::Share;
use std::marker::{Model, PhantomData};

/// A total: the sum of the amounts of all shares of the same name. In a contract it is its name, the number of parts
/// that its shares have together, and the total. It has no bytes.
pub struct Ledger {
    pub(crate) marker: PhantomData<()>,
    /// A number that no other ledger has.
    pub ghost name: { ℕ },
    /// The number of parts that its shares have together.
    pub ghost whole: { ℕ },
    /// The sum of the amounts of its shares.
    pub ghost total: { ℕ },
}

impl Model for Ledger {
    ghost use Rattle.txc_base_ledger.specs.Tally.{ledger_owns};

    ghost also_owns = { λ b. ledger_owns b.name b.whole b.total };
}

impl Ledger {
    /// Makes a ledger with a new name, and the share with all its parts. The total and the amount are 0.
    pub fn new(parts: u64) -> (Ledger, Share)
        ensures of { (result.1.name ≡ result.0.name) × (result.1.whole ≡ result.0.whole) }
        ensures whole { result.0.whole ≡ parts }
        ensures total { result.0.total ≡ 0 }
        ensures parts { result.1.parts ≡ parts }
        ensures amount { result.1.amount ≡ 0 }
    {
        open(parts)
    }

    /// Adds an amount to the total and to a share of this ledger that has a part.
    pub fn add(&mut self, share: &mut Share, amount: u64)
        requires of { (share.old.name ≡ self.old.name) × (share.old.whole ≡ self.old.whole) }
        requires part { 0 < share.old.parts }
        ensures ledger { (self.new.name ≡ self.old.name) × (self.new.whole ≡ self.old.whole) }
        ensures total { self.new.total ≡ self.old.total + amount }
        ensures share { (share.new.name ≡ share.old.name) × (share.new.whole ≡ share.old.whole) }
        ensures parts { share.new.parts ≡ share.old.parts }
        ensures amount { share.new.amount ≡ share.old.amount + amount }
    {
        record(self, share, amount, 0);
    }

    /// Subtracts an amount from the total and from a share of this ledger that has at least this amount.
    pub fn sub(&mut self, share: &mut Share, amount: u64)
        requires of { (share.old.name ≡ self.old.name) × (share.old.whole ≡ self.old.whole) }
        requires enough { amount ≤ share.old.amount }
        ensures ledger { (self.new.name ≡ self.old.name) × (self.new.whole ≡ self.old.whole) }
        ensures total { self.new.total + amount ≡ self.old.total }
        ensures share { (share.new.name ≡ share.old.name) × (share.new.whole ≡ share.old.whole) }
        ensures parts { share.new.parts ≡ share.old.parts }
        ensures amount { share.new.amount + amount ≡ share.old.amount }
    {
        record(self, share, 0, amount);
    }

    /// Shows that the amount of a share of this ledger is at most the total. The amount is the total if the share has
    /// all parts, and 0 if it has no part. Both stay unchanged.
    pub fn show_bound(&mut self, share: &mut Share)
        requires of { (share.old.name ≡ self.old.name) × (share.old.whole ≡ self.old.whole) }
        ensures ledger { (self.new.name ≡ self.old.name) × (self.new.whole ≡ self.old.whole) }
        ensures total { self.new.total ≡ self.old.total }
        ensures share { (share.new.name ≡ share.old.name) × (share.new.whole ≡ share.old.whole) }
        ensures parts { share.new.parts ≡ share.old.parts }
        ensures amount { share.new.amount ≡ share.old.amount }
        ensures bound { share.old.amount ≤ self.old.total }
        ensures whole { share.old.parts ≡ share.old.whole → share.old.amount ≡ self.old.total }
        ensures backed { share.old.parts ≡ 0 → share.old.amount ≡ 0 }
    {
        record(self, share, 0, 0);
    }
}

impl Drop for Ledger {
    fn drop(self) {
        let Self { marker: _ } = self;
    }
}

unsafe impl Send for Ledger {}
