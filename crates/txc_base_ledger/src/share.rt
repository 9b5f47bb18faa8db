// A share of a ledger.
ghost use Rattle.std.specs.Prelude.{◌≡◌, ◌≤◌, ◌+◌, ℕ};

use crate::changes::{empty, merge_shares, shift};
use std::marker::{Model, PhantomData};

/// Some parts of the ledger of the same name, and an amount that counts in its total. A share without a part has no
/// amount. In a contract it is its name, the number of parts of all shares of that name, its own parts and its amount.
/// It has no bytes.
pub struct Share {
    pub(crate) marker: PhantomData<()>,
    /// The name of its ledger.
    pub ghost name: { ℕ },
    /// The number of parts that all shares of its ledger have together.
    pub ghost whole: { ℕ },
    /// The number of its own parts.
    pub ghost parts: { ℕ },
    /// What it counts in the ledger's total.
    pub ghost amount: { ℕ },
}

impl Model for Share {
    ghost use Rattle.txc_base_ledger.specs.Tally.{share_owns};

    ghost also_owns = { λ s. share_owns s.name s.whole s.parts s.amount };
}

impl Share {
    /// Makes a share of the same ledger without a part. It counts nothing.
    pub fn empty(&mut self) -> Share
        ensures same { self.new ≡ self.old }
        ensures of { (result.name ≡ self.old.name) × (result.whole ≡ self.old.whole) }
        ensures parts { result.parts ≡ 0 }
        ensures amount { result.amount ≡ 0 }
    {
        empty(self)
    }

    /// Moves some parts and an amount to another share of the same ledger. After that each share with an amount must
    /// have a part.
    pub fn give(&mut self, to: &mut Share, parts: u64, amount: u64)
        requires of { (to.old.name ≡ self.old.name) × (to.old.whole ≡ self.old.whole) }
        requires enough_parts { parts ≤ self.old.parts }
        requires enough { amount ≤ self.old.amount }
        requires left_backed { parts ≡ self.old.parts → amount ≡ self.old.amount }
        requires given_backed { to.old.parts + parts ≡ 0 → amount ≡ 0 }
        ensures same { (self.new.name ≡ self.old.name) × (self.new.whole ≡ self.old.whole) }
        ensures to { (to.new.name ≡ to.old.name) × (to.new.whole ≡ to.old.whole) }
        ensures left { (self.new.parts + parts ≡ self.old.parts) × (self.new.amount + amount ≡ self.old.amount) }
        ensures given { (to.new.parts ≡ to.old.parts + parts) × (to.new.amount ≡ to.old.amount + amount) }
        ensures apart { self.old.parts + to.old.parts ≤ self.old.whole }
    {
        shift(self, to, parts, amount);
    }

    /// Adds the parts and the amount of another share of the same ledger to this share.
    pub fn merge(&mut self, other: Share)
        requires of { (other.name ≡ self.old.name) × (other.whole ≡ self.old.whole) }
        ensures same { (self.new.name ≡ self.old.name) × (self.new.whole ≡ self.old.whole) }
        ensures parts { self.new.parts ≡ self.old.parts + other.parts }
        ensures amount { self.new.amount ≡ self.old.amount + other.amount }
        ensures apart { self.new.parts ≤ self.old.whole }
    {
        let mut other = other;
        merge_shares(self, &mut other);
    }

    /// Moves some parts and an amount to a new share of the same ledger, and returns it. After that each share with an
    /// amount must have a part.
    pub fn split_off(&mut self, parts: u64, amount: u64) -> Share
        requires enough_parts { parts ≤ self.old.parts }
        requires enough { amount ≤ self.old.amount }
        requires left_backed { parts ≡ self.old.parts → amount ≡ self.old.amount }
        requires given_backed { parts ≡ 0 → amount ≡ 0 }
        ensures same { (self.new.name ≡ self.old.name) × (self.new.whole ≡ self.old.whole) }
        ensures of { (result.name ≡ self.old.name) × (result.whole ≡ self.old.whole) }
        ensures left { (self.new.parts + parts ≡ self.old.parts) × (self.new.amount + amount ≡ self.old.amount) }
        ensures given { (result.parts ≡ parts) × (result.amount ≡ amount) }
    {
        let mut new = self.empty();
        self.give(&mut new, parts, amount);
        new
    }
}

impl Drop for Share {
    fn drop(self) {
        let Self { marker: _ } = self;
    }
}

unsafe impl Send for Share {}
