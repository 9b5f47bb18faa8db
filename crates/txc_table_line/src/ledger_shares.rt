// Shares of the ledgers of a line.
ghost use Rattle.std.specs.Prelude.{◌≡◌, ◌<◌, ◌≤◌, ◌+◌};

use std::marker::Model;
use txc_base_ledger::Share;

/// Shares of a line's two ledgers, which count its entries and its marks, with as many parts of the one as of the
/// other. In a contract it is whose ledgers they are, the number of parts, and what they count. It has no bytes.
#[derive(Drop)]
pub struct LedgerShares {
    pub(crate) entries: Share,
    pub(crate) marks: Share,
}

impl Model for LedgerShares {
    ghost use Rattle.std.specs.Prelude.{◌≡◌};
    ghost use Rattle.txc_table_line.specs.Line.{LedgerSharesView};

    ghost Value = { LedgerSharesView };

    ghost view = { λ shares. record {
      ledgers = record { entries = shares.entries.name; marks = shares.marks.name; seats = shares.entries.whole };
      parts = shares.entries.parts;
      amount = shares.entries.amount;
      made = shares.marks.amount;
    } };

    ghost invariant = { λ shares. (shares.marks.parts ≡ shares.entries.parts)
        × (shares.marks.whole ≡ shares.entries.whole) };
}

impl LedgerShares {
    /// Cuts off one part of each ledger. The shares must count nothing. Does nothing at run time.
    pub fn cut(&mut self) -> LedgerShares
        requires some { 0 < self.old.parts }
        requires none { (self.old.amount ≡ 0) × (self.old.made ≡ 0) }
        ensures ledgers { result.ledgers ≡ self.old.ledgers }
        ensures part { (result.parts ≡ 1) × (result.amount ≡ 0) × (result.made ≡ 0) }
        ensures same { self.new.ledgers ≡ self.old.ledgers }
        ensures left { (self.new.parts + 1 ≡ self.old.parts) × (self.new.amount ≡ 0) × (self.new.made ≡ 0) }
    {
        LedgerShares {
            entries: self.entries.split_off(1, 0),
            marks: self.marks.split_off(1, 0),
        }
    }

    /// Adds other shares of the same ledgers. Does nothing at run time.
    pub fn merge(&mut self, other: LedgerShares)
        requires of { other.ledgers ≡ self.old.ledgers }
        ensures ledgers { self.new.ledgers ≡ self.old.ledgers }
        ensures parts { self.new.parts ≡ self.old.parts + other.parts }
        ensures amount { self.new.amount ≡ self.old.amount + other.amount }
        ensures made { self.new.made ≡ self.old.made + other.made }
        ensures few { self.new.parts ≤ self.old.ledgers.seats }
    {
        let LedgerShares { entries, marks } = other;
        self.entries.merge(entries);
        self.marks.merge(marks);
    }

    /// Returns shares of the same ledgers without a part, which count nothing. Does nothing at run time.
    pub fn empty(&mut self) -> LedgerShares
        ensures same { self.new ≡ self.old }
        ensures ledgers { result.ledgers ≡ self.old.ledgers }
        ensures none { (result.parts ≡ 0) × (result.amount ≡ 0) × (result.made ≡ 0) }
    {
        LedgerShares {
            entries: self.entries.empty(),
            marks: self.marks.empty(),
        }
    }
}
