// The shares of seats that are back.
ghost use Rattle.std.specs.Prelude.{◌≡◌, ◌<◌, ◌+◌, ℕ, length, replicate, IfOk};
ghost use Rattle.txc_table_line.specs.Sums.{sums};
ghost use Rattle.txc_table_lines.specs.Lines.{line_ids};
ghost use Rattle.txc_table_lines.specs.Locked.{AreClean, AreWhole, HaveParts, IsLineCounted, LogsCount};
ghost use Rattle.txc_table_lines.specs.Locked.{MarksCount, amounts_in, amounts_of, ledgers_in, ledgers_of, channel_at};
ghost use Rattle.txc_table_lines.specs.Locked.{collected_at, helds_of, lines_of, made_in, made_of, line_marks_of};

use crate::locked_lines::LockedLines;
use crate::seat_shares::SeatShares;
use std::alloc::{AllocError, Global};
use std::marker::Model;
use txc_chan::Log;
use txc_table_line::LedgerShares;

/// The shares that some seats have of the ledgers of each line, joined. In a contract it is the list of them.
#[derive(Drop)]
pub struct CollectedShares {
    pub(crate) shares: Vec<LedgerShares>,
}

impl Model for CollectedShares {
    ghost use Rattle.std.specs.Prelude.{List};
    ghost use Rattle.txc_table_line.specs.Line.{LedgerSharesView};

    ghost Value = { List LedgerSharesView };

    ghost view = { λ all. all.shares.items };
}

impl CollectedShares {
    /// Adds what one more seat has of the lines. At run time it only frees memory.
    pub fn gain<K: Log>(&mut self, shares: SeatShares<K>)
        requires of { ledgers_in self.old ≡ ledgers_of (line_ids shares) }
        ensures ledgers { ledgers_in self.new ≡ ledgers_in self.old }
        ensures parts { (n : ℕ) → HaveParts n self.old → HaveParts (n + 1) self.new }
        ensures amounts { amounts_in self.new ≡ sums (amounts_in self.old) (amounts_of shares) }
        ensures made { made_in self.new ≡ sums (made_in self.old) (made_of shares) }
    {
        let mut at = 0usize;
        for share in shares.shares {
            self.shares[at].merge(share.into_shares());
            at += 1;
        }
    }
}

impl<K: Log> LockedLines<K> {
    /// Returns shares of the ledgers of a line without a part, which count nothing. Does nothing at run time.
    fn empty_shares_at(&mut self, at: usize) -> LedgerShares
        requires { at < length self.old }
        ensures ledgers { result.ledgers ≡ (channel_at self.old at).line.ledgers }
        ensures none { (result.parts ≡ 0) × (result.amount ≡ 0) × (result.made ≡ 0) }
        ensures same { self.new ≡ self.old }
    {
        match &mut self.lines.as_mut_slice()[at] {
            Some(line) => line.empty_shares(),
            None => unreachable!(),
        }
    }

    /// Returns shares of the lines' ledgers without a part, which count nothing. Returns `AllocError` if an allocation
    /// fails.
    pub fn empty_shares(&mut self, alloc: Global) -> Result<CollectedShares, AllocError>
        ensures ledgers { IfOk result (λ shares. ledgers_in shares ≡ ledgers_of (lines_of self.old)) }
        ensures parts { IfOk result (HaveParts 0) }
        ensures amounts { IfOk result (λ shares. amounts_in shares ≡ replicate (length self.old) 0) }
        ensures made { IfOk result (λ shares. made_in shares ≡ replicate (length self.old) 0) }
        ensures same { self.new ≡ self.old }
    {
        let mut shares = Vec::with_capacity(alloc, self.len())?;
        for at in 0..self.len() {
            shares.push_reserved(self.empty_shares_at(at));
        }
        Ok(CollectedShares { shares })
    }

    /// Shows for one line what `show_whole` shows for all lines. Does nothing at run time.
    fn show_whole_at(&mut self, at: usize, shares: &mut CollectedShares)
        requires of { ledgers_in shares.old ≡ ledgers_of (lines_of self.old) }
        requires there { at < length self.old }
        requires whole { AreWhole shares.old }
        requires clean { AreClean (helds_of self.old) }
        ensures whole { IsLineCounted (channel_at self.old at) (collected_at shares.old at) }
        ensures shares { shares.new ≡ shares.old }
        ensures same { self.new ≡ self.old }
    {
        match &mut self.lines.as_mut_slice()[at] {
            Some(line) => line.show_whole(&mut shares.shares[at]),
            None => unreachable!(),
        }
    }

    /// Shows that the shares of all seats count the whole logs, in which nothing may be left to undo, and all marks.
    /// Does nothing at run time.
    pub fn show_whole(&mut self, shares: &mut CollectedShares)
        requires of { ledgers_in shares.old ≡ ledgers_of (lines_of self.old) }
        requires whole { AreWhole shares.old }
        requires clean { AreClean (helds_of self.old) }
        ensures whole { LogsCount (helds_of self.old) (amounts_in shares.old) }
        ensures all { MarksCount (line_marks_of self.old) (made_in shares.old) }
        ensures shares { shares.new ≡ shares.old }
        ensures same { self.new ≡ self.old }
    {
        for at in 0..self.len() {
            self.show_whole_at(at, shares);
        }
    }
}
