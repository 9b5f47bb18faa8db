// What a seat has committed.
ghost use Rattle.std.specs.Prelude.{◌≡◌, ◌≤◌, ◌<◌, ◌+◌, ℕ, length, slice_get, None, Some, IfOk, IfSome, IfNone, OnOk};
ghost use Rattle.std.specs.List.{All};
ghost use Rattle.txc_base.specs.Counts.{is_put, is_took, is_other};
ghost use Rattle.txc_txn.specs.Run.{PlacesRise, count_deeds};
ghost use Rattle.txc_table_seat.specs.Seated.{AreReceiptsOf, StampsRise, count, last_receipt, next_tag, no_commits};
ghost use Rattle.txc_table_seat.specs.Seated.{with_receipt};
ghost use Rattle.txc_table_seat.specs.Tally.{count_that, done_in};

use crate::all_receipts::AllReceipts;
use crate::padded_receipt::PaddedReceipt;
use crate::receipts::Receipts;
use crate::tally::{Tally, count_acts};
use std::alloc::{AllocError, Global};
use std::marker::Model;
use txc_base::Tag;
use txc_chan::GhostList;
use txc_txn::Receipt;
use txc_txn_check::Checked;

/// The number of unused tallies after those of a seat. They take more than a cache line, so the tallies of two seats
/// share none.
const UNUSED: usize = 3;

/// What a seat has committed: its number, the receipts of its committed transactions, the stamp of the last one, and
/// how many acts of each sort they have in each channel. The type `S` decides which receipts stay in memory.
#[derive(Drop)]
pub struct History<S: Receipts = AllReceipts> {
    number: u16,
    receipts: S,
    stamp: u64,
    // One for each channel.
    tallies: Vec<Tally>,
    // Only for proofs.
    plans: GhostList<Checked>,
}

impl<S: Receipts> Model for History<S> {
    ghost use Rattle.std.specs.Prelude.{length};
    ghost use Rattle.std.specs.Coded.{codes};
    ghost use Rattle.txc_txn_check.specs.contracts.step.Step as step;
    ghost use Rattle.txc_table_seat.specs.Seated.{HistoryView, IsInHistory};

    ghost Value = { HistoryView };

    // Only for the proof: values of `Value` have a code, because the steps in them have one.
    ghost coded = { Prim.hlevel (codes, step.the_row.coded) };

    ghost view = { λ history. record {
      commits = record {
        number = history.number;
        receipts = S.all history.receipts;
        stamp = history.stamp;
        plans = history.plans;
      };
      room = S.room history.receipts;
      channels = length history.tallies.items;
    } };

    ghost invariant = { λ history. IsInHistory history.number (S.all history.receipts) history.stamp
        history.tallies.items history.plans };
}

impl<S: Receipts> History<S> {
    /// Creates the history of a seat that has committed nothing. The seat has this number, and its table has this many
    /// channels. Returns `AllocError` if allocation fails. Allocates.
    pub fn new(alloc: Global, number: u16, channels: u16) -> Result<History<S>, AllocError>
        ensures commits { IfOk result (λ history. history.commits ≡ no_commits number) }
        ensures channels { IfOk result (λ history. history.channels ≡ channels) }
    {
        let mut tallies = Vec::with_capacity(alloc, usize::from(channels) + UNUSED)?;
        tallies.resize(usize::from(channels), Tally::new())?;
        Ok(History {
            number,
            receipts: S::new(alloc)?,
            stamp: 0,
            tallies,
            plans: GhostList::new(),
        })
    }

    /// Returns the number of the seat.
    pub fn number(&self) -> u16
        ensures { result ≡ self.now.commits.number }
    {
        self.number
    }

    /// Returns the number of committed transactions.
    pub fn count(&self) -> usize
        ensures { result ≡ length self.now.commits.receipts }
    {
        self.receipts.len()
    }

    /// Returns the receipt of the transaction that was committed last, or `None` before the first.
    pub fn last(&self) -> Option<&Receipt>
        ensures some { IfSome result (λ receipt. last_receipt self.now.commits.receipts ≡ Some receipt.now) }
        ensures none { IfNone result (last_receipt self.now.commits.receipts ≡ None) }
    {
        self.receipts.last()
    }

    /// Returns the tag for the next transaction, with the stamp of the last one.
    pub fn next_tag(&self) -> Tag
        ensures { result ≡ next_tag self.now.commits }
    {
        Tag {
            seat: self.number,
            serial: self.receipts.len() as u64,
            stamp: self.stamp,
        }
    }

    /// Makes room for one more receipt and returns the tag for the next transaction, like `next_tag`. Returns
    /// `AllocError` if allocation fails or if there would be more than `GREATEST_NUMBER` receipts. The receipts do not
    /// change in either case. Allocates if each receipt stays in memory.
    pub fn reserve(&mut self) -> Result<Tag, AllocError>
        ensures tag { IfOk result (λ tag. tag ≡ next_tag self.old.commits) }
        ensures room { OnOk result (0 < self.new.room) }
        ensures same { self.new.commits ≡ self.old.commits }
        ensures channels { self.new.channels ≡ self.old.channels }
    {
        let serial = self.receipts.reserve()? as u64;
        let stamp = self.stamp;
        Ok(Tag {
            seat: self.number,
            serial,
            stamp,
        })
    }

    /// Adds the receipt of a committed transaction, which is in the draft, and returns its number. There must be room
    /// for it, and its acts must be in channels of the seat's table. Leaves a receipt in the draft that is no longer
    /// read, so that the next one can reuse its memory.
    pub fn keep(
        &mut self,
        alloc: Global,
        checked: &Checked,
        draft: &mut Box<PaddedReceipt>,
    ) -> usize
        requires room { 0 < self.old.room }
        requires seat { draft.old.value.receipt.tag.seat ≡ self.old.commits.number }
        requires serial { draft.old.value.receipt.tag.serial ≡ length self.old.commits.receipts }
        requires later { self.old.commits.stamp < draft.old.value.receipt.tag.stamp }
        requires rise { PlacesRise draft.old.value.receipt }
        requires inside { All (λ deed. deed.chan < self.old.channels) draft.old.value.receipt.acts }
        requires few { (n : ℕ) → n < self.old.channels → count n self.old.commits.receipts
            + count_deeds n draft.old.value.receipt.acts ≤ u64.MAX }
        ensures number { result ≡ length self.old.commits.receipts }
        ensures kept { self.new.commits ≡ with_receipt self.old.commits checked.now draft.old.value.receipt }
        ensures channels { self.new.channels ≡ self.old.channels }
    {
        let number = draft.receipt.tag.serial as usize;
        self.stamp = draft.receipt.tag.stamp;
        count_acts(self.tallies.as_mut_slice(), draft.receipt.acts.as_slice());
        self.receipts.push_reserved(alloc, draft);
        self.plans.push(checked);
        number
    }

    /// Returns the tally of a channel. A channel that the seat's table does not have has no acts.
    fn tally(&self, chan: u16) -> Tally
        ensures { result ≡ done_in chan self.now.commits.receipts }
    {
        match self.tallies.as_slice().get(usize::from(chan)) {
            Some(tally) => *tally,
            None => Tally::new(),
        }
    }

    /// Returns how many acts of its receipts wrote to a channel or put an item back there. Returns 0 for a channel that
    /// the seat's table does not have.
    pub fn put(&self, chan: u16) -> u64
        ensures { result ≡ count_that is_put chan self.now.commits.receipts }
    {
        self.tally(chan).put
    }

    /// Returns how many acts of its receipts took from a channel. Returns 0 for a channel that the seat's table does
    /// not have.
    pub fn took(&self, chan: u16) -> u64
        ensures { result ≡ count_that is_took chan self.now.commits.receipts }
    {
        self.tally(chan).took
    }

    /// Returns how many acts of its receipts in a channel neither wrote, put back nor took. Returns 0 for a channel
    /// that the seat's table does not have.
    pub fn other(&self, chan: u16) -> u64
        ensures { result ≡ count_that is_other chan self.now.commits.receipts }
    {
        self.tally(chan).other
    }

    /// Proves what is true of every history, and does nothing at run time. Its receipts have its number, and their
    /// serials are their numbers. In each receipt the places in one channel rise, and the stamps of the receipts rise.
    /// No receipt has an act in a channel that the seat's table does not have.
    #[tactic(auto, using(crate::proofs::Counting::none_past))]
    pub fn show(&self)
        ensures own { AreReceiptsOf self.now.commits.number 0 self.now.commits.receipts }
        ensures stamped { StampsRise 0 self.now.commits.stamp self.now.commits.receipts }
        ensures even { length self.now.commits.plans ≡ length self.now.commits.receipts }
        ensures inside { (chan : ℕ) → self.now.channels ≤ chan → count chan self.now.commits.receipts ≡ 0 }
    {
        // Only for the proof: the read of a field shows the invariant of the type.
        let _fields = &self.receipts;
    }

    /// Proves that the three counts together are all acts. Does nothing at run time.
    #[tactic(auto, using(crate::proofs::Counting::sorted))]
    pub fn show_counts(&self)
        ensures { (chan : ℕ) → count_that is_put chan self.now.commits.receipts
            + count_that is_took chan self.now.commits.receipts + count_that is_other chan self.now.commits.receipts
            ≡ count chan self.now.commits.receipts }
    {
        // Only for the proof: the read of a field shows the invariant of the type.
        let _fields = &self.receipts;
    }
}

impl History {
    /// Returns the receipt with this number, from 0. Returns `None` if there is none.
    pub fn receipt(&self, number: usize) -> Option<&Receipt>
        ensures some { IfSome result (λ receipt. slice_get self.now.commits.receipts number ≡ Some receipt.now) }
        ensures none { IfNone result (length self.now.commits.receipts ≤ number) }
    {
        self.receipts.get(number)
    }

    /// Returns its receipts.
    pub fn into_receipts(self) -> Vec<Receipt>
        ensures { result.items ≡ self.commits.receipts }
    {
        self.receipts.into_vec()
    }
}
