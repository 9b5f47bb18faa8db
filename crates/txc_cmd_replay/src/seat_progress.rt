// The progress of a seat, and its turns.
ghost use Rattle.std.specs.Prelude.{◌≡◌, ◌≢◌, length, slice_get, All, IfOk};
ghost use Rattle.std.specs.Option.{option_copied};
ghost use Rattle.txc_txn.specs.Plain.{chan_in};
ghost use Rattle.txc_txn.specs.Steps.{Fits};
ghost use Rattle.txc_cmd_replay.specs.Keeping.{IsNoted};
ghost use Rattle.txc_cmd_replay.specs.Rounds.{untried, next_plan, tag_after, try, turn, turn_to};

use crate::channels::Channels;
use std::alloc::{AllocError, Global};
use std::marker::Model;
use txc_base::{Stop, Tag};
use txc_chan::Append;
use txc_cmd_report::SeatEnd;
use txc_txn::{Checked, Ran, Receipt, run_held};

/// The progress of a seat: the receipts of its committed transactions, and how its last try ended.
#[derive(Debug, Drop)]
pub struct SeatProgress {
    receipts: Vec<Receipt>,
    end: SeatEnd,
}

impl Model for SeatProgress {
    ghost use Rattle.std.specs.Prelude.{◌≢◌};
    ghost use Rattle.txc_base.specs.declared.stop.Stop.TheVariants.{NoMemory};
    ghost use Rattle.txc_cmd_report.specs.declared.seat_end.SeatEnd.TheVariants.{Stopped};
    ghost use Rattle.txc_cmd_replay.specs.Rounds.{SeatProgress as Progress};

    ghost Value = { Progress };

    ghost view = { λ seat_progress. record { receipts = seat_progress.receipts.items; end = seat_progress.end } };

    ghost invariant = { λ seat_progress. seat_progress.end ≢ Stopped NoMemory };
}

impl SeatProgress {
    /// Makes the progress of a seat that has tried nothing, with capacity for this number of receipts. Fails if
    /// allocation fails.
    pub fn fresh(alloc: Global, transactions: usize) -> Result<SeatProgress, AllocError>
        ensures { IfOk result (λ seat_progress. seat_progress ≡ untried) }
    {
        Ok(SeatProgress {
            receipts: Vec::with_capacity(alloc, transactions)?,
            end: SeatEnd::Finished,
        })
    }

    /// Returns how the last try ended. Returns `Finished` if it committed, or if there was none.
    pub fn end(&self) -> SeatEnd
        ensures end { result ≡ self.now.end }
        ensures known { result ≢ SeatEnd.Stopped Stop.NoMemory }
    {
        self.end
    }

    /// Returns how many transactions it has committed.
    pub fn kept(&self) -> usize
        ensures { result ≡ length self.now.receipts }
    {
        self.receipts.len()
    }

    /// Returns the receipts of the committed transactions, in order.
    pub(crate) fn into_receipts(self) -> Vec<Receipt>
        ensures { result.items ≡ self.receipts }
    {
        let SeatProgress { receipts, end: _ } = self;
        receipts
    }

    /// Returns the tag of the seat's next transaction.
    fn next_tag(&self, seat: u16) -> Tag
        ensures { result ≡ tag_after seat self.now.receipts }
    {
        let stamp = match self.receipts.last() {
            Some(receipt) => receipt.tag.stamp,
            None => 0,
        };
        Tag {
            seat,
            serial: self.receipts.len() as u64,
            stamp,
        }
    }

    /// Records how a try ended, and returns whether it committed. Fails if allocation fails, or failed in the try.
    fn note(&mut self, tried: Result<Ran, Stop>) -> Result<bool, AllocError>
        ensures { IfOk result (IsNoted self.old tried self.new) }
    {
        match tried {
            Ok(Ran::Kept(receipt)) => {
                self.receipts.push(receipt)?;
                self.end = SeatEnd::Finished;
                Ok(true)
            }
            Ok(Ran::Retry(cause)) => {
                self.end = SeatEnd::Stalled(cause);
                Ok(false)
            }
            Err(Stop::NoMemory) => Err(AllocError),
            Err(stop) => {
                self.end = SeatEnd::Stopped(stop);
                Ok(false)
            }
        }
    }

    /// Tries a transaction, and returns whether it committed. Fails if allocation fails.
    fn attempt<R: Append>(
        &mut self,
        rt: &R,
        alloc: Global,
        channels: &mut Channels,
        seat: u16,
        checked: &Checked,
    ) -> Result<bool, AllocError>
        requires fits { Fits (slice_get channels.old.kinds) checked.now.steps }
        ensures kinds { channels.new.kinds ≡ channels.old.kinds }
        ensures ok { IfOk result (λ kept. turn_to (chan_in channels.new.held)
            self.new kept ≡ try seat checked.now (chan_in channels.old.held) self.old) }
    {
        checked.show_fits(channels.kinds.as_slice());
        let tag = self.next_tag(seat);
        let tried = run_held(rt, alloc, &mut channels.plain, tag, checked);
        self.note(tried)
    }

    /// Returns the transaction that the seat tries next: the one after its committed transactions. Returns `None` if
    /// there is none or the seat was stopped.
    fn next<'a>(&self, plans: &'a [Checked]) -> Option<&'a Checked>
        ensures { option_copied result ≡ next_plan plans.now (length self.now.receipts) self.now.end }
    {
        if let SeatEnd::Stopped(_) = self.end {
            return None;
        }
        plans.get(self.receipts.len())
    }

    /// Runs a seat's turn: the seat tries its next transaction, if there is one. Returns whether it committed. Fails if
    /// allocation fails.
    pub fn turn<R: Append>(
        &mut self,
        rt: &R,
        alloc: Global,
        channels: &mut Channels,
        seat: u16,
        plans: &[Checked],
    ) -> Result<bool, AllocError>
        requires fits { All (λ plan. Fits (slice_get channels.old.kinds) plan.steps) plans.now }
        ensures kinds { channels.new.kinds ≡ channels.old.kinds }
        ensures ok { IfOk result (λ kept. turn_to (chan_in channels.new.held)
            self.new kept ≡ turn seat plans.now (chan_in channels.old.held) self.old) }
    {
        match self.next(plans) {
            Some(checked) => self.attempt(rt, alloc, channels, seat, checked),
            None => Ok(false),
        }
    }
}
