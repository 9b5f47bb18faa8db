// What a session knows in a run, where the table keeps its logs and a seat all its receipts.
ghost use Rattle.std.specs.Prelude.{◌≡◌, ◌≤◌, ◌<◌, IfOk, IfErr, IfSome, IfNone, OnErr, OnOk, Some, length, slice_get};
ghost use Rattle.txc_table.specs.Seat.{IsAccountTo, SeesMore};
ghost use Rattle.txc_table.specs.Table.{decls_of};
ghost use Rattle.yalwythen_work.specs.Committed.{IsSnapshotError};
ghost use Rattle.yalwythen_work.specs.Session.{logs_seen, seat_of, with_seen};

use super::Session;
use crate::transact_error::TransactError;
use std::sync::Wait;
use txc_chan::Account;
use txc_txn::Receipt;
use txc_txn_check::TxnFault;

impl Session<'_> {
    /// Returns the receipt with this number, from 0, of a transaction that this session committed, or `None` if there
    /// is none.
    pub fn receipt(&self, number: usize) -> Option<&Receipt>
        ensures some { IfSome result (λ receipt. slice_get self.now.seat.receipts number ≡ Some receipt.now) }
        ensures none { IfNone result (length self.now.seat.receipts ≤ number) }
    {
        self.seat.receipt(number)
    }

    /// Takes a snapshot of a channel with its log.
    ///
    /// The log begins with what the session has seen of it, and each act of the session's receipts is the entry at its
    /// place. Fails with `Unfit(NoChannel)` if there is no such channel, with `Stopped(NoMemory)` if allocation fails,
    /// and with no other error. The session has then seen the whole log and is otherwise unchanged. On failure it is
    /// unchanged. Blocks on that channel's lock.
    pub fn account<R: Wait>(&mut self, rt: &R, chan: u16) -> Result<Account, TransactError>
        ensures ok { IfOk result (IsAccountTo (seat_of self.old) (decls_of self.old.table.lines) chan) }
        ensures whole { IfOk result (λ account. logs_seen self.new chan ≡ account.log) }
        ensures seen { SeesMore (logs_seen self.old) (logs_seen self.new) }
        ensures there { OnOk result (chan < length self.old.table.kinds) }
        ensures err { IfErr result (IsSnapshotError self.old chan) }
        ensures same { self.new ≡ with_seen self.old self.new.seen }
        ensures unchanged { OnErr result (self.new ≡ self.old) }
    {
        if !self.is_there(chan) {
            return Err(TransactError::Unfit(TxnFault::NoChannel));
        }
        Ok(self.table.account(rt, &mut self.seat, chan)?)
    }
}
