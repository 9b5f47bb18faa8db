// A table that all its seats have left.
ghost use Rattle.std.specs.Prelude.{◌≡◌, ◌≢◌, ◌<◌, length, IfErr, IfNone, IfOk, IfSome, slice_get};
ghost use Rattle.std.specs.Prelude.{◌≤◌, slice_index_or, vec_capacity, vec_len};
ghost use Rattle.std.specs.List.{insert};
ghost use Rattle.txc_txn_check.specs.Steps.{Fits};
ghost use Rattle.txc_table_seat.specs.Seated.{next_tag};
ghost use Rattle.txc_txn.specs.Plain.{chan_in};
ghost use Rattle.txc_txn.specs.Transaction.{Aborted, transaction};
ghost use Rattle.txc_table_lines.specs.Accounted.{AreAccounts};
ghost use Rattle.txc_table.specs.Finished.{IsFinished};
ghost use Rattle.txc_table.specs.IdleTableView.{MustRetry, OthersStay, WouldKeep};
ghost use Rattle.txc_table.specs.Refused.{AreAllSeats};
ghost use Rattle.txc_table.specs.Table.{decls_of};
ghost use Rattle.txc_table.specs.Outcome.{AreLawful, IsTransacted};

use super::Table;
use super::locked::LockedTable;
use crate::closing::{buffers_for, report};
use crate::departed_seat::DepartedSeat;
use crate::line_access::LineAccess;
use crate::seat::Seat;
use crate::tried::Tried;
use std::alloc::Global;
use std::marker::Model;
use std::sync::Wait;
use txc_base::{Cause, Stop};
use txc_chan::{FullLog, Log};
use txc_table_lines::LockBuffer;
use txc_table_seat::{AllReceipts, PaddedReceipt, Receipts};
use txc_txn::{Checked, Receipt, Report};

/// A table that all its seats have left, with all its channels locked. No other thread changes the channels any more,
/// so the results of its functions hold for the report.
#[derive(Drop)]
pub struct IdleTable<K: Log = FullLog, S: Receipts = AllReceipts> {
    locked: LockedTable<K>,
    left: Vec<DepartedSeat<K, S>>,
}

impl<K: Log, S: Receipts> Model for IdleTable<K, S> {
    ghost use Rattle.std.specs.Coded.{codes};
    ghost use Rattle.txc_txn_check.specs.contracts.step.Step as step;
    ghost use Rattle.txc_table_lines.specs.Locked.{helds_of, lines_of};
    ghost use Rattle.txc_table.specs.IdleTableView.{IdleTableView, IsIdle};
    ghost use Rattle.txc_table.specs.Table.{table_lines};

    ghost Value = { IdleTableView };

    // Only for the proof: values of `Value` have a code, because the steps in them have one.
    ghost coded = { Prim.hlevel (codes, step.the_row.coded) };

    ghost view = { λ idle. record {
      table = record {
        lines = table_lines idle.locked.table_seats (lines_of idle.locked.lines);
        made = idle.locked.shelves;
        kinds = idle.locked.kinds;
        seats = idle.locked.table_seats.seats;
      };
      left = idle.left.items;
      helds = helds_of idle.locked.lines;
    } };

    ghost invariant = { λ idle. IsIdle K.shelves (table_lines idle.locked.table_seats (lines_of idle.locked.lines))
        idle.locked.shelves idle.locked.kinds (helds_of idle.locked.lines) idle.left.items };
}

impl<K: Log> Table<K> {
    /// Locks all channels of the table. All its seats must be in `left`. Returns the table and the seats if allocation
    /// fails. Does not block, because a seat that has left holds no lock. Allocates.
    pub fn into_idle<S: Receipts, R: Wait>(
        self,
        rt: &R,
        alloc: Global,
        left: Vec<DepartedSeat<K, S>>,
    ) -> Result<IdleTable<K, S>, (Table<K>, Vec<DepartedSeat<K, S>>)>
        requires { AreAllSeats self.lines self.seats left.items }
        ensures table { IfOk result (λ idle. idle.table ≡ self) }
        ensures left { IfOk result (λ idle. idle.left ≡ left.items) }
        ensures again { IfErr result (λ again. (again.0 ≡ self) × (again.1.items ≡ left.items)) }
    {
        match self.lines.lock_buffer(alloc) {
            Ok(room) => Ok(self.into_idle_in(rt, room, left)),
            Err(_) => Err((self, left)),
        }
    }

    /// Locks all channels of the table, like `into_idle`, with this buffer for the locks.
    fn into_idle_in<S: Receipts, R: Wait>(
        self,
        rt: &R,
        room: LockBuffer<K>,
        left: Vec<DepartedSeat<K, S>>,
    ) -> IdleTable<K, S>
        requires back { AreAllSeats self.lines self.seats left.items }
        requires room { length self.lines.all ≤ room }
        ensures table { result.table ≡ self }
        ensures left { result.left ≡ left.items }
    {
        IdleTable {
            locked: self.lock(rt, room),
            left,
        }
    }
}

impl<K: Log, S: Receipts> IdleTable<K, S> {
    /// Unlocks the channels, and returns the table and its seats.
    pub fn unlock(self) -> (Table<K>, Vec<DepartedSeat<K, S>>)
        ensures same { (result.0 ≡ self.table) × (result.1.items ≡ self.left) }
        ensures back { AreAllSeats self.table.lines self.table.seats self.left }
    {
        let (table, left, _room) = self.unlock_with_buffer();
        (table, left)
    }

    /// Unlocks the channels, like `unlock`, and returns also the buffer for their locks.
    fn unlock_with_buffer(self) -> (Table<K>, Vec<DepartedSeat<K, S>>, LockBuffer<K>)
        ensures same { (result.0 ≡ self.table) × (result.1.items ≡ self.left) }
        ensures back { AreAllSeats self.table.lines self.table.seats self.left }
        ensures room { length self.table.lines.all ≤ result.2 }
    {
        let IdleTable { locked, left } = self;
        let (table, room) = locked.unlock();
        (table, left, room)
    }

    /// Returns the number of transactions that the seat at this index committed.
    pub fn count(&self, at: usize) -> usize
        requires { at < length self.now.left }
        ensures { (seat : _) → result ≡ length (slice_index_or self.now.left at seat).commits.receipts }
    {
        self.left[at].history.count()
    }

    /// Tries a transaction of the seat at this index without committing it. Returns the cause for which it must be
    /// retried, or `None` if it would commit. The transaction must fit the table's kinds. Returns the transaction's own
    /// stop, `Worn` if the seat or a channel can count no further, or `NoMemory` if allocation fails. The channels are
    /// unchanged afterwards, with their logs and stamps. Allocates.
    pub fn cause_to_retry<R: Wait>(
        &mut self,
        rt: &R,
        alloc: Global,
        at: usize,
        checked: &Checked,
    ) -> Result<Option<Cause>, Stop>
        requires there { at < length self.old.left }
        requires fits { Fits (slice_get self.old.table.kinds) checked.now.steps }
        ensures again { (seat : _) → IfOk result (λ found. IfSome found
            (MustRetry self.old.helds (slice_index_or self.old.left at seat).commits checked.now)) }
        ensures lawful { (seat : _) → IfOk result (λ found. IfSome found (λ cause. AreLawful
            (decls_of self.old.table.lines) (slice_index_or self.old.left at seat).commits.receipts
            (chan_in self.old.helds))) }
        ensures kept { (seat : _) → IfOk result (λ found. IfNone found
            (WouldKeep self.old.helds (slice_index_or self.old.left at seat).commits checked.now)) }
        ensures stopped { (seat : _) → IfErr result (λ stop. stop ≢ Stop.NoMemory
            → transaction (chan_in self.old.helds) (next_tag (slice_index_or self.old.left at seat).commits)
            checked.now.declared checked.now.steps ≡ Aborted stop) }
        ensures table { self.new.table ≡ self.old.table }
        ensures left { self.new.left ≡ self.old.left }
        ensures same { chan_in self.new.helds ≡ chan_in self.old.helds }
    {
        checked.show_fits(self.locked.kinds.as_slice());
        let seat = &mut self.left[at];
        self.locked.lines.show_known(&mut seat.shares);
        let tag = seat.history.next_tag();
        self.locked
            .lines
            .cause_to_retry(rt, Receipt::blank(alloc), tag, checked)
    }

    /// Tries a transaction of the seat at this index like `Table::attempt`, and returns the table and the result.
    pub fn attempt<R: Wait>(
        self,
        rt: &R,
        alloc: Global,
        at: usize,
        checked: &Checked,
    ) -> (IdleTable<K, S>, Result<Tried, Stop>)
        requires there { at < length self.left }
        requires fits { Fits (slice_get self.table.kinds) checked.now.steps }
        ensures tried { (seat : _) → IsTransacted (λ tried. tried) (decls_of self.table.lines) checked.now
            (slice_index_or self.left at seat).commits result.1 (slice_index_or result.0.left at seat).commits }
        ensures others { OthersStay at self.left result.0.left }
        ensures table { result.0.table ≡ self.table }
    {
        let Ok(draft) = Box::new(alloc, PaddedReceipt::blank(alloc)) else {
            return (self, Err(Stop::NoMemory));
        };
        let (table, mut left, room) = self.unlock_with_buffer();
        let DepartedSeat {
            history,
            shares,
            permit,
            table_share,
        } = left.remove(at);
        let mut seat = Seat {
            history,
            access: LineAccess { shares, permit },
            table_share,
            draft,
        };
        let tried = table.attempt(rt, alloc, &mut seat, checked);
        insert_seat(&mut left, at, seat.into_departed());
        (table.into_idle_in(rt, room, left), tried)
    }
}

/// Inserts a seat into a list that has room for it.
fn insert_seat<K: Log, S: Receipts>(
    left: &mut Vec<DepartedSeat<K, S>>,
    at: usize,
    seat: DepartedSeat<K, S>,
)
    requires there { at ≤ vec_len left.old }
    requires room { vec_len left.old < vec_capacity left.old }
    ensures { left.new.items ≡ insert left.old.items at seat }
{
    match left.insert(at, seat) {
        Ok(()) => {}
        Err(_) => unreachable!(),
    }
}

impl IdleTable {
    /// Returns the report of the table, as `Table::finish` does. Returns the table if allocation fails. Allocates, but
    /// not for the logs.
    pub fn finish<R: Wait>(self, rt: &R, alloc: Global) -> Result<Report, IdleTable>
        ensures finished { IfOk result (IsFinished self.table self.left) }
        ensures accounts { IfOk result (λ report. AreAccounts (decls_of self.table.lines) self.helds
            (length self.table.kinds) report.accounts) }
        ensures again { IfErr result (λ idle. idle ≡ self) }
    {
        let IdleTable { mut locked, left } = self;
        let Some(buffers) = buffers_for(&mut locked.lines, alloc, &locked.table_seats) else {
            return Err(IdleTable { locked, left });
        };
        let LockedTable {
            lines,
            shelves: _,
            kinds: _,
            table_seats,
            wait_queue: _,
        } = locked;
        Ok(report(rt, lines, &table_seats, left, buffers))
    }
}
