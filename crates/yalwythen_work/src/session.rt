// A worker's handle of its table.
ghost use Rattle.std.specs.Prelude.{◌≡◌, ◌<◌, ◌+◌, ◌↔◌, ℕ, IfOk, IfErr, IfSome, IsTrue, OnErr, OnOk};
ghost use Rattle.std.specs.Prelude.{[], length, slice_get};
ghost use Rattle.txc_txn_check.specs.Limits.{IsChecked};
ghost use Rattle.txc_txn_check.specs.Steps.{Fits};
ghost use Rattle.yalwythen_work.specs.Committed.{HasCommittedSteps, HasFailedWith, IsSnapshotError, IsTried};
ghost use Rattle.yalwythen_work.specs.Committed.{kept_after, last_item};
ghost use Rattle.yalwythen_work.specs.Committed.{replies_in};
ghost use Rattle.yalwythen_work.specs.Drained.{AreRead, IsDrained, reading};
ghost use Rattle.yalwythen_work.specs.Plans.{KeepsPlans};
ghost use Rattle.yalwythen_work.specs.SeatWithPlans.{IsAfterSession};
ghost use Rattle.yalwythen_work.specs.Session.{logs_seen, with_seen};
ghost use Rattle.yalwythen_work.specs.Unready.{IsCheckError};
ghost use Rattle.txc_chan.specs.Chan.{summary_of};
ghost use Rattle.txc_table_line.specs.Account.{IsSnapshotOf};
ghost use Rattle.txc_table_line.specs.Line.{decl_at};
ghost use Rattle.txc_table.specs.Seat.{SeesMore};
ghost use Rattle.txc_table.specs.Table.{decls_of};
ghost use Rattle.txc_table_seat.specs.Seated.{count, last_receipt};
ghost use Rattle.txc_table.specs.Seen.{IsBroadcastAt, IsSeen};

mod prepared;
mod recorded;

use crate::answers::{found_closed, last_item};
use crate::gate::OpenGate;
use crate::one_shot::FillPermit;
use crate::plans::Plans;
use crate::recording::Recording;
use crate::seat_with_plans::SeatWithPlans;
use crate::transact_error::TransactError;
pub use prepared::Prepared;
use std::alloc::Global;
use std::marker::Model;
use std::sync::Wait;
use std::time::{Clock, Instant};
use txc_base::{Item, Kind, Op, Reply};
use txc_cast::Sight;
use txc_chan::{FullLog, Summary};
use txc_table::{Ended, Gate, Seat, Table, Tried};
use txc_txn_check::{Checked, Step, TxnFault};

/// A worker's handle of the table, through the worker's own seat. Its public methods have no preconditions: each call
/// checks the steps against the table's channels. The seat is always one of the table. When the session is dropped, its
/// seat goes into the cell that the session was made for.
pub struct Session<'a, K: Recording = FullLog> {
    alloc: Global,
    table: &'a Table<K>,
    seat: Seat<K, K::Receipts>,
    plans: Plans,
    permit: FillPermit<'a, K>,
}

impl<'a, K: Recording> Model for Session<'a, K> {
    ghost use Rattle.std.specs.Coded.{codes};
    ghost use Rattle.txc_txn_check.specs.contracts.step.Step as step;
    ghost use Rattle.yalwythen_work.specs.Session.{SessionView, IsSession};

    ghost Value = { SessionView };

    // Only for the proof: values of `Value` have a code, because the steps in them have one.
    ghost coded = { Prim.hlevel (codes, step.the_row.coded) };

    ghost view = { λ session. record {
      table = session.table.now;
      seat = session.seat.commits;
      seen = session.seat.seen;
      audited = session.plans.audited;
      plans = session.plans.kept;
      prepared = session.plans.prepared;
    } };

    ghost invariant = { λ session. IsSession session.permit session.table.now session.seat session.plans };
}

impl<K: Recording> Drop for Session<'_, K> {
    fn drop(self) {
        let Session {
            alloc: _,
            table: _,
            seat,
            plans,
            permit,
        } = self;
        permit.fill(SeatWithPlans { seat, plans });
    }
}

/// Checks these steps as a transaction of these kinds, and reserves capacity to note the transaction. Fails with
/// `Unfit` if the steps are not a transaction of these kinds, and with `Stopped(NoMemory)` if allocation fails.
fn ready(plans: &mut Plans, steps: Vec<Step>, kinds: &[Kind]) -> Result<Checked, TransactError>
    ensures steps { IfOk result (λ plan. plan.steps ≡ steps.items) }
    ensures checked { IfOk result (λ plan. IsChecked plan) }
    ensures fits { IfOk result (λ plan. Fits (slice_get kinds.now) plan.steps) }
    ensures err { IfErr result (IsCheckError kinds.now steps.items) }
    ensures room { OnOk result (IsTrue plans.new.audited → 0 < plans.new.room) }
    ensures once { OnOk result (IsTrue plans.new.audited → 0 < plans.new.room_once) }
    ensures same { KeepsPlans plans.old plans.new }
{
    let plan = Checked::check(steps, kinds)?;
    plan.show();
    plans.reserve()?;
    Ok(plan)
}

/// Notes this transaction if this try of it committed. There must be capacity for it.
fn note_if_kept(plans: &mut Plans, plan: Checked, tried: Tried)
    requires room { IsTrue plans.old.audited → 0 < plans.old.room }
    requires once { IsTrue plans.old.audited → 0 < plans.old.room_once }
    ensures kept { plans.new.kept ≡ kept_after plans.old.audited plans.old.kept plan tried }
    ensures prepared { plans.new.prepared ≡ plans.old.prepared }
    ensures audited { plans.new.audited ≡ plans.old.audited }
{
    match tried {
        Tried::Kept(_) => plans.note(plan),
        Tried::Retry(_) => {}
    }
}

impl<'a, K: Recording> Session<'a, K> {
    /// Makes a session at this table from a seat of the table and its transactions. The session puts them into a cell
    /// when it is dropped.
    pub(crate) fn new(
        alloc: Global,
        table: &'a Table<K>,
        both: SeatWithPlans<K>,
        permit: FillPermit<'a, K>,
    ) -> Session<'a, K>
        requires of { both.seat.lines ≡ table.now.lines }
        requires its { IsAfterSession permit both }
        requires unprepared { both.plans.prepared ≡ [] }
    {
        let SeatWithPlans { seat, plans } = both;
        Session {
            alloc,
            table,
            seat,
            plans,
            permit,
        }
    }
}

impl<K: Recording> Session<'_, K> {
    /// Returns the number of the session's seat, from 0. It is also the number of the worker.
    pub fn number(&self) -> u16
        ensures { result ≡ self.now.seat.number }
    {
        self.seat.number()
    }

    /// Returns the allocator that was passed to `run` or `serve`.
    pub fn alloc(&self) -> Global {
        self.alloc
    }

    /// Returns the kinds of the channels, indexed by channel number.
    pub fn kinds(&self) -> &[Kind]
        ensures { result.now ≡ self.now.table.kinds }
    {
        self.table.kinds()
    }

    /// Runs these steps as one atomic transaction, retrying until it commits, and returns the number of its receipt.
    ///
    /// Fails with `Unfit` if the steps are not a transaction of these channels. Fails with `Stalled` if every worker
    /// that has not ended is waiting with no deadline. Fails with `Stopped` if the transaction aborts or allocation
    /// fails. On failure the session is unchanged.
    ///
    /// Between two tries it waits, holding no lock, until another worker commits a change that the transaction waits
    /// for, in a channel that the transaction names. It can block forever if some other running worker never runs a
    /// transaction, waits or ends.
    pub fn transact<R: Wait>(&mut self, rt: &R, steps: Vec<Step>) -> Result<usize, TransactError>
        ensures committed { IfOk result (λ number. HasCommittedSteps self.old steps.items number self.new) }
        ensures failed { IfErr result (λ error. HasFailedWith self.old steps.items error) }
        ensures same { OnErr result (self.new ≡ self.old) }
    {
        let plan = ready(&mut self.plans, steps, self.table.kinds())?;
        match self.table.transact(rt, self.alloc, &mut self.seat, &plan)? {
            Ended::Kept(number) => {
                self.plans.note(plan);
                Ok(number)
            }
            Ended::Stalled(cause) => Err(TransactError::Stalled(cause)),
        }
    }

    /// Tries these steps once as one transaction. Returns `Kept` with the number of the receipt if the transaction
    /// commits. Returns `Retry` with the cause if it must be retried; the session is then unchanged.
    ///
    /// Fails with `Unfit` if the steps are not a transaction of these channels, and with `Stopped` if the transaction
    /// aborts or allocation fails. On failure the session is unchanged.
    ///
    /// Does not wait for other workers' changes. Blocks on the locks of the channels that the steps name. After
    /// releasing them, it blocks on the wait queue's lock if a worker waits for what the transaction changed.
    pub fn attempt<R: Wait>(&mut self, rt: &R, steps: Vec<Step>) -> Result<Tried, TransactError>
        ensures tried { IfOk result (λ tried. IsTried self.old steps.items tried self.new) }
        ensures failed { IfErr result (λ error. HasFailedWith self.old steps.items error) }
        ensures same { OnErr result (self.new ≡ self.old) }
    {
        let mut gate = OpenGate;
        self.attempt_through(rt, steps, &mut gate)
    }

    /// Tries a transaction once like `attempt`, and calls `gate.pass` once, after it has acquired the last lock and
    /// before the first operation. The locks are held during that call.
    ///
    /// Fails with `Unfit` or `Stopped` like `attempt`. If the steps are invalid or allocation fails first, the gate is
    /// not called. Blocks like `attempt`.
    pub fn attempt_through<R: Wait, G: Gate>(
        &mut self,
        rt: &R,
        steps: Vec<Step>,
        gate: &mut G,
    ) -> Result<Tried, TransactError>
        ensures tried { IfOk result (λ tried. IsTried self.old steps.items tried self.new) }
        ensures failed { IfErr result (λ error. HasFailedWith self.old steps.items error) }
        ensures same { OnErr result (self.new ≡ self.old) }
    {
        let plan = ready(&mut self.plans, steps, self.table.kinds())?;
        let tried = self
            .table
            .attempt_through(rt, self.alloc, &mut self.seat, &plan, gate)?;
        note_if_kept(&mut self.plans, plan, tried);
        Ok(tried)
    }

    /// Runs a transaction like `transact`, until `until` at most. Returns `Kept` with the number of the receipt if the
    /// transaction commits. Returns `Retry` with the cause of the last try if the deadline has passed or the clock
    /// cannot be read; the session is then unchanged.
    ///
    /// It tries at least once, even if the deadline has already passed. Until the deadline has passed, the worker
    /// counts as running, so no worker's transaction returns `Stalled`. Fails with `Unfit` or `Stopped` like
    /// `transact`. A lock can block it past the deadline.
    pub fn transact_until<R: Wait + Clock>(
        &mut self,
        rt: &R,
        steps: Vec<Step>,
        until: Instant,
    ) -> Result<Tried, TransactError>
        ensures tried { IfOk result (λ tried. IsTried self.old steps.items tried self.new) }
        ensures failed { IfErr result (λ error. HasFailedWith self.old steps.items error) }
        ensures same { OnErr result (self.new ≡ self.old) }
    {
        let plan = ready(&mut self.plans, steps, self.table.kinds())?;
        let tried = self
            .table
            .transact_until(rt, self.alloc, &mut self.seat, &plan, until)?;
        note_if_kept(&mut self.plans, plan, tried);
        Ok(tried)
    }

    /// Runs the steps of an array like `transact`, without returning the number of the receipt. Fails with `Unfit`,
    /// `Stalled` or `Stopped` like `transact`. Blocks like `transact`.
    pub fn run<R: Wait, const N: usize>(
        &mut self,
        rt: &R,
        steps: [Step; N],
    ) -> Result<(), TransactError>
        ensures committed { IfOk result (λ _. (number : ℕ) × HasCommittedSteps self.old steps.entry number self.new) }
        ensures failed { IfErr result (λ error. HasFailedWith self.old steps.entry error) }
        ensures same { OnErr result (self.new ≡ self.old) }
    {
        let steps = Vec::from_array(self.alloc, steps)?;
        self.transact(rt, steps)?;
        Ok(())
    }

    /// Runs a transaction like `run` and returns the item that it read or peeked last. Returns `None` if it read no
    /// item, for instance because the channel is closed and empty. Fails with `Unfit`, `Stalled` or `Stopped` like
    /// `transact`. Blocks like `transact`.
    pub fn take<R: Wait, const N: usize>(
        &mut self,
        rt: &R,
        steps: [Step; N],
    ) -> Result<Option<Item>, TransactError>
        ensures committed { IfOk result (λ item. (number : ℕ) × HasCommittedSteps self.old steps.entry number self.new
            × (item ≡ last_item (replies_in (slice_get self.new.seat.receipts number)))) }
        ensures failed { IfErr result (λ error. HasFailedWith self.old steps.entry error) }
        ensures same { OnErr result (self.new ≡ self.old) }
    {
        let steps = Vec::from_array(self.alloc, steps)?;
        let number = self.transact(rt, steps)?;
        Ok(last_item(self.replies_of(number)))
    }

    /// Reads and drops the items of a reader of a channel, each in a transaction of its own, until the channel is
    /// closed and empty. Use it so that items do not accumulate for a reader that is no longer needed.
    ///
    /// Fails with `Unfit` if the read is not a transaction of these channels. Fails with `Stalled` if every worker that
    /// has not ended is waiting with no deadline, for instance on a channel that is never closed. Fails with `Stopped`
    /// if the read aborts, for instance with `NoReader` if there is no such reader, or if allocation fails. On failure
    /// the items read before stay read. Blocks like `transact` while there is nothing to read.
    pub fn drain<R: Wait>(&mut self, rt: &R, chan: u16, reader: u16) -> Result<(), TransactError>
        ensures drained { OnOk result (IsDrained chan reader self.old self.new) }
        ensures failed { IfErr result (λ error. (count : ℕ) × AreRead count chan reader self.old self.new
            × HasFailedWith self.new (reading chan reader) error) }
    {
        for _ in rt.forever() {
            let read = Step::Do(Op::Read { chan, reader });
            let steps = Vec::from_array(self.alloc, [read])?;
            let number = self.transact(rt, steps)?;
            if found_closed(self.replies_of(number)) {
                return Ok(());
            }
        }
        unreachable!()
    }

    /// Returns the number of transactions that this session has committed.
    pub fn count(&self) -> usize
        ensures { result ≡ length self.now.seat.receipts }
    {
        self.seat.count()
    }

    /// Returns the replies of the last committed transaction. Returns an empty slice before the first one.
    pub fn replies(&self) -> &[Reply]
        ensures { result.now ≡ replies_in (last_receipt self.now.seat.receipts) }
    {
        match self.seat.last() {
            Some(receipt) => receipt.replies.as_slice(),
            None => &[],
        }
    }

    /// Returns the replies of the transaction whose receipt has this number, which must be the last one.
    pub(crate) fn replies_of(&self, number: usize) -> &[Reply]
        requires { number + 1 ≡ length self.now.seat.receipts }
        ensures { result.now ≡ replies_in (slice_get self.now.seat.receipts number) }
    {
        prove!(number < self.count());
        self.replies()
    }

    /// Returns whether there is a channel with this number.
    fn is_there(&self, chan: u16) -> bool
        ensures { IsTrue result ↔ (chan < length self.now.table.kinds) }
    {
        usize::from(chan) < self.table.kinds().len()
    }

    /// Takes a snapshot of a channel without its log.
    ///
    /// The channel has at least the entries that the session has seen of its log. Fails with `Unfit(NoChannel)` if
    /// there is no such channel, with `Stopped(NoMemory)` if allocation fails, and with no other error. The session has
    /// then seen the channel's log and is otherwise unchanged. Blocks on that channel's lock. Allocates memory for the
    /// items left in the channel.
    pub fn summary<R: Wait>(&mut self, rt: &R, chan: u16) -> Result<Summary, TransactError>
        ensures ok { IfOk result (IsSnapshotOf summary_of (decl_at (decls_of self.old.table.lines) chan)
            (count chan self.old.seat.receipts) (logs_seen self.new chan)) }
        ensures seen { SeesMore (logs_seen self.old) (logs_seen self.new) }
        ensures there { OnOk result (chan < length self.old.table.kinds) }
        ensures err { IfErr result (IsSnapshotError self.old chan) }
        ensures same { self.new ≡ with_seen self.old self.new.seen }
        ensures unchanged { OnErr result (self.new ≡ self.old) }
    {
        if !self.is_there(chan) {
            return Err(TransactError::Unfit(TxnFault::NoChannel));
        }
        Ok(self.table.summary(rt, &mut self.seat, chan)?)
    }

    /// Returns the item at a slot of a broadcast channel's shelf. The shelf has each written item, also those of a
    /// transaction that has not committed or was rolled back, at a slot that never changes. Returns `None` if there is
    /// no such channel, if the channel is a queue, if the slot is still empty, and always under `serve`. Takes no lock.
    pub fn look(&self, chan: u16, slot: usize) -> Option<Sight>
        ensures own { IfSome result (λ sight. IsSeen self.now.table.made chan sight) }
        ensures slot { IfSome result (λ sight. sight.slot ≡ slot) }
        ensures broadcast { IfSome result (λ sight. IsBroadcastAt self.now.table.kinds chan) }
    {
        self.table.look(chan, slot)
    }
}
