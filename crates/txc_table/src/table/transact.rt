// Transactions that wait.
ghost use Rattle.std.specs.Prelude.{◌≡◌, ◌≢◌, IfErr, IfNone, IfOk, IfSome, OnErr, slice_get};
ghost use Rattle.txc_base.specs.declared.cause.Cause.{Cause};
ghost use Rattle.txc_txn_check.specs.Steps.{Fits};
ghost use Rattle.txc_table_seat.specs.Seated.{next_tag};
ghost use Rattle.txc_table.specs.Ended.{as_tried};
ghost use Rattle.txc_table.specs.Seat.{seen_at};
ghost use Rattle.txc_table.specs.Table.{decls_of};
ghost use Rattle.txc_table.specs.Outcome.{AreFound, IsAttempted, Sees, Tells};
ghost use Rattle.txc_txn.specs.Maps.{Map};
ghost use Rattle.txc_txn.specs.Transaction.{Again, Aborted, transaction};
ghost use Rattle.txc_table_interests.specs.Interests.{interests_of};

use super::Table;
use crate::deadline::{Deadline, NoDeadline, UntilInstant};
use crate::gate::NoGate;
use crate::seat::Seat;
use crate::tried::{Ended, Tried};
use std::alloc::Global;
use std::hint::spin_loop;
use std::sync::Wait;
use std::time::{Clock, Instant};
use txc_base::Stop;
use txc_chan::Log;
use txc_table_interests::{Interests, interests_of};
use txc_table_seat::Receipts;
use txc_txn::Checked;

/// How many tries a seat makes before it registers at the wait queue, because another thread may be about to change
/// what it waits for.
const EARLY_TRIES: u32 = 3;

/// How many turns of a spin loop a seat makes between these tries, in about half a microsecond.
const SPINS: u32 = 60;

/// What a seat waits for between two tries, and how long.
#[derive(Drop)]
struct WaitOptions<'a, W> {
    interests: &'a Interests,
    deadline: &'a W,
}

/// Spins for a short time.
fn pause() {
    for _ in 0..SPINS {
        spin_loop();
    }
}

impl<K: Log> Table<K> {
    /// Tries a transaction until it commits, or until no seat can proceed by itself. Returns `Kept` as `attempt` does,
    /// or `Stalled` with the cause of the last try. From the fourth try on, it waits between two tries, without a lock,
    /// until a transaction commits that changes what this one waits for, in a channel that it names. The seat must be
    /// one of this table, and the transaction must fit its kinds. Returns the stop of a try, as `attempt` does. After a
    /// stall or a stop the seat and the channels are unchanged. Blocks forever if another seat that has not left never
    /// commits, waits or leaves. Allocates.
    pub fn transact<S: Receipts, R: Wait>(
        &self,
        rt: &R,
        alloc: Global,
        seat: &mut Seat<K, S>,
        checked: &Checked,
    ) -> Result<Ended, Stop>
        requires of { seat.old.lines ≡ self.now.lines }
        requires fits { Fits (slice_get self.now.kinds) checked.now.steps }
        ensures outcome { IsAttempted as_tried (decls_of self.now.lines) checked.now seat.old result seat.new }
        ensures lines { seat.new.lines ≡ seat.old.lines }
    {
        match self.transact_for(rt, alloc, seat, checked, &NoDeadline { rt })? {
            Tried::Kept(number) => Ok(Ended::Kept(number)),
            // `NoDeadline` has no deadline, so this is a stall.
            Tried::Retry(cause) => Ok(Ended::Stalled(cause)),
        }
    }

    /// Tries a transaction like `transact`, but at most until this deadline. Returns `Kept`, or `Retry` with the cause
    /// of the last try if the deadline has passed or the clock cannot be read, and the seat was not notified since
    /// before that try. It tries at least once, even if the deadline has already passed, and once more for each
    /// notification, even past the deadline. Until the deadline has passed the seat counts as running, so no seat
    /// stalls. After a retry the seat no longer waits, and the seat and the channels are unchanged. A lock can block it
    /// past the deadline. Allocates.
    pub fn transact_until<S: Receipts, R: Wait + Clock>(
        &self,
        rt: &R,
        alloc: Global,
        seat: &mut Seat<K, S>,
        checked: &Checked,
        until: Instant,
    ) -> Result<Tried, Stop>
        requires of { seat.old.lines ≡ self.now.lines }
        requires fits { Fits (slice_get self.now.kinds) checked.now.steps }
        ensures outcome { IsAttempted (λ tried. tried) (decls_of self.now.lines) checked.now seat.old result seat.new }
        ensures lines { seat.new.lines ≡ seat.old.lines }
    {
        // A seat that waits until a deadline never stalls, so after `Retry` the time has passed.
        self.transact_for(rt, alloc, seat, checked, &UntilInstant { rt, until })
    }

    /// Tries a transaction until it commits, or until a wait ends without a notification. Then it returns `Retry` with
    /// the cause of the last try. The deadline determines what that means: a stall for `NoDeadline`, and that the time
    /// has passed for `UntilInstant`.
    fn transact_for<S: Receipts, R: Wait, W: Deadline>(
        &self,
        rt: &R,
        alloc: Global,
        seat: &mut Seat<K, S>,
        checked: &Checked,
        deadline: &W,
    ) -> Result<Tried, Stop>
        requires of { seat.old.lines ≡ self.now.lines }
        requires fits { Fits (slice_get self.now.kinds) checked.now.steps }
        ensures outcome { IsAttempted (λ tried. tried) (decls_of self.now.lines) checked.now seat.old result seat.new }
        ensures lines { seat.new.lines ≡ seat.old.lines }
    {
        for tries in 0..EARLY_TRIES {
            if tries > 0 {
                pause();
            }
            match self.attempt_with(rt, alloc, seat, checked, None::<&mut NoGate>)? {
                Tried::Kept(number) => return Ok(Tried::Kept(number)),
                Tried::Retry(_) => {}
            }
        }
        let interests = interests_of(self.kinds.as_slice(), checked);
        let options = WaitOptions {
            interests: &interests,
            deadline,
        };
        let tried = self.try_until_kept(rt, alloc, seat, checked, &options);
        self.wait_queue
            .unregister(seat.number(), interests.as_slice());
        tried
    }

    /// Makes the later tries of `transact_for` with these options. The seat stays registered at the wait queue.
    fn try_until_kept<S: Receipts, R: Wait, W: Deadline>(
        &self,
        rt: &R,
        alloc: Global,
        seat: &mut Seat<K, S>,
        checked: &Checked,
        options: &WaitOptions<'_, W>,
    ) -> Result<Tried, Stop>
        requires of { seat.old.lines ≡ self.now.lines }
        requires fits { Fits (slice_get self.now.kinds) checked.now.steps }
        requires interests { options.now.interests.now.items
            ≡ interests_of (slice_get self.now.kinds) checked.now.declared checked.now.steps }
        ensures outcome { IsAttempted (λ tried. tried) (decls_of self.now.lines) checked.now seat.old result seat.new }
        ensures lines { seat.new.lines ≡ seat.old.lines }
    {
        for _ in rt.forever() {
            match self.try_once(rt, alloc, seat, checked, options) {
                Ok(None) => {}
                Ok(Some(tried)) => return Ok(tried),
                Err(stop) => return Err(stop),
            }
        }
        unreachable!()
    }

    /// Registers the seat at the wait queue for what this transaction waits for.
    fn register<R: Wait>(&self, rt: &R, seat: u16, checked: &Checked, interests: &Interests)
        requires { interests.now.items ≡ interests_of
            (slice_get self.now.kinds) checked.now.declared checked.now.steps }
    {
        // Only for the proof: this is the transaction.
        let _whose = checked;
        self.wait_queue.register(rt, seat, interests.as_slice());
    }

    /// Makes a try that is not the first, and waits after it if it must be retried. Returns the result of the try, or
    /// `None` if the seat was notified, so that another try can succeed.
    fn try_once<S: Receipts, R: Wait, W: Deadline>(
        &self,
        rt: &R,
        alloc: Global,
        seat: &mut Seat<K, S>,
        checked: &Checked,
        options: &WaitOptions<'_, W>,
    ) -> Result<Option<Tried>, Stop>
        requires of { seat.old.lines ≡ self.now.lines }
        requires fits { Fits (slice_get self.now.kinds) checked.now.steps }
        requires interests { options.now.interests.now.items
            ≡ interests_of (slice_get self.now.kinds) checked.now.declared checked.now.steps }
        ensures outcome { IfOk result (λ ended. IfSome ended (λ tried. (m : Map)
            × AreFound (decls_of self.now.lines) seat.old.commits.receipts (seen_at seat.old) m
            × Tells m seat.old.commits checked.now tried seat.new.commits)) }
        ensures lines { seat.new.lines ≡ seat.old.lines }
        ensures sees { IfOk result (λ ended. IfSome ended (λ tried. Sees seat.old tried seat.new)) }
        ensures again { IfOk result (λ ended. IfNone ended (seat.new ≡ seat.old)) }
        ensures retried { IfOk result (λ ended. IfNone ended ((m : Map)
            × AreFound (decls_of self.now.lines) seat.old.commits.receipts (seen_at seat.old) m
            × ((cause : Cause) × (transaction m (next_tag seat.old.commits) checked.now.declared checked.now.steps
            ≡ Again cause)))) }
        ensures stopped { IfErr result (λ stop. stop ≢ Stop.NoMemory
            → ((m : Map) × AreFound (decls_of self.now.lines) seat.old.commits.receipts (seen_at seat.old) m
            × (transaction m (next_tag seat.old.commits) checked.now.declared checked.now.steps ≡ Aborted stop))) }
        ensures unchanged { OnErr result (seat.new ≡ seat.old) }
    {
        // Before the try: a commit that comes after it finds the seat.
        self.register(rt, seat.number(), checked, options.interests);
        match self.attempt(rt, alloc, seat, checked)? {
            Tried::Kept(number) => Ok(Some(Tried::Kept(number))),
            Tried::Retry(cause) => {
                if options.deadline.wait(&self.wait_queue, seat.number()) {
                    Ok(None)
                } else {
                    Ok(Some(Tried::Retry(cause)))
                }
            }
        }
    }
}
