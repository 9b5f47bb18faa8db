// A transaction that runs operation by operation.
ghost use Rattle.std.specs.Prelude.{◌≡◌, ◌≢◌, ℕ, List, [], true, nat_eq, Contains, IfOk, IfErr, OnOk, length, take};
ghost use Rattle.std.specs.List.{list_any};
ghost use Rattle.txc_base.specs.Kinds.{supports};
ghost use Rattle.txc_base.specs.Op.{chan_of};
ghost use Rattle.txc_txn.specs.Growth.{AllGrow, IsMarked};
ghost use Rattle.txc_txn.specs.Maps.{Map, kinds_of, settle_all};
ghost use Rattle.txc_txn.specs.OpenTransaction.{IsMarkedSince};
ghost use Rattle.txc_txn.specs.Run.{KeepsTrace, ending_of, receipt_of, state_of};
ghost use Rattle.txc_txn.specs.Transaction.{Aborted, op_in, start};

use crate::held::settle_declared;
use crate::hold::Hold;
use crate::open_savepoint::OpenSavepoint;
use crate::receipt::Receipt;
use crate::run::Run;
use crate::settle::Settle;
use crate::trace::{StepOutcome, Trace};
use crate::undo::{undo_all, undo_to};
use std::alloc::{AllocError, Global};
use txc_base::{Op, Stop, Tag};
use txc_chan::Append;

/// The number of replies, and of acts, that a new receipt gets memory for with its first one. Any number is correct.
const FIRST_CAPACITY: usize = 4;

/// A transaction that runs operation by operation, until it commits or is rolled back.
#[derive(Drop)]
pub struct OpenTransaction {
    /// The tag of the log entries that it adds.
    pub tag: Tag,
    /// The body that it read or peeked last, and its replies and acts so far.
    pub trace: Trace,
    /// The channels that it has touched, in the order of their first operations.
    pub touched: Vec<u16>,
    /// How many entries of each touched channel could be undone before this transaction.
    pub marks: Vec<usize>,
}

impl OpenTransaction {
    /// Begins a transaction that commits under this tag, in the memory of the receipt `recycled`.
    pub fn begin(alloc: Global, recycled: Receipt, tag: Tag) -> OpenTransaction
        ensures tag { result.tag ≡ tag }
        ensures start { (m : Map) → state_of m result.trace ≡ start m }
        ensures touched { (result.touched.items ≡ []) × (result.marks.items ≡ []) }
        ensures marked { (m : Map) → IsMarked tag result.touched.items result.marks.items m m }
    {
        OpenTransaction {
            tag,
            trace: Trace::reusing(recycled, FIRST_CAPACITY),
            touched: Vec::new(alloc),
            marks: Vec::new(alloc),
        }
    }

    /// Returns whether it has touched this channel.
    fn has_touched(&self, chan: u16) -> bool
        ensures { result ≡ list_any (λ on. nat_eq on chan) self.now.touched.items }
    {
        self.touched.as_slice().contains(&chan)
    }

    /// Notes that it touches a channel. Returns `AllocError` if allocation fails; the transaction is then unchanged.
    fn touch<H: Hold>(&mut self, hold: &mut H, chan: u16) -> Result<(), AllocError>
        requires held { H.IsHeld hold.old chan }
        ensures there { OnOk result (Contains self.new.touched.items chan) }
        ensures touched { ((n : ℕ) → Contains self.old.touched.items n → H.IsHeld hold.old n)
            → (n : ℕ) → Contains self.new.touched.items n → H.IsHeld hold.old n }
        ensures marks { length self.old.marks.items ≡ length self.old.touched.items
            → length self.new.marks.items ≡ length self.new.touched.items }
        ensures marked { (saved : List ℕ) (before : Map) → IsMarkedSince saved self.old before (H.chans hold.old)
            → IsMarkedSince saved self.new before (H.chans hold.old) }
        ensures rest { (self.new.tag ≡ self.old.tag) × (self.new.trace ≡ self.old.trace) }
        ensures same { hold.new ≡ hold.old }
    {
        if self.has_touched(chan) {
            return Ok(());
        }
        self.touched.reserve(1)?;
        self.marks.reserve(1)?;
        self.touched.push_reserved(chan);
        self.marks.push_reserved(hold.pending(chan));
        Ok(())
    }

    /// Runs an operation of the transaction. The channel must be held, and its kind must have the operation. Returns
    /// whether the operation ran or must be retried. Returns the stop if the operation aborts, and `NoMemory` if
    /// allocation fails. After a retry or an error the transaction must be rolled back, to a savepoint or as a whole.
    /// Blocks only if the handle permits it.
    pub fn apply<H: Hold, R: Append>(
        &mut self,
        rt: &R,
        hold: &mut H,
        op: &Op,
    ) -> Result<StepOutcome, Stop>
        requires held { H.IsHeld hold.old (chan_of op.now) }
        requires supports { supports (H.chans hold.old (chan_of op.now)).decl.kind op.now ≡ true }
        ensures held { (n : ℕ) → H.IsHeld hold.old n → H.IsHeld hold.new n }
        ensures ok { IfOk result (λ flow. op_in self.old.tag op.now (state_of (H.chans hold.old) self.old.trace)
            ≡ ending_of flow (state_of (H.chans hold.new) self.new.trace)) }
        ensures err { IfErr result (λ stop. stop ≢ Stop.NoMemory
            → op_in self.old.tag op.now (state_of (H.chans hold.old) self.old.trace) ≡ Aborted stop) }
        ensures marked { (saved : List ℕ) (before : Map) → IsMarkedSince saved self.old before (H.chans hold.old)
            → IsMarkedSince saved self.new before (H.chans hold.new) }
        ensures touched { ((n : ℕ) → Contains self.old.touched.items n → H.IsHeld hold.old n)
            → (n : ℕ) → Contains self.new.touched.items n → H.IsHeld hold.new n }
        ensures marks { length self.old.marks.items ≡ length self.old.touched.items
            → length self.new.marks.items ≡ length self.new.touched.items }
        ensures grows { AllGrow self.old.tag (H.chans hold.old) (H.chans hold.new) }
        ensures keeps { KeepsTrace self.old.trace self.new.trace }
        ensures tag { self.new.tag ≡ self.old.tag }
        ensures fixed { H.fixed hold.new ≡ H.fixed hold.old }
    {
        self.touch(hold, op.chan())?;
        let run = Run {
            rt,
            tag: self.tag,
            declared: &[],
        };
        run.op(hold, &mut self.trace, op)
    }

    /// Returns a point that the transaction can be rolled back to. Returns `AllocError` if allocation fails.
    pub fn savepoint<H: Hold>(
        &self,
        alloc: Global,
        hold: &mut H,
    ) -> Result<OpenSavepoint, AllocError>
        requires held { (n : ℕ) → Contains self.now.touched.items n → H.IsHeld hold.old n }
        ensures marked { (before : Map) → IsMarkedSince [] self.now before (H.chans hold.old)
            → IfOk result (λ point. IsMarkedSince point.marks.items self.now (H.chans hold.old) (H.chans hold.old)) }
        ensures same { hold.new ≡ hold.old }
        ensures trace { IfOk result (λ point. (point.last ≡ self.now.trace.last)
            × (point.replies ≡ length self.now.trace.replies.items)
            × (point.deeds ≡ length self.now.trace.deeds.items)) }
    {
        OpenSavepoint::of(alloc, hold, self.touched.as_slice(), &self.trace)
    }

    /// Undoes the operations since a savepoint of this transaction.
    pub fn roll_back_to<H: Hold>(&mut self, hold: &mut H, point: &OpenSavepoint)
        requires held { (n : ℕ) → Contains self.old.touched.items n → H.IsHeld hold.old n }
        requires marks { length self.old.marks.items ≡ length self.old.touched.items }
        ensures held { (n : ℕ) → H.IsHeld hold.old n → H.IsHeld hold.new n }
        ensures kinds { kinds_of (H.chans hold.new) ≡ kinds_of (H.chans hold.old) }
        ensures back { (before : Map) → IsMarkedSince point.now.marks.items self.old before (H.chans hold.old)
            → H.chans hold.new ≡ before }
        ensures last { self.new.trace.last ≡ point.now.last }
        ensures replies { self.new.trace.replies.items ≡ take point.now.replies self.old.trace.replies.items }
        ensures deeds { self.new.trace.deeds.items ≡ take point.now.deeds self.old.trace.deeds.items }
        ensures rest { (self.new.tag ≡ self.old.tag) × (self.new.touched ≡ self.old.touched)
            × (self.new.marks ≡ self.old.marks) }
        ensures fixed { H.fixed hold.new ≡ H.fixed hold.old }
    {
        let touched = self.touched.as_slice();
        let (saved, marks) = (point.marks.as_slice(), self.marks.as_slice());
        for i in 0..touched.len() {
            let mark = if i < saved.len() { saved[i] } else { marks[i] };
            undo_to(hold, touched[i], mark);
        }
        point.truncate_trace(&mut self.trace);
    }

    /// Commits the transaction and returns its receipt. The touched channels get the receipt's stamp, and their changes
    /// can no longer be undone.
    pub fn commit<H: Settle>(self, hold: &mut H) -> Receipt
        requires held { (n : ℕ) → Contains self.touched.items n → H.IsHeld hold.old n }
        ensures held { (n : ℕ) → H.IsHeld hold.old n → H.IsHeld hold.new n }
        ensures receipt { (m : Map) → result ≡ receipt_of self.tag (state_of m self.trace) }
        ensures settled { H.chans hold.new ≡ settle_all (H.chans hold.old) self.tag.stamp self.touched.items }
        ensures fixed { H.fixed hold.new ≡ H.fixed hold.old }
    {
        settle_declared(hold, self.tag.stamp, self.touched.as_slice());
        self.trace.receipt(self.tag)
    }

    /// Undoes the transaction: the channels are as they were when it began.
    pub fn roll_back<H: Hold>(self, hold: &mut H)
        requires held { (n : ℕ) → Contains self.touched.items n → H.IsHeld hold.old n }
        requires marks { length self.marks.items ≡ length self.touched.items }
        ensures held { (n : ℕ) → H.IsHeld hold.old n → H.IsHeld hold.new n }
        ensures kinds { kinds_of (H.chans hold.new) ≡ kinds_of (H.chans hold.old) }
        ensures back { (before : Map) → IsMarkedSince [] self before (H.chans hold.old)
            → H.chans hold.new ≡ before }
        ensures fixed { H.fixed hold.new ≡ H.fixed hold.old }
    {
        undo_all(hold, self.touched.as_slice(), self.marks.as_slice());
    }
}
