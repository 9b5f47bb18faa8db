// A transaction of one operation that is committed at once.
ghost use Rattle.std.specs.Prelude.{◌≡◌, ◌||◌, ◌<◌, [], ◌∷◌, false, true, length, IfNone, IfOk, IfSome, IsTrue};
ghost use Rattle.std.specs.Prelude.{None, IsSome, OnErr};
ghost use Rattle.txc_base.specs.Kinds.{supports};
ghost use Rattle.txc_base.specs.Op.{chan_of};
ghost use Rattle.txc_base.specs.Operation.{operate};
ghost use Rattle.txc_chan.specs.Committed.{HasNoAct, IsCommittedOp, is_read_or_write};
ghost use Rattle.txc_txn_check.specs.declared.step.Step.TheVariants.{Do};
ghost use Rattle.txc_txn.specs.declared.ran.Ran.TheVariants.{Kept as RanKept};
ghost use Rattle.txc_txn.specs.AtOnce.{CanCommit, IsImmediate};
ghost use Rattle.txc_txn.specs.Maps.{kinds_of, put_at};
ghost use Rattle.txc_txn.specs.Plain.{chan_in};
ghost use Rattle.txc_txn.specs.Run.{RanSettled};
ghost use Rattle.txc_txn.specs.Transaction.{greatest, is_worn, kept_tag, transaction};

use crate::deed::Deed;
use crate::next_tag::tag_after;
use crate::plain::Plain;
use crate::receipt::Receipt;
use crate::receipt_buffers::ReceiptBuffers;
use std::alloc::{AllocError, Global};
use txc_base::{Act, Op, Tag};
use txc_chan::{Log, NonBlocking};

impl<K: Log> Plain<K> {
    // The tag that a transaction on this channel commits with. `None` if something in the channel is uncommitted, or a
    // number is used up.
    fn next_tag(&self, chan: u16, tag: Tag) -> Option<Tag>
        requires { chan < length self.now }
        ensures some { IfSome result (λ kept. CanCommit (chan_in self.now) chan tag kept) }
        ensures none { let m = chan_in self.now in (m chan).pending ≡ 0
            → (is_worn tag.serial || is_worn (greatest m tag.stamp (chan ∷ []))) ≡ false → IsSome result }
    {
        let on = &self.chans[chan as usize];
        if on.pending() > 0 {
            return None;
        }
        tag_after(tag, tag.stamp.max(on.stamp()))
    }

    // Commits an operation on the channel with this number, as `Chan::commit` does.
    fn commit_at(&mut self, chan: u16, tag: Tag, op: &Op) -> Result<Option<Act>, AllocError>
        requires there { chan < length self.old }
        requires clean { (chan_in self.old chan).pending ≡ 0 }
        requires supports { supports (chan_in self.old chan).decl.kind op.now ≡ true }
        ensures others { chan_in self.new ≡ put_at (chan_in self.old) chan (chan_in self.new chan) }
        ensures done { IfOk result (λ found. IfSome found
            (λ act. IsCommittedOp tag op.now act (chan_in self.old chan) (chan_in self.new chan))) }
        ensures left { IfOk result (λ found. IfNone found (chan_in self.new chan ≡ chan_in self.old chan)) }
        ensures none { is_read_or_write op.now ≡ true → IfOk result (λ found. IfNone found
            (HasNoAct (operate (chan_in self.old chan).channel tag.seat None op.now))) }
        ensures unchanged { OnErr result (chan_in self.new chan ≡ chan_in self.old chan) }
        ensures decl { (chan_in self.new chan).decl ≡ (chan_in self.old chan).decl }
        ensures length { length self.new ≡ length self.old }
    {
        self.chans[chan as usize].commit(&NonBlocking, tag, op)
    }

    /// Commits a transaction of one operation at once, if that is a write or a read and has an act. The kind of its
    /// channel must have the operation. Returns true if the transaction committed: its receipt is then `last`, and its
    /// channel is settled. Returns false, with nothing changed, if the operation is another one, has no act or writes
    /// the body that was read last, if something in the channel is uncommitted, or if a number is used up. Fails only
    /// if an allocation fails; nothing is changed then. Allocates, and does not block.
    pub fn commit_one(
        &mut self,
        alloc: Global,
        tag: Tag,
        op: &Op,
        last: &mut Receipt,
    ) -> Result<bool, AllocError>
        requires there { chan_of op.now < length self.old }
        requires supports { supports (chan_in self.old (chan_of op.now)).decl.kind op.now ≡ true }
        ensures done { let before = chan_in self.old in let named = chan_of op.now ∷ [] in
            IfOk result (λ is. IsTrue is
            → RanSettled (kept_tag before tag named) named (transaction before tag named (Do op.now ∷ []))
            (RanKept last.new) before (chan_in self.new)) }
        ensures left { IfOk result (λ is. is ≡ false
            → (chan_in self.new ≡ chan_in self.old) × (last.new ≡ last.old)) }
        ensures once { IfOk result (λ is. IsImmediate (chan_in self.old) tag op.now → IsTrue is) }
        ensures unchanged { OnErr result ((chan_in self.new ≡ chan_in self.old) × (last.new ≡ last.old)) }
        ensures kinds { kinds_of (chan_in self.new) ≡ kinds_of (chan_in self.old) }
        ensures length { length self.new ≡ length self.old }
    {
        let chan = op.chan();
        let Some(kept) = self.next_tag(chan, tag) else {
            return Ok(false);
        };
        let place = self.chan(chan).log_len();
        let room = ReceiptBuffers::take(alloc, last)?;
        let found = match self.commit_at(chan, kept, op) {
            Ok(found) => found,
            Err(AllocError) => {
                room.restore(last);
                return Err(AllocError);
            }
        };
        let Some(act) = found else {
            room.restore(last);
            return Ok(false);
        };
        room.fill(last, kept, Deed { chan, place, act });
        Ok(true)
    }
}
