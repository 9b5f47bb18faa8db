// Writes and reads that are committed at once.
ghost use Rattle.std.specs.Prelude.{◌≡◌, ◌<◌, ◌+◌, ◌++◌, ◌∷◌, [], None, true, length, IfNone, IfOk, IfSome, OnErr};
ghost use Rattle.txc_base.specs.Kinds.{supports};
ghost use Rattle.txc_base.specs.Operation.{operate};
ghost use Rattle.txc_chan.specs.Committed.{HasNoAct, IsCommittedOp, is_read_or_write};

use super::{ChanLog, LineChan};
use crate::ledger_shares::LedgerShares;
use crate::mark::Mark;
use std::alloc::AllocError;
use txc_base::{Act, Op, Tag};
use txc_chan::{Append, Chan, Log};

impl<K: Log> LineChan<K> {
    /// Commits a write or a read at once, like `Chan::commit`, and counts its entry in the ledger and in the shares.
    /// The channel gets the tag's stamp, which must be later than its own, and one more mark. Returns the act, or
    /// `None` if there is none. Fails only if an allocation fails. If there is no act, nothing is changed. It blocks
    /// only if the handle permits it, on a broadcast channel.
    #[inline(always)]
    pub fn commit<R: Append>(
        &mut self,
        rt: &R,
        shares: &mut LedgerShares,
        tag: Tag,
        op: &Op,
    ) -> Result<Option<Act>, AllocError>
        requires of { shares.old.ledgers ≡ self.old.line.ledgers }
        requires part { 0 < shares.old.parts }
        requires clean { self.old.held.logged.pending ≡ 0 }
        requires later { self.old.held.logged.stamp < tag.stamp }
        requires supports { supports self.old.held.logged.decl.kind op.now ≡ true }
        ensures done { IfOk result (λ found. IfSome found (λ act.
            IsCommittedOp tag op.now act self.old.held.logged self.new.held.logged)) }
        ensures none { is_read_or_write op.now ≡ true → IfOk result (λ found. IfNone found
            (HasNoAct (operate self.old.held.logged.channel tag.seat None op.now))) }
        ensures marks { IfOk result (λ found. IfSome found (λ act. self.new.marks
            ≡ self.old.marks ++ record { tag = tag; len = length self.new.held.logged.log } ∷ [])) }
        ensures counted { IfOk result (λ found. IfSome found (λ act.
            (shares.new.amount ≡ shares.old.amount + 1) × (shares.new.made ≡ shares.old.made + 1))) }
        ensures shares { (shares.new.ledgers ≡ shares.old.ledgers) × (shares.new.parts ≡ shares.old.parts) }
        ensures line { self.new.line ≡ self.old.line }
        ensures left { IfOk result (λ found. IfNone found ((self.new.held.logged ≡ self.old.held.logged)
            × (self.new.marks ≡ self.old.marks) × (shares.new ≡ shares.old))) }
        ensures unchanged { OnErr result ((self.new.held.logged ≡ self.old.held.logged)
            × (self.new.marks ≡ self.old.marks) × (shares.new ≡ shares.old)) }
    {
        let Some(act) = self.chan.commit(rt, tag, op)? else {
            return Ok(None);
        };
        self.entries.add(&mut shares.entries, 1);
        self.made.add(&mut shares.marks, 1);
        self.log.grow::<Chan<K>, ChanLog>(&self.chan);
        let len = self.chan.log_len() as u64;
        self.marks.push(&Mark { tag, len });
        Ok(Some(act))
    }
}
