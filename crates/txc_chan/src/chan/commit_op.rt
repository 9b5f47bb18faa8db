// Operations that are committed at once, by their names.
ghost use Rattle.std.specs.Prelude.{◌≡◌, None, false, true, IfNone, IfOk, IfSome, OnErr};
ghost use Rattle.txc_base.specs.Channel.{list_of};
ghost use Rattle.txc_base.specs.Kinds.{is_broadcast, supports};
ghost use Rattle.txc_base.specs.Operation.{Did, body_of, operate, taking, with_list};
ghost use Rattle.txc_chan.specs.Chan.{writing};
ghost use Rattle.txc_chan.specs.Committed.{HasNoAct, IsCommitted, IsCommittedOp, is_read_or_write};

use crate::chan::Chan;
use crate::chan::commit::CommitOutcome;
use crate::log::Log;
use crate::steps::make_item;
use std::alloc::AllocError;
use txc_base::{Act, Op, Origin, Source, Stop, Tag};
use txc_cast::Append;

impl<K: Log> Chan<K> {
    // Commits a write of a given body. Returns `None` if the write has no act. The channel is then unchanged. It is
    // also unchanged if an allocation fails.
    #[inline(always)]
    fn commit_body<R: Append>(
        &mut self,
        rt: &R,
        tag: Tag,
        body: Source,
    ) -> Result<Option<Act>, AllocError>
        requires { self.old.logged.pending ≡ 0 }
        ensures done { (full : Did) → IfOk result (λ found. IfSome found (λ act. IsCommitted tag
            (writing self.old.logged.channel tag.seat (body_of None body) full) act self.old.logged self.new.logged)) }
        ensures left { IfOk result (λ found. IfNone found (self.new.logged ≡ self.old.logged)) }
        ensures none { (full : Did) → HasNoAct full → IfOk result (λ found. IfNone found
            (HasNoAct (writing self.old.logged.channel tag.seat (body_of None body) full))) }
        ensures unchanged { OnErr result (self.new.logged ≡ self.old.logged) }
    {
        let Source::Lit(body) = body else {
            return Ok(None);
        };
        let item = make_item(tag, Origin::Written(self.written), body);
        match self.commit_write(rt, tag, body) {
            CommitOutcome::Done => Ok(Some(Act::Wrote(item))),
            CommitOutcome::NoMemory => Err(AllocError),
            _ => Ok(None),
        }
    }

    // Commits a read of a reader's next item. Returns `None` if the read has no act. The channel is then unchanged. It
    // is also unchanged if an allocation fails.
    #[inline(always)]
    fn commit_next(&mut self, tag: Tag, reader: u16) -> Result<Option<Act>, AllocError>
        requires clean { self.old.logged.pending ≡ 0 }
        requires reader { is_broadcast self.old.logged.channel.kind ≡ false → reader ≡ 0 }
        ensures done { (empty : Did) → let c = self.old.logged.channel in IfOk result (λ found. IfSome found (λ act.
            IsCommitted tag (with_list (list_of c reader) (taking c reader empty)) act self.old.logged
            self.new.logged)) }
        ensures left { IfOk result (λ found. IfNone found (self.new.logged ≡ self.old.logged)) }
        ensures none { (empty : Did) → HasNoAct empty → let c = self.old.logged.channel in
            IfOk result (λ found. IfNone found (HasNoAct (with_list (list_of c reader) (taking c reader empty)))) }
        ensures unchanged { OnErr result (self.new.logged ≡ self.old.logged) }
    {
        let mut item = make_item(tag, Origin::Written(0), 0);
        match self.commit_take(tag, reader, &mut item) {
            Ok(CommitOutcome::Done) => Ok(Some(Act::Took(reader, item))),
            Err(Stop::NoMemory) => Err(AllocError),
            _ => Ok(None),
        }
    }

    /// Commits a write or a read at once if it has an act: it cannot be undone, and the channel gets the tag's stamp.
    /// Nothing in the channel may be uncommitted before, and its kind must have the operation. Returns the act. Returns
    /// `None` for another operation, if the channel is closed, full or empty or has no such reader, and for a write of
    /// the body that was read last. Fails only if an allocation fails. Unless there is an act, the channel is
    /// unchanged. Allocates. Blocks only if the handle permits it, on a broadcast channel.
    #[inline(always)]
    pub fn commit<R: Append>(
        &mut self,
        rt: &R,
        tag: Tag,
        op: &Op,
    ) -> Result<Option<Act>, AllocError>
        requires clean { self.old.logged.pending ≡ 0 }
        requires supports { supports self.old.logged.decl.kind op.now ≡ true }
        ensures done { IfOk result (λ found. IfSome found (λ act.
            IsCommittedOp tag op.now act self.old.logged self.new.logged)) }
        ensures left { IfOk result (λ found. IfNone found (self.new.logged ≡ self.old.logged)) }
        ensures none { is_read_or_write op.now ≡ true → IfOk result (λ found. IfNone found
            (HasNoAct (operate self.old.logged.channel tag.seat None op.now))) }
        ensures unchanged { OnErr result (self.new.logged ≡ self.old.logged) }
    {
        self.show_kind();
        match *op {
            Op::Write { body, .. } => self.commit_body(rt, tag, body),
            Op::TryWrite { body, .. } => self.commit_body(rt, tag, body),
            Op::Read { reader, .. } => self.commit_next(tag, reader),
            Op::TryRead { reader, .. } => self.commit_next(tag, reader),
            _ => Ok(None),
        }
    }
}
