// A write or a read that a seat commits at once.
ghost use Rattle.std.specs.Prelude.{◌≡◌, ◌<◌, None, true, IfNone, IfOk, IfSome, OnErr};
ghost use Rattle.txc_base.specs.Kinds.{supports};
ghost use Rattle.txc_base.specs.Operation.{operate};
ghost use Rattle.txc_chan.specs.Committed.{HasNoAct, IsCommittedOp, is_read_or_write};
ghost use Rattle.txc_table_line.specs.Commit.{CountsOne};

use super::SeatShare;
use crate::line_chan::LineChan;
use std::alloc::AllocError;
use std::snapshot::Snapshot;
use txc_base::{Act, Op, Tag};
use txc_chan::{Append, Log};

impl<K: Log> SeatShare<K> {
    /// Commits a write or a read in the channel of the line at once, with the stamp of the tag, which must be later
    /// than the channel's, and counts it. The seat has then seen the log. Returns the act, or `None` if there is none.
    /// Fails only if an allocation fails. If there is no act, nothing is changed. It blocks only if the handle permits
    /// it, on a broadcast channel.
    #[inline(always)]
    pub fn commit<R: Append>(
        &mut self,
        rt: &R,
        channel: &mut LineChan<K>,
        tag: Tag,
        op: &Op,
    ) -> Result<Option<Act>, AllocError>
        requires of { self.old.line ≡ channel.old.line }
        requires clean { channel.old.held.logged.pending ≡ 0 }
        requires later { channel.old.held.logged.stamp < tag.stamp }
        requires supports { supports channel.old.held.logged.decl.kind op.now ≡ true }
        ensures done { IfOk result (λ found. IfSome found (λ act.
            IsCommittedOp tag op.now act channel.old.held.logged channel.new.held.logged)) }
        ensures none { is_read_or_write op.now ≡ true → IfOk result (λ found. IfNone found
            (HasNoAct (operate channel.old.held.logged.channel tag.seat None op.now))) }
        ensures counts { IfOk result (λ found. IfSome found (λ act.
            CountsOne channel.old.held.logged channel.new.held.logged tag self.old self.new)) }
        ensures line { (self.new.line ≡ self.old.line) × (channel.new.line ≡ channel.old.line) }
        ensures left { IfOk result (λ found. IfNone found
            ((channel.new.held.logged ≡ channel.old.held.logged) × (self.new ≡ self.old))) }
        ensures unchanged { OnErr result ((channel.new.held.logged ≡ channel.old.held.logged) × (self.new ≡ self.old)) }
    {
        channel.show();
        channel.show_marks(&self.marks);
        let Some(act) = channel.commit(rt, &mut self.shares, tag, op)? else {
            return Ok(None);
        };
        channel.show();
        channel.show_bound(&mut self.shares);
        // Only for the proof: the log's length is a `usize`, so what the seat has made is at most `GREATEST_NUMBER`.
        let _few = channel.chan.log_len();
        self.known = Snapshot::of(channel);
        self.seen = channel.seen();
        self.marks = channel.seen_marks();
        Ok(Some(act))
    }
}
