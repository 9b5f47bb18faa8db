// A line that is locked for a transaction.
ghost use Rattle.std.specs.Prelude.{◌≡◌, ◌<◌, ◌+◌, true, length, All, IfNone, IfOk, IfSome, OnErr};
ghost use mathlib.Core.List.{IsPrefix};
ghost use Rattle.txc_base.specs.Kinds.{supports};
ghost use Rattle.txc_base.specs.Operation.{operate};
ghost use Rattle.txc_chan.specs.Body.{last_entries};
ghost use Rattle.txc_chan.specs.Committed.{HasNoAct, IsCommittedOp, is_read_or_write};
ghost use Rattle.txc_chan.specs.Logged.{settled};
ghost use Rattle.txc_table_line.specs.Commit.{CountsOne};
ghost use Rattle.txc_table_line.specs.Known.{IsKnown};
ghost use Rattle.txc_table_line.specs.Marks.{HasNewMark};

use crate::line_lock::LineLock;
use crate::locked_line::LockedLine;
use crate::seat_share::SeatShare;
use std::alloc::AllocError;
use std::sync::Wait;
use txc_base::{Act, Op, Tag};
use txc_chan::{Append, Log};

/// A line that is locked, until this is dropped. In a contract it is its channel.
pub type LineGuard<'a, K> = LockedLine<K, &'a LineLock<K>>;

impl<'a, K: Log> LineGuard<'a, K> {
    /// Locks a line, and undoes what was not committed. If the lock is taken, it looks again `tries` times before it
    /// waits in the queue. It blocks while another thread has the lock.
    pub fn take<R: Wait>(
        rt: &R,
        lock: &'a LineLock<K>,
        tries: u32,
        share: &mut SeatShare<K>,
    ) -> LineGuard<'a, K>
        requires { share.old.line ≡ lock.now.label.value.line }
        ensures line { result.line ≡ share.old.line }
        ensures clean { result.held.logged.pending ≡ 0 }
        ensures known { IsKnown share.old.line.decl share.old.amount result.held.logged }
        ensures since { IsPrefix share.old.log result.held.logged.log }
        ensures marks { IsPrefix share.old.marks result.marks }
        ensures same { share.new ≡ share.old }
    {
        let mut token = lock.lock(rt, tries);
        let channel = token.seat.slot_mut(lock.shared(), 0);
        channel.clean();
        share.show_known(channel);
        LockedLine { lock, token }
    }

    /// Returns the stamp of the channel, and how many entries its log has.
    pub fn stamp_and_len(&mut self) -> (u64, usize)
        ensures stamp { result.0 ≡ self.old.held.logged.stamp }
        ensures len { result.1 ≡ length self.old.held.logged.log }
        ensures same { self.new ≡ self.old }
    {
        let channel = self.token.seat.slot_mut(self.lock.shared(), 0);
        (channel.chan.stamp(), channel.chan.log_len())
    }

    /// Commits what can be undone, with the stamp of the tag, which must be later than the channel's, and counts it in
    /// the seat's share, which has then seen the log.
    pub fn settle(&mut self, share: &mut SeatShare<K>, tag: Tag)
        requires of { share.old.line ≡ self.old.line }
        requires stamped { All (λ entry. entry.tag.stamp ≡ tag.stamp)
            (last_entries self.old.held.logged.pending self.old.held.logged.log) }
        requires later { self.old.held.logged.stamp < tag.stamp }
        ensures settled { self.new.held.logged ≡ settled tag.stamp self.old.held.logged }
        ensures line { (self.new.line ≡ self.old.line) × (share.new.line ≡ share.old.line) }
        ensures amount { share.new.amount ≡ share.old.amount + self.old.held.logged.pending }
        ensures seen { share.new.log ≡ self.old.held.logged.log }
        ensures made { share.new.made ≡ share.old.made + 1 }
        ensures marked { HasNewMark self.old.held.logged tag share.old.marks share.new.marks }
        ensures known { share.new.known ≡ self.new.held.logged }
    {
        share.settle(self.token.seat.slot_mut(self.lock.shared(), 0), tag)
    }

    /// Commits a write or a read at once, with the stamp of the tag, which must be later than the channel's, and counts
    /// it in the seat's share, which has then seen the log. Returns the act, or `None` if there is none. Fails only if
    /// an allocation fails. If there is no act, nothing is changed. It blocks only if the handle permits it, on a
    /// broadcast channel.
    #[inline(always)]
    pub fn commit<R: Append>(
        &mut self,
        rt: &R,
        share: &mut SeatShare<K>,
        tag: Tag,
        op: &Op,
    ) -> Result<Option<Act>, AllocError>
        requires of { share.old.line ≡ self.old.line }
        requires clean { self.old.held.logged.pending ≡ 0 }
        requires later { self.old.held.logged.stamp < tag.stamp }
        requires supports { supports self.old.held.logged.decl.kind op.now ≡ true }
        ensures done { IfOk result (λ found. IfSome found (λ act.
            IsCommittedOp tag op.now act self.old.held.logged self.new.held.logged)) }
        ensures none { is_read_or_write op.now ≡ true → IfOk result (λ found. IfNone found
            (HasNoAct (operate self.old.held.logged.channel tag.seat None op.now))) }
        ensures counts { IfOk result (λ found. IfSome found (λ act.
            CountsOne self.old.held.logged self.new.held.logged tag share.old share.new)) }
        ensures line { (self.new.line ≡ self.old.line) × (share.new.line ≡ share.old.line) }
        ensures left { IfOk result (λ found. IfNone found
            ((self.new.held.logged ≡ self.old.held.logged) × (share.new ≡ share.old))) }
        ensures unchanged { OnErr result ((self.new.held.logged ≡ self.old.held.logged) × (share.new ≡ share.old)) }
    {
        let channel = self.token.seat.slot_mut(self.lock.shared(), 0);
        share.commit(rt, channel, tag, op)
    }
}
