// A transaction that moves an item from one line to another one.
ghost use Rattle.std.specs.Prelude.{◌≡◌, ◌≢◌, ◌<◌, ◌≤◌, ℕ, None, true, length, slice_set, IfErr, IfOk, OnErr};
ghost use Rattle.txc_base.specs.declared.cause.Cause.{Cause as Causes};
ghost use Rattle.txc_base.specs.declared.item.Item.{Item as Items};
ghost use Rattle.txc_base.specs.declared.op.Op.TheVariants.{Read, Write};
ghost use Rattle.txc_base.specs.declared.reply.Reply.TheVariants.{Got};
ghost use Rattle.txc_base.specs.declared.source.Source.TheVariants.{Last};
ghost use Rattle.txc_base.specs.Kinds.{supports};
ghost use Rattle.txc_base.specs.Operation.{Waits, operate};
ghost use Rattle.txc_chan.specs.Logged.{Left, Logged, op_on};
ghost use Rattle.txc_table_lines.specs.Committed.{IsSettled};
ghost use Rattle.txc_table_lines.specs.Guards.{IsFound, IsReady};
ghost use Rattle.txc_table_lines.specs.Lines.{line_ids, share_at};
ghost use Rattle.txc_table_lines.specs.TwoOperations.{IsCommittedMove, IsNoMove, MustRetryMove};

use crate::guards::TRIES;
use crate::lines::LockOrder;
use crate::one_operation::{AtOnce, without_act};
use crate::seat_shares::SeatShares;
use std::alloc::AllocError;
use std::sync::Wait;
use txc_base::{Act, Item, Op, Reply, Source, Stop, Tag};
use txc_chan::{Answer, Log};
use txc_table_line::LineGuard;
use txc_txn::{Deed, Receipt, tag_after};

/// A read, and a write of the body that was read to another channel.
#[derive(Clone, Copy)]
pub struct Move {
    /// The number of the channel that is read.
    pub from: u16,
    /// The reader.
    pub reader: u16,
    /// The number of the channel that is written to.
    pub to: u16,
}

/// Locks two lines, the lower one first. Returns them in the order of their numbers here. It blocks while another thread
/// has one of the locks, and does not allocate.
#[inline(always)]
pub(crate) fn take_both<'a, R: Wait, K: Log>(
    rt: &R,
    order: &mut LockOrder<'a, K>,
    one: u16,
    other: u16,
    shares: &mut SeatShares<K>,
) -> (LineGuard<'a, K>, LineGuard<'a, K>)
    requires of { line_ids shares.old ≡ order.old.lines }
    requires apart { one ≢ other }
    requires one { (one < length order.old.lines) × (order.old.lowest ≤ one) }
    requires other { (other < length order.old.lines) × (order.old.lowest ≤ other) }
    ensures one { IsFound (share_at shares.old one) result.0 }
    ensures other { IsFound (share_at shares.old other) result.1 }
    ensures next { (n : ℕ) → one < n → other < n → order.new.lowest ≤ n }
    ensures lines { order.new.lines ≡ order.old.lines }
    ensures same { shares.new ≡ shares.old }
{
    if one < other {
        let first = order.take_line(rt, one, TRIES, shares);
        let second = order.take_line(rt, other, TRIES, shares);
        return (first, second);
    }
    let second = order.take_line(rt, other, TRIES, shares);
    let first = order.take_line(rt, one, TRIES, shares);
    (first, second)
}

/// Unlocks the two lines of a move, the higher one first. It never blocks and does not allocate.
#[inline(always)]
fn release<K: Log>(what: Move, source: LineGuard<'_, K>, target: LineGuard<'_, K>) {
    if what.from < what.to {
        drop(target);
        drop(source);
    } else {
        drop(source);
        drop(target);
    }
}

/// Takes an item by a read, which can be undone. Returns how the transaction ends if there is none. Fails only if an
/// allocation fails. It allocates, and blocks only if the handle permits it.
#[inline(always)]
pub(crate) fn take_item<R: Wait, K: Log>(
    rt: &R,
    source: &mut LineGuard<'_, K>,
    tag: Tag,
    read: &Op,
) -> Result<Result<Item, AtOnce>, AllocError>
    requires supports { supports source.old.held.logged.decl.kind read.now ≡ true }
    ensures taken { IfOk result (λ taken. IfOk taken (λ item.
        op_on source.old.held.logged tag None read.now ≡ Left (Got item) source.new.held.logged)) }
    ensures none { IfOk result (λ taken. IfErr taken (λ ended. (item : Items) (left : Logged)
        → op_on source.old.held.logged tag None read.now ≢ Left (Got item) left)) }
    ensures waits { (cause : Causes) → IfOk result (λ taken. IfErr taken (λ ended. ended ≡ AtOnce.MustRetry cause
        → operate source.old.held.logged.channel tag.seat None read.now ≡ Waits cause)) }
    ensures left { IfOk result (λ taken. IfErr taken (λ ended. ended ≢ AtOnce.Committed)) }
    ensures line { source.new.line ≡ source.old.line }
{
    match source.apply(rt, tag, read, None) {
        Ok(Answer::Replied(reply)) => match reply {
            Reply::Got(item) => Ok(Ok(item)),
            _ => Ok(Err(AtOnce::NotDone)),
        },
        Ok(Answer::Retry(cause)) => Ok(Err(AtOnce::MustRetry(cause))),
        Err(Stop::NoMemory) => Err(AllocError),
        Err(_) => Ok(Err(AtOnce::NotDone)),
    }
}

impl<K: Log> SeatShares<K> {
    /// Commits what can be undone on the line with this number, as `LockedLine::settle` does, and counts it in the
    /// seat's share.
    #[inline(always)]
    pub(crate) fn settle_line(&mut self, number: u16, source: &mut LineGuard<'_, K>, tag: Tag)
        requires there { number < length self.old }
        requires line { source.old.line ≡ (share_at self.old number).line }
        requires ready { IsReady tag.stamp source.old.held.logged }
        ensures settled { IsSettled tag source.old.held.logged (share_at self.old number) source.new.held.logged
            (share_at self.new number) }
        ensures others { self.new ≡ slice_set self.old number (share_at self.new number) }
        ensures lines { line_ids self.new ≡ line_ids self.old }
    {
        let share = &mut self.shares[usize::from(number)];
        source.settle(share, tag);
        share.show();
    }

    /// Commits a transaction that moves an item at once, if both of its operations have an act. The kinds of the
    /// channels must have the operations. Returns `Committed` if the transaction committed: the receipt is then the
    /// transaction's, which counts in the seat's shares of the two lines, and the seat has seen the logs. Returns
    /// `MustRetry` if one of the operations has to wait, and `NotDone` if one has no act for another reason, or if a
    /// number is used up. Fails only if an allocation fails. Unless it returns `Committed`, nothing is changed except
    /// the replies and the acts of the receipt, which are then arbitrary. It allocates. It blocks while another thread
    /// has the lock of one of the lines, and, if the handle permits it, on a broadcast channel.
    pub fn commit_move<R: Wait>(
        &mut self,
        rt: &R,
        mut order: LockOrder<'_, K>,
        tag: Tag,
        what: Move,
        receipt: &mut Receipt,
    ) -> Result<AtOnce, AllocError>
        requires of { line_ids self.old ≡ order.lines }
        requires none { order.lowest ≡ 0 }
        requires apart { what.from ≢ what.to }
        requires from { what.from < length order.lines }
        requires to { what.to < length order.lines }
        requires reads { supports (share_at self.old what.from).line.decl.kind (Read what.from what.reader) ≡ true }
        requires writes { supports (share_at self.old what.to).line.decl.kind (Write what.to Last) ≡ true }
        ensures done { IfOk result (λ is. is ≡ AtOnce.Committed
            → IsCommittedMove tag what.from what.reader what.to self.old self.new receipt.new) }
        ensures retry { (cause : Causes) → IfOk result (λ is. is ≡ AtOnce.MustRetry cause
            → MustRetryMove tag what.from what.reader what.to self.old cause) }
        ensures once { IfOk result (λ is. is ≢ AtOnce.Committed
            → IsNoMove tag what.from what.reader what.to self.old) }
        ensures left { IfOk result (λ is. is ≢ AtOnce.Committed
            → (self.new ≡ self.old) × (receipt.new.tag ≡ receipt.old.tag)) }
        ensures lines { line_ids self.new ≡ line_ids self.old }
        ensures unchanged { OnErr result (self.new ≡ self.old) }
    {
        let Move { from, reader, to } = what;
        receipt.make_pair()?;
        self.show();
        let (mut source, mut target) = take_both(rt, &mut order, from, to, self);
        let most = tag.stamp.max(source.stamp()).max(target.stamp());
        let Some(tag) = tag_after(tag, most) else {
            return Ok(AtOnce::NotDone);
        };
        let place = source.log_len();
        let item = match take_item(rt, &mut source, tag, &Op::Read { chan: from, reader })? {
            Ok(item) => item,
            Err(ended) => return Ok(ended),
        };
        let act = Act::Took(reader, item);
        let took = Deed {
            chan: from,
            place,
            act,
        };
        let place = target.log_len();
        let body = Source::Lit(item.body);
        let write = Op::Write { chan: to, body };
        let Some(act) = self.commit_op(rt, &mut target, tag, &write)? else {
            // The next thread that locks the source undoes the read.
            return Ok(without_act(&mut target, &write));
        };
        self.settle_line(from, &mut source, tag);
        release(what, source, target);
        let wrote = Deed {
            chan: to,
            place,
            act,
        };
        receipt.set_pair(tag, took, wrote);
        Ok(AtOnce::Committed)
    }
}
