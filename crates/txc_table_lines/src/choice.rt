// A transaction that moves an item from the first of two lines that has one.
ghost use Rattle.std.specs.Prelude.{◌≡◌, ◌≢◌, ◌<◌, true, false, length, IfOk, OnErr};
ghost use Rattle.txc_base.specs.declared.cause.Cause.{Cause as Causes};
ghost use Rattle.txc_base.specs.declared.op.Op.TheVariants.{Read, Write};
ghost use Rattle.txc_base.specs.declared.source.Source.TheVariants.{Last};
ghost use Rattle.txc_base.specs.Kinds.{supports};
ghost use Rattle.txc_table_lines.specs.Choice.{FirstWaits, IsCommittedChoice, IsNoFirstMove, MustRetryChoice};
ghost use Rattle.txc_table_lines.specs.Guards.{IsFound};
ghost use Rattle.txc_table_lines.specs.Lines.{line_ids, share_at};

use crate::guards::TRIES;
use crate::lines::LockOrder;
use crate::one_operation::AtOnce;
use crate::seat_shares::SeatShares;
use crate::two_operations::{take_both, take_item};
use std::alloc::AllocError;
use std::sync::Wait;
use txc_base::{Act, Op, Source, Tag};
use txc_chan::Log;
use txc_table_line::LineGuard;
use txc_txn::{Deed, Receipt, tag_after};

/// A move from one of two channels to a third one. If the move from the first channel must be retried, the transaction
/// makes that from the second one.
#[derive(Clone, Copy)]
pub struct Choice {
    /// The number of the channel that is read first.
    pub first: u16,
    /// Its reader.
    pub first_reader: u16,
    /// The number of the other channel that is read.
    pub second: u16,
    /// Its reader.
    pub second_reader: u16,
    /// The number of the channel that is written to.
    pub to: u16,
}

/// The locked lines that are read in a choice: the one that it moves an item from, and the one that does not change.
#[derive(Drop)]
struct ChosenLines<'a, K: Log> {
    is_first: bool,
    from: u16,
    reader: u16,
    source: LineGuard<'a, K>,
    other: u16,
    unread: LineGuard<'a, K>,
}

/// Locks the three lines of a choice in rising order. Returns the two that can be read, the first one first, and the one
/// that is written to. It blocks while another thread has one of the locks, and does not allocate.
fn take_three<'a, R: Wait, K: Log>(
    rt: &R,
    order: &mut LockOrder<'a, K>,
    what: Choice,
    shares: &mut SeatShares<K>,
) -> (LineGuard<'a, K>, LineGuard<'a, K>, LineGuard<'a, K>)
    requires of { line_ids shares.old ≡ order.old.lines }
    requires none { order.old.lowest ≡ 0 }
    requires apart { (what.first ≢ what.second) × (what.first ≢ what.to) × (what.second ≢ what.to) }
    requires first { what.first < length order.old.lines }
    requires second { what.second < length order.old.lines }
    requires to { what.to < length order.old.lines }
    ensures first { IsFound (share_at shares.old what.first) result.0 }
    ensures second { IsFound (share_at shares.old what.second) result.1 }
    ensures target { IsFound (share_at shares.old what.to) result.2 }
    ensures same { shares.new ≡ shares.old }
{
    let Choice {
        first: one,
        second: other,
        to,
        ..
    } = what;
    if to < one && to < other {
        let target = order.take_line(rt, to, TRIES, shares);
        let (first, second) = take_both(rt, order, one, other, shares);
        return (first, second, target);
    }
    if to > one && to > other {
        let (first, second) = take_both(rt, order, one, other, shares);
        let target = order.take_line(rt, to, TRIES, shares);
        return (first, second, target);
    }
    if one < other {
        let first = order.take_line(rt, one, TRIES, shares);
        let target = order.take_line(rt, to, TRIES, shares);
        let second = order.take_line(rt, other, TRIES, shares);
        return (first, second, target);
    }
    let second = order.take_line(rt, other, TRIES, shares);
    let target = order.take_line(rt, to, TRIES, shares);
    let first = order.take_line(rt, one, TRIES, shares);
    (first, second, target)
}

/// Chooses the line that a choice reads: the first one, unless a read of it would have to wait. It never blocks and
/// does not allocate.
fn choose<'a, K: Log>(
    what: Choice,
    mut first: LineGuard<'a, K>,
    second: LineGuard<'a, K>,
) -> ChosenLines<'a, K>
    requires { supports first.held.logged.decl.kind (Read what.first what.first_reader) ≡ true }
    ensures first { result.is_first ≡ true → (result.from ≡ what.first) × (result.reader ≡ what.first_reader)
        × (result.other ≡ what.second) × (result.source ≡ first.entry) × (result.unread ≡ second.entry) }
    ensures second { result.is_first ≡ false → (result.from ≡ what.second) × (result.reader ≡ what.second_reader)
        × (result.other ≡ what.first) × (result.source ≡ second.entry) × (result.unread ≡ first.entry)
        × FirstWaits what first.entry }
{
    let read = Op::Read {
        chan: what.first,
        reader: what.first_reader,
    };
    if first.cause_to_wait(&read).is_none() {
        return ChosenLines {
            is_first: true,
            from: what.first,
            reader: what.first_reader,
            source: first,
            other: what.second,
            unread: second,
        };
    }
    ChosenLines {
        is_first: false,
        from: what.second,
        reader: what.second_reader,
        source: second,
        other: what.first,
        unread: first,
    }
}

impl<K: Log> SeatShares<K> {
    /// Commits a transaction that chooses between two moves at once, if it reads an item and writes it. The kinds of
    /// the channels must have the operations. Returns `Committed` if the transaction committed: the receipt is then the
    /// transaction's, which counts in the seat's shares of the three lines, and the seat has seen the logs. Returns
    /// `MustRetry` if both reads have to wait, and `NotDone` if the transaction must be retried or has no such acts for
    /// another reason, or if a number is used up. Fails only if an allocation fails. Unless it returns `Committed`,
    /// nothing is changed except the replies and the acts of the receipt, which are then arbitrary. It allocates. It
    /// blocks while another thread has the lock of one of the lines, and, if the handle permits it, on a broadcast
    /// channel.
    pub fn commit_choice<R: Wait>(
        &mut self,
        rt: &R,
        mut order: LockOrder<'_, K>,
        tag: Tag,
        what: Choice,
        receipt: &mut Receipt,
    ) -> Result<AtOnce, AllocError>
        requires of { line_ids self.old ≡ order.lines }
        requires none { order.lowest ≡ 0 }
        requires apart { (what.first ≢ what.second) × (what.first ≢ what.to) × (what.second ≢ what.to) }
        requires first { what.first < length order.lines }
        requires second { what.second < length order.lines }
        requires to { what.to < length order.lines }
        requires reads_first { supports (share_at self.old what.first).line.decl.kind
            (Read what.first what.first_reader) ≡ true }
        requires reads_second { supports (share_at self.old what.second).line.decl.kind
            (Read what.second what.second_reader) ≡ true }
        requires writes { supports (share_at self.old what.to).line.decl.kind (Write what.to Last) ≡ true }
        ensures done { IfOk result (λ is. is ≡ AtOnce.Committed
            → IsCommittedChoice tag what self.old self.new receipt.new) }
        ensures retry { (cause : Causes) → IfOk result (λ is. is ≡ AtOnce.MustRetry cause
            → MustRetryChoice tag what self.old cause) }
        ensures once { IfOk result (λ is. is ≢ AtOnce.Committed → IsNoFirstMove tag what self.old) }
        ensures left { IfOk result (λ is. is ≢ AtOnce.Committed
            → (self.new ≡ self.old) × (receipt.new.tag ≡ receipt.old.tag)) }
        ensures lines { line_ids self.new ≡ line_ids self.old }
        ensures unchanged { OnErr result (self.new ≡ self.old) }
    {
        receipt.make_pair()?;
        self.show();
        let (first, second, mut target) = take_three(rt, &mut order, what, self);
        let ChosenLines {
            is_first,
            from,
            reader,
            mut source,
            other,
            mut unread,
        } = choose(what, first, second);
        let most = tag.stamp.max(source.stamp());
        let most = most.max(unread.stamp()).max(target.stamp());
        let Some(tag) = tag_after(tag, most) else {
            return Ok(AtOnce::NotDone);
        };
        let place = source.log_len();
        let item = match take_item(rt, &mut source, tag, &Op::Read { chan: from, reader })? {
            Ok(item) => item,
            Err(_) if is_first => return Ok(AtOnce::NotDone),
            Err(ended) => return Ok(ended),
        };
        let act = Act::Took(reader, item);
        let took = Deed {
            chan: from,
            place,
            act,
        };
        let place = target.log_len();
        let body = Source::Lit(item.body);
        let write = Op::Write {
            chan: what.to,
            body,
        };
        let Some(act) = self.commit_op(rt, &mut target, tag, &write)? else {
            // The next thread that locks the source undoes the read.
            return Ok(AtOnce::NotDone);
        };
        self.settle_line(from, &mut source, tag);
        self.settle_line(other, &mut unread, tag);
        drop(target);
        drop(unread);
        drop(source);
        let wrote = Deed {
            chan: what.to,
            place,
            act,
        };
        receipt.set_pair(tag, took, wrote);
        Ok(AtOnce::Committed)
    }
}
