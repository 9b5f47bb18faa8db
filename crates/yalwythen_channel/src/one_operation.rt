// One operation as a whole transaction on one channel.
ghost use Rattle.std.specs.Prelude.{◌≡◌, None, Some, [], ◌∷◌, true, slice_get, IfErr, OnOk};
ghost use Rattle.std.specs.Prelude.{IfSome};
ghost use Rattle.txc_base.specs.declared.op.Op.TheVariants.{Read, Write};
ghost use Rattle.txc_base.specs.declared.source.Source.TheVariants.{Lit};
ghost use Rattle.txc_base.specs.Kinds.{supports};
ghost use Rattle.txc_base.specs.Op.{chan_of};
ghost use Rattle.txc_base.specs.Operation.{operate};
ghost use Rattle.txc_chan.specs.Committed.{reply_to};
ghost use Rattle.txc_txn_check.specs.Walk.{Faulty, Fine, walk_op};
ghost use Rattle.yalwythen_channel.specs.OneOperation.{CommitsAs, CommitsOne};
ghost use Rattle.yalwythen_channel.specs.OneOperation.{CommitsHere, Ends, EndsAlone, EndsAs, operation_alone};
ghost use Rattle.yalwythen_channel.specs.OneOperation.{response_of_ending};
ghost use Rattle.yalwythen_channel.specs.RawSteps.{replied};
ghost use Rattle.yalwythen_channel.specs.Opened.{untallied};

use crate::call_result::{
    CallResult, DONE, FAULTY, GOT, NO_MEMORY, NO_SUCH, NOT_NOW, REJECTED, REPLIED, RETRY, STOPPED,
    call_result,
};
use crate::chan_box::ChanBox;
use crate::channel::Channel;
use crate::channels::NO_TAG;
use crate::numbers::{cause_number, step_numbered, tell};
use std::alloc::AllocError;
use txc_base::{Act, Item, Kind, Op, Origin, Source, Stop, Tag, allowed, names_its_reader};
use txc_chan::{Answer, CommitOutcome, Log, NonBlocking};
use txc_txn::tag_after;
use txc_txn_check::{Step, TxnFault};

/// Returns the first fault of an operation on the only channel of a transaction, of this kind, if it has one.
#[inline(always)]
fn check_alone(kind: Kind, op: &Op) -> Result<(), TxnFault>
    requires { chan_of op.now ≡ 0 }
    ensures ok { OnOk result (supports kind op.now ≡ true) }
    ensures fine { OnOk result (walk_op (slice_get (kind ∷ [])) op.now untallied
        ≡ Fine (record { operations = 1; channels = chan_of op.now ∷ [] })) }
    ensures err { IfErr result (λ fault. walk_op (slice_get (kind ∷ [])) op.now untallied ≡ Faulty fault) }
{
    if !allowed(kind, op) {
        return Err(TxnFault::NotForKind);
    }
    if !names_its_reader(kind, op) {
        return Err(TxnFault::NoReader);
    }
    Ok(())
}

/// Returns the result of an operation that had this act and was committed at once.
#[inline(always)]
fn response_to_act(act: &Act) -> CallResult
    ensures { result ≡ replied (reply_to act.now) }
{
    match act {
        Act::Took(_, item) => call_result(REPLIED + GOT, item.body),
        _ => call_result(REPLIED + DONE, 0),
    }
}

/// Does any operation on a channel and commits it.
fn do_alone<K: Log>(chan: &mut ChanBox<K>, tag: Tag, op: &Op) -> Result<Answer, Stop>
    requires { supports chan.old.logged.decl.kind op.now ≡ true }
    ensures { Ends tag (operate chan.old.logged.channel tag.seat None op.now) result chan.old.logged chan.new.logged }
{
    match chan.apply(&NonBlocking, tag, op, None) {
        Ok(Answer::Replied(reply)) => {
            chan.settle(tag.stamp);
            Ok(Answer::Replied(reply))
        }
        Ok(Answer::Retry(cause)) => Ok(Answer::Retry(cause)),
        Err(stop) => Err(stop),
    }
}

/// Returns the result of an operation that ended so.
fn response_of_ending(ended: &Result<Answer, Stop>) -> CallResult
    ensures { result ≡ response_of_ending ended.now }
{
    match ended {
        Ok(Answer::Replied(reply)) => {
            let response = tell(reply);
            call_result(REPLIED + response.code, response.value)
        }
        Ok(Answer::Retry(cause)) => call_result(RETRY, cause_number(*cause)),
        Err(Stop::NoMemory) => call_result(NO_MEMORY, 0),
        Err(stop) => call_result(STOPPED, u64::from(stop.code())),
    }
}

/// Commits an operation under this tag, like `commit_alone`, whatever operation it is.
#[inline(never)]
fn commit_any<K: Log>(chan: &mut ChanBox<K>, tag: Tag, op: &Op) -> CallResult
    requires { supports chan.old.logged.decl.kind op.now ≡ true }
    ensures { EndsAs tag (operate chan.old.logged.channel tag.seat None op.now) chan.old.logged chan.new.logged result }
{
    let ended = do_alone(chan, tag, op);
    response_of_ending(&ended)
}

/// Commits an operation under this tag: at once if that is a write or a read that has an act.
#[inline(always)]
fn commit_under<K: Log>(chan: &mut ChanBox<K>, tag: Tag, op: &Op) -> CallResult
    requires { supports chan.old.logged.decl.kind op.now ≡ true }
    ensures { EndsAs tag (operate chan.old.logged.channel tag.seat None op.now) chan.old.logged chan.new.logged result }
{
    if chan.pending() > 0 {
        return commit_any(chan, tag, op);
    }
    match chan.commit(&NonBlocking, tag, op) {
        Ok(Some(act)) => response_to_act(&act),
        Ok(None) => commit_any(chan, tag, op),
        Err(AllocError) => call_result(NO_MEMORY, 0),
    }
}

/// Runs an operation as one whole transaction on a channel, with the tag of its seat's last one.
#[inline(never)]
fn commit_alone<K: Log>(chan: &mut ChanBox<K>, tag: Tag, op: &Op) -> CallResult
    requires { chan_of op.now ≡ 0 }
    ensures { EndsAlone tag op.now chan.old.logged chan.new.logged result }
{
    if let Err(fault) = check_alone(chan.kind(), op) {
        return call_result(FAULTY, u64::from(fault.code()));
    }
    match tag_after(tag, tag.stamp.max(chan.stamp())) {
        Some(kept) => commit_under(chan, kept, op),
        None => call_result(STOPPED, u64::from(Stop::Worn.code())),
    }
}

/// Writes an item and commits the write under this tag. Nothing in the channel may be uncommitted.
#[inline(always)]
fn write_under<K: Log>(chan: &mut ChanBox<K>, tag: Tag, body: u64) -> CallResult
    requires clean { chan.old.logged.pending ≡ 0 }
    requires supports { supports chan.old.logged.decl.kind (Write 0 (Lit body)) ≡ true }
    ensures { EndsAs tag (operate chan.old.logged.channel tag.seat None (Write 0 (Lit body))) chan.old.logged
        chan.new.logged result }
{
    match chan.commit_write(&NonBlocking, tag, body) {
        CommitOutcome::Done => call_result(REPLIED + DONE, 0),
        CommitOutcome::Waits => call_result(RETRY, 0),
        CommitOutcome::NoMemory => call_result(NO_MEMORY, 0),
        CommitOutcome::Closed => {
            let body = Source::Lit(body);
            commit_any(chan, tag, &Op::Write { chan: 0, body })
        }
    }
}

/// Reads the next item of reader 0 and commits the read under this tag. Nothing in the channel may be uncommitted.
#[inline(always)]
fn read_under<K: Log>(chan: &mut ChanBox<K>, tag: Tag) -> CallResult
    requires clean { chan.old.logged.pending ≡ 0 }
    requires supports { supports chan.old.logged.decl.kind (Read 0 0) ≡ true }
    ensures { EndsAs tag (operate chan.old.logged.channel tag.seat None (Read 0 0)) chan.old.logged chan.new.logged
        result }
{
    let mut item = Item {
        origin: Origin::Written(0),
        seat: 0,
        body: 0,
    };
    match chan.commit_take(tag, 0, &mut item) {
        Ok(CommitOutcome::Done) => call_result(REPLIED + GOT, item.body),
        Ok(CommitOutcome::Waits) => call_result(RETRY, 1),
        Ok(_) => commit_any(chan, tag, &Op::Read { chan: 0, reader: 0 }),
        Err(Stop::NoMemory) => call_result(NO_MEMORY, 0),
        Err(_) => commit_any(chan, tag, &Op::Read { chan: 0, reader: 0 }),
    }
}

/// Writes an item as one whole transaction, like `commit_alone` with this operation.
#[inline(always)]
fn write_alone<K: Log>(chan: &mut ChanBox<K>, tag: Tag, body: u64) -> CallResult
    ensures { EndsAlone tag (Write 0 (Lit body)) chan.old.logged chan.new.logged result }
{
    if chan.pending() == 0
        && let Some(kept) = tag_after(tag, tag.stamp.max(chan.stamp()))
    {
        return write_under(chan, kept, body);
    }
    let body = Source::Lit(body);
    commit_alone(chan, tag, &Op::Write { chan: 0, body })
}

/// Reads the next item of reader 0 as one whole transaction, like `commit_alone` with this operation.
#[inline(always)]
fn read_alone<K: Log>(chan: &mut ChanBox<K>, tag: Tag) -> CallResult
    ensures { EndsAlone tag (Read 0 0) chan.old.logged chan.new.logged result }
{
    if chan.pending() == 0
        && let Some(kept) = tag_after(tag, tag.stamp.max(chan.stamp()))
    {
        return read_under(chan, kept);
    }
    commit_alone(chan, tag, &Op::Read { chan: 0, reader: 0 })
}

/// Returns the operation with this number, on the only channel of a transaction, if there is one. A flush is none,
/// since its reply has several items.
#[inline(always)]
fn operation_numbered(number: u32, reader: u16, body: u64) -> Option<Op>
    ensures found { result ≡ operation_alone number reader body }
    ensures chan { IfSome result (λ op. chan_of op ≡ 0) }
{
    if number == 16 {
        return None;
    }
    match step_numbered(number, 0, reader, body) {
        Some(Step::Do(op)) => Some(op),
        _ => None,
    }
}

/// Runs the operation with this number as one whole transaction on a channel, with the tag of its seat's last one.
fn commit_numbered<K: Log>(
    chan: &mut ChanBox<K>,
    tag: Tag,
    number: u32,
    reader: u16,
    body: u64,
) -> CallResult
    ensures { CommitsOne tag (operation_alone number reader body) (Some chan.old) (Some chan.new) result }
{
    match operation_numbered(number, reader, body) {
        Some(op) => commit_alone(chan, tag, &op),
        None => call_result(REJECTED, NO_SUCH),
    }
}

impl Channel {
    /// Runs the operation with this number as one whole transaction on this channel, whose log must not be recorded. If
    /// it commits, returns the code of its reply plus 16, with the value of the reply. Otherwise the code is 1 if the
    /// operation must be retried, 2 if it aborts, 3 if the kind does not have it, 4 if the request is rejected, and 5
    /// if an allocation fails; the channel is unchanged.
    pub fn commit_one(&mut self, number: u32, reader: u16, body: u64) -> CallResult
        ensures { CommitsHere (operation_alone number reader body) self.old self.new result }
    {
        let Channel::Unrecorded(chan) = self else {
            return call_result(REJECTED, NOT_NOW);
        };
        if number == 0 {
            return write_alone(chan, NO_TAG, body);
        }
        if number == 2 && reader == 0 {
            return read_alone(chan, NO_TAG);
        }
        match operation_numbered(number, reader, body) {
            Some(op) => commit_alone(chan, NO_TAG, &op),
            None => call_result(REJECTED, NO_SUCH),
        }
    }

    /// Runs the operation with this number as one whole transaction of a seat, on this channel, whose log may be
    /// recorded. `serial` is the number of the transaction among those of the seat. If it commits, its stamp is `stamp`
    /// plus 1, or one more than that of the channel if that is greater. Returns what `commit_one` returns.
    pub fn commit_as(
        &mut self,
        seat: u16,
        serial: u64,
        stamp: u64,
        number: u32,
        reader: u16,
        body: u64,
    ) -> CallResult
        ensures { CommitsAs (record { seat = seat; serial = serial; stamp = stamp })
            (operation_alone number reader body) self.old self.new result }
    {
        let tag = Tag {
            seat,
            serial,
            stamp,
        };
        match self {
            Channel::Absent => call_result(REJECTED, NOT_NOW),
            Channel::Unrecorded(chan) => commit_numbered(chan, tag, number, reader, body),
            Channel::Recorded(chan) => commit_numbered(chan, tag, number, reader, body),
        }
    }
}
