// A move of an item from one channel to another one, as a whole transaction.
ghost use Rattle.std.specs.Prelude.{◌≡◌, ◌<◌, ◌+◌};
ghost use Rattle.txc_base.specs.declared.tag.Tag.{Tag as Tags};
ghost use Rattle.txc_chan.specs.Logged.{Logged, MatchesLog};
ghost use Rattle.txc_txn.specs.Growth.{Grows};
ghost use Rattle.yalwythen_channel.specs.OneMove.{CanCommit, MovesAlone, MovesHere, tag_of_move};

use crate::call_result::{CallResult, DONE, NO_MEMORY, NOT_NOW, REJECTED, RETRY, call_result};
use crate::chan_box::ChanBox;
use crate::channel::Channel;
use crate::channels::NO_TAG;
use crate::numbers::cause_number;
use txc_base::{Op, Reply, Stop, Tag};
use txc_chan::{Answer, CommitOutcome, Log, NonBlocking};
use txc_txn::tag_after;

/// Undoes the only act that can be undone.
fn take_back<K: Log>(chan: &mut ChanBox<K>)
    requires { 0 < chan.old.logged.pending }
    ensures { (tag : Tags) (before : Logged) → MatchesLog before → Grows tag before chan.old.logged
        → chan.old.logged.pending ≡ before.pending + 1 → chan.new.logged ≡ before }
{
    chan.undo_last();
    // Only for the proof: it shows that the channel is true to its log.
    let _pending = chan.pending();
}

/// Returns the result of a move that was not committed at once, so that nothing is changed.
fn not_at_once() -> CallResult
    ensures { result.code ≡ 4 }
{
    call_result(REJECTED, NOT_NOW)
}

/// Moves an item as one whole transaction under this tag. Nothing in the channels may be uncommitted.
#[inline(always)]
fn move_under<K: Log>(source: &mut ChanBox<K>, target: &mut ChanBox<K>, kept: Tag) -> CallResult
    requires tagged { kept ≡ tag_of_move source.old.logged target.old.logged }
    requires can { CanCommit source.old.logged target.old.logged }
    requires lawful { MatchesLog source.old.logged }
    requires clean { target.old.logged.pending ≡ 0 }
    ensures { MovesAlone source.old.logged target.old.logged source.new.logged target.new.logged result }
{
    let read = Op::Read { chan: 0, reader: 0 };
    let item = match source.apply(&NonBlocking, kept, &read, None) {
        Ok(Answer::Replied(Reply::Got(item))) => item,
        Ok(Answer::Replied(_)) => return not_at_once(),
        Ok(Answer::Retry(cause)) => return call_result(RETRY, cause_number(cause)),
        Err(Stop::NoMemory) => return call_result(NO_MEMORY, 0),
        Err(_) => return not_at_once(),
    };
    match target.commit_write(&NonBlocking, kept, item.body) {
        CommitOutcome::Done => {
            source.settle(kept.stamp);
            call_result(DONE, item.body)
        }
        CommitOutcome::Waits => {
            take_back(source);
            call_result(RETRY, 0)
        }
        CommitOutcome::NoMemory => {
            take_back(source);
            call_result(NO_MEMORY, 0)
        }
        CommitOutcome::Closed => {
            take_back(source);
            not_at_once()
        }
    }
}

/// Moves an item as one whole transaction of no seat.
#[inline(always)]
fn move_alone<K: Log>(source: &mut ChanBox<K>, target: &mut ChanBox<K>) -> CallResult
    ensures { MovesAlone source.old.logged target.old.logged source.new.logged target.new.logged result }
{
    if source.pending() > 0 || target.pending() > 0 {
        return not_at_once();
    }
    let most = NO_TAG.stamp.max(source.stamp()).max(target.stamp());
    match tag_after(NO_TAG, most) {
        Some(kept) => move_under(source, target, kept),
        None => not_at_once(),
    }
}

impl Channel {
    /// Moves the next item of reader 0 of this channel to another one: a read, and a write of what was read, as one
    /// whole transaction of no seat. The logs of both must not be recorded. Returns code 0 with the item's body if it
    /// commits, code 1 with the cause if it must be retried, and code 5 if an allocation fails. The request is rejected
    /// with code 4 if one of the places has no such channel, or if the move cannot be done at once: a channel is
    /// closed, the source has no reader 0, or a stamp is used up. Unless the code is 0, nothing is changed.
    pub fn move_to(&mut self, target: &mut Channel) -> CallResult
        ensures { MovesHere self.old target.old self.new target.new result }
    {
        let Channel::Unrecorded(source) = self else {
            return call_result(REJECTED, NOT_NOW);
        };
        let Channel::Unrecorded(target) = target else {
            return call_result(REJECTED, NOT_NOW);
        };
        move_alone(source, target)
    }
}
