// Operations that are committed at once.
ghost use Rattle.std.specs.Prelude.{◌≡◌, ◌≢◌, Some, false, IfOk, IfErr, OnErr};
ghost use Rattle.txc_base.specs.Channel.{list_of};
ghost use Rattle.txc_base.specs.Kinds.{is_broadcast};
ghost use Rattle.txc_base.specs.Operation.{Waits, taking, with_list};
ghost use Rattle.txc_base.specs.declared.cause.Cause.TheVariants.{Empty, Full};
ghost use Rattle.txc_base.specs.declared.reply.Reply.TheVariants as reply;
ghost use Rattle.txc_chan.specs.Chan.{writing};
ghost use Rattle.txc_chan.specs.Logged.{Left, Stopped, Waiting, on_log, unsettled};

use crate::chan::Chan;
use crate::log::Log;
use crate::steps::make_item;
use txc_base::{Act, Entry, Item, Origin, Stop, Tag};
use txc_cast::Append;

/// How an operation that is committed at once ended.
#[derive(Debug, Clone, Copy, PartialEq, Eq)]
pub enum CommitOutcome {
    /// The operation was done and committed.
    Done,
    /// The channel is closed, and nothing remains to read.
    Closed,
    /// The operation has to wait: the channel is full or empty.
    Waits,
    /// An allocation failed.
    NoMemory,
}

impl<K: Log> Chan<K> {
    /// Writes an item with this body and commits the write: it cannot be undone, and the channel gets the tag's stamp.
    /// Nothing in the channel may be uncommitted before. Unless the outcome is `Done`, the channel is unchanged.
    /// Allocates. Blocks only if the handle permits it, on a broadcast channel.
    #[inline(always)]
    pub fn commit_write<R: Append>(&mut self, rt: &R, tag: Tag, body: u64) -> CommitOutcome
        requires clean { self.old.logged.pending ≡ 0 }
        ensures done { let c = self.old.logged.channel in result ≡ CommitOutcome.Done
            → on_log self.old.logged tag (writing c tag.seat (Some body) (Waits Full))
            ≡ Left reply.Done (unsettled self.old.logged.stamp self.new.logged) }
        ensures settled { result ≡ CommitOutcome.Done
            → (self.new.logged.pending ≡ 0) × (self.new.logged.stamp ≡ tag.stamp) }
        ensures closed { let c = self.old.logged.channel in result ≡ CommitOutcome.Closed
            → on_log self.old.logged tag (writing c tag.seat (Some body) (Waits Full))
            ≡ Left reply.Closed self.old.logged }
        ensures waits { let c = self.old.logged.channel in result ≡ CommitOutcome.Waits
            → on_log self.old.logged tag (writing c tag.seat (Some body) (Waits Full)) ≡ Waiting Full }
        ensures same { result ≢ CommitOutcome.Done → self.new ≡ self.old }
        ensures shelf { self.new.shelf ≡ self.old.shelf }
    {
        if self.closed {
            return CommitOutcome::Closed;
        }
        if self.body.is_full() {
            return CommitOutcome::Waits;
        }
        if self.log.reserve_settled().is_err() {
            return CommitOutcome::NoMemory;
        }
        let item = make_item(tag, Origin::Written(self.written), body);
        if self.body.write(rt, item).is_err() {
            return CommitOutcome::NoMemory;
        }
        self.log.push_settled(&Entry {
            tag,
            act: Act::Wrote(item),
        });
        self.written += 1;
        self.stamp = tag.stamp;
        CommitOutcome::Done
    }

    /// Moves a reader's next item into `to` and commits the read: it cannot be undone, and the channel gets the tag's
    /// stamp. Nothing in the channel may be uncommitted before. Unless the outcome is `Done`, the channel is unchanged.
    /// Returns `NoReader` if there is no such reader, and `NoMemory` if an allocation fails. Allocates, and does not
    /// block.
    pub fn commit_take(
        &mut self,
        tag: Tag,
        reader: u16,
        to: &mut Item,
    ) -> Result<CommitOutcome, Stop>
        requires clean { self.old.logged.pending ≡ 0 }
        requires reader { is_broadcast self.old.logged.channel.kind ≡ false → reader ≡ 0 }
        ensures done { let c = self.old.logged.channel in IfOk result (λ outcome. outcome ≡ CommitOutcome.Done
            → on_log self.old.logged tag (with_list (list_of c reader) (taking c reader (Waits Empty)))
            ≡ Left (reply.Got to.new) (unsettled self.old.logged.stamp self.new.logged)) }
        ensures settled { IfOk result (λ outcome. outcome ≡ CommitOutcome.Done
            → (self.new.logged.pending ≡ 0) × (self.new.logged.stamp ≡ tag.stamp)) }
        ensures closed { let c = self.old.logged.channel in IfOk result (λ outcome. outcome ≡ CommitOutcome.Closed
            → on_log self.old.logged tag (with_list (list_of c reader) (taking c reader (Waits Empty)))
            ≡ Left reply.Closed self.old.logged) }
        ensures waits { let c = self.old.logged.channel in IfOk result (λ outcome. outcome ≡ CommitOutcome.Waits
            → on_log self.old.logged tag (with_list (list_of c reader) (taking c reader (Waits Empty)))
            ≡ Waiting Empty) }
        ensures memory { IfOk result (λ outcome. outcome ≢ CommitOutcome.NoMemory) }
        ensures same { IfOk result (λ outcome. outcome ≢ CommitOutcome.Done → self.new.logged ≡ self.old.logged) }
        ensures err { let c = self.old.logged.channel in IfErr result (λ e. e ≢ Stop.NoMemory
            → on_log self.old.logged tag (with_list (list_of c reader) (taking c reader (Waits Empty))) ≡ Stopped e) }
        ensures unchanged { OnErr result (self.new.logged ≡ self.old.logged) }
        ensures shelf { self.new.shelf ≡ self.old.shelf }
    {
        self.show_kind();
        self.log.reserve_settled()?;
        if self.body.take_settled(reader, to)? {
            self.log.push_settled(&Entry {
                tag,
                act: Act::Took(reader, *to),
            });
            self.stamp = tag.stamp;
            return Ok(CommitOutcome::Done);
        }
        if self.closed {
            return Ok(CommitOutcome::Closed);
        }
        Ok(CommitOutcome::Waits)
    }
}
