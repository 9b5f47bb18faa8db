// Operations that do not change the channel.
ghost use Rattle.std.specs.Prelude.{◌≡◌, ◌≢◌, false, is_none, slice_get, IfOk, IfErr};
ghost use Rattle.txc_base.specs.Channel.{list_of, length_of};
ghost use Rattle.txc_base.specs.Kinds.{is_broadcast};
ghost use Rattle.txc_base.specs.declared.reply.Reply.TheVariants as reply;
ghost use Rattle.txc_base.specs.declared.tag.Tag.{Tag};
ghost use Rattle.txc_base.specs.Operation.{with_list, showing, says, is_full};
ghost use Rattle.txc_chan.specs.Chan.{unchanged};
ghost use Rattle.txc_chan.specs.Mode.{at_end};
ghost use Rattle.txc_chan.specs.Logged.{on_log, did, Stopped};

use crate::answer::Answer;
use crate::chan::Chan;
use crate::log::Log;
use crate::mode::Mode;
use txc_base::{Reply, Stop};

impl<K: Log> Chan<K> {
    // Replies with a reader's next item. The mode decides the result if an open channel has nothing to read.
    pub(super) fn peek(&self, reader: u16, mode: Mode) -> Result<Answer, Stop>
        requires { is_broadcast self.now.logged.channel.kind ≡ false → reader ≡ 0 }
        ensures ok { let c = self.now.logged.channel in (tag : Tag)
            → IfOk result (λ a. on_log self.now.logged tag (with_list (list_of c reader)
            (showing c (unchanged (at_end mode) c))) ≡ did a self.now.logged) }
        ensures err { let c = self.now.logged.channel in (tag : Tag)
            → IfErr result (λ e. e ≢ Stop.NoMemory
            → on_log self.now.logged tag (with_list (list_of c reader) (showing c (unchanged (at_end mode) c)))
            ≡ Stopped e) }
        ensures refused { IfErr result (λ e. e ≡ Stop.NoReader) }
    {
        match self.body.front(reader)? {
            Some(item) => Ok(Answer::Replied(Reply::Got(item))),
            None if self.closed => Ok(Answer::Replied(Reply::Closed)),
            None => Ok(mode.at_end()),
        }
    }

    // Replies whether a reader has nothing to read.
    pub(super) fn is_empty(&self, reader: u16) -> Result<Answer, Stop>
        requires { is_broadcast self.now.logged.channel.kind ≡ false → reader ≡ 0 }
        ensures ok { let c = self.now.logged.channel in
            IfOk result (λ a. (tag : Tag) → on_log self.now.logged tag (with_list (list_of c reader)
            (λ list. says (reply.Flag (is_none (slice_get list 0))) c)) ≡ did a self.now.logged) }
        ensures err { let c = self.now.logged.channel in
            IfErr result (λ e. (tag : Tag) → on_log self.now.logged tag (with_list (list_of c reader)
            (λ list. says (reply.Flag (is_none (slice_get list 0))) c)) ≡ Stopped e) }
        ensures refused { IfErr result (λ e. e ≡ Stop.NoReader) }
    {
        let front = self.body.front(reader)?;
        Ok(Answer::Replied(Reply::Flag(front.is_none())))
    }

    // Returns the number of items in a queue.
    pub(super) fn count(&self) -> u64
        requires { is_broadcast self.now.logged.channel.kind ≡ false }
        ensures { result ≡ length_of self.now.logged.channel }
    {
        self.body.len() as u64
    }

    // Returns whether a queue is at or over its bound.
    pub(super) fn is_full(&self) -> bool
        requires { is_broadcast self.now.logged.channel.kind ≡ false }
        ensures { result ≡ is_full self.now.logged.channel }
    {
        self.count() >= self.bound()
    }
}
