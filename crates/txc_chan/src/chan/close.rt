// Closing a channel.
ghost use Rattle.std.specs.Prelude.{◌≡◌, true, IfOk, IfErr, OnErr};
ghost use Rattle.txc_base.specs.Kinds.{is_closable};
ghost use Rattle.txc_base.specs.Operation.{HasActs, closing};
ghost use Rattle.txc_chan.specs.Logged.{on_log, did, UnlessReplied};

use crate::answer::Answer;
use crate::chan::Chan;
use crate::log::Log;
use txc_base::{Act, Entry, Reply, Stop, Tag};

impl<K: Log> Chan<K> {
    // Closes the channel. Changes nothing if the channel is already closed.
    pub(super) fn close(&mut self, tag: Tag) -> Result<Answer, Stop>
        requires { is_closable self.old.logged.channel.kind ≡ true }
        ensures ok { IfOk result (λ a. on_log self.old.logged tag (closing self.old.logged.channel)
            ≡ did a self.new.logged) }
        ensures retry { IfOk result (λ a. UnlessReplied a (self.new ≡ self.old)) }
        ensures err { IfErr result (λ e. (e ≡ Stop.NoMemory) × (self.new ≡ self.old)) }
        ensures memory { OnErr result (HasActs (closing self.old.logged.channel)) }
        ensures shelf { self.new.shelf ≡ self.old.shelf }
    {
        if self.closed {
            return Ok(Answer::Replied(Reply::Done));
        }
        self.log.reserve(1)?;
        self.log.push_reserved(Entry {
            tag,
            act: Act::Closed,
        });
        self.closed = true;
        Ok(Answer::Replied(Reply::Done))
    }
}
