// Taking items.
ghost use Rattle.std.specs.Prelude.{◌≡◌, false, IfOk, IfErr, OnErr};
ghost use Rattle.txc_base.specs.Channel.{list_of};
ghost use Rattle.txc_base.specs.Kinds.{is_broadcast};
ghost use Rattle.txc_base.specs.Operation.{HasActs, with_list, taking};
ghost use Rattle.txc_chan.specs.Chan.{unchanged, flushing, Does};
ghost use Rattle.txc_chan.specs.Mode.{at_end};
ghost use Rattle.txc_chan.specs.Logged.{on_log, did, UnlessReplied};

use crate::answer::Answer;
use crate::chan::Chan;
use crate::log::Log;
use crate::mode::Mode;
use crate::steps::record_takes;
use txc_base::{Act, Entry, List, Reply, Stop, Tag};

impl<K: Log> Chan<K> {
    // Takes a reader's next item. The mode decides the result if an open channel has nothing to read.
    pub(super) fn take(&mut self, tag: Tag, reader: u16, mode: Mode) -> Result<Answer, Stop>
        requires { is_broadcast self.old.logged.channel.kind ≡ false → reader ≡ 0 }
        ensures { let c = self.old.logged.channel in
            Does (with_list (list_of c reader) (taking c reader (unchanged (at_end mode) c))) tag
            self.old result self.new }
    {
        if self.body.front(reader)?.is_none() {
            if self.closed {
                return Ok(Answer::Replied(Reply::Closed));
            }
            return Ok(mode.at_end());
        }
        self.log.reserve(1)?;
        let Some(item) = self.body.take(reader)? else {
            unreachable!()
        };
        self.log.push_reserved(Entry {
            tag,
            act: Act::Took(reader, item),
        });
        Ok(Answer::Replied(Reply::Got(item)))
    }

    // Takes all items of a queue, in order, and adds an entry for each.
    pub(super) fn flush(&mut self, tag: Tag) -> Result<Answer, Stop>
        requires { is_broadcast self.old.logged.channel.kind ≡ false }
        ensures ok { let c = self.old.logged.channel in
            IfOk result (λ a. on_log self.old.logged tag (with_list (list_of c 0) (flushing c 0))
            ≡ did a self.new.logged) }
        ensures retry { IfOk result (λ a. UnlessReplied a (self.new ≡ self.old)) }
        ensures err { IfErr result (λ e. (e ≡ Stop.NoMemory) × (self.new ≡ self.old)) }
        ensures memory { let c = self.old.logged.channel in
            OnErr result (HasActs (with_list (list_of c 0) (flushing c 0))) }
        ensures shelf { self.new.shelf ≡ self.old.shelf }
    {
        let count = self.body.len();
        if count == 0 {
            let nothing = Vec::new(self.log.allocator());
            return Ok(Answer::Replied(Reply::All(List::from_vec(nothing))));
        }
        self.log.reserve(count)?;
        let all = self.body.take_all()?;
        record_takes(&mut self.log, tag, all.as_slice());
        Ok(Answer::Replied(Reply::All(List::from_vec(all))))
    }
}
