// Making readers.
ghost use Rattle.std.specs.Prelude.{◌≡◌, true, []};
ghost use Rattle.txc_base.specs.Channel.{list_of};
ghost use Rattle.txc_base.specs.Kinds.{is_broadcast};
ghost use Rattle.txc_base.specs.declared.act.Act.TheVariants.{Begun, Cloned};
ghost use Rattle.txc_base.specs.Operation.{with_list, reader_made};
ghost use Rattle.txc_chan.specs.Chan.{Does};

use crate::answer::Answer;
use crate::chan::Chan;
use crate::log::Log;
use txc_base::{Act, Entry, Reply, Stop, Tag};

impl<K: Log> Chan<K> {
    // Makes a reader with nothing to read.
    pub(super) fn dup(&mut self, tag: Tag) -> Result<Answer, Stop>
        requires { is_broadcast self.old.logged.channel.kind ≡ true }
        ensures { Does (reader_made self.old.logged.channel Begun []) tag self.old result self.new }
    {
        if self.body.is_at_reader_limit() {
            return Err(Stop::TooManyReaders);
        }
        self.log.reserve(1)?;
        let number = self.body.dup()?;
        self.log.push_reserved(Entry {
            tag,
            act: Act::Begun(number),
        });
        Ok(Answer::Replied(Reply::Reader(number)))
    }

    // Makes a reader with the same unread items as this one.
    pub(super) fn clone_reader(&mut self, tag: Tag, source: u16) -> Result<Answer, Stop>
        requires { is_broadcast self.old.logged.channel.kind ≡ true }
        ensures { let c = self.old.logged.channel in
            Does (with_list (list_of c source) (reader_made c (Cloned source))) tag self.old result self.new }
    {
        if !self.body.has_reader(source) {
            return Err(Stop::NoReader);
        }
        if self.body.is_at_reader_limit() {
            return Err(Stop::TooManyReaders);
        }
        self.log.reserve(1)?;
        let number = self.body.clone_reader(source)?;
        self.log.push_reserved(Entry {
            tag,
            act: Act::Cloned(source, number),
        });
        Ok(Answer::Replied(Reply::Reader(number)))
    }
}
