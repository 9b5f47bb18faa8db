// Putting an item back in front of a list.
ghost use Rattle.std.specs.Prelude.{◌≡◌, false};
ghost use Rattle.txc_base.specs.Kinds.{is_broadcast};
ghost use Rattle.txc_chan.specs.Chan.{putting_back, Does};

use crate::answer::Answer;
use crate::chan::Chan;
use crate::log::Log;
use crate::steps::make_item;
use txc_base::{Act, Cause, Entry, Origin, Reply, Stop, Tag};

impl<K: Log> Chan<K> {
    // Puts an item with this body in front of a reader's list. Returns `NothingRead` if there is no body.
    pub(super) fn put_back(
        &mut self,
        tag: Tag,
        reader: u16,
        body: Option<u64>,
    ) -> Result<Answer, Stop>
        requires { is_broadcast self.old.logged.channel.kind ≡ false → reader ≡ 0 }
        ensures { Does (putting_back self.old.logged.channel tag.seat reader body) tag self.old result self.new }
    {
        let Some(body) = body else {
            return Err(Stop::NothingRead);
        };
        if !self.body.has_reader(reader) {
            return Err(Stop::NoReader);
        }
        if self.closed {
            return Ok(Answer::Replied(Reply::Closed));
        }
        if self.body.put_back_must_wait(self.decl.kind) {
            return Ok(Answer::Retry(Cause::Full));
        }
        self.log.reserve(1)?;
        let item = make_item(tag, Origin::Back(self.backs), body);
        self.body.put_back(reader, item)?;
        self.log.push_reserved(Entry {
            tag,
            act: Act::PutBack(reader, item),
        });
        self.backs += 1;
        Ok(Answer::Replied(Reply::Done))
    }
}
