// Writing an item.
ghost use Rattle.txc_chan.specs.Chan.{unchanged, writing, Does};
ghost use Rattle.txc_chan.specs.Mode.{at_bound};

use crate::answer::Answer;
use crate::chan::Chan;
use crate::log::Log;
use crate::mode::Mode;
use crate::steps::make_item;
use txc_base::{Act, Entry, Origin, Reply, Stop, Tag};
use txc_cast::Append;

impl<K: Log> Chan<K> {
    // Writes an item with this body. The mode decides the result at the bound. Returns `NothingRead` if there is no
    // body.
    pub(super) fn write<R: Append>(
        &mut self,
        rt: &R,
        tag: Tag,
        body: Option<u64>,
        mode: Mode,
    ) -> Result<Answer, Stop>
        ensures { let c = self.old.logged.channel in
            Does (writing c tag.seat body (unchanged (at_bound mode) c)) tag self.old result self.new }
    {
        let Some(body) = body else {
            return Err(Stop::NothingRead);
        };
        if self.closed {
            return Ok(Answer::Replied(Reply::Closed));
        }
        if self.body.is_full() {
            return Ok(mode.at_bound());
        }
        self.log.reserve(1)?;
        let item = make_item(tag, Origin::Written(self.written), body);
        self.body.write(rt, item)?;
        self.log.push_reserved(Entry {
            tag,
            act: Act::Wrote(item),
        });
        self.written += 1;
        Ok(Answer::Replied(Reply::Done))
    }
}
