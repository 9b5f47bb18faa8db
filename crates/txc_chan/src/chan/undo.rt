// Undoing the last changes.
ghost use Rattle.std.specs.Prelude.{◌≡◌, ◌<◌};
ghost use Rattle.txc_chan.specs.Logged.{MatchesLog, Undone, settled};

use crate::chan::Chan;
use crate::log::Log;
use txc_base::Act;

impl<K: Log> Chan<K> {
    // Removes the last entry and undoes it.
    fn take_back(&mut self)
        requires { 0 < self.old.logged.pending }
        ensures undone { Undone self.old.logged self.new.logged }
        ensures shelf { self.new.shelf ≡ self.old.shelf }
    {
        let Some(entry) = self.log.pop() else {
            unreachable!()
        };
        match entry.act {
            Act::Wrote(_) => {
                self.body.undo_write();
                self.written -= 1;
            }
            Act::Took(reader, item) => self.body.undo_take(reader, item),
            Act::PutBack(reader, _) => {
                self.body.undo_put_back(reader);
                self.backs -= 1;
            }
            Act::Closed => self.closed = false,
            Act::Begun(_) => self.body.undo_reader(),
            Act::Cloned(_, _) => self.body.undo_reader(),
        }
    }

    /// Removes the last entry of the log and undoes it. There must be an entry that can be undone.
    pub fn undo_last(&mut self)
        requires { 0 < self.old.logged.pending }
        ensures undone { Undone self.old.logged self.new.logged }
        ensures lawful { MatchesLog self.new.logged }
        ensures shelf { self.new.shelf ≡ self.old.shelf }
    {
        self.take_back();
        self.show();
    }

    /// Makes all entries final: none of them can be undone, and the memory reserved for undoing them is free for later
    /// entries. Sets the stamp of the last committed transaction.
    pub fn settle(&mut self, stamp: u64)
        ensures logged { self.new.logged ≡ settled stamp self.old.logged }
        ensures slots { self.new.slots ≡ self.old.slots }
        ensures shelf { self.new.shelf ≡ self.old.shelf }
    {
        self.body.settle();
        self.log.settle();
        self.stamp = stamp;
    }
}
