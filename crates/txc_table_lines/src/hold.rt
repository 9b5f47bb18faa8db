// The locked lines in the run of a transaction.
use crate::guards::Guards;
use txc_base::{Entry, Op, Stop, Tag};
use txc_chan::{Answer, Append, Log};
use txc_txn::Hold;

impl<K: Log> Hold for Guards<'_, K> {
    ghost use Rattle.std.specs.Prelude.{Contains};
    ghost use Rattle.txc_table_lines.specs.Guards.{Taken, chans_of};

    ghost chans = { λ guards. chans_of guards };

    ghost IsHeld = { λ guards n. Contains guards.declared n };

    ghost Fixed = { Taken };

    ghost fixed = { λ guards. record { declared = guards.declared; known = guards.known } };

    fn apply<R: Append>(
        &mut self,
        rt: &R,
        chan: u16,
        tag: Tag,
        op: &Op,
        last: Option<u64>,
    ) -> Result<Answer, Stop> {
        let at = self.place(chan);
        match &mut self.locked[at] {
            Some(guard) => guard.apply(rt, tag, op, last),
            None => unreachable!(),
        }
    }

    fn stamp(&mut self, chan: u16) -> u64 {
        let at = self.place(chan);
        match &mut self.locked[at] {
            Some(guard) => guard.stamp(),
            None => unreachable!(),
        }
    }

    fn pending(&mut self, chan: u16) -> usize {
        let at = self.place(chan);
        match &mut self.locked[at] {
            Some(guard) => guard.pending(),
            None => unreachable!(),
        }
    }

    fn log_len(&mut self, chan: u16) -> usize {
        let at = self.place(chan);
        match &mut self.locked[at] {
            Some(guard) => guard.log_len(),
            None => unreachable!(),
        }
    }

    fn entry(&mut self, chan: u16, place: usize) -> Option<Entry> {
        let at = self.place(chan);
        match &mut self.locked[at] {
            Some(guard) => guard.entry(place),
            None => unreachable!(),
        }
    }

    fn undo_last(&mut self, chan: u16) {
        let at = self.place(chan);
        match &mut self.locked[at] {
            Some(guard) => guard.undo_last(),
            None => unreachable!(),
        }
    }
}
