// The lines of a table, all locked, in the run of a transaction.
use crate::locked_lines::LockedLines;
use txc_base::{Entry, Op, Stop, Tag};
use txc_chan::{Answer, Append, Log};
use txc_txn::Hold;

impl<K: Log> Hold for LockedLines<K> {
    ghost use Rattle.std.specs.Prelude.{◌<◌, List, length};
    ghost use Rattle.txc_table_line.specs.Line.{LineId};
    ghost use Rattle.txc_txn.specs.Plain.{chan_in};
    ghost use Rattle.txc_table_lines.specs.Locked.{helds_of, lines_of};

    ghost chans = { λ all. chan_in (helds_of all) };

    ghost IsHeld = { λ all n. n < length all };

    ghost Fixed = { List LineId };

    ghost fixed = { λ all. lines_of all };

    fn apply<R: Append>(
        &mut self,
        rt: &R,
        chan: u16,
        tag: Tag,
        op: &Op,
        last: Option<u64>,
    ) -> Result<Answer, Stop> {
        match &mut self.lines.as_mut_slice()[usize::from(chan)] {
            Some(line) => line.apply(rt, tag, op, last),
            None => unreachable!(),
        }
    }

    fn stamp(&mut self, chan: u16) -> u64 {
        match &mut self.lines.as_mut_slice()[usize::from(chan)] {
            Some(line) => line.stamp(),
            None => unreachable!(),
        }
    }

    fn pending(&mut self, chan: u16) -> usize {
        match &mut self.lines.as_mut_slice()[usize::from(chan)] {
            Some(line) => line.pending(),
            None => unreachable!(),
        }
    }

    fn log_len(&mut self, chan: u16) -> usize {
        match &mut self.lines.as_mut_slice()[usize::from(chan)] {
            Some(line) => line.log_len(),
            None => unreachable!(),
        }
    }

    fn entry(&mut self, chan: u16, place: usize) -> Option<Entry> {
        match &mut self.lines.as_mut_slice()[usize::from(chan)] {
            Some(line) => line.entry(place),
            None => unreachable!(),
        }
    }

    fn undo_last(&mut self, chan: u16) {
        match &mut self.lines.as_mut_slice()[usize::from(chan)] {
            Some(line) => line.undo_last(),
            None => unreachable!(),
        }
    }
}
