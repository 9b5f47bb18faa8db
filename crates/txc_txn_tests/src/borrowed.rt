// A transaction on two borrowed channels.
use std::alloc::Global;
use std::process::Abort;
use std::sync::Wait;
use txc_base::{Entry, Kind, Op, Source, Stop, Tag};
use txc_chan::{Answer, Append, Chan, FullLog};
use txc_txn::{Checked, Hold, Ran, Settle, Step, run_held};

/// Channels 0 and 1.
#[derive(Drop)]
struct Borrowed<'a> {
    first: &'a mut Chan<FullLog>,
    second: &'a mut Chan<FullLog>,
}

impl Hold for Borrowed<'_> {
    ghost use Rattle.std.specs.Prelude.{◌<◌};
    ghost use Rattle.txc_txn_tests.specs.Borrowed.{two_in};

    ghost chans = { λ pair. two_in pair.first.now pair.second.now };

    ghost IsHeld = { λ pair n. n < 2 };

    ghost Fixed = { Unit {0} };

    ghost fixed = { λ _. tt };

    fn apply<R: Append>(
        &mut self,
        rt: &R,
        chan: u16,
        tag: Tag,
        op: &Op,
        last: Option<u64>,
    ) -> Result<Answer, Stop> {
        if chan == 0 {
            self.first.apply(rt, tag, op, last)
        } else {
            self.second.apply(rt, tag, op, last)
        }
    }

    fn stamp(&mut self, chan: u16) -> u64 {
        if chan == 0 {
            self.first.stamp()
        } else {
            self.second.stamp()
        }
    }

    fn pending(&mut self, chan: u16) -> usize {
        if chan == 0 {
            self.first.pending()
        } else {
            self.second.pending()
        }
    }

    fn log_len(&mut self, chan: u16) -> usize {
        if chan == 0 {
            self.first.log_len()
        } else {
            self.second.log_len()
        }
    }

    fn entry(&mut self, chan: u16, place: usize) -> Option<Entry> {
        if chan == 0 {
            self.first.entry(place)
        } else {
            self.second.entry(place)
        }
    }

    fn undo_last(&mut self, chan: u16) {
        if chan == 0 {
            self.first.undo_last()
        } else {
            self.second.undo_last()
        }
    }
}

impl Settle for Borrowed<'_> {
    fn settle(&mut self, chan: u16, stamp: u64) {
        if chan == 0 {
            self.first.settle(stamp)
        } else {
            self.second.settle(stamp)
        }
    }
}

/// Runs these steps on a pair, after stamp 6.
fn moved<R: Abort + Wait>(
    rt: &R,
    alloc: Global,
    pair: &mut Borrowed,
    steps: Vec<Step>,
) -> Result<Ran, Stop> {
    let kinds = [pair.first.kind(), pair.second.kind()];
    let checked = Checked::check(steps, &kinds).expect(rt, "steps that fit");
    checked.show_fits(&kinds);
    let tag = Tag {
        seat: 0,
        serial: 0,
        stamp: 6,
    };
    run_held(rt, alloc, pair, tag, &checked)
}

/// Makes an empty queue.
fn queue(rt: &impl Abort, alloc: Global) -> Chan<FullLog> {
    let (chan, _shelf) = Chan::<FullLog>::build(alloc, Kind::Queue, 0, 1).expect(rt, "a queue");
    chan
}

/// The steps that write to the first channel and move the item to the second.
fn steps_of_a_move(rt: &impl Abort, alloc: Global) -> Vec<Step> {
    let write = Op::Write {
        chan: 0,
        body: Source::Lit(3),
    };
    let write_last = Op::Write {
        chan: 1,
        body: Source::Last,
    };
    let read = Op::Read { chan: 0, reader: 0 };
    let steps = [Step::Do(write), Step::Do(read), Step::Do(write_last)];
    Vec::from_array(alloc, steps).expect(rt, "memory for the steps")
}

/// Borrows these channels, writes to the first, and moves the item to the second.
fn lend<R: Abort + Wait>(
    rt: &R,
    alloc: Global,
    first: &mut Chan<FullLog>,
    second: &mut Chan<FullLog>,
) {
    let mut pair = Borrowed { first, second };
    let steps = steps_of_a_move(rt, alloc);
    let ran = moved(rt, alloc, &mut pair, steps);
    assert!(rt; matches!(&ran, Ok(Ran::Kept(_))));
}

/// Asserts the logs of both channels and the stamp of the second.
fn are_held(rt: &impl Abort, first: &Chan<FullLog>, second: &Chan<FullLog>) {
    assert!(rt; first.log_len() == 2);
    assert!(rt; second.log_len() == 1);
    assert!(rt; second.stamp() == 7);
}

/// Lends this channel and a new one, and checks both.
fn lend_with_another<R: Abort + Wait>(rt: &R, alloc: Global, first: &mut Chan<FullLog>) {
    let mut second = queue(rt, alloc);
    lend(rt, alloc, first, &mut second);
    are_held(rt, first, &second);
}

#[test]
fn borrowed_channels_are_held(rt: HostRuntime) {
    let mut first = queue(&rt, rt.alloc());
    lend_with_another(&rt, rt.alloc(), &mut first);
}
