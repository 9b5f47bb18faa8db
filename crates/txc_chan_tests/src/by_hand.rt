// A closable queue with a recorded log.
use std::process::Abort;
use std::sync::Wait;
use txc_base::{Item, Kind, Op, Origin, Reply, Source, Tag, supports};
use txc_chan::{Answer, Chan, ChanFault, FullLog};

const TAG: Tag = Tag {
    seat: 0,
    serial: 0,
    stamp: 1,
};

/// Asserts that an operation is done. Panics if the channel doesn't have the operation.
fn does<R: Wait + Abort>(rt: &R, chan: &mut Chan<FullLog>, op: &Op) {
    if supports(chan.kind(), op) {
        let answer = chan.apply(rt, TAG, op, None);
        assert!(rt; answer == Ok(Answer::Replied(Reply::Done)), "at {op:?}");
    } else {
        panic!(rt; "no operation of the channel")
    }
}

/// Asserts the bound and the number of readers.
fn is_declared<R: Abort>(rt: &R, chan: &Chan<FullLog>) {
    assert_eq!(rt; chan.bound(), 0);
    assert_eq!(rt; chan.readers(), 1);
}

/// Asserts the tag of the first entry, and that there is no third one.
fn has_two_entries<R: Abort>(rt: &R, chan: &Chan<FullLog>) {
    let entry = chan.log().get(0).expect(rt, "an entry");
    assert_eq!(rt; entry.tag, TAG);
    assert!(rt; chan.log().get(2).is_none());
}

/// Asserts the remaining item of the only reader.
fn has_one_item<R: Abort>(rt: &R, chan: &Chan<FullLog>) {
    let account = chan.account().expect(rt, "memory for the account");
    let first = account.remaining.as_slice().first().expect(rt, "a reader");
    let written = Item {
        origin: Origin::Written(0),
        seat: 0,
        body: 7,
    };
    assert!(rt; first.as_slice() == [written].as_slice());
}

#[test]
fn closed_queue_by_hand(rt: HostRuntime) {
    let built = Chan::<FullLog>::build(rt.alloc(), Kind::MQueue, 0, 1);
    let (mut chan, _shelf) = built.expect(&rt, "a channel");
    is_declared(&rt, &chan);
    let write = Op::Write {
        chan: 0,
        body: Source::Lit(7),
    };
    does(&rt, &mut chan, &write);
    does(&rt, &mut chan, &Op::Close { chan: 0 });
    assert!(&rt; chan.closed());
    has_two_entries(&rt, &chan);
    has_one_item(&rt, &chan);
}

#[test]
fn faults_of_declarations(rt: HostRuntime) {
    let fault = Chan::<FullLog>::build(rt.alloc(), Kind::Cast, 0, 65).err();
    let fault = fault.expect(&rt, "a fault");
    assert_eq!(&rt; fault, ChanFault::TooManyReaders);
    assert_eq!(&rt; ChanFault::NoMemory.code(), 3);
}
