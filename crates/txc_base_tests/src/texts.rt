// The texts of items, replies, operations and errors, as reports and scripts have them, and the iteration over lists.
use crate::comparisons::is_count;
use std::alloc::Global;
use std::fmt::Display;
use std::process::Abort;
use txc_base::{Cause, Item, Items, Kind, List, Op, Origin, Reply, Source, Stop};

/// Asserts that a value is printed as this text.
fn is_shown<T: Display>(rt: &impl Abort, alloc: Global, value: &T, text: &str) {
    let shown = format!(in alloc; "{value}").expect(rt, "memory for a text");
    assert_eq!(rt; shown.as_str(), text);
}

const WRITTEN: Item = Item {
    origin: Origin::Written(0),
    seat: 0,
    body: 7,
};

const BACK: Item = Item {
    origin: Origin::Back(12),
    seat: 15,
    body: 18_446_744_073_709_551_615,
};

fn both(rt: &impl Abort, alloc: Global) -> List<Item> {
    List::from(vec![in alloc; WRITTEN, BACK].expect(rt, "memory for two items"))
}

#[test]
fn items(rt: HostRuntime) {
    let alloc = rt.alloc();
    is_shown(&rt, alloc, &WRITTEN, "w0@0=7");
    is_shown(&rt, alloc, &BACK, "b12@15=18446744073709551615");
    let items = both(&rt, alloc);
    let all = " w0@0=7 b12@15=18446744073709551615";
    is_shown(&rt, alloc, &Items(items.as_slice()), all);
    is_shown(&rt, alloc, &Items(&[]), "");
}

#[test]
fn replies(rt: HostRuntime) {
    let alloc = rt.alloc();
    is_shown(&rt, alloc, &Reply::Done, "done");
    is_shown(&rt, alloc, &Reply::Got(WRITTEN), "got w0@0=7");
    is_shown(&rt, alloc, &Reply::Full, "full");
    is_shown(&rt, alloc, &Reply::Empty, "empty");
    is_shown(&rt, alloc, &Reply::Closed, "closed");
    is_shown(&rt, alloc, &Reply::Flag(true), "true");
    is_shown(&rt, alloc, &Reply::Flag(false), "false");
    is_shown(&rt, alloc, &Reply::Reader(63), "reader 63");
    is_shown(&rt, alloc, &Reply::Count(0), "count 0");
    let all = Reply::All(both(&rt, alloc));
    let text = "all w0@0=7 b12@15=18446744073709551615";
    is_shown(&rt, alloc, &all, text);
    is_shown(&rt, alloc, &Reply::All(List::from(Vec::new(alloc))), "all");
}

#[test]
fn causes_stops_and_kinds(rt: HostRuntime) {
    let alloc = rt.alloc();
    is_shown(&rt, alloc, &Cause::Full, "full");
    is_shown(&rt, alloc, &Cause::Empty, "empty");
    is_shown(&rt, alloc, &Cause::Asked, "asked");
    is_shown(&rt, alloc, &Stop::NoReader, "no-reader");
    is_shown(&rt, alloc, &Stop::NothingRead, "nothing-read");
    is_shown(&rt, alloc, &Stop::TooManyReaders, "too-many-readers");
    is_shown(&rt, alloc, &Stop::Worn, "worn");
    is_shown(&rt, alloc, &Stop::NoMemory, "no memory");
    is_shown(&rt, alloc, &Kind::BMQueue, "TBMQueue");
}

#[test]
fn operations(rt: HostRuntime) {
    let alloc = rt.alloc();
    let (chan, reader) = (3, 5);
    let (body, last) = (Source::Lit(7), Source::Last);
    is_shown(&rt, alloc, &Op::Write { chan, body }, r#"["write",3,7]"#);
    let written = Op::TryWrite { chan, body: last };
    is_shown(&rt, alloc, &written, r#"["try-write",3,"last"]"#);
    is_shown(&rt, alloc, &Op::Peek { chan, reader }, r#"["peek",3,5]"#);
    let back = Op::PutBack { chan, reader, body };
    is_shown(&rt, alloc, &back, r#"["put-back",3,5,7]"#);
    let cloned = Op::CloneReader { chan, reader };
    is_shown(&rt, alloc, &cloned, r#"["clone",3,5]"#);
    is_shown(&rt, alloc, &Op::Close { chan }, r#"["close",3]"#);
}

#[test]
fn lists(rt: HostRuntime) {
    let alloc = rt.alloc();
    let list = both(&rt, alloc);
    is_count(&rt, list.len(), 2);
    assert!(rt; !list.is_empty());
    assert_eq!(rt; list.get(1), Some(&BACK));
    assert_eq!(rt; list.get(2), None);
    let mut shown = 0usize;
    for item in &list {
        assert_eq!(rt; Some(item), list.get(shown));
        shown = shown.wrapping_add(1);
    }
    is_count(&rt, shown, 2);
    is_count(&rt, list.iter().count(), 2);
    let mut taken = list.into_iter();
    assert_eq!(rt; taken.next(), Some(WRITTEN));
    assert_eq!(rt; taken.next(), Some(BACK));
    assert_eq!(rt; taken.next(), None);
    let none = List::<u64>::from(Vec::new(alloc));
    assert!(rt; none.is_empty());
}
