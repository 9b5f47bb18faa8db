// Examples of the table of operations, which the checker computes, and examples of the calls.
ghost use Rattle.std.specs.Prelude.{◌≡◌, [], ◌∷◌, None, Some, true, false};
ghost use Rattle.txc_base.specs.Operation.{Replies, Waits, Stops, says, operate};
ghost use Rattle.txc_base.specs.Examples.{w, b};
ghost use Rattle.txc_base_tests.specs.Examples.{tqueue, tbqueue, tmqueue, tbmqueue, tchan, crowd};

use crate::comparisons::{are, is_count};
use std::alloc::Global;
use std::process::Abort;
use txc_base::{Act, Cause, Item, Kind, List, Op, Origin, Reply, Source, Stop, allowed};

fn a_write_goes_to_the_end()
    ensures done { operate (tqueue 0 []) 0 None (Op.Write 0 (Source.Lit 7))
        ≡ Replies Reply.Done (Act.Wrote (w 0 7) ∷ []) (tqueue 1 (w 0 7 ∷ [])) }
    ensures last { operate (tqueue 0 []) 0 (Some 5) (Op.Write 0 Source.Last)
        ≡ Replies Reply.Done (Act.Wrote (w 0 5) ∷ []) (tqueue 1 (w 0 5 ∷ [])) }
    ensures everyone { operate (tchan 1 0 ((w 0 1 ∷ []) ∷ [] ∷ [])) 0 None (Op.Write 0 (Source.Lit 2))
        ≡ Replies Reply.Done (Act.Wrote (w 1 2) ∷ []) (tchan 2 0 ((w 0 1 ∷ w 1 2 ∷ []) ∷ (w 1 2 ∷ []) ∷ [])) }
    ensures nothing_read { operate (tqueue 0 []) 0 None (Op.Write 0 Source.Last) ≡ Stops Stop.NothingRead }
    ensures closed { let c = tmqueue true 1 (w 0 1 ∷ []) in
        operate c 0 None (Op.Write 0 (Source.Lit 2)) ≡ says Reply.Closed c }
    ensures full { operate (tbqueue 1 (w 0 1 ∷ [])) 0 None (Op.Write 0 (Source.Lit 2)) ≡ Waits Cause.Full }
{}

fn a_try_write_tells_full_from_closed()
    ensures full { let c = tbmqueue false 1 0 (w 0 1 ∷ []) in
        operate c 0 None (Op.TryWrite 0 (Source.Lit 2)) ≡ says Reply.Full c }
    ensures closed { let c = tbmqueue true 1 0 (w 0 1 ∷ []) in
        operate c 0 None (Op.TryWrite 0 (Source.Lit 3)) ≡ says Reply.Closed c }
    ensures done { operate (tbmqueue false 0 0 []) 0 None (Op.TryWrite 0 (Source.Lit 4))
        ≡ Replies Reply.Done (Act.Wrote (w 0 4) ∷ []) (tbmqueue false 1 0 (w 0 4 ∷ [])) }
{}

fn a_read_takes_the_first()
    ensures got { operate (tqueue 1 (w 0 7 ∷ [])) 0 None (Op.Read 0 0)
        ≡ Replies (Reply.Got (w 0 7)) (Act.Took 0 (w 0 7) ∷ []) (tqueue 1 []) }
    ensures empty { operate (tqueue 0 []) 0 None (Op.Read 0 0) ≡ Waits Cause.Empty }
    ensures closed_to_its_end { operate (tmqueue true 1 (w 0 1 ∷ [])) 0 None (Op.Read 0 0)
        ≡ Replies (Reply.Got (w 0 1)) (Act.Took 0 (w 0 1) ∷ []) (tmqueue true 1 []) }
    ensures closed { let c = tmqueue true 1 [] in operate c 0 None (Op.Read 0 0) ≡ says Reply.Closed c }
    ensures no_reader { operate (tchan 1 0 []) 0 None (Op.Read 0 0) ≡ Stops Stop.NoReader }
{}

fn a_try_read_tells_empty_from_closed()
    ensures empty { let c = tmqueue false 0 [] in operate c 0 None (Op.TryRead 0 0) ≡ says Reply.Empty c }
    ensures closed { let c = tmqueue true 0 [] in operate c 0 None (Op.TryRead 0 0) ≡ says Reply.Closed c }
    ensures got { operate (tbmqueue false 1 0 (w 0 4 ∷ [])) 0 None (Op.TryRead 0 0)
        ≡ Replies (Reply.Got (w 0 4)) (Act.Took 0 (w 0 4) ∷ []) (tbmqueue false 1 0 []) }
{}

fn a_peek_takes_nothing()
    ensures got { let c = tbmqueue false 1 0 (w 0 4 ∷ []) in
        operate c 0 None (Op.Peek 0 0) ≡ says (Reply.Got (w 0 4)) c }
    ensures closed { let c = tbmqueue true 1 0 [] in operate c 0 None (Op.Peek 0 0) ≡ says Reply.Closed c }
    ensures empty { operate (tqueue 0 []) 0 None (Op.Peek 0 0) ≡ Waits Cause.Empty }
    ensures try_got { let c = tbmqueue false 1 0 (w 0 4 ∷ []) in
        operate c 0 None (Op.TryPeek 0 0) ≡ says (Reply.Got (w 0 4)) c }
    ensures try_empty { let c = tbmqueue false 1 0 [] in operate c 0 None (Op.TryPeek 0 0) ≡ says Reply.Empty c }
{}

fn a_put_back_is_read_next()
    ensures over_the_bound { operate (tbmqueue false 1 0 (w 0 1 ∷ [])) 0 None (Op.PutBack 0 0 (Source.Lit 9))
        ≡ Replies Reply.Done (Act.PutBack 0 (b 0 9) ∷ []) (tbmqueue false 1 1 (b 0 9 ∷ w 0 1 ∷ [])) }
    ensures at_the_bound { operate (tbqueue 1 (w 0 1 ∷ [])) 0 None (Op.PutBack 0 0 (Source.Lit 9)) ≡ Waits Cause.Full }
    ensures closed { let c = tmqueue true 1 (w 0 1 ∷ []) in
        operate c 0 None (Op.PutBack 0 0 (Source.Lit 3)) ≡ says Reply.Closed c }
    ensures one_reader { operate (tchan 2 0 ((w 1 2 ∷ []) ∷ [] ∷ [])) 0 None (Op.PutBack 0 0 (Source.Lit 9))
        ≡ Replies Reply.Done (Act.PutBack 0 (b 0 9) ∷ []) (tchan 2 1 ((b 0 9 ∷ w 1 2 ∷ []) ∷ [] ∷ [])) }
    ensures nothing_read { operate (tqueue 0 []) 0 None (Op.PutBack 0 0 Source.Last) ≡ Stops Stop.NothingRead }
    ensures no_reader { operate (tchan 0 0 []) 0 None (Op.PutBack 0 0 (Source.Lit 9)) ≡ Stops Stop.NoReader }
{}

fn a_closing_is_logged_once()
    ensures first { operate (tmqueue false 1 []) 0 None (Op.Close 0) ≡ Replies Reply.Done (Act.Closed ∷ [])
        (tmqueue true 1 []) }
    ensures second { let c = tmqueue true 1 [] in operate c 0 None (Op.Close 0) ≡ says Reply.Done c }
{}

fn questions_change_nothing()
    ensures open { let c = tbmqueue false 0 0 [] in operate c 0 None (Op.IsClosed 0) ≡ says (Reply.Flag false) c }
    ensures closed { let c = tbmqueue true 0 0 [] in operate c 0 None (Op.IsClosed 0) ≡ says (Reply.Flag true) c }
    ensures empty { let c = tchan 0 0 ([] ∷ []) in operate c 0 None (Op.IsEmpty 0 0) ≡ says (Reply.Flag true) c }
    ensures not_empty { let c = tbmqueue false 1 0 (w 0 4 ∷ []) in
        operate c 0 None (Op.IsEmpty 0 0) ≡ says (Reply.Flag false) c }
    ensures full { let c = tbmqueue false 1 1 (b 0 9 ∷ w 0 1 ∷ []) in
        operate c 0 None (Op.IsFull 0) ≡ says (Reply.Flag true) c }
    ensures not_full { let c = tbqueue 0 [] in operate c 0 None (Op.IsFull 0) ≡ says (Reply.Flag false) c }
    ensures length { let c = tbqueue 1 (w 0 1 ∷ []) in operate c 0 None (Op.Length 0) ≡ says (Reply.Count 1) c }
{}

fn a_duplicate_begins_empty_and_a_clone_with_its_source()
    ensures dup { operate (tchan 1 0 ((w 0 1 ∷ []) ∷ [])) 0 None (Op.Dup 0)
        ≡ Replies (Reply.Reader 1) (Act.Begun 1 ∷ []) (tchan 1 0 ((w 0 1 ∷ []) ∷ [] ∷ [])) }
    ensures clone { operate (tchan 2 1 ((b 0 9 ∷ w 1 2 ∷ []) ∷ [])) 0 None (Op.CloneReader 0 0)
        ≡ Replies (Reply.Reader 1) (Act.Cloned 0 1 ∷ [])
        (tchan 2 1 ((b 0 9 ∷ w 1 2 ∷ []) ∷ (b 0 9 ∷ w 1 2 ∷ []) ∷ [])) }
    ensures crowded_dup { operate (tchan 0 0 crowd) 0 None (Op.Dup 0) ≡ Stops Stop.TooManyReaders }
    ensures crowded_clone { operate (tchan 0 0 crowd) 0 None (Op.CloneReader 0 63) ≡ Stops Stop.TooManyReaders }
    ensures no_source { operate (tchan 0 0 crowd) 0 None (Op.CloneReader 0 64) ≡ Stops Stop.NoReader }
{}

fn a_flush_takes_all()
    ensures all { operate (tqueue 2 (w 0 1 ∷ w 1 2 ∷ [])) 0 None (Op.Flush 0 0)
        ≡ Replies (Reply.All (w 0 1 ∷ w 1 2 ∷ [])) (Act.Took 0 (w 0 1) ∷ Act.Took 0 (w 1 2) ∷ []) (tqueue 2 []) }
    ensures none { let c = tqueue 2 [] in operate c 0 None (Op.Flush 0 0) ≡ says (Reply.All []) c }
{}

#[test]
fn the_table_of_operations_by_examples() {
    a_write_goes_to_the_end();
    a_try_write_tells_full_from_closed();
    a_read_takes_the_first();
    a_try_read_tells_empty_from_closed();
    a_peek_takes_nothing();
    a_put_back_is_read_next();
    a_closing_is_logged_once();
    questions_change_nothing();
    a_duplicate_begins_empty_and_a_clone_with_its_source();
    a_flush_takes_all();
}

/// Each operation, on channel 3, and on reader 5 if it names a reader.
const EACH: [Op; 15] = [
    Op::Write {
        chan: 3,
        body: Source::Last,
    },
    Op::TryWrite {
        chan: 3,
        body: Source::Lit(1),
    },
    Op::Read { chan: 3, reader: 5 },
    Op::TryRead { chan: 3, reader: 5 },
    Op::Peek { chan: 3, reader: 5 },
    Op::TryPeek { chan: 3, reader: 5 },
    Op::PutBack {
        chan: 3,
        reader: 5,
        body: Source::Last,
    },
    Op::Close { chan: 3 },
    Op::IsClosed { chan: 3 },
    Op::IsEmpty { chan: 3, reader: 5 },
    Op::IsFull { chan: 3 },
    Op::Dup { chan: 3 },
    Op::CloneReader { chan: 3, reader: 5 },
    Op::Flush { chan: 3, reader: 5 },
    Op::Length { chan: 3 },
];

/// Returns how many operations channels of a kind have.
fn count_of(kind: Kind) -> usize {
    let mut found = 0usize;
    for op in &EACH {
        if allowed(kind, op) {
            found = found.wrapping_add(1);
        }
    }
    found
}

/// Asserts a kind's name and its number of operations.
fn is_kind(rt: &impl Abort, kind: Kind, name: &str, count: usize) {
    assert_eq!(rt; kind.name(), name);
    is_count(rt, count_of(kind), count);
}

/// Returns how many operations name a reader.
fn count_of_readers() -> usize {
    let mut found = 0usize;
    for op in &EACH {
        if op.reader().is_some() {
            found = found.wrapping_add(1);
        }
    }
    found
}

/// Asserts that each operation names channel 3, and reader 5 if it names a reader.
fn name_both(rt: &impl Abort) {
    for op in &EACH {
        assert!(rt; op.chan() == 3);
        assert!(rt; op.reader().unwrap_or(5) == 5);
    }
}

#[test]
fn every_operation_on_every_kind(rt: HostRuntime) {
    is_kind(&rt, Kind::Queue, "TQueue", 8);
    is_kind(&rt, Kind::Bounded, "TBQueue", 10);
    is_kind(&rt, Kind::Cast, "TChan", 9);
    is_kind(&rt, Kind::MQueue, "TMQueue", 9);
    is_kind(&rt, Kind::BMQueue, "TBMQueue", 11);
    is_kind(&rt, Kind::MCast, "TMChan", 11);
    is_count(&rt, count_of_readers(), 8);
    name_both(&rt);
}

const ITEM: Item = Item {
    origin: Origin::Back(2),
    seat: 1,
    body: 9,
};

/// Returns the list of one item.
fn list_of(rt: &impl Abort, alloc: Global) -> List<Item> {
    let mut items = Vec::new(alloc);
    items.push(ITEM).expect(rt, "memory for an item");
    List::from_vec(items)
}

/// Copies a list, asserts that the copy equals the list, and returns the copy.
fn copy_of(rt: &impl Abort, list: &List<Item>) -> List<Item> {
    let copy = list.clone().expect(rt, "memory for a list");
    assert!(rt; copy == *list);
    copy
}

/// Asserts what was read last after a reply, given what was read last before.
fn leaves_last(rt: &impl Abort, reply: &Reply, before: Option<u64>, after: Option<u64>) {
    assert_eq!(rt; reply.last_read_after(before), after);
}

/// Asserts what was read last after each of three replies.
fn leave_last(rt: &impl Abort, list: List<Item>) {
    leaves_last(rt, &Reply::All(list), Some(4), Some(4));
    leaves_last(rt, &Reply::Got(ITEM), Some(4), Some(9));
    leaves_last(rt, &Reply::Count(8), None, None);
}

#[test]
fn a_list_is_its_items_and_only_a_read_changes_the_last(rt: HostRuntime) {
    let list = list_of(&rt, rt.alloc());
    are(&rt, list.as_slice(), &[ITEM]);
    let copy = copy_of(&rt, &list);
    leave_last(&rt, list);
    are(&rt, copy.into_vec().as_slice(), &[ITEM]);
    is_count(&rt, Stop::NoReader.code() as usize, 1);
    is_count(&rt, Stop::NoMemory.code() as usize, 5);
}
