// The acts on a channel, a record for each.
ghost use Rattle.std.specs.Prelude.{◌≡◌, ◌+◌, Some, None, drop, take, min, length, slice_get};
ghost use Rattle.yalwythen_channel.specs.Accounts.{account_records, bare_record, entry_record, item_record, left_in};
ghost use Rattle.yalwythen_channel.specs.Accounts.{left_record};

use txc_base::{Act, Entry, Item, Origin, Tag};
use txc_chan::Account;

/// A record of a channel's account: an entry of its log, or an item that is left in the channel. An entry has the
/// stamp, the serial and the seat of its transaction, and the number of its act. If it has an item, `origin` and
/// `number` say how the item came into the channel, `maker` is the seat that made it, and `body` is its value. An item
/// that is left has these four fields, and the act 6. In C it is `yalwythen_record`.
#[repr(C)]
#[derive(Clone, Copy)]
pub struct Record {
    pub stamp: u64,
    pub serial: u64,
    pub number: u64,
    pub body: u64,
    pub act: u16,
    pub origin: u16,
    pub seat: u16,
    pub maker: u16,
}

// The codes of acts and of origins are part of the C interface: the definitions and `bindings/` have them too. Only a
// queue can have a recorded log: `BEGUN` and `CLONED` never occur, and `bindings/` doesn't have them.

const WROTE: u16 = 0;

const TOOK: u16 = 1;

const PUT_BACK: u16 = 2;

const CLOSED: u16 = 3;

const BEGUN: u16 = 4;

const CLONED: u16 = 5;

const LEFT: u16 = 6;

/// The `origin` of a record whose item was written.
const WRITTEN: u16 = 0;

/// The `origin` of a record whose item was put back.
const BACK: u16 = 1;

/// The `origin` of a record without an item.
const NO_ITEM: u16 = 2;

/// Returns the record of an act on an item.
fn of_item(act: u16, tag: Tag, item: Item) -> Record
    ensures { result ≡ item_record act tag item }
{
    let (origin, number) = match item.origin {
        Origin::Written(number) => (WRITTEN, number),
        Origin::Back(number) => (BACK, number),
    };
    Record {
        stamp: tag.stamp,
        serial: tag.serial,
        number,
        body: item.body,
        act,
        origin,
        seat: tag.seat,
        maker: item.seat,
    }
}

/// Returns the record of an act on no item.
fn of_none(act: u16, tag: Tag, number: u64) -> Record
    ensures { result ≡ bare_record act tag number }
{
    Record {
        stamp: tag.stamp,
        serial: tag.serial,
        number,
        body: 0,
        act,
        origin: NO_ITEM,
        seat: tag.seat,
        maker: 0,
    }
}

/// Returns the record of an entry.
fn of_entry(entry: &Entry) -> Record
    ensures { result ≡ entry_record entry.now }
{
    let tag = entry.tag;
    match entry.act {
        Act::Wrote(item) => of_item(WROTE, tag, item),
        Act::Took(_, item) => of_item(TOOK, tag, item),
        Act::PutBack(_, item) => of_item(PUT_BACK, tag, item),
        Act::Closed => of_none(CLOSED, tag, 0),
        Act::Begun(reader) => of_none(BEGUN, tag, u64::from(reader)),
        Act::Cloned(_, reader) => of_none(CLONED, tag, u64::from(reader)),
    }
}

/// Returns the record of an item that is left.
fn of_left(item: &Item) -> Record
    ensures { result ≡ left_record item.now }
{
    let nobody = Tag {
        stamp: 0,
        serial: 0,
        seat: 0,
    };
    of_item(LEFT, nobody, *item)
}

/// Returns what is left to the first reader, the only one that a queue has.
fn left(account: &Account) -> &[Item]
    ensures { result.now ≡ left_in account.now }
{
    match account.remaining.as_slice().first() {
        Some(items) => items.as_slice(),
        None => &[],
    }
}

/// Returns the number of records of an account.
pub(crate) fn count(account: &Account) -> u64
    ensures { result ≡ length (account_records account.now) }
{
    (account.log.as_slice().len() + left(account).len()) as u64
}

/// Returns the record at this place of an account, if there is one.
fn record_at(account: &Account, place: usize) -> Option<Record>
    ensures { result ≡ slice_get (account_records account.now) place }
{
    let log = account.log.as_slice();
    if place < log.len() {
        return Some(of_entry(&log[place]));
    }
    match left(account).get(place - log.len()) {
        Some(item) => Some(of_left(item)),
        None => None,
    }
}

/// Writes the records of an account from this place on to the front of an array, as many as fit.
pub(crate) fn copy_records(account: &Account, from: u64, out: &mut [Record])
    ensures { let rest = drop from (account_records account.now) in let count = min (length rest) (length out.old) in
        take count out.new ≡ take count rest }
{
    let from = from as usize;
    let total = count(account) as usize;
    let count = total.saturating_sub(from).min(out.len());
    for place in 0..count {
        let Some(found) = record_at(account, from + place) else {
            unreachable!()
        };
        out[place] = found;
    }
}
