// Declarations, operations and replies by their numbers.
ghost use Rattle.std.specs.Prelude.{◌≡◌, ◌≤◌, ◌↔◌, IsTrue, slice_get};
ghost use Rattle.yalwythen_domain.specs.Ending.{cause_code};
ghost use Rattle.yalwythen_domain.specs.RawSteps.{decls_with, response_of, steps_with};

use crate::call_result::{
    ALL, CLOSED, COUNT, CallResult, DONE, EMPTY, FLAG, FULL, GOT, READER, call_result,
};
use txc_base::{Cause, Kind, MAX_BOUND, Op, Reply, Source};
use txc_chan::Decl;
use txc_txn_check::Step;

/// Returns whether a bounded queue may have this bound, which is at most 65,535.
pub fn is_bound(bound: u64) -> bool
    ensures { IsTrue result ↔ bound ≤ 65535 }
{
    bound <= MAX_BOUND
}

/// Returns the declaration of a channel of the kind with this number, or `None` if there is no such kind. `size` is the
/// bound of a bounded kind, and the number of readers of a broadcast kind.
pub(crate) fn decl_numbered(number: u64, size: u64) -> Option<Decl>
    ensures { result ≡ slice_get (decls_with size) number }
{
    let (kind, bound, readers) = match number {
        0 => (Kind::Queue, 0, 1),
        1 => (Kind::Bounded, size, 1),
        2 => (Kind::MQueue, 0, 1),
        3 => (Kind::BMQueue, size, 1),
        4 => (Kind::Cast, 0, size),
        5 => (Kind::MCast, 0, size),
        _ => return None,
    };
    Some(Decl {
        kind,
        bound,
        readers,
    })
}

/// Returns the step with this number, on a channel, by a reader and with a body, or `None` if there is no such step.
pub(crate) fn step_numbered(number: u32, chan: u16, reader: u16, body: u64) -> Option<Step>
    ensures { result ≡ slice_get (steps_with chan reader body) number }
{
    let lit = Source::Lit(body);
    let last = Source::Last;
    let op = match number {
        0 => Op::Write { chan, body: lit },
        1 => Op::TryWrite { chan, body: lit },
        2 => Op::Read { chan, reader },
        3 => Op::TryRead { chan, reader },
        4 => Op::Peek { chan, reader },
        5 => Op::TryPeek { chan, reader },
        6 => Op::PutBack {
            chan,
            reader,
            body: lit,
        },
        7 => Op::Close { chan },
        8 => Op::IsClosed { chan },
        9 => Op::IsEmpty { chan, reader },
        10 => Op::IsFull { chan },
        11 => Op::Length { chan },
        12 => Op::Write { chan, body: last },
        13 => Op::TryWrite { chan, body: last },
        14 => Op::PutBack {
            chan,
            reader,
            body: last,
        },
        15 => return Some(Step::Retry),
        16 => Op::Flush { chan, reader },
        17 => Op::Dup { chan },
        18 => Op::CloneReader { chan, reader },
        _ => return None,
    };
    Some(Step::Do(op))
}

/// Returns the number of a cause.
pub(crate) fn cause_number(cause: Cause) -> u64
    ensures { result ≡ cause_code cause }
{
    match cause {
        Cause::Full => 0,
        Cause::Empty => 1,
        Cause::Asked => 2,
    }
}

/// Returns the code of a reply, and its body, flag, number or number of items. The codes are 0 to 8.
pub(crate) fn tell(reply: &Reply) -> CallResult
    ensures response { result ≡ response_of reply.now }
    ensures there { result.code ≤ 8 }
{
    match reply {
        Reply::Done => call_result(DONE, 0),
        Reply::Got(item) => call_result(GOT, item.body),
        Reply::Full => call_result(FULL, 0),
        Reply::Empty => call_result(EMPTY, 0),
        Reply::Closed => call_result(CLOSED, 0),
        Reply::Flag(flag) => call_result(FLAG, u64::from(*flag)),
        Reply::Reader(reader) => call_result(READER, u64::from(*reader)),
        Reply::Count(count) => call_result(COUNT, *count),
        Reply::All(items) => call_result(ALL, items.len() as u64),
    }
}
