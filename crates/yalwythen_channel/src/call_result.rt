// The results of calls.
//
// The specs and `bindings/` have the numbers of this file too: a change of a number is a change of the C interface.
ghost use Rattle.std.specs.Prelude.{◌≡◌};

/// The result of a request, or a reply: a code, and a number whose meaning depends on the code.
#[repr(C)]
#[derive(Clone, Copy)]
pub struct CallResult {
    pub code: u64,
    pub value: u64,
}

// The codes of results.

/// Success; the value depends on the call.
pub(crate) const DONE: u64 = 0;
/// The transaction must be retried; the value is the cause: 0 if a bounded queue is full, 1 if there is nothing to
/// read, 2 if a step asks for a retry.
pub(crate) const RETRY: u64 = 1;
/// The transaction aborted; the value is the stop.
pub(crate) const STOPPED: u64 = 2;
/// The steps are not a transaction; the value is the fault.
pub(crate) const FAULTY: u64 = 3;
/// The request is rejected; the value is the reason: `NO_SUCH`, `NOT_NOW`, `UNPAIRED`, `NO_LOG`, or `BAD_DECL` plus a
/// fault.
pub(crate) const REJECTED: u64 = 4;
/// An allocation failed.
pub(crate) const NO_MEMORY: u64 = 5;

// The reasons of a rejection. Number 2 is not used: it meant that no request has the number, which is `NO_SUCH`. The
// other reasons keep their numbers, so that the C interface stays the same.

/// Rejected: there is no kind, operation, seat, channel, reader or request of this number.
pub(crate) const NO_SUCH: u64 = 0;
/// Rejected: a transaction is open, or none is, or it has no savepoint, or there would be too many channels or seats.
pub(crate) const NOT_NOW: u64 = 1;
/// Rejected: a branch or alternatives end without a beginning, or begin without an end.
pub(crate) const UNPAIRED: u64 = 3;
/// Rejected: the log of a broadcast channel cannot be recorded.
pub(crate) const NO_LOG: u64 = 4;
/// Rejected: a declaration has the fault with this number less 16.
pub(crate) const BAD_DECL: u64 = 16;

// The codes of replies; `DONE` is one too. Results have the same numbers: 5 is a flag here, and `NO_MEMORY` there.

/// An item; the value is its body.
pub(crate) const GOT: u64 = 1;
/// A bounded queue is full.
pub(crate) const FULL: u64 = 2;
/// There is nothing to read.
pub(crate) const EMPTY: u64 = 3;
/// The channel is closed.
pub(crate) const CLOSED: u64 = 4;
/// A flag; the value is 1 if it is true, and 0 if not.
pub(crate) const FLAG: u64 = 5;
/// A new reader; the value is its number.
pub(crate) const READER: u64 = 6;
/// A length; the value is the number of items.
pub(crate) const COUNT: u64 = 7;
/// All items; the value is how many there are.
pub(crate) const ALL: u64 = 8;
/// The number that is added to the code of a reply of an open transaction.
pub(crate) const REPLIED: u64 = 16;
/// The code if there is no such reply, or no such item.
pub(crate) const NO_REPLY: u64 = 64;

/// Returns a code with its value.
pub(crate) fn call_result(code: u64, value: u64) -> CallResult
    ensures code { result.code ≡ code }
    ensures value { result.value ≡ value }
{
    CallResult { code, value }
}
