//! The steps of a transaction. A step that waits makes its transaction wait. No function of this module allocates or
//! blocks.
ghost use Rattle.std.specs.Prelude.{◌≡◌};

pub use txc_base::{Cause, List, Op, Reply, Source, Stop};
pub use txc_txn_check::{Checked, Step, TxnFault};

/// Makes a step that runs the first of these branches that can proceed without waiting:
/// `or![in alloc; [read(0)], [read(1)]]`. If allocation fails, the enclosing function returns the error.
#[macro_export]
macro_rules! or {
    (in $alloc:expr; $([$($step:expr),+ $(,)?]),+ $(,)?) => {
        $crate::steps::either(vec![in $alloc; $($crate::steps::branch(vec![in $alloc; $($step),+]?)),+]?)
    };
}

/// Makes a branch of these steps.
pub fn branch(steps: Vec<Step>) -> List<Step>
    ensures { result ≡ steps.items }
{
    List::from_vec(steps)
}

/// A step that runs the first of these branches that can proceed without waiting. If every branch would wait, it waits.
pub fn either(branches: Vec<List<Step>>) -> Step
    ensures { result ≡ Step.Or branches.items }
{
    Step::Or(List::from_vec(branches))
}

/// A step that abandons its branch, so that the next branch is tried. Outside of all branches, it waits.
pub fn retry() -> Step
    ensures { result ≡ Step.Retry }
{
    Step::Retry
}

/// A step that writes an item. It waits while the channel is at its bound. If the channel is closed, it replies
/// `Reply::Closed` and has no effect.
pub fn write(chan: u16, body: u64) -> Step
    ensures { result ≡ Step.Do (Op.Write chan (Source.Lit body)) }
{
    Step::Do(Op::Write {
        chan,
        body: Source::Lit(body),
    })
}

/// A step that writes the body that its transaction read or peeked last. It waits and replies like `write`. If nothing
/// was read or peeked, the transaction aborts.
pub fn write_last(chan: u16) -> Step
    ensures { result ≡ Step.Do (Op.Write chan Source.Last) }
{
    Step::Do(Op::Write {
        chan,
        body: Source::Last,
    })
}

/// A step that writes an item, or replies `Reply::Full` if the channel is at its bound. If the channel is closed, it
/// replies `Reply::Closed`. `TBMQueue` only.
pub fn try_write(chan: u16, body: u64) -> Step
    ensures { result ≡ Step.Do (Op.TryWrite chan (Source.Lit body)) }
{
    Step::Do(Op::TryWrite {
        chan,
        body: Source::Lit(body),
    })
}

/// A step that puts an item in front of those that reader 0 has to read. It waits while a `TBQueue` is at its bound. If
/// the channel is closed, it replies `Reply::Closed` and has no effect.
pub fn put_back(chan: u16, body: u64) -> Step
    ensures { result ≡ Step.Do (Op.PutBack chan 0 (Source.Lit body)) }
{
    Step::Do(Op::PutBack {
        chan,
        reader: 0,
        body: Source::Lit(body),
    })
}

/// A step that takes the next item of reader 0. If there is none, it replies `Reply::Closed` if the channel is closed,
/// and waits otherwise.
pub fn read(chan: u16) -> Step
    ensures { result ≡ Step.Do (Op.Read chan 0) }
{
    Step::Do(Op::Read { chan, reader: 0 })
}

/// A step that takes the next item of this reader of a channel. If there is none, it replies `Reply::Closed` if the
/// channel is closed, and waits otherwise.
pub fn read_by(chan: u16, reader: u16) -> Step
    ensures { result ≡ Step.Do (Op.Read chan reader) }
{
    Step::Do(Op::Read { chan, reader })
}

/// A step that takes the next item of reader 0. If there is none, it replies `Reply::Closed` if the channel is closed,
/// and `Reply::Empty` otherwise.
pub fn try_read(chan: u16) -> Step
    ensures { result ≡ Step.Do (Op.TryRead chan 0) }
{
    Step::Do(Op::TryRead { chan, reader: 0 })
}

/// A step that replies with the next item of reader 0, and leaves it in the channel. If there is none, it replies
/// `Reply::Closed` if the channel is closed, and waits otherwise.
pub fn peek(chan: u16) -> Step
    ensures { result ≡ Step.Do (Op.Peek chan 0) }
{
    Step::Do(Op::Peek { chan, reader: 0 })
}

/// A step that replies with the next item of reader 0, and leaves it in the channel. If there is none, it replies
/// `Reply::Closed` if the channel is closed, and `Reply::Empty` otherwise.
pub fn try_peek(chan: u16) -> Step
    ensures { result ≡ Step.Do (Op.TryPeek chan 0) }
{
    Step::Do(Op::TryPeek { chan, reader: 0 })
}

/// A step that replies `Reply::Flag(true)` if reader 0 has nothing to read.
pub fn is_empty(chan: u16) -> Step
    ensures { result ≡ Step.Do (Op.IsEmpty chan 0) }
{
    Step::Do(Op::IsEmpty { chan, reader: 0 })
}

/// A step that takes all items at once. `TQueue` and `TBQueue` only.
pub fn flush(chan: u16) -> Step
    ensures { result ≡ Step.Do (Op.Flush chan 0) }
{
    Step::Do(Op::Flush { chan, reader: 0 })
}

/// A step that closes the channel. The items in it can still be read.
pub fn close(chan: u16) -> Step
    ensures { result ≡ Step.Do (Op.Close chan) }
{
    Step::Do(Op::Close { chan })
}

/// A step that replies `Reply::Flag(true)` if the channel is closed.
pub fn is_closed(chan: u16) -> Step
    ensures { result ≡ Step.Do (Op.IsClosed chan) }
{
    Step::Do(Op::IsClosed { chan })
}

/// A step that replies `Reply::Flag(true)` if the channel holds its bound or more.
pub fn is_full(chan: u16) -> Step
    ensures { result ≡ Step.Do (Op.IsFull chan) }
{
    Step::Do(Op::IsFull { chan })
}

/// A step that replies with the number of items in the queue. `TBQueue` only.
pub fn length(chan: u16) -> Step
    ensures { result ≡ Step.Do (Op.Length chan) }
{
    Step::Do(Op::Length { chan })
}

/// A step that makes a reader, which gets the items that are written from then on.
pub fn dup(chan: u16) -> Step
    ensures { result ≡ Step.Do (Op.Dup chan) }
{
    Step::Do(Op::Dup { chan })
}

/// A step that makes a reader, which gets all items that this reader would get.
pub fn clone_reader(chan: u16, reader: u16) -> Step
    ensures { result ≡ Step.Do (Op.CloneReader chan reader) }
{
    Step::Do(Op::CloneReader { chan, reader })
}
