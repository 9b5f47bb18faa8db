// Ways to append to a broadcast list.
ghost use Rattle.std.specs.Prelude.{◌≡◌, None, OnOk, OnErr};
ghost use Rattle.txc_cast.specs.Broadcast.{Appends};
ghost use Rattle.txc_cast.specs.Fault.{refused};
ghost use Rattle.txc_cast.specs.Reader.{IsWritten};

use crate::cast::Cast;
use crate::fault::CastFault;
use std::sync::Wait;
use txc_base::Item;

/// A way to append to a broadcast list. Each handle that can wait is one, and a call that takes it can block when it
/// writes to a broadcast list. Code that must not block, such as the functions that C calls, uses `NonBlocking`.
pub trait Append {
    /// Writes an item at the end of every reader's list. The item's origin must be `Written`. Returns `NoMemory` if
    /// allocation fails, or if this way appends nothing. Can block if `self` is a handle that can wait.
    fn append_to(&self, cast: &mut Cast, item: Item) -> Result<(), CastFault>
        requires { IsWritten item }
        ensures refused { refused result ≡ None }
        ensures ok { OnOk result (Appends cast.old item cast.new) }
        ensures err { OnErr result (cast.new ≡ cast.old) };
}

impl<R: Wait> Append for R {
    fn append_to(&self, cast: &mut Cast, item: Item) -> Result<(), CastFault> {
        cast.append(self, item)
    }
}

/// A way for code that must not block: it appends nothing, and returns `NoMemory` for each item. It never blocks and
/// does not allocate.
#[derive(Clone, Copy)]
pub struct NonBlocking;

impl Append for NonBlocking {
    fn append_to(&self, _cast: &mut Cast, _item: Item) -> Result<(), CastFault> {
        Err(CastFault::NoMemory)
    }
}
