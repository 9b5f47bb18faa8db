// How a channel is declared.
ghost use Rattle.std.specs.Prelude.{◌≡◌, IfOk};
ghost use Rattle.txc_chan.specs.Decls.{kinds_in};
ghost use Rattle.txc_chan.specs.Limits.{declared_fault};

use crate::fault::ChanFault;
use std::alloc::{AllocError, Global};
use txc_base::{Kind, MAX_BOUND, MAX_READERS};

/// The declaration of a channel. The bound is used only for the two bounded kinds, and the number of readers only for
/// the two broadcast kinds. Other kinds have the bound 0 and 1 reader.
#[derive(Debug, Clone, Copy, PartialEq, Eq)]
pub struct Decl {
    /// Its kind.
    pub kind: Kind,
    /// The most items that the channel can hold after a write: 0 to 65,535.
    pub bound: u64,
    /// The number of readers that the channel opens with: 0 to 64.
    pub readers: u64,
}

impl Decl {
    /// Returns why no channel can be made of it: `BoundTooLarge`, which is checked first, or `TooManyReaders`. Returns
    /// `None` if a channel can be made.
    pub fn fault(&self) -> Option<ChanFault>
        ensures { result ≡ declared_fault self.now.kind self.now.bound self.now.readers }
    {
        if self.kind.is_bounded() && self.bound > MAX_BOUND {
            return Some(ChanFault::BoundTooLarge);
        }
        if self.kind.is_broadcast() && self.readers > MAX_READERS {
            return Some(ChanFault::TooManyReaders);
        }
        None
    }
}

/// Returns the kinds of these channels, in order. Returns `AllocError` if allocation fails. The kinds are pushed, not
/// collected: if allocation fails, `collect` uses a smaller capacity and reports no error.
pub fn kinds_of(alloc: Global, decls: &[Decl]) -> Result<Vec<Kind>, AllocError>
    ensures { IfOk result (λ kinds. kinds.items ≡ kinds_in decls.now) }
{
    let mut kinds = Vec::with_capacity(alloc, decls.len())?;
    for decl in decls {
        kinds.push(decl.kind)?;
    }
    Ok(kinds)
}
