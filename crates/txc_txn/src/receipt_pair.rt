// The receipt of a transaction of two acts.
ghost use Rattle.std.specs.Prelude.{◌≡◌, OnOk};
ghost use Rattle.txc_txn.specs.TwoOperations.{IsPair, pair_of};

use crate::deed::Deed;
use crate::receipt::Receipt;
use crate::receipt_buffers::reply_to;
use std::alloc::AllocError;
use txc_base::{Act, Reply, Tag};

/// An act that `set_single` or `set_pair` replaces.
pub(crate) const NO_DEED: Deed = Deed {
    chan: 0,
    place: 0,
    act: Act::Closed,
};

impl Receipt {
    /// Gives the receipt two replies and two acts, which `set_pair` replaces. So a transaction of two acts that commits
    /// at once can be noted without an allocation. Fails only if an allocation fails. The receipt keeps its tag; the
    /// replies and the acts are arbitrary. Allocates.
    #[inline(always)]
    pub fn make_pair(&mut self) -> Result<(), AllocError>
        ensures pair { OnOk result (IsPair self.new) }
        ensures tag { self.new.tag ≡ self.old.tag }
    {
        if self.replies.len() == 2 && self.acts.len() == 2 {
            return Ok(());
        }
        self.make_new_pair()
    }

    /// Makes a pair of a receipt that is none, as `make_pair` does.
    #[cold]
    #[inline(never)]
    fn make_new_pair(&mut self) -> Result<(), AllocError>
        ensures pair { OnOk result (IsPair self.new) }
        ensures tag { self.new.tag ≡ self.old.tag }
    {
        self.replies.make_pair(Reply::Done, Reply::Done)?;
        self.acts.make_pair(NO_DEED, NO_DEED)
    }

    /// Makes this the receipt of a transaction that committed with this tag and had only these two acts. It must have
    /// two replies and two acts.
    #[inline(always)]
    pub fn set_pair(&mut self, tag: Tag, one: Deed, other: Deed)
        requires { IsPair self.old }
        ensures { self.new ≡ pair_of tag one other }
    {
        self.tag = tag;
        self.replies
            .set_pair(reply_to(&one.act), reply_to(&other.act));
        self.acts.set_pair(one, other);
    }
}
