// The receipt of a transaction of one act.
ghost use Rattle.std.specs.Prelude.{◌≡◌, OnOk};
ghost use Rattle.txc_txn.specs.OneOperation.{IsSingle, single_of};

use crate::deed::Deed;
use crate::receipt::Receipt;
use crate::receipt_buffers::reply_to;
use crate::receipt_pair::NO_DEED;
use std::alloc::AllocError;
use txc_base::{Reply, Tag};

impl Receipt {
    /// Gives the receipt one reply and one act, which `set_single` replaces. So a transaction of one act that commits
    /// at once can be noted without an allocation. Fails only if an allocation fails. The receipt keeps its tag; the
    /// reply and the act are arbitrary. Allocates.
    #[inline(always)]
    pub fn make_single(&mut self) -> Result<(), AllocError>
        ensures single { OnOk result (IsSingle self.new) }
        ensures tag { self.new.tag ≡ self.old.tag }
    {
        if self.replies.len() == 1 && self.acts.len() == 1 {
            return Ok(());
        }
        self.make_new_single()
    }

    /// Gives one reply and one act to a receipt that has another number of them, as `make_single` does.
    #[cold]
    #[inline(never)]
    fn make_new_single(&mut self) -> Result<(), AllocError>
        ensures single { OnOk result (IsSingle self.new) }
        ensures tag { self.new.tag ≡ self.old.tag }
    {
        self.replies.make_single(Reply::Done)?;
        self.acts.make_single(NO_DEED)
    }

    /// Makes this the receipt of a transaction that committed with this tag and had only this act. It must have one
    /// reply and one act.
    #[inline(always)]
    pub fn set_single(&mut self, tag: Tag, deed: Deed)
        requires { IsSingle self.old }
        ensures { self.new ≡ single_of tag deed }
    {
        self.tag = tag;
        self.replies.set_single(reply_to(&deed.act));
        self.acts.set_single(deed);
    }
}
