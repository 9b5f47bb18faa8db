// The buffers of a receipt for one act.
ghost use Rattle.std.specs.Prelude.{◌≡◌, ◌<◌, [], ◌∷◌, vec_capacity, OnErr, IfOk};
ghost use Rattle.txc_chan.specs.Committed.{reply_to};

use crate::deed::Deed;
use crate::receipt::Receipt;
use std::alloc::{AllocError, Global};
use std::marker::Model;
use std::mem;
use txc_base::{Act, List, Reply, Tag};

/// The lists of a receipt, each with room for at least one item. So what is committed at once can be noted without an
/// allocation that fails. In a contract it is the replies and the acts.
#[derive(Drop)]
pub struct ReceiptBuffers {
    replies: Vec<Reply>,
    acts: Vec<Deed>,
}

impl Model for ReceiptBuffers {
    ghost use Rattle.std.specs.Prelude.{◌<◌, vec_capacity};
    ghost use Rattle.txc_txn.specs.ReceiptBuffers.{Lists};

    ghost Value = { Lists };

    ghost view = { λ room. record { replies = room.replies.items; acts = room.acts.items } };

    ghost invariant = { λ room. (0 < vec_capacity room.replies) × (0 < vec_capacity room.acts) };
}

/// Returns the reply of an operation that had this act and was committed at once.
pub(crate) fn reply_to(act: &Act) -> Reply
    ensures { result ≡ reply_to act.now }
{
    match act {
        Act::Took(_, item) => Reply::Got(*item),
        _ => Reply::Done,
    }
}

impl ReceiptBuffers {
    /// Takes the lists out of a receipt, and reserves the room if they have none. Fails only if an allocation fails;
    /// the receipt is then unchanged. Allocates.
    #[inline(always)]
    pub fn take(alloc: Global, receipt: &mut Receipt) -> Result<ReceiptBuffers, AllocError>
        ensures lists { IfOk result (λ room.
            (room.replies ≡ receipt.old.replies) × (room.acts ≡ receipt.old.acts)) }
        ensures tag { receipt.new.tag ≡ receipt.old.tag }
        ensures unchanged { OnErr result (receipt.new ≡ receipt.old) }
    {
        let none = List::from_vec(Vec::new(alloc));
        let mut replies = mem::replace(&mut receipt.replies, none).into_vec();
        let none = List::from_vec(Vec::new(alloc));
        let mut acts = mem::replace(&mut receipt.acts, none).into_vec();
        let has_room = (replies.capacity() > 0 || replies.reserve_exact(1).is_ok())
            && (acts.capacity() > 0 || acts.reserve_exact(1).is_ok());
        if has_room {
            return Ok(ReceiptBuffers { replies, acts });
        }
        receipt.replies = List::from_vec(replies);
        receipt.acts = List::from_vec(acts);
        Err(AllocError)
    }

    /// Puts the lists back into their receipt.
    #[inline(always)]
    pub fn restore(self, receipt: &mut Receipt)
        ensures { receipt.new ≡ record { tag = receipt.old.tag; replies = self.replies; acts = self.acts } }
    {
        let ReceiptBuffers { replies, acts } = self;
        receipt.replies = List::from_vec(replies);
        receipt.acts = List::from_vec(acts);
    }

    /// Makes the receipt, in these buffers, of a transaction that committed with this tag and had only this act.
    #[inline(always)]
    pub fn fill(self, receipt: &mut Receipt, tag: Tag, deed: Deed)
        ensures { receipt.new ≡ record { tag = tag; replies = reply_to deed.act ∷ []; acts = deed ∷ [] } }
    {
        let ReceiptBuffers {
            mut replies,
            mut acts,
        } = self;
        replies.clear();
        replies.push_reserved(reply_to(&deed.act));
        acts.clear();
        acts.push_reserved(deed);
        receipt.tag = tag;
        receipt.replies = List::from_vec(replies);
        receipt.acts = List::from_vec(acts);
    }
}
