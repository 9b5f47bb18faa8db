// The receipt of a transaction.
ghost use Rattle.std.specs.Prelude.{◌≡◌, []};

use crate::deed::Deed;
use std::alloc::Global;
use txc_base::{List, Reply, Tag};

/// The replies and the acts of a committed transaction.
#[derive(Debug, PartialEq, Eq, Drop)]
pub struct Receipt {
    /// The tag of its entries.
    pub tag: Tag,
    /// The replies of the operations that were not undone, in order.
    pub replies: List<Reply>,
    /// The acts, in order. In each channel their places rise.
    pub acts: List<Deed>,
}

impl Receipt {
    /// Creates a receipt without replies and acts, whose numbers are all 0. Pass it to `run_held_reusing` if there is
    /// no receipt to reuse.
    pub fn blank(alloc: Global) -> Receipt
        ensures tag { (result.tag.seat ≡ 0) × (result.tag.serial ≡ 0) × (result.tag.stamp ≡ 0) }
        ensures replies { result.replies ≡ [] }
        ensures acts { result.acts ≡ [] }
    {
        Receipt {
            tag: Tag {
                seat: 0,
                serial: 0,
                stamp: 0,
            },
            replies: List::from_vec(Vec::new(alloc)),
            acts: List::from_vec(Vec::new(alloc)),
        }
    }
}
