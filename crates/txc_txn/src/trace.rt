// The state of a run besides its channels.
ghost use Rattle.std.specs.Prelude.{◌≡◌, ◌≤◌, ◌+◌, None, [], ◌∷◌, ◌++◌, IfOk, OnOk, OnErr, take, drop, length};
ghost use Rattle.txc_base.specs.Reply.{last_read_after};
ghost use Rattle.txc_txn.specs.Run.{deeds_of};

use crate::deed::Deed;
use crate::hold::Hold;
use crate::receipt::Receipt;
use std::alloc::AllocError;
use txc_base::{Cause, List, Reply, Tag};
use txc_txn_check::MAX_OPERATIONS;

/// The body that a run read or peeked last, and its replies and acts so far.
#[derive(Drop)]
pub struct Trace {
    pub last: Option<u64>,
    pub replies: Vec<Reply>,
    pub deeds: Vec<Deed>,
    // The capacity that each list gets with its first element.
    room: usize,
}

impl Trace {
    /// Creates the trace of a run that has done nothing yet, in the memory of the receipt `recycled`. A list without
    /// memory allocates with its first element, and then has room for one element per step, at most for
    /// `MAX_OPERATIONS`.
    pub fn reusing(recycled: Receipt, steps: usize) -> Trace
        ensures last { result.last ≡ None }
        ensures replies { result.replies.items ≡ [] }
        ensures deeds { result.deeds.items ≡ [] }
    {
        let mut replies = recycled.replies.into_vec();
        let mut deeds = recycled.acts.into_vec();
        replies.clear();
        deeds.clear();
        Trace {
            last: None,
            replies,
            deeds,
            room: steps.min(MAX_OPERATIONS),
        }
    }

    /// Returns the receipt of a run of this trace that committed with this tag.
    pub fn receipt(self, tag: Tag) -> Receipt
        ensures tag { result.tag ≡ tag }
        ensures replies { result.replies ≡ self.replies.items }
        ensures acts { result.acts ≡ self.deeds.items }
    {
        Receipt {
            tag,
            replies: List::from_vec(self.replies),
            acts: List::from_vec(self.deeds),
        }
    }
}

/// Whether a part of a run was done.
#[derive(Clone, Copy)]
pub enum StepOutcome {
    /// It was done.
    Done,
    /// It must be retried.
    Retry(Cause),
}

/// Adds an item to a list. A list without memory first gets room for `room` items. Returns `AllocError` if allocation
/// fails; the items are then unchanged.
fn push_with_room<T: Drop>(list: &mut Vec<T>, room: usize, item: T) -> Result<(), AllocError>
    ensures ok { OnOk result (list.new.items ≡ list.old.items ++ item ∷ []) }
    ensures err { OnErr result (list.new.items ≡ list.old.items) }
{
    if list.capacity() == 0 {
        list.reserve_exact(room)?;
    }
    list.push(item)?;
    Ok(())
}

/// Adds the entries of a channel, from this place on, to a trace's acts. All these entries must be ones that can be
/// undone. Returns `AllocError` if allocation fails; some acts may then have been added.
pub fn add_deeds<H: Hold>(
    hold: &mut H,
    chan: u16,
    place: usize,
    trace: &mut Trace,
) -> Result<(), AllocError>
    requires held { H.IsHeld hold.old chan }
    requires pending { length (H.chans hold.old chan).log ≤ place + (H.chans hold.old chan).pending }
    ensures ok { IfOk result (λ _. trace.new.deeds.items
        ≡ trace.old.deeds.items ++ deeds_of chan place (drop place (H.chans hold.old chan).log)) }
    ensures keeps { take (length trace.old.deeds.items) trace.new.deeds.items ≡ trace.old.deeds.items }
    ensures replies { trace.new.replies ≡ trace.old.replies }
    ensures last { trace.new.last ≡ trace.old.last }
    ensures same { hold.new ≡ hold.old }
{
    for at in place..hold.log_len(chan) {
        let Some(entry) = hold.entry(chan, at) else {
            unreachable!()
        };
        let deed = Deed {
            chan,
            place: at,
            act: entry.act,
        };
        push_with_room(&mut trace.deeds, trace.room, deed)?;
    }
    Ok(())
}

/// Adds a reply to a trace. If the reply has a body, it is now the last one read. Returns `AllocError` if allocation
/// fails.
pub fn add_reply(trace: &mut Trace, reply: Reply) -> Result<(), AllocError>
    ensures ok { OnOk result (trace.new.replies.items ≡ trace.old.replies.items ++ reply ∷ []) }
    ensures keeps { take (length trace.old.replies.items) trace.new.replies.items ≡ trace.old.replies.items }
    ensures deeds { trace.new.deeds ≡ trace.old.deeds }
    ensures last { trace.new.last ≡ last_read_after reply trace.old.last }
{
    trace.last = reply.last_read_after(trace.last);
    push_with_room(&mut trace.replies, trace.room, reply)
}
