// The tag that a transaction commits with.
ghost use Rattle.std.specs.Prelude.{◌≡◌, ◌||◌, ◌+◌, true, false, IfNone, IfSome};
ghost use Rattle.txc_txn.specs.Transaction.{is_worn};

use txc_base::{GREATEST_NUMBER, Tag};

/// Returns the tag that a transaction commits with, if its seat has this tag and `most` is the greatest of the seat's
/// stamp and the stamps of its channels. Returns `None` if the serial or `most` can count no further.
pub fn tag_after(tag: Tag, most: u64) -> Option<Tag>
    ensures some { IfSome result (λ kept. ((is_worn tag.serial || is_worn most) ≡ false)
        × (kept ≡ record { seat = tag.seat; serial = tag.serial; stamp = most + 1 })) }
    ensures none { IfNone result ((is_worn tag.serial || is_worn most) ≡ true) }
{
    if tag.serial == GREATEST_NUMBER || most == GREATEST_NUMBER {
        return None;
    }
    Some(Tag {
        seat: tag.seat,
        serial: tag.serial,
        stamp: most + 1,
    })
}
