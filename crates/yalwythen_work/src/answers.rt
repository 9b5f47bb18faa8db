// Functions that read a transaction's replies.
ghost use Rattle.std.specs.Prelude.{◌≡◌};
ghost use Rattle.yalwythen_work.specs.Committed.{found_closed, last_item};

use txc_base::{Item, Reply};

/// Returns the item that was read or peeked last, if any.
pub(crate) fn last_item(replies: &[Reply]) -> Option<Item>
    ensures { result ≡ last_item replies.now }
{
    let mut found = None;
    for reply in replies {
        if let Reply::Got(item) = reply {
            found = Some(*item);
        }
    }
    found
}

/// Returns whether the first reply is `Closed`. Returns `false` if there are no replies.
pub(crate) fn found_closed(replies: &[Reply]) -> bool
    ensures { result ≡ found_closed replies.now }
{
    match replies.first() {
        Some(reply) => matches!(reply, Reply::Closed),
        None => false,
    }
}
