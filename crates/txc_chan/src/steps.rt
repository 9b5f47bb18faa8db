// Parts of operations.
ghost use Rattle.std.specs.Prelude.{◌≡◌, ◌≤◌, ◌+◌, ◌++◌, ℕ, length, map};
ghost use Rattle.txc_base.specs.declared.act.Act.TheVariants.{Took};
ghost use Rattle.txc_base.specs.Log.{entries};
ghost use Rattle.txc_base.specs.Operation.{body_of};

use crate::log::Log;
use txc_base::{Act, Entry, Item, Origin, Source, Tag};

/// Returns the body of a new item: the given body, or that of the last item read, if any.
pub(crate) fn body_from(last: Option<u64>, body: Source) -> Option<u64>
    ensures { result ≡ body_of last body }
{
    match body {
        Source::Lit(body) => Some(body),
        Source::Last => last,
    }
}

/// Returns the item that a transaction with this tag makes of a body.
pub(crate) fn make_item(tag: Tag, origin: Origin, body: u64) -> Item
    ensures { result ≡ record { origin = origin; seat = tag.seat; body = body } }
{
    Item {
        origin,
        seat: tag.seat,
        body,
    }
}

/// Adds an entry for each item that reader 0 took. There must be room for them.
pub(crate) fn record_takes<K: Log>(log: &mut K, tag: Tag, items: &[Item])
    requires { (n : ℕ) → n ≤ length items.now → K.HasRoom log.old n }
    ensures entries { K.entries log.new ≡ K.entries log.old ++ entries tag (map (Took 0) items.now) }
    ensures undoable { K.undoable log.new ≡ K.undoable log.old + length items.now }
{
    for item in items {
        log.push_reserved(Entry {
            tag,
            act: Act::Took(0, *item),
        });
    }
}
