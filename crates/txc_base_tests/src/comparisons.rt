// The comparisons of all tests.
ghost use Rattle.std.specs.Prelude.{◌≡◌};

use std::process::Abort;
use txc_base::Item;

/// Asserts that these items are the items of the list.
pub(crate) fn are(rt: &impl Abort, items: &[Item], list: &[Item]) {
    assert_eq!(rt; items, list);
}

/// Asserts that a count, or another number, is the wanted one.
pub(crate) fn is_count(rt: &impl Abort, count: usize, wanted: usize)
    ensures { count ≡ wanted }
{
    assert_eq!(rt; count, wanted);
}
