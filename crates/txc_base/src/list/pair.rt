// Lists of two items.
ghost use Rattle.std.specs.Prelude.{◌≡◌, [], ◌∷◌, length, OnOk};

use super::List;
use std::alloc::AllocError;

impl<T: Drop> List<T> {
    /// Makes this a list of these two items. Fails only if an allocation fails; the items are then lost. Allocates.
    pub fn make_pair(&mut self, one: T, other: T) -> Result<(), AllocError>
        ensures { OnOk result (self.new ≡ one ∷ other ∷ []) }
    {
        self.items.clear();
        self.items.reserve_exact(2)?;
        self.items.push_reserved(one);
        self.items.push_reserved(other);
        Ok(())
    }

    /// Replaces the items of a list of two. Does not allocate.
    #[inline(always)]
    pub fn set_pair(&mut self, one: T, other: T)
        requires { length self.old ≡ 2 }
        ensures { self.new ≡ one ∷ other ∷ [] }
    {
        self.items[0] = one;
        self.items[1] = other;
    }
}
