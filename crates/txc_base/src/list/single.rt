// Lists of one item.
ghost use Rattle.std.specs.Prelude.{◌≡◌, [], ◌∷◌, length, OnOk};

use super::List;
use std::alloc::AllocError;

impl<T: Drop> List<T> {
    /// Makes this a list of this item. Fails only if an allocation fails; the items are then lost. Allocates.
    pub fn make_single(&mut self, item: T) -> Result<(), AllocError>
        ensures { OnOk result (self.new ≡ item ∷ []) }
    {
        self.items.clear();
        self.items.reserve_exact(1)?;
        self.items.push_reserved(item);
        Ok(())
    }

    /// Replaces the item of a list of one. Does not allocate.
    #[inline(always)]
    pub fn set_single(&mut self, item: T)
        requires { length self.old ≡ 1 }
        ensures { self.new ≡ item ∷ [] }
    {
        self.items[0] = item;
    }
}
