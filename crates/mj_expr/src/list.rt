// Short lists.

ghost use Rattle.std.specs.Prelude.{◌≡◌, ◌∷◌, ◌++◌, [], OnOk};

use std::alloc::AllocError;

/// Puts one more item at the end of a list. Most lists of a routine have one item or two, so the first gets room for itself
/// alone, and a list that is full gets twice its room.
pub fn added<T: Drop>(list: &mut Vec<T>, item: T) -> Result<(), AllocError>
    ensures { OnOk result (list.new.items ≡ list.old.items ++ item ∷ []) }
{
    if list.len() == list.capacity() {
        list.reserve_exact(list.len().max(1))?;
    }
    list.push(item)?;
    Ok(())
}
