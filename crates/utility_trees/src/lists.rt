//! Values put into lists: nobody who calls these drops a value where memory is refused.

ghost use Rattle.std.specs.Prelude.{◌≡◌, ◌++◌, OnOk};
ghost use Rattle.std.specs.Option.{option_to_list};

use calculus::OutOfMemory;
use memory::push;

/// Puts an item behind the others, where it is there.
pub(crate) fn push_if<T: Drop>(items: &mut Vec<T>, item: Option<T>) -> Result<(), OutOfMemory>
    ensures { OnOk result (items.new.items ≡ items.old.items ++ option_to_list item) }
{
    match item {
        Some(item) => push(items, item),
        None => Ok(()),
    }
}
