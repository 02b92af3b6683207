//! Values from bytes, and values that are read again from their own bytes.

ghost use Rattle.std.specs.Prelude.{◌≡◌, IfNone, IfOk, IfSome};
ghost use Rattle.message_codec.specs.Messages.{IsAgain};
ghost use Rattle.quel_network.specs.Spelling.{spelled_by};
ghost use Rattle.quel_tree.specs.Message.{most_tree_levels};

use memory::{List, OutOfMemory};
use quel_tree::{Tree, TreeFault, tree_bytes, tree_of};
use std::alloc::Global;

/// The value that the bytes spell, all of them; none where they spell none.
pub(crate) fn value_of<T: Tree>(
    alloc: Global,
    bytes: &[u8],
) -> Result<Option<T::Value>, OutOfMemory>
    ensures { IfOk result (λ found. found ≡ spelled_by (T.codec most_tree_levels) bytes.now) }
{
    match tree_of::<T>(alloc, bytes) {
        Ok(value) => Ok(Some(value)),
        Err(TreeFault::NotATree { .. }) => Ok(None),
        Err(TreeFault::OutOfMemory) => Err(OutOfMemory),
    }
}

/// The value as it is read again from its own bytes, and these bytes; none where they are read as no
/// value, which is never so of one that has a spelling. So what is sent has one, whatever was to be sent.
pub fn again<T: Tree>(
    alloc: Global,
    value: &T::Value,
) -> Result<Option<(T::Value, List<u8>)>, OutOfMemory>
    ensures some { IfOk result (λ found. IfSome found (λ pair. IsAgain (T.codec most_tree_levels) value.now pair.0 pair.1)) }
    ensures none { IfOk result (λ found. IfNone found ((T.codec most_tree_levels).Fits value.now → ⊥)) }
{
    let bytes = tree_bytes::<T>(alloc, value)?;
    match tree_of::<T>(alloc, &bytes) {
        Ok(sent) => Ok(Some((sent, List::of(bytes)))),
        Err(TreeFault::NotATree { .. }) => Ok(None),
        Err(TreeFault::OutOfMemory) => Err(OutOfMemory),
    }
}
