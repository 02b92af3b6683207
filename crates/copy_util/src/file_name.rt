//! The file that a constant names.

ghost use Rattle.std.specs.Prelude.{◌≡◌, IfOk};
ghost use Rattle.quel_meaning.specs.Copying.{file_of_constant};

use calculus::{OutOfMemory, next_unescaped};
use std::alloc::Global;

/// The name of the file that a text constant names: its bytes with escapes removed, and with the
/// blanks at their end.
pub(crate) fn file_of_constant(alloc: Global, written: &[u8]) -> Result<Vec<u8>, OutOfMemory>
    ensures { IfOk result (λ name. name.items ≡ file_of_constant written.now) }
{
    let mut name = Vec::new(alloc);
    let mut rest = written;
    'bytes: while let Some((unescaped_byte, behind)) = next_unescaped(rest) {
        name.push(unescaped_byte.byte)?;
        rest = behind;
    }
    Ok(name)
}
