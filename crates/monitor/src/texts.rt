//! Texts with blanks beside them.

ghost use Rattle.std.specs.Prelude.{◌≡◌, ◌++◌, replicate, OnOk};
ghost use Rattle.quel_meaning.specs.Printed.{at_left, at_right};

use std::alloc::AllocError;

/// Adds so many copies of a byte.
pub fn push_copies(out: &mut Vec<u8>, byte: u8, count: usize) -> Result<(), AllocError>
    ensures { OnOk result (out.new.items ≡ out.old.items ++ replicate count byte) }
{
    for _ in 0..count {
        out.push(byte)?;
    }
    Ok(())
}

/// Adds the text at the left of so many bytes.
pub fn push_left(out: &mut Vec<u8>, width: usize, text: &[u8]) -> Result<(), AllocError>
    ensures { OnOk result (out.new.items ≡ out.old.items ++ at_left width text.now) }
{
    out.extend_from_slice(text)?;
    push_copies(out, b' ', width.saturating_sub(text.len()))
}

/// Adds the text at the right of so many bytes.
pub fn push_right(out: &mut Vec<u8>, width: usize, text: &[u8]) -> Result<(), AllocError>
    ensures { OnOk result (out.new.items ≡ out.old.items ++ at_right width text.now) }
{
    push_copies(out, b' ', width.saturating_sub(text.len()))?;
    out.extend_from_slice(text)
}
