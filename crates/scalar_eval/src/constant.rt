//! The text of a constant.

ghost use Rattle.std.specs.Prelude.{◌≡◌, IfOk, Some};
ghost use Rattle.calculus.specs.Constant.{unescaped, plain_bytes, constant_text};
ghost use Rattle.calculus.specs.declared.value.Value.TheVariants as value;

use calculus::{Chars, OutOfMemory, Text, Value, next_unescaped};
use std::alloc::Global;

/// The bytes of a constant with escapes removed.
fn plain_bytes(alloc: Global, written: &[u8]) -> Result<Vec<u8>, OutOfMemory>
    ensures { IfOk result (λ bytes. bytes.items ≡ plain_bytes (unescaped written.now)) }
{
    let mut bytes = Vec::new(alloc);
    let mut rest = written;
    'bytes: while let Some((unescaped_byte, behind)) = next_unescaped(rest) {
        bytes.push(unescaped_byte.byte)?;
        rest = behind;
    }
    Ok(bytes)
}

/// The value of a text constant: its bytes with escapes removed, without the blanks at their end.
#[tactic(auto, using(crate::proofs::Texts::text_of_constant))]
pub(crate) fn constant_value(alloc: Global, written: &Chars) -> Result<Option<Value>, OutOfMemory>
    ensures { IfOk result (λ v. v ≡ Some (value.Text (constant_text written.now))) }
{
    let bytes = plain_bytes(alloc, written.bytes())?;
    match Text::of(alloc, &bytes)? {
        Some(text) => Ok(Some(Value::Text(text))),
        None => Ok(None),
    }
}
