//! The value that the bytes of a column are.

ghost use Rattle.std.specs.Prelude.{◌≡◌, IsFalse, IsTrue, IfOk, length, option_and_then};
ghost use Rattle.calculus.specs.Kinds.{is_text_kind};
ghost use Rattle.calculus.specs.Replacement.{is_of_kind};
ghost use Rattle.calculus.specs.declared.request.CopyForm.TheVariants.{Bin};
ghost use Rattle.calculus.specs.declared.value.Value.TheVariants.{Int};
ghost use Rattle.quel_meaning.specs.Columns.{fitting, is_copy_form, piece_value, printed_value};
ghost use Rattle.copy_util.specs.Reading.{IsPieceOf, is_wide};

use crate::numbers::spelled_signed;
use crate::pieces::between_blanks;
use byteorder::{ByteOrder, LittleEndian};
use calculus::{CopyForm, Kind, OutOfMemory, Text, Value, is_text_kind};
use std::alloc::Global;

/// Whether the value is one of the kind.
fn is_of_kind(value: &Value, kind: Option<Kind>) -> bool
    ensures { result ≡ is_of_kind value.now kind }
{
    match kind {
        None => false,
        Some(Kind::Wide) => true,
        Some(Kind::Of(domain)) => value.fits(domain),
    }
}

/// The value, where it is one of the kind.
fn fitting(value: Value, kind: Option<Kind>) -> Option<Value>
    ensures { result ≡ fitting kind value }
{
    if is_of_kind(&value, kind) {
        Some(value)
    } else {
        None
    }
}

/// The number, where it is one of the kind.
fn fitting_number(number: i64, kind: Option<Kind>) -> Option<Value>
    ensures { result ≡ fitting kind (Int number) }
{
    fitting(Value::Int(number), kind)
}

/// The number that bytes are in two's complement, the lowest first, where it is one of the kind.
fn binary_value(count: u8, kind: Option<Kind>, bytes: &[u8]) -> Option<Value>
    requires form { IsTrue (is_copy_form (Bin count)) }
    requires long { length bytes.now ≡ count }
    ensures { result ≡ option_and_then (fitting kind) (piece_value (Bin count) kind bytes.now) }
{
    let number = LittleEndian::read_int(bytes, count as usize);
    fitting_number(number, kind)
}

/// The number that bytes are between blanks, where it is one of the kind.
fn printed_number(kind: Option<Kind>, bytes: &[u8]) -> Option<Value>
    requires number { IsFalse (is_text_kind kind) }
    requires stored { IsFalse (is_wide kind) }
    ensures { result ≡ option_and_then (fitting kind) (printed_value kind bytes.now) }
{
    let number = spelled_signed(between_blanks(bytes))?;
    fitting_number(number, kind)
}

/// The text that bytes are without the blanks at their end, where it is one of the kind.
fn printed_text(
    alloc: Global,
    kind: Option<Kind>,
    bytes: &[u8],
) -> Result<Option<Value>, OutOfMemory>
    requires text { IsTrue (is_text_kind kind) }
    ensures { IfOk result (λ v. v ≡ option_and_then (fitting kind) (printed_value kind bytes.now)) }
{
    match Text::of(alloc, bytes)? {
        Some(text) => Ok(fitting(Value::Text(text), kind)),
        None => Ok(None),
    }
}

/// The value that printed bytes are, where it is one of the kind.
fn printed_value(
    alloc: Global,
    kind: Option<Kind>,
    bytes: &[u8],
) -> Result<Option<Value>, OutOfMemory>
    requires stored { IsFalse (is_wide kind) }
    ensures { IfOk result (λ v. v ≡ option_and_then (fitting kind) (printed_value kind bytes.now)) }
{
    if is_text_kind(kind) {
        printed_text(alloc, kind, bytes)
    } else {
        Ok(printed_number(kind, bytes))
    }
}

/// The value that the bytes of a column are, where it is one of the kind.
pub(crate) fn piece_value(
    alloc: Global,
    form: CopyForm,
    kind: Option<Kind>,
    bytes: &[u8],
) -> Result<Option<Value>, OutOfMemory>
    requires form { IsTrue (is_copy_form form) }
    requires stored { IsFalse (is_wide kind) }
    requires long { IsPieceOf form bytes.now }
    ensures { IfOk result (λ v. v ≡ option_and_then (fitting kind) (piece_value form kind bytes.now)) }
{
    match form {
        CopyForm::Bin(count) => Ok(binary_value(count, kind, bytes)),
        CopyForm::Fixed(_) => printed_value(alloc, kind, bytes),
        CopyForm::Until(_) => printed_value(alloc, kind, bytes),
    }
}
