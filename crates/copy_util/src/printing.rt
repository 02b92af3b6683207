//! The bytes of a column.

ghost use Rattle.std.specs.Prelude.{◌≡◌, ◌++◌, ◌-◌, ◌∷◌, [], IsTrue, IfOk, OnOk, length, nat_lt, option_map, replicate, if◌then◌else◌, Some, None};
ghost use Rattle.calculus.specs.Lists.{has_number};
ghost use Rattle.calculus.specs.Value.{is_within};
ghost use Rattle.calculus.specs.declared.request.CopyForm.TheVariants.{Bin, Fixed, Until};
ghost use Rattle.calculus.specs.declared.value.Value.TheVariants.{Int};
ghost use Rattle.quel_meaning.specs.Columns.{column_bytes, has_bytes, is_copy_form, number_bytes};
ghost use Rattle.copy_util.specs.Writing.{where_put};

use byteorder::{ByteOrder, LittleEndian};
use calculus::{CopyForm, OutOfMemory, Value};
use itoa::Buffer;

/// Whether the number is neither below low nor above high.
fn is_within(low: i64, number: i64, high: i64) -> bool
    ensures { result ≡ is_within low number high }
{
    low.cmp(&number).is_le() && number.cmp(&high).is_le()
}

/// Whether the number has so many bytes in two's complement.
fn has_bytes(count: u8, number: i64) -> bool
    requires { IsTrue (is_copy_form (Bin count)) }
    ensures { result ≡ has_bytes count number }
{
    match count {
        1 => is_within(-128, number, 127),
        2 => is_within(-32_768, number, 32_767),
        _ => is_within(-2_147_483_648, number, 2_147_483_647),
    }
}

/// Adds the number in so many bytes, the lowest first.
fn push_bytes(out: &mut Vec<u8>, count: u8, number: i64) -> Result<(), OutOfMemory>
    requires { IsTrue (is_copy_form (Bin count)) }
    ensures { OnOk result (out.new.items ≡ out.old.items ++ number_bytes count number) }
{
    let count = count as usize;
    let mut bytes = [0; 8];
    LittleEndian::write_int(&mut bytes, number, count);
    out.extend_from_slice(bytes.split_at(count).0)?;
    Ok(())
}

/// Adds a value in so many bytes of a number; answers whether it is a number that has so many.
fn push_binary(out: &mut Vec<u8>, count: u8, value: &Value) -> Result<bool, OutOfMemory>
    requires { IsTrue (is_copy_form (Bin count)) }
    ensures { IfOk result (λ put. option_map (λ piece. out.old.items ++ piece) (column_bytes (Bin count) value.now) ≡ where_put put out.new.items) }
{
    match value {
        Value::Int(number) => {
            if !has_bytes(count, *number) {
                return Ok(false);
            }
            push_bytes(out, count, *number)?;
            Ok(true)
        }
        Value::Text(_) => Ok(false),
    }
}

/// Adds so many blanks.
fn push_blanks(out: &mut Vec<u8>, count: usize) -> Result<(), OutOfMemory>
    ensures { OnOk result (out.new.items ≡ out.old.items ++ replicate count 32) }
{
    for _ in 0..count {
        out.push(b' ')?;
    }
    Ok(())
}

/// Adds the text at the right of so many bytes; answers whether it has no more.
fn push_right(out: &mut Vec<u8>, count: u8, text: &[u8]) -> Result<bool, OutOfMemory>
    ensures { IfOk result (λ put. (if nat_lt count (length text.now) then None else Some (out.old.items ++ (replicate (count - length text.now) 32 ++ text.now))) ≡ where_put put out.new.items) }
{
    let count = count as usize;
    if count < text.len() {
        return Ok(false);
    }
    push_blanks(out, count - text.len())?;
    out.extend_from_slice(text)?;
    Ok(true)
}

/// Adds the text at the left of so many bytes; answers whether it has no more.
fn push_left(out: &mut Vec<u8>, count: u8, text: &[u8]) -> Result<bool, OutOfMemory>
    ensures { IfOk result (λ put. (if nat_lt count (length text.now) then None else Some (out.old.items ++ (text.now ++ replicate (count - length text.now) 32))) ≡ where_put put out.new.items) }
{
    let count = count as usize;
    if count < text.len() {
        return Ok(false);
    }
    out.extend_from_slice(text)?;
    push_blanks(out, count - text.len())?;
    Ok(true)
}

/// Adds a value in so many bytes filled with blanks, a number at the right, a text at the left; answers
/// whether it is no longer.
fn push_fixed(out: &mut Vec<u8>, count: u8, value: &Value) -> Result<bool, OutOfMemory>
    ensures { IfOk result (λ put. option_map (λ piece. out.old.items ++ piece) (column_bytes (Fixed count) value.now) ≡ where_put put out.new.items) }
{
    match value {
        Value::Int(number) => {
            let mut digits = Buffer::new();
            push_right(out, count, digits.format(*number).as_bytes())
        }
        Value::Text(text) => push_left(out, count, text.bytes()),
    }
}

/// Whether the byte is among these.
fn has_byte(bytes: &[u8], byte: u8) -> bool
    ensures { result ≡ has_number bytes.now byte }
{
    bytes.iter().any(|other| *other == byte)
}

/// Adds the text, and then the byte that ends it; answers whether that isn't in the text.
fn push_ended(out: &mut Vec<u8>, stop: u8, text: &[u8]) -> Result<bool, OutOfMemory>
    ensures { IfOk result (λ put. (if has_number text.now stop then None else Some (out.old.items ++ (text.now ++ stop ∷ []))) ≡ where_put put out.new.items) }
{
    if has_byte(text, stop) {
        return Ok(false);
    }
    out.extend_from_slice(text)?;
    out.push(stop)?;
    Ok(true)
}

/// Adds a value as it is printed, and then the byte that ends it; answers whether that isn't in it.
fn push_until(out: &mut Vec<u8>, stop: u8, value: &Value) -> Result<bool, OutOfMemory>
    ensures { IfOk result (λ put. option_map (λ piece. out.old.items ++ piece) (column_bytes (Until stop) value.now) ≡ where_put put out.new.items) }
{
    match value {
        Value::Int(number) => {
            let mut digits = Buffer::new();
            push_ended(out, stop, digits.format(*number).as_bytes())
        }
        Value::Text(text) => push_ended(out, stop, text.bytes()),
    }
}

/// Adds a value in a form; answers whether it fits the form, and doesn't hold the byte that ends it.
/// Else what was added isn't said.
pub(crate) fn push_column(
    out: &mut Vec<u8>,
    form: CopyForm,
    value: &Value,
) -> Result<bool, OutOfMemory>
    requires { IsTrue (is_copy_form form) }
    ensures { IfOk result (λ put. option_map (λ piece. out.old.items ++ piece) (column_bytes form value.now) ≡ where_put put out.new.items) }
{
    match form {
        CopyForm::Bin(count) => push_binary(out, count, value),
        CopyForm::Fixed(count) => push_fixed(out, count, value),
        CopyForm::Until(stop) => push_until(out, stop, value),
    }
}
