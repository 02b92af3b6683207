//! The bytes of a row.

ghost use Rattle.std.specs.Prelude.{◌≡◌, ◌≤◌, ◌+◌, ◌++◌, [], if◌then◌else◌, Some, None, List, IsTrue, IfOk, IfSome, drop, length, take};
ghost use Rattle.calculus.specs.Value.{fits, number_fits};
ghost use Rattle.calculus.specs.declared.value.Value.{Value as Cell};
ghost use Rattle.page_cells.specs.RowBytes.{width, widths, number_bytes, filled, value_bytes, row_bytes, row_fits, is_row, number_of_bytes, value_in, row_in};

use byteorder::{ByteOrder, LittleEndian};
use calculus::{Domain, OutOfMemory, Row, Text, Value};
use std::alloc::Global;

/// How many bytes a value of the domain takes.
fn width(domain: Domain) -> usize
    ensures { result ≡ width domain }
{
    match domain {
        Domain::I1 => 1,
        Domain::I2 => 2,
        Domain::I4 => 4,
        Domain::C(width) => width as usize,
    }
}

/// Puts a number into the first so many bytes.
#[tactic(auto, unfolding(crate::specs::RowBytes::number_bytes))]
fn put_integer(out: &mut [u8], number: i64, bytes: usize)
    requires low { 1 ≤ bytes }
    requires high { bytes ≤ 8 }
    requires room { bytes ≤ length out.old }
    ensures { out.new ≡ number_bytes bytes number ++ drop bytes out.old }
{
    LittleEndian::write_int(out, number, bytes);
}

/// Puts a text into the first so many bytes, with blanks behind it.
fn put_text(out: &mut [u8], text: &[u8], bytes: usize)
    requires short { length text.now ≤ bytes }
    requires room { bytes ≤ length out.old }
    ensures { out.new ≡ filled text.now bytes ++ drop bytes out.old }
{
    out[..text.len()].copy_from_slice(text);
    out[text.len()..bytes].fill(b' ');
}

/// Puts a value into the first bytes, as many as its domain takes.
fn put_value(out: &mut [u8], value: &Value, domain: Domain)
    requires fits { IsTrue (fits value.now domain) }
    requires room { width domain ≤ length out.old }
    ensures { out.new ≡ value_bytes value.now (width domain) ++ drop (width domain) out.old }
{
    match value {
        Value::Int(number) => put_integer(out, *number, width(domain)),
        Value::Text(text) => put_text(out, text.bytes(), width(domain)),
    }
}

/// The number in all the bytes.
#[tactic(auto, unfolding(crate::specs::RowBytes::number_of_bytes))]
fn integer(bytes: &[u8]) -> i64
    requires low { 1 ≤ length bytes.now }
    requires high { length bytes.now ≤ 8 }
    ensures { result ≡ number_of_bytes (length bytes.now) bytes.now }
{
    LittleEndian::read_int(bytes, bytes.len())
}

/// The value of a domain whose bytes these are.
fn value_of(alloc: Global, bytes: &[u8], domain: Domain) -> Result<Option<Value>, OutOfMemory>
    requires { length bytes.now ≡ width domain }
    ensures { IfOk result (λ value. value ≡ value_in bytes.now domain) }
{
    match domain {
        Domain::I1 => Ok(Some(Value::Int(integer(bytes)))),
        Domain::I2 => Ok(Some(Value::Int(integer(bytes)))),
        Domain::I4 => Ok(Some(Value::Int(integer(bytes)))),
        Domain::C(_) => match Text::of(alloc, bytes)? {
            Some(text) => Ok(Some(Value::Text(text))),
            None => Ok(None),
        },
    }
}

/// Puts a value into the bytes from a place, as many as its domain takes.
fn put_value_at(out: &mut [u8], at: usize, value: &Value, domain: Domain)
    requires fits { IsTrue (fits value.now domain) }
    requires room { at + width domain ≤ length out.old }
    ensures { out.new ≡ take at out.old ++ (value_bytes value.now (width domain) ++ drop (at + width domain) out.old) }
{
    put_value(&mut out[at..], value, domain);
}

/// Puts the bytes of a row into the first bytes, and answers how many they are: i1, i2 and i4 in 1,
/// 2 and 4 bytes in two's complement, the lowest byte first, and cN in N bytes filled with blanks.
/// The bytes behind stay. Takes no memory.
pub fn row_bytes(row: &Row, domains: &[Domain], out: &mut [u8]) -> usize
    requires fits { IsTrue (row_fits row.now domains.now) }
    requires room { widths domains.now ≤ length out.old }
    ensures count { result ≡ widths domains.now }
    ensures bytes { out.new ≡ row_bytes row.now domains.now ++ drop (widths domains.now) out.old }
{
    let values = row.values();
    let mut at = 0;
    'values: for (i, domain) in domains.iter().enumerate() {
        put_value_at(out, at, &values[i], *domain);
        at += width(*domain);
    }
    at
}

/// Adds the values whose bytes these are to an empty list. `false` where they are not those of a
/// row of the domains.
fn add_values(
    alloc: Global,
    values: &mut Vec<Value>,
    bytes: &[u8],
    domains: &[Domain],
) -> Result<bool, OutOfMemory>
    requires { values.old.items ≡ [] }
    ensures { IfOk result (λ all. row_in bytes.now domains.now ≡ (if all then Some values.new.items else None)) }
{
    let mut rest = bytes;
    'values: for domain in domains {
        let count = width(*domain);
        if rest.len() < count {
            return Ok(false);
        }
        let (front, behind) = rest.split_at(count);
        match value_of(alloc, front, *domain)? {
            Some(value) => values.push(value)?,
            None => return Ok(false),
        }
        rest = behind;
    }
    Ok(rest.is_empty())
}

/// The row whose bytes these are, value by value.
fn values_of(alloc: Global, bytes: &[u8], domains: &[Domain]) -> Result<Option<Row>, OutOfMemory>
    ensures { IfOk result (λ row. row ≡ row_in bytes.now domains.now) }
{
    let mut values = Vec::new(alloc);
    match add_values(alloc, &mut values, bytes, domains) {
        Ok(true) => Ok(Some(Row::of(values))),
        Ok(false) => Ok(None),
        Err(want) => Err(want),
    }
}

/// The row whose bytes these are; `None` exactly where they are not those of a row of the domains:
/// too few or too many, or a byte of a text outside 32 to 126. The blanks at the end of a text are
/// dropped.
pub fn row_of(alloc: Global, bytes: &[u8], domains: &[Domain]) -> Result<Option<Row>, OutOfMemory>
    ensures spelled { IfOk result (λ row. IfSome row (λ r. IsTrue (is_row r domains.now) × (row_bytes r domains.now ≡ bytes.now))) }
    ensures only { IfOk result (λ row. (r : List Cell) → IsTrue (is_row r domains.now) → row_bytes r domains.now ≡ bytes.now → row ≡ Some r) }
{
    values_of(alloc, bytes, domains)
}
