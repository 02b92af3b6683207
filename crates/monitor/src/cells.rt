//! Values in their columns.

ghost use Rattle.std.specs.Prelude.{◌≡◌, ◌++◌, OnOk};
ghost use Rattle.quel_meaning.specs.Printed.{kind_width, column_width, cell_text};

use crate::texts::{push_left, push_right};
use calculus::{Column, Domain, Kind, Value};
use itoa::Buffer;
use std::alloc::AllocError;

/// The width in which the values of a kind are printed.
fn kind_width(kind: Kind) -> usize
    ensures { result ≡ kind_width kind }
{
    match kind {
        Kind::Of(Domain::I1) => 4,
        Kind::Of(Domain::I2) => 6,
        Kind::Of(Domain::I4) => 11,
        Kind::Of(Domain::C(length)) => length as usize,
        Kind::Wide => 20,
    }
}

/// The width of a column: that of its kind, or of its title where this is longer.
pub fn column_width(column: &Column) -> usize
    ensures { result ≡ column_width column.now }
{
    column.name.bytes().len().max(kind_width(column.kind))
}

/// Adds a value in its column: a number in decimal at the right, a text at the left.
pub fn push_cell(out: &mut Vec<u8>, column: &Column, value: &Value) -> Result<(), AllocError>
    ensures { OnOk result (out.new.items ≡ out.old.items ++ cell_text column.now value.now) }
{
    let width = column_width(column);
    match value {
        Value::Int(number) => {
            let mut digits = Buffer::new();
            push_right(out, width, digits.format(*number).as_bytes())
        }
        Value::Text(text) => push_left(out, width, text.bytes()),
    }
}
