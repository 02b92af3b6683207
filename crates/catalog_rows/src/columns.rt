//! The rows of file 6: the attributes of relations and views.

ghost use Rattle.std.specs.Prelude.{◌≡◌, ◌≤◌, ◌&&◌, ◌++◌, IsTrue, IfOk, OnOk, bytes_eq, length, option_map};
ghost use Rattle.calculus.specs.IsDatabase.{is_kind, kind_bytes};
ghost use Rattle.calculus.specs.Name.{is_name};
ghost use Rattle.page_chain.specs.Lists.{when};
ghost use Rattle.page_chain.specs.Lying.{IsShort};
ghost use Rattle.stored_database.specs.Columns.{column_bytes, column_in as column_at, column_of, kind_in, kind_number};
ghost use Rattle.catalog_rows.specs.Shown.{column_in};

use crate::adding::{add_name, add_number};
use crate::places::{name_in, number_at};
use calculus::{Attr, Domain, Kind, List, OutOfMemory};
use std::alloc::Global;

/// How many bytes the row of an attribute has.
const COLUMN_BYTES: usize = 19;

/// An attribute, as its row says.
#[derive(Drop)]
pub struct ColumnRow {
    /// The file of what has it.
    pub file: u32,
    /// Its place there, counted from 0.
    pub place: u8,
    /// The attribute.
    pub attr: Attr,
}

/// The number of a kind.
fn kind_number(kind: Kind) -> u8
    ensures { result ≡ kind_number kind }
{
    match kind {
        Kind::Of(Domain::I1) => 0,
        Kind::Of(Domain::I2) => 1,
        Kind::Of(Domain::I4) => 2,
        Kind::Of(Domain::C(_)) => 3,
        Kind::Wide => 4,
    }
}

/// The bytes that a value of the kind takes in a row.
fn kind_bytes(kind: Kind) -> u8
    ensures { result ≡ kind_bytes kind }
{
    match kind {
        Kind::Of(Domain::I1) => 1,
        Kind::Of(Domain::I2) => 2,
        Kind::Of(Domain::I4) => 4,
        Kind::Of(Domain::C(width)) => width,
        Kind::Wide => 8,
    }
}

/// The kind of this number, and of this width where kinds of its number have one.
fn kind_in(number: u8, width: u8) -> Option<Kind>
    ensures { result ≡ kind_in number width }
{
    match number {
        0 => Some(Kind::Of(Domain::I1)),
        1 => Some(Kind::Of(Domain::I2)),
        2 => Some(Kind::Of(Domain::I4)),
        3 => Some(Kind::Of(Domain::C(width))),
        4 => Some(Kind::Wide),
        _ => None,
    }
}

/// Whether it is a kind: a text has a width.
fn is_kind(kind: Kind) -> bool
    ensures { result ≡ is_kind kind }
{
    match kind {
        Kind::Of(Domain::I1) => true,
        Kind::Of(Domain::I2) => true,
        Kind::Of(Domain::I4) => true,
        Kind::Of(Domain::C(width)) => width >= 1,
        Kind::Wide => true,
    }
}

/// Adds the bytes of an attribute.
#[tactic(auto, unfolding(stored_database::specs::Columns::column_bytes))]
fn add_column(row: &mut Vec<u8>, file: u32, place: u8, attr: &Attr) -> Result<(), OutOfMemory>
    ensures bytes { OnOk result (row.new.items ≡ row.old.items ++ column_bytes (record { file = file; place = place; attr = attr.now })) }
    ensures named { OnOk result (IsTrue (is_name attr.now.name)) }
{
    add_number(row, file)?;
    row.push(place)?;
    add_name(row, &attr.name)?;
    row.push(kind_number(attr.kind))?;
    row.push(kind_bytes(attr.kind))?;
    Ok(())
}

/// The bytes of an attribute.
#[tactic(auto, using(crate::proofs::Lengths::column_is_short))]
pub fn column_row(alloc: Global, file: u32, place: u8, attr: &Attr) -> Result<List<u8>, OutOfMemory>
    ensures bytes { IfOk result (λ row. row ≡ column_bytes (record { file = file; place = place; attr = attr.now })) }
    ensures short { IfOk result (λ row. IsShort row) }
{
    let mut row = Vec::with_capacity(alloc, COLUMN_BYTES)?;
    add_column(&mut row, file, place, attr)?;
    Ok(List::of(row))
}

/// What stands in the places of an attribute.
#[tactic(auto, unfolding(stored_database::specs::Columns::column_in))]
fn column_at(alloc: Global, bytes: &[u8]) -> Result<Option<ColumnRow>, OutOfMemory>
    requires { length bytes.now ≡ 19 }
    ensures { IfOk result (λ column. option_map column_in column ≡ column_at bytes.now) }
{
    let Some(name) = name_in(alloc, &bytes[5..17])? else {
        return Ok(None);
    };
    let Some(kind) = kind_in(bytes[17], bytes[18]) else {
        return Ok(None);
    };
    Ok(Some(ColumnRow {
        file: number_at(bytes, 0),
        place: bytes[4],
        attr: Attr { name, kind },
    }))
}

/// Whether its bytes are these.
fn has_bytes(alloc: Global, column: &ColumnRow, bytes: &[u8]) -> Result<bool, OutOfMemory>
    ensures { IfOk result (λ has. has ≡ bytes_eq bytes.now (column_bytes (column_in column.now))) }
{
    let row = column_row(alloc, column.file, column.place, &column.attr)?;
    Ok(bytes == row.items())
}

/// Whether its kind is one, and its bytes are these.
fn is_of(alloc: Global, column: &ColumnRow, bytes: &[u8]) -> Result<bool, OutOfMemory>
    ensures { IfOk result (λ is. is ≡ (is_kind column.now.attr.kind && bytes_eq bytes.now (column_bytes (column_in column.now)))) }
{
    if !is_kind(column.attr.kind) {
        return Ok(false);
    }
    has_bytes(alloc, column, bytes)
}

/// The attribute, where its kind is one and its bytes are these.
fn only_of(alloc: Global, column: ColumnRow, bytes: &[u8]) -> Result<Option<ColumnRow>, OutOfMemory>
    ensures { IfOk result (λ found. option_map column_in found ≡ when (is_kind column.attr.kind && bytes_eq bytes.now (column_bytes (column_in column))) (column_in column)) }
{
    match is_of(alloc, &column, bytes) {
        Ok(true) => Ok(Some(column)),
        Ok(false) => Ok(None),
        Err(want) => Err(want),
    }
}

/// The attribute whose bytes a row is; `None` exactly where it is that of none.
#[tactic(auto, using(crate::proofs::Lengths::other_lengths_are_no_column, crate::proofs::Tests::column_where))]
pub fn read_column(alloc: Global, bytes: &[u8]) -> Result<Option<ColumnRow>, OutOfMemory>
    ensures { IfOk result (λ column. option_map column_in column ≡ column_of bytes.now) }
{
    if bytes.len() != COLUMN_BYTES {
        return Ok(None);
    }
    match column_at(alloc, bytes)? {
        Some(column) => only_of(alloc, column, bytes),
        None => Ok(None),
    }
}
