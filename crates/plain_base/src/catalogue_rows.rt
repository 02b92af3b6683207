//! The rows of the two catalogues for what stands in a database.

ghost use Rattle.std.specs.Prelude.{◌≡◌, ◌≤◌, IsTrue, IfOk, OnOk, ◌<◌, ◌^◌, [], ◌∷◌, length, map, flat_map, codes, decimal, ◌++◌};
ghost use Rattle.std.specs.List.{list_all, enumerate_from};
ghost use Rattle.calculus.specs.Catalogue.{relation_row, attribute_row, attribute_rows, column_count, format_text};
ghost use Rattle.calculus.specs.Structures.{spec_text};
ghost use Rattle.calculus.specs.Name.{is_name_byte};

use crate::under_keys::Known;
use calculus::{Attr, Domain, Kind, Name, OutOfMemory, RelInfo, RelKey, Row, Spec, Text, Value};
use std::alloc::Global;

/// Puts the text of bytes that names are made of behind other values.
#[tactic(auto, using(crate::proofs::Named::solid_text))]
fn put_text(alloc: Global, values: &mut Vec<Value>, bytes: &[u8]) -> Result<(), OutOfMemory>
    requires solid { IsTrue (list_all is_name_byte bytes.now) }
    requires short { length bytes.now ≤ 255 }
    ensures { OnOk result (values.new.items ≡ values.old.items ++ Value.Text bytes.now ∷ []) }
{
    match Text::of(alloc, bytes)? {
        Some(text) => Ok(values.push(Value::Text(text))?),
        None => {
            prove!(false);
            Err(OutOfMemory)
        }
    }
}

#[tactic(auto, using(crate::proofs::Named::name_solid, crate::proofs::Named::name_short))]
fn put_name(alloc: Global, values: &mut Vec<Value>, name: &Name) -> Result<(), OutOfMemory>
    ensures { OnOk result (values.new.items ≡ values.old.items ++ Value.Text name.now ∷ []) }
{
    let bytes = name.bytes();
    put_text(alloc, values, bytes)
}

/// What an entry is, in a word.
fn spec_word(spec: Spec) -> &'static [u8]
    ensures { result.now ≡ spec_text spec }
{
    match spec {
        Spec::Heap => b"heap",
        Spec::Hash => b"hash",
        Spec::Isam => b"isam",
        Spec::View => b"view",
        Spec::Index => b"index",
    }
}

#[tactic(auto, using(crate::proofs::Named::width_solid, crate::proofs::Named::width_short))]
fn put_width(alloc: Global, values: &mut Vec<Value>, width: u8) -> Result<(), OutOfMemory>
    ensures { OnOk result (values.new.items ≡ values.old.items ++ Value.Text (codes "c" ++ decimal width) ∷ []) }
{
    let text = format!(in alloc; "c{}", width)?;
    put_text(alloc, values, text.as_bytes())
}

fn put_format(alloc: Global, values: &mut Vec<Value>, kind: Kind) -> Result<(), OutOfMemory>
    ensures { OnOk result (values.new.items ≡ values.old.items ++ Value.Text (format_text kind) ∷ []) }
{
    match kind {
        Kind::Wide => put_text(alloc, values, b"i8"),
        Kind::Of(Domain::I1) => put_text(alloc, values, b"i1"),
        Kind::Of(Domain::I2) => put_text(alloc, values, b"i2"),
        Kind::Of(Domain::I4) => put_text(alloc, values, b"i4"),
        Kind::Of(Domain::C(width)) => put_width(alloc, values, width),
    }
}

fn column_count(info: &RelInfo) -> usize
    ensures count { result ≡ column_count info.now }
    ensures small { result < 2 ^ 63 }
{
    match info.spec {
        Spec::Heap => info.attrs.items().len(),
        Spec::Hash => info.attrs.items().len(),
        Spec::Isam => info.attrs.items().len(),
        Spec::View => info.attrs.items().len(),
        Spec::Index => info.keys.items().len(),
    }
}

/// Puts the values of an entry's row of `relation` into an empty list.
#[tactic(auto, using(crate::proofs::Named::spec_solid, crate::proofs::Named::spec_short))]
fn put_relation(alloc: Global, values: &mut Vec<Value>, info: &RelInfo) -> Result<(), OutOfMemory>
    requires { values.old.items ≡ [] }
    ensures { OnOk result (values.new.items ≡ relation_row info.now) }
{
    put_name(alloc, values, &info.key.name)?;
    put_name(alloc, values, &info.key.owner)?;
    let word = spec_word(info.spec);
    put_text(alloc, values, word)?;
    Ok(values.push(Value::Int(column_count(info) as i64))?)
}

/// Puts the row of `relation` for an entry behind others.
pub(crate) fn push_relation_row(
    alloc: Global,
    rows: &mut Vec<Row>,
    info: &RelInfo,
) -> Result<(), OutOfMemory>
    ensures { OnOk result (rows.new.items ≡ rows.old.items ++ relation_row info.now ∷ []) }
{
    let mut values = Vec::new(alloc);
    match put_relation(alloc, &mut values, info) {
        Ok(()) => Ok(rows.push(Row::of(values))?),
        Err(error) => Err(error),
    }
}

/// Puts the values of the row of `attribute` for an attribute with this number into an empty list.
fn put_attribute(
    alloc: Global,
    values: &mut Vec<Value>,
    key: &RelKey,
    number: usize,
    attr: &Attr,
) -> Result<(), OutOfMemory>
    requires short { number < 2 ^ 63 }
    requires empty { values.old.items ≡ [] }
    ensures { OnOk result (values.new.items ≡ attribute_row key.now number attr.now) }
{
    put_name(alloc, values, &key.name)?;
    put_name(alloc, values, &key.owner)?;
    values.push(Value::Int(number as i64))?;
    put_name(alloc, values, &attr.name)?;
    put_format(alloc, values, attr.kind)
}

/// Puts the row of `attribute` for an attribute with this number behind others.
fn push_attribute_row(
    alloc: Global,
    rows: &mut Vec<Row>,
    key: &RelKey,
    number: usize,
    attr: &Attr,
) -> Result<(), OutOfMemory>
    requires { number < 2 ^ 63 }
    ensures { OnOk result (rows.new.items ≡ rows.old.items ++ attribute_row key.now number attr.now ∷ []) }
{
    let mut values = Vec::new(alloc);
    match put_attribute(alloc, &mut values, key, number, attr) {
        Ok(()) => Ok(rows.push(Row::of(values))?),
        Err(error) => Err(error),
    }
}

/// Puts the rows of `relation` for these entries behind others.
pub(crate) fn push_relation_rows<T: Known>(
    alloc: Global,
    rows: &mut Vec<Row>,
    items: &[T],
) -> Result<(), OutOfMemory>
    ensures { OnOk result (rows.new.items ≡ rows.old.items ++ map relation_row (map (λ t. T.known t) items.now)) }
{
    for item in items {
        push_relation_row(alloc, rows, item.info())?;
    }
    Ok(())
}

/// Puts the rows of `attribute` for these attributes behind others.
fn push_attributes(
    alloc: Global,
    rows: &mut Vec<Row>,
    key: &RelKey,
    attrs: &[Attr],
) -> Result<(), OutOfMemory>
    ensures { OnOk result (rows.new.items ≡ rows.old.items ++ map (λ p. attribute_row key.now p.0 p.1) (enumerate_from 1 attrs.now)) }
{
    for (i, attr) in attrs.iter().enumerate() {
        push_attribute_row(alloc, rows, key, i + 1, attr)?;
    }
    Ok(())
}

/// Puts the rows of `attribute` for an entry behind others.
pub(crate) fn push_rows_of(
    alloc: Global,
    rows: &mut Vec<Row>,
    info: &RelInfo,
) -> Result<(), OutOfMemory>
    ensures { OnOk result (rows.new.items ≡ rows.old.items ++ attribute_rows info.now) }
{
    match info.spec {
        Spec::Heap => push_attributes(alloc, rows, &info.key, info.attrs.items()),
        Spec::Hash => push_attributes(alloc, rows, &info.key, info.attrs.items()),
        Spec::Isam => push_attributes(alloc, rows, &info.key, info.attrs.items()),
        Spec::View => push_attributes(alloc, rows, &info.key, info.attrs.items()),
        Spec::Index => Ok(()),
    }
}

/// Puts the rows of `attribute` for these entries behind others.
pub(crate) fn push_attribute_rows<T: Known>(
    alloc: Global,
    rows: &mut Vec<Row>,
    items: &[T],
) -> Result<(), OutOfMemory>
    ensures { OnOk result (rows.new.items ≡ rows.old.items ++ flat_map attribute_rows (map (λ t. T.known t) items.now)) }
{
    for item in items {
        push_rows_of(alloc, rows, item.info())?;
    }
    Ok(())
}
