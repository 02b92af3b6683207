//! The value of a term.

ghost use Rattle.std.specs.Prelude.{◌≡◌, IfOk};
ghost use Rattle.calculus.specs.Term.{attribute_value, number_value, opposite_value, value_without_sign, operated_values, joined_text, joined_values, val, values_of};
ghost use Rattle.calculus.specs.Table.{in_groups, said, tabled};

use crate::Assigned;
use crate::constant::constant_value;
use crate::number::{operated, opposite, without_sign};
use calculus::{AggTable, ArithOp, OutOfMemory, QAgg, QTerm, Row, Text, TryCopy, Value};
use memory::both;
use std::alloc::Global;

fn number_value(number: Option<i64>) -> Option<Value>
    ensures { result ≡ number_value number }
{
    match number {
        Some(number) => Some(Value::Int(number)),
        None => None,
    }
}

#[tactic(auto, unfolding(calculus::specs::Term::opposite_value))]
fn opposite_value(value: Option<Value>) -> Option<Value>
    ensures { result ≡ opposite_value value }
{
    match &value {
        Some(Value::Int(number)) => number_value(opposite(*number)),
        _ => None,
    }
}

#[tactic(auto, unfolding(calculus::specs::Term::value_without_sign))]
fn value_without_sign(value: Option<Value>) -> Option<Value>
    ensures { result ≡ value_without_sign value }
{
    match &value {
        Some(Value::Int(number)) => number_value(without_sign(*number)),
        _ => None,
    }
}

#[tactic(auto, unfolding(calculus::specs::Term::operated_values))]
fn operated_values(op: ArithOp, values: (Option<Value>, Option<Value>)) -> Option<Value>
    ensures { result ≡ operated_values op values.0 values.1 }
{
    let value = match (&values.0, &values.1) {
        (Some(Value::Int(left)), Some(Value::Int(right))) => {
            number_value(operated(op, *left, *right))
        }
        _ => None,
    };
    drop(values);
    value
}

/// One text behind the other, where that has at most 255 bytes.
fn joined_text(alloc: Global, left: &Text, right: &Text) -> Result<Option<Value>, OutOfMemory>
    ensures { IfOk result (λ v. v ≡ joined_text left.now right.now) }
{
    let mut bytes = Vec::from_slice(alloc, left.bytes())?;
    bytes.extend_from_slice(right.bytes())?;
    match Text::of(alloc, &bytes)? {
        Some(text) => Ok(Some(Value::Text(text))),
        None => Ok(None),
    }
}

#[tactic(auto, unfolding(calculus::specs::Term::joined_values))]
fn joined_values(
    alloc: Global,
    values: (Option<Value>, Option<Value>),
) -> Result<Option<Value>, OutOfMemory>
    ensures { IfOk result (λ v. v ≡ joined_values values.0 values.1) }
{
    let joined = match (&values.0, &values.1) {
        (Some(Value::Text(left)), Some(Value::Text(right))) => joined_text(alloc, left, right),
        _ => Ok(None),
    };
    drop(values);
    joined
}

/// The value of a variable's attribute.
#[tactic(auto, unfolding(calculus::specs::Term::attribute_value))]
fn attribute_value(
    alloc: Global,
    rows: &[Row],
    var: u8,
    attr: u8,
) -> Result<Option<Value>, OutOfMemory>
    ensures { IfOk result (λ v. v ≡ attribute_value rows.now var attr) }
{
    match rows.get(var as usize) {
        None => Ok(None),
        Some(row) => match row.values().get(attr as usize) {
            None => Ok(None),
            Some(value) => match value.copy(alloc) {
                Ok(value) => Ok(Some(value)),
                Err(error) => Err(error),
            },
        },
    }
}

/// What a table says of the values of the links.
fn said(alloc: Global, table: &AggTable, link: &[Value]) -> Result<Option<Value>, OutOfMemory>
    ensures { IfOk result (λ v. v ≡ in_groups table.now.empty table.now.groups link.now) }
{
    match table.groups.get(link) {
        Some(value) => value.copy(alloc),
        None => match table.empty.copy(alloc) {
            Ok(value) => Ok(Some(value)),
            Err(error) => Err(error),
        },
    }
}

/// The same, where the values of the links are given away.
fn said_of(alloc: Global, table: &AggTable, link: Row) -> Result<Option<Value>, OutOfMemory>
    ensures { IfOk result (λ v. v ≡ in_groups table.now.empty table.now.groups link) }
{
    said(alloc, table, link.values())
}

/// The values of terms that hold no aggregate; `None` where one of them has none.
#[cycle(value)]
#[tactic(auto, using(crate::proofs::Groups::values_all))]
fn values_of(alloc: Global, terms: &[QTerm], rows: &[Row]) -> Result<Option<Row>, OutOfMemory>
    ensures { IfOk result (λ values. values ≡ values_of terms.now rows.now) }
{
    let mut values = Vec::new(alloc);
    for term in terms {
        match value_in(alloc, term, rows, &[])? {
            Some(value) => values.push(value)?,
            None => return Ok(None),
        }
    }
    Ok(Some(Row::of(values)))
}

/// What the table at an aggregate's slot says.
#[cycle(value)]
#[tactic(auto, unfolding(calculus::specs::Table::tabled, calculus::specs::Table::said))]
fn table_value(
    alloc: Global,
    agg: &QAgg,
    rows: &[Row],
    tables: &[AggTable],
) -> Result<Option<Value>, OutOfMemory>
    ensures { IfOk result (λ v. v ≡ tabled tables.now agg.now rows.now) }
{
    match tables.get(agg.slot as usize) {
        None => Ok(None),
        Some(table) => match values_of(alloc, agg.link.items(), rows) {
            Ok(Some(link)) => said_of(alloc, table, link),
            Ok(None) => Ok(None),
            Err(error) => Err(error),
        },
    }
}

/// The value of a term over these rows.
#[cycle(value)]
#[tactic(auto, using(calculus::proofs::Val::val_int, calculus::proofs::Val::val_chars, calculus::proofs::Val::val_attr, calculus::proofs::Val::val_neg, calculus::proofs::Val::val_abs, calculus::proofs::Val::val_arith, calculus::proofs::Val::val_concat, calculus::proofs::Val::val_agg))]
pub(crate) fn value_in(
    alloc: Global,
    t: &QTerm,
    rows: &[Row],
    tables: &[AggTable],
) -> Result<Option<Value>, OutOfMemory>
    ensures { IfOk result (λ v. v ≡ val (tabled tables.now) t.now rows.now) }
{
    match t {
        QTerm::Int(number) => Ok(Some(Value::Int(*number))),
        QTerm::Chars(written) => constant_value(alloc, written),
        QTerm::Attr { var, attr } => attribute_value(alloc, rows, *var, *attr),
        QTerm::Neg(inner) => match value_in(alloc, inner.get(), rows, tables) {
            Ok(value) => Ok(opposite_value(value)),
            Err(error) => Err(error),
        },
        QTerm::Abs(inner) => match value_in(alloc, inner.get(), rows, tables) {
            Ok(value) => Ok(value_without_sign(value)),
            Err(error) => Err(error),
        },
        QTerm::Arith { op, left, right } => {
            let left = value_in(alloc, left.get(), rows, tables);
            match both(left, value_in(alloc, right.get(), rows, tables)) {
                Ok(values) => Ok(operated_values(*op, values)),
                Err(error) => Err(error),
            }
        }
        QTerm::Concat { left, right } => {
            let left = value_in(alloc, left.get(), rows, tables);
            match both(left, value_in(alloc, right.get(), rows, tables)) {
                Ok(values) => joined_values(alloc, values),
                Err(error) => Err(error),
            }
        }
        QTerm::Agg(agg) => table_value(alloc, agg.get(), rows, tables),
    }
}

/// The value of a term, or none, where `rows` has the row of each variable and `tables` what each
/// aggregate gives.
pub fn value_of(
    alloc: Global,
    t: &QTerm,
    rows: &Assigned,
    tables: &[AggTable],
) -> Result<Option<Value>, OutOfMemory>
    ensures { IfOk result (λ v. v ≡ val (tabled tables.now) t.now rows.now) }
{
    value_in(alloc, t, rows.rows(), tables)
}
