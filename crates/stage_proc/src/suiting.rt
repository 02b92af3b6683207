//! Whether the rows of tables may stand behind their heads.

ghost use Rattle.std.specs.Prelude.{◌≡◌, ◌&&◌};
ghost use Rattle.std.specs.List.{list_all};
ghost use Rattle.calculus.specs.IsDatabase.{value_fits};
ghost use Rattle.calculus.specs.Number.{has_64_bits};
ghost use Rattle.calculus.specs.Text.{is_text};
ghost use Rattle.calculus.specs.Value.{fits};
ghost use Rattle.calculus.specs.declared.value.Kind.TheVariants.{Of, Wide};
ghost use Rattle.calculus.specs.declared.value.Value.TheVariants.{Text as Written};
ghost use Rattle.stage_proc.specs.Sending.{row_stands, table_stands, tables_stand, value_stands};

use calculus::{Column, Domain, Kind, Row, Table, Text, Value};

/// Whether the number has 64 bits, as each has here.
fn has_64_bits(number: &i64) -> bool
    ensures { result ≡ has_64_bits number.now }
{
    let _value = *number;
    true
}

/// Whether the value is a number.
fn is_number(value: &Value) -> bool
    ensures { result ≡ value_stands Wide value.now }
{
    match value {
        Value::Int(number) => has_64_bits(number),
        Value::Text(_) => false,
    }
}

/// Whether the text is no longer than the domain's are.
fn text_fits(text: &Text, domain: Domain) -> bool
    ensures { result ≡ (fits (Written text.now) domain && is_text text.now) }
{
    let length = text.bytes().len();
    match domain {
        Domain::C(width) => length <= width as usize,
        Domain::I1 => false,
        Domain::I2 => false,
        Domain::I4 => false,
    }
}

/// Whether the value is one of the domain.
fn is_of_domain(value: &Value, domain: Domain) -> bool
    ensures { result ≡ value_fits value.now (Of domain) }
{
    match value {
        Value::Int(_) => value.fits(domain),
        Value::Text(text) => text_fits(text, domain),
    }
}

/// Whether the value is of the kind.
fn value_stands(value: &Value, kind: Kind) -> bool
    ensures { result ≡ value_stands kind value.now }
{
    match kind {
        Kind::Wide => is_number(value),
        Kind::Of(domain) => is_of_domain(value, domain),
    }
}

/// Whether there is a value of its kind for each column.
fn values_stand(columns: &[Column], values: &[Value]) -> bool
    ensures { result ≡ row_stands columns.now values.now }
{
    let Some((column, other_columns)) = columns.split_first() else {
        return values.is_empty();
    };
    let Some((value, other_values)) = values.split_first() else {
        return false;
    };
    value_stands(value, column.kind) && values_stand(other_columns, other_values)
}

/// Whether the row has a value of its kind for each column.
fn row_stands(columns: &[Column], row: &Row) -> bool
    ensures { result ≡ row_stands columns.now row.now }
{
    values_stand(columns, row.values())
}

/// Whether each of these rows has.
fn rows_stand(columns: &[Column], rows: &[Row]) -> bool
    ensures { result ≡ list_all (row_stands columns.now) rows.now }
{
    rows.iter().all(|row| row_stands(columns, row))
}

/// Whether each row of the table has.
fn table_stands(table: &Table) -> bool
    ensures { result ≡ table_stands table.now }
{
    rows_stand(table.columns.items(), table.rows.items())
}

/// Whether each row of these tables has.
pub(crate) fn tables_stand(tables: &[Table]) -> bool
    ensures { result ≡ tables_stand tables.now }
{
    tables.iter().all(|table| table_stands(table))
}
