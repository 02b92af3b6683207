//! The lines of tables.

ghost use Rattle.std.specs.Prelude.{◌≡◌, ◌++◌, ◌∷◌, [], List, ℕ, map, zip, flat_map, replicate, OnOk, IfOk};
ghost use Rattle.quel_meaning.specs.Printed.{at_left, column_width, cell_text, title_line, rule_bytes, head_bytes, row_line, table_bytes};
ghost use Rattle.monitor.specs.Cells.{title_cells, rule_cells, row_cells};

use crate::cells::{column_width, push_cell};
use crate::texts::{push_copies, push_left};
use calculus::{Column, OutOfMemory, Row, Table, Value};
use std::alloc::{AllocError, Global};

/// Adds the cells of the titles, a bar behind each.
fn push_titles(out: &mut Vec<u8>, columns: &[Column]) -> Result<(), AllocError>
    ensures { OnOk result (out.new.items ≡ out.old.items ++ title_cells columns.now) }
{
    for column in columns {
        push_left(out, column_width(column), column.name.bytes())?;
        out.push(b'|')?;
    }
    Ok(())
}

/// Adds the dashes in place of the titles, a bar behind each.
fn push_dashes(out: &mut Vec<u8>, columns: &[Column]) -> Result<(), AllocError>
    ensures { OnOk result (out.new.items ≡ out.old.items ++ rule_cells columns.now) }
{
    for column in columns {
        push_copies(out, b'-', column_width(column))?;
        out.push(b'|')?;
    }
    Ok(())
}

/// Adds the cells of the values, a bar behind each.
fn push_values(out: &mut Vec<u8>, columns: &[Column], values: &[Value]) -> Result<(), AllocError>
    ensures { OnOk result (out.new.items ≡ out.old.items ++ row_cells columns.now values.now) }
{
    let mut rest = values;
    for column in columns {
        let Some((value, later)) = rest.split_first() else {
            break;
        };
        push_cell(out, column, value)?;
        out.push(b'|')?;
        rest = later;
    }
    Ok(())
}

/// Adds the rule line.
#[tactic(auto, unfolding(quel_meaning::specs::Printed::rule_bytes))]
pub fn push_rule(out: &mut Vec<u8>, columns: &[Column]) -> Result<(), OutOfMemory>
    ensures { OnOk result (out.new.items ≡ out.old.items ++ rule_bytes columns.now) }
{
    out.push(b'|')?;
    push_dashes(out, columns)?;
    out.push(b'\n')?;
    Ok(())
}

/// Adds the line of the titles.
fn push_title_line(out: &mut Vec<u8>, columns: &[Column]) -> Result<(), OutOfMemory>
    ensures { OnOk result (out.new.items ≡ out.old.items ++ title_line columns.now) }
{
    out.push(b'|')?;
    push_titles(out, columns)?;
    out.push(b'\n')?;
    Ok(())
}

/// Adds how a table begins: the line of the titles, and the rule line.
#[tactic(auto, unfolding(quel_meaning::specs::Printed::head_bytes))]
pub fn push_head(out: &mut Vec<u8>, columns: &[Column]) -> Result<(), OutOfMemory>
    ensures { OnOk result (out.new.items ≡ out.old.items ++ head_bytes columns.now) }
{
    push_title_line(out, columns)?;
    push_rule(out, columns)
}

/// Adds the line of a row, each value in its column.
#[tactic(auto, unfolding(quel_meaning::specs::Printed::row_line))]
pub fn push_row_line(out: &mut Vec<u8>, columns: &[Column], row: &Row) -> Result<(), OutOfMemory>
    ensures { OnOk result (out.new.items ≡ out.old.items ++ row_line columns.now row.now) }
{
    out.push(b'|')?;
    push_values(out, columns, row.values())?;
    out.push(b'\n')?;
    Ok(())
}

/// Adds the lines of the rows, in order.
fn push_rows(out: &mut Vec<u8>, columns: &[Column], rows: &[Row]) -> Result<(), OutOfMemory>
    ensures { OnOk result (out.new.items ≡ out.old.items ++ flat_map (row_line columns.now) rows.now) }
{
    for row in rows {
        push_row_line(out, columns, row)?;
    }
    Ok(())
}

/// Adds a table: its head, the lines of its rows in order, and the rule line again.
#[tactic(auto, unfolding(quel_meaning::specs::Printed::table_bytes))]
pub fn push_table(out: &mut Vec<u8>, table: &Table) -> Result<(), OutOfMemory>
    ensures { OnOk result (out.new.items ≡ out.old.items ++ table_bytes table.now) }
{
    let columns = table.columns.items();
    push_head(out, columns)?;
    push_rows(out, columns, table.rows.items())?;
    push_rule(out, columns)
}

/// How a table begins: the line of the titles, and the rule line.
pub fn head_bytes(alloc: Global, columns: &[Column]) -> Result<Vec<u8>, OutOfMemory>
    ensures { IfOk result (λ bytes. bytes.items ≡ head_bytes columns.now) }
{
    let mut out = Vec::new(alloc);
    push_head(&mut out, columns)?;
    Ok(out)
}

/// The rule line: dashes in place of each title.
pub fn rule_bytes(alloc: Global, columns: &[Column]) -> Result<Vec<u8>, OutOfMemory>
    ensures { IfOk result (λ bytes. bytes.items ≡ rule_bytes columns.now) }
{
    let mut out = Vec::new(alloc);
    push_rule(&mut out, columns)?;
    Ok(out)
}

/// The line of a row, each value in its column.
pub fn row_line(alloc: Global, columns: &[Column], row: &Row) -> Result<Vec<u8>, OutOfMemory>
    ensures { IfOk result (λ bytes. bytes.items ≡ row_line columns.now row.now) }
{
    let mut out = Vec::new(alloc);
    push_row_line(&mut out, columns, row)?;
    Ok(out)
}
