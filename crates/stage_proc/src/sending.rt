//! Tables and refusals as frames.

ghost use Rattle.std.specs.Prelude.{◌≡◌, ◌++◌, map, true, IfOk, OnOk};
ghost use Rattle.calculus.specs.Rows.{Row as Values};
ghost use Rattle.frame_codec.specs.Messages.{message_frames};
ghost use Rattle.quel_meaning.proofs.Each.{Each};
ghost use Rattle.quel_network.specs.Spelling.{is_refusal_number};
ghost use Rattle.quel_network.specs.TableFits.{TableStands};
ghost use Rattle.quel_network.specs.Trees.{sent_table};
ghost use Rattle.quel_tree.specs.Relations.{columns as columns_codec};
ghost use Rattle.quel_tree.specs.Values.{row as row_codec};
ghost use Rattle.stage_proc.specs.Sending.{answer_frames, refusal_frames, rows_frames, table_frames, tables_frames};

use calculus::{Column, List, OutOfMemory, Refusal, Row, Table};
use frame_codec::Message;
use message_codec::{Outgoing, end_message, refusal_message};
use quel_tree::{ColumnsTree, RowTree, tree_bytes};
use std::alloc::Global;
use std::mem::replace;

/// The kind of a head.
const HEAD: u8 = 3;

/// The kind of a row.
const ROW: u8 = 4;

/// Puts a head behind these frames.
fn put_head(alloc: Global, out: &mut Outgoing, columns: &List<Column>) -> Result<(), OutOfMemory>
    requires { columns_codec.Fits columns.now }
    ensures { OnOk result (out.new ≡ out.old ++ message_frames 3 (columns_codec.write columns.now)) }
{
    match tree_bytes::<ColumnsTree>(alloc, columns) {
        Ok(bytes) => out.put(Message {
            kind: HEAD,
            bytes: List::of(bytes),
        }),
        Err(error) => Err(error),
    }
}

/// Puts a row behind these frames.
fn put_row(alloc: Global, out: &mut Outgoing, row: &Row) -> Result<(), OutOfMemory>
    requires { row_codec.Fits row.now }
    ensures { OnOk result (out.new ≡ out.old ++ message_frames 4 (row_codec.write row.now)) }
{
    match tree_bytes::<RowTree>(alloc, row) {
        Ok(bytes) => out.put(Message {
            kind: ROW,
            bytes: List::of(bytes),
        }),
        Err(error) => Err(error),
    }
}

/// Puts rows behind these frames, one after the other. A row goes when its bytes are written.
fn put_rows(alloc: Global, out: &mut Outgoing, rows: List<Row>) -> Result<(), OutOfMemory>
    requires { Each (λ (r : Values). row_codec.Fits r) rows }
    ensures { OnOk result (out.new ≡ out.old ++ rows_frames rows) }
{
    'rows: for row in rows.into_items() {
        put_row(alloc, out, &row)?;
    }
    Ok(())
}

/// Puts a table behind these frames.
fn put_table(alloc: Global, out: &mut Outgoing, mut table: Table) -> Result<(), OutOfMemory>
    requires { TableStands (sent_table table) }
    ensures { OnOk result (out.new ≡ out.old ++ table_frames table) }
{
    let rows = replace(&mut table.rows, List::of(Vec::new(alloc)));
    let head = put_head(alloc, out, &table.columns);
    drop(table);
    match head {
        Ok(()) => put_rows(alloc, out, rows),
        Err(error) => Err(error),
    }
}

/// Puts tables behind these frames, one after the other.
fn put_tables(alloc: Global, out: &mut Outgoing, tables: List<Table>) -> Result<(), OutOfMemory>
    requires { Each TableStands (map sent_table tables) }
    ensures { OnOk result (out.new ≡ out.old ++ tables_frames tables) }
{
    'tables: for table in tables.into_items() {
        put_table(alloc, out, table)?;
    }
    Ok(())
}

/// The frames of an answer: those of its tables, and of the end.
pub(crate) fn answer_out(alloc: Global, tables: List<Table>) -> Result<Outgoing, OutOfMemory>
    requires { Each TableStands (map sent_table tables) }
    ensures { IfOk result (λ out. out ≡ answer_frames tables) }
{
    let mut out = Outgoing::new(alloc);
    put_tables(alloc, &mut out, tables)?;
    out.put(end_message(alloc))?;
    Ok(out)
}

/// The frame of a refusal with this number.
pub(crate) fn refusal_out(alloc: Global, number: u8) -> Result<Outgoing, OutOfMemory>
    requires { is_refusal_number number ≡ true }
    ensures { IfOk result (λ out. out ≡ refusal_frames number) }
{
    let refusal = Refusal {
        code: number,
        line: 0,
        row: 0,
    };
    match refusal_message(alloc, refusal)? {
        Some(message) => {
            let mut out = Outgoing::new(alloc);
            out.put(message)?;
            Ok(out)
        }
        None => unreachable!(),
    }
}
