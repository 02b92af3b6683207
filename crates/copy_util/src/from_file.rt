//! Copies rows from a file.

ghost use Rattle.std.specs.Prelude.{◌≡◌, ◌≤◌, true, length, option_map, vec_items, IsTrue, IfOk, Some, Ok, Err};
ghost use Rattle.calculus.specs.Change.{IsLawful};
ghost use Rattle.calculus.specs.Database.{Db};
ghost use Rattle.calculus.specs.Stored.{kinds_at};
ghost use Rattle.calculus.specs.declared.request.Checked.TheVariants as checked;
ghost use Rattle.fault_io.specs.Files.{Files, fetched};
ghost use Rattle.quel_meaning.specs.Copying.{copied_from, file_of_constant, most_file_bytes, rows_in_file};
ghost use Rattle.quel_meaning.specs.Fit.{is_fit};
ghost use Rattle.copy_util.specs.Causes.{Copies, HasBaseCause, HasCopyCause, HasShelfCause, IsUncaused};
ghost use Rattle.copy_util.specs.Copies.{IsCopy};
ghost use Rattle.copy_util.specs.Reading.{ComesOf, are_readable, or_bad_row, rows_from_bytes, short_file, WouldBeReadable};

use crate::CopyFault;
use crate::appending::rows_appended;
use crate::file_name::file_of_constant;
use crate::forms::are_readable;
use crate::rows_read::read_rows;
use base_trait::{Base, BaseFault};
use calculus::limits::MOST_FILE_BYTES;
use calculus::{CopyCol, DbChange, Kind, Name, OutOfMemory, RelKey, Row, Utility};
use fault_io::{Shelf, ShelfFault};
use ovqp::kinds_at;
use std::alloc::Global;
use utilities::owner_refusal;

/// The file, where it is there and not too long.
fn short_file(file: Option<Vec<u8>>) -> Result<Vec<u8>, CopyFault>
    ensures known { Copies (λ bytes. short_file (option_map vec_items file) ≡ Ok bytes.items) (λ refusal. short_file (option_map vec_items file) ≡ Err refusal) result }
    ensures short { IfOk result (λ bytes. length bytes.items ≤ most_file_bytes) }
    ensures cause { HasShelfCause 0 0 result }
{
    match file {
        None => Err(CopyFault::NoFile),
        Some(bytes) => {
            if bytes.len() > MOST_FILE_BYTES {
                drop(bytes);
                return Err(CopyFault::No(14));
            }
            Ok(bytes)
        }
    }
}

/// The bytes of the file that a constant names.
fn fetch_file<H: Shelf>(alloc: Global, shelf: &mut H, constant: &[u8]) -> Result<Vec<u8>, CopyFault>
    ensures known { (files : Files) → H.files shelf.old ≡ Some files
        → Copies (λ bytes. short_file (fetched files (file_of_constant constant.now)) ≡ Ok bytes.items) (λ refusal. short_file (fetched files (file_of_constant constant.now)) ≡ Err refusal) result }
    ensures short { IfOk result (λ bytes. length bytes.items ≤ most_file_bytes) }
    ensures files { H.files shelf.new ≡ H.files shelf.old }
    ensures cause { HasShelfCause (H.faults shelf.old) (H.faults shelf.new) result }
{
    let name = file_of_constant(alloc, constant)?;
    match shelf.fetch(alloc, &name) {
        Ok(file) => short_file(file),
        Err(ShelfFault::Failed) => Err(CopyFault::Shelf),
        Err(ShelfFault::OutOfMemory) => Err(CopyFault::OutOfMemory),
    }
}

/// The rows of a file, or its first bad one.
fn rows_in_file(
    alloc: Global,
    kinds: &[Kind],
    columns: &[CopyCol],
    bytes: &[u8],
) -> Result<Vec<Row>, CopyFault>
    requires readable { IsTrue (are_readable kinds.now columns.now) }
    requires short { length bytes.now ≤ most_file_bytes }
    ensures known { Copies (λ rows. or_bad_row (rows_in_file kinds.now columns.now bytes.now) ≡ Ok rows.items) (λ refusal. or_bad_row (rows_in_file kinds.now columns.now bytes.now) ≡ Err refusal) result }
    ensures cause { IsUncaused result }
{
    let mut rows = Vec::new(alloc);
    match read_rows(alloc, kinds, columns, bytes, &mut rows) {
        Ok(None) => Ok(rows),
        Ok(Some(row)) => {
            drop(rows);
            Err(CopyFault::BadRow { row })
        }
        Err(OutOfMemory) => {
            drop(rows);
            Err(CopyFault::OutOfMemory)
        }
    }
}

/// The rows of a file that are for a relation. Columns that no fit request has are `Damaged`.
fn rows_for<B: Base>(
    alloc: Global,
    base: &mut B,
    rel: &RelKey,
    columns: &[CopyCol],
    bytes: &[u8],
) -> Result<Vec<Row>, CopyFault>
    requires fits { (db : Db) → B.database base.old ≡ Some db → are_readable (kinds_at db rel.now) columns.now ≡ true }
    requires short { length bytes.now ≤ most_file_bytes }
    ensures known { (db : Db) → B.database base.old ≡ Some db
        → Copies (λ rows. or_bad_row (rows_in_file (kinds_at db rel.now) columns.now bytes.now) ≡ Ok rows.items) (λ refusal. or_bad_row (rows_in_file (kinds_at db rel.now) columns.now bytes.now) ≡ Err refusal) result }
    ensures kept { B.database base.new ≡ B.database base.old }
    ensures stays { (s : Db) → B.schema base.old ≡ Some s → B.schema base.new ≡ Some s }
    ensures asked { (b : B) → B.asked b base.old → B.asked b base.new }
    ensures cause { HasBaseCause (B.database base.old) (B.faults base.old) (B.faults base.new) result }
{
    let kinds = kinds_at(alloc, base, rel)?;
    if are_readable(&kinds, columns) {
        rows_in_file(alloc, &kinds, columns, bytes)
    } else {
        Err(CopyFault::Base(BaseFault::Damaged { file: 0, page: 0 }))
    }
}

/// The change that appends the rows of a file's bytes to a relation.
fn file_appended<B: Base>(
    alloc: Global,
    base: &mut B,
    rel: &RelKey,
    columns: &[CopyCol],
    bytes: Vec<u8>,
) -> Result<DbChange, CopyFault>
    requires fits { (db : Db) → B.database base.old ≡ Some db → are_readable (kinds_at db rel.now) columns.now ≡ true }
    requires short { length bytes.items ≤ most_file_bytes }
    ensures known { (db : Db) → B.database base.old ≡ Some db
        → Copies (λ change. rows_from_bytes db rel.now columns.now bytes.items ≡ Ok change) (λ refusal. rows_from_bytes db rel.now columns.now bytes.items ≡ Err refusal) result }
    ensures kept { B.database base.new ≡ B.database base.old }
    ensures stays { (s : Db) → B.schema base.old ≡ Some s → B.schema base.new ≡ Some s }
    ensures asked { (b : B) → B.asked b base.old → B.asked b base.new }
    ensures cause { HasBaseCause (B.database base.old) (B.faults base.old) (B.faults base.new) result }
{
    let rows = rows_for(alloc, base, rel, columns, &bytes);
    drop(bytes);
    match rows {
        Ok(rows) => rows_appended(alloc, base, rel, rows),
        Err(fault) => Err(fault),
    }
}

/// The change that appends the rows of the file that a constant names to a relation of the user's.
fn rows_from<B: Base, H: Shelf>(
    alloc: Global,
    base: &mut B,
    shelf: &mut H,
    user: &Name,
    rel: &RelKey,
    columns: &[CopyCol],
    constant: &[u8],
) -> Result<DbChange, CopyFault>
    requires fits { (db : Db) → B.database base.old ≡ Some db → WouldBeReadable db user.now rel.now columns.now }
    ensures known { (db : Db) (files : Files) → B.database base.old ≡ Some db → H.files shelf.old ≡ Some files
        → Copies (λ change. copied_from db files user.now rel.now columns.now constant.now ≡ Ok change)
        (λ refusal. copied_from db files user.now rel.now columns.now constant.now ≡ Err refusal) result }
    ensures comes { (db : Db) → B.database base.old ≡ Some db → IfOk result (ComesOf db user.now rel.now columns.now constant.now) }
    ensures kept { B.database base.new ≡ B.database base.old }
    ensures stays { (s : Db) → B.schema base.old ≡ Some s → B.schema base.new ≡ Some s }
    ensures asked { (b : B) → B.asked b base.old → B.asked b base.new }
    ensures files { H.files shelf.new ≡ H.files shelf.old }
    ensures cause { HasCopyCause (B.database base.old) (B.faults base.old) (B.faults base.new) (H.faults shelf.old) (H.faults shelf.new) result }
{
    match owner_refusal(alloc, base, user, rel) {
        Ok(None) => match fetch_file(alloc, shelf, constant) {
            Ok(bytes) => file_appended(alloc, base, rel, columns, bytes),
            Err(fault) => Err(fault),
        },
        Ok(Some(cause)) => Err(CopyFault::No(cause)),
        Err(fault) => Err(CopyFault::Base(fault)),
    }
}

/// The change that appends the rows of a file to a relation of the user's: those that break no rule, as
/// one set. Refused in this order: 28, 26 and 24 by the relation; `NoFile` where the shelf has no such
/// file; 14 where that has more than 4,294,967,295 bytes; `BadRow` with the first row that is bad; 29
/// where more than 100,000 rows would stand. Columns that no request has which fits a database are
/// `Damaged`. Takes time and memory that grow with the file and the rules, beside the sorting of its rows.
pub fn copy_from<B: Base, H: Shelf>(
    alloc: Global,
    base: &mut B,
    shelf: &mut H,
    user: &Name,
    u: &Utility,
) -> Result<DbChange, CopyFault>
    requires copies { IsCopy u.now true }
    requires fits { (db : Db) → B.database base.old ≡ Some db → is_fit db user.now (checked.Utility u.now) ≡ true }
    ensures known { (db : Db) (files : Files) → B.database base.old ≡ Some db → H.files shelf.old ≡ Some files → (c : IsCopy u.now true)
        → Copies (λ change. copied_from db files user.now c.rel c.columns c.constant ≡ Ok change)
        (λ refusal. copied_from db files user.now c.rel c.columns c.constant ≡ Err refusal) result }
    ensures lawful { (db : Db) → B.database base.old ≡ Some db → IfOk result (λ change. IsLawful db change) }
    ensures kept { B.database base.new ≡ B.database base.old }
    ensures stays { (s : Db) → B.schema base.old ≡ Some s → B.schema base.new ≡ Some s }
    ensures asked { (b : B) → B.asked b base.old → B.asked b base.new }
    ensures files { H.files shelf.new ≡ H.files shelf.old }
    ensures cause { HasCopyCause (B.database base.old) (B.faults base.old) (B.faults base.new) (H.faults shelf.old) (H.faults shelf.new) result }
{
    match u {
        Utility::Copy {
            rel,
            columns,
            from: _,
            file,
        } => rows_from(alloc, base, shelf, user, rel, columns.items(), file.bytes()),
        _ => unreachable!(),
    }
}
