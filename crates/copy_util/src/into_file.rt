//! Copies rows into a file.

ghost use Rattle.std.specs.Prelude.{◌≡◌, [], true, false, IsTrue, IfOk, IfErr, OnOk, Some, Ok, Err};
ghost use Rattle.calculus.specs.Database.{Db};
ghost use Rattle.calculus.specs.Stored.{rows_at};
ghost use Rattle.calculus.specs.declared.request.Checked.TheVariants as checked;
ghost use Rattle.base_trait.specs.Causes.{HasCause};
ghost use Rattle.base_trait.specs.declared.fault.BaseFault.TheVariants.{Damaged};
ghost use Rattle.fault_io.specs.Files.{Files, stored};
ghost use Rattle.quel_meaning.specs.Copying.{copied_into, file_of_constant, file_of_rows};
ghost use Rattle.quel_meaning.specs.Fit.{is_fit};
ghost use Rattle.copy_util.specs.Causes.{Copies, HasBaseCause, HasCopyCause, HasShelfCause};
ghost use Rattle.copy_util.specs.Copies.{IsCopy};
ghost use Rattle.copy_util.specs.Reading.{have_forms, up_to_bad};
ghost use Rattle.copy_util.specs.Stored.{IsStored, MayBeCopied, SparesFiles};
ghost use Rattle.copy_util.specs.Writing.{IsFileOfRows, IsLarge};

use crate::CopyFault;
use crate::file_name::file_of_constant;
use crate::forms::have_forms;
use crate::rows_written::push_rows;
use base_trait::{Base, BaseFault};
use calculus::{CopyCol, Name, RelKey, Utility};
use fault_io::Shelf;
use ovqp::rows_of;
use std::alloc::Global;
use utilities::owner_refusal;

/// The number of a row. No database has so many rows that one's number doesn't fit.
fn row_number(row: Option<usize>) -> Result<Option<u32>, BaseFault>
    ensures same { IfOk result (λ number. number ≡ row) }
    ensures large { IfErr result (λ fault. (fault ≡ Damaged 0 0) × IsLarge row) }
{
    match row {
        None => Ok(None),
        Some(row) => match u32::try_from(row) {
            Ok(number) => Ok(Some(number)),
            Err(_) => Err(BaseFault::Damaged { file: 0, page: 0 }),
        },
    }
}

/// Puts the file of the rows of a relation into an empty list of bytes, and answers the number of the
/// first bad row, where there is one.
fn put_rows<B: Base>(
    alloc: Global,
    base: &mut B,
    rel: &RelKey,
    columns: &[CopyCol],
    out: &mut Vec<u8>,
) -> Result<Option<u32>, BaseFault>
    requires forms { IsTrue (have_forms columns.now) }
    requires empty { out.old.items ≡ [] }
    ensures known { (db : Db) → B.database base.old ≡ Some db → IfOk result (λ bad. file_of_rows columns.now (rows_at db rel.now) ≡ up_to_bad out.new.items bad) }
    ensures some { IfOk result (λ bad. IsFileOfRows columns.now out.new.items bad) }
    ensures kept { B.database base.new ≡ B.database base.old }
    ensures stays { (s : Db) → B.schema base.old ≡ Some s → B.schema base.new ≡ Some s }
    ensures asked { (b : B) → B.asked b base.old → B.asked b base.new }
    ensures cause { HasCause (B.database base.old) (B.faults base.old) (B.faults base.new) result }
{
    match rows_of(alloc, base, rel) {
        Ok(set) => {
            let bad = push_rows(out, columns, set.rows());
            drop(set);
            row_number(bad?)
        }
        Err(fault) => Err(fault),
    }
}

/// Puts the file of a relation of the user's into an empty list of bytes.
fn put_file<B: Base>(
    alloc: Global,
    base: &mut B,
    user: &Name,
    rel: &RelKey,
    columns: &[CopyCol],
    out: &mut Vec<u8>,
) -> Result<(), CopyFault>
    requires forms { IsTrue (have_forms columns.now) }
    requires empty { out.old.items ≡ [] }
    ensures known { (db : Db) → B.database base.old ≡ Some db
        → Copies (λ done. copied_into db user.now rel.now columns.now ≡ Ok out.new.items) (λ refusal. copied_into db user.now rel.now columns.now ≡ Err refusal) result }
    ensures some { OnOk result (MayBeCopied user.now rel.now columns.now out.new.items) }
    ensures kept { B.database base.new ≡ B.database base.old }
    ensures stays { (s : Db) → B.schema base.old ≡ Some s → B.schema base.new ≡ Some s }
    ensures asked { (b : B) → B.asked b base.old → B.asked b base.new }
    ensures cause { HasBaseCause (B.database base.old) (B.faults base.old) (B.faults base.new) result }
{
    match owner_refusal(alloc, base, user, rel) {
        Ok(None) => match put_rows(alloc, base, rel, columns, out) {
            Ok(None) => Ok(()),
            Ok(Some(row)) => Err(CopyFault::BadRow { row }),
            Err(fault) => Err(CopyFault::Base(fault)),
        },
        Ok(Some(cause)) => Err(CopyFault::No(cause)),
        Err(fault) => Err(CopyFault::Base(fault)),
    }
}

/// Stores bytes as the file that a constant names.
fn store_file<H: Shelf>(
    alloc: Global,
    shelf: &mut H,
    constant: &[u8],
    bytes: &[u8],
) -> Result<(), CopyFault>
    ensures known { (files : Files) → H.files shelf.old ≡ Some files → IsStored (Ok bytes.now) (file_of_constant constant.now) files (H.files shelf.new) result }
    ensures cause { HasShelfCause (H.faults shelf.old) (H.faults shelf.new) result }
{
    let name = file_of_constant(alloc, constant)?;
    match shelf.store(&name, bytes) {
        Ok(()) => Ok(()),
        Err(_) => Err(CopyFault::Shelf),
    }
}

/// Stores the rows of a relation of the user's as the file that a constant names. Columns that no fit
/// request has are `Damaged`.
fn store_rows<B: Base, H: Shelf>(
    alloc: Global,
    base: &mut B,
    shelf: &mut H,
    user: &Name,
    rel: &RelKey,
    columns: &[CopyCol],
    constant: &[u8],
) -> Result<(), CopyFault>
    requires fits { (db : Db) → B.database base.old ≡ Some db → have_forms columns.now ≡ true }
    ensures known { (db : Db) (files : Files) → B.database base.old ≡ Some db → H.files shelf.old ≡ Some files
        → IsStored (copied_into db user.now rel.now columns.now) (file_of_constant constant.now) files (H.files shelf.new) result }
    ensures spares { (files : Files) → H.files shelf.old ≡ Some files → SparesFiles user.now rel.now columns.now (file_of_constant constant.now) files (H.files shelf.new) result }
    ensures kept { B.database base.new ≡ B.database base.old }
    ensures stays { (s : Db) → B.schema base.old ≡ Some s → B.schema base.new ≡ Some s }
    ensures asked { (b : B) → B.asked b base.old → B.asked b base.new }
    ensures cause { HasCopyCause (B.database base.old) (B.faults base.old) (B.faults base.new) (H.faults shelf.old) (H.faults shelf.new) result }
{
    if !have_forms(columns) {
        return Err(CopyFault::Base(BaseFault::Damaged { file: 0, page: 0 }));
    }
    let mut bytes = Vec::new(alloc);
    match put_file(alloc, base, user, rel, columns, &mut bytes) {
        Ok(()) => store_file(alloc, shelf, constant, &bytes),
        Err(refused) => Err(refused),
    }
}

/// Stores the rows of a relation of the user's as a file, a record for each, ascending. Refused in this
/// order: 28, 26 and 24 by the relation; `BadRow` with the first row that is bad. A file is stored only
/// where no row is bad, and then whole. Columns that no request has which fits a database are `Damaged`.
pub fn copy_into<B: Base, H: Shelf>(
    alloc: Global,
    base: &mut B,
    shelf: &mut H,
    user: &Name,
    u: &Utility,
) -> Result<(), CopyFault>
    requires copies { IsCopy u.now false }
    requires fits { (db : Db) → B.database base.old ≡ Some db → is_fit db user.now (checked.Utility u.now) ≡ true }
    ensures known { (db : Db) (files : Files) → B.database base.old ≡ Some db → H.files shelf.old ≡ Some files → (c : IsCopy u.now false)
        → IsStored (copied_into db user.now c.rel c.columns) (file_of_constant c.constant) files (H.files shelf.new) result }
    // Whatever is known of the database, no file differs but the one that is stored, and its bytes are those of some rows.
    ensures spares { (files : Files) → H.files shelf.old ≡ Some files → (c : IsCopy u.now false)
        → SparesFiles user.now c.rel c.columns (file_of_constant c.constant) files (H.files shelf.new) result }
    ensures kept { B.database base.new ≡ B.database base.old }
    ensures stays { (s : Db) → B.schema base.old ≡ Some s → B.schema base.new ≡ Some s }
    ensures asked { (b : B) → B.asked b base.old → B.asked b base.new }
    ensures cause { HasCopyCause (B.database base.old) (B.faults base.old) (B.faults base.new) (H.faults shelf.old) (H.faults shelf.new) result }
{
    match u {
        Utility::Copy {
            rel,
            columns,
            from: _,
            file,
        } => store_rows(alloc, base, shelf, user, rel, columns.items(), file.bytes()),
        _ => unreachable!(),
    }
}
