//! The rows of the catalogues that go and come where something gets another file.

ghost use Rattle.std.specs.Prelude.{◌≡◌, ◌∷◌, [], true, IfOk, OnOk};
ghost use Rattle.calculus.specs.Database.{is_there};
ghost use Rattle.stored_database.specs.Moves.{destroyed, rows_of};
ghost use Rattle.plain_base.specs.Shown.{database_of};
ghost use Rattle.catalog_moves.specs.Bases.{IndexBases};
ghost use Rattle.catalog_moves.specs.Files.{files_of, places_of, with_file};
ghost use Rattle.catalog_moves.specs.Moves.{AreMoves, AreRows, AreShort, FitOnPages, HavePlaces};
ghost use Rattle.catalog_moves.specs.Renumbered.{MayTakeFile, renumbered};

use crate::files::FileTable;
use crate::going::put_all_destroyed;
use crate::rows::{Moves, SomeRows, moves_of};
use calculus::{OutOfMemory, RelKey};
use plain_base::DbPlain;
use std::alloc::Global;
use std::slice;

/// Writes the rows that go and those that come, where there are no rows. The table says the file
/// afterwards.
fn put_renumbered(
    alloc: Global,
    plain: &mut DbPlain,
    leaving: &mut SomeRows,
    entering: &mut SomeRows,
    files: &mut FileTable,
    key: &RelKey,
    file: u32,
    used: u32,
) -> Result<(), OutOfMemory>
    ensures same { database_of plain.new ≡ database_of plain.old }
    ensures table { OnOk result (places_of files.new ≡ renumbered key.now file used (places_of files.old)) }
    ensures go { AreRows (record { entries = []; columns = []; parts = [] }) leaving.old → IndexBases files.old (database_of plain.old)
        → OnOk result (AreRows (rows_of (files_of files.old) (destroyed (key.now ∷ []) (database_of plain.old))) leaving.new) }
    ensures come { AreRows (record { entries = []; columns = []; parts = [] }) entering.old → IndexBases files.old (database_of plain.old)
        → is_there (database_of plain.old) key.now ≡ true → MayTakeFile key.now file (files_of files.old)
        → OnOk result (AreRows (rows_of (files_of files.new) (destroyed (key.now ∷ []) (database_of plain.old))) entering.new) }
    ensures short { FitOnPages entering.old → OnOk result (FitOnPages entering.new) }
{
    let keys = slice::from_ref(key);
    put_all_destroyed(alloc, plain, leaving, files, keys)?;
    files.renumber(key, file, used);
    put_all_destroyed(alloc, plain, entering, files, keys)
}

/// What stands under a key gets another file, or another number of pages: the rows of the catalogues
/// that go and come with it. The table says it afterwards. After want of memory the table is to be
/// forgotten.
pub fn renumber(
    alloc: Global,
    plain: &mut DbPlain,
    files: &mut FileTable,
    key: &RelKey,
    file: u32,
    used: u32,
) -> Result<Moves, OutOfMemory>
    ensures same { database_of plain.new ≡ database_of plain.old }
    ensures files { IndexBases files.old (database_of plain.old) → is_there (database_of plain.old) key.now ≡ true
        → OnOk result (files_of files.new ≡ with_file key.now file used (files_of files.old)) }
    ensures bases { IndexBases files.old (database_of plain.old) → is_there (database_of plain.old) key.now ≡ true → MayTakeFile key.now file (files_of files.old)
        → OnOk result (IndexBases files.new (database_of plain.old)) }
    ensures moves { IndexBases files.old (database_of plain.old) → is_there (database_of plain.old) key.now ≡ true → MayTakeFile key.now file (files_of files.old)
        → IfOk result (λ m. AreMoves (rows_of (files_of files.old) (destroyed (key.now ∷ []) (database_of plain.old))) (rows_of (files_of files.new) (destroyed (key.now ∷ []) (database_of plain.old))) m) }
    ensures short { IfOk result (λ m. AreShort m) }
    ensures places { IndexBases files.old (database_of plain.old) → is_there (database_of plain.old) key.now ≡ true → MayTakeFile key.now file (files_of files.old)
        → IfOk result (λ m. HavePlaces (rows_of (files_of files.new) (destroyed (key.now ∷ []) (database_of plain.old)))) }
{
    let mut leaving = SomeRows::new(alloc);
    let mut entering = SomeRows::new(alloc);
    put_renumbered(
        alloc,
        plain,
        &mut leaving,
        &mut entering,
        files,
        key,
        file,
        used,
    )?;
    Ok(moves_of(leaving, entering))
}
