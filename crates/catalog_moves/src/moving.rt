//! The rows of the catalogues that go and come with a change.

ghost use Rattle.std.specs.Prelude.{◌≡◌, [], IfOk, OnOk};
ghost use Rattle.calculus.specs.Change.{IsLawful};
ghost use Rattle.calculus.specs.IsDatabase.{IsDatabase};
ghost use Rattle.stored_database.specs.Moves.{going, coming};
ghost use Rattle.plain_base.specs.Shown.{database_of};
ghost use Rattle.catalog_moves.specs.Bases.{IndexBases};
ghost use Rattle.catalog_moves.specs.Files.{files_of, files_after};
ghost use Rattle.catalog_moves.specs.Moves.{AreMoves, AreRows, AreShort, HavePlaces};

use crate::asked::place;
use crate::changed_relation::{put_modified, put_resized};
use crate::dropping::{put_dropped_permits, put_dropped_rules};
use crate::files::FileTable;
use crate::going::{put_all_destroyed, put_unmodified};
use crate::made_rows::{put_created, put_indexed, put_permitted, put_ruled, put_viewed};
use crate::rows::{Moves, SomeRows, moves_of};
use calculus::{DbChange, OutOfMemory};
use plain_base::DbPlain;
use std::alloc::Global;

/// Writes the rows that come, where there are no rows.
fn put_coming(
    alloc: Global,
    plain: &mut DbPlain,
    rows: &mut SomeRows,
    files: &FileTable,
    change: &DbChange,
    file: u32,
    used: u32,
) -> Result<(), OutOfMemory>
    requires lawful { IsLawful (database_of plain.old) change.now }
    requires base { IsDatabase (database_of plain.old) }
    ensures same { database_of plain.new ≡ database_of plain.old }
    ensures rows { AreRows (record { entries = []; columns = []; parts = [] }) rows.old → OnOk result (AreRows (coming (files_of files.now) (files_after change.now file used (files_of files.now)) (database_of plain.old) change.now) rows.new) }
{
    match change {
        DbChange::Rows {
            rel,
            remove: _,
            add: _,
        } => {
            let differ = place(files, rel).1 != used;
            put_resized(alloc, plain, rows, rel, differ, file, used)
        }
        DbChange::Create { info, rows: _ } => put_created(alloc, rows, info, file, used),
        DbChange::Destroy { rels: _ } => Ok(()),
        DbChange::Modify { rel, to, keys } => {
            put_modified(alloc, plain, rows, rel, *to, keys, file, used)
        }
        DbChange::Index { base, name, keys } => {
            put_indexed(alloc, rows, base, name, keys, file, place(files, base).0)
        }
        DbChange::View { info, query } => put_viewed(alloc, rows, info, query, file),
        DbChange::Permit { rel, permit } => {
            put_permitted(alloc, rows, permit, place(files, rel).0)
        }
        DbChange::Rule { rel, rule } => put_ruled(alloc, rows, rule, place(files, rel).0),
        DbChange::DropPermits { rel: _, numbers: _ } => Ok(()),
        DbChange::DropRules { rel: _, numbers: _ } => Ok(()),
    }
}

/// Writes the rows that go, where there are no rows.
fn put_going(
    alloc: Global,
    plain: &mut DbPlain,
    rows: &mut SomeRows,
    files: &FileTable,
    change: &DbChange,
    file: u32,
    used: u32,
) -> Result<(), OutOfMemory>
    requires lawful { IsLawful (database_of plain.old) change.now }
    requires base { IsDatabase (database_of plain.old) }
    ensures same { database_of plain.new ≡ database_of plain.old }
    ensures rows { AreRows (record { entries = []; columns = []; parts = [] }) rows.old → IndexBases files.now (database_of plain.old) → OnOk result (AreRows (going (files_of files.now) (files_after change.now file used (files_of files.now)) (database_of plain.old) change.now) rows.new) }
{
    match change {
        DbChange::Rows {
            rel,
            remove: _,
            add: _,
        } => {
            let lies = place(files, rel);
            put_resized(alloc, plain, rows, rel, lies.1 != used, lies.0, lies.1)
        }
        DbChange::Create { info: _, rows: _ } => Ok(()),
        DbChange::Destroy { rels } => put_all_destroyed(alloc, plain, rows, files, rels.items()),
        DbChange::Modify {
            rel,
            to: _,
            keys: _,
        } => put_unmodified(alloc, plain, rows, files, rel),
        DbChange::Index {
            base: _,
            name: _,
            keys: _,
        } => Ok(()),
        DbChange::View { info: _, query: _ } => Ok(()),
        DbChange::Permit { rel: _, permit: _ } => Ok(()),
        DbChange::Rule { rel: _, rule: _ } => Ok(()),
        DbChange::DropPermits { rel, numbers } => {
            let below = place(files, rel).0;
            put_dropped_permits(alloc, plain, rows, rel, numbers.items(), below)
        }
        DbChange::DropRules { rel, numbers } => {
            let below = place(files, rel).0;
            put_dropped_rules(alloc, plain, rows, rel, numbers.items(), below)
        }
    }
}

/// Writes the rows that go and those that come, where there are no rows.
fn put_moves(
    alloc: Global,
    plain: &mut DbPlain,
    leaving: &mut SomeRows,
    entering: &mut SomeRows,
    files: &FileTable,
    change: &DbChange,
    file: u32,
    used: u32,
) -> Result<(), OutOfMemory>
    requires { IsLawful (database_of plain.old) change.now }
    ensures same { database_of plain.new ≡ database_of plain.old }
    ensures come { AreRows (record { entries = []; columns = []; parts = [] }) entering.old → OnOk result (AreRows (coming (files_of files.now) (files_after change.now file used (files_of files.now)) (database_of plain.old) change.now) entering.new) }
    ensures go { AreRows (record { entries = []; columns = []; parts = [] }) leaving.old → IndexBases files.now (database_of plain.old) → OnOk result (AreRows (going (files_of files.now) (files_after change.now file used (files_of files.now)) (database_of plain.old) change.now) leaving.new) }
{
    put_coming(alloc, plain, entering, files, change, file, used)?;
    put_going(alloc, plain, leaving, files, change, file, used)
}

/// The rows of the catalogues that go and come with a lawful change of a database, where what it makes
/// has this file and so many pages, and what it changes so many. A tree of more parts than there are
/// places for answers want of memory.
pub fn moves(
    alloc: Global,
    plain: &mut DbPlain,
    files: &FileTable,
    change: &DbChange,
    file: u32,
    used: u32,
) -> Result<Moves, OutOfMemory>
    requires { IsLawful (database_of plain.old) change.now }
    ensures same { database_of plain.new ≡ database_of plain.old }
    ensures moves { IndexBases files.now (database_of plain.old) → IfOk result (λ m. AreMoves
        (going (files_of files.now) (files_after change.now file used (files_of files.now)) (database_of plain.old) change.now)
        (coming (files_of files.now) (files_after change.now file used (files_of files.now)) (database_of plain.old) change.now) m) }
    ensures short { IfOk result (λ m. AreShort m) }
    ensures places { IfOk result (λ m. HavePlaces
        (coming (files_of files.now) (files_after change.now file used (files_of files.now)) (database_of plain.old) change.now)) }
{
    let mut leaving = SomeRows::new(alloc);
    let mut entering = SomeRows::new(alloc);
    put_moves(
        alloc,
        plain,
        &mut leaving,
        &mut entering,
        files,
        change,
        file,
        used,
    )?;
    Ok(moves_of(leaving, entering))
}
