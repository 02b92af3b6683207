//! Where what a change makes or changes lies, and the pages of relations that it changes or makes.

ghost use Rattle.std.specs.Prelude.{◌≡◌, ◌^◌, ◌<◌, Some, IfOk};
ghost use Rattle.am_traits.specs.Causes.{HasFileCause};
ghost use Rattle.calculus.specs.Change.{IsLawful};
ghost use Rattle.calculus.specs.Database.{Db};
ghost use Rattle.calculus.specs.declared.change.DbChange.TheVariants.{Rows, Create};
ghost use Rattle.disk_model.specs.Disk.{Image};
ghost use Rattle.plain_base.specs.Shown.{database_of};
ghost use Rattle.catalog_moves.specs.Files.{files_of};
ghost use Rattle.catalog.specs.Laid.{HasMade, IsPlaced, MayTake, NoneMayTake, PutsNoRows};
ghost use Rattle.catalog_laws.specs.Placed.{IsFree, Suits};

use crate::files::{file_with, relation_file};
use crate::spots::SpotTable;
use am_traits::PageStore;
use base_trait::BaseFault;
use calculus::{DbChange, OutOfMemory, RelInfo, RelKey, Row};
use catalog_moves::FileTable;
use plain_base::DbPlain;
use relation_rows::{build_rows, change_rows};
use std::alloc::Global;

/// The file of what a change makes or changes, and how many pages it has.
#[derive(Clone, Copy)]
pub(crate) struct Given {
    pub(crate) file: u32,
    pub(crate) used: u32,
}

/// What nothing is made or changed for.
const NOTHING: Given = Given { file: 0, used: 0 };

/// This file, and so many pages.
fn place_with(file: u32, used: u32) -> Given
    ensures file { result.file ≡ file }
    ensures used { result.used ≡ used }
    ensures few { used < 2 ^ 32 }
{
    Given { file, used }
}

/// Rows of a relation go from its pages and others come.
fn change_relation<S: PageStore>(
    alloc: Global,
    store: &mut S,
    spots: &mut SpotTable,
    plain: &mut DbPlain,
    files: &FileTable,
    rel: &RelKey,
    remove: &[Row],
    add: &[Row],
) -> Result<Given, BaseFault>
    requires { IsLawful (database_of plain.old) (Rows rel.now remove.now add.now) }
    ensures same { database_of plain.new ≡ database_of plain.old }
    ensures made { (m : Image) (db : Db) → S.pages store.old ≡ Some m → MayTake (database_of plain.old) db (files_of files.now) (Rows rel.now remove.now add.now) m
        → IfOk result (λ given. HasMade (Rows rel.now remove.now add.now) db (files_of files.now) given.file given.used m (S.pages store.new)) }
    ensures came { (s : S) → S.came s store.old → S.came s store.new }
    ensures cause { HasFileCause (S.pages store.old) (NoneMayTake (database_of plain.old) (files_of files.now) (Rows rel.now remove.now add.now)) (S.faults store.old) (S.faults store.new) result }
{
    let Some(file) = relation_file(alloc, plain, files, rel)? else {
        return Err(BaseFault::Damaged { file: 5, page: 0 });
    };
    let number = file.file;
    let mut seen = spots.take(alloc, number);
    let used = change_rows(alloc, store, file, &mut seen, remove, add)?;
    spots.put(number, seen)?;
    Ok(place_with(number, used))
}

/// A file that nothing has. Where the numbers are used up it answers want of memory.
fn new_file(files: &FileTable) -> Result<u32, OutOfMemory>
    ensures { IfOk result (λ file. IsFree (files_of files.now) file) }
{
    match files.free_file() {
        Some(file) => Ok(file),
        None => Err(OutOfMemory),
    }
}

/// A relation is made in a new file, with these rows.
fn make_relation<S: PageStore>(
    alloc: Global,
    store: &mut S,
    plain: &DbPlain,
    files: &FileTable,
    info: &RelInfo,
    rows: &[Row],
) -> Result<Given, BaseFault>
    requires { IsLawful (database_of plain.now) (Create info.now rows.now) }
    ensures made { (m : Image) (db : Db) → S.pages store.old ≡ Some m → MayTake (database_of plain.now) db (files_of files.now) (Create info.now rows.now) m
        → IfOk result (λ given. HasMade (Create info.now rows.now) db (files_of files.now) given.file given.used m (S.pages store.new)) }
    ensures came { (s : S) → S.came s store.old → S.came s store.new }
    ensures cause { HasFileCause (S.pages store.old) (NoneMayTake (database_of plain.now) (files_of files.now) (Create info.now rows.now)) (S.faults store.old) (S.faults store.new) result }
{
    let number = new_file(files)?;
    let Some(file) = file_with(alloc, info, number, 0)? else {
        return Err(BaseFault::OutOfMemory);
    };
    let used = build_rows(alloc, store, file, rows)?;
    Ok(place_with(number, used))
}

/// The file and the pages that a relation has.
pub(crate) fn same_place(files: &FileTable, rel: &RelKey) -> Given
    ensures file { result.file ≡ (files_of files.now).file rel.now }
    ensures used { result.used ≡ (files_of files.now).used rel.now }
{
    match files.place(rel) {
        Some((file, used)) => Given { file, used },
        None => NOTHING,
    }
}

/// Where what a change makes lies, or what it changes, by the catalogue alone.
#[tactic(auto, unfolding(crate::specs::Laid::IsPlaced, crate::specs::Laid::PutsNoRows, catalog_laws::specs::Placed::Suits))]
pub(crate) fn place_of(files: &FileTable, change: &DbChange) -> Result<Given, OutOfMemory>
    ensures suits { IfOk result (λ given. PutsNoRows change.now → Suits change.now (files_of files.now) given.file given.used) }
    ensures placed { IfOk result (λ given. IsPlaced change.now (files_of files.now) given.file given.used) }
{
    match change {
        DbChange::Rows {
            rel,
            remove: _,
            add: _,
        } => Ok(same_place(files, rel)),
        DbChange::Create { info: _, rows: _ } => {
            let file = new_file(files)?;
            Ok(Given { file, used: 1 })
        }
        DbChange::Destroy { rels: _ } => Ok(NOTHING),
        DbChange::Modify {
            rel,
            to: _,
            keys: _,
        } => Ok(same_place(files, rel)),
        DbChange::Index {
            base: _,
            name: _,
            keys: _,
        } => {
            let file = new_file(files)?;
            Ok(Given { file, used: 0 })
        }
        DbChange::View { info: _, query: _ } => {
            let file = new_file(files)?;
            Ok(Given { file, used: 0 })
        }
        DbChange::Permit { rel: _, permit: _ } => Ok(NOTHING),
        DbChange::Rule { rel: _, rule: _ } => Ok(NOTHING),
        DbChange::DropPermits { rel: _, numbers: _ } => Ok(NOTHING),
        DbChange::DropRules { rel: _, numbers: _ } => Ok(NOTHING),
    }
}

/// Puts the pages of the relation whose rows a change changes, or that it makes, and says where what it
/// makes or changes lies.
pub(crate) fn make_pages<S: PageStore>(
    alloc: Global,
    store: &mut S,
    spots: &mut SpotTable,
    plain: &mut DbPlain,
    files: &FileTable,
    change: &DbChange,
) -> Result<Given, BaseFault>
    requires { IsLawful (database_of plain.old) change.now }
    ensures same { database_of plain.new ≡ database_of plain.old }
    ensures made { (m : Image) (db : Db) → S.pages store.old ≡ Some m → MayTake (database_of plain.old) db (files_of files.now) change.now m
        → IfOk result (λ given. HasMade change.now db (files_of files.now) given.file given.used m (S.pages store.new)) }
    ensures came { (s : S) → S.came s store.old → S.came s store.new }
    ensures cause { HasFileCause (S.pages store.old) (NoneMayTake (database_of plain.old) (files_of files.now) change.now) (S.faults store.old) (S.faults store.new) result }
{
    match change {
        DbChange::Rows { rel, remove, add } => {
            change_relation(
                alloc,
                store,
                spots,
                plain,
                files,
                rel,
                remove.items(),
                add.items(),
            )
        }
        DbChange::Create { info, rows } => {
            make_relation(alloc, store, plain, files, info, rows.items())
        }
        _ => Ok(place_of(files, change)?),
    }
}
