//! A change is applied in memory.

ghost use Rattle.std.specs.Prelude.{◌≡◌, OnOk};
ghost use Rattle.calculus.specs.Change.{IsLawful};
ghost use Rattle.calculus.specs.declared.query.RelKey.{RelKey as Key};
ghost use Rattle.calculus.specs.Keys.{key_of};
ghost use Rattle.calculus.specs.Lists.{insert_by};
ghost use Rattle.plain_base.specs.Shown.{database_of};
ghost use Rattle.catalog_moves.specs.Files.{by_place, files_of, is_in, places_of};
ghost use Rattle.catalog_laws.specs.Loaded.{known_after};
ghost use Rattle.catalog.specs.Laid.{IsKept};
ghost use Rattle.catalog.specs.Places.{left_all, left_below, left_one, places_after};

use crate::catalog::Catalog;
use crate::placing::{Given, same_place};
use calculus::{DbChange, Name, OutOfMemory, RelKey, TryCopy};
use catalog_moves::{FileTable, KeySet};
use std::alloc::Global;

/// The relations whose rows are known after a change.
#[tactic(auto, unfolding(catalog_laws::specs::Loaded::known_after))]
fn keep_loaded(alloc: Global, loaded: &mut KeySet, change: &DbChange) -> Result<(), OutOfMemory>
    ensures { (key : Key) → OnOk result (is_in loaded.new key ≡ known_after change.now (is_in loaded.old) key) }
{
    match change {
        DbChange::Create { info, rows: _ } => loaded.insert(alloc, &info.key),
        DbChange::Rows {
            rel: _,
            remove: _,
            add: _,
        } => Ok(()),
        DbChange::Destroy { rels: _ } => Ok(()),
        DbChange::Modify {
            rel: _,
            to: _,
            keys: _,
        } => Ok(()),
        DbChange::Index {
            base: _,
            name: _,
            keys: _,
        } => Ok(()),
        DbChange::View { info: _, query: _ } => Ok(()),
        DbChange::Permit { rel: _, permit: _ } => Ok(()),
        DbChange::Rule { rel: _, rule: _ } => Ok(()),
        DbChange::DropPermits { rel: _, numbers: _ } => Ok(()),
        DbChange::DropRules { rel: _, numbers: _ } => Ok(()),
    }
}

/// The indexes on the relation with this file have no files any more; 0 is the file of none.
fn forget_below(files: &mut FileTable, file: u32)
    ensures { places_of files.new ≡ left_below file (places_of files.old) }
{
    if file != 0 {
        files.forget_indexes(file);
    }
}

/// What stood under a key has no file any more, nor have the indexes on it.
#[tactic(auto, unfolding(crate::specs::Places::left_one))]
fn forget_one(files: &mut FileTable, rel: &RelKey)
    ensures { places_of files.new ≡ left_one rel.now (places_of files.old) }
{
    let lies = same_place(files, rel);
    files.forget(rel);
    forget_below(files, lies.file);
}

/// What stood under these keys has no file any more, nor have the indexes on it.
fn forget_all(files: &mut FileTable, rels: &[RelKey])
    ensures { places_of files.new ≡ left_all rels.now (places_of files.old) }
{
    for rel in rels {
        forget_one(files, rel);
    }
}

/// The file of an index is said, on a relation.
fn put_index(
    alloc: Global,
    files: &mut FileTable,
    base: &RelKey,
    name: &Name,
    given: Given,
) -> Result<(), OutOfMemory>
    ensures { OnOk result (places_of files.new ≡ insert_by by_place (record { key = key_of base.now.owner name.now; file = given.file; used = given.used; base = (files_of files.old).file base.now }) (places_of files.old)) }
{
    let key = RelKey {
        owner: base.owner.copy(alloc)?,
        name: name.copy(alloc)?,
    };
    let below = same_place(files, base);
    files.put(alloc, &key, given.file, given.used, below.file)
}

/// The files of what is there after a change.
#[tactic(auto, unfolding(crate::specs::Places::places_after))]
fn keep_files(
    alloc: Global,
    files: &mut FileTable,
    change: &DbChange,
    given: Given,
) -> Result<(), OutOfMemory>
    ensures { OnOk result (places_of files.new ≡ places_after change.now given.file given.used (places_of files.old)) }
{
    match change {
        DbChange::Rows {
            rel,
            remove: _,
            add: _,
        } => files.put(alloc, rel, given.file, given.used, 0),
        DbChange::Create { info, rows: _ } => {
            files.put(alloc, &info.key, given.file, given.used, 0)
        }
        DbChange::Destroy { rels } => {
            forget_all(files, rels.items());
            Ok(())
        }
        DbChange::Modify {
            rel,
            to: _,
            keys: _,
        } => {
            forget_below(files, given.file);
            files.put(alloc, rel, given.file, given.used, 0)
        }
        DbChange::Index {
            base,
            name,
            keys: _,
        } => put_index(alloc, files, base, name, given),
        DbChange::View { info, query: _ } => {
            files.put(alloc, &info.key, given.file, given.used, 0)
        }
        DbChange::Permit { rel: _, permit: _ } => Ok(()),
        DbChange::Rule { rel: _, rule: _ } => Ok(()),
        DbChange::DropPermits { rel: _, numbers: _ } => Ok(()),
        DbChange::DropRules { rel: _, numbers: _ } => Ok(()),
    }
}

impl Catalog {
    /// Applies a lawful change in memory, where what it makes or changes lies there.
    pub(crate) fn keep(
        &mut self,
        alloc: Global,
        change: &DbChange,
        given: Given,
    ) -> Result<(), OutOfMemory>
        requires { IsLawful (database_of self.old.plain) change.now }
        ensures { OnOk result (IsKept self.old self.new change.now given.file given.used) }
    {
        keep_files(alloc, &mut self.files, change, given)?;
        keep_loaded(alloc, &mut self.loaded, change)?;
        self.plain.apply_change(alloc, change)
    }
}
