//! The rows of what goes.

ghost use Rattle.std.specs.Prelude.{◌≡◌, ◌∷◌, [], Some, filter, map, IfOk, OnOk};
ghost use Rattle.std.specs.List.{AllByRecursion, flat_map};
ghost use Rattle.calculus.specs.Database.{Relation, relation_at};
ghost use Rattle.calculus.specs.IsDatabase.{IsDatabase};
ghost use Rattle.calculus.specs.Keys.{has_key, same_key};
ghost use Rattle.calculus.specs.declared.query.RelKey.{RelKey as Key};
ghost use Rattle.stored_database.specs.Moves.{destroyed as what_is_destroyed, rows_of};
ghost use Rattle.page_chain.specs.Lying.{IsShort};
ghost use Rattle.plain_base.specs.Shown.{database_of};
ghost use Rattle.stored_database.specs.Columns.{column_bytes};
ghost use Rattle.stored_database.specs.Entries.{entry_bytes};
ghost use Rattle.stored_database.specs.Printed.{entries_for, columns_for, parts_for, index_entry};
ghost use Rattle.catalog_moves.specs.Bases.{IndexBases, index_entries, rows_on};
ghost use Rattle.catalog_moves.specs.Files.{files_of, is_in};
ghost use Rattle.catalog_moves.specs.Moves.{AreRows, Came, CameParts, FitOnPages, entry_with};

use crate::asked::{known, place};
use crate::changed_relation::put_relation;
use crate::files::{FilePlace, FileTable};
use crate::gone::{Sort, put_all_gone};
use crate::gone_trees::{TreeSort, put_all_trees};
use crate::key_set::KeySet;
use crate::rows::SomeRows;
use crate::writing::put_entry;
use calculus::{List, OutOfMemory, RelKey};
use plain_base::DbPlain;
use std::alloc::Global;

/// Writes the entry of the index at a place.
fn put_index(
    alloc: Global,
    plain: &mut DbPlain,
    rows: &mut Vec<List<u8>>,
    place: &FilePlace,
) -> Result<(), OutOfMemory>
    ensures same { database_of plain.new ≡ database_of plain.old }
    ensures came { OnOk result (Came rows.old.items rows.new.items (map entry_bytes (index_entries (database_of plain.old) place.now))) }
{
    match known(alloc, plain, &place.key)? {
        Some(info) => put_entry(alloc, rows, &info, place.file, place.base, 0, 0),
        None => Err(OutOfMemory),
    }
}

/// Writes the entry at a place, where it is that of an index on the relation with this file.
fn put_on(
    alloc: Global,
    plain: &mut DbPlain,
    rows: &mut Vec<List<u8>>,
    place: &FilePlace,
    base: u32,
) -> Result<(), OutOfMemory>
    ensures same { database_of plain.new ≡ database_of plain.old }
    ensures came { OnOk result (Came rows.old.items rows.new.items (rows_on base (database_of plain.old) place.now)) }
{
    if place.base != base {
        return Ok(());
    }
    put_index(alloc, plain, rows, place)
}

/// Writes the entries of the indexes on the relation with this file.
fn put_indexes(
    alloc: Global,
    plain: &mut DbPlain,
    rows: &mut Vec<List<u8>>,
    places: &[FilePlace],
    base: u32,
) -> Result<(), OutOfMemory>
    ensures same { database_of plain.new ≡ database_of plain.old }
    ensures came { OnOk result (Came rows.old.items rows.new.items (flat_map (rows_on base (database_of plain.old)) places.now)) }
{
    for place in places {
        put_on(alloc, plain, rows, place, base)?;
    }
    Ok(())
}

/// Writes the rows of a relation and its indexes, where there are no rows.
pub(crate) fn put_unmodified(
    alloc: Global,
    plain: &mut DbPlain,
    rows: &mut SomeRows,
    files: &FileTable,
    rel: &RelKey,
) -> Result<(), OutOfMemory>
    requires { IsDatabase (database_of plain.old) }
    ensures same { database_of plain.new ≡ database_of plain.old }
    ensures rows { AreRows (record { entries = []; columns = []; parts = [] }) rows.old → (r : Relation) → relation_at (database_of plain.old) rel.now ≡ Some r → IndexBases files.now (database_of plain.old) → OnOk result (AreRows (record {
      entries = entry_with ((files_of files.now).file rel.now) 0 1 ((files_of files.now).used rel.now) r.info
          ∷ map (index_entry (files_of files.now)) (filter (λ x. same_key x.base rel.now) (database_of plain.old).indexes);
      columns = [];
      parts = [];
    }) rows.new) }
{
    let lies = place(files, rel);
    put_relation(alloc, plain, rows, rel, lies.0, lies.1)?;
    put_indexes(alloc, plain, &mut rows.entries, &files.places, lies.0)
}

/// Writes the entries and the attributes of what is destroyed: of relations, views and indexes.
fn put_destroyed(
    alloc: Global,
    plain: &mut DbPlain,
    rows: &mut SomeRows,
    files: &FileTable,
    listed: &KeySet,
    rels: &[RelKey],
) -> Result<(), OutOfMemory>
    requires base { IsDatabase (database_of plain.old) }
    requires listed { (key : Key) → is_in listed.now key ≡ has_key rels.now key }
    ensures same { database_of plain.new ≡ database_of plain.old }
    ensures entries { IndexBases files.now (database_of plain.old) → OnOk result (Came rows.old.entries.items rows.new.entries.items
        (map entry_bytes (entries_for (files_of files.now) (what_is_destroyed rels.now (database_of plain.old))))) }
    ensures columns { IndexBases files.now (database_of plain.old) → OnOk result (Came rows.old.columns.items rows.new.columns.items
        (map column_bytes (columns_for (files_of files.now) (what_is_destroyed rels.now (database_of plain.old))))) }
    ensures parts { rows.new.parts.items ≡ rows.old.parts.items }
    ensures short { FitOnPages rows.old → OnOk result (FitOnPages rows.new) }
{
    put_all_gone(alloc, plain, rows, files, listed, rels, Sort::Relation)?;
    put_all_gone(alloc, plain, rows, files, listed, rels, Sort::View)?;
    put_all_gone(alloc, plain, rows, files, listed, rels, Sort::Index)
}

/// Writes the trees of what is destroyed: of views, rules and permits.
fn put_destroyed_trees(
    alloc: Global,
    plain: &mut DbPlain,
    rows: &mut Vec<List<u8>>,
    files: &FileTable,
    listed: &KeySet,
    rels: &[RelKey],
) -> Result<(), OutOfMemory>
    requires base { IsDatabase (database_of plain.old) }
    requires listed { (key : Key) → is_in listed.now key ≡ has_key rels.now key }
    ensures same { database_of plain.new ≡ database_of plain.old }
    ensures came { IndexBases files.now (database_of plain.old) → OnOk result (CameParts rows.old.items rows.new.items
        (parts_for (files_of files.now) (what_is_destroyed rels.now (database_of plain.old)))) }
    ensures short { AllByRecursion (λ row. IsShort row) rows.old.items → OnOk result (AllByRecursion (λ row. IsShort row) rows.new.items) }
{
    put_all_trees(alloc, plain, rows, files, listed, rels, TreeSort::View)?;
    put_all_trees(alloc, plain, rows, files, listed, rels, TreeSort::Rule)?;
    put_all_trees(alloc, plain, rows, files, listed, rels, TreeSort::Permit)
}

/// The set of these keys.
fn set_of(alloc: Global, rels: &[RelKey]) -> Result<KeySet, OutOfMemory>
    ensures { IfOk result (λ set. (key : Key) → is_in set key ≡ has_key rels.now key) }
{
    let mut set = KeySet::new(alloc);
    for rel in rels {
        set.insert(alloc, rel)?;
    }
    Ok(set)
}

/// Writes the rows of what is destroyed, where there are no rows.
pub(crate) fn put_all_destroyed(
    alloc: Global,
    plain: &mut DbPlain,
    rows: &mut SomeRows,
    files: &FileTable,
    rels: &[RelKey],
) -> Result<(), OutOfMemory>
    requires { IsDatabase (database_of plain.old) }
    ensures same { database_of plain.new ≡ database_of plain.old }
    ensures rows { AreRows (record { entries = []; columns = []; parts = [] }) rows.old → IndexBases files.now (database_of plain.old) → OnOk result (AreRows (rows_of (files_of files.now) (what_is_destroyed rels.now (database_of plain.old))) rows.new) }
    ensures short { FitOnPages rows.old → OnOk result (FitOnPages rows.new) }
{
    let listed = set_of(alloc, rels)?;
    put_destroyed(alloc, plain, rows, files, &listed, rels)?;
    put_destroyed_trees(alloc, plain, &mut rows.parts, files, &listed, rels)
}
