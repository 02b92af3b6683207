//! The entries and attributes of what is destroyed.

ghost use Rattle.std.specs.Prelude.{◌≡◌, ◌∷◌, [], cond, map, OnOk};
ghost use Rattle.std.specs.List.{flat_map};
ghost use Rattle.calculus.specs.Keys.{has_key};
ghost use Rattle.plain_base.specs.Shown.{database_of};
ghost use Rattle.stored_database.specs.Columns.{column_bytes};
ghost use Rattle.stored_database.specs.Entries.{entry_bytes};
ghost use Rattle.stored_database.specs.Printed.{columns_from};
ghost use Rattle.calculus.specs.declared.query.RelKey.{RelKey as Key};
ghost use Rattle.catalog_moves.specs.Files.{files_of, places_of, is_in};
ghost use Rattle.catalog_moves.specs.Gone.{is_sort as fits_sort, primary_of, used_of, has_file as is_file_of, goes as does_go, gone_entries, gone_columns};
ghost use Rattle.catalog_moves.specs.Moves.{Came, entry_with};

use crate::asked::{known, place};
use crate::files::{FilePlace, FileTable};
use crate::key_set::KeySet;
use crate::rows::SomeRows;
use crate::trees::put_columns;
use crate::writing::put_entry;
use calculus::{OutOfMemory, RelInfo, RelKey, Spec};
use plain_base::DbPlain;
use std::alloc::Global;

/// What has an entry.
#[derive(Clone, Copy)]
pub(crate) enum Sort {
    /// A relation.
    Relation,
    /// A view.
    View,
    /// A secondary index.
    Index,
}

/// Whether what has this structure is of the sort.
fn is_sort(sort: Sort, spec: Spec) -> bool
    ensures { result ≡ fits_sort sort spec }
{
    match (sort, spec) {
        (Sort::Relation, Spec::Heap) => true,
        (Sort::Relation, Spec::Hash) => true,
        (Sort::Relation, Spec::Isam) => true,
        (Sort::View, Spec::View) => true,
        (Sort::Index, Spec::Index) => true,
        _ => false,
    }
}

/// The numbers of primary and of all pages in an entry of the sort.
fn pages_in(sort: Sort, used: u32) -> (u32, u32)
    ensures primary { result.0 ≡ primary_of sort }
    ensures used { result.1 ≡ used_of sort used }
{
    match sort {
        Sort::Relation => (1, used),
        Sort::View => (0, 0),
        Sort::Index => (0, 0),
    }
}

/// Whether the file is that of one of these.
fn has_file(rels: &[RelKey], files: &FileTable, file: u32) -> bool
    ensures { result ≡ is_file_of rels.now (files_of files.now) file }
{
    rels.iter().any(|rel| place(files, rel).0 == file)
}

/// Whether what lies at a place goes with these: it is one of them, or an index on one of them.
fn goes(listed: &KeySet, rels: &[RelKey], files: &FileTable, place: &FilePlace) -> bool
    requires listed { (key : Key) → is_in listed.now key ≡ has_key rels.now key }
    ensures { result ≡ does_go rels.now (files_of files.now) place.now }
{
    listed.has(&place.key) || (place.base != 0 && has_file(rels, files, place.base))
}

/// Writes the entry and the attributes of what lies at a place, where it is of the sort.
fn put_sort(
    alloc: Global,
    rows: &mut SomeRows,
    info: &RelInfo,
    place: &FilePlace,
    sort: Sort,
) -> Result<(), OutOfMemory>
    ensures entries { OnOk result (Came rows.old.entries.items rows.new.entries.items
        (map entry_bytes (map (λ i. entry_with place.now.file place.now.base (primary_of sort) (used_of sort place.now.used) i) (cond (fits_sort sort info.now.spec) (info.now ∷ []) [])))) }
    ensures columns { OnOk result (Came rows.old.columns.items rows.new.columns.items
        (map column_bytes (flat_map (λ i. columns_from place.now.file 0 i.attrs) (cond (fits_sort sort info.now.spec) (info.now ∷ []) [])))) }
    ensures parts { rows.new.parts.items ≡ rows.old.parts.items }
{
    if !is_sort(sort, info.spec) {
        return Ok(());
    }
    let (primary, used) = pages_in(sort, place.used);
    put_entry(
        alloc,
        &mut rows.entries,
        info,
        place.file,
        place.base,
        primary,
        used,
    )?;
    put_columns(alloc, &mut rows.columns, place.file, info.attrs.items())
}

/// Writes the entry and the attributes of what lies at a place, where it goes and is of the sort.
fn put_gone(
    alloc: Global,
    plain: &mut DbPlain,
    rows: &mut SomeRows,
    files: &FileTable,
    listed: &KeySet,
    rels: &[RelKey],
    place: &FilePlace,
    sort: Sort,
) -> Result<(), OutOfMemory>
    requires listed { (key : Key) → is_in listed.now key ≡ has_key rels.now key }
    ensures same { database_of plain.new ≡ database_of plain.old }
    ensures entries { OnOk result (Came rows.old.entries.items rows.new.entries.items
        (map entry_bytes (gone_entries sort rels.now (files_of files.now) (database_of plain.old) place.now))) }
    ensures columns { OnOk result (Came rows.old.columns.items rows.new.columns.items
        (map column_bytes (gone_columns sort rels.now (files_of files.now) (database_of plain.old) place.now))) }
    ensures parts { rows.new.parts.items ≡ rows.old.parts.items }
{
    if !goes(listed, rels, files, place) {
        return Ok(());
    }
    match known(alloc, plain, &place.key)? {
        Some(info) => put_sort(alloc, rows, &info, place, sort),
        None => Ok(()),
    }
}

/// Writes the entries and the attributes of what goes with these and is of the sort, by their keys.
pub(crate) fn put_all_gone(
    alloc: Global,
    plain: &mut DbPlain,
    rows: &mut SomeRows,
    files: &FileTable,
    listed: &KeySet,
    rels: &[RelKey],
    sort: Sort,
) -> Result<(), OutOfMemory>
    requires listed { (key : Key) → is_in listed.now key ≡ has_key rels.now key }
    ensures same { database_of plain.new ≡ database_of plain.old }
    ensures entries { OnOk result (Came rows.old.entries.items rows.new.entries.items
        (flat_map (λ p. map entry_bytes (gone_entries sort rels.now (files_of files.now) (database_of plain.old) p)) (places_of files.now))) }
    ensures columns { OnOk result (Came rows.old.columns.items rows.new.columns.items
        (flat_map (λ p. map column_bytes (gone_columns sort rels.now (files_of files.now) (database_of plain.old) p)) (places_of files.now))) }
    ensures parts { rows.new.parts.items ≡ rows.old.parts.items }
{
    for place in &files.places {
        put_gone(alloc, plain, rows, files, listed, rels, place, sort)?;
    }
    Ok(())
}
