//! Relations, indexes and views are made of their entries.

ghost use Rattle.std.specs.Prelude.{◌≡◌, [], option_map, IfOk};
ghost use Rattle.calculus.specs.Database as database;
ghost use Rattle.calculus.specs.Structures.{is_index, is_structure, is_view};
ghost use Rattle.calculus.specs.declared.schema.RelInfo as infos;
ghost use Rattle.stored_database.specs.Catalogue.{IsCatalogue};
ghost use Rattle.stored_database.specs.Spelled.{entry_at, index_of, view_of};
ghost use Rattle.catalog_rows.specs.Shown.{entry_in};
ghost use Rattle.catalog_read.specs.Parts.{index_in, view_in};
ghost use Rattle.catalog_read.specs.Read.{catalogue_shown, relation_info};

use crate::attributes::{known, with_attributes};
use crate::finding::entry_at;
use crate::items_of_rows::Made;
use crate::pairs::both_found;
use crate::rows::{CatalogueRows, TreeKey};
use crate::standing::OF_VIEW;
use crate::structures::{is_index, is_structure, is_view};
use crate::trees::tree;
use crate::{IndexPart, ViewPart};
use calculus::{List, OutOfMemory, Query, RelInfo, RelKey, TryCopy};
use catalog_rows::EntryRow;
use quel_tree::QueryTree;
use std::alloc::Global;

/// The key of what has this file; `None` exactly where nothing has.
pub(crate) fn key_at(
    alloc: Global,
    rows: &CatalogueRows,
    file: u32,
) -> Result<Option<RelKey>, OutOfMemory>
    requires { IsCatalogue (catalogue_shown rows.now) }
    ensures { IfOk result (λ key. key ≡ option_map (λ e. e.key) (entry_at (catalogue_shown rows.now) file)) }
{
    match entry_at(rows, file) {
        Some(entry) => match entry.key.copy(alloc) {
            Ok(key) => Ok(Some(key)),
            Err(error) => Err(error),
        },
        None => Ok(None),
    }
}

/// What is known of an index.
fn bare(alloc: Global, entry: &EntryRow) -> Result<RelInfo, OutOfMemory>
    ensures { IfOk result (λ info. info ≡ record { key = entry.now.key; spec = entry.now.spec; attrs = []; keys = entry.now.keys }) }
{
    with_attributes(alloc, entry, List::of(Vec::new(alloc)))
}

/// The index on the relation with this key.
fn index_on(alloc: Global, entry: &EntryRow, base: RelKey) -> Result<IndexPart, OutOfMemory>
    ensures { IfOk result (λ x. index_in x ≡ record { info = record { key = entry.now.key; spec = entry.now.spec; attrs = []; keys = entry.now.keys }; base = base }) }
{
    match bare(alloc, entry) {
        Ok(info) => Ok(IndexPart { info, base }),
        Err(error) => Err(error),
    }
}

/// The index of an entry; `None` exactly where its relation isn't there.
#[tactic(auto, unfolding(stored_database::specs::Spelled::index_of))]
fn index(
    alloc: Global,
    rows: &CatalogueRows,
    entry: &EntryRow,
) -> Result<Option<IndexPart>, OutOfMemory>
    requires { IsCatalogue (catalogue_shown rows.now) }
    ensures { IfOk result (λ x. option_map index_in x ≡ index_of (catalogue_shown rows.now) (entry_in entry.now)) }
{
    match key_at(alloc, rows, entry.base) {
        Ok(Some(base)) => match index_on(alloc, entry, base) {
            Ok(index) => Ok(Some(index)),
            Err(error) => Err(error),
        },
        Ok(None) => Ok(None),
        Err(error) => Err(error),
    }
}

/// The view with this query.
fn view_with(found: (RelInfo, Query)) -> ViewPart
    ensures { view_in result ≡ record { info = found.0; query = found.1 } }
{
    let (info, query) = found;
    ViewPart { info, query }
}

/// The view of an entry; `None` exactly where the places of its attributes aren't 0, 1, 2 and so on, or
/// its tree isn't there.
fn view(
    alloc: Global,
    rows: &CatalogueRows,
    entry: &EntryRow,
) -> Result<Option<ViewPart>, OutOfMemory>
    requires { IsCatalogue (catalogue_shown rows.now) }
    ensures { IfOk result (λ v. option_map view_in v ≡ view_of (catalogue_shown rows.now) (entry_in entry.now)) }
{
    let name = TreeKey {
        file: entry.file,
        sort: OF_VIEW,
        number: 0,
    };
    let info = known(alloc, rows, entry);
    let query = tree::<QueryTree>(alloc, rows, &name);
    match both_found(info, query) {
        Ok(Some(found)) => Ok(Some(view_with(found))),
        Ok(None) => Ok(None),
        Err(error) => Err(error),
    }
}

impl Made for RelInfo {
    type Row = EntryRow;

    ghost Shown = { infos.RelInfo };

    ghost shown = { λ i. i };

    ghost picks = { λ e. is_structure e.spec };

    ghost make = { λ cat e. relation_info cat (entry_in e) };

    fn picks(row: &EntryRow) -> bool {
        is_structure(row.spec)
    }

    fn make(
        alloc: Global,
        rows: &CatalogueRows,
        row: &EntryRow,
    ) -> Result<Option<RelInfo>, OutOfMemory> {
        known(alloc, rows, row)
    }
}

impl Made for IndexPart {
    type Row = EntryRow;

    ghost Shown = { database.Index };

    ghost shown = { index_in };

    ghost picks = { λ e. is_index e.spec };

    ghost make = { λ cat e. index_of cat (entry_in e) };

    fn picks(row: &EntryRow) -> bool {
        is_index(row.spec)
    }

    fn make(
        alloc: Global,
        rows: &CatalogueRows,
        row: &EntryRow,
    ) -> Result<Option<IndexPart>, OutOfMemory> {
        index(alloc, rows, row)
    }
}

impl Made for ViewPart {
    type Row = EntryRow;

    ghost Shown = { database.View };

    ghost shown = { view_in };

    ghost picks = { λ e. is_view e.spec };

    ghost make = { λ cat e. view_of cat (entry_in e) };

    fn picks(row: &EntryRow) -> bool {
        is_view(row.spec)
    }

    fn make(
        alloc: Global,
        rows: &CatalogueRows,
        row: &EntryRow,
    ) -> Result<Option<ViewPart>, OutOfMemory> {
        view(alloc, rows, row)
    }
}
