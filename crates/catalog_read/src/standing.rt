//! Whether each attribute and each part of a tree belongs to what is there, and trees are whole.

ghost use Rattle.std.specs.Prelude.{◌≡◌, ◌&&◌, not, is_some, map, IfOk};
ghost use Rattle.std.specs.List.{list_all};
ghost use Rattle.std.specs.List.Sorted.{IsStrictlySortedBy};
ghost use Rattle.calculus.specs.Structures.{is_index, is_structure, is_view};
ghost use Rattle.stored_database.specs.Catalogue.{IsCatalogue};
ghost use Rattle.stored_database.specs.Parts.{part_cmp};
ghost use Rattle.stored_database.specs.Spelled.{columns_stand, entry_is, part_stands, parts_stand};
ghost use Rattle.stored_database.specs.Trees.{joined, parts_are_whole};
ghost use Rattle.catalog_rows.specs.Shown.{part_in};
ghost use Rattle.catalog_read.specs.Read.{catalogue_shown};

use crate::finding::{belonging, entry_at};
use crate::rows::{CatalogueRows, TreeKey};
use crate::structures::{is_index, is_structure, is_view};
use calculus::OutOfMemory;
use catalog_rows::{ColumnRow, PartRow, joined_parts};
use std::alloc::Global;

/// The sort of the tree of a view.
pub(crate) const OF_VIEW: u8 = 0;

/// Whether the file is that of a relation or a view.
#[tactic(auto, unfolding(stored_database::specs::Spelled::entry_is))]
fn has_attributes(rows: &CatalogueRows, file: u32) -> bool
    requires { IsCatalogue (catalogue_shown rows.now) }
    ensures { result ≡ entry_is (λ s. not (is_index s)) (catalogue_shown rows.now) file }
{
    match entry_at(rows, file) {
        Some(entry) => !is_index(entry.spec),
        None => false,
    }
}

/// Whether the file is that of a view.
#[tactic(auto, unfolding(stored_database::specs::Spelled::entry_is))]
fn is_of_view(rows: &CatalogueRows, file: u32) -> bool
    requires { IsCatalogue (catalogue_shown rows.now) }
    ensures { result ≡ entry_is is_view (catalogue_shown rows.now) file }
{
    match entry_at(rows, file) {
        Some(entry) => is_view(entry.spec),
        None => false,
    }
}

/// Whether the file is that of a relation.
#[tactic(auto, unfolding(stored_database::specs::Spelled::entry_is))]
fn is_of_relation(rows: &CatalogueRows, file: u32) -> bool
    requires { IsCatalogue (catalogue_shown rows.now) }
    ensures { result ≡ entry_is is_structure (catalogue_shown rows.now) file }
{
    match entry_at(rows, file) {
        Some(entry) => is_structure(entry.spec),
        None => false,
    }
}

/// Whether the part is of tree 0 of a view, or of a rule or a permit of a relation, that is there.
#[tactic(auto, unfolding(stored_database::specs::Spelled::part_stands))]
fn part_stands(rows: &CatalogueRows, part: &PartRow) -> bool
    requires { IsCatalogue (catalogue_shown rows.now) }
    ensures { result ≡ part_stands (catalogue_shown rows.now) (part_in part.now) }
{
    if part.sort == OF_VIEW {
        part.number == 0 && is_of_view(rows, part.file)
    } else {
        is_of_relation(rows, part.file)
    }
}

/// Whether each of these attributes is of a relation or a view that is there.
fn all_columns_stand(rows: &CatalogueRows, columns: &[ColumnRow]) -> bool
    requires { IsCatalogue (catalogue_shown rows.now) }
    ensures { result ≡ list_all (λ c. entry_is (λ s. not (is_index s)) (catalogue_shown rows.now) c.file) columns.now }
{
    for column in columns {
        if !has_attributes(rows, column.file) {
            return false;
        }
    }
    true
}

/// Whether each of these parts is of what is there.
fn all_parts_stand(rows: &CatalogueRows, parts: &[PartRow]) -> bool
    requires { IsCatalogue (catalogue_shown rows.now) }
    ensures { result ≡ list_all (λ p. part_stands (catalogue_shown rows.now) (part_in p)) parts.now }
{
    for part in parts {
        if !part_stands(rows, part) {
            return false;
        }
    }
    true
}

/// The tree that the part is of.
pub(crate) fn tree_of_part(part: &PartRow) -> TreeKey
    ensures { result ≡ record { file = part.now.file; sort = part.now.sort; number = part.now.number } }
{
    TreeKey {
        file: part.file,
        sort: part.sort,
        number: part.number,
    }
}

/// Whether these are the parts of one whole tree.
fn is_whole(alloc: Global, parts: &[PartRow]) -> Result<bool, OutOfMemory>
    ensures { IfOk result (λ whole. whole ≡ is_some (joined (map part_in parts.now))) }
{
    match joined_parts(alloc, parts) {
        Ok(Some(_)) => Ok(true),
        Ok(None) => Ok(false),
        Err(error) => Err(error),
    }
}

/// Whether each part is one of a whole tree. Each tree is tried once.
fn trees_are_whole(alloc: Global, parts: &[PartRow]) -> Result<bool, OutOfMemory>
    requires { IsStrictlySortedBy part_cmp (map part_in parts.now) }
    ensures { IfOk result (λ whole. whole ≡ parts_are_whole (map part_in parts.now)) }
{
    let mut rest = parts;
    'trees: while let Some((first, _)) = rest.split_first() {
        let tree = belonging(rest, &tree_of_part(first));
        if !is_whole(alloc, tree)? {
            return Ok(false);
        }
        rest = rest.split_at(tree.len()).1;
    }
    Ok(true)
}

/// Whether each attribute and each part belongs to what is there, and trees are whole.
#[tactic(auto, unfolding(crate::specs::Read::catalogue_shown, stored_database::specs::Spelled::columns_stand, stored_database::specs::Spelled::parts_stand))]
pub(crate) fn stand(alloc: Global, rows: &CatalogueRows) -> Result<bool, OutOfMemory>
    requires { IsCatalogue (catalogue_shown rows.now) }
    ensures { IfOk result (λ stand. stand ≡ (columns_stand (catalogue_shown rows.now) && parts_stand (catalogue_shown rows.now))) }
{
    if !all_columns_stand(rows, rows.columns.items()) {
        return Ok(false);
    }
    if !all_parts_stand(rows, rows.parts.items()) {
        return Ok(false);
    }
    trees_are_whole(alloc, rows.parts.items())
}
