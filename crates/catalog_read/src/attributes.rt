//! The attributes of a relation or a view, from its columns.

ghost use Rattle.std.specs.Prelude.{◌≡◌, IfOk, map, option_map};
ghost use Rattle.page_chain.specs.Lists.{are_from};
ghost use Rattle.stored_database.specs.Catalogue.{IsCatalogue};
ghost use Rattle.stored_database.specs.Spelled.{attrs_of};
ghost use Rattle.catalog_rows.specs.Shown.{column_in, entry_in};
ghost use Rattle.catalog_read.specs.Read.{catalogue_shown, relation_info};

use crate::finding::belonging;
use crate::rows::CatalogueRows;
use calculus::{Attr, List, OutOfMemory, RelInfo, TryCopy};
use catalog_rows::{ColumnRow, EntryRow};
use memory::both;
use std::alloc::Global;

/// Whether the places are 0, 1, 2 and so on.
fn are_in_place(columns: &[ColumnRow]) -> bool
    ensures { result ≡ are_from (λ c. c.place) 0 columns.now }
{
    let mut place = 0;
    for column in columns {
        if column.place as usize != place {
            return false;
        }
        place += 1;
    }
    true
}

/// Copies of the attributes, in order.
fn copied(alloc: Global, columns: &[ColumnRow]) -> Result<List<Attr>, OutOfMemory>
    ensures { IfOk result (λ attrs. attrs ≡ map (λ c. c.attr) columns.now) }
{
    let mut attrs = Vec::with_capacity(alloc, columns.len())?;
    for column in columns {
        attrs.push(column.attr.copy(alloc)?)?;
    }
    Ok(List::of(attrs))
}

/// The attributes of what has this file; `None` where their places aren't 0, 1, 2 and so on.
fn attributes(
    alloc: Global,
    rows: &CatalogueRows,
    file: u32,
) -> Result<Option<List<Attr>>, OutOfMemory>
    requires { IsCatalogue (catalogue_shown rows.now) }
    ensures { IfOk result (λ attrs. attrs ≡ attrs_of (catalogue_shown rows.now) file) }
{
    let columns = belonging(rows.columns.items(), &file);
    if !are_in_place(columns) {
        return Ok(None);
    }
    match copied(alloc, columns) {
        Ok(attrs) => Ok(Some(attrs)),
        Err(error) => Err(error),
    }
}

/// What is known of an entry with these attributes.
pub(crate) fn with_attributes(
    alloc: Global,
    entry: &EntryRow,
    attrs: List<Attr>,
) -> Result<RelInfo, OutOfMemory>
    ensures { IfOk result (λ info. info ≡ record { key = entry.now.key; spec = entry.now.spec; attrs = attrs; keys = entry.now.keys }) }
{
    match both(entry.key.copy(alloc), entry.keys.copy(alloc)) {
        Ok((key, keys)) => Ok(RelInfo {
            key,
            spec: entry.spec,
            attrs,
            keys,
        }),
        Err(error) => Err(error),
    }
}

/// What is known of a relation or a view without its rows; `None` where the places of its attributes
/// aren't 0, 1, 2 and so on.
#[tactic(auto, unfolding(crate::specs::Read::relation_info))]
pub(crate) fn known(
    alloc: Global,
    rows: &CatalogueRows,
    entry: &EntryRow,
) -> Result<Option<RelInfo>, OutOfMemory>
    requires { IsCatalogue (catalogue_shown rows.now) }
    ensures { IfOk result (λ info. info ≡ relation_info (catalogue_shown rows.now) (entry_in entry.now)) }
{
    match attributes(alloc, rows, entry.file) {
        Ok(Some(attrs)) => match with_attributes(alloc, entry, attrs) {
            Ok(info) => Ok(Some(info)),
            Err(error) => Err(error),
        },
        Ok(None) => Ok(None),
        Err(error) => Err(error),
    }
}
