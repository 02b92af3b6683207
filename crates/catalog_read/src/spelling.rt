//! The parts of the database that a catalogue spells are made.

ghost use Rattle.std.specs.Prelude.{◌≡◌, IfOk, option_map};
ghost use Rattle.stored_database.specs.Catalogue.{IsCatalogue};
ghost use Rattle.catalog_read.specs.Parts.{parts_in};
ghost use Rattle.catalog_read.specs.Read.{catalogue_shown, parts_of};
ghost use Rattle.catalog_read.specs.PartsMade.{parts_made};

use crate::items_of_rows::all_made;
use crate::pairs::both_found;
use crate::rows::CatalogueRows;
use crate::standing::stand;
use crate::{IndexPart, SchemaParts, ViewPart};
use calculus::{List, OutOfMemory, Permit, RelInfo, RelKey, Rule};
use std::alloc::Global;

/// Rules and permits, each beside the key of its relation.
type Conditions = (List<(RelKey, Rule)>, List<(RelKey, Permit)>);

/// The parts, put together.
fn together(
    found: (
        List<RelInfo>,
        (List<IndexPart>, (List<ViewPart>, Conditions)),
    ),
) -> SchemaParts
    ensures { result ≡ record { relations = found.0; indexes = found.1.0; views = found.1.1.0; rules = found.1.1.1.0; permits = found.1.1.1.1 } }
{
    let (relations, behind) = found;
    let (indexes, behind) = behind;
    let (views, behind) = behind;
    let (rules, permits) = behind;
    SchemaParts {
        relations,
        indexes,
        views,
        rules,
        permits,
    }
}

/// The parts of the database that a catalogue spells, without the rows of its relations, where its
/// attributes and the parts of its trees stand.
fn parts_made(alloc: Global, rows: &CatalogueRows) -> Result<Option<SchemaParts>, OutOfMemory>
    requires { IsCatalogue (catalogue_shown rows.now) }
    ensures { IfOk result (λ parts. option_map parts_in parts ≡ parts_made (catalogue_shown rows.now)) }
{
    let relations = all_made(alloc, rows, rows.entries.items());
    let indexes = all_made(alloc, rows, rows.entries.items());
    let views = all_made(alloc, rows, rows.entries.items());
    let rules = all_made(alloc, rows, rows.parts.items());
    let permits = all_made(alloc, rows, rows.parts.items());
    let conditions = both_found(rules, permits);
    match both_found(
        relations,
        both_found(indexes, both_found(views, conditions)),
    ) {
        Ok(Some(found)) => Ok(Some(together(found))),
        Ok(None) => Ok(None),
        Err(error) => Err(error),
    }
}

/// The parts of the database that a catalogue spells, without the rows of its relations; `None` exactly
/// where it spells none.
pub fn schema_parts(alloc: Global, rows: &CatalogueRows) -> Result<Option<SchemaParts>, OutOfMemory>
    requires { IsCatalogue (catalogue_shown rows.now) }
    ensures { IfOk result (λ parts. option_map parts_in parts ≡ parts_of (catalogue_shown rows.now)) }
{
    if stand(alloc, rows)? {
        parts_made(alloc, rows)
    } else {
        Ok(None)
    }
}
