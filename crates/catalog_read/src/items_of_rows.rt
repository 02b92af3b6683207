//! What is made of rows, each by itself.

ghost use Rattle.std.specs.Prelude.{◌≡◌, Bool, Option as Maybe, filter, map, option_map, IfOk};
ghost use Rattle.page_chain.specs.Lists.{each};
ghost use Rattle.stored_database.specs.Catalogue.{Catalogue, IsCatalogue};
ghost use Rattle.catalog_read.specs.Read.{catalogue_shown};

use crate::rows::CatalogueRows;
use calculus::{List, OutOfMemory};
use std::alloc::Global;

/// What is made of some rows of a catalogue.
pub(crate) trait Made {
    /// The rows.
    type Row;

    /// What it is.
    ghost Shown: { Type 0 };

    /// What it is.
    ghost shown: { Self → Shown };

    /// Of which rows it is made.
    ghost picks: { Self.Row → Bool };

    /// What is made of a row.
    ghost make: { Catalogue → Self.Row → Maybe Shown };

    /// Whether one is made of this row.
    fn picks(row: &Self::Row) -> bool
        ensures { result ≡ picks row.now };

    /// The one that is made of this row; `None` exactly where none can be.
    fn make(
        alloc: Global,
        rows: &CatalogueRows,
        row: &Self::Row,
    ) -> Result<Option<Self>, OutOfMemory>
        requires { IsCatalogue (catalogue_shown rows.now) }
        ensures { IfOk result (λ made. option_map shown made ≡ make (catalogue_shown rows.now) row.now) };
}

/// What is made of these rows, in order; `None` exactly where something can't be.
pub(crate) fn all_made<T: Made + Drop>(
    alloc: Global,
    rows: &CatalogueRows,
    items: &[T::Row],
) -> Result<Option<List<T>>, OutOfMemory>
    requires { IsCatalogue (catalogue_shown rows.now) }
    ensures { IfOk result (λ made. option_map (map T.shown) made ≡ each (T.make (catalogue_shown rows.now)) (filter T.picks items.now)) }
{
    let mut made = Vec::new(alloc);
    for item in items {
        if T::picks(item) {
            match T::make(alloc, rows, item) {
                Ok(Some(one)) => made.push(one)?,
                Ok(None) => return Ok(None),
                Err(error) => return Err(error),
            }
        }
    }
    Ok(Some(List::of(made)))
}
