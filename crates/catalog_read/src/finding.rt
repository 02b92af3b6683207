//! Rows are found by what they belong to.

ghost use Rattle.std.specs.Prelude.{◌≡◌, filter, map, option_map};
ghost use Rattle.std.specs.List.Sorted.{IsStrictlySortedBy};
ghost use Rattle.std.specs.Ordering.{is_eq};
ghost use Rattle.stored_database.specs.Catalogue.{IsCatalogue};
ghost use Rattle.stored_database.specs.Spelled.{entry_at};
ghost use Rattle.catalog_rows.specs.Shown.{entry_in};
ghost use Rattle.catalog_read.specs.Read.{catalogue_shown};

use crate::rows::CatalogueRows;
use crate::sorting::CatalogueRow;
use catalog_rows::EntryRow;

/// The rows that belong to this, which lie side by side where rows are in order. Two binary searches.
pub(crate) fn belonging<'a, T: CatalogueRow>(rows: &'a [T], owner: &T::Owner) -> &'a [T]
    requires { IsStrictlySortedBy T.order (map T.said rows.now) }
    ensures { map T.said result.now ≡ filter (λ s. is_eq (T.side owner.now s)) (map T.said rows.now) }
{
    let start = rows.partition_point(|row| row.side(owner).is_lt());
    let behind = rows.split_at(start).1;
    let many = behind.partition_point(|row| row.side(owner).is_eq());
    behind.split_at(many).0
}

/// The entry whose file this is. A binary search.
pub(crate) fn entry_at(rows: &CatalogueRows, file: u32) -> Option<&EntryRow>
    requires { IsCatalogue (catalogue_shown rows.now) }
    ensures { option_map (λ e. entry_in e.now) result ≡ entry_at (catalogue_shown rows.now) file }
{
    belonging(rows.entries.items(), &file).first()
}
