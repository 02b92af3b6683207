//! The rows of the three catalogues as values.

ghost use Rattle.stored_database.specs.Columns.{column_cmp, column_of};
ghost use Rattle.stored_database.specs.Entries.{entry_cmp, entry_of};
ghost use Rattle.stored_database.specs.Parts.{part_cmp, part_of};
ghost use Rattle.stored_database.proofs.Orders.{column_total, entry_total, part_total};
ghost use Rattle.catalog_rows.specs.Shown.{column_in, entry_in, part_in};
ghost use Rattle.catalog_read.specs.Rows.{column_side, entry_side, part_side};
ghost use Rattle.catalog_read.specs.Splitting.{columns_split, entries_split, parts_split};
ghost use Rattle.stored_database.specs.Columns as columns;
ghost use Rattle.stored_database.specs.Entries as entries;
ghost use Rattle.stored_database.specs.Parts as parts;

use crate::sorting::CatalogueRow;
use calculus::{List, OutOfMemory};
use catalog_rows::{ColumnRow, EntryRow, PartRow, read_column, read_entry, read_part};
use std::alloc::Global;
use std::cmp::Ordering;

/// The rows of files 5, 6 and 7, each list in its order and without a row that stands twice.
#[derive(Drop)]
pub struct CatalogueRows {
    /// Relations, views and indexes, by their files.
    pub entries: List<EntryRow>,
    /// Attributes, by file and place.
    pub columns: List<ColumnRow>,
    /// Parts of trees, by file, sort, number and place.
    pub parts: List<PartRow>,
}

/// What names a tree of the catalogue.
#[derive(Clone, Copy)]
pub(crate) struct TreeKey {
    /// The file of what it belongs to.
    pub(crate) file: u32,
    /// Its sort: 0 the query of a view, 1 a rule, 2 a permit.
    pub(crate) sort: u8,
    /// The number of the rule or permit; 0 of a view.
    pub(crate) number: u32,
}

impl CatalogueRow for EntryRow {
    ghost Said = { entries.Entry };

    ghost said = { entry_in };

    ghost said_by = { entry_of };

    ghost order = { entry_cmp };

    ghost total = { entry_total };

    type Owner = u32;

    ghost side = { entry_side };

    ghost splits = { entries_split };

    fn read(alloc: Global, bytes: &[u8]) -> Result<Option<EntryRow>, OutOfMemory> {
        read_entry(alloc, bytes)
    }

    fn order(&self, other: &EntryRow) -> Ordering {
        self.file.cmp(&other.file)
    }

    fn side(&self, file: &u32) -> Ordering {
        self.file.cmp(file)
    }
}

impl CatalogueRow for ColumnRow {
    ghost Said = { columns.Column };

    ghost said = { column_in };

    ghost said_by = { column_of };

    ghost order = { column_cmp };

    ghost total = { column_total };

    type Owner = u32;

    ghost side = { column_side };

    ghost splits = { columns_split };

    fn read(alloc: Global, bytes: &[u8]) -> Result<Option<ColumnRow>, OutOfMemory> {
        read_column(alloc, bytes)
    }

    fn order(&self, other: &ColumnRow) -> Ordering {
        self.file
            .cmp(&other.file)
            .then(self.place.cmp(&other.place))
    }

    fn side(&self, file: &u32) -> Ordering {
        self.file.cmp(file)
    }
}

impl CatalogueRow for PartRow {
    ghost Said = { parts.Part };

    ghost said = { part_in };

    ghost said_by = { part_of };

    ghost order = { part_cmp };

    ghost total = { part_total };

    type Owner = TreeKey;

    ghost side = { part_side };

    ghost splits = { parts_split };

    fn read(alloc: Global, bytes: &[u8]) -> Result<Option<PartRow>, OutOfMemory> {
        read_part(alloc, bytes)
    }

    fn order(&self, other: &PartRow) -> Ordering {
        self.file
            .cmp(&other.file)
            .then(self.sort.cmp(&other.sort))
            .then(self.number.cmp(&other.number))
            .then(self.place.cmp(&other.place))
    }

    fn side(&self, tree: &TreeKey) -> Ordering {
        self.file
            .cmp(&tree.file)
            .then(self.sort.cmp(&tree.sort))
            .then(self.number.cmp(&tree.number))
    }
}
