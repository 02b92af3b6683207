//! The rows of the catalogues of a disk as values, and their bytes.
#![tactic(auto)]

mod adding;
mod columns;
mod entries;
mod part_rows;
mod places;
mod trees;

pub use columns::{ColumnRow, column_row, read_column};
pub use entries::{EntryRow, entry_row, read_entry};
pub use part_rows::{PartRow, part_row, read_part};
pub use trees::{joined_parts, tree_parts};
