//! The trees of a catalogue.

ghost use Rattle.std.specs.Prelude.{◌≡◌, IfOk, map};
ghost use Rattle.stored_database.specs.Catalogue.{IsCatalogue};
ghost use Rattle.stored_database.specs.Trees.{joined, tree_at, tree_of};
ghost use Rattle.catalog_rows.specs.Shown.{part_in};
ghost use Rattle.catalog_read.specs.Read.{catalogue_shown};
ghost use Rattle.catalog_read.specs.Rows.{tree_in};

use crate::finding::belonging;
use crate::rows::{CatalogueRows, TreeKey};
use calculus::{List, OutOfMemory};
use catalog_rows::{PartRow, joined_parts};
use quel_tree::{Tree, TreeFault, tree_of};
use std::alloc::Global;

/// The tree whose spelling the bytes are; `None` exactly where they spell none.
fn spelled<T: Tree>(alloc: Global, bytes: &[u8]) -> Result<Option<T::Value>, OutOfMemory>
    ensures { IfOk result (λ tree. tree ≡ tree_of T.codec bytes.now) }
{
    match tree_of::<T>(alloc, bytes) {
        Ok(tree) => Ok(Some(tree)),
        Err(TreeFault::NotATree { at: _ }) => Ok(None),
        Err(TreeFault::OutOfMemory) => Err(OutOfMemory),
    }
}

/// The bytes of a tree; `None` exactly where its parts aren't those of one whole tree.
fn bytes_of(
    alloc: Global,
    rows: &CatalogueRows,
    tree: &TreeKey,
) -> Result<Option<List<u8>>, OutOfMemory>
    requires { IsCatalogue (catalogue_shown rows.now) }
    ensures { IfOk result (λ bytes. bytes ≡ tree_at (map part_in rows.now.parts) tree.now.file tree.now.sort tree.now.number) }
{
    joined_parts(alloc, belonging(rows.parts.items(), tree))
}

/// A tree of the catalogue; `None` exactly where its parts aren't those of one whole tree, or spell none.
pub(crate) fn tree<T: Tree>(
    alloc: Global,
    rows: &CatalogueRows,
    tree: &TreeKey,
) -> Result<Option<T::Value>, OutOfMemory>
    requires { IsCatalogue (catalogue_shown rows.now) }
    ensures { IfOk result (λ found. found ≡ tree_in T.codec (map part_in rows.now.parts) tree.now.file tree.now.sort tree.now.number) }
{
    match bytes_of(alloc, rows, tree) {
        Ok(Some(bytes)) => spelled::<T>(alloc, bytes.items()),
        Ok(None) => Ok(None),
        Err(error) => Err(error),
    }
}
