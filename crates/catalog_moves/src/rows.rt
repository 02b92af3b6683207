//! Rows of the catalogues that go and come.

ghost use Rattle.std.specs.Prelude.{◌≡◌, []};

use calculus::List;
use std::alloc::Global;

/// The rows of a file that go, and those that come, as bytes.
#[derive(Drop)]
pub struct FileMoves {
    /// Those that go.
    pub going: List<List<u8>>,
    /// Those that come.
    pub coming: List<List<u8>>,
}

/// The rows of the three catalogues that go and come.
#[derive(Drop)]
pub struct Moves {
    /// Of file 5: relations, views and indexes.
    pub entries: FileMoves,
    /// Of file 6: attributes.
    pub columns: FileMoves,
    /// Of file 7: parts of trees.
    pub parts: FileMoves,
}

/// Rows of the three catalogues.
#[derive(Drop)]
pub(crate) struct SomeRows {
    pub(crate) entries: Vec<List<u8>>,
    pub(crate) columns: Vec<List<u8>>,
    pub(crate) parts: Vec<List<u8>>,
}

impl SomeRows {
    /// No rows.
    pub(crate) fn new(alloc: Global) -> SomeRows
        ensures entries { result.entries.items ≡ [] }
        ensures columns { result.columns.items ≡ [] }
        ensures parts { result.parts.items ≡ [] }
    {
        SomeRows {
            entries: Vec::new(alloc),
            columns: Vec::new(alloc),
            parts: Vec::new(alloc),
        }
    }
}

/// The rows of a file that go and come.
fn file_moves(going: Vec<List<u8>>, coming: Vec<List<u8>>) -> FileMoves
    ensures going { result.going ≡ going.items }
    ensures coming { result.coming ≡ coming.items }
{
    FileMoves {
        going: List::of(going),
        coming: List::of(coming),
    }
}

/// The rows that go and those that come, file by file. Takes no memory.
pub(crate) fn moves_of(going: SomeRows, coming: SomeRows) -> Moves
    ensures entries_go { result.entries.going ≡ going.entries.items }
    ensures entries_come { result.entries.coming ≡ coming.entries.items }
    ensures columns_go { result.columns.going ≡ going.columns.items }
    ensures columns_come { result.columns.coming ≡ coming.columns.items }
    ensures parts_go { result.parts.going ≡ going.parts.items }
    ensures parts_come { result.parts.coming ≡ coming.parts.items }
{
    Moves {
        entries: file_moves(going.entries, coming.entries),
        columns: file_moves(going.columns, coming.columns),
        parts: file_moves(going.parts, coming.parts),
    }
}
