//! The catalogue of a database on disk, in memory.

use catalog_moves::{FileTable, KeySet};
use catalog_pages::Ends;
use plain_base::DbPlain;

/// What is known in memory of a database on disk: its schema, the rows of the relations that were read,
/// the file of each relation, and the last pages of the catalogues.
pub struct Catalog {
    /// The database, without the rows of relations that weren't read.
    pub plain: DbPlain,
    /// The relations whose rows were read.
    pub loaded: KeySet,
    /// The file of each relation, view and index.
    pub files: FileTable,
    /// The last pages of the catalogues.
    pub ends: Ends,
}

impl Drop for Catalog {
    fn drop(self) {
        let Self {
            plain: _,
            loaded: _,
            files: _,
            ends: _,
        } = self;
    }
}
