//! The files of relations and indexes, as they are known.

ghost use Rattle.std.specs.Prelude.{◌≡◌, IfOk, filter, is_some, map};
ghost use Rattle.std.specs.Option.{ForSome};
ghost use Rattle.calculus.specs.Keys.{same_key};
ghost use Rattle.plain_base.specs.Shown.{database_of};
ghost use Rattle.catalog_moves.specs.Bases.{IndexBases};
ghost use Rattle.catalog_moves.specs.Files.{files_of};
ghost use Rattle.catalog.specs.Asked.{IsTheFile, has_file};

use crate::catalog::Catalog;
use crate::files::file_by;
use am_traits::RelFile;
use calculus::{OutOfMemory, RelKey};
use std::alloc::Global;

impl Catalog {
    /// The file of a relation or an index; `None` exactly where neither stands under the key.
    pub fn file_of(&self, alloc: Global, key: &RelKey) -> Result<Option<RelFile>, OutOfMemory>
        ensures there { IfOk result (λ found. ForSome found (λ its. IsTheFile (database_of self.now.plain) (files_of self.now.files) key.now its)) }
        ensures exactly { IndexBases self.now.files (database_of self.now.plain) → IfOk result (λ found. is_some found ≡ has_file (database_of self.now.plain) key.now) }
    {
        let Some(info) = self.plain.entry(key) else {
            return Ok(None);
        };
        match self.files.place(key) {
            Some((file, used)) => file_by(alloc, info, file, used),
            None => Ok(None),
        }
    }

    /// The keys of the indexes on a relation, ascending.
    pub fn indexes_of(&self, alloc: Global, key: &RelKey) -> Result<Vec<RelKey>, OutOfMemory>
        ensures { IfOk result (λ keys. keys.items ≡ map (λ x. x.info.key) (filter (λ x. same_key x.base key.now) (database_of self.now.plain).indexes)) }
    {
        self.plain.indexes_on(alloc, key)
    }
}
