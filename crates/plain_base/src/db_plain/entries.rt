//! What stands in a database in memory, without a copy.

ghost use Rattle.std.specs.Prelude.{◌≡◌, filter, map, option_map, IfOk};
ghost use Rattle.calculus.specs.Database.{entry_at};
ghost use Rattle.calculus.specs.Keys.{same_key};
ghost use Rattle.plain_base.specs.Shown.{database_of};

use super::DbPlain;
use calculus::{OutOfMemory, RelInfo, RelKey};
use std::alloc::Global;

impl DbPlain {
    /// What is known of the relation, view or index under a key; a catalogue is none of these. By binary
    /// searches.
    pub fn entry(&self, key: &RelKey) -> Option<&RelInfo>
        ensures { option_map (λ info. info.now) result ≡ entry_at (database_of self.now) key.now }
    {
        self.lists.entry(key)
    }

    /// The keys of the indexes on a relation, ascending.
    pub fn indexes_on(&self, alloc: Global, key: &RelKey) -> Result<Vec<RelKey>, OutOfMemory>
        ensures { IfOk result (λ keys. keys.items ≡ map (λ x. x.info.key) (filter (λ x. same_key x.base key.now) (database_of self.now).indexes)) }
    {
        self.lists.indexes_on(alloc, key)
    }
}
