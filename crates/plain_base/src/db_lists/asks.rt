//! What a database in memory answers of what stands in it.

ghost use Rattle.std.specs.Prelude.{◌≡◌, filter, length, map, option_map, IfOk};
ghost use Rattle.calculus.specs.Database.{entries, entry_at, is_relation, rules_on, permits_on};
ghost use Rattle.calculus.specs.Keys.{same_key};
ghost use Rattle.base_trait.specs.Known.{query_at, is_named_by_view};

use super::DbLists;
use crate::look_up::{about, index_keys, on, some_view_names, under};
use calculus::{Name, OutOfMemory, Permit, Query, RelInfo, RelKey, Rule, TryCopy};
use std::alloc::Global;

impl DbLists {
    /// The name of the administrator.
    pub fn administrator(&self) -> &Name
        ensures { result.now ≡ self.now.dba }
    {
        &self.dba
    }

    /// The number of relations, views and indexes, without the catalogues.
    pub fn entry_count(&self) -> u32
        ensures { result ≡ length (entries self.now) }
    {
        (self.relations.len() + self.views.len() + self.indexes.len()) as u32
    }

    /// What is known of the relation, view or index under a key. By binary searches.
    pub fn entry(&self, key: &RelKey) -> Option<&RelInfo>
        ensures { option_map (λ info. info.now) result ≡ entry_at self.now key.now }
    {
        if let Some(info) = about(&self.relations, key) {
            return Some(info);
        }
        if let Some(info) = about(&self.views, key) {
            return Some(info);
        }
        about(&self.indexes, key)
    }

    /// The keys of the indexes on a relation, ascending.
    pub fn indexes_on(&self, alloc: Global, key: &RelKey) -> Result<Vec<RelKey>, OutOfMemory>
        ensures { IfOk result (λ keys. keys.items ≡ map (λ x. x.info.key) (filter (λ x. same_key x.base key.now) self.now.indexes)) }
    {
        index_keys(alloc, &self.indexes, key)
    }

    /// The query of the view under a key.
    pub fn query(&self, alloc: Global, key: &RelKey) -> Result<Option<Query>, OutOfMemory>
        ensures { IfOk result (λ query. query ≡ query_at self.now key.now) }
    {
        match under(&self.views, key) {
            Some(view) => match view.query.copy(alloc) {
                Ok(query) => Ok(Some(query)),
                Err(error) => Err(error),
            },
            None => Ok(None),
        }
    }

    /// The rules of a relation, by number.
    pub fn rules_on(&self, alloc: Global, key: &RelKey) -> Result<Vec<Rule>, OutOfMemory>
        ensures { IfOk result (λ copies. copies.items ≡ rules_on self.now key.now) }
    {
        on(alloc, &self.rules, key)
    }

    /// The permits of a relation, by number.
    pub fn permits_on(&self, alloc: Global, key: &RelKey) -> Result<Vec<Permit>, OutOfMemory>
        ensures { IfOk result (λ copies. copies.items ≡ permits_on self.now key.now) }
    {
        on(alloc, &self.permits, key)
    }

    /// Whether some view names what stands under a key, where these views don't count.
    pub fn is_named_by_view(&self, key: &RelKey, but: &[RelKey]) -> bool
        ensures { result ≡ is_named_by_view self.now but.now key.now }
    {
        some_view_names(&self.views, but, key)
    }
}
