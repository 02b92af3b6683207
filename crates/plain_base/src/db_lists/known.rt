//! What is known of relations, views, indexes and catalogues without their rows.

ghost use Rattle.std.specs.Prelude.{◌≡◌, [], Some, option_map, IfOk};
ghost use Rattle.calculus.specs.Catalogue.{catalogue_at, relation_info, attribute_info, relation_key, attribute_key};
ghost use Rattle.calculus.specs.Database.{relation_at, view_at};
ghost use Rattle.calculus.specs.Finding.{found};
ghost use Rattle.calculus.specs.Keys.{same_key, key_of};
ghost use Rattle.calculus.specs.Stored.{info_at};
ghost use Rattle.base_trait.specs.Known.{known_at};

use super::DbLists;
use crate::catalogue::{attribute_attrs, is_named, key_of, relation_attrs};
use crate::look_up::under;
use crate::under_keys::{Stored, Viewed};
use calculus::{Attr, List, Name, OutOfMemory, RelInfo, RelKey, Spec, TryCopy};
use memory::both;
use std::alloc::Global;

/// What is known of a heap with these attributes.
fn heap_of(alloc: Global, key: RelKey, attrs: List<Attr>) -> RelInfo
    ensures { result ≡ record { key = key; spec = Spec.Heap; attrs = attrs; keys = [] } }
{
    RelInfo {
        key,
        spec: Spec::Heap,
        attrs,
        keys: List::of(Vec::new(alloc)),
    }
}

/// A copy of what is known.
fn copied(alloc: Global, info: &RelInfo) -> Result<Option<RelInfo>, OutOfMemory>
    ensures { IfOk result (λ copy. copy ≡ Some info.now) }
{
    match info.copy(alloc) {
        Ok(info) => Ok(Some(info)),
        Err(error) => Err(error),
    }
}

impl DbLists {
    /// The base relation under a key.
    pub(crate) fn relation<'a>(&'a self, key: &RelKey) -> Option<&'a Stored>
        ensures { option_map (λ relation. relation.now) result ≡ relation_at self.now key.now }
    {
        under(&self.relations, key)
    }

    /// The view under a key.
    pub(crate) fn viewed<'a>(&'a self, key: &RelKey) -> Option<&'a Viewed>
        ensures { option_map (λ view. view.now) result ≡ view_at self.now key.now }
    {
        under(&self.views, key)
    }

    /// Whether the key is that of the catalogue `relation`.
    pub(crate) fn is_relation_key(&self, key: &RelKey) -> bool
        ensures { result ≡ same_key key.now (relation_key self.now) }
    {
        is_named(key, self.administrator(), b"relation")
    }

    /// Whether the key is that of the catalogue `attribute`.
    pub(crate) fn is_attribute_key(&self, key: &RelKey) -> bool
        ensures { result ≡ same_key key.now (attribute_key self.now) }
    {
        is_named(key, self.administrator(), b"attribute")
    }

    /// What is known of the catalogue `relation`.
    #[tactic(auto, unfolding(calculus::specs::Name::is_name))]
    pub(super) fn relation_info(&self, alloc: Global) -> Result<RelInfo, OutOfMemory>
        ensures { IfOk result (λ info. info ≡ relation_info self.now) }
    {
        let key = key_of(alloc, &self.dba, b"relation");
        let (key, attrs) = both(key, relation_attrs(alloc))?;
        Ok(heap_of(alloc, key, attrs))
    }

    /// What is known of the catalogue `attribute`.
    #[tactic(auto, unfolding(calculus::specs::Name::is_name))]
    pub(super) fn attribute_info(&self, alloc: Global) -> Result<RelInfo, OutOfMemory>
        ensures { IfOk result (λ info. info ≡ attribute_info self.now) }
    {
        let key = key_of(alloc, &self.dba, b"attribute");
        let (key, attrs) = both(key, attribute_attrs(alloc))?;
        Ok(heap_of(alloc, key, attrs))
    }

    /// What is known of the catalogue under a key.
    #[tactic(auto, unfolding(calculus::specs::Catalogue::catalogue_at))]
    fn catalogue_info(&self, alloc: Global, key: &RelKey) -> Result<Option<RelInfo>, OutOfMemory>
        ensures { IfOk result (λ info. info ≡ option_map (λ r. r.info) (catalogue_at self.now key.now)) }
    {
        if self.is_relation_key(key) {
            return Ok(Some(self.relation_info(alloc)?));
        }
        if self.is_attribute_key(key) {
            return Ok(Some(self.attribute_info(alloc)?));
        }
        Ok(None)
    }

    /// What is known of the relation, view, index or catalogue under a key.
    #[tactic(auto, unfolding(base_trait::specs::Known::known_at))]
    pub fn known(&self, alloc: Global, key: &RelKey) -> Result<Option<RelInfo>, OutOfMemory>
        ensures { IfOk result (λ info. info ≡ known_at self.now key.now) }
    {
        match self.entry(key) {
            Some(info) => copied(alloc, info),
            None => self.catalogue_info(alloc, key),
        }
    }

    /// What is known of the relation, view or catalogue under a key; an index is left out.
    #[tactic(auto, unfolding(calculus::specs::Stored::range_at, calculus::specs::Stored::info_at))]
    pub fn ranged(&self, alloc: Global, key: &RelKey) -> Result<Option<RelInfo>, OutOfMemory>
        ensures { IfOk result (λ info. info ≡ info_at self.now key.now) }
    {
        if let Some(relation) = self.relation(key) {
            return copied(alloc, &relation.info);
        }
        match self.viewed(key) {
            Some(view) => copied(alloc, &view.info),
            None => self.catalogue_info(alloc, key),
        }
    }

    /// What is known of the relation, view or catalogue of this owner and name.
    fn ranged_of(
        &self,
        alloc: Global,
        owner: &Name,
        name: &Name,
    ) -> Result<Option<RelInfo>, OutOfMemory>
        ensures { IfOk result (λ info. info ≡ info_at self.now (key_of owner.now name.now)) }
    {
        let (owner, name) = both(owner.copy(alloc), name.copy(alloc))?;
        let key = RelKey { owner, name };
        let info = self.ranged(alloc, &key);
        drop(key);
        info
    }

    /// What the user means by a name.
    #[tactic(auto, unfolding(calculus::specs::Finding::found))]
    pub fn found(
        &self,
        alloc: Global,
        user: &Name,
        name: &Name,
    ) -> Result<Option<RelInfo>, OutOfMemory>
        ensures { IfOk result (λ info. info ≡ found self.now user.now name.now) }
    {
        if let Some(info) = self.ranged_of(alloc, user, name)? {
            return Ok(Some(info));
        }
        self.ranged_of(alloc, self.administrator(), name)
    }
}
