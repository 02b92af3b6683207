//! The parts of a database as the changes that make them.

ghost use Rattle.std.specs.Prelude.{◌≡◌, [], ◌∷◌, map, ◌++◌, IfOk, OnOk};
ghost use Rattle.calculus.specs.declared.change.DbChange.{DbChange as Change};
ghost use Rattle.catalog_read.specs.Parts.{index_in, view_in};
ghost use Rattle.catalog_read.specs.Applying.{made_relation, made_index, made_view, made_rule, made_permit, changes_of};

use crate::parts::{IndexPart, SchemaParts, ViewPart};
use calculus::{DbChange, List, OutOfMemory, Permit, RelInfo, RelKey, Rule, TryCopy};
use memory::both;
use std::alloc::Global;

/// What a change makes.
trait Made {
    /// The change that makes it.
    ghost made: { Self → Change };

    /// The change that makes it.
    fn into_change(self, alloc: Global) -> Result<DbChange, OutOfMemory>
        ensures { IfOk result (λ change. change ≡ made self) };
}

impl Made for RelInfo {
    ghost made = { λ info. made_relation info };

    fn into_change(self, alloc: Global) -> Result<DbChange, OutOfMemory> {
        Ok(DbChange::Create {
            info: self,
            rows: List::of(Vec::new(alloc)),
        })
    }
}

impl Made for IndexPart {
    ghost made = { λ x. made_index (index_in x) };

    fn into_change(self, alloc: Global) -> Result<DbChange, OutOfMemory> {
        let IndexPart { info, base } = self;
        match both(info.key.name.copy(alloc), info.keys.copy(alloc)) {
            Ok((name, keys)) => Ok(DbChange::Index { base, name, keys }),
            Err(error) => Err(error),
        }
    }
}

impl Made for ViewPart {
    ghost made = { λ v. made_view (view_in v) };

    fn into_change(self, _alloc: Global) -> Result<DbChange, OutOfMemory> {
        let ViewPart { info, query } = self;
        Ok(DbChange::View { info, query })
    }
}

impl Made for (RelKey, Rule) {
    ghost made = { λ p. made_rule p };

    fn into_change(self, _alloc: Global) -> Result<DbChange, OutOfMemory> {
        let (rel, rule) = self;
        Ok(DbChange::Rule { rel, rule })
    }
}

impl Made for (RelKey, Permit) {
    ghost made = { λ p. made_permit p };

    fn into_change(self, _alloc: Global) -> Result<DbChange, OutOfMemory> {
        let (rel, permit) = self;
        Ok(DbChange::Permit { rel, permit })
    }
}

/// Puts this behind others.
pub(crate) fn push_one<T: Drop>(items: &mut Vec<T>, item: T) -> Result<(), OutOfMemory>
    ensures { OnOk result (items.new.items ≡ items.old.items ++ item ∷ []) }
{
    Ok(items.push(item)?)
}

/// Puts the change that makes this behind others.
fn push_made<T: Made + Drop>(
    alloc: Global,
    changes: &mut Vec<DbChange>,
    item: T,
) -> Result<(), OutOfMemory>
    ensures { OnOk result (changes.new.items ≡ changes.old.items ++ T.made item ∷ []) }
{
    match item.into_change(alloc) {
        Ok(change) => push_one(changes, change),
        Err(error) => Err(error),
    }
}

/// Puts the changes that make these behind others.
fn push_all<T: Made + Drop>(
    alloc: Global,
    changes: &mut Vec<DbChange>,
    items: List<T>,
) -> Result<(), OutOfMemory>
    ensures { OnOk result (changes.new.items ≡ changes.old.items ++ map (λ x. T.made x) items) }
{
    'items: for item in items.into_items() {
        push_made(alloc, changes, item)?;
    }
    Ok(())
}

/// The changes that make the parts: relations, then indexes, views, rules and permits.
pub(crate) fn changes_of(alloc: Global, parts: SchemaParts) -> Result<Vec<DbChange>, OutOfMemory>
    ensures { IfOk result (λ changes. changes.items ≡ changes_of parts) }
{
    let SchemaParts {
        relations,
        indexes,
        views,
        rules,
        permits,
    } = parts;
    let mut changes = Vec::new(alloc);
    let relations = push_all(alloc, &mut changes, relations);
    let indexes = push_all(alloc, &mut changes, indexes);
    let views = push_all(alloc, &mut changes, views);
    let rules = push_all(alloc, &mut changes, rules);
    let permits = push_all(alloc, &mut changes, permits);
    match both(relations, both(indexes, both(views, both(rules, permits)))) {
        Ok(_) => Ok(changes),
        Err(error) => Err(error),
    }
}
