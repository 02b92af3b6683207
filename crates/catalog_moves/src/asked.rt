//! What a database in memory is asked.

ghost use Rattle.std.specs.Prelude.{◌≡◌, Some, IfOk};
ghost use Rattle.calculus.specs.Database.{Relation, relation_at, rules_on, permits_on};
ghost use Rattle.base_trait.specs.Known.{known_at, query_at};
ghost use Rattle.plain_base.specs.Shown.{database_of};
ghost use Rattle.catalog_moves.specs.Files.{files_of};

use crate::files::FileTable;
use base_trait::Base;
use calculus::{OutOfMemory, Permit, Query, RelInfo, RelKey, Rule};
use plain_base::DbPlain;
use std::alloc::Global;

/// What stands under a key.
pub(crate) fn known(
    alloc: Global,
    plain: &mut DbPlain,
    key: &RelKey,
) -> Result<Option<RelInfo>, OutOfMemory>
    ensures same { database_of plain.new ≡ database_of plain.old }
    ensures known { IfOk result (λ info. info ≡ known_at (database_of plain.old) key.now) }
{
    match plain.info(alloc, key) {
        Ok(info) => Ok(info),
        Err(_) => Err(OutOfMemory),
    }
}

/// The query of the view under a key.
pub(crate) fn query(
    alloc: Global,
    plain: &mut DbPlain,
    key: &RelKey,
) -> Result<Option<Query>, OutOfMemory>
    ensures same { database_of plain.new ≡ database_of plain.old }
    ensures known { IfOk result (λ query. query ≡ query_at (database_of plain.old) key.now) }
{
    match plain.view(alloc, key) {
        Ok(query) => Ok(query),
        Err(_) => Err(OutOfMemory),
    }
}

/// The rules of a relation.
pub(crate) fn rules(
    alloc: Global,
    plain: &mut DbPlain,
    key: &RelKey,
) -> Result<Vec<Rule>, OutOfMemory>
    ensures same { database_of plain.new ≡ database_of plain.old }
    ensures known { IfOk result (λ rules. rules.items ≡ rules_on (database_of plain.old) key.now) }
{
    match plain.rules(alloc, key) {
        Ok(rules) => Ok(rules),
        Err(_) => Err(OutOfMemory),
    }
}

/// The permits of a relation.
pub(crate) fn permits(
    alloc: Global,
    plain: &mut DbPlain,
    key: &RelKey,
) -> Result<Vec<Permit>, OutOfMemory>
    ensures same { database_of plain.new ≡ database_of plain.old }
    ensures known { IfOk result (λ permits. permits.items ≡ permits_on (database_of plain.old) key.now) }
{
    match plain.permits(alloc, key) {
        Ok(permits) => Ok(permits),
        Err(_) => Err(OutOfMemory),
    }
}

/// What is known of the relation under a key. Where there is none, which no lawful change asks for, the
/// answer is want of memory.
pub(crate) fn relation(
    alloc: Global,
    plain: &mut DbPlain,
    key: &RelKey,
) -> Result<RelInfo, OutOfMemory>
    ensures same { database_of plain.new ≡ database_of plain.old }
    ensures known { (r : Relation) → relation_at (database_of plain.old) key.now ≡ Some r → IfOk result (λ info. info ≡ r.info) }
{
    match known(alloc, plain, key)? {
        Some(info) => Ok(info),
        None => Err(OutOfMemory),
    }
}

/// The file of what stands under a key, and how many pages it has; 0 where that isn't known.
pub(crate) fn place(files: &FileTable, key: &RelKey) -> (u32, u32)
    ensures file { result.0 ≡ (files_of files.now).file key.now }
    ensures used { result.1 ≡ (files_of files.now).used key.now }
{
    match files.place(key) {
        Some(place) => place,
        None => (0, 0),
    }
}
