//! A database without rows is built of its parts.

ghost use Rattle.std.specs.Prelude.{◌≡◌, ℕ, true, List as Items, [], Some, None, IfOk};
ghost use Rattle.std.specs.List.{list_all};
ghost use Rattle.std.specs.Option.{ForSome};
ghost use Rattle.calculus.specs.Database.{Db};
ghost use Rattle.calculus.specs.IsDatabase.{IsDatabase};
ghost use Rattle.plain_base.specs.Shown.{database_of};
ghost use Rattle.catalog_read.specs.Parts.{Parts, parts_in, whole, index_in, index_owners_agree};
ghost use Rattle.catalog_read.specs.Applying.{IsLeft, nothing_in, is_of_its_base};

use crate::applying::apply_all;
use crate::parts::{IndexPart, SchemaParts};
use crate::parts_as_changes::changes_of;
use calculus::{DbChange, Name, OutOfMemory, Spec};
use plain_base::DbPlain;
use std::alloc::Global;

/// Whether the index is as a change makes it.
fn is_of_its_base(index: &IndexPart) -> bool
    ensures { result ≡ is_of_its_base (index_in index.now) }
{
    index.info.spec == Spec::Index
        && index.info.attrs.items().is_empty()
        && index.info.key.owner.bytes() == index.base.owner.bytes()
}

/// Whether each index is as a change makes it.
fn are_of_their_bases(indexes: &[IndexPart]) -> bool
    ensures { result ≡ list_all (λ x. is_of_its_base (index_in x)) indexes.now }
{
    indexes.iter().all(is_of_its_base)
}

/// The database of this administrator that the changes make.
fn laid_on_nothing(
    alloc: Global,
    dba: Name,
    changes: Vec<DbChange>,
) -> Result<Option<DbPlain>, OutOfMemory>
    ensures built { IfOk result (λ found. ForSome found (λ plain. (owner : Items ℕ) (parts : Parts) → IsLeft owner changes.items (nothing_in dba) parts → IsLeft owner [] (database_of plain) parts)) }
    ensures refused { IfOk result (λ found. found ≡ None
        → (owner : Items ℕ) (parts : Parts) (db : Db) → IsLeft owner changes.items (nothing_in dba) parts → whole owner parts ≡ Some db → IsDatabase db → ⊥) }
{
    let mut plain = DbPlain::new(alloc, dba);
    match apply_all(alloc, &mut plain, changes) {
        Ok(true) => Ok(Some(plain)),
        Ok(false) => Ok(None),
        Err(error) => Err(error),
    }
}

/// The database of this administrator that the parts make, without rows; `None` only where they make
/// none, or one in which an index has another owner than its relation.
pub fn build_schema(
    alloc: Global,
    dba: Name,
    parts: SchemaParts,
) -> Result<Option<DbPlain>, OutOfMemory>
    ensures built { IfOk result (λ found. ForSome found (λ plain. whole dba (parts_in parts) ≡ Some (database_of plain))) }
    ensures owners { IfOk result (λ found. ForSome found (λ plain. index_owners_agree (database_of plain) ≡ true)) }
    ensures refused { IfOk result (λ found. found ≡ None → (db : Db) → whole dba (parts_in parts) ≡ Some db → IsDatabase db → index_owners_agree db ≡ true → ⊥) }
{
    if !are_of_their_bases(parts.indexes.items()) {
        return Ok(None);
    }
    match changes_of(alloc, parts) {
        Ok(changes) => laid_on_nothing(alloc, dba, changes),
        Err(error) => Err(error),
    }
}
