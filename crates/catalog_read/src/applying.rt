//! Changes are applied in rounds, each as soon as it may be.

ghost use Rattle.std.specs.Prelude.{◌≡◌, ◌≤◌, ℕ, true, false, List, [], IfOk, OnOk, IsTrue, length};
ghost use Rattle.calculus.specs.Change.{laid};
ghost use Rattle.calculus.specs.Database.{Db};
ghost use Rattle.calculus.specs.IsDatabase.{IsDatabase};
ghost use Rattle.change_laws.specs.Fit.{change_is_fit};
ghost use Rattle.plain_base.specs.Shown.{database_of};
ghost use Rattle.catalog_read.specs.Parts.{Parts, whole};
ghost use Rattle.catalog_read.specs.Applying.{IsLeft, round, stepped};

use crate::parts_as_changes::push_one;
use calculus::{DbChange, OutOfMemory};
use change_check::fit_change;
use plain_base::DbPlain;
use std::alloc::Global;

/// Whether the change may be applied.
fn is_fit(alloc: Global, plain: &mut DbPlain, change: &DbChange) -> Result<bool, OutOfMemory>
    ensures known { IfOk result (λ fit. fit ≡ change_is_fit (database_of plain.old) change.now) }
    ensures same { database_of plain.new ≡ database_of plain.old }
{
    match fit_change(alloc, plain, change) {
        Ok(fit) => Ok(fit),
        Err(_) => Err(OutOfMemory),
    }
}

/// Applies the change where it may be applied, and says whether it was.
fn fit_or_apply(alloc: Global, plain: &mut DbPlain, change: &DbChange) -> Result<bool, OutOfMemory>
    ensures known { IfOk result (λ done. done ≡ change_is_fit (database_of plain.old) change.now) }
    ensures laid { IfOk result (λ done. done ≡ true → database_of plain.new ≡ laid (database_of plain.old) change.now) }
    ensures kept { IfOk result (λ done. done ≡ false → database_of plain.new ≡ database_of plain.old) }
{
    match is_fit(alloc, plain, change) {
        Ok(true) => match plain.apply_change(alloc, change) {
            Ok(()) => Ok(true),
            Err(error) => Err(error),
        },
        Ok(false) => Ok(false),
        Err(error) => Err(error),
    }
}

/// Applies the change where it may be applied; else it is left.
fn apply_or_leave(
    alloc: Global,
    plain: &mut DbPlain,
    left: &mut Vec<DbChange>,
    change: DbChange,
) -> Result<(), OutOfMemory>
    ensures { OnOk result ((database_of plain.new, left.new.items) ≡ stepped (database_of plain.old) left.old.items change) }
{
    match fit_or_apply(alloc, plain, &change) {
        Ok(true) => Ok(()),
        Ok(false) => push_one(left, change),
        Err(error) => Err(error),
    }
}

/// A round: applies each change that may be applied, one by one, and answers those that are left.
fn apply_some(
    alloc: Global,
    plain: &mut DbPlain,
    changes: Vec<DbChange>,
) -> Result<Vec<DbChange>, OutOfMemory>
    ensures { IfOk result (λ left. (database_of plain.new, left.items) ≡ round (database_of plain.old) changes.items) }
{
    let mut left = Vec::new(alloc);
    'round: for change in changes {
        apply_or_leave(alloc, plain, &mut left, change)?;
    }
    Ok(left)
}

/// A round, and what it says of a database that the changes make.
fn apply_round(
    alloc: Global,
    plain: &mut DbPlain,
    changes: Vec<DbChange>,
) -> Result<Vec<DbChange>, OutOfMemory>
    ensures fewer { IfOk result (λ left. length left.items ≤ length changes.items) }
    ensures left { IfOk result (λ left. (dba : List ℕ) (parts : Parts) → IsLeft dba changes.items (database_of plain.old) parts → IsLeft dba left.items (database_of plain.new) parts) }
    ensures stuck { IfOk result (λ left. length left.items ≡ length changes.items → (length changes.items ≡ 0 → ⊥)
        → (dba : List ℕ) (parts : Parts) (db : Db) → IsLeft dba changes.items (database_of plain.old) parts → whole dba parts ≡ Some db → IsDatabase db → ⊥) }
{
    let left = apply_some(alloc, plain, changes)?;
    Ok(left)
}

/// Applies all changes, in rounds; false where a round applies none of those that are left.
pub(crate) fn apply_all(
    alloc: Global,
    plain: &mut DbPlain,
    changes: Vec<DbChange>,
) -> Result<bool, OutOfMemory>
    ensures built { IfOk result (λ done. done ≡ true → (dba : List ℕ) (parts : Parts) → IsLeft dba changes.items (database_of plain.old) parts → IsLeft dba [] (database_of plain.new) parts) }
    ensures stuck { IfOk result (λ done. done ≡ false
        → (dba : List ℕ) (parts : Parts) (db : Db) → IsLeft dba changes.items (database_of plain.old) parts → whole dba parts ≡ Some db → IsDatabase db → ⊥) }
{
    let mut left = changes;
    'rounds: while !left.is_empty() {
        let before = left.len();
        left = apply_round(alloc, plain, left)?;
        if left.len() == before {
            return Ok(false);
        }
    }
    Ok(true)
}
