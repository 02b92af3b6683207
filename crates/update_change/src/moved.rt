//! The change of the rows of a relation that stands.

ghost use Rattle.std.specs.Prelude.{◌≡◌, ◌≤◌, filter, length, Some, IsFalse, IfOk, OnOk};
ghost use Rattle.calculus.specs.Database.{Db};
ghost use Rattle.calculus.specs.Limits.{most_rows};
ghost use Rattle.calculus.specs.Replacement.{after, contended, without_rows};
ghost use Rattle.calculus.specs.Rows.{has, set_of};
ghost use Rattle.calculus.specs.Stored.{rows_at};
ghost use Rattle.base_trait.specs.Causes.{HasCause as HasBaseCause};
ghost use Rattle.update_change.specs.Causes.{HasCause};

use crate::limit::{are_too_many, rows_left};
use crate::pairs_rows::pairs_rows;
use crate::present::{rows_absent, rows_present};
use crate::{UpdateFault, without};
use base_trait::{Base, BaseFault};
use calculus::{Change, Pair, RelKey, RowSet, Update};
use std::alloc::Global;

/// Of old rows those that are there and not new, and of new ones those that aren't there.
fn rows_asked<B: Base>(
    alloc: Global,
    base: &mut B,
    key: &RelKey,
    old: RowSet,
    new: RowSet,
) -> Result<Change, BaseFault>
    ensures removed { (db : Db) → B.database base.old ≡ Some db
        → IfOk result (λ change. change.remove ≡ set_of (filter (has (rows_at db key.now)) (without_rows new old))) }
    ensures added { (db : Db) → B.database base.old ≡ Some db
        → IfOk result (λ change. change.add ≡ set_of (without_rows (rows_at db key.now) new)) }
    ensures kept { B.database base.new ≡ B.database base.old }
    ensures stays { (s : Db) → B.schema base.old ≡ Some s → B.schema base.new ≡ Some s }
    ensures asked { (b : B) → B.asked b base.old → B.asked b base.new }
    ensures cause { HasBaseCause (B.database base.old) (B.faults base.old) (B.faults base.new) result }
{
    let going = without(old, &new);
    match rows_present(alloc, base, key, going.into_rows()) {
        Ok(remove) => match rows_absent(alloc, base, key, new.into_rows()) {
            Ok(add) => Ok(Change { remove, add }),
            Err(error) => {
                drop(remove);
                Err(error)
            }
        },
        Err(error) => {
            drop(new);
            Err(error)
        }
    }
}

/// The rows that go and those that come, however many stand after.
fn pairs_asked<B: Base>(
    alloc: Global,
    base: &mut B,
    u: &Update,
    pairs: Vec<Pair>,
) -> Result<Change, UpdateFault>
    ensures removed { (db : Db) → B.database base.old ≡ Some db
        → IfOk result (λ change. change.remove ≡ without_rows (after (rows_at db u.now.rel) pairs.items) (rows_at db u.now.rel)) }
    ensures added { (db : Db) → B.database base.old ≡ Some db
        → IfOk result (λ change. change.add ≡ without_rows (rows_at db u.now.rel) (after (rows_at db u.now.rel) pairs.items)) }
    ensures uncontended { OnOk result (IsFalse (contended pairs.items)) }
    ensures kept { B.database base.new ≡ B.database base.old }
    ensures stays { (s : Db) → B.schema base.old ≡ Some s → B.schema base.new ≡ Some s }
    ensures asked { (b : B) → B.asked b base.old → B.asked b base.new }
    ensures cause { HasCause u.now pairs.items (B.database base.old) (B.faults base.old) (B.faults base.new) result }
{
    match pairs_rows(alloc, pairs) {
        Ok((old, new)) => Ok(rows_asked(alloc, base, &u.rel, old, new)?),
        Err(fault) => Err(fault),
    }
}

/// The rows that go and those that come in the relation that is changed.
pub(crate) fn rows_moved<B: Base>(
    alloc: Global,
    base: &mut B,
    u: &Update,
    pairs: Vec<Pair>,
) -> Result<Change, UpdateFault>
    ensures removed { (db : Db) → B.database base.old ≡ Some db
        → IfOk result (λ change. change.remove ≡ without_rows (after (rows_at db u.now.rel) pairs.items) (rows_at db u.now.rel)) }
    ensures added { (db : Db) → B.database base.old ≡ Some db
        → IfOk result (λ change. change.add ≡ without_rows (rows_at db u.now.rel) (after (rows_at db u.now.rel) pairs.items)) }
    ensures uncontended { OnOk result (IsFalse (contended pairs.items)) }
    ensures few { (db : Db) → B.database base.old ≡ Some db → OnOk result (length (after (rows_at db u.now.rel) pairs.items) ≤ most_rows) }
    ensures kept { B.database base.new ≡ B.database base.old }
    ensures stays { (s : Db) → B.schema base.old ≡ Some s → B.schema base.new ≡ Some s }
    ensures asked { (b : B) → B.asked b base.old → B.asked b base.new }
    ensures cause { HasCause u.now pairs.items (B.database base.old) (B.faults base.old) (B.faults base.new) result }
{
    let change = pairs_asked(alloc, base, u, pairs)?;
    let left = rows_left(alloc, base, &u.rel, &change)?;
    if are_too_many(left) {
        drop(change);
        return Err(UpdateFault::TooMany { rows: left as u64 });
    }
    Ok(change)
}
