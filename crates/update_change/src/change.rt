//! The change that the pairs of an update make of a database.

ghost use Rattle.std.specs.Prelude.{◌≡◌, ◌≤◌, length, Some, IsFalse, IfOk, OnOk};
ghost use Rattle.calculus.specs.Database.{Db};
ghost use Rattle.calculus.specs.Limits.{most_rows};
ghost use Rattle.calculus.specs.Pairs.{pairs as update_pairs};
ghost use Rattle.calculus.specs.Replacement.{after, contended, change_of, rows_change};
ghost use Rattle.calculus.specs.Stored.{rows_at};
ghost use Rattle.calculus.specs.Who.{Who};
ghost use Rattle.update_change.specs.Causes.{HasCause};
ghost use Rattle.update_change.specs.Changes.{is_into, change_by, MakesNew};

use crate::UpdateFault;
use crate::moved::rows_moved;
use crate::new_relation::relation_made;
use base_trait::Base;
use calculus::{DbChange, List, OutOfMemory, Pair, TryCopy, Update, UpdateOp};
use std::alloc::Global;

/// Whether the update makes a relation.
fn is_into(op: UpdateOp) -> bool
    ensures { result ≡ is_into op }
{
    match op {
        UpdateOp::Append => false,
        UpdateOp::Replace => false,
        UpdateOp::Delete => false,
        UpdateOp::Into => true,
    }
}

/// The change of the rows of the relation that is changed.
fn rows_change<B: Base>(
    alloc: Global,
    base: &mut B,
    u: &Update,
    pairs: Vec<Pair>,
) -> Result<DbChange, UpdateFault>
    ensures change { (db : Db) → B.database base.old ≡ Some db
        → IfOk result (λ c. c ≡ rows_change u.now (rows_at db u.now.rel) (after (rows_at db u.now.rel) pairs.items)) }
    ensures uncontended { OnOk result (IsFalse (contended pairs.items)) }
    ensures few { (db : Db) → B.database base.old ≡ Some db → OnOk result (length (after (rows_at db u.now.rel) pairs.items) ≤ most_rows) }
    ensures kept { B.database base.new ≡ B.database base.old }
    ensures stays { (s : Db) → B.schema base.old ≡ Some s → B.schema base.new ≡ Some s }
    ensures asked { (b : B) → B.asked b base.old → B.asked b base.new }
    ensures cause { HasCause u.now pairs.items (B.database base.old) (B.faults base.old) (B.faults base.new) result }
{
    let change = rows_moved(alloc, base, u, pairs)?;
    match u.rel.copy(alloc) {
        Ok(rel) => {
            let (remove, add) = change.into_parts();
            Ok(DbChange::Rows {
                rel,
                remove: List::of(remove.into_rows()),
                add: List::of(add.into_rows()),
            })
        }
        Err(OutOfMemory) => Err(UpdateFault::OutOfMemory),
    }
}

/// The change that these pairs of an update make of a database. All pairs take effect at once, on the
/// rows before. An append, a replace or a delete lets rows of the relation go and come; an update
/// into a new relation makes it, a heap with the set of the new rows. It is `Contended` exactly where
/// an old row has different new rows, and carries the least such row and the two least of its new
/// rows; else `TooMany` exactly where more rows would stand than a relation may have, and carries their
/// number. Doesn't go over the rows of the relation: it asks for their number, and for each row that the
/// pairs name.
pub fn change_of<B: Base>(
    alloc: Global,
    base: &mut B,
    u: &Update,
    pairs: Vec<Pair>,
) -> Result<DbChange, UpdateFault>
    ensures change { (db : Db) → B.database base.old ≡ Some db → MakesNew db u.now → IfOk result (λ c. c ≡ change_by db u.now pairs.items) }
    ensures meaning { (db : Db) → B.database base.old ≡ Some db → MakesNew db u.now
        → (who : Who) → pairs.items ≡ update_pairs db who u.now → IfOk result (λ c. c ≡ change_of db who u.now) }
    ensures uncontended { OnOk result (IsFalse (contended pairs.items)) }
    ensures few { (db : Db) → B.database base.old ≡ Some db → MakesNew db u.now
        → OnOk result (length (after (rows_at db u.now.rel) pairs.items) ≤ most_rows) }
    ensures kept { B.database base.new ≡ B.database base.old }
    ensures stays { (s : Db) → B.schema base.old ≡ Some s → B.schema base.new ≡ Some s }
    ensures asked { (b : B) → B.asked b base.old → B.asked b base.new }
    ensures cause { HasCause u.now pairs.items (B.database base.old) (B.faults base.old) (B.faults base.new) result }
{
    if is_into(u.op) {
        relation_made(alloc, u, pairs)
    } else {
        rows_change(alloc, base, u, pairs)
    }
}
