//! The rows that a database keeps under a key.

ghost use Rattle.std.specs.Prelude.{◌≡◌, [], Some, IfOk, OnOk};
ghost use Rattle.calculus.specs.Database.{Db};
ghost use Rattle.calculus.specs.Rows.{set_of};
ghost use Rattle.calculus.specs.Stored.{rows_at};
ghost use Rattle.base_trait.specs.Causes.{HasCause};

use base_trait::{Base, BaseFault};
use calculus::{List, Place, Probe, RelKey, Row, RowSet};
use memory::push;
use std::alloc::Global;

/// Puts the rows of the relation or catalogue under a key into an empty list, by one scan.
fn put_scanned<B: Base>(
    alloc: Global,
    base: &mut B,
    key: &RelKey,
    probe: &Probe,
    rows: &mut Vec<Row>,
) -> Result<(), BaseFault>
    requires any { probe.now.equal ≡ [] }
    requires empty { rows.old.items ≡ [] }
    ensures known { (db : Db) → B.database base.old ≡ Some db → OnOk result (set_of rows.new.items ≡ rows_at db key.now) }
    ensures kept { B.database base.new ≡ B.database base.old }
    ensures stays { (s : Db) → B.schema base.old ≡ Some s → B.schema base.new ≡ Some s }
    ensures asked { (b : B) → B.asked b base.old → B.asked b base.new }
    ensures cause { HasCause (B.database base.old) (B.faults base.old) (B.faults base.new) result }
{
    let mut at = Place { page: 0, line: 0 };
    for call in 0..1_000_001u32 {
        match base.scan(alloc, key, probe, &mut at)? {
            Some(row) => push(rows, row)?,
            None => return Ok(()),
        }
    }
    Err(BaseFault::Damaged { file: 0, page: 0 })
}

/// The set of the rows of the relation or catalogue under a key, by one scan. A database has at most
/// 1,000,000 rows under a key; what gives more stands for none, and the fault is `Damaged`.
pub fn rows_of<B: Base>(alloc: Global, base: &mut B, key: &RelKey) -> Result<RowSet, BaseFault>
    ensures known { (db : Db) → B.database base.old ≡ Some db → IfOk result (λ set. set ≡ rows_at db key.now) }
    ensures kept { B.database base.new ≡ B.database base.old }
    ensures stays { (s : Db) → B.schema base.old ≡ Some s → B.schema base.new ≡ Some s }
    ensures asked { (b : B) → B.asked b base.old → B.asked b base.new }
    ensures cause { HasCause (B.database base.old) (B.faults base.old) (B.faults base.new) result }
{
    let probe = Probe {
        equal: List::of(Vec::new(alloc)),
    };
    let mut rows = Vec::new(alloc);
    put_scanned(alloc, base, key, &probe, &mut rows)?;
    Ok(RowSet::of_rows(rows))
}
