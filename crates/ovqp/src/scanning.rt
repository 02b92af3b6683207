//! A scan that gives what each row gives.

ghost use Rattle.std.specs.Prelude.{◌≡◌, [], map, Some, IsFalse, IfOk, OnOk};
ghost use Rattle.calculus.specs.declared.query.Query.{Query};
ghost use Rattle.calculus.specs.Database.{Db};
ghost use Rattle.calculus.specs.Stored.{rows_at};
ghost use Rattle.calculus.specs.Targets.{rows_given, some_lacks};
ghost use Rattle.calculus.specs.Term.{no_aggs};
ghost use Rattle.ovqp.specs.Walk.{Gives};
ghost use Rattle.base_trait.specs.Scans.{first_place};
ghost use Rattle.ovqp.specs.Parts.{IsQueryOf, alone};
ghost use Rattle.ovqp.specs.ScanCauses.{HasCause};

use crate::fault::QueryFault;
use crate::giving::give_of;
use base_trait::{Base, BaseFault};
use calculus::{List, Place, Probe, QQual, RelKey, Row, RowSet, Target};
use std::alloc::Global;

/// Puts what each row under a key gives into an empty list, by one scan.
fn put_scanned<B: Base>(
    alloc: Global,
    base: &mut B,
    rel: &RelKey,
    qual: &QQual,
    targets: &[Target],
    probe: &Probe,
    given: &mut Vec<Row>,
) -> Result<(), QueryFault>
    requires any { probe.now.equal ≡ [] }
    requires empty { given.old.items ≡ [] }
    ensures known { (db : Db) → B.database base.old ≡ Some db → (q : Query) → IsQueryOf q rel.now qual.now targets.now
        → OnOk result (Gives no_aggs q (map alone (B.left base.old rel.now first_place)) [] given.new.items) }
    ensures kept { B.database base.new ≡ B.database base.old }
    ensures stays { (s : Db) → B.schema base.old ≡ Some s → B.schema base.new ≡ Some s }
    ensures asked { (b : B) → B.asked b base.old → B.asked b base.new }
    ensures cause { (q : Query) → IsQueryOf q rel.now qual.now targets.now → HasCause q rel.now (B.database base.old) (B.faults base.old) (B.faults base.new) result }
{
    let mut at = Place { page: 0, line: 0 };
    for call in 0..1_000_001u32 {
        match base.scan(alloc, rel, probe, &mut at)? {
            Some(row) => give_of(alloc, qual, targets, row, given)?,
            None => return Ok(()),
        }
    }
    Err(QueryFault::Base(BaseFault::Damaged { file: 0, page: 0 }))
}

/// The set of what the rows under a key give, by one scan.
pub(crate) fn given_by_scan<B: Base>(
    alloc: Global,
    base: &mut B,
    rel: &RelKey,
    qual: &QQual,
    targets: &[Target],
) -> Result<RowSet, QueryFault>
    ensures rows { (db : Db) → B.database base.old ≡ Some db → (q : Query) → IsQueryOf q rel.now qual.now targets.now
        → IfOk result (λ set. set ≡ rows_given no_aggs q (map alone (rows_at db rel.now))) }
    ensures none_lacks { (db : Db) → B.database base.old ≡ Some db → (q : Query) → IsQueryOf q rel.now qual.now targets.now
        → OnOk result (IsFalse (some_lacks no_aggs q (map alone (rows_at db rel.now)))) }
    ensures kept { B.database base.new ≡ B.database base.old }
    ensures stays { (s : Db) → B.schema base.old ≡ Some s → B.schema base.new ≡ Some s }
    ensures asked { (b : B) → B.asked b base.old → B.asked b base.new }
    ensures cause { (q : Query) → IsQueryOf q rel.now qual.now targets.now → HasCause q rel.now (B.database base.old) (B.faults base.old) (B.faults base.new) result }
{
    let probe = Probe {
        equal: List::of(Vec::new(alloc)),
    };
    let mut given = Vec::new(alloc);
    put_scanned(alloc, base, rel, qual, targets, &probe, &mut given)?;
    Ok(RowSet::of_rows(given))
}
