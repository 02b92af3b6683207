//! Whether the rows of a relation meet a qualification.

ghost use Rattle.std.specs.Prelude.{◌≡◌, ◌∷◌, [], not, IfOk, OnOk, Some};
ghost use Rattle.std.specs.List.{list_any};
ghost use Rattle.base_trait.specs.Causes.{HasCause};
ghost use Rattle.calculus.specs.Database.{Db};
ghost use Rattle.calculus.specs.Stored.{rows_at};
ghost use Rattle.calculus.specs.Term.{holds, no_aggs};
ghost use Rattle.quel_meaning.specs.Planned.{is_broken};

use base_trait::{Base, BaseFault};
use calculus::{List, OutOfMemory, Place, Probe, QQual, RelKey, Row, Rule};
use scalar_eval::{Assigned, holds};
use std::alloc::Global;

/// Whether a row doesn't meet a qualification. An aggregate has no value here. `at` has room for the
/// row, and no row before and afterwards.
fn fails(alloc: Global, qual: &QQual, row: Row, at: &mut Assigned) -> Result<bool, OutOfMemory>
    requires none { at.old ≡ [] }
    ensures fails { IfOk result (λ b. b ≡ not (holds no_aggs qual.now (row ∷ []))) }
    ensures none { OnOk result (at.new ≡ []) }
{
    at.push(row)?;
    let met = holds(alloc, qual, at, &[]);
    drop(at.pop());
    match met {
        Ok(met) => Ok(!met),
        Err(error) => Err(error),
    }
}

/// Whether some row of the relation or catalogue under a key doesn't meet a qualification, by one scan
/// up to the first such row.
fn some_row_fails<B: Base>(
    alloc: Global,
    base: &mut B,
    key: &RelKey,
    probe: &Probe,
    qual: &QQual,
    at: &mut Assigned,
) -> Result<bool, BaseFault>
    requires any { probe.now.equal ≡ [] }
    requires none { at.old ≡ [] }
    ensures known { (db : Db) → B.database base.old ≡ Some db → IfOk result (λ b. b ≡ list_any (λ row. not (holds no_aggs qual.now (row ∷ []))) (rows_at db key.now)) }
    ensures kept { B.database base.new ≡ B.database base.old }
    ensures stays { (s : Db) → B.schema base.old ≡ Some s → B.schema base.new ≡ Some s }
    ensures asked { (b : B) → B.asked b base.old → B.asked b base.new }
    ensures cause { HasCause (B.database base.old) (B.faults base.old) (B.faults base.new) result }
{
    let mut place = Place { page: 0, line: 0 };
    for call in 0..1_000_001u32 {
        match base.scan(alloc, key, probe, &mut place)? {
            Some(row) => {
                if fails(alloc, qual, row, at)? {
                    return Ok(true);
                }
            }
            None => return Ok(false),
        }
    }
    Err(BaseFault::Damaged { file: 0, page: 0 })
}

/// Whether some row of the relation breaks a rule. A database has at most 1,000,000 rows under a key;
/// what gives more stands for none, and the fault is `Damaged`.
pub(crate) fn is_broken<B: Base>(
    alloc: Global,
    base: &mut B,
    rel: &RelKey,
    rule: &Rule,
) -> Result<bool, BaseFault>
    ensures known { (db : Db) → B.database base.old ≡ Some db → IfOk result (λ b. b ≡ is_broken db rel.now rule.now) }
    ensures kept { B.database base.new ≡ B.database base.old }
    ensures stays { (s : Db) → B.schema base.old ≡ Some s → B.schema base.new ≡ Some s }
    ensures asked { (b : B) → B.asked b base.old → B.asked b base.new }
    ensures cause { HasCause (B.database base.old) (B.faults base.old) (B.faults base.new) result }
{
    let probe = Probe {
        equal: List::of(Vec::new(alloc)),
    };
    let mut at = Assigned::new(alloc);
    let broken = some_row_fails(alloc, base, rel, &probe, &rule.qual, &mut at);
    drop(at);
    drop(probe);
    broken
}
