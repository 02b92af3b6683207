//! How many variables a query has once the views in it are expanded.

ghost use Rattle.std.specs.Prelude.{◌≡◌, ◌≤◌, ◌-◌, ◌^◌, [], min, length, sum_by, IfOk, OnOk, Some};
ghost use Rattle.base_trait.specs.Causes.{HasCause};
ghost use Rattle.calculus.specs.Database.{Db};
ghost use Rattle.calculus.specs.QueryParts.{vars_of};
ghost use Rattle.calculus.specs.Sizes.{measure_within, query_measure};
ghost use Rattle.view_sizes.specs.Remembered.{AreMeasured};

use crate::measures::{measure_of, measure_through, measure_within};
use crate::remembered::Measures;
use base_trait::{Base, BaseFault};
use calculus::limits::MOST_LEVEL;
use calculus::{Query, RelKey};
use indexmap::IndexMap;
use std::alloc::Global;

/// The variables of what stands under a key, through at most so many levels of views, where some of
/// it was found before.
pub(crate) fn variables_found<B: Base>(
    alloc: Global,
    base: &mut B,
    found: &mut Measures,
    key: &RelKey,
    levels: u8,
) -> Result<u64, BaseFault>
    ensures known { (db : Db) → B.schema base.old ≡ Some db → AreMeasured db found.old.entries → IfOk result (λ n. n ≡ min (measure_within levels db key.now).variables (2 ^ 64 - 1)) }
    ensures found { (db : Db) → B.schema base.old ≡ Some db → AreMeasured db found.old.entries → OnOk result (AreMeasured db found.new.entries) }
    ensures kept { B.database base.new ≡ B.database base.old }
    ensures stays { (s : Db) → B.schema base.old ≡ Some s → B.schema base.new ≡ Some s }
    ensures asked { (b : B) → B.asked b base.old → B.asked b base.new }
    ensures cause { HasCause (B.database base.old) (B.faults base.old) (B.faults base.new) result }
{
    let measure = measure_within(alloc, base, found, key, levels)?;
    Ok(measure.variables)
}

/// The variables of what stands under a key, through at most so many levels of views.
pub fn variables_within<B: Base>(
    alloc: Global,
    base: &mut B,
    key: &RelKey,
    levels: u8,
) -> Result<u64, BaseFault>
    ensures known { (db : Db) → B.schema base.old ≡ Some db → IfOk result (λ n. n ≡ min (measure_within levels db key.now).variables (2 ^ 64 - 1)) }
    ensures kept { B.database base.new ≡ B.database base.old }
    ensures stays { (s : Db) → B.schema base.old ≡ Some s → B.schema base.new ≡ Some s }
    ensures asked { (b : B) → B.asked b base.old → B.asked b base.new }
    ensures cause { HasCause (B.database base.old) (B.faults base.old) (B.faults base.new) result }
{
    let mut found: Measures = IndexMap::new(alloc);
    variables_found(alloc, base, &mut found, key, levels)
}

/// The variables of a query, the views in it put in, where it lists at most 256.
pub fn variables_of<B: Base>(
    alloc: Global,
    base: &mut B,
    query: &Query,
    levels: u8,
) -> Result<u64, BaseFault>
    ensures known { (db : Db) → B.schema base.old ≡ Some db → length (vars_of query.now) ≤ 256 → IfOk result (λ n. n ≡ min (query_measure (measure_within levels db) query.now).variables (2 ^ 64 - 1)) }
    ensures kept { B.database base.new ≡ B.database base.old }
    ensures stays { (s : Db) → B.schema base.old ≡ Some s → B.schema base.new ≡ Some s }
    ensures asked { (b : B) → B.asked b base.old → B.asked b base.new }
    ensures cause { HasCause (B.database base.old) (B.faults base.old) (B.faults base.new) result }
{
    let measure = measure_of(alloc, base, query, levels)?;
    Ok(measure.variables)
}

/// The variables of a query, the views in it put in, where it lists at most 256, and where some of what
/// they range over was found before.
pub(crate) fn variables_through<B: Base>(
    alloc: Global,
    base: &mut B,
    found: &mut Measures,
    query: &Query,
    levels: u8,
) -> Result<u64, BaseFault>
    ensures known { (db : Db) → B.schema base.old ≡ Some db → AreMeasured db found.old.entries → length (vars_of query.now) ≤ 256 → IfOk result (λ n. n ≡ min (query_measure (measure_within levels db) query.now).variables (2 ^ 64 - 1)) }
    ensures found { (db : Db) → B.schema base.old ≡ Some db → AreMeasured db found.old.entries → OnOk result (AreMeasured db found.new.entries) }
    ensures kept { B.database base.new ≡ B.database base.old }
    ensures stays { (s : Db) → B.schema base.old ≡ Some s → B.schema base.new ≡ Some s }
    ensures asked { (b : B) → B.asked b base.old → B.asked b base.new }
    ensures cause { HasCause (B.database base.old) (B.faults base.old) (B.faults base.new) result }
{
    let measure = measure_through(alloc, base, found, query, levels)?;
    Ok(measure.variables)
}

/// The variables of what stands under these keys, all together, where some of it was found before.
pub(crate) fn variables_under_found<B: Base>(
    alloc: Global,
    base: &mut B,
    found: &mut Measures,
    vars: &[RelKey],
) -> Result<u64, BaseFault>
    ensures known { (db : Db) → B.schema base.old ≡ Some db → AreMeasured db found.old.entries → IfOk result (λ n. n ≡ min (sum_by (λ key. (measure_within 16 db key).variables) vars.now) (2 ^ 64 - 1)) }
    ensures found { (db : Db) → B.schema base.old ≡ Some db → AreMeasured db found.old.entries → OnOk result (AreMeasured db found.new.entries) }
    ensures kept { B.database base.new ≡ B.database base.old }
    ensures stays { (s : Db) → B.schema base.old ≡ Some s → B.schema base.new ≡ Some s }
    ensures asked { (b : B) → B.asked b base.old → B.asked b base.new }
    ensures cause { HasCause (B.database base.old) (B.faults base.old) (B.faults base.new) result }
{
    let mut count: u64 = 0;
    for key in vars {
        let more = variables_found(alloc, base, found, key, MOST_LEVEL)?;
        count = count.saturating_add(more);
    }
    Ok(count)
}

/// The variables of what stands under these keys, all together.
pub fn variables_under<B: Base>(
    alloc: Global,
    base: &mut B,
    vars: &[RelKey],
) -> Result<u64, BaseFault>
    ensures known { (db : Db) → B.schema base.old ≡ Some db → IfOk result (λ n. n ≡ min (sum_by (λ key. (measure_within 16 db key).variables) vars.now) (2 ^ 64 - 1)) }
    ensures kept { B.database base.new ≡ B.database base.old }
    ensures stays { (s : Db) → B.schema base.old ≡ Some s → B.schema base.new ≡ Some s }
    ensures asked { (b : B) → B.asked b base.old → B.asked b base.new }
    ensures cause { HasCause (B.database base.old) (B.faults base.old) (B.faults base.new) result }
{
    let mut found: Measures = IndexMap::new(alloc);
    variables_under_found(alloc, base, &mut found, vars)
}
