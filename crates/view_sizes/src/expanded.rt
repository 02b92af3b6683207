//! How many variables a query has once the views in it are expanded, with those of its aggregates.

ghost use Rattle.std.specs.Prelude.{◌≡◌, ◌+◌, ◌-◌, ◌^◌, ◌≤◌, ◌||◌, cond, min, length, map, sum_by, true, IfOk, OnOk, Some};
ghost use Rattle.std.specs.List.{list_all};
ghost use Rattle.base_trait.specs.Causes.{HasCause};
ghost use Rattle.calculus.specs.Assignments.{is_changed};
ghost use Rattle.calculus.specs.Database.{Db};
ghost use Rattle.calculus.specs.Lists.{is_any};
ghost use Rattle.calculus.specs.QueryParts.{query_aggregates, vars_of};
ghost use Rattle.calculus.specs.Sizes.{expanded_variables, measure_of, measure_within, source_variables, update_expanded_variables, update_vars};
ghost use Rattle.calculus.specs.Used.{used_in_query};
ghost use Rattle.quel_meaning.specs.Passing.{listed_expanded_variables};
ghost use Rattle.view_sizes.specs.Listing.{source_lists_few, sources_list_few};
ghost use Rattle.view_sizes.specs.Remembered.{AreMeasured};

use crate::remembered::Measures;
use crate::variables::{variables_found, variables_through, variables_under_found};
use base_trait::{Base, BaseFault};
use calculus::limits::MOST_LEVEL;
use calculus::{AggSource, QAgg, Query, RelKey, Update, UpdateOp};
use indexmap::IndexMap;
use ovqp::{aggregates_of, is_used};
use std::alloc::Global;

/// The variables of an aggregate's source.
fn source_variables<B: Base>(
    alloc: Global,
    base: &mut B,
    found: &mut Measures,
    source: &AggSource,
) -> Result<u64, BaseFault>
    ensures known { (db : Db) → B.schema base.old ≡ Some db → AreMeasured db found.old.entries → source_lists_few source.now ≡ true → IfOk result (λ n. n ≡ min (source_variables (measure_within 16 db) source.now) (2 ^ 64 - 1)) }
    ensures found { (db : Db) → B.schema base.old ≡ Some db → AreMeasured db found.old.entries → OnOk result (AreMeasured db found.new.entries) }
    ensures kept { B.database base.new ≡ B.database base.old }
    ensures stays { (s : Db) → B.schema base.old ≡ Some s → B.schema base.new ≡ Some s }
    ensures asked { (b : B) → B.asked b base.old → B.asked b base.new }
    ensures cause { HasCause (B.database base.old) (B.faults base.old) (B.faults base.new) result }
{
    match source {
        AggSource::Named(key) => variables_found(alloc, base, found, key, MOST_LEVEL),
        AggSource::Rows(query) => variables_through(alloc, base, found, query.get(), MOST_LEVEL),
    }
}

/// The variables of the sources of these aggregates, all together.
fn variables_of_all<B: Base>(
    alloc: Global,
    base: &mut B,
    found: &mut Measures,
    aggregates: &[&QAgg],
) -> Result<u64, BaseFault>
    ensures known { (db : Db) → B.schema base.old ≡ Some db → AreMeasured db found.old.entries → list_all (λ g. source_lists_few g.now.source) aggregates.now ≡ true → IfOk result (λ n. n ≡ min (sum_by (λ g. source_variables (measure_within 16 db) g.now.source) aggregates.now) (2 ^ 64 - 1)) }
    ensures found { (db : Db) → B.schema base.old ≡ Some db → AreMeasured db found.old.entries → OnOk result (AreMeasured db found.new.entries) }
    ensures kept { B.database base.new ≡ B.database base.old }
    ensures stays { (s : Db) → B.schema base.old ≡ Some s → B.schema base.new ≡ Some s }
    ensures asked { (b : B) → B.asked b base.old → B.asked b base.new }
    ensures cause { HasCause (B.database base.old) (B.faults base.old) (B.faults base.new) result }
{
    let mut count: u64 = 0;
    for aggregate in aggregates {
        let more = source_variables(alloc, base, found, &aggregate.source)?;
        count = count.saturating_add(more);
    }
    Ok(count)
}

/// The variables of the sources of a query's aggregates, all together.
fn aggregate_variables<B: Base>(
    alloc: Global,
    base: &mut B,
    found: &mut Measures,
    query: &Query,
) -> Result<u64, BaseFault>
    ensures known { (db : Db) → B.schema base.old ≡ Some db → AreMeasured db found.old.entries → sources_list_few query.now ≡ true → IfOk result (λ n. n ≡ min (sum_by (λ g. source_variables (measure_within 16 db) g.source) (query_aggregates query.now)) (2 ^ 64 - 1)) }
    ensures found { (db : Db) → B.schema base.old ≡ Some db → AreMeasured db found.old.entries → OnOk result (AreMeasured db found.new.entries) }
    ensures kept { B.database base.new ≡ B.database base.old }
    ensures stays { (s : Db) → B.schema base.old ≡ Some s → B.schema base.new ≡ Some s }
    ensures asked { (b : B) → B.asked b base.old → B.asked b base.new }
    ensures cause { HasCause (B.database base.old) (B.faults base.old) (B.faults base.new) result }
{
    let aggregates = aggregates_of(alloc, query)?;
    variables_of_all(alloc, base, found, &aggregates)
}

/// The variables of a query once the views in it are expanded, those of the sources of its aggregates
/// counted too, or the greatest number of 64 bits: those that it uses, where neither it nor the query
/// that is a source lists more than 256.
pub fn expanded_variables<B: Base>(
    alloc: Global,
    base: &mut B,
    query: &Query,
) -> Result<u64, BaseFault>
    ensures known { (db : Db) → B.schema base.old ≡ Some db → length (vars_of query.now) ≤ 256 → sources_list_few query.now ≡ true → IfOk result (λ n. n ≡ min (expanded_variables db query.now) (2 ^ 64 - 1)) }
    ensures kept { B.database base.new ≡ B.database base.old }
    ensures stays { (s : Db) → B.schema base.old ≡ Some s → B.schema base.new ≡ Some s }
    ensures asked { (b : B) → B.asked b base.old → B.asked b base.new }
    ensures cause { HasCause (B.database base.old) (B.faults base.old) (B.faults base.new) result }
{
    let mut found: Measures = IndexMap::new(alloc);
    let own = variables_through(alloc, base, &mut found, query, MOST_LEVEL)?;
    let below = aggregate_variables(alloc, base, &mut found, query)?;
    Ok(own.saturating_add(below))
}

/// The variables that a query lists once the views in it are expanded, those of the sources of its
/// aggregates counted too, or the greatest number of 64 bits, where no query that is a source lists
/// more than 256.
pub fn listed_expanded_variables<B: Base>(
    alloc: Global,
    base: &mut B,
    query: &Query,
) -> Result<u64, BaseFault>
    ensures known { (db : Db) → B.schema base.old ≡ Some db → sources_list_few query.now ≡ true → IfOk result (λ n. n ≡ min (listed_expanded_variables db query.now) (2 ^ 64 - 1)) }
    ensures kept { B.database base.new ≡ B.database base.old }
    ensures stays { (s : Db) → B.schema base.old ≡ Some s → B.schema base.new ≡ Some s }
    ensures asked { (b : B) → B.asked b base.old → B.asked b base.new }
    ensures cause { HasCause (B.database base.old) (B.faults base.old) (B.faults base.new) result }
{
    let mut found: Measures = IndexMap::new(alloc);
    let own = variables_under_found(alloc, base, &mut found, query.vars.items())?;
    let below = aggregate_variables(alloc, base, &mut found, query)?;
    Ok(own.saturating_add(below))
}

/// Whether the place is that of the variable whose rows an update replaces or deletes.
fn is_changed(u: &Update, place: u8) -> bool
    ensures { result ≡ is_changed u.now place }
{
    match u.op {
        UpdateOp::Append | UpdateOp::Into => false,
        UpdateOp::Replace | UpdateOp::Delete => u.old == place,
    }
}

/// Whether the variable at this place of an update counts: it is used, or its rows are replaced or
/// deleted.
fn counts(u: &Update, place: u8) -> bool
    ensures { result ≡ (is_any (used_in_query place u.now.query) || is_changed u.now place) }
{
    is_used(&u.query, place) || is_changed(u, place)
}

/// The variables of what stands under a key where the variable at this place counts; else 0.
fn counted_at<B: Base>(
    alloc: Global,
    base: &mut B,
    found: &mut Measures,
    u: &Update,
    place: u8,
    key: &RelKey,
) -> Result<u64, BaseFault>
    ensures known { (db : Db) → B.schema base.old ≡ Some db → AreMeasured db found.old.entries → IfOk result (λ n. n ≡ cond (is_any (used_in_query place u.now.query) || is_changed u.now place) (min (measure_within 16 db key.now).variables (2 ^ 64 - 1)) 0) }
    ensures found { (db : Db) → B.schema base.old ≡ Some db → AreMeasured db found.old.entries → OnOk result (AreMeasured db found.new.entries) }
    ensures kept { B.database base.new ≡ B.database base.old }
    ensures stays { (s : Db) → B.schema base.old ≡ Some s → B.schema base.new ≡ Some s }
    ensures asked { (b : B) → B.asked b base.old → B.asked b base.new }
    ensures cause { HasCause (B.database base.old) (B.faults base.old) (B.faults base.new) result }
{
    if counts(u, place) {
        variables_found(alloc, base, found, key, MOST_LEVEL)
    } else {
        Ok(0)
    }
}

/// The variables of an update that count, the views in it put in, where it lists at most 256.
fn counted_variables<B: Base>(
    alloc: Global,
    base: &mut B,
    found: &mut Measures,
    u: &Update,
) -> Result<u64, BaseFault>
    ensures known { (db : Db) → B.schema base.old ≡ Some db → AreMeasured db found.old.entries → length (vars_of u.now.query) ≤ 256 → IfOk result (λ n. n ≡ min (sum_by (λ p. (measure_within 16 db p.1).variables) (update_vars u.now)) (2 ^ 64 - 1)) }
    ensures found { (db : Db) → B.schema base.old ≡ Some db → AreMeasured db found.old.entries → OnOk result (AreMeasured db found.new.entries) }
    ensures kept { B.database base.new ≡ B.database base.old }
    ensures stays { (s : Db) → B.schema base.old ≡ Some s → B.schema base.new ≡ Some s }
    ensures asked { (b : B) → B.asked b base.old → B.asked b base.new }
    ensures cause { HasCause (B.database base.old) (B.faults base.old) (B.faults base.new) result }
{
    let mut count: u64 = 0;
    let mut place: u8 = 0;
    for key in u.query.vars.items() {
        let more = counted_at(alloc, base, found, u, place, key)?;
        count = count.saturating_add(more);
        place = place.saturating_add(1);
    }
    Ok(count)
}

/// The variables of an update that count once the views in it are expanded, those of the sources of its
/// aggregates counted too, or the greatest number of 64 bits, where neither its query nor one that is
/// a source lists more than 256.
pub fn update_expanded_variables<B: Base>(
    alloc: Global,
    base: &mut B,
    u: &Update,
) -> Result<u64, BaseFault>
    ensures known { (db : Db) → B.schema base.old ≡ Some db → length (vars_of u.now.query) ≤ 256 → sources_list_few u.now.query ≡ true → IfOk result (λ n. n ≡ min (update_expanded_variables db u.now) (2 ^ 64 - 1)) }
    ensures kept { B.database base.new ≡ B.database base.old }
    ensures stays { (s : Db) → B.schema base.old ≡ Some s → B.schema base.new ≡ Some s }
    ensures asked { (b : B) → B.asked b base.old → B.asked b base.new }
    ensures cause { HasCause (B.database base.old) (B.faults base.old) (B.faults base.new) result }
{
    let mut found: Measures = IndexMap::new(alloc);
    let own = counted_variables(alloc, base, &mut found, u)?;
    let below = aggregate_variables(alloc, base, &mut found, &u.query)?;
    Ok(own.saturating_add(below))
}
