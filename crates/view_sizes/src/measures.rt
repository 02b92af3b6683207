//! What is known of views once the views in them are expanded.

ghost use Rattle.std.specs.Prelude.{◌≡◌, ◌≤◌, ◌<◌, ◌-◌, ◌^◌, ◌∷◌, ◌++◌, [], min, cond, filter, length, map, sum_by, IfOk, OnOk, Some};
ghost use Rattle.std.specs.List.{enumerate_from};
ghost use Rattle.base_trait.specs.Causes.{HasCause};
ghost use Rattle.calculus.specs.Database.{Db};
ghost use Rattle.calculus.specs.Lists.{is_any};
ghost use Rattle.calculus.specs.QueryParts.{vars_of};
ghost use Rattle.calculus.specs.Sizes.{Known, measure_within, plain_measure, query_measure, query_size, term_size};
ghost use Rattle.calculus.specs.Used.{used_in_query, used_vars};
ghost use Rattle.view_sizes.specs.Measured.{held, stopped_measure};
ghost use Rattle.view_sizes.specs.Remembered.{AreMeasured};

use crate::remembered::{Measures, measure_found, remember_measure};
use crate::sizes::{Measure, qual_size, term_size};
use base_trait::{Base, BaseFault};
use calculus::limits::MOST_LEVEL;
use calculus::{OutOfMemory, Query, RelKey, Target};
use indexmap::IndexMap;
use ovqp::is_used;
use std::alloc::Global;

/// This number where the query uses the variable at this place; else 0.
fn if_used(query: &Query, place: u8, amount: u64) -> u64
    ensures { result ≡ cond (is_any (used_in_query place query.now)) amount 0 }
{
    if is_used(query, place) { amount } else { 0 }
}

/// How many variables those are that the query uses, where it lists at most 256.
fn used_variables(query: &Query, vars: &[Measure]) -> u64
    ensures { length vars.now ≤ 256 → result ≡ min (sum_by (λ e. e.1.variables) (filter (λ e. is_any (used_in_query e.0 query.now)) (enumerate_from 0 vars.now))) (2 ^ 64 - 1) }
{
    let mut count: u64 = 0;
    let mut place: u8 = 0;
    for measure in vars {
        let more = if_used(query, place, measure.variables);
        count = count.saturating_add(more);
        place = place.saturating_add(1);
    }
    count
}

/// The sizes of the qualifications of those that the query uses, where it lists at most 256.
fn used_quals(query: &Query, vars: &[Measure]) -> u64
    ensures { length vars.now ≤ 256 → result ≡ min (sum_by (λ e. e.1.qual) (filter (λ e. is_any (used_in_query e.0 query.now)) (enumerate_from 0 vars.now))) (2 ^ 64 - 1) }
{
    let mut count: u64 = 0;
    let mut place: u8 = 0;
    for measure in vars {
        let more = if_used(query, place, measure.qual);
        count = count.saturating_add(more);
        place = place.saturating_add(1);
    }
    count
}

/// The sizes of targets.
fn target_sizes(
    alloc: Global,
    targets: &[Target],
    vars: &[Measure],
) -> Result<Vec<u64>, OutOfMemory>
    ensures { IfOk result (λ sizes. sizes.items ≡ map (λ t. min (term_size (map held vars.now) t.term) (2 ^ 64 - 1)) targets.now) }
{
    let mut sizes = Vec::new(alloc);
    for target in targets {
        sizes.push(term_size(vars, &target.term))?;
    }
    Ok(sizes)
}

/// What a query is, where these are what is known of its variables, at most 256.
fn measured(alloc: Global, query: &Query, vars: &[Measure]) -> Result<Measure, OutOfMemory>
    ensures { (known : Known) → length (vars_of query.now) ≤ 256 → map held vars.now ≡ map (λ key. stopped_measure (known key)) (vars_of query.now)
        → IfOk result (λ m. held m ≡ stopped_measure (query_measure known query.now)) }
{
    let attrs = target_sizes(alloc, query.targets.items(), vars)?;
    let variables = used_variables(query, vars);
    let own = qual_size(vars, &query.qual);
    let below = used_quals(query, vars);
    let qual = own.saturating_add(below);
    Ok(Measure {
        variables,
        attrs,
        qual,
    })
}

/// What is known where rows are kept.
fn plain(alloc: Global) -> Measure
    ensures { held result ≡ stopped_measure plain_measure }
{
    Measure {
        variables: 1,
        attrs: Vec::new(alloc),
        qual: 0,
    }
}

/// Puts what is known of a variable behind the others.
fn put_behind(measures: &mut Vec<Measure>, more: Measure) -> Result<(), OutOfMemory>
    ensures { OnOk result (map held measures.new.items ≡ map held measures.old.items ++ held more ∷ []) }
{
    Ok(measures.push(more)?)
}

/// What is known of what stands under a key, through at most so many levels of views, where some of
/// it was found before.
#[cycle(measures)]
pub(crate) fn measure_within<B: Base>(
    alloc: Global,
    base: &mut B,
    found: &mut Measures,
    key: &RelKey,
    levels: u8,
) -> Result<Measure, BaseFault>
    ensures known { (db : Db) → B.schema base.old ≡ Some db → AreMeasured db found.old.entries → IfOk result (λ m. held m ≡ stopped_measure (measure_within levels db key.now)) }
    ensures found { (db : Db) → B.schema base.old ≡ Some db → AreMeasured db found.old.entries → OnOk result (AreMeasured db found.new.entries) }
    ensures kept { B.database base.new ≡ B.database base.old }
    ensures stays { (s : Db) → B.schema base.old ≡ Some s → B.schema base.new ≡ Some s }
    ensures asked { (b : B) → B.asked b base.old → B.asked b base.new }
    ensures cause { HasCause (B.database base.old) (B.faults base.old) (B.faults base.new) result }
{
    if levels == 0 {
        return Ok(plain(alloc));
    }
    match measure_found(alloc, found, key, levels)? {
        Some(measure) => Ok(measure),
        None => measure_anew(alloc, base, found, key, levels),
    }
}

/// What is known of what stands under a key, through so many levels of views, more than 0: looked
/// for in the base, and remembered where it is a view.
#[cycle(measures)]
fn measure_anew<B: Base>(
    alloc: Global,
    base: &mut B,
    found: &mut Measures,
    key: &RelKey,
    levels: u8,
) -> Result<Measure, BaseFault>
    requires { 0 < levels }
    ensures known { (db : Db) → B.schema base.old ≡ Some db → AreMeasured db found.old.entries → IfOk result (λ m. held m ≡ stopped_measure (measure_within levels db key.now)) }
    ensures found { (db : Db) → B.schema base.old ≡ Some db → AreMeasured db found.old.entries → OnOk result (AreMeasured db found.new.entries) }
    ensures kept { B.database base.new ≡ B.database base.old }
    ensures stays { (s : Db) → B.schema base.old ≡ Some s → B.schema base.new ≡ Some s }
    ensures asked { (b : B) → B.asked b base.old → B.asked b base.new }
    ensures cause { HasCause (B.database base.old) (B.faults base.old) (B.faults base.new) result }
{
    match base.view(alloc, key)? {
        Some(query) => {
            let measure = measure_through(alloc, base, found, &query, levels - 1);
            drop(query);
            let measure = measure?;
            remember_measure(alloc, found, key, levels, &measure)?;
            Ok(measure)
        }
        None => Ok(plain(alloc)),
    }
}

/// What a query is, the views in it put in, where it lists at most 256 variables, and where some of
/// what they range over was found before.
#[cycle(measures)]
pub(crate) fn measure_through<B: Base>(
    alloc: Global,
    base: &mut B,
    found: &mut Measures,
    query: &Query,
    levels: u8,
) -> Result<Measure, BaseFault>
    ensures known { (db : Db) → B.schema base.old ≡ Some db → AreMeasured db found.old.entries → length (vars_of query.now) ≤ 256 → IfOk result (λ m. held m ≡ stopped_measure (query_measure (measure_within levels db) query.now)) }
    ensures found { (db : Db) → B.schema base.old ≡ Some db → AreMeasured db found.old.entries → OnOk result (AreMeasured db found.new.entries) }
    ensures kept { B.database base.new ≡ B.database base.old }
    ensures stays { (s : Db) → B.schema base.old ≡ Some s → B.schema base.new ≡ Some s }
    ensures asked { (b : B) → B.asked b base.old → B.asked b base.new }
    ensures cause { HasCause (B.database base.old) (B.faults base.old) (B.faults base.new) result }
{
    let mut vars = Vec::new(alloc);
    for key in query.vars.items() {
        let more = measure_within(alloc, base, found, key, levels)?;
        put_behind(&mut vars, more)?;
    }
    Ok(measured(alloc, query, &vars)?)
}

/// What a query is, the views in it put in, where it lists at most 256 variables. What stands under a
/// key is looked through once for so many levels.
pub fn measure_of<B: Base>(
    alloc: Global,
    base: &mut B,
    query: &Query,
    levels: u8,
) -> Result<Measure, BaseFault>
    ensures known { (db : Db) → B.schema base.old ≡ Some db → length (vars_of query.now) ≤ 256 → IfOk result (λ m. held m ≡ stopped_measure (query_measure (measure_within levels db) query.now)) }
    ensures kept { B.database base.new ≡ B.database base.old }
    ensures stays { (s : Db) → B.schema base.old ≡ Some s → B.schema base.new ≡ Some s }
    ensures asked { (b : B) → B.asked b base.old → B.asked b base.new }
    ensures cause { HasCause (B.database base.old) (B.faults base.old) (B.faults base.new) result }
{
    let mut found: Measures = IndexMap::new(alloc);
    measure_through(alloc, base, &mut found, query, levels)
}

/// How many variables a query uses, where it lists at most 256.
pub fn used_count(query: &Query) -> u64
    ensures { length (vars_of query.now) ≤ 256 → result ≡ min (length (used_vars query.now)) (2 ^ 64 - 1) }
{
    let mut count: u64 = 0;
    let mut place: u8 = 0;
    for _key in query.vars.items() {
        let more = if_used(query, place, 1);
        count = count.saturating_add(more);
        place = place.saturating_add(1);
    }
    count
}

/// The size of a query as that of a view, the views in it put in, or the greatest number of 64 bits,
/// where it lists at most 256 variables.
pub fn query_size<B: Base>(alloc: Global, base: &mut B, query: &Query) -> Result<u64, BaseFault>
    ensures known { (db : Db) → B.schema base.old ≡ Some db → length (vars_of query.now) ≤ 256 → IfOk result (λ n. n ≡ min (query_size db query.now) (2 ^ 64 - 1)) }
    ensures kept { B.database base.new ≡ B.database base.old }
    ensures stays { (s : Db) → B.schema base.old ≡ Some s → B.schema base.new ≡ Some s }
    ensures asked { (b : B) → B.asked b base.old → B.asked b base.new }
    ensures cause { HasCause (B.database base.old) (B.faults base.old) (B.faults base.new) result }
{
    let measure = measure_of(alloc, base, query, MOST_LEVEL)?;
    Ok(measure.size())
}
