//! Views that are made.

ghost use Rattle.std.specs.Prelude.{◌≡◌, ◌&&◌, ◌+◌, ◌-◌, ◌^◌, ◌≤◌, [], length, min, nat_le, not, sum, IfOk, Some};
ghost use Rattle.base_trait.specs.Causes.{HasCause};
ghost use Rattle.calculus.specs.Database.{Db};
ghost use Rattle.calculus.specs.IsDatabase.{attrs_are_targets, attrs_stand, valid_query, vars_are_there, valid_view_info};
ghost use Rattle.calculus.specs.QueryParts.{query_aggregates, targets_of, vars_of};
ghost use Rattle.calculus.specs.Sizes.{expanded_variables, query_level, query_size, variables};
ghost use Rattle.calculus.specs.Storable.{query_is_storable};
ghost use Rattle.change_laws.specs.Fit.{key_is_free, view_is_fit, view_is_small};
ghost use Rattle.quel_meaning.specs.Passing.{is_too_high};

use crate::described::{attrs_stand, valid_view_info};
use crate::keys::key_is_free;
use base_trait::{Base, BaseFault};
use calculus::limits::{
    MOST_EXPANDED_VARIABLES, MOST_LEVEL, MOST_SIZE, MOST_TREE_LEVELS, MOST_VARIABLES,
};
use calculus::{Attr, OutOfMemory, Query, RelInfo, Target, kinds_fit};
use quel_refusals::{same_kind, targets_fit, var_kinds};
use std::alloc::Global;
use update_laws::query_is_spelled;
use view_sizes::{Measure, are_ranges, has_high_level, measure_of, query_depth, used_count};

/// The variables of a query as it stands at most.
const MOST_USED: u64 = MOST_VARIABLES as u64;

/// The variables of a query once the views in it are expanded, at most.
const MOST_EXPANDED: u64 = MOST_EXPANDED_VARIABLES as u64;

/// The variables that a query lists at most.
const MOST_LISTED: usize = 50;

/// The levels of a tree that is stored at most.
const MOST_LEVELS: u64 = MOST_TREE_LEVELS as u64;

/// Whether the attributes have the names and kinds of the targets, one by one.
fn attrs_are_targets(attrs: &[Attr], targets: &[Target]) -> bool
    ensures { result ≡ attrs_are_targets attrs.now targets.now }
{
    let Some((attr, other_attrs)) = attrs.split_first() else {
        return targets.is_empty();
    };
    let Some((target, other_targets)) = targets.split_first() else {
        return false;
    };
    attr.name.bytes() == target.name.bytes()
        && same_kind(attr.kind, target.kind)
        && attrs_are_targets(other_attrs, other_targets)
}

/// Whether what the variables of a query range over is there.
fn vars_are_there<B: Base>(alloc: Global, base: &mut B, query: &Query) -> Result<bool, BaseFault>
    ensures known { (db : Db) → B.schema base.old ≡ Some db → IfOk result (λ there. there ≡ vars_are_there db query.now) }
    ensures kept { B.database base.new ≡ B.database base.old }
    ensures stays { (s : Db) → B.schema base.old ≡ Some s → B.schema base.new ≡ Some s }
    ensures asked { (b : B) → B.asked b base.old → B.asked b base.new }
    ensures cause { HasCause (B.database base.old) (B.faults base.old) (B.faults base.new) result }
{
    are_ranges(alloc, base, query.vars.items())
}

/// Whether the attributes have the names and kinds of the query's targets.
fn has_targets(attrs: &[Attr], query: &Query) -> bool
    ensures { result ≡ attrs_are_targets attrs.now (targets_of query.now) }
{
    attrs_are_targets(attrs, query.targets.items())
}

/// Whether the kinds in a query fit, and each target is of its kind.
pub fn valid_query<B: Base>(alloc: Global, base: &mut B, query: &Query) -> Result<bool, BaseFault>
    ensures known { (db : Db) → B.schema base.old ≡ Some db → IfOk result (λ stands. stands ≡ valid_query db query.now) }
    ensures kept { B.database base.new ≡ B.database base.old }
    ensures stays { (s : Db) → B.schema base.old ≡ Some s → B.schema base.new ≡ Some s }
    ensures asked { (b : B) → B.asked b base.old → B.asked b base.new }
    ensures cause { HasCause (B.database base.old) (B.faults base.old) (B.faults base.new) result }
{
    let kinds = var_kinds(alloc, base, query.vars.items())?;
    Ok(targets_fit(query.targets.items(), &kinds) && kinds_fit(&query.qual, &kinds))
}

/// Whether a query lists no more variables than a view may.
fn lists_few(query: &Query) -> bool
    ensures { result ≡ nat_le (length (vars_of query.now)) 50 }
{
    query.vars.items().len() <= MOST_LISTED
}

/// Whether a query without aggregates, which lists at most 256 variables, has no more of them than it may.
fn uses_few(query: &Query) -> bool
    ensures { length (vars_of query.now) ≤ 256 → query_aggregates query.now ≡ [] → result ≡ nat_le (variables query.now) 10 }
{
    used_count(query) <= MOST_USED
}

/// Whether variables and size are within the limits of a view.
fn is_within(measure: &Measure) -> bool
    ensures { result ≡ (nat_le measure.now.variables 50 && nat_le (min (sum measure.now.attrs.items + measure.now.qual) (2 ^ 64 - 1)) 1000) }
{
    measure.variables <= MOST_EXPANDED && measure.size() <= MOST_SIZE
}

/// Whether a query without aggregates is within the limits of a view once the views in it are expanded.
fn measure_fits<B: Base>(alloc: Global, base: &mut B, query: &Query) -> Result<bool, BaseFault>
    ensures known { (db : Db) → B.schema base.old ≡ Some db → length (vars_of query.now) ≤ 256 → query_aggregates query.now ≡ [] → IfOk result (λ fits. fits ≡ (nat_le (expanded_variables db query.now) 50 && nat_le (query_size db query.now) 1000)) }
    ensures kept { B.database base.new ≡ B.database base.old }
    ensures stays { (s : Db) → B.schema base.old ≡ Some s → B.schema base.new ≡ Some s }
    ensures asked { (b : B) → B.asked b base.old → B.asked b base.new }
    ensures cause { HasCause (B.database base.old) (B.faults base.old) (B.faults base.new) result }
{
    let measure = measure_of(alloc, base, query, MOST_LEVEL)?;
    Ok(is_within(&measure))
}

/// Whether the tree of a query without aggregates can be stored: it is no deeper than one that is
/// stored may be, and its constants are those of their types.
fn can_be_stored(query: &Query) -> bool
    ensures { query_aggregates query.now ≡ [] → result ≡ query_is_storable query.now }
{
    query_is_spelled(query);
    query_depth(query) <= MOST_LEVELS
}

/// Whether a view of this query, in which no aggregate stands, is within the limits.
fn view_is_small<B: Base>(alloc: Global, base: &mut B, query: &Query) -> Result<bool, BaseFault>
    ensures known { (db : Db) → B.schema base.old ≡ Some db → query_aggregates query.now ≡ [] → IfOk result (λ small. small ≡ view_is_small db query.now) }
    ensures kept { B.database base.new ≡ B.database base.old }
    ensures stays { (s : Db) → B.schema base.old ≡ Some s → B.schema base.new ≡ Some s }
    ensures asked { (b : B) → B.asked b base.old → B.asked b base.new }
    ensures cause { HasCause (B.database base.old) (B.faults base.old) (B.faults base.new) result }
{
    if !lists_few(query) {
        return Ok(false);
    }
    if !uses_few(query) {
        return Ok(false);
    }
    let fits = measure_fits(alloc, base, query)?;
    Ok(fits && can_be_stored(query))
}

/// Whether a query stands as that of a view, and is within the limits.
fn query_is_fit<B: Base>(alloc: Global, base: &mut B, query: &Query) -> Result<bool, BaseFault>
    ensures known { (db : Db) → B.schema base.old ≡ Some db → IfOk result (λ fit. fit ≡ (valid_query db query.now && view_is_small db query.now)) }
    ensures kept { B.database base.new ≡ B.database base.old }
    ensures stays { (s : Db) → B.schema base.old ≡ Some s → B.schema base.new ≡ Some s }
    ensures asked { (b : B) → B.asked b base.old → B.asked b base.new }
    ensures cause { HasCause (B.database base.old) (B.faults base.old) (B.faults base.new) result }
{
    let stands = valid_query(alloc, base, query)?;
    if !stands {
        return Ok(false);
    }
    view_is_small(alloc, base, query)
}

/// Whether what a query names is there, is not on too many levels, and the query is one of a view.
pub fn view_query_is_fit<B: Base>(
    alloc: Global,
    base: &mut B,
    query: &Query,
) -> Result<bool, BaseFault>
    ensures known { (db : Db) → B.schema base.old ≡ Some db → IfOk result (λ fit. fit ≡ (vars_are_there db query.now && (not (is_too_high (query_level db query.now)) && (valid_query db query.now && view_is_small db query.now)))) }
    ensures kept { B.database base.new ≡ B.database base.old }
    ensures stays { (s : Db) → B.schema base.old ≡ Some s → B.schema base.new ≡ Some s }
    ensures asked { (b : B) → B.asked b base.old → B.asked b base.new }
    ensures cause { HasCause (B.database base.old) (B.faults base.old) (B.faults base.new) result }
{
    if !vars_are_there(alloc, base, query)? {
        return Ok(false);
    }
    if has_high_level(alloc, base, query)? {
        return Ok(false);
    }
    query_is_fit(alloc, base, query)
}

/// Whether a view's attributes stand, and are the targets of its query.
fn view_attrs_stand(alloc: Global, info: &RelInfo, query: &Query) -> Result<bool, OutOfMemory>
    ensures { IfOk result (λ stand. stand ≡ (valid_view_info info.now && (attrs_stand info.now.attrs && attrs_are_targets info.now.attrs (targets_of query.now)))) }
{
    if !valid_view_info(info) {
        return Ok(false);
    }
    let attrs = info.attrs.items();
    if !attrs_stand(alloc, attrs)? {
        return Ok(false);
    }
    Ok(has_targets(attrs, query))
}

/// Whether a view has what one must have, asked part by part.
fn view_has_parts<B: Base>(
    alloc: Global,
    base: &mut B,
    info: &RelInfo,
    query: &Query,
) -> Result<bool, BaseFault>
    ensures known { (db : Db) → B.schema base.old ≡ Some db → IfOk result (λ fit. fit ≡ (key_is_free db info.now.key && ((valid_view_info info.now && (attrs_stand info.now.attrs && attrs_are_targets info.now.attrs (targets_of query.now))) && (vars_are_there db query.now && (not (is_too_high (query_level db query.now)) && (valid_query db query.now && view_is_small db query.now)))))) }
    ensures kept { B.database base.new ≡ B.database base.old }
    ensures stays { (s : Db) → B.schema base.old ≡ Some s → B.schema base.new ≡ Some s }
    ensures asked { (b : B) → B.asked b base.old → B.asked b base.new }
    ensures cause { HasCause (B.database base.old) (B.faults base.old) (B.faults base.new) result }
{
    if !key_is_free(alloc, base, &info.key)? {
        return Ok(false);
    }
    if !view_attrs_stand(alloc, info, query)? {
        return Ok(false);
    }
    view_query_is_fit(alloc, base, query)
}

/// Whether a view may be made: its key is free, it is kept as a view whose attributes are the targets
/// of its query, what that names is there, its kinds fit, and its level and sizes are within the limits.
pub(crate) fn view_is_fit<B: Base>(
    alloc: Global,
    base: &mut B,
    info: &RelInfo,
    query: &Query,
) -> Result<bool, BaseFault>
    ensures known { (db : Db) → B.schema base.old ≡ Some db → IfOk result (λ fit. fit ≡ view_is_fit db info.now query.now) }
    ensures kept { B.database base.new ≡ B.database base.old }
    ensures stays { (s : Db) → B.schema base.old ≡ Some s → B.schema base.new ≡ Some s }
    ensures asked { (b : B) → B.asked b base.old → B.asked b base.new }
    ensures cause { HasCause (B.database base.old) (B.faults base.old) (B.faults base.new) result }
{
    view_has_parts(alloc, base, info, query)
}
