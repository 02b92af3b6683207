//! Whether the aggregates of a statement may stand.

ghost use Rattle.std.specs.Prelude.{◌≡◌, ◌++◌, flat_map, is_some, map, nat_le, true, IfOk, None, Some};
ghost use Rattle.std.specs.List.{list_all, list_any};
ghost use Rattle.base_trait.specs.Causes.{HasCause};
ghost use Rattle.calculus.specs.Database.{Db};
ghost use Rattle.calculus.specs.Lists.{is_any};
ghost use Rattle.calculus.specs.Sizes.{measure_of, measure_within};
ghost use Rattle.quel_check.specs.Known.{front};
ghost use Rattle.quel_meaning.specs.Aggregates.{aggregate_allowed, aggregates_allowed, holds_another, is_one_plain, keeps_a_text};
ghost use Rattle.quel_meaning.specs.Naming.{name_refusal};
ghost use Rattle.quel_meaning.specs.Scope.{Scope, key_found, ranged};
ghost use Rattle.quel_meaning.specs.WrittenParts.{aggregate_vars, aggregates_in, aggregates_in_qual};
ghost use Rattle.quel_names.specs.Ranging.{each_ranges};

use base_trait::{Base, BaseFault};
use calculus::limits::MOST_LEVEL;
use calculus::{AggTerm, Name, RelKey, Statement, Term};
use quel_check::{
    RangeTable, aggregate_vars, has_aggregate, qual_has_aggregate, term_has_aggregate,
    text_aggregates,
};
use quel_names::ranged;
use std::alloc::Global;
use view_sizes::variables_within;

fn terms_have_aggregate(terms: &[Term]) -> bool
    ensures { result ≡ list_any (λ t. is_any (aggregates_in t)) terms.now }
{
    terms.iter().any(|term| term_has_aggregate(term))
}

/// Whether the by-list or the qualification of an aggregate holds one.
#[tactic(auto, using(quel_check::proofs::AggregateForms::any_joined, crate::proofs::Aggregated::any_of_terms))]
fn holds_behind(g: &AggTerm) -> bool
    ensures { result ≡ is_any (flat_map aggregates_in g.now.by ++ aggregates_in_qual g.now.qual) }
{
    terms_have_aggregate(g.by.items()) || qual_has_aggregate(&g.qual)
}

/// Whether an aggregate holds another one. Takes no memory.
#[tactic(auto, using(quel_check::proofs::AggregateForms::any_joined))]
fn holds_another(g: &AggTerm) -> bool
    ensures { result ≡ holds_another g.now }
{
    term_has_aggregate(&g.arg) || holds_behind(g)
}

/// Whether what stands under a key has at most one variable once the views in it are expanded.
#[tactic(auto, using(view_sizes::proofs::Stopped::stopped_le))]
fn is_plain<B: Base>(alloc: Global, base: &mut B, key: &RelKey) -> Result<bool, BaseFault>
    ensures known { (db : Db) → B.schema base.old ≡ Some db → IfOk result (λ plain. plain ≡ nat_le (measure_within 16 db key.now).variables 1) }
    ensures kept { B.database base.new ≡ B.database base.old }
    ensures stays { (s : Db) → B.schema base.old ≡ Some s → B.schema base.new ≡ Some s }
    ensures asked { (b : B) → B.asked b base.old → B.asked b base.new }
    ensures cause { HasCause (B.database base.old) (B.faults base.old) (B.faults base.new) result }
{
    let count = variables_within(alloc, base, key, MOST_LEVEL)?;
    Ok(count <= 1)
}

/// Whether what a variable ranges over has at most one variable once the views in it are expanded.
fn ranges_plainly<B: Base>(
    alloc: Global,
    base: &mut B,
    ranges: &RangeTable,
    var: &Name,
) -> Result<bool, BaseFault>
    ensures known { (s : Scope) → B.schema base.old ≡ Some s.db → s.ranges ≡ ranges.now → is_some (ranged s var.now) ≡ true → IfOk result (λ plain. plain ≡ nat_le (measure_of s.db (key_found (ranged s var.now))).variables 1) }
    ensures kept { B.database base.new ≡ B.database base.old }
    ensures stays { (s : Db) → B.schema base.old ≡ Some s → B.schema base.new ≡ Some s }
    ensures asked { (b : B) → B.asked b base.old → B.asked b base.new }
    ensures cause { HasCause (B.database base.old) (B.faults base.old) (B.faults base.new) result }
{
    match ranged(alloc, base, ranges, var)? {
        Some(info) => {
            let plain = is_plain(alloc, base, &info.key);
            drop(info);
            plain
        }
        None => Ok(true),
    }
}

/// Whether there is one variable, and what it ranges over has at most one variable once the views in it
/// are put in.
fn is_one_plain<B: Base>(
    alloc: Global,
    base: &mut B,
    ranges: &RangeTable,
    vars: &[Name],
) -> Result<bool, BaseFault>
    ensures known { (s : Scope) → B.schema base.old ≡ Some s.db → s.ranges ≡ ranges.now → each_ranges s (front vars.now) ≡ true → IfOk result (λ plain. plain ≡ is_one_plain s vars.now) }
    ensures kept { B.database base.new ≡ B.database base.old }
    ensures stays { (s : Db) → B.schema base.old ≡ Some s → B.schema base.new ≡ Some s }
    ensures asked { (b : B) → B.asked b base.old → B.asked b base.new }
    ensures cause { HasCause (B.database base.old) (B.faults base.old) (B.faults base.new) result }
{
    let Some((var, others)) = vars.split_first() else {
        return Ok(false);
    };
    if others.is_empty() {
        ranges_plainly(alloc, base, ranges, var)
    } else {
        Ok(false)
    }
}

/// Whether an aggregate is over one variable, which is over no view of several.
fn is_over_one<B: Base>(
    alloc: Global,
    base: &mut B,
    ranges: &RangeTable,
    g: &AggTerm,
) -> Result<bool, BaseFault>
    ensures known { (s : Scope) → B.schema base.old ≡ Some s.db → s.ranges ≡ ranges.now → each_ranges s (front (aggregate_vars g.now)) ≡ true → IfOk result (λ plain. plain ≡ is_one_plain s (aggregate_vars g.now)) }
    ensures kept { B.database base.new ≡ B.database base.old }
    ensures stays { (s : Db) → B.schema base.old ≡ Some s → B.schema base.new ≡ Some s }
    ensures asked { (b : B) → B.asked b base.old → B.asked b base.new }
    ensures cause { HasCause (B.database base.old) (B.faults base.old) (B.faults base.new) result }
{
    let vars = aggregate_vars(alloc, g)?;
    let plain = is_one_plain(alloc, base, ranges, vars.items());
    drop(vars);
    plain
}

/// Whether an aggregate is allowed.
fn aggregate_allowed<B: Base>(
    alloc: Global,
    base: &mut B,
    ranges: &RangeTable,
    g: &AggTerm,
) -> Result<bool, BaseFault>
    ensures known { (s : Scope) → B.schema base.old ≡ Some s.db → s.ranges ≡ ranges.now → each_ranges s (front (aggregate_vars g.now)) ≡ true → IfOk result (λ stands. stands ≡ aggregate_allowed s g.now) }
    ensures kept { B.database base.new ≡ B.database base.old }
    ensures stays { (s : Db) → B.schema base.old ≡ Some s → B.schema base.new ≡ Some s }
    ensures asked { (b : B) → B.asked b base.old → B.asked b base.new }
    ensures cause { HasCause (B.database base.old) (B.faults base.old) (B.faults base.new) result }
{
    if holds_another(g) {
        return Ok(false);
    }
    is_over_one(alloc, base, ranges, g)
}

/// Whether each of these aggregates may stand.
fn all_stand<B: Base>(
    alloc: Global,
    base: &mut B,
    ranges: &RangeTable,
    aggregates: &[&AggTerm],
) -> Result<bool, BaseFault>
    ensures known { (s : Scope) → B.schema base.old ≡ Some s.db → s.ranges ≡ ranges.now → list_all (λ g. each_ranges s (front (aggregate_vars g))) (map (λ g. g.now) aggregates.now) ≡ true → IfOk result (λ stand. stand ≡ list_all (λ g. aggregate_allowed s g.now) aggregates.now) }
    ensures kept { B.database base.new ≡ B.database base.old }
    ensures stays { (s : Db) → B.schema base.old ≡ Some s → B.schema base.new ≡ Some s }
    ensures asked { (b : B) → B.asked b base.old → B.asked b base.new }
    ensures cause { HasCause (B.database base.old) (B.faults base.old) (B.faults base.new) result }
{
    for aggregate in aggregates {
        let stands = aggregate_allowed(alloc, base, ranges, aggregate)?;
        if !stands {
            return Ok(false);
        }
    }
    Ok(true)
}

/// Whether a statement keeps its text: a view, a permit or a rule.
fn keeps_a_text(s: &Statement) -> bool
    ensures { result ≡ keeps_a_text s.now }
{
    match s {
        Statement::View { .. } => true,
        Statement::Permit { .. } => true,
        Statement::Rule { .. } => true,
        _ => false,
    }
}

/// Whether the aggregates of a statement whose names were found may stand: none holds another, and each
/// is over exactly one variable, which is over no view that has several variables once the views in it
/// are put in. In a view, a permit and a rule there may be none.
pub fn aggregates_allowed<B: Base>(
    alloc: Global,
    base: &mut B,
    ranges: &RangeTable,
    s: &Statement,
) -> Result<bool, BaseFault>
    ensures known { (scope : Scope) → B.schema base.old ≡ Some scope.db → scope.ranges ≡ ranges.now → name_refusal scope s.now ≡ None → IfOk result (λ stand. stand ≡ aggregates_allowed scope s.now) }
    ensures kept { B.database base.new ≡ B.database base.old }
    ensures stays { (s : Db) → B.schema base.old ≡ Some s → B.schema base.new ≡ Some s }
    ensures asked { (b : B) → B.asked b base.old → B.asked b base.new }
    ensures cause { HasCause (B.database base.old) (B.faults base.old) (B.faults base.new) result }
{
    if keeps_a_text(s) {
        return Ok(!has_aggregate(s));
    }
    let aggregates = text_aggregates(alloc, s)?;
    all_stand(alloc, base, ranges, &aggregates)
}
