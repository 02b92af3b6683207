//! What a query reads.

ghost use Rattle.std.specs.Prelude.{◌≡◌, ◌&&◌, map, IfOk, Some};
ghost use Rattle.std.specs.List.{list_all};
ghost use Rattle.base_trait.specs.Causes.{HasCause};
ghost use Rattle.calculus.specs.Database.{Db};
ghost use Rattle.calculus.specs.QueryParts.{vars_of};
ghost use Rattle.quel_meaning.specs.FitQueries.{has_few_targets, is_kept, kept_alone, lists_few_vars, reads_fit, slots_count_from, slots_count_up, source_fits, sources_fit};

use crate::slots::slots_count_up;
use crate::sources::{all_sources_fit, has_few_targets, vars_are_kept};
use base_trait::{Base, BaseFault};
use calculus::limits::MOST_EXPANDED_VARIABLES;
use calculus::{QAgg, Query};
use ovqp::aggregates_of;
use std::alloc::Global;

/// Whether a query lists no more variables than one may have that stands for views.
fn lists_few_vars(q: &Query) -> bool
    ensures { result ≡ lists_few_vars q.now }
{
    q.vars.items().len() <= MOST_EXPANDED_VARIABLES
}

/// Whether the variables and the targets of a query are not too many.
fn is_short(q: &Query) -> bool
    ensures { result ≡ (lists_few_vars q.now && has_few_targets q.now) }
{
    lists_few_vars(q) && has_few_targets(q)
}

/// Whether these aggregates are numbered and may be over their sources.
fn aggregates_are_fit<B: Base>(
    alloc: Global,
    base: &mut B,
    aggregates: &[&QAgg],
) -> Result<bool, BaseFault>
    ensures known { (db : Db) → B.schema base.old ≡ Some db → IfOk result (λ fit. fit ≡ (slots_count_from 0 (map (λ g. g.now) aggregates.now) && list_all (λ g. source_fits (kept_alone db) db g.now.source) aggregates.now)) }
    ensures kept { B.database base.new ≡ B.database base.old }
    ensures stays { (s : Db) → B.schema base.old ≡ Some s → B.schema base.new ≡ Some s }
    ensures asked { (b : B) → B.asked b base.old → B.asked b base.new }
    ensures cause { HasCause (B.database base.old) (B.faults base.old) (B.faults base.new) result }
{
    if !slots_count_up(aggregates) {
        return Ok(false);
    }
    all_sources_fit(alloc, base, aggregates)
}

/// Whether a query's aggregates are numbered and may be over their sources.
fn aggregates_fit<B: Base>(alloc: Global, base: &mut B, q: &Query) -> Result<bool, BaseFault>
    ensures known { (db : Db) → B.schema base.old ≡ Some db → IfOk result (λ fit. fit ≡ (slots_count_up q.now && sources_fit (kept_alone db) db q.now)) }
    ensures kept { B.database base.new ≡ B.database base.old }
    ensures stays { (s : Db) → B.schema base.old ≡ Some s → B.schema base.new ≡ Some s }
    ensures asked { (b : B) → B.asked b base.old → B.asked b base.new }
    ensures cause { HasCause (B.database base.old) (B.faults base.old) (B.faults base.new) result }
{
    let aggregates = aggregates_of(alloc, q)?;
    aggregates_are_fit(alloc, base, &aggregates)
}

/// Whether what a query reads is base relations and catalogues, its aggregates are numbered, and its
/// variables and targets are not too many.
pub(crate) fn reads_fit<B: Base>(alloc: Global, base: &mut B, q: &Query) -> Result<bool, BaseFault>
    ensures known { (db : Db) → B.schema base.old ≡ Some db → IfOk result (λ fit. fit ≡ reads_fit (kept_alone db) db q.now) }
    ensures kept { B.database base.new ≡ B.database base.old }
    ensures stays { (s : Db) → B.schema base.old ≡ Some s → B.schema base.new ≡ Some s }
    ensures asked { (b : B) → B.asked b base.old → B.asked b base.new }
    ensures cause { HasCause (B.database base.old) (B.faults base.old) (B.faults base.new) result }
{
    if !is_short(q) {
        return Ok(false);
    }
    if !vars_are_kept(alloc, base, q)? {
        return Ok(false);
    }
    aggregates_fit(alloc, base, q)
}
