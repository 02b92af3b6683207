//! The sources of aggregates: base relations and catalogues, or the rows of queries over one at most.

ghost use Rattle.std.specs.Prelude.{◌≡◌, ◌&&◌, length, nat_le, IfOk, Some};
ghost use Rattle.std.specs.List.{list_all};
ghost use Rattle.base_trait.specs.Causes.{HasCause};
ghost use Rattle.calculus.specs.Database.{Db};
ghost use Rattle.calculus.specs.IsDatabase.{valid_query};
ghost use Rattle.calculus.specs.QueryParts.{vars_of};
ghost use Rattle.quel_meaning.specs.FitQueries.{has_few_targets, is_kept, kept_alone, source_fits};

use crate::standing::{are_kept, is_kept};
use base_trait::{Base, BaseFault};
use calculus::limits::MOST_ATTRIBUTES;
use calculus::{AggSource, QAgg, Query};
use change_check::valid_query;
use std::alloc::Global;

/// Whether a query has no more targets than a relation may have attributes.
pub(crate) fn has_few_targets(q: &Query) -> bool
    ensures { result ≡ has_few_targets q.now }
{
    q.targets.items().len() <= MOST_ATTRIBUTES
}

/// Whether a query lists one variable at most.
fn lists_one(q: &Query) -> bool
    ensures { result ≡ nat_le (length (vars_of q.now)) 1 }
{
    q.vars.items().len() <= 1
}

/// Whether what the variables of a query range over keeps its rows.
pub(crate) fn vars_are_kept<B: Base>(
    alloc: Global,
    base: &mut B,
    q: &Query,
) -> Result<bool, BaseFault>
    ensures known { (db : Db) → B.schema base.old ≡ Some db → IfOk result (λ kept. kept ≡ list_all (is_kept db) (vars_of q.now)) }
    ensures kept { B.database base.new ≡ B.database base.old }
    ensures stays { (s : Db) → B.schema base.old ≡ Some s → B.schema base.new ≡ Some s }
    ensures asked { (b : B) → B.asked b base.old → B.asked b base.new }
    ensures cause { HasCause (B.database base.old) (B.faults base.old) (B.faults base.new) result }
{
    are_kept(alloc, base, q.vars.items())
}

/// Whether a query may be one whose rows an aggregate is over.
fn rows_fit<B: Base>(alloc: Global, base: &mut B, q: &Query) -> Result<bool, BaseFault>
    ensures known { (db : Db) → B.schema base.old ≡ Some db → IfOk result (λ fit. fit ≡ (nat_le (length (vars_of q.now)) 1 && (has_few_targets q.now && (list_all (is_kept db) (vars_of q.now) && valid_query db q.now)))) }
    ensures kept { B.database base.new ≡ B.database base.old }
    ensures stays { (s : Db) → B.schema base.old ≡ Some s → B.schema base.new ≡ Some s }
    ensures asked { (b : B) → B.asked b base.old → B.asked b base.new }
    ensures cause { HasCause (B.database base.old) (B.faults base.old) (B.faults base.new) result }
{
    if !lists_one(q) {
        return Ok(false);
    }
    if !has_few_targets(q) {
        return Ok(false);
    }
    if !vars_are_kept(alloc, base, q)? {
        return Ok(false);
    }
    valid_query(alloc, base, q)
}

/// Whether an aggregate may be over a source.
#[tactic(auto, using(crate::proofs::SourceParts::source_named, crate::proofs::SourceParts::source_rows))]
fn source_fits<B: Base>(alloc: Global, base: &mut B, source: &AggSource) -> Result<bool, BaseFault>
    ensures known { (db : Db) → B.schema base.old ≡ Some db → IfOk result (λ fit. fit ≡ source_fits (kept_alone db) db source.now) }
    ensures kept { B.database base.new ≡ B.database base.old }
    ensures stays { (s : Db) → B.schema base.old ≡ Some s → B.schema base.new ≡ Some s }
    ensures asked { (b : B) → B.asked b base.old → B.asked b base.new }
    ensures cause { HasCause (B.database base.old) (B.faults base.old) (B.faults base.new) result }
{
    match source {
        AggSource::Named(key) => is_kept(alloc, base, key),
        AggSource::Rows(q) => rows_fit(alloc, base, q.get()),
    }
}

/// Whether these aggregates may be over their sources.
pub(crate) fn all_sources_fit<B: Base>(
    alloc: Global,
    base: &mut B,
    aggregates: &[&QAgg],
) -> Result<bool, BaseFault>
    ensures known { (db : Db) → B.schema base.old ≡ Some db → IfOk result (λ fit. fit ≡ list_all (λ g. source_fits (kept_alone db) db g.now.source) aggregates.now) }
    ensures kept { B.database base.new ≡ B.database base.old }
    ensures stays { (s : Db) → B.schema base.old ≡ Some s → B.schema base.new ≡ Some s }
    ensures asked { (b : B) → B.asked b base.old → B.asked b base.new }
    ensures cause { HasCause (B.database base.old) (B.faults base.old) (B.faults base.new) result }
{
    for aggregate in aggregates {
        let fit = source_fits(alloc, base, &aggregate.source)?;
        if !fit {
            return Ok(false);
        }
    }
    Ok(true)
}
