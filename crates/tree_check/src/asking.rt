//! Queries whose rows are printed.

ghost use Rattle.std.specs.Prelude.{◌≡◌, ◌≤◌, length, nat_le, nat_lt, true, IfOk, Some};
ghost use Rattle.std.specs.List.{list_all};
ghost use Rattle.base_trait.specs.Causes.{HasCause};
ghost use Rattle.calculus.specs.Database.{Db};
ghost use Rattle.calculus.specs.QueryParts.{vars_of};
ghost use Rattle.calculus.specs.Sizes.{expanded_variables};
ghost use Rattle.quel_meaning.specs.FitQueries.{asked_fits, kept_alone, sort_is_in_range};
ghost use Rattle.view_sizes.specs.Listing.{sources_list_few};

use crate::reading::reads_fit;
use base_trait::{Base, BaseFault};
use calculus::limits::MOST_EXPANDED_VARIABLES;
use calculus::{Asked, Query, SortKey};
use quel_refusals::query_fits;
use std::alloc::Global;
use view_sizes::expanded_variables;

/// The variables of a query once the views in it are expanded, at most.
const MOST_EXPANDED: u64 = MOST_EXPANDED_VARIABLES as u64;

fn are_columns(sort: &[SortKey], most: usize) -> bool
    ensures { result ≡ list_all (λ k. nat_lt k.column most) sort.now }
{
    sort.iter().all(|key| (key.column as usize) < most)
}

/// Whether the columns to sort by are columns.
#[tactic(auto, using(ovqp::proofs::Parts::targets_is))]
fn sort_is_in_range(asked: &Asked) -> bool
    ensures { result ≡ sort_is_in_range asked.now }
{
    let most = asked.query.targets.items().len();
    are_columns(asked.sort.items(), most)
}

/// Whether a query that lists few variables has few of them once the views in it are expanded.
fn expands_little<B: Base>(alloc: Global, base: &mut B, q: &Query) -> Result<bool, BaseFault>
    ensures known { (db : Db) → B.schema base.old ≡ Some db → length (vars_of q.now) ≤ 256 → sources_list_few q.now ≡ true → IfOk result (λ few. few ≡ nat_le (expanded_variables db q.now) 50) }
    ensures kept { B.database base.new ≡ B.database base.old }
    ensures stays { (s : Db) → B.schema base.old ≡ Some s → B.schema base.new ≡ Some s }
    ensures asked { (b : B) → B.asked b base.old → B.asked b base.new }
    ensures cause { HasCause (B.database base.old) (B.faults base.old) (B.faults base.new) result }
{
    let count = expanded_variables(alloc, base, q)?;
    Ok(count <= MOST_EXPANDED)
}

/// Whether a query that is asked is fit: what it reads, its kinds, its variables and its columns to sort
/// by.
fn asked_fits<B: Base>(alloc: Global, base: &mut B, asked: &Asked) -> Result<bool, BaseFault>
    ensures known { (db : Db) → B.schema base.old ≡ Some db → IfOk result (λ fit. fit ≡ asked_fits (kept_alone db) db asked.now) }
    ensures kept { B.database base.new ≡ B.database base.old }
    ensures stays { (s : Db) → B.schema base.old ≡ Some s → B.schema base.new ≡ Some s }
    ensures asked { (b : B) → B.asked b base.old → B.asked b base.new }
    ensures cause { HasCause (B.database base.old) (B.faults base.old) (B.faults base.new) result }
{
    if !reads_fit(alloc, base, &asked.query)? {
        return Ok(false);
    }
    if !query_fits(alloc, base, &asked.query)? {
        return Ok(false);
    }
    if !expands_little(alloc, base, &asked.query)? {
        return Ok(false);
    }
    Ok(sort_is_in_range(asked))
}

/// Whether all queries that are asked are fit.
pub(crate) fn all_asked_fit<B: Base>(
    alloc: Global,
    base: &mut B,
    asked: &[Asked],
) -> Result<bool, BaseFault>
    ensures known { (db : Db) → B.schema base.old ≡ Some db → IfOk result (λ fit. fit ≡ list_all (asked_fits (kept_alone db) db) asked.now) }
    ensures kept { B.database base.new ≡ B.database base.old }
    ensures stays { (s : Db) → B.schema base.old ≡ Some s → B.schema base.new ≡ Some s }
    ensures asked { (b : B) → B.asked b base.old → B.asked b base.new }
    ensures cause { HasCause (B.database base.old) (B.faults base.old) (B.faults base.new) result }
{
    for one in asked {
        let fit = asked_fits(alloc, base, one)?;
        if !fit {
            return Ok(false);
        }
    }
    Ok(true)
}
