//! The query of a statement whose names were found.

ghost use Rattle.std.specs.Prelude.{◌≡◌, ◌+◌, ◌≤◌, ℕ, List, Some, None, true, length, map, nat_lt};
ghost use Rattle.calculus.specs.Database.{Db};
ghost use Rattle.calculus.specs.Replacement.{first_refusal};
ghost use Rattle.quel_refusals.specs.CheckedStatements.{is_checked};
ghost use Rattle.quel_check.specs.Known.{inner_vars};
ghost use Rattle.quel_meaning.specs.Aggregates.{aggregates_allowed};
ghost use Rattle.quel_meaning.specs.Causes.{refusals};
ghost use Rattle.quel_meaning.specs.Naming.{name_refusal};
ghost use Rattle.quel_meaning.specs.Scope.{ranged};
ghost use Rattle.quel_meaning.specs.WrittenParts.{vars_in};
ghost use Rattle.quel_meaning.specs.WrittenQuery.{query_of};
ghost use Rattle.quel_names.specs.Asking.{scope_of};
ghost use Rattle.utility_trees.specs.Answers.{Says};
ghost use Rattle.utility_trees.specs.Causes.{HasCheckCause};

use crate::query_of;
use base_trait::Base;
use calculus::limits::MOST_VARIABLES;
use calculus::refusals::{AGGREGATE, NO_RELATION, PAST_LIMIT};
use calculus::{Name, Query, RelInfo, Statement};
use quel_check::{Known, RangeTable, inner_vars, vars_in};
use quel_names::infos_of;
use quel_refusals::aggregates_allowed;
use std::alloc::Global;
use utility_trees::CheckFault;

/// The query of a statement over these variables, which are its own and range over these, where its
/// aggregates, which stand, are over those.
fn query_known<B: Base>(
    alloc: Global,
    base: &mut B,
    ranges: &RangeTable,
    s: &Statement,
    vars: &[Name],
    infos: &[RelInfo],
    inner: &[Name],
) -> Result<Query, CheckFault>
    ensures known { (db : Db) (user : List ℕ) → B.schema base.old ≡ Some db → name_refusal (scope_of db user ranges.now) s.now ≡ None → aggregates_allowed (scope_of db user ranges.now) s.now ≡ true
        → vars.now ≡ vars_in s.now → inner.now ≡ inner_vars s.now → length vars.now + length inner.now ≤ 10 → map (ranged (scope_of db user ranges.now)) vars.now ≡ map Some infos.now
        → Says (λ q. q ≡ query_of (scope_of db user ranges.now) s.now) (λ number. first_refusal (refusals (scope_of db user ranges.now) s.now) ≡ Some number) result }
    ensures kept { B.database base.new ≡ B.database base.old }
    ensures stays { (s : Db) → B.schema base.old ≡ Some s → B.schema base.new ≡ Some s }
    ensures asked { (b : B) → B.asked b base.old → B.asked b base.new }
    ensures cause { HasCheckCause (B.database base.old) (B.faults base.old) (B.faults base.new) result }
{
    match infos_of(alloc, base, ranges, inner)? {
        Some(inner_infos) => {
            let known = Known {
                vars,
                infos,
                inner_vars: inner,
                inner_infos: &inner_infos,
            };
            let query = query_of(alloc, base, s, known);
            drop(inner_infos);
            Ok(query?)
        }
        None => Err(CheckFault::No(NO_RELATION)),
    }
}

/// The query of a statement whose aggregates stand, over these variables, which are its own, and those of
/// its aggregates.
fn query_over<B: Base>(
    alloc: Global,
    base: &mut B,
    ranges: &RangeTable,
    s: &Statement,
    vars: &[Name],
    inner: &[Name],
) -> Result<Query, CheckFault>
    ensures known { (db : Db) (user : List ℕ) → B.schema base.old ≡ Some db → name_refusal (scope_of db user ranges.now) s.now ≡ None → aggregates_allowed (scope_of db user ranges.now) s.now ≡ true
        → vars.now ≡ vars_in s.now → inner.now ≡ inner_vars s.now → length vars.now + length inner.now ≤ 10
        → Says (λ q. q ≡ query_of (scope_of db user ranges.now) s.now) (λ number. first_refusal (refusals (scope_of db user ranges.now) s.now) ≡ Some number) result }
    ensures kept { B.database base.new ≡ B.database base.old }
    ensures stays { (s : Db) → B.schema base.old ≡ Some s → B.schema base.new ≡ Some s }
    ensures asked { (b : B) → B.asked b base.old → B.asked b base.new }
    ensures cause { HasCheckCause (B.database base.old) (B.faults base.old) (B.faults base.new) result }
{
    match infos_of(alloc, base, ranges, vars)? {
        Some(infos) => {
            let query = query_known(alloc, base, ranges, s, vars, &infos, inner);
            drop(infos);
            query
        }
        None => Err(CheckFault::No(NO_RELATION)),
    }
}

/// Whether there are more variables and aggregates together than a query may have.
fn are_too_many(vars: &[Name], inner: &[Name]) -> bool
    ensures { result ≡ nat_lt 10 (length vars.now + length inner.now) }
{
    vars.len().saturating_add(inner.len()) > MOST_VARIABLES
}

/// The query of a statement whose names were found and whose aggregates stand, over these variables,
/// which are its own, and those of its aggregates; where they are more than a query may have, the number
/// that refuses it.
fn query_within<B: Base>(
    alloc: Global,
    base: &mut B,
    ranges: &RangeTable,
    s: &Statement,
    vars: &[Name],
    inner: &[Name],
) -> Result<Query, CheckFault>
    ensures known { (db : Db) (user : List ℕ) → B.schema base.old ≡ Some db → name_refusal (scope_of db user ranges.now) s.now ≡ None → is_checked s.now ≡ true → aggregates_allowed (scope_of db user ranges.now) s.now ≡ true
        → vars.now ≡ vars_in s.now → inner.now ≡ inner_vars s.now
        → Says (λ q. q ≡ query_of (scope_of db user ranges.now) s.now) (λ number. first_refusal (refusals (scope_of db user ranges.now) s.now) ≡ Some number) result }
    ensures kept { B.database base.new ≡ B.database base.old }
    ensures stays { (s : Db) → B.schema base.old ≡ Some s → B.schema base.new ≡ Some s }
    ensures asked { (b : B) → B.asked b base.old → B.asked b base.new }
    ensures cause { HasCheckCause (B.database base.old) (B.faults base.old) (B.faults base.new) result }
{
    if are_too_many(vars, inner) {
        return Err(CheckFault::No(PAST_LIMIT));
    }
    query_over(alloc, base, ranges, s, vars, inner)
}

/// The query of a statement whose names were found and whose aggregates stand, over these variables,
/// which are its own.
fn query_beside<B: Base>(
    alloc: Global,
    base: &mut B,
    ranges: &RangeTable,
    s: &Statement,
    vars: &[Name],
) -> Result<Query, CheckFault>
    ensures known { (db : Db) (user : List ℕ) → B.schema base.old ≡ Some db → name_refusal (scope_of db user ranges.now) s.now ≡ None → is_checked s.now ≡ true → aggregates_allowed (scope_of db user ranges.now) s.now ≡ true
        → vars.now ≡ vars_in s.now
        → Says (λ q. q ≡ query_of (scope_of db user ranges.now) s.now) (λ number. first_refusal (refusals (scope_of db user ranges.now) s.now) ≡ Some number) result }
    ensures kept { B.database base.new ≡ B.database base.old }
    ensures stays { (s : Db) → B.schema base.old ≡ Some s → B.schema base.new ≡ Some s }
    ensures asked { (b : B) → B.asked b base.old → B.asked b base.new }
    ensures cause { HasCheckCause (B.database base.old) (B.faults base.old) (B.faults base.new) result }
{
    let inner = inner_vars(alloc, s)?;
    let query = query_within(alloc, base, ranges, s, vars, inner.items());
    drop(inner);
    query
}

/// The query of a statement whose names were found and whose aggregates stand; where it has more
/// variables and aggregates than a query may have, the number that refuses it.
fn query_standing<B: Base>(
    alloc: Global,
    base: &mut B,
    ranges: &RangeTable,
    s: &Statement,
) -> Result<Query, CheckFault>
    ensures known { (db : Db) (user : List ℕ) → B.schema base.old ≡ Some db → name_refusal (scope_of db user ranges.now) s.now ≡ None → is_checked s.now ≡ true → aggregates_allowed (scope_of db user ranges.now) s.now ≡ true
        → Says (λ q. q ≡ query_of (scope_of db user ranges.now) s.now) (λ number. first_refusal (refusals (scope_of db user ranges.now) s.now) ≡ Some number) result }
    ensures kept { B.database base.new ≡ B.database base.old }
    ensures stays { (s : Db) → B.schema base.old ≡ Some s → B.schema base.new ≡ Some s }
    ensures asked { (b : B) → B.asked b base.old → B.asked b base.new }
    ensures cause { HasCheckCause (B.database base.old) (B.faults base.old) (B.faults base.new) result }
{
    let vars = vars_in(alloc, s)?;
    let query = query_beside(alloc, base, ranges, s, vars.items());
    drop(vars);
    query
}

/// The query of a statement that needs a query and whose names were found; where an aggregate
/// may not stand, or there are more variables and aggregates than a query may have, the number that
/// refuses it.
#[tactic(auto, using(crate::proofs::Passing::stands_not))]
pub(crate) fn query<B: Base>(
    alloc: Global,
    base: &mut B,
    ranges: &RangeTable,
    s: &Statement,
) -> Result<Query, CheckFault>
    ensures known { (db : Db) (user : List ℕ) → B.schema base.old ≡ Some db → name_refusal (scope_of db user ranges.now) s.now ≡ None → is_checked s.now ≡ true
        → Says (λ q. (q ≡ query_of (scope_of db user ranges.now) s.now) × (aggregates_allowed (scope_of db user ranges.now) s.now ≡ true)) (λ number. first_refusal (refusals (scope_of db user ranges.now) s.now) ≡ Some number) result }
    ensures kept { B.database base.new ≡ B.database base.old }
    ensures stays { (s : Db) → B.schema base.old ≡ Some s → B.schema base.new ≡ Some s }
    ensures asked { (b : B) → B.asked b base.old → B.asked b base.new }
    ensures cause { HasCheckCause (B.database base.old) (B.faults base.old) (B.faults base.new) result }
{
    if aggregates_allowed(alloc, base, ranges, s)? {
        query_standing(alloc, base, ranges, s)
    } else {
        Err(CheckFault::No(AGGREGATE))
    }
}
