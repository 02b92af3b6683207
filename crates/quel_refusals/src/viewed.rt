//! What refuses a view.

ghost use Rattle.std.specs.Prelude.{◌≡◌, ◌∷◌, ◌||◌, ◌≤◌, [], length, map, nat_lt, true, IfOk, Some};
ghost use Rattle.base_trait.specs.Causes.{HasCause};
ghost use Rattle.calculus.specs.Database.{Db};
ghost use Rattle.calculus.specs.QueryParts.{query_aggregates, vars_of};
ghost use Rattle.calculus.specs.Replacement.{first_refusal};
ghost use Rattle.calculus.specs.TreeLevels.{query_levels};
ghost use Rattle.quel_meaning.specs.Causes.{target_kinds, view_refusals};
ghost use Rattle.quel_meaning.specs.Passing.{has_too_many, is_full, is_taken, is_too_large, is_too_wide};
ghost use Rattle.quel_meaning.specs.Scope.{Scope};

use crate::fitting::query_fits;
use crate::repeated::titles_repeat;
use crate::retrieved::{has_no_room, name_refusal};
use crate::widths::is_too_wide;
use base_trait::{Base, BaseFault};
use calculus::limits::{MOST_SIZE, MOST_TREE_LEVELS};
use calculus::refusals::{KINDS_DIFFER, NAMED_TWICE, PAST_LIMIT, TOO_WIDE};
use calculus::{Name, OutOfMemory, Query};
use ovqp::target_kinds;
use std::alloc::Global;
use view_sizes::{has_high_level, query_depth, query_size};

/// The levels of a tree that is stored at most.
const MOST_LEVELS: u64 = MOST_TREE_LEVELS as u64;

/// Whether the tree of a query without aggregates is deeper than one that is stored may be.
fn is_too_deep(q: &Query) -> bool
    ensures { query_aggregates q.now ≡ [] → result ≡ nat_lt 3000 (query_levels q.now) }
{
    query_depth(q) > MOST_LEVELS
}

/// Whether a view of a query without aggregates, which lists at most 256 variables, would be too
/// large, would stand on too many levels of views, or its tree would be too deep.
fn is_too_large<B: Base>(alloc: Global, base: &mut B, q: &Query) -> Result<bool, BaseFault>
    ensures known { (db : Db) → B.schema base.old ≡ Some db → query_aggregates q.now ≡ [] → length (vars_of q.now) ≤ 256 → IfOk result (λ large. large ≡ is_too_large db q.now) }
    ensures kept { B.database base.new ≡ B.database base.old }
    ensures stays { (s : Db) → B.schema base.old ≡ Some s → B.schema base.new ≡ Some s }
    ensures asked { (b : B) → B.asked b base.old → B.asked b base.new }
    ensures cause { HasCause (B.database base.old) (B.faults base.old) (B.faults base.new) result }
{
    let size = query_size(alloc, base, q)?;
    if size > MOST_SIZE {
        return Ok(true);
    }
    let high = has_high_level(alloc, base, q)?;
    if high {
        return Ok(true);
    }
    Ok(is_too_deep(q))
}

/// Whether there is no room for a view of a query without aggregates: the query lists too many
/// variables, there are too many relations, views and indexes, or the view would be too large.
fn is_past_limits<B: Base>(alloc: Global, base: &mut B, q: &Query) -> Result<bool, BaseFault>
    ensures known { (db : Db) → B.schema base.old ≡ Some db → query_aggregates q.now ≡ [] → IfOk result (λ past. past ≡ (has_too_many db q.now || (is_full db || is_too_large db q.now))) }
    ensures kept { B.database base.new ≡ B.database base.old }
    ensures stays { (s : Db) → B.schema base.old ≡ Some s → B.schema base.new ≡ Some s }
    ensures asked { (b : B) → B.asked b base.old → B.asked b base.new }
    ensures cause { HasCause (B.database base.old) (B.faults base.old) (B.faults base.new) result }
{
    let full = has_no_room(alloc, base, q)?;
    if full {
        return Ok(true);
    }
    is_too_large(alloc, base, q)
}

/// Whether a row of a query's targets is too wide.
fn is_wide(alloc: Global, q: &Query) -> Result<bool, OutOfMemory>
    ensures { IfOk result (λ wide. wide ≡ is_too_wide (target_kinds q.now)) }
{
    let kinds = target_kinds(alloc, q.targets.items())?;
    Ok(is_too_wide(&kinds))
}

/// What refuses a view whose kinds fit: the width of its rows, that its name is in use.
fn shown_refusal<B: Base>(
    alloc: Global,
    base: &mut B,
    user: &Name,
    name: &Name,
    q: &Query,
) -> Result<Option<u8>, BaseFault>
    ensures known { (s : Scope) → B.schema base.old ≡ Some s.db → s.user ≡ user.now → IfOk result (λ n. n ≡ first_refusal ((16, is_too_wide (target_kinds q.now)) ∷ (15, is_taken s.db s.user name.now) ∷ [])) }
    ensures kept { B.database base.new ≡ B.database base.old }
    ensures stays { (s : Db) → B.schema base.old ≡ Some s → B.schema base.new ≡ Some s }
    ensures asked { (b : B) → B.asked b base.old → B.asked b base.new }
    ensures cause { HasCause (B.database base.old) (B.faults base.old) (B.faults base.new) result }
{
    if is_wide(alloc, q)? {
        return Ok(Some(TOO_WIDE));
    }
    name_refusal(alloc, base, user, name)
}

/// What refuses a view of this name with a query without aggregates.
pub(crate) fn view_refusal<B: Base>(
    alloc: Global,
    base: &mut B,
    user: &Name,
    name: &Name,
    q: &Query,
) -> Result<Option<u8>, BaseFault>
    ensures known { (s : Scope) → B.schema base.old ≡ Some s.db → s.user ≡ user.now → query_aggregates q.now ≡ [] → IfOk result (λ n. n ≡ first_refusal (view_refusals s true name.now q.now)) }
    ensures kept { B.database base.new ≡ B.database base.old }
    ensures stays { (s : Db) → B.schema base.old ≡ Some s → B.schema base.new ≡ Some s }
    ensures asked { (b : B) → B.asked b base.old → B.asked b base.new }
    ensures cause { HasCause (B.database base.old) (B.faults base.old) (B.faults base.new) result }
{
    if is_past_limits(alloc, base, q)? {
        return Ok(Some(PAST_LIMIT));
    }
    if titles_repeat(alloc, q)? {
        return Ok(Some(NAMED_TWICE));
    }
    if !query_fits(alloc, base, q)? {
        return Ok(Some(KINDS_DIFFER));
    }
    shown_refusal(alloc, base, user, name, q)
}
