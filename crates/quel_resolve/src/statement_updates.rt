//! What a statement changes, and the update that it is.

ghost use Rattle.std.specs.Prelude.{◌≡◌, ◌≤◌, None, Some, IfOk, length};
ghost use Rattle.base_trait.specs.Causes.{HasCause};
ghost use Rattle.calculus.specs.Database.{Db};
ghost use Rattle.quel_refusals.specs.CheckedStatements.{update_of};
ghost use Rattle.quel_meaning.specs.Scope.{Scope};
ghost use Rattle.quel_names.specs.Asking.{scope_of};
ghost use Rattle.quel_resolve.specs.Changed.{changed};

use crate::{append_of, delete_of, replace_of};
use base_trait::{Base, BaseFault};
use calculus::{Name, OutOfMemory, Query, RelInfo, Statement, Update};
use quel_check::RangeTable;
use quel_names::{named, ranged};
use std::alloc::Global;

/// The relation that gains rows, or whose permits or rules go, or over which the variable ranges whose
/// rows are replaced or deleted, or whose relation gets a permit or a rule.
#[tactic(auto, unfolding(quel_meaning::specs::Scope::named, quel_meaning::specs::Scope::ranged))]
pub(crate) fn changed<B: Base>(
    alloc: Global,
    base: &mut B,
    user: &Name,
    ranges: &RangeTable,
    s: &Statement,
) -> Result<Option<RelInfo>, BaseFault>
    ensures known { (db : Db) → B.schema base.old ≡ Some db → IfOk result (λ info. info ≡ changed (scope_of db user.now ranges.now) s.now) }
    ensures kept { B.database base.new ≡ B.database base.old }
    ensures stays { (s : Db) → B.schema base.old ≡ Some s → B.schema base.new ≡ Some s }
    ensures asked { (b : B) → B.asked b base.old → B.asked b base.new }
    ensures cause { HasCause (B.database base.old) (B.faults base.old) (B.faults base.new) result }
{
    match s {
        Statement::Append { rel, .. }
        | Statement::DropPermits { rel, .. }
        | Statement::DropRules { rel, .. } => named(alloc, base, user, rel),
        Statement::Replace { var, .. }
        | Statement::Delete { var, .. }
        | Statement::Permit { var, .. }
        | Statement::Rule { var, .. } => ranged(alloc, base, ranges, var),
        _ => Ok(None),
    }
}

/// No update for a query.
fn no_update(q: Query) -> Result<Option<Update>, OutOfMemory>
    ensures { IfOk result (λ update. update ≡ None) }
{
    drop(q);
    Ok(None)
}

/// The update that a statement with this query is, of whose relation this is known.
pub(crate) fn update_of(
    alloc: Global,
    s: &Statement,
    info: &RelInfo,
    q: Query,
) -> Result<Option<Update>, OutOfMemory>
    ensures { IfOk result (λ update. (scope : Scope) → changed scope s.now ≡ Some info.now → length info.now.attrs ≤ 256 → update ≡ update_of scope s.now q) }
{
    match s {
        Statement::Append { .. } => Ok(Some(append_of(alloc, info, q)?)),
        Statement::Replace { .. } => Ok(Some(replace_of(alloc, info, q)?)),
        Statement::Delete { .. } => Ok(Some(delete_of(alloc, info, q)?)),
        _ => no_update(q),
    }
}
