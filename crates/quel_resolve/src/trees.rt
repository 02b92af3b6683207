//! The tree of a statement that is made of a query and whose names were found.

ghost use Rattle.std.specs.Prelude.{◌≡◌, ℕ, [], Option, Some, None, true, false, option_copied};
ghost use Rattle.calculus.specs.IsDatabase.{IsDatabase};
ghost use Rattle.calculus.specs.Database.{Db};
ghost use Rattle.calculus.specs.Replacement.{first_refusal};
ghost use Rattle.calculus.specs.declared.request.Checked.TheVariants.{Answer};
ghost use Rattle.quel_refusals.specs.CheckedStatements.{is_checked, update_of};
ghost use Rattle.quel_meaning.specs.Aggregates.{aggregates_allowed};
ghost use Rattle.quel_meaning.specs.Causes.{refusals};
ghost use Rattle.quel_meaning.specs.Naming.{name_refusal};
ghost use Rattle.quel_meaning.specs.Resolved.{tree_of};
ghost use Rattle.quel_meaning.specs.Scope.{Scope};
ghost use Rattle.quel_meaning.specs.WrittenQuery.{query_of};
ghost use Rattle.quel_names.specs.Asking.{scope_of};
ghost use Rattle.quel_resolve.specs.Changed.{changed, is_built as has_tree};
ghost use Rattle.quel_resolve.specs.Kinds.{changes_rows, is_range};
ghost use Rattle.utility_trees.specs.Answers.{Says};
ghost use Rattle.utility_trees.specs.Causes.{HasCheckCause, IsCaused};

use crate::kinds::{changes_rows, is_range};
use crate::queries::query;
use crate::refusing::{unless_refused, update_unless_refused};
use crate::statement_updates::{changed, update_of};
use crate::tree_by;
use base_trait::Base;
use calculus::refusals::NO_RELATION;
use calculus::{Checked, List, Name, Query, RelInfo, Statement};
use quel_check::RangeTable;
use std::alloc::Global;
use utility_trees::CheckFault;

/// The tree of a statement with this query that changes rows of the relation of which this is known.
fn updated<B: Base>(
    alloc: Global,
    base: &mut B,
    user: &Name,
    s: &Statement,
    info: &RelInfo,
    q: Query,
) -> Result<Checked, CheckFault>
    ensures known { (scope : Scope) → B.schema base.old ≡ Some scope.db → scope.user ≡ user.now → q ≡ query_of scope s.now → changed scope s.now ≡ Some info.now → changes_rows s.now ≡ true → is_checked s.now ≡ true → aggregates_allowed scope s.now ≡ true
        → Says (λ tree. (tree ≡ tree_of scope s.now) × (first_refusal (refusals scope s.now) ≡ None)) (λ number. first_refusal (refusals scope s.now) ≡ Some number) result }
    ensures kept { B.database base.new ≡ B.database base.old }
    ensures stays { (s : Db) → B.schema base.old ≡ Some s → B.schema base.new ≡ Some s }
    ensures asked { (b : B) → B.asked b base.old → B.asked b base.new }
    ensures cause { HasCheckCause (B.database base.old) (B.faults base.old) (B.faults base.new) result }
{
    match update_of(alloc, s, info, q)? {
        Some(update) => update_unless_refused(alloc, base, user, s, update),
        None => Err(CheckFault::No(NO_RELATION)),
    }
}

/// The tree of a statement with this query that changes no rows, where no cause refuses it.
fn asked(
    alloc: Global,
    user: &Name,
    s: &Statement,
    on: Option<&RelInfo>,
    q: Query,
) -> Result<Checked, CheckFault>
    ensures known { (scope : Scope) → IsDatabase scope.db → scope.user ≡ user.now → q ≡ query_of scope s.now → None ≡ update_of scope s.now q → changed scope s.now ≡ option_copied on.entry → has_tree s.now (option_copied on.entry) ≡ true → is_checked s.now ≡ true → is_range s.now ≡ false → first_refusal (refusals scope s.now) ≡ None
        → Says (λ tree. (tree ≡ tree_of scope s.now) × (first_refusal (refusals scope s.now) ≡ None)) (λ number. first_refusal (refusals scope s.now) ≡ Some number) result }
    ensures no_fault { (known : Option Db) (before now : ℕ) → now ≡ before → IsCaused known before now result }
{
    match tree_by(alloc, user, s, q, on)? {
        Some(tree) => Ok(tree),
        None => Err(CheckFault::No(NO_RELATION)),
    }
}

/// The tree of a statement with this query that changes no rows, where this is known of the relation that
/// it changes in another way.
#[tactic(auto, using(crate::proofs::Changes::on_changed))]
fn made<B: Base>(
    alloc: Global,
    base: &mut B,
    user: &Name,
    s: &Statement,
    on: Option<&RelInfo>,
    q: Query,
) -> Result<Checked, CheckFault>
    ensures known { (scope : Scope) → B.schema base.old ≡ Some scope.db → scope.user ≡ user.now → q ≡ query_of scope s.now → None ≡ update_of scope s.now q → changed scope s.now ≡ option_copied on.entry → has_tree s.now (option_copied on.entry) ≡ true → is_checked s.now ≡ true → aggregates_allowed scope s.now ≡ true → is_range s.now ≡ false
        → Says (λ tree. (tree ≡ tree_of scope s.now) × (first_refusal (refusals scope s.now) ≡ None)) (λ number. first_refusal (refusals scope s.now) ≡ Some number) result }
    ensures kept { B.database base.new ≡ B.database base.old }
    ensures stays { (s : Db) → B.schema base.old ≡ Some s → B.schema base.new ≡ Some s }
    ensures asked { (b : B) → B.asked b base.old → B.asked b base.new }
    ensures cause { HasCheckCause (B.database base.old) (B.faults base.old) (B.faults base.new) result }
{
    match unless_refused(alloc, base, user, s, &q, None, on) {
        Ok(()) => asked(alloc, user, s, on, q),
        Err(fault) => {
            drop(q);
            Err(fault)
        }
    }
}

/// The tree of a statement with this query that changes the relation of which this is known.
fn changing<B: Base>(
    alloc: Global,
    base: &mut B,
    user: &Name,
    s: &Statement,
    info: &RelInfo,
    q: Query,
) -> Result<Checked, CheckFault>
    ensures known { (scope : Scope) → B.schema base.old ≡ Some scope.db → scope.user ≡ user.now → q ≡ query_of scope s.now → changed scope s.now ≡ Some info.now → is_checked s.now ≡ true → aggregates_allowed scope s.now ≡ true → is_range s.now ≡ false
        → Says (λ tree. (tree ≡ tree_of scope s.now) × (first_refusal (refusals scope s.now) ≡ None)) (λ number. first_refusal (refusals scope s.now) ≡ Some number) result }
    ensures kept { B.database base.new ≡ B.database base.old }
    ensures stays { (s : Db) → B.schema base.old ≡ Some s → B.schema base.new ≡ Some s }
    ensures asked { (b : B) → B.asked b base.old → B.asked b base.new }
    ensures cause { HasCheckCause (B.database base.old) (B.faults base.old) (B.faults base.new) result }
{
    if changes_rows(s) {
        updated(alloc, base, user, s, info, q)
    } else {
        made(alloc, base, user, s, Some(info), q)
    }
}

/// The tree of a statement with this query, of which it is known what it changes.
fn tree_over<B: Base>(
    alloc: Global,
    base: &mut B,
    user: &Name,
    ranges: &RangeTable,
    s: &Statement,
    changes: Option<RelInfo>,
    q: Query,
) -> Result<Checked, CheckFault>
    ensures known { (db : Db) → B.schema base.old ≡ Some db → q ≡ query_of (scope_of db user.now ranges.now) s.now → name_refusal (scope_of db user.now ranges.now) s.now ≡ None → is_checked s.now ≡ true → aggregates_allowed (scope_of db user.now ranges.now) s.now ≡ true → is_range s.now ≡ false → changes ≡ changed (scope_of db user.now ranges.now) s.now
        → Says (λ tree. (tree ≡ tree_of (scope_of db user.now ranges.now) s.now) × (first_refusal (refusals (scope_of db user.now ranges.now) s.now) ≡ None)) (λ number. first_refusal (refusals (scope_of db user.now ranges.now) s.now) ≡ Some number) result }
    ensures kept { B.database base.new ≡ B.database base.old }
    ensures stays { (s : Db) → B.schema base.old ≡ Some s → B.schema base.new ≡ Some s }
    ensures asked { (b : B) → B.asked b base.old → B.asked b base.new }
    ensures cause { HasCheckCause (B.database base.old) (B.faults base.old) (B.faults base.new) result }
{
    match changes {
        Some(info) => changing(alloc, base, user, s, &info, q),
        None => made(alloc, base, user, s, None, q),
    }
}

/// The tree of a statement with this query.
fn tree_with<B: Base>(
    alloc: Global,
    base: &mut B,
    user: &Name,
    ranges: &RangeTable,
    s: &Statement,
    q: Query,
) -> Result<Checked, CheckFault>
    ensures known { (db : Db) → B.schema base.old ≡ Some db → q ≡ query_of (scope_of db user.now ranges.now) s.now → name_refusal (scope_of db user.now ranges.now) s.now ≡ None → is_checked s.now ≡ true → aggregates_allowed (scope_of db user.now ranges.now) s.now ≡ true → is_range s.now ≡ false
        → Says (λ tree. (tree ≡ tree_of (scope_of db user.now ranges.now) s.now) × (first_refusal (refusals (scope_of db user.now ranges.now) s.now) ≡ None)) (λ number. first_refusal (refusals (scope_of db user.now ranges.now) s.now) ≡ Some number) result }
    ensures kept { B.database base.new ≡ B.database base.old }
    ensures stays { (s : Db) → B.schema base.old ≡ Some s → B.schema base.new ≡ Some s }
    ensures asked { (b : B) → B.asked b base.old → B.asked b base.new }
    ensures cause { HasCheckCause (B.database base.old) (B.faults base.old) (B.faults base.new) result }
{
    match changed(alloc, base, user, ranges, s) {
        Ok(changes) => tree_over(alloc, base, user, ranges, s, changes, q),
        Err(fault) => {
            drop(q);
            Err(CheckFault::Base(fault))
        }
    }
}

/// What a declaration of a variable asks for: nothing.
fn nothing(alloc: Global) -> Checked
    ensures { result ≡ Answer [] }
{
    Checked::Answer(List::of(Vec::new(alloc)))
}

/// The tree of a statement that is made of a query and whose names were found, or the number of the first
/// cause that refuses it.
pub(crate) fn tree<B: Base>(
    alloc: Global,
    base: &mut B,
    user: &Name,
    ranges: &RangeTable,
    s: &Statement,
) -> Result<Checked, CheckFault>
    ensures known { (db : Db) → B.schema base.old ≡ Some db → name_refusal (scope_of db user.now ranges.now) s.now ≡ None → is_checked s.now ≡ true
        → Says (λ tree. (tree ≡ tree_of (scope_of db user.now ranges.now) s.now) × (first_refusal (refusals (scope_of db user.now ranges.now) s.now) ≡ None)) (λ number. first_refusal (refusals (scope_of db user.now ranges.now) s.now) ≡ Some number) result }
    ensures kept { B.database base.new ≡ B.database base.old }
    ensures stays { (s : Db) → B.schema base.old ≡ Some s → B.schema base.new ≡ Some s }
    ensures asked { (b : B) → B.asked b base.old → B.asked b base.new }
    ensures cause { HasCheckCause (B.database base.old) (B.faults base.old) (B.faults base.new) result }
{
    if is_range(s) {
        return Ok(nothing(alloc));
    }
    let q = query(alloc, base, ranges, s)?;
    tree_with(alloc, base, user, ranges, s, q)
}
