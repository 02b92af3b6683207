//! Updates.

ghost use Rattle.std.specs.Prelude.{◌≡◌, ◌≤◌, ◌&&◌, map, length, nat_eq, nat_le, slice_get, true, vec_items, zip, IfOk, Some, ◌∷◌, []};
ghost use Rattle.std.specs.List.{list_all};
ghost use Rattle.base_trait.specs.Causes.{HasCause};
ghost use Rattle.calculus.specs.Database.{Db};
ghost use Rattle.calculus.specs.Kinds.{comparable, kinds_fit};
ghost use Rattle.calculus.specs.QueryParts.{targets_of, vars_of};
ghost use Rattle.calculus.specs.Sizes.{update_expanded_variables};
ghost use Rattle.calculus.specs.Replacement.{made_attr};
ghost use Rattle.quel_meaning.specs.Fit.{checks_fit, new_attrs, places_fit, relation_fits, update_fits};
ghost use Rattle.quel_meaning.specs.FitQueries.{kept_alone};
ghost use Rattle.quel_meaning.specs.KindsInQueries.{assignments_fit};
ghost use Rattle.view_sizes.specs.Listing.{sources_list_few};

use crate::queries::update_kinds_fit;
use crate::reading::reads_fit;
use crate::relations::relation_fits;
use base_trait::{Base, BaseFault};
use calculus::limits::MOST_EXPANDED_VARIABLES;
use calculus::{Kind, OutOfMemory, QQual, Update, UpdateOp, kinds_fit};
use change_check::{are_places, places_differ};
use ovqp::kinds_at;
use quel_refusals::{assignments_fit, made_kinds};
use std::alloc::Global;
use view_sizes::update_expanded_variables;

/// The variables of an update once the views in it are expanded, at most.
const MOST_EXPANDED: u64 = MOST_EXPANDED_VARIABLES as u64;

/// The kinds of the attributes of the relation that an update makes.
#[tactic(auto, using(ovqp::proofs::Parts::targets_is))]
fn kinds_made(alloc: Global, u: &Update) -> Result<Vec<Kind>, OutOfMemory>
    ensures { IfOk result (λ kinds. kinds.items ≡ map (λ t. (made_attr t).kind) (targets_of u.now.query)) }
{
    made_kinds(alloc, u.query.targets.items())
}

/// The kinds of the attributes of the new rows of an update.
#[tactic(auto, using(crate::proofs::RelationForms::made_kinds))]
fn new_kinds<B: Base>(alloc: Global, base: &mut B, u: &Update) -> Result<Vec<Kind>, BaseFault>
    ensures known { (db : Db) → B.schema base.old ≡ Some db → IfOk result (λ kinds. kinds.items ≡ map (λ a. a.kind) (new_attrs db u.now)) }
    ensures kept { B.database base.new ≡ B.database base.old }
    ensures stays { (s : Db) → B.schema base.old ≡ Some s → B.schema base.new ≡ Some s }
    ensures asked { (b : B) → B.asked b base.old → B.asked b base.new }
    ensures cause { HasCause (B.database base.old) (B.faults base.old) (B.faults base.new) result }
{
    match u.op {
        UpdateOp::Append => kinds_at(alloc, base, &u.rel),
        UpdateOp::Replace => kinds_at(alloc, base, &u.rel),
        UpdateOp::Delete => kinds_at(alloc, base, &u.rel),
        UpdateOp::Into => Ok(kinds_made(alloc, u)?),
    }
}

/// Whether the targets and the attributes at the places fit, which are of these kinds. Takes no memory.
#[tactic(auto, using(ovqp::proofs::Parts::targets_is))]
fn places_are_for(u: &Update, kinds: &[Kind]) -> bool
    ensures { result ≡ list_all (λ p. comparable (Some p.0.kind) p.1) (zip (targets_of u.now.query) (map (slice_get kinds.now) u.now.places)) }
{
    assignments_fit(u.query.targets.items(), u.places.items(), kinds)
}

/// Whether the targets and the attributes that they are for fit, where new rows have attributes of these
/// kinds. Takes no memory.
#[tactic(auto, using(crate::proofs::RelationForms::put_for, crate::proofs::RelationForms::replaced_for, crate::proofs::RelationForms::deleted_for, crate::proofs::RelationForms::made_for))]
fn targets_are_for(u: &Update, kinds: &[Kind]) -> bool
    ensures { (db : Db) → map (λ a. a.kind) (new_attrs db u.now) ≡ kinds.now → result ≡ assignments_fit db u.now }
{
    match u.op {
        UpdateOp::Append => places_are_for(u, kinds),
        UpdateOp::Replace => places_are_for(u, kinds),
        UpdateOp::Delete => places_are_for(u, kinds),
        UpdateOp::Into => true,
    }
}

/// Whether there is one place for each target.
fn has_a_place_for_each(u: &Update) -> bool
    ensures { result ≡ nat_eq (length u.now.places) (length (targets_of u.now.query)) }
{
    u.places.items().len() == u.query.targets.items().len()
}

/// Whether the attributes that get new values are some of the new rows', all different, one for each
/// target, where new rows have attributes of these kinds.
fn places_fit(u: &Update, kinds: &[Kind]) -> bool
    ensures { (db : Db) → map (λ a. a.kind) (new_attrs db u.now) ≡ kinds.now → result ≡ places_fit db u.now }
{
    let places = u.places.items();
    are_places(kinds, places) && has_a_place_for_each(u) && places_differ(places)
}

fn all_fit(checks: &[QQual], vars: &[Vec<Kind>]) -> bool
    ensures { result ≡ list_all (λ q. kinds_fit q (map vec_items vars.now)) checks.now }
{
    checks.iter().all(|check| kinds_fit(check, vars))
}

/// The kinds of the attributes of one variable, as those of all variables.
fn alone(alloc: Global, kinds: Vec<Kind>) -> Result<Vec<Vec<Kind>>, OutOfMemory>
    ensures { IfOk result (λ vars. map vec_items vars.items ≡ kinds.items ∷ []) }
{
    let mut vars = Vec::new(alloc);
    vars.push(kinds)?;
    Ok(vars)
}

/// Whether what must hold of a new row speaks of that row alone, and its kinds fit, where it has
/// attributes of these kinds.
fn checks_fit(alloc: Global, u: &Update, kinds: Vec<Kind>) -> Result<bool, OutOfMemory>
    ensures { (db : Db) → map (λ a. a.kind) (new_attrs db u.now) ≡ kinds.items → IfOk result (λ fit. fit ≡ checks_fit db u.now) }
{
    let vars = alone(alloc, kinds)?;
    Ok(kinds_fit(&u.new_cut, &vars) && all_fit(u.checks.items(), &vars))
}

/// Whether the new rows of an update fit, where they have attributes of these kinds.
fn rows_fit(alloc: Global, u: &Update, kinds: Vec<Kind>) -> Result<bool, OutOfMemory>
    ensures { (db : Db) → map (λ a. a.kind) (new_attrs db u.now) ≡ kinds.items → IfOk result (λ fit. fit ≡ (assignments_fit db u.now && (places_fit db u.now && checks_fit db u.now))) }
{
    if !targets_are_for(u, &kinds) {
        return Ok(false);
    }
    if !places_fit(u, &kinds) {
        return Ok(false);
    }
    checks_fit(alloc, u, kinds)
}

/// Whether the new rows of an update fit: the targets the attributes that they are for, their places, and
/// what must hold of them.
fn new_rows_fit<B: Base>(alloc: Global, base: &mut B, u: &Update) -> Result<bool, BaseFault>
    ensures known { (db : Db) → B.schema base.old ≡ Some db → IfOk result (λ fit. fit ≡ (assignments_fit db u.now && (places_fit db u.now && checks_fit db u.now))) }
    ensures kept { B.database base.new ≡ B.database base.old }
    ensures stays { (s : Db) → B.schema base.old ≡ Some s → B.schema base.new ≡ Some s }
    ensures asked { (b : B) → B.asked b base.old → B.asked b base.new }
    ensures cause { HasCause (B.database base.old) (B.faults base.old) (B.faults base.new) result }
{
    let kinds = new_kinds(alloc, base, u)?;
    Ok(rows_fit(alloc, u, kinds)?)
}

/// Whether an update that lists few variables has few of them once the views in it are expanded.
fn expands_little<B: Base>(alloc: Global, base: &mut B, u: &Update) -> Result<bool, BaseFault>
    ensures known { (db : Db) → B.schema base.old ≡ Some db → length (vars_of u.now.query) ≤ 256 → sources_list_few u.now.query ≡ true → IfOk result (λ few. few ≡ nat_le (update_expanded_variables db u.now) 50) }
    ensures kept { B.database base.new ≡ B.database base.old }
    ensures stays { (s : Db) → B.schema base.old ≡ Some s → B.schema base.new ≡ Some s }
    ensures asked { (b : B) → B.asked b base.old → B.asked b base.new }
    ensures cause { HasCause (B.database base.old) (B.faults base.old) (B.faults base.new) result }
{
    let count = update_expanded_variables(alloc, base, u)?;
    Ok(count <= MOST_EXPANDED)
}

/// Whether the new rows of an update fit, and what it changes or makes.
fn change_fits<B: Base>(alloc: Global, base: &mut B, u: &Update) -> Result<bool, BaseFault>
    ensures known { (db : Db) → B.schema base.old ≡ Some db → IfOk result (λ fit. fit ≡ ((assignments_fit db u.now && (places_fit db u.now && checks_fit db u.now)) && relation_fits db u.now)) }
    ensures kept { B.database base.new ≡ B.database base.old }
    ensures stays { (s : Db) → B.schema base.old ≡ Some s → B.schema base.new ≡ Some s }
    ensures asked { (b : B) → B.asked b base.old → B.asked b base.new }
    ensures cause { HasCause (B.database base.old) (B.faults base.old) (B.faults base.new) result }
{
    if !new_rows_fit(alloc, base, u)? {
        return Ok(false);
    }
    relation_fits(alloc, base, u)
}

/// Whether an update is fit: what it reads, its kinds, its variables, its places and checks, and the
/// relation.
pub(crate) fn update_fits<B: Base>(
    alloc: Global,
    base: &mut B,
    u: &Update,
) -> Result<bool, BaseFault>
    ensures known { (db : Db) → B.schema base.old ≡ Some db → IfOk result (λ fit. fit ≡ update_fits (kept_alone db) db u.now) }
    ensures kept { B.database base.new ≡ B.database base.old }
    ensures stays { (s : Db) → B.schema base.old ≡ Some s → B.schema base.new ≡ Some s }
    ensures asked { (b : B) → B.asked b base.old → B.asked b base.new }
    ensures cause { HasCause (B.database base.old) (B.faults base.old) (B.faults base.new) result }
{
    if !reads_fit(alloc, base, &u.query)? {
        return Ok(false);
    }
    if !update_kinds_fit(alloc, base, &u.query)? {
        return Ok(false);
    }
    if !expands_little(alloc, base, u)? {
        return Ok(false);
    }
    change_fits(alloc, base, u)
}
