//! Whether the kinds in a query, and those that an update sets, fit each other.

ghost use Rattle.std.specs.Prelude.{◌≡◌, map, vec_items, zip, slice_get, IfOk, Some};
ghost use Rattle.std.specs.List.{list_all};
ghost use Rattle.base_trait.specs.Causes.{HasCause};
ghost use Rattle.calculus.specs.Database.{Db};
ghost use Rattle.calculus.specs.IsDatabase.{has_kind, same_domain, same_kind, var_kinds};
ghost use Rattle.calculus.specs.Kinds.{comparable, kind_of};
ghost use Rattle.quel_meaning.specs.KindsInQueries.{kind_in_query, query_fits};

use crate::kinds::var_kinds;
use crate::terms::{kind_in_query, kinds_fit_in_query};
use base_trait::{Base, BaseFault};
use calculus::{Domain, Kind, Query, Target, is_number_kind, kind_of};
use std::alloc::Global;

fn same_domain(left: Domain, right: Domain) -> bool
    ensures { result ≡ same_domain left right }
{
    match (left, right) {
        (Domain::I1, Domain::I1) => true,
        (Domain::I2, Domain::I2) => true,
        (Domain::I4, Domain::I4) => true,
        (Domain::C(m), Domain::C(n)) => m == n,
        _ => false,
    }
}

/// Whether the two kinds are the same.
pub fn same_kind(left: Kind, right: Kind) -> bool
    ensures { result ≡ same_kind left right }
{
    match (left, right) {
        (Kind::Wide, Kind::Wide) => true,
        (Kind::Of(left), Kind::Of(right)) => same_domain(left, right),
        _ => false,
    }
}

/// Whether a kind is there and is this one.
pub fn has_kind(found: Option<Kind>, kind: Kind) -> bool
    ensures { result ≡ has_kind found kind }
{
    match found {
        Some(found) => same_kind(found, kind),
        None => false,
    }
}

/// Whether each target is of its kind, where these are the kinds of each variable's attributes; false
/// also where its term has none. Takes no memory.
pub fn targets_fit(targets: &[Target], kinds: &[Vec<Kind>]) -> bool
    ensures { result ≡ list_all (λ t. has_kind (kind_of t.term (map vec_items kinds.now)) t.kind) targets.now }
{
    for target in targets {
        if !has_kind(kind_of(&target.term, kinds), target.kind) {
            return false;
        }
    }
    true
}

/// Whether each target of a query is of its kind, where its variables have attributes of these kinds.
fn all_of_kinds<B: Base>(
    alloc: Global,
    base: &mut B,
    targets: &[Target],
    vars: &[Vec<Kind>],
) -> Result<bool, BaseFault>
    ensures known { (db : Db) → B.schema base.old ≡ Some db → IfOk result (λ fit. fit ≡ list_all (λ t. has_kind (kind_in_query db t.term (map vec_items vars.now)) t.kind) targets.now) }
    ensures kept { B.database base.new ≡ B.database base.old }
    ensures stays { (s : Db) → B.schema base.old ≡ Some s → B.schema base.new ≡ Some s }
    ensures asked { (b : B) → B.asked b base.old → B.asked b base.new }
    ensures cause { HasCause (B.database base.old) (B.faults base.old) (B.faults base.new) result }
{
    for target in targets {
        let kind = kind_in_query(alloc, base, &target.term, vars)?;
        if !has_kind(kind, target.kind) {
            return Ok(false);
        }
    }
    Ok(true)
}

/// Whether the kinds in a query fit, where its variables have attributes of these kinds.
fn fits_over<B: Base>(
    alloc: Global,
    base: &mut B,
    q: &Query,
    vars: &[Vec<Kind>],
) -> Result<bool, BaseFault>
    ensures known { (db : Db) → B.schema base.old ≡ Some db → var_kinds db q.now ≡ map vec_items vars.now → IfOk result (λ fit. fit ≡ query_fits db q.now) }
    ensures kept { B.database base.new ≡ B.database base.old }
    ensures stays { (s : Db) → B.schema base.old ≡ Some s → B.schema base.new ≡ Some s }
    ensures asked { (b : B) → B.asked b base.old → B.asked b base.new }
    ensures cause { HasCause (B.database base.old) (B.faults base.old) (B.faults base.new) result }
{
    let fit = all_of_kinds(alloc, base, q.targets.items(), vars)?;
    if !fit {
        return Ok(false);
    }
    kinds_fit_in_query(alloc, base, &q.qual, vars)
}

/// Whether the kinds in a query fit each other, and each target is of its kind. The base is asked for
/// the kinds of its variables and of the sources of its aggregates.
pub fn query_fits<B: Base>(alloc: Global, base: &mut B, q: &Query) -> Result<bool, BaseFault>
    ensures known { (db : Db) → B.schema base.old ≡ Some db → IfOk result (λ fit. fit ≡ query_fits db q.now) }
    ensures kept { B.database base.new ≡ B.database base.old }
    ensures stays { (s : Db) → B.schema base.old ≡ Some s → B.schema base.new ≡ Some s }
    ensures asked { (b : B) → B.asked b base.old → B.asked b base.new }
    ensures cause { HasCause (B.database base.old) (B.faults base.old) (B.faults base.new) result }
{
    let kinds = var_kinds(alloc, base, q.vars.items())?;
    let fit = fits_over(alloc, base, q, &kinds);
    drop(kinds);
    fit
}

#[tactic(auto, unfolding(calculus::specs::Kinds::comparable))]
fn is_for(target: &Target, place: u8, kinds: &[Kind]) -> bool
    ensures { result ≡ comparable (Some target.now.kind) (slice_get kinds.now place) }
{
    match kinds.get(place as usize) {
        Some(wanted) => is_number_kind(target.kind) == is_number_kind(*wanted),
        None => false,
    }
}

/// Whether the value of each target and the attribute that it is for are both numbers or both texts:
/// `places` are the places of these attributes, item by item, among those of these kinds. Takes no
/// memory.
pub fn assignments_fit(targets: &[Target], places: &[u8], kinds: &[Kind]) -> bool
    ensures { result ≡ list_all (λ p. comparable (Some p.0.kind) p.1) (zip targets.now (map (slice_get kinds.now) places.now)) }
{
    let mut pairs = targets.iter().zip(places);
    pairs.all(|(target, place)| is_for(target, *place, kinds))
}
