//! The updates that statements are.

ghost use Rattle.std.specs.Prelude.{◌≡◌, ◌≤◌, ℕ, List as Items, [], Some, length, map, IfOk};
ghost use Rattle.std.specs.List.{enumerate_from};
ghost use Rattle.calculus.specs.declared.query.QQual.TheVariants.{True};
ghost use Rattle.calculus.specs.QueryParts.{targets_of};
ghost use Rattle.quel_meaning.specs.Scope.{Scope, named, place_found, ranged};
ghost use Rattle.quel_meaning.specs.StatementUpdate.{append_of, changing, delete_of, into_of, replace_of};

use crate::known::key_of;
use crate::pairs::beside;
use crate::places::{attr_place, byte};
use calculus::{
    List, Name, OutOfMemory, QQual, Query, RelInfo, RelKey, Target, TryCopy, Update, UpdateOp,
};
use memory::both;
use std::alloc::Global;

/// The places of the attributes that the targets' titles name.
fn places_of(alloc: Global, info: &RelInfo, targets: &[Target]) -> Result<Vec<u8>, OutOfMemory>
    ensures { IfOk result (λ places. length info.now.attrs ≤ 256 → places.items ≡ map (λ t. place_found (Some info.now) t.name) targets.now) }
{
    let mut places = Vec::new(alloc);
    for target in targets {
        places.push(attr_place(info.attrs.items(), &target.name))?;
    }
    Ok(places)
}

/// The places of as many attributes as there are targets.
fn places_in_order(alloc: Global, targets: &[Target]) -> Result<Vec<u8>, OutOfMemory>
    ensures { IfOk result (λ places. length targets.now ≤ 256 → places.items ≡ map (λ p. p.0) (enumerate_from 0 targets.now)) }
{
    let mut places = Vec::new(alloc);
    for place in 0..targets.len() {
        places.push(byte(place))?;
    }
    Ok(places)
}

/// The update of these parts, without checks.
fn update(alloc: Global, op: UpdateOp, rel: RelKey, old: u8, places: Vec<u8>, q: Query) -> Update
    ensures { result ≡ record { op = op; rel = rel; old = old; places = places.items; query = q; checks = []; new_cut = True } }
{
    Update {
        op,
        rel,
        old,
        places: List::of(places),
        query: q,
        checks: List::of(Vec::new(alloc)),
        new_cut: QQual::True,
    }
}

/// An update of this relation that gives new values to the attributes that the titles name.
fn changing(
    alloc: Global,
    op: UpdateOp,
    old: u8,
    info: &RelInfo,
    q: Query,
) -> Result<Update, OutOfMemory>
    ensures { IfOk result (λ update. length info.now.attrs ≤ 256 → update ≡ changing op old (Some info.now) q) }
{
    let places = places_of(alloc, info, q.targets.items());
    let parts = both(info.key.copy(alloc), places);
    let ((rel, places), q) = beside(parts, q)?;
    Ok(update(alloc, op, rel, old, places, q))
}

/// An append to the relation of which this is known, where it has at most 256 attributes.
pub fn append_of(alloc: Global, info: &RelInfo, q: Query) -> Result<Update, OutOfMemory>
    ensures { IfOk result (λ update. (scope : Scope) (rel : Items ℕ) → named scope rel ≡ Some info.now → length info.now.attrs ≤ 256 → update ≡ append_of scope rel q) }
{
    changing(alloc, UpdateOp::Append, 255, info, q)
}

/// A replacement in the rows of the query's first variable, of whose relation this is known, where
/// it has at most 256 attributes.
pub fn replace_of(alloc: Global, info: &RelInfo, q: Query) -> Result<Update, OutOfMemory>
    ensures { IfOk result (λ update. (scope : Scope) (var : Items ℕ) → ranged scope var ≡ Some info.now → length info.now.attrs ≤ 256 → update ≡ replace_of scope var q) }
{
    changing(alloc, UpdateOp::Replace, 0, info, q)
}

/// A deletion of rows of the query's first variable, of whose relation this is known, where it has
/// at most 256 attributes.
pub fn delete_of(alloc: Global, info: &RelInfo, q: Query) -> Result<Update, OutOfMemory>
    ensures { IfOk result (λ update. (scope : Scope) (var : Items ℕ) → ranged scope var ≡ Some info.now → length info.now.attrs ≤ 256 → update ≡ delete_of scope var q) }
{
    changing(alloc, UpdateOp::Delete, 0, info, q)
}

/// A new relation of the user's with this name, for a query of at most 256 targets.
pub fn into_of(alloc: Global, user: &Name, name: &Name, q: Query) -> Result<Update, OutOfMemory>
    ensures { IfOk result (λ update. (scope : Scope) → scope.user ≡ user.now → length (targets_of q) ≤ 256 → update ≡ into_of scope name.now q) }
{
    let places = places_in_order(alloc, q.targets.items());
    let parts = both(key_of(alloc, user, name), places);
    let ((rel, places), q) = beside(parts, q)?;
    Ok(update(alloc, UpdateOp::Into, rel, 255, places, q))
}
