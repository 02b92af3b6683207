//! What `modify` and `index` ask for.

ghost use Rattle.std.specs.Prelude.{◌≡◌, ◌≤◌, ◌∷◌, [], Some, None, Ok, Err, length, map, IfOk};
ghost use Rattle.base_trait.specs.Causes.{HasCause};
ghost use Rattle.calculus.specs.declared.request.Checked.TheVariants.{Utility as ForUtilities};
ghost use Rattle.calculus.specs.declared.request.Utility.TheVariants as utility;
ghost use Rattle.calculus.specs.declared.statement.Statement.TheVariants as statement;
ghost use Rattle.calculus.specs.Database.{Db};
ghost use Rattle.calculus.specs.Replacement.{first_refusal};
ghost use Rattle.calculus.specs.Structures.{is_keyed};
ghost use Rattle.quel_meaning.specs.Causes.{repeats};
ghost use Rattle.quel_meaning.specs.Naming.{name_refusal};
ghost use Rattle.quel_meaning.specs.Passing.{is_full, is_taken};
ghost use Rattle.quel_meaning.specs.Ranges.{Ranges};
ghost use Rattle.quel_meaning.specs.Scope.{place_found};
ghost use Rattle.quel_meaning.specs.Structures.{structure_keys};
ghost use Rattle.quel_names.specs.Asking.{scope_of};
ghost use Rattle.utility_trees.specs.Causes.{HasCheckCause};
ghost use Rattle.utility_trees.specs.Serving.{Serves};

use crate::CheckFault;
use crate::finding::found;
use crate::places::places_of;
use crate::repeated::names_repeat;
use base_trait::{Base, BaseFault};
use calculus::refusals::{NAME_IN_USE, NAMED_TWICE, PAST_LIMIT};
use calculus::{Checked, List, Name, OutOfMemory, RelInfo, Spec, TryCopy, Utility};
use memory::{alone, both};
use quel_refusals::{is_full, is_taken};
use std::alloc::Global;

/// Whether rows lie by keys in a structure.
fn is_keyed(to: Spec) -> bool
    ensures { result ≡ is_keyed to }
{
    match to {
        Spec::Heap => false,
        Spec::Hash => true,
        Spec::Isam => true,
        Spec::View => false,
        Spec::Index => false,
    }
}

/// The places of the keys of a structure: of one with keys those that are named, or the first attribute;
/// else none.
fn key_places(
    alloc: Global,
    info: &RelInfo,
    to: Spec,
    keys: &[Name],
) -> Result<Vec<u8>, OutOfMemory>
    ensures { IfOk result (λ places. length info.now.attrs ≤ 256 → places.items ≡ structure_keys to (map (place_found (Some info.now)) keys.now)) }
{
    if !is_keyed(to) {
        return Ok(Vec::new(alloc));
    }
    match keys {
        [] => alone(alloc, 0),
        _ => places_of(alloc, info, keys),
    }
}

/// The tree of a `modify` of what is known.
fn modification(
    alloc: Global,
    info: &RelInfo,
    to: Spec,
    keys: &[Name],
) -> Result<Checked, OutOfMemory>
    ensures { IfOk result (λ tree. length info.now.attrs ≤ 256 → tree ≡ ForUtilities (utility.Modify info.now.key to (structure_keys to (map (place_found (Some info.now)) keys.now)))) }
{
    let (rel, places) = both(info.key.copy(alloc), key_places(alloc, info, to, keys))?;
    let keys = List::of(places);
    Ok(Checked::Utility(Utility::Modify { rel, to, keys }))
}

/// The tree of a `modify` of this relation to this structure on these keys.
pub(crate) fn modified<B: Base>(
    alloc: Global,
    base: &mut B,
    user: &Name,
    rel: &Name,
    to: Spec,
    keys: &[Name],
) -> Result<Checked, CheckFault>
    ensures known { (db : Db) (ranges : Ranges) → B.schema base.old ≡ Some db → name_refusal (scope_of db user.now ranges) (statement.Modify rel.now to keys.now) ≡ None
        → Serves (scope_of db user.now ranges) (statement.Modify rel.now to keys.now) result }
    ensures kept { B.database base.new ≡ B.database base.old }
    ensures stays { (s : Db) → B.schema base.old ≡ Some s → B.schema base.new ≡ Some s }
    ensures asked { (b : B) → B.asked b base.old → B.asked b base.new }
    ensures cause { HasCheckCause (B.database base.old) (B.faults base.old) (B.faults base.new) result }
{
    if names_repeat(alloc, keys)? {
        return Err(CheckFault::No(NAMED_TWICE));
    }
    match found(alloc, base, user, rel) {
        Ok(info) => {
            let tree = modification(alloc, &info, to, keys);
            drop(info);
            Ok(tree?)
        }
        Err(fault) => Err(fault),
    }
}

/// What refuses an index of the user's with this name on these keys.
fn index_refusal<B: Base>(
    alloc: Global,
    base: &mut B,
    user: &Name,
    name: &Name,
    keys: &[Name],
) -> Result<Option<u8>, BaseFault>
    ensures known { (db : Db) → B.schema base.old ≡ Some db
        → IfOk result (λ n. n ≡ first_refusal ((17, repeats keys.now) ∷ (14, is_full db) ∷ (15, is_taken db user.now name.now) ∷ [])) }
    ensures kept { B.database base.new ≡ B.database base.old }
    ensures stays { (s : Db) → B.schema base.old ≡ Some s → B.schema base.new ≡ Some s }
    ensures asked { (b : B) → B.asked b base.old → B.asked b base.new }
    ensures cause { HasCause (B.database base.old) (B.faults base.old) (B.faults base.new) result }
{
    if names_repeat(alloc, keys)? {
        return Ok(Some(NAMED_TWICE));
    }
    if is_full(base)? {
        return Ok(Some(PAST_LIMIT));
    }
    if is_taken(alloc, base, user, name)? {
        return Ok(Some(NAME_IN_USE));
    }
    Ok(None)
}

/// The tree of an index on what is known.
fn index_on(
    alloc: Global,
    info: &RelInfo,
    name: &Name,
    keys: &[Name],
) -> Result<Checked, OutOfMemory>
    ensures { IfOk result (λ tree. length info.now.attrs ≤ 256 → tree ≡ ForUtilities (utility.Index info.now.key name.now (map (place_found (Some info.now)) keys.now))) }
{
    let names = both(info.key.copy(alloc), name.copy(alloc));
    let ((base, name), places) = both(names, places_of(alloc, info, keys))?;
    let keys = List::of(places);
    Ok(Checked::Utility(Utility::Index { base, name, keys }))
}

/// The tree of an index with this name on these keys of this relation, where no cause refuses it.
fn index_found<B: Base>(
    alloc: Global,
    base: &mut B,
    user: &Name,
    rel: &Name,
    name: &Name,
    keys: &[Name],
) -> Result<Checked, CheckFault>
    ensures known { (db : Db) (ranges : Ranges) → B.schema base.old ≡ Some db → name_refusal (scope_of db user.now ranges) (statement.Index rel.now name.now keys.now) ≡ None
        → first_refusal ((17, repeats keys.now) ∷ (14, is_full db) ∷ (15, is_taken db user.now name.now) ∷ []) ≡ None
        → Serves (scope_of db user.now ranges) (statement.Index rel.now name.now keys.now) result }
    ensures kept { B.database base.new ≡ B.database base.old }
    ensures stays { (s : Db) → B.schema base.old ≡ Some s → B.schema base.new ≡ Some s }
    ensures asked { (b : B) → B.asked b base.old → B.asked b base.new }
    ensures cause { HasCheckCause (B.database base.old) (B.faults base.old) (B.faults base.new) result }
{
    match found(alloc, base, user, rel) {
        Ok(info) => {
            let tree = index_on(alloc, &info, name, keys);
            drop(info);
            Ok(tree?)
        }
        Err(fault) => Err(fault),
    }
}

/// The tree of an index with this name on these keys of this relation.
pub(crate) fn indexed<B: Base>(
    alloc: Global,
    base: &mut B,
    user: &Name,
    rel: &Name,
    name: &Name,
    keys: &[Name],
) -> Result<Checked, CheckFault>
    ensures known { (db : Db) (ranges : Ranges) → B.schema base.old ≡ Some db → name_refusal (scope_of db user.now ranges) (statement.Index rel.now name.now keys.now) ≡ None
        → Serves (scope_of db user.now ranges) (statement.Index rel.now name.now keys.now) result }
    ensures kept { B.database base.new ≡ B.database base.old }
    ensures stays { (s : Db) → B.schema base.old ≡ Some s → B.schema base.new ≡ Some s }
    ensures asked { (b : B) → B.asked b base.old → B.asked b base.new }
    ensures cause { HasCheckCause (B.database base.old) (B.faults base.old) (B.faults base.new) result }
{
    match index_refusal(alloc, base, user, name, keys)? {
        Some(number) => Err(CheckFault::No(number)),
        None => index_found(alloc, base, user, rel, name, keys),
    }
}
