//! What refuses an update of a relation, and a new relation.

ghost use Rattle.std.specs.Prelude.{◌≡◌, ◌∷◌, ◌&&◌, [], true, map, slice_get, is_some, IfOk, Some};
ghost use Rattle.base_trait.specs.Causes.{HasCause};
ghost use Rattle.calculus.specs.Catalogue.{is_catalogue};
ghost use Rattle.calculus.specs.Database.{Db, view_at};
ghost use Rattle.calculus.specs.Replacement.{first_refusal, wanted_kinds};
ghost use Rattle.calculus.specs.Stored.{kinds_at};
ghost use Rattle.quel_meaning.specs.Causes.{delete_refusals, update_refusals};
ghost use Rattle.quel_meaning.specs.KindsInQueries.{assignments_fit, query_fits};
ghost use Rattle.quel_meaning.specs.Scope.{Scope};
ghost use Rattle.view_sizes.specs.Listing.{sources_list_few};

use crate::counted::has_too_many;
use crate::fitting::{assignments_fit, query_fits};
use crate::places::is_catalogue_name;
use crate::repeated::titles_repeat;
use base_trait::{Base, BaseFault};
use calculus::refusals::{IS_CATALOGUE, IS_VIEW, KINDS_DIFFER, NAMED_TWICE, PAST_LIMIT};
use calculus::{Name, RelKey, Update};
use ovqp::kinds_at;
use std::alloc::Global;

/// Whether the administrator's catalogue of a name has this key.
fn has_catalogue_key(key: &RelKey, dba: &Name) -> bool
    ensures { (db : Db) → dba.now ≡ db.dba → result ≡ is_catalogue db key.now }
{
    let names = is_catalogue_name(&key.name);
    key.owner == *dba && names
}

/// Whether a catalogue stands under the key.
fn is_catalogue<B: Base>(alloc: Global, base: &mut B, key: &RelKey) -> Result<bool, BaseFault>
    ensures known { (db : Db) → B.schema base.old ≡ Some db → IfOk result (λ b. b ≡ is_catalogue db key.now) }
    ensures kept { B.database base.new ≡ B.database base.old }
    ensures stays { (s : Db) → B.schema base.old ≡ Some s → B.schema base.new ≡ Some s }
    ensures asked { (b : B) → B.asked b base.old → B.asked b base.new }
    ensures cause { HasCause (B.database base.old) (B.faults base.old) (B.faults base.new) result }
{
    let dba = base.dba(alloc)?;
    Ok(has_catalogue_key(key, &dba))
}

/// Whether a view stands under the key.
fn is_view<B: Base>(alloc: Global, base: &mut B, key: &RelKey) -> Result<bool, BaseFault>
    ensures known { (db : Db) → B.schema base.old ≡ Some db → IfOk result (λ b. b ≡ is_some (view_at db key.now)) }
    ensures kept { B.database base.new ≡ B.database base.old }
    ensures stays { (s : Db) → B.schema base.old ≡ Some s → B.schema base.new ≡ Some s }
    ensures asked { (b : B) → B.asked b base.old → B.asked b base.new }
    ensures cause { HasCause (B.database base.old) (B.faults base.old) (B.faults base.new) result }
{
    let query = base.view(alloc, key)?;
    let found = query.is_some();
    drop(query);
    Ok(found)
}

/// What refuses a change of what has a key: that it is a catalogue, or a view.
pub fn relation_refusal<B: Base>(
    alloc: Global,
    base: &mut B,
    rel: &RelKey,
) -> Result<Option<u8>, BaseFault>
    ensures known { (db : Db) → B.schema base.old ≡ Some db → IfOk result (λ n. n ≡ first_refusal ((28, is_catalogue db rel.now) ∷ (26, is_some (view_at db rel.now)) ∷ [])) }
    ensures kept { B.database base.new ≡ B.database base.old }
    ensures stays { (s : Db) → B.schema base.old ≡ Some s → B.schema base.new ≡ Some s }
    ensures asked { (b : B) → B.asked b base.old → B.asked b base.new }
    ensures cause { HasCause (B.database base.old) (B.faults base.old) (B.faults base.new) result }
{
    if is_catalogue(alloc, base, rel)? {
        return Ok(Some(IS_CATALOGUE));
    }
    if is_view(alloc, base, rel)? {
        return Ok(Some(IS_VIEW));
    }
    Ok(None)
}

/// Whether the kinds in an update's query fit each other, and those of its targets the attributes
/// that they are for.
fn update_fits<B: Base>(alloc: Global, base: &mut B, u: &Update) -> Result<bool, BaseFault>
    ensures known { (db : Db) → B.schema base.old ≡ Some db → wanted_kinds db u.now ≡ map (slice_get (kinds_at db u.now.rel)) u.now.places → IfOk result (λ fit. fit ≡ (query_fits db u.now.query && assignments_fit db u.now)) }
    ensures kept { B.database base.new ≡ B.database base.old }
    ensures stays { (s : Db) → B.schema base.old ≡ Some s → B.schema base.new ≡ Some s }
    ensures asked { (b : B) → B.asked b base.old → B.asked b base.new }
    ensures cause { HasCause (B.database base.old) (B.faults base.old) (B.faults base.new) result }
{
    if !query_fits(alloc, base, &u.query)? {
        return Ok(false);
    }
    let kinds = kinds_at(alloc, base, &u.rel)?;
    Ok(assignments_fit(u.query.targets.items(), u.places.items(), &kinds))
}

/// What refuses an append or a replacement.
pub(crate) fn update_refusal<B: Base>(
    alloc: Global,
    base: &mut B,
    u: &Update,
) -> Result<Option<u8>, BaseFault>
    ensures known { (s : Scope) → B.schema base.old ≡ Some s.db → sources_list_few u.now.query ≡ true → wanted_kinds s.db u.now ≡ map (slice_get (kinds_at s.db u.now.rel)) u.now.places → IfOk result (λ n. n ≡ first_refusal (update_refusals s true u.now)) }
    ensures kept { B.database base.new ≡ B.database base.old }
    ensures stays { (s : Db) → B.schema base.old ≡ Some s → B.schema base.new ≡ Some s }
    ensures asked { (b : B) → B.asked b base.old → B.asked b base.new }
    ensures cause { HasCause (B.database base.old) (B.faults base.old) (B.faults base.new) result }
{
    if has_too_many(alloc, base, &u.query)? {
        return Ok(Some(PAST_LIMIT));
    }
    if titles_repeat(alloc, &u.query)? {
        return Ok(Some(NAMED_TWICE));
    }
    if !update_fits(alloc, base, u)? {
        return Ok(Some(KINDS_DIFFER));
    }
    relation_refusal(alloc, base, &u.rel)
}

/// What refuses a deletion.
pub(crate) fn delete_refusal<B: Base>(
    alloc: Global,
    base: &mut B,
    u: &Update,
) -> Result<Option<u8>, BaseFault>
    ensures known { (s : Scope) → B.schema base.old ≡ Some s.db → sources_list_few u.now.query ≡ true → IfOk result (λ n. n ≡ first_refusal (delete_refusals s true u.now)) }
    ensures kept { B.database base.new ≡ B.database base.old }
    ensures stays { (s : Db) → B.schema base.old ≡ Some s → B.schema base.new ≡ Some s }
    ensures asked { (b : B) → B.asked b base.old → B.asked b base.new }
    ensures cause { HasCause (B.database base.old) (B.faults base.old) (B.faults base.new) result }
{
    if has_too_many(alloc, base, &u.query)? {
        return Ok(Some(PAST_LIMIT));
    }
    if !query_fits(alloc, base, &u.query)? {
        return Ok(Some(KINDS_DIFFER));
    }
    relation_refusal(alloc, base, &u.rel)
}
