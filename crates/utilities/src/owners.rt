//! What refuses a utility because of the relation that it changes, and of the user.

ghost use Rattle.std.specs.Prelude.{◌≡◌, ◌∷◌, [], false, is_some, IfOk, None, Some};
ghost use Rattle.base_trait.specs.Causes.{HasCause};
ghost use Rattle.calculus.specs.Catalogue.{is_catalogue};
ghost use Rattle.calculus.specs.Database.{Db, view_at};
ghost use Rattle.calculus.specs.Replacement.{first_refusal};
ghost use Rattle.quel_meaning.specs.Planned.{has_view, is_not_the_owner, may_not_grant, owner_refusals};

use base_trait::{Base, BaseFault};
use calculus::refusals::NOT_OWNER;
use calculus::{Name, RelKey};
use quel_refusals::relation_refusal;
use std::alloc::Global;

/// Whether the user is not the owner.
pub(crate) fn is_not_the_owner(user: &Name, key: &RelKey) -> bool
    ensures { result ≡ is_not_the_owner user.now key.now }
{
    key.owner != *user
}

/// Whether the user is not the owner, or not the administrator, who alone gives permits.
fn may_not_grant<B: Base>(
    alloc: Global,
    base: &mut B,
    user: &Name,
    key: &RelKey,
) -> Result<bool, BaseFault>
    ensures known { (db : Db) → B.schema base.old ≡ Some db → IfOk result (λ b. b ≡ may_not_grant db user.now key.now) }
    ensures kept { B.database base.new ≡ B.database base.old }
    ensures stays { (s : Db) → B.schema base.old ≡ Some s → B.schema base.new ≡ Some s }
    ensures asked { (b : B) → B.asked b base.old → B.asked b base.new }
    ensures cause { HasCause (B.database base.old) (B.faults base.old) (B.faults base.new) result }
{
    if is_not_the_owner(user, key) {
        return Ok(true);
    }
    let dba = base.dba(alloc)?;
    Ok(dba != *user)
}

/// The cause that what has the key is another's, where it is.
fn not_the_owner(there: bool) -> Option<u8>
    ensures { result ≡ first_refusal ((24, there) ∷ []) }
{
    if there { Some(NOT_OWNER) } else { None }
}

/// What refuses a change of a relation of the user's, by its number, the first in this order: that
/// the key is a catalogue's (28), a view's (26), or another's (24). `None` where nothing does. Asks
/// the database for the administrator's name and for the view under the key, and changes nothing.
#[tactic(auto, using(crate::proofs::Owner::the_owner))]
pub fn owner_refusal<B: Base>(
    alloc: Global,
    base: &mut B,
    user: &Name,
    rel: &RelKey,
) -> Result<Option<u8>, BaseFault>
    ensures known { (db : Db) → B.schema base.old ≡ Some db → IfOk result (λ n. n ≡ first_refusal (owner_refusals db user.now rel.now)) }
    // Whatever is known, nothing refuses only the owner.
    ensures owner { IfOk result (λ n. n ≡ None → is_not_the_owner user.now rel.now ≡ false) }
    ensures kept { B.database base.new ≡ B.database base.old }
    ensures stays { (s : Db) → B.schema base.old ≡ Some s → B.schema base.new ≡ Some s }
    ensures asked { (b : B) → B.asked b base.old → B.asked b base.new }
    ensures cause { HasCause (B.database base.old) (B.faults base.old) (B.faults base.new) result }
{
    match relation_refusal(alloc, base, rel) {
        Ok(None) => Ok(not_the_owner(is_not_the_owner(user, rel))),
        Ok(Some(cause)) => Ok(Some(cause)),
        Err(fault) => Err(fault),
    }
}

/// What refuses a change of a relation's permits: that the key is a catalogue's or a view's, or that
/// the user is not its owner, or not the administrator.
pub(crate) fn permitting_refusal<B: Base>(
    alloc: Global,
    base: &mut B,
    user: &Name,
    rel: &RelKey,
) -> Result<Option<u8>, BaseFault>
    ensures known { (db : Db) → B.schema base.old ≡ Some db
        → IfOk result (λ n. n ≡ first_refusal ((28, is_catalogue db rel.now) ∷ (26, has_view db rel.now) ∷ (24, may_not_grant db user.now rel.now) ∷ [])) }
    ensures kept { B.database base.new ≡ B.database base.old }
    ensures stays { (s : Db) → B.schema base.old ≡ Some s → B.schema base.new ≡ Some s }
    ensures asked { (b : B) → B.asked b base.old → B.asked b base.new }
    ensures cause { HasCause (B.database base.old) (B.faults base.old) (B.faults base.new) result }
{
    match relation_refusal(alloc, base, rel) {
        Ok(None) => {
            let none = may_not_grant(alloc, base, user, rel)?;
            Ok(not_the_owner(none))
        }
        other => other,
    }
}
