//! Who needs no permit.

ghost use Rattle.std.specs.Prelude.{◌≡◌, Some, IfOk};
ghost use Rattle.base_trait.specs.Causes.{HasCause};
ghost use Rattle.calculus.specs.Catalogue.{is_catalogue, is_catalogue_name};
ghost use Rattle.calculus.specs.Database.{Db};
ghost use Rattle.calculus.specs.Rights.{needs_none};
ghost use Rattle.calculus.specs.Who.{asker_of};
ghost use Rattle.view_expand.specs.Asking.{right_of};

use crate::Right;
use base_trait::{Base, BaseFault};
use calculus::{Name, RelKey};
use std::alloc::Global;

/// Whether only a catalogue has this name.
fn is_catalogue_name(name: &Name) -> bool
    ensures { result ≡ is_catalogue_name name.now }
{
    name.bytes() == b"relation".as_slice() || name.bytes() == b"attribute".as_slice()
}

/// Whether the administrator's catalogue of a name has this key.
fn has_catalogue_key(key: &RelKey, dba: &Name) -> bool
    ensures { (db : Db) → dba.now ≡ db.dba → result ≡ is_catalogue db key.now }
{
    let names = is_catalogue_name(&key.name);
    key.owner == *dba && names
}

/// Whether a catalogue stands under the key.
fn is_catalogue<B: Base>(alloc: Global, base: &mut B, key: &RelKey) -> Result<bool, BaseFault>
    ensures known { (db : Db) → B.database base.old ≡ Some db → IfOk result (λ b. b ≡ is_catalogue db key.now) }
    ensures kept { B.database base.new ≡ B.database base.old }
    ensures stays { (s : Db) → B.schema base.old ≡ Some s → B.schema base.new ≡ Some s }
    ensures asked { (b : B) → B.asked b base.old → B.asked b base.new }
    ensures cause { HasCause (B.database base.old) (B.faults base.old) (B.faults base.new) result }
{
    let dba = base.dba(alloc)?;
    Ok(has_catalogue_key(key, &dba))
}

/// Whether the user needs no permit: the owner may do all, and everybody may read the catalogues.
pub(crate) fn needs_none<B: Base>(
    alloc: Global,
    base: &mut B,
    user: &Name,
    right: Right,
    key: &RelKey,
) -> Result<bool, BaseFault>
    ensures known { (db : Db) → B.database base.old ≡ Some db → IfOk result (λ none. none ≡ needs_none db (asker_of user.now) (right_of right) key.now) }
    ensures kept { B.database base.new ≡ B.database base.old }
    ensures stays { (s : Db) → B.schema base.old ≡ Some s → B.schema base.new ≡ Some s }
    ensures asked { (b : B) → B.asked b base.old → B.asked b base.new }
    ensures cause { HasCause (B.database base.old) (B.faults base.old) (B.faults base.new) result }
{
    if key.owner == *user {
        return Ok(true);
    }
    let catalogue = is_catalogue(alloc, base, key)?;
    Ok(catalogue && right.is_retrieve())
}
