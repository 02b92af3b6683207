//! A relation that is stored in another structure.

ghost use Rattle.std.specs.Prelude.{◌≡◌, IfOk, Some};
ghost use Rattle.base_trait.specs.Causes.{HasCause};
ghost use Rattle.calculus.specs.Database.{Db};
ghost use Rattle.change_laws.specs.Fit.{structure_is_fit};

use crate::described::valid_structure;
use crate::keys::relation;
use base_trait::{Base, BaseFault};
use calculus::{RelKey, Spec};
use std::alloc::Global;

/// Whether a relation may be stored so: it is there, and the structure with these keys would be one
/// for its attributes.
pub(crate) fn structure_is_fit<B: Base>(
    alloc: Global,
    base: &mut B,
    rel: &RelKey,
    to: Spec,
    keys: &[u8],
) -> Result<bool, BaseFault>
    ensures known { (db : Db) → B.schema base.old ≡ Some db → IfOk result (λ fit. fit ≡ structure_is_fit db rel.now to keys.now) }
    ensures kept { B.database base.new ≡ B.database base.old }
    ensures stays { (s : Db) → B.schema base.old ≡ Some s → B.schema base.new ≡ Some s }
    ensures asked { (b : B) → B.asked b base.old → B.asked b base.new }
    ensures cause { HasCause (B.database base.old) (B.faults base.old) (B.faults base.new) result }
{
    match relation(alloc, base, rel)? {
        Some(info) => Ok(valid_structure(to, info.attrs.items(), keys)),
        None => Ok(false),
    }
}
