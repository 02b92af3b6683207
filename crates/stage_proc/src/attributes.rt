//! The kinds of the values of new rows, by what the database says of the relation.

ghost use Rattle.std.specs.Prelude.{◌≡◌, Some, IfOk};
ghost use Rattle.calculus.specs.Database.{Db};
ghost use Rattle.calculus.specs.Replacement.{wanted_kinds};
ghost use Rattle.calculus.specs.Stored.{kinds_at};
ghost use Rattle.stage_proc.specs.Given.{wanted};
ghost use Rattle.base_trait.specs.Causes.{HasCause};

use crate::kinds::{NewKinds, wanted};
use base_trait::{Base, BaseFault};
use calculus::{Kind, OutOfMemory, Update};
use ovqp::kinds_at;
use std::alloc::Global;

/// The kinds of the values of an update's new rows, where these are those of its relation's attributes.
fn kinds_by(alloc: Global, attributes: Vec<Kind>, u: &Update) -> Result<NewKinds, OutOfMemory>
    ensures attributes { IfOk result (λ kinds. kinds.attributes.items ≡ attributes.items) }
    ensures wanted { IfOk result (λ kinds. kinds.wanted.items ≡ wanted attributes.items u.now) }
{
    match wanted(alloc, &attributes, u) {
        Ok(wanted) => Ok(NewKinds { attributes, wanted }),
        Err(error) => Err(error),
    }
}

/// The kinds of the values of an update's new rows.
pub(crate) fn new_kinds<B: Base>(
    alloc: Global,
    base: &mut B,
    u: &Update,
) -> Result<NewKinds, BaseFault>
    ensures attributes { (db : Db) → B.database base.old ≡ Some db → IfOk result (λ kinds. kinds.attributes.items ≡ kinds_at db u.now.rel) }
    ensures wanted { (db : Db) → B.database base.old ≡ Some db → IfOk result (λ kinds. kinds.wanted.items ≡ wanted_kinds db u.now) }
    ensures kept { B.database base.new ≡ B.database base.old }
    ensures stays { (s : Db) → B.schema base.old ≡ Some s → B.schema base.new ≡ Some s }
    ensures asked { (b : B) → B.asked b base.old → B.asked b base.new }
    ensures cause { HasCause (B.database base.old) (B.faults base.old) (B.faults base.new) result }
{
    let attributes = kinds_at(alloc, base, &u.rel)?;
    let kinds = kinds_by(alloc, attributes, u)?;
    Ok(kinds)
}
