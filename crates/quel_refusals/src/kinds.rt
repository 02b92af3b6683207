//! The kinds of the attributes of what variables range over.

ghost use Rattle.std.specs.Prelude.{◌≡◌, ◌++◌, ◌∷◌, [], IfOk, OnOk, Some, map, vec_items};
ghost use Rattle.base_trait.specs.Causes.{HasCause};
ghost use Rattle.calculus.specs.Database.{Db};
ghost use Rattle.calculus.specs.Stored.{kinds_at};

use base_trait::{Base, BaseFault};
use calculus::{Kind, OutOfMemory, RelKey};
use ovqp::kinds_at;
use std::alloc::Global;

fn put_behind(kinds: &mut Vec<Vec<Kind>>, more: Vec<Kind>) -> Result<(), OutOfMemory>
    ensures { OnOk result (map vec_items kinds.new.items ≡ map vec_items kinds.old.items ++ more.items ∷ []) }
{
    Ok(kinds.push(more)?)
}

/// The kinds of the attributes of what stands under each key.
pub fn var_kinds<B: Base>(
    alloc: Global,
    base: &mut B,
    vars: &[RelKey],
) -> Result<Vec<Vec<Kind>>, BaseFault>
    ensures known { (db : Db) → B.schema base.old ≡ Some db → IfOk result (λ kinds. map vec_items kinds.items ≡ map (kinds_at db) vars.now) }
    ensures kept { B.database base.new ≡ B.database base.old }
    ensures stays { (s : Db) → B.schema base.old ≡ Some s → B.schema base.new ≡ Some s }
    ensures asked { (b : B) → B.asked b base.old → B.asked b base.new }
    ensures cause { HasCause (B.database base.old) (B.faults base.old) (B.faults base.new) result }
{
    let mut kinds = Vec::new(alloc);
    for key in vars {
        let more = kinds_at(alloc, base, key)?;
        put_behind(&mut kinds, more)?;
    }
    Ok(kinds)
}
