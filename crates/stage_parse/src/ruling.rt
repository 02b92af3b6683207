//! Trees with the rules of the relations that they change.

ghost use Rattle.std.specs.Prelude.{◌≡◌, Some, IfOk};
ghost use Rattle.base_trait.specs.Causes.{HasCause};
ghost use Rattle.calculus.specs.Database.{Db};
ghost use Rattle.calculus.specs.declared.request.Checked.TheVariants as checked;
ghost use Rattle.quel_meaning.specs.Meaning.{ruled_tree};

use crate::taking::update_in;
use base_trait::{Base, BaseFault};
use calculus::{Checked, Update};
use cut_rules::add_rules;
use std::alloc::Global;

/// The tree of an update, with the rules of the relation that it changes.
#[tactic(auto, unfolding(quel_meaning::specs::Meaning::ruled_tree))]
fn ruled_update<B: Base>(alloc: Global, base: &mut B, u: Update) -> Result<Checked, BaseFault>
    ensures known { (db : Db) → B.schema base.old ≡ Some db → IfOk result (λ made. made ≡ ruled_tree db (checked.Update u)) }
    ensures kept { B.database base.new ≡ B.database base.old }
    ensures stays { (s : Db) → B.schema base.old ≡ Some s → B.schema base.new ≡ Some s }
    ensures asked { (b : B) → B.asked b base.old → B.asked b base.new }
    ensures cause { HasCause (B.database base.old) (B.faults base.old) (B.faults base.new) result }
{
    match add_rules(alloc, u, base) {
        Ok(ruled) => Ok(Checked::Update(ruled)),
        Err(fault) => Err(fault),
    }
}

/// The tree with the rules of the relation that it changes among its checks.
pub(crate) fn ruled<B: Base>(
    alloc: Global,
    base: &mut B,
    mut tree: Checked,
) -> Result<Checked, BaseFault>
    ensures known { (db : Db) → B.schema base.old ≡ Some db → IfOk result (λ made. made ≡ ruled_tree db tree) }
    ensures kept { B.database base.new ≡ B.database base.old }
    ensures stays { (s : Db) → B.schema base.old ≡ Some s → B.schema base.new ≡ Some s }
    ensures asked { (b : B) → B.asked b base.old → B.asked b base.new }
    ensures cause { HasCause (B.database base.old) (B.faults base.old) (B.faults base.new) result }
{
    match update_in(alloc, &mut tree) {
        Ok(None) => Ok(tree),
        Ok(Some(u)) => {
            drop(tree);
            ruled_update(alloc, base, u)
        }
        Err(_) => {
            drop(tree);
            Err(BaseFault::OutOfMemory)
        }
    }
}
