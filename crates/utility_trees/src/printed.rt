//! What `print` asks for.

ghost use Rattle.std.specs.Prelude.{◌≡◌, ◌++◌, ◌∷◌, [], false, Some, None, Ok, Err, is_some, map, OnOk};
ghost use Rattle.std.specs.List.{list_all};
ghost use Rattle.calculus.specs.declared.statement.Statement.TheVariants as statement;
ghost use Rattle.calculus.specs.Database.{Db};
ghost use Rattle.calculus.specs.Finding.{found};
ghost use Rattle.quel_meaning.specs.Naming.{name_refusal};
ghost use Rattle.quel_meaning.specs.Ranges.{Ranges};
ghost use Rattle.quel_meaning.specs.Resolved.{whole};
ghost use Rattle.quel_names.specs.Asking.{scope_of};
ghost use Rattle.utility_trees.specs.Answers.{Says};
ghost use Rattle.utility_trees.specs.Causes.{HasCheckCause};
ghost use Rattle.utility_trees.specs.Serving.{Serves};

use crate::CheckFault;
use crate::asked::whole;
use crate::finding::found;
use base_trait::Base;
use calculus::{Asked, Checked, List, Name};
use memory::push;
use std::alloc::Global;

/// All of what the user means by a name.
fn whole_named<B: Base>(
    alloc: Global,
    base: &mut B,
    user: &Name,
    name: &Name,
) -> Result<Asked, CheckFault>
    ensures known { (db : Db) → B.schema base.old ≡ Some db
        → Says (λ asked. asked ≡ whole (found db user.now name.now)) (λ number. found db user.now name.now ≡ None) result }
    ensures kept { B.database base.new ≡ B.database base.old }
    ensures stays { (s : Db) → B.schema base.old ≡ Some s → B.schema base.new ≡ Some s }
    ensures asked { (b : B) → B.asked b base.old → B.asked b base.new }
    ensures cause { HasCheckCause (B.database base.old) (B.faults base.old) (B.faults base.new) result }
{
    let info = found(alloc, base, user, name)?;
    let asked = whole(alloc, &info);
    drop(info);
    Ok(asked?)
}

/// All of what the user means by each of these names, one by one.
fn wholes<B: Base>(
    alloc: Global,
    base: &mut B,
    user: &Name,
    names: &[Name],
) -> Result<Vec<Asked>, CheckFault>
    ensures known { (db : Db) → B.schema base.old ≡ Some db
        → Says (λ asked. asked.items ≡ map (λ name. whole (found db user.now name)) names.now) (λ number. list_all (λ name. is_some (found db user.now name)) names.now ≡ false) result }
    ensures kept { B.database base.new ≡ B.database base.old }
    ensures stays { (s : Db) → B.schema base.old ≡ Some s → B.schema base.new ≡ Some s }
    ensures asked { (b : B) → B.asked b base.old → B.asked b base.new }
    ensures cause { HasCheckCause (B.database base.old) (B.faults base.old) (B.faults base.new) result }
{
    let mut asked = Vec::new(alloc);
    for name in names {
        let one = whole_named(alloc, base, user, name)?;
        push(&mut asked, one)?;
    }
    Ok(asked)
}

/// The tree of a `print` of these names.
pub(crate) fn printed<B: Base>(
    alloc: Global,
    base: &mut B,
    user: &Name,
    names: &[Name],
) -> Result<Checked, CheckFault>
    ensures known { (db : Db) (ranges : Ranges) → B.schema base.old ≡ Some db → name_refusal (scope_of db user.now ranges) (statement.Print names.now) ≡ None
        → Serves (scope_of db user.now ranges) (statement.Print names.now) result }
    ensures kept { B.database base.new ≡ B.database base.old }
    ensures stays { (s : Db) → B.schema base.old ≡ Some s → B.schema base.new ≡ Some s }
    ensures asked { (b : B) → B.asked b base.old → B.asked b base.new }
    ensures cause { HasCheckCause (B.database base.old) (B.faults base.old) (B.faults base.new) result }
{
    match wholes(alloc, base, user, names) {
        Ok(asked) => Ok(Checked::Answer(List::of(asked))),
        Err(fault) => Err(fault),
    }
}
