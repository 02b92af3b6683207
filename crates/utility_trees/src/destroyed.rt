//! What `destroy` asks for.

ghost use Rattle.std.specs.Prelude.{◌≡◌, ℕ, Option, Some, None, Ok, Err, true, false, not, filter_map};
ghost use Rattle.calculus.specs.declared.request.Checked.TheVariants.{Utility as ForUtilities};
ghost use Rattle.calculus.specs.declared.request.Utility.TheVariants as utility;
ghost use Rattle.calculus.specs.declared.statement.Statement.TheVariants as statement;
ghost use Rattle.calculus.specs.Database.{Db};
ghost use Rattle.calculus.specs.Keys.{same_key};
ghost use Rattle.calculus.specs.Lists.{differ_by};
ghost use Rattle.quel_meaning.specs.Naming.{name_refusal};
ghost use Rattle.quel_meaning.specs.Ranges.{Ranges};
ghost use Rattle.quel_names.specs.Asking.{scope_of};
ghost use Rattle.utility_trees.specs.Answers.{Says};
ghost use Rattle.utility_trees.specs.Causes.{HasCheckCause, IsCaused};
ghost use Rattle.utility_trees.specs.Serving.{Serves};

use crate::CheckFault;
use crate::finding::entry_keys;
use crate::repeated::keys_repeat;
use base_trait::Base;
use calculus::refusals::NAMED_TWICE;
use calculus::{Checked, List, Name, RelKey, Utility};
use std::alloc::Global;

/// The tree of a `destroy` of these keys, where none stands twice.
fn destruction(alloc: Global, keys: Vec<RelKey>) -> Result<Checked, CheckFault>
    ensures said { Says (λ tree. (differ_by same_key keys.items ≡ true) × (tree ≡ ForUtilities (utility.Destroy keys.items))) (λ number. (differ_by same_key keys.items ≡ false) × (number ≡ 17)) result }
    ensures no_fault { (known : Option Db) (before now : ℕ) → now ≡ before → IsCaused known before now result }
{
    match keys_repeat(alloc, &keys) {
        Ok(true) => {
            drop(keys);
            Err(CheckFault::No(NAMED_TWICE))
        }
        Ok(false) => Ok(Checked::Utility(Utility::Destroy {
            rels: List::of(keys),
        })),
        Err(error) => {
            drop(keys);
            Err(error.into())
        }
    }
}

/// The tree of a `destroy` of these names.
pub(crate) fn destroyed<B: Base>(
    alloc: Global,
    base: &mut B,
    user: &Name,
    names: &[Name],
) -> Result<Checked, CheckFault>
    ensures known { (db : Db) (ranges : Ranges) → B.schema base.old ≡ Some db → name_refusal (scope_of db user.now ranges) (statement.Destroy names.now) ≡ None
        → Serves (scope_of db user.now ranges) (statement.Destroy names.now) result }
    ensures kept { B.database base.new ≡ B.database base.old }
    ensures stays { (s : Db) → B.schema base.old ≡ Some s → B.schema base.new ≡ Some s }
    ensures asked { (b : B) → B.asked b base.old → B.asked b base.new }
    ensures cause { HasCheckCause (B.database base.old) (B.faults base.old) (B.faults base.new) result }
{
    let dba = base.dba(alloc)?;
    let keys = entry_keys(alloc, base, user, &dba, names);
    drop(dba);
    destruction(alloc, keys?)
}
