//! What a statement asks for.

ghost use Rattle.std.specs.Prelude.{◌≡◌, Some, None, IsTrue};
ghost use Rattle.calculus.specs.Database.{Db};
ghost use Rattle.quel_meaning.specs.Naming.{name_refusal};
ghost use Rattle.quel_names.specs.Asking.{scope_of};
ghost use Rattle.quel_resolve.specs.Answers.{Resolves};
ghost use Rattle.utility_trees.specs.Causes.{HasCheckCause};

use crate::trees::tree;
use base_trait::Base;
use calculus::{Checked, Name, Statement};
use quel_check::RangeTable;
use quel_names::name_refusal;
use std::alloc::Global;
use utility_trees::{CheckFault, needs_no_query, tree_without_query};

/// What a statement asks for whose names were found.
fn resolve_named<B: Base>(
    alloc: Global,
    s: &Statement,
    user: &Name,
    ranges: &RangeTable,
    base: &mut B,
) -> Result<Checked, CheckFault>
    ensures known { (db : Db) → B.schema base.old ≡ Some db → name_refusal (scope_of db user.now ranges.now) s.now ≡ None → Resolves db user.now ranges.now s.now result }
    ensures kept { B.database base.new ≡ B.database base.old }
    ensures stays { (s : Db) → B.schema base.old ≡ Some s → B.schema base.new ≡ Some s }
    ensures asked { (b : B) → B.asked b base.old → B.asked b base.new }
    ensures cause { HasCheckCause (B.database base.old) (B.faults base.old) (B.faults base.new) result }
{
    if needs_no_query(s) {
        tree_without_query(alloc, base, user, s)
    } else {
        tree(alloc, base, user, ranges, s)
    }
}

/// What the user's statement asks for, by the schema that is known before.
fn resolve_known<B: Base>(
    alloc: Global,
    s: &Statement,
    user: &Name,
    ranges: &RangeTable,
    base: &mut B,
) -> Result<Checked, CheckFault>
    ensures known { (db : Db) → B.schema base.old ≡ Some db → Resolves db user.now ranges.now s.now result }
    ensures kept { B.database base.new ≡ B.database base.old }
    ensures stays { (s : Db) → B.schema base.old ≡ Some s → B.schema base.new ≡ Some s }
    ensures asked { (b : B) → B.asked b base.old → B.asked b base.new }
    ensures cause { HasCheckCause (B.database base.old) (B.faults base.old) (B.faults base.new) result }
{
    match name_refusal(alloc, s, user, ranges, base)? {
        Some(number) => Err(CheckFault::No(number)),
        None => resolve_named(alloc, s, user, ranges, base),
    }
}

/// What the user's statement asks for: its tree. `No` has the number of what refuses the statement:
/// the first name in its text that isn't what it has to be, else the first cause that is there.
///
/// The first question fixes the schema. By that alone the answer is determined, whether rows are known
/// or not.
pub fn resolve<B: Base>(
    alloc: Global,
    s: &Statement,
    user: &Name,
    ranges: &RangeTable,
    base: &mut B,
) -> Result<Checked, CheckFault>
    ensures known { (db : Db) → B.schema base.old ≡ Some db → Resolves db user.now ranges.now s.now result }
    ensures by_schema { IsTrue B.fixes → (db : Db) → B.schema base.new ≡ Some db → Resolves db user.now ranges.now s.now result }
    ensures kept { B.database base.new ≡ B.database base.old }
    ensures stays { (s : Db) → B.schema base.old ≡ Some s → B.schema base.new ≡ Some s }
    ensures asked { (b : B) → B.asked b base.old → B.asked b base.new }
    ensures cause { HasCheckCause (B.database base.old) (B.faults base.old) (B.faults base.new) result }
{
    let _entries = base.count()?;
    resolve_known(alloc, s, user, ranges, base)
}
