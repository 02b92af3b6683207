//! What a statement asks for, checked.

ghost use Rattle.std.specs.Prelude.{◌≡◌, ◌≤◌, true, Some, IfOk};
ghost use Rattle.calculus.specs.Database.{Db};
ghost use Rattle.quel_meaning.specs.IsWritten.{is_written};
ghost use Rattle.utility_trees.specs.Causes.{HasCheckCause};
ghost use Rattle.reading_laws.specs.Levels.{most_tree_levels, tree_levels};
ghost use Rattle.reading_laws.specs.Shallow.{statement_levels};
ghost use Rattle.stage_parse.specs.Checks.{Checks};

use crate::cutting::restricted_and_ruled;
use base_trait::Base;
use calculus::{Checked, Name, Statement};
use quel_check::RangeTable;
use quel_resolve::{CheckFault, resolve};
use std::alloc::Global;

/// What the user's statement asks for, as a tree over base relations and catalogues alone that is fit for
/// the database: its views are expanded, it is cut down to what the user may see and change, and the rules
/// of the relation that it changes are among its checks. For whoever is unrestricted it means what the
/// statement means for the user. `No` has the number of what refuses the statement: the first name that
/// isn't what it has to be, else the first cause, else 23 where something isn't permitted. Of a statement
/// of at most 500 levels, as each has that is read of a text, the tree has at most 3,000: one of more
/// couldn't be handed on as bytes.
pub fn checked<B: Base>(
    alloc: Global,
    s: &Statement,
    user: &Name,
    ranges: &RangeTable,
    base: &mut B,
) -> Result<Checked, CheckFault>
    requires { is_written s.now ≡ true }
    ensures known { (db : Db) → B.database base.old ≡ Some db → Checks db user.now ranges.now s.now result }
    ensures shallow { (db : Db) → B.database base.old ≡ Some db → statement_levels s.now ≤ 500
        → IfOk result (λ tree. tree_levels tree ≤ most_tree_levels) }
    ensures kept { B.database base.new ≡ B.database base.old }
    ensures stays { (s : Db) → B.schema base.old ≡ Some s → B.schema base.new ≡ Some s }
    ensures asked { (b : B) → B.asked b base.old → B.asked b base.new }
    ensures cause { HasCheckCause (B.database base.old) (B.faults base.old) (B.faults base.new) result }
{
    let _ = user.bytes();
    match resolve(alloc, s, user, ranges, base) {
        Ok(tree) => restricted_and_ruled(alloc, base, user, tree),
        Err(fault) => Err(fault),
    }
}
