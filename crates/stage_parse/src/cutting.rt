//! Trees cut down to what a user may see and change, and ruled.

ghost use Rattle.std.specs.Prelude.{◌≡◌, true, false, Some};
ghost use Rattle.calculus.specs.Database.{Db};
ghost use Rattle.calculus.specs.Who.{as_user};
ghost use Rattle.quel_meaning.specs.Fit.{is_fit_with_views};
ghost use Rattle.quel_meaning.specs.Meaning.{checked_permitted, ruled_tree};
ghost use Rattle.utility_trees.specs.Answers.{Says};
ghost use Rattle.utility_trees.specs.Causes.{HasCheckCause};
ghost use Rattle.view_text.specs.Expanded.{expanded_tree};

use crate::ruling::ruled;
use base_trait::Base;
use calculus::refusals::{NO_PERMIT, PAST_LIMIT};
use calculus::{Checked, Name};
use cut_rules::{CutFault, cut_permits};
use quel_resolve::CheckFault;
use std::alloc::Global;

/// The tree with its views expanded, cut down to what the user may see and change; or 23, where something
/// isn't permitted. 14 can come only where no database is known.
fn cut<B: Base>(
    alloc: Global,
    base: &mut B,
    user: &Name,
    tree: Checked,
) -> Result<Checked, CheckFault>
    requires { (db : Db) → B.database base.old ≡ Some db → is_fit_with_views db user.now tree ≡ true }
    ensures known { (db : Db) → B.database base.old ≡ Some db
        → Says (λ made. (made ≡ expanded_tree db (as_user user.now) tree) × (checked_permitted db (as_user user.now) tree ≡ true))
        (λ number. (number ≡ 23) × (checked_permitted db (as_user user.now) tree ≡ false)) result }
    ensures kept { B.database base.new ≡ B.database base.old }
    ensures stays { (s : Db) → B.schema base.old ≡ Some s → B.schema base.new ≡ Some s }
    ensures asked { (b : B) → B.asked b base.old → B.asked b base.new }
    ensures cause { HasCheckCause (B.database base.old) (B.faults base.old) (B.faults base.new) result }
{
    match cut_permits(alloc, tree, user, base) {
        Ok(made) => Ok(made),
        Err(CutFault::NoPermit { .. }) => Err(CheckFault::No(NO_PERMIT)),
        Err(CutFault::TooMany) => Err(CheckFault::No(PAST_LIMIT)),
        Err(CutFault::Base(fault)) => Err(CheckFault::Base(fault)),
        Err(CutFault::OutOfMemory) => Err(CheckFault::OutOfMemory),
    }
}

/// The same with the rules of the relation that the tree changes.
pub(crate) fn restricted_and_ruled<B: Base>(
    alloc: Global,
    base: &mut B,
    user: &Name,
    tree: Checked,
) -> Result<Checked, CheckFault>
    requires { (db : Db) → B.database base.old ≡ Some db → is_fit_with_views db user.now tree ≡ true }
    ensures known { (db : Db) → B.database base.old ≡ Some db
        → Says (λ made. (made ≡ ruled_tree db (expanded_tree db (as_user user.now) tree)) × (checked_permitted db (as_user user.now) tree ≡ true))
        (λ number. (number ≡ 23) × (checked_permitted db (as_user user.now) tree ≡ false)) result }
    ensures kept { B.database base.new ≡ B.database base.old }
    ensures stays { (s : Db) → B.schema base.old ≡ Some s → B.schema base.new ≡ Some s }
    ensures asked { (b : B) → B.asked b base.old → B.asked b base.new }
    ensures cause { HasCheckCause (B.database base.old) (B.faults base.old) (B.faults base.new) result }
{
    match cut(alloc, base, user, tree) {
        Ok(made) => match ruled(alloc, base, made) {
            Ok(made) => Ok(made),
            Err(fault) => Err(CheckFault::Base(fault)),
        },
        Err(fault) => Err(fault),
    }
}
