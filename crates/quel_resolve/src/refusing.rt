//! What refuses a statement whose names were found.

ghost use Rattle.std.specs.Prelude.{◌≡◌, Option, Some, None, true, option_copied, option_map};
ghost use Rattle.calculus.specs.Database.{Db};
ghost use Rattle.calculus.specs.Replacement.{first_refusal};
ghost use Rattle.quel_refusals.specs.CheckedStatements.{IsOn, is_checked, update_of};
ghost use Rattle.quel_meaning.specs.Aggregates.{aggregates_allowed};
ghost use Rattle.quel_meaning.specs.Causes.{refusals};
ghost use Rattle.quel_meaning.specs.Resolved.{tree_of};
ghost use Rattle.quel_meaning.specs.Scope.{Scope};
ghost use Rattle.quel_meaning.specs.WrittenQuery.{query_of};
ghost use Rattle.utility_trees.specs.Answers.{Says};
ghost use Rattle.utility_trees.specs.Causes.{HasCheckCause};

use base_trait::Base;
use calculus::{Checked, Name, Query, RelInfo, Statement, Update};
use quel_refusals::find_refusal;
use std::alloc::Global;
use utility_trees::CheckFault;

/// Goes on where no cause refuses a statement with this query, which is this update, or a permit or a rule
/// on the relation of which this is known.
pub(crate) fn unless_refused<B: Base>(
    alloc: Global,
    base: &mut B,
    user: &Name,
    s: &Statement,
    q: &Query,
    update: Option<&Update>,
    on: Option<&RelInfo>,
) -> Result<(), CheckFault>
    ensures known { (scope : Scope) → B.schema base.old ≡ Some scope.db → scope.user ≡ user.now → q.now ≡ query_of scope s.now → option_map (λ v. v.now) update.entry ≡ update_of scope s.now q.now → IsOn scope s.now (option_copied on.entry) → is_checked s.now ≡ true → aggregates_allowed scope s.now ≡ true
        → Says (λ done. first_refusal (refusals scope s.now) ≡ None) (λ number. first_refusal (refusals scope s.now) ≡ Some number) result }
    ensures kept { B.database base.new ≡ B.database base.old }
    ensures stays { (s : Db) → B.schema base.old ≡ Some s → B.schema base.new ≡ Some s }
    ensures asked { (b : B) → B.asked b base.old → B.asked b base.new }
    ensures cause { HasCheckCause (B.database base.old) (B.faults base.old) (B.faults base.new) result }
{
    match find_refusal(alloc, base, user, s, q, update, on)? {
        Some(number) => Err(CheckFault::No(number)),
        None => Ok(()),
    }
}

/// The tree of a statement that is this update, where no cause refuses it.
pub(crate) fn update_unless_refused<B: Base>(
    alloc: Global,
    base: &mut B,
    user: &Name,
    s: &Statement,
    update: Update,
) -> Result<Checked, CheckFault>
    ensures known { (scope : Scope) → B.schema base.old ≡ Some scope.db → scope.user ≡ user.now → update.query ≡ query_of scope s.now → Some update ≡ update_of scope s.now update.query → is_checked s.now ≡ true → aggregates_allowed scope s.now ≡ true
        → Says (λ tree. (tree ≡ tree_of scope s.now) × (first_refusal (refusals scope s.now) ≡ None)) (λ number. first_refusal (refusals scope s.now) ≡ Some number) result }
    ensures kept { B.database base.new ≡ B.database base.old }
    ensures stays { (s : Db) → B.schema base.old ≡ Some s → B.schema base.new ≡ Some s }
    ensures asked { (b : B) → B.asked b base.old → B.asked b base.new }
    ensures cause { HasCheckCause (B.database base.old) (B.faults base.old) (B.faults base.new) result }
{
    match unless_refused(alloc, base, user, s, &update.query, Some(&update), None) {
        Ok(()) => Ok(Checked::Update(update)),
        Err(fault) => {
            drop(update);
            Err(fault)
        }
    }
}
