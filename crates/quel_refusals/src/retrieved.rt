//! What refuses a `retrieve`.

ghost use Rattle.std.specs.Prelude.{◌≡◌, ◌∷◌, ◌||◌, [], not, true, map, IfOk, Some};
ghost use Rattle.base_trait.specs.Causes.{HasCause};
ghost use Rattle.calculus.specs.Database.{Db};
ghost use Rattle.calculus.specs.QueryParts.{targets_of};
ghost use Rattle.calculus.specs.Replacement.{first_refusal, made_attr};
ghost use Rattle.quel_meaning.specs.Causes.{into_refusals, made_kinds, print_refusals, sorts_by_titles};
ghost use Rattle.quel_meaning.specs.Passing.{has_too_many, is_full, is_taken, is_too_wide};
ghost use Rattle.quel_meaning.specs.Scope.{Scope};
ghost use Rattle.view_sizes.specs.Listing.{sources_list_few};

use crate::counted::has_too_many;
use crate::fitting::query_fits;
use crate::places::{is_full, is_taken};
use crate::repeated::{sorts_by_titles, titles_repeat};
use crate::widths::{is_too_wide, made_kinds};
use base_trait::{Base, BaseFault};
use calculus::refusals::{
    KINDS_DIFFER, NAME_IN_USE, NAMED_TWICE, NO_ATTRIBUTE, PAST_LIMIT, TOO_WIDE,
};
use calculus::{Name, OutOfMemory, Query, Target};
use ovqp::target_kinds;
use std::alloc::Global;

/// What refuses rows of these targets that are printed in this order: a name to sort by, their width.
fn row_refusal(
    alloc: Global,
    targets: &[Target],
    sort: &[(Name, bool)],
) -> Result<Option<u8>, OutOfMemory>
    ensures { IfOk result (λ n. n ≡ first_refusal ((12, not (sorts_by_titles targets.now sort.now)) ∷ (16, is_too_wide (map (λ t. t.kind) targets.now)) ∷ [])) }
{
    if !sorts_by_titles(alloc, targets, sort)? {
        return Ok(Some(NO_ATTRIBUTE));
    }
    if is_too_wide(&target_kinds(alloc, targets)?) {
        return Ok(Some(TOO_WIDE));
    }
    Ok(None)
}

/// What refuses a `retrieve` that prints.
pub(crate) fn print_refusal<B: Base>(
    alloc: Global,
    base: &mut B,
    sort: &[(Name, bool)],
    q: &Query,
) -> Result<Option<u8>, BaseFault>
    ensures known { (s : Scope) → B.schema base.old ≡ Some s.db → sources_list_few q.now ≡ true → IfOk result (λ n. n ≡ first_refusal (print_refusals s true sort.now q.now)) }
    ensures kept { B.database base.new ≡ B.database base.old }
    ensures stays { (s : Db) → B.schema base.old ≡ Some s → B.schema base.new ≡ Some s }
    ensures asked { (b : B) → B.asked b base.old → B.asked b base.new }
    ensures cause { HasCause (B.database base.old) (B.faults base.old) (B.faults base.new) result }
{
    if has_too_many(alloc, base, q)? {
        return Ok(Some(PAST_LIMIT));
    }
    if !query_fits(alloc, base, q)? {
        return Ok(Some(KINDS_DIFFER));
    }
    Ok(row_refusal(alloc, q.targets.items(), sort)?)
}

/// Whether there is no room for a new relation with the rows of a query, or the query lists too many
/// variables.
pub(crate) fn has_no_room<B: Base>(
    alloc: Global,
    base: &mut B,
    q: &Query,
) -> Result<bool, BaseFault>
    ensures known { (db : Db) → B.schema base.old ≡ Some db → sources_list_few q.now ≡ true → IfOk result (λ none. none ≡ (has_too_many db q.now || is_full db)) }
    ensures kept { B.database base.new ≡ B.database base.old }
    ensures stays { (s : Db) → B.schema base.old ≡ Some s → B.schema base.new ≡ Some s }
    ensures asked { (b : B) → B.asked b base.old → B.asked b base.new }
    ensures cause { HasCause (B.database base.old) (B.faults base.old) (B.faults base.new) result }
{
    if has_too_many(alloc, base, q)? {
        return Ok(true);
    }
    is_full(base)
}

/// What refuses a new relation with attributes for these targets, its rows in this order: a name to
/// sort by, its width.
fn made_refusal(
    alloc: Global,
    targets: &[Target],
    sort: &[(Name, bool)],
) -> Result<Option<u8>, OutOfMemory>
    ensures { IfOk result (λ n. n ≡ first_refusal ((12, not (sorts_by_titles targets.now sort.now)) ∷ (16, is_too_wide (map (λ t. (made_attr t).kind) targets.now)) ∷ [])) }
{
    if !sorts_by_titles(alloc, targets, sort)? {
        return Ok(Some(NO_ATTRIBUTE));
    }
    if is_too_wide(&made_kinds(alloc, targets)?) {
        return Ok(Some(TOO_WIDE));
    }
    Ok(None)
}

/// What refuses a new name of the user's: that it is in use.
pub(crate) fn name_refusal<B: Base>(
    alloc: Global,
    base: &mut B,
    user: &Name,
    name: &Name,
) -> Result<Option<u8>, BaseFault>
    ensures known { (db : Db) → B.schema base.old ≡ Some db → IfOk result (λ n. n ≡ first_refusal ((15, is_taken db user.now name.now) ∷ [])) }
    ensures kept { B.database base.new ≡ B.database base.old }
    ensures stays { (s : Db) → B.schema base.old ≡ Some s → B.schema base.new ≡ Some s }
    ensures asked { (b : B) → B.asked b base.old → B.asked b base.new }
    ensures cause { HasCause (B.database base.old) (B.faults base.old) (B.faults base.new) result }
{
    if is_taken(alloc, base, user, name)? {
        Ok(Some(NAME_IN_USE))
    } else {
        Ok(None)
    }
}

/// What refuses a new relation with the rows of a query whose kinds fit: a name to sort by, its
/// width, that its name is in use.
fn kept_refusal<B: Base>(
    alloc: Global,
    base: &mut B,
    user: &Name,
    name: &Name,
    sort: &[(Name, bool)],
    q: &Query,
) -> Result<Option<u8>, BaseFault>
    ensures known { (s : Scope) → B.schema base.old ≡ Some s.db → s.user ≡ user.now → IfOk result (λ n. n ≡ first_refusal ((12, not (sorts_by_titles (targets_of q.now) sort.now)) ∷ (16, is_too_wide (made_kinds q.now)) ∷ (15, is_taken s.db s.user name.now) ∷ [])) }
    ensures kept { B.database base.new ≡ B.database base.old }
    ensures stays { (s : Db) → B.schema base.old ≡ Some s → B.schema base.new ≡ Some s }
    ensures asked { (b : B) → B.asked b base.old → B.asked b base.new }
    ensures cause { HasCause (B.database base.old) (B.faults base.old) (B.faults base.new) result }
{
    match made_refusal(alloc, q.targets.items(), sort)? {
        Some(number) => Ok(Some(number)),
        None => name_refusal(alloc, base, user, name),
    }
}

/// What refuses a `retrieve` that makes a relation of this name.
pub(crate) fn into_refusal<B: Base>(
    alloc: Global,
    base: &mut B,
    user: &Name,
    name: &Name,
    sort: &[(Name, bool)],
    q: &Query,
) -> Result<Option<u8>, BaseFault>
    ensures known { (s : Scope) → B.schema base.old ≡ Some s.db → s.user ≡ user.now → sources_list_few q.now ≡ true → IfOk result (λ n. n ≡ first_refusal (into_refusals s true name.now sort.now q.now)) }
    ensures kept { B.database base.new ≡ B.database base.old }
    ensures stays { (s : Db) → B.schema base.old ≡ Some s → B.schema base.new ≡ Some s }
    ensures asked { (b : B) → B.asked b base.old → B.asked b base.new }
    ensures cause { HasCause (B.database base.old) (B.faults base.old) (B.faults base.new) result }
{
    if has_no_room(alloc, base, q)? {
        return Ok(Some(PAST_LIMIT));
    }
    if titles_repeat(alloc, q)? {
        return Ok(Some(NAMED_TWICE));
    }
    if !query_fits(alloc, base, q)? {
        return Ok(Some(KINDS_DIFFER));
    }
    kept_refusal(alloc, base, user, name, sort, q)
}
