//! What refuses a new relation with given attributes.

ghost use Rattle.std.specs.Prelude.{◌≡◌, ◌∷◌, [], map, IfOk, Some};
ghost use Rattle.calculus.specs.Database.{Db};
ghost use Rattle.base_trait.specs.Causes.{HasCause};
ghost use Rattle.calculus.specs.declared.value.Kind.TheVariants.{Of};
ghost use Rattle.calculus.specs.Replacement.{first_refusal};
ghost use Rattle.quel_meaning.specs.Causes.{repeats};
ghost use Rattle.quel_meaning.specs.Passing.{is_full, is_taken, is_too_wide};
ghost use Rattle.quel_meaning.specs.Scope.{Scope};

use crate::places::is_full;
use crate::repeated::attrs_repeat;
use crate::retrieved::name_refusal;
use crate::widths::{domain_kinds, is_too_wide};
use base_trait::{Base, BaseFault};
use calculus::refusals::{NAMED_TWICE, PAST_LIMIT, TOO_WIDE};
use calculus::{Domain, Name, OutOfMemory};
use std::alloc::Global;

/// What refuses the attributes of a new relation: a name that stands twice, their width.
fn attrs_refusal(alloc: Global, attrs: &[(Name, Domain)]) -> Result<Option<u8>, OutOfMemory>
    ensures { IfOk result (λ n. n ≡ first_refusal ((17, repeats (map (λ a. a.0) attrs.now)) ∷ (16, is_too_wide (map (λ a. Of a.1) attrs.now)) ∷ [])) }
{
    if attrs_repeat(alloc, attrs)? {
        return Ok(Some(NAMED_TWICE));
    }
    if is_too_wide(&domain_kinds(alloc, attrs)?) {
        return Ok(Some(TOO_WIDE));
    }
    Ok(None)
}

/// What refuses a `create`.
pub(crate) fn create_refusal<B: Base>(
    alloc: Global,
    base: &mut B,
    user: &Name,
    name: &Name,
    attrs: &[(Name, Domain)],
) -> Result<Option<u8>, BaseFault>
    ensures known { (s : Scope) → B.schema base.old ≡ Some s.db → s.user ≡ user.now → IfOk result (λ n. n ≡ first_refusal ((14, is_full s.db) ∷ (17, repeats (map (λ a. a.0) attrs.now)) ∷ (16, is_too_wide (map (λ a. Of a.1) attrs.now)) ∷ (15, is_taken s.db s.user name.now) ∷ [])) }
    ensures kept { B.database base.new ≡ B.database base.old }
    ensures stays { (s : Db) → B.schema base.old ≡ Some s → B.schema base.new ≡ Some s }
    ensures asked { (b : B) → B.asked b base.old → B.asked b base.new }
    ensures cause { HasCause (B.database base.old) (B.faults base.old) (B.faults base.new) result }
{
    if is_full(base)? {
        return Ok(Some(PAST_LIMIT));
    }
    match attrs_refusal(alloc, attrs)? {
        Some(number) => Ok(Some(number)),
        None => name_refusal(alloc, base, user, name),
    }
}
