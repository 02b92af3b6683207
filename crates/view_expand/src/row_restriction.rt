//! The conditions on the rows of what has a key, with which one may do something.

ghost use Rattle.std.specs.Prelude.{◌≡◌, true, false, Some, IfOk, OnOk, option_map};
ghost use Rattle.std.specs.Option.{option_to_list};
ghost use Rattle.std.specs.List.{list_all};
ghost use Rattle.base_trait.specs.Causes.{HasCause as HasBaseCause};
ghost use Rattle.calculus.specs.Database.{Db, permits_on};
ghost use Rattle.calculus.specs.Rights.{permitted};
ghost use Rattle.calculus.specs.Who.{asker_of, as_user};
ghost use Rattle.view_expand.specs.Asking.{right_of, who_of};
ghost use Rattle.view_expand.specs.Causes.{HasCause};
ghost use Rattle.view_expand.specs.Covering.{covering_conditions, one_of};
ghost use Rattle.view_expand.specs.Found.{IsFound};
ghost use Rattle.view_text.specs.Scoped.{is_qual_within};
ghost use Rattle.view_text.specs.ExpansionOf.{restriction};

use crate::covering::put_covering;
use crate::needs::needs_none;
use crate::{ExpansionFault, ExpansionsFound, Right};
use base_trait::{Base, BaseFault};
use calculus::{Name, OutOfMemory, Permit, QQual, RelKey};
use memory::both;
use std::alloc::Global;
use view_text::any_of;

/// That one of these holds; `None` where there are none.
#[tactic(auto, using(crate::proofs::Cutting::one_there, crate::proofs::Cutting::none_there))]
fn one_of(alloc: Global, conditions: Vec<QQual>) -> Result<Option<QQual>, OutOfMemory>
    ensures { IfOk result (λ o. o ≡ one_of conditions.items) }
{
    if conditions.is_empty() {
        return Ok(None);
    }
    match any_of(alloc, conditions) {
        Ok(condition) => Ok(Some(condition)),
        Err(error) => Err(error),
    }
}

/// That the condition of one of the permits that cover this holds; `None` where none covers it.
#[tactic(auto, using(crate::proofs::Cutting::one_within))]
fn condition_of(
    alloc: Global,
    permits: &[Permit],
    user: &Name,
    right: Right,
    attrs: &[u8],
) -> Result<Option<QQual>, OutOfMemory>
    ensures one { IfOk result (λ o. o ≡ one_of (covering_conditions permits.now (asker_of user.now) (right_of right) attrs.now)) }
    ensures within { IfOk result (λ o. list_all (is_qual_within 1) (option_to_list o) ≡ true) }
{
    let mut conditions = Vec::new(alloc);
    match put_covering(alloc, permits, user, right, attrs, &mut conditions) {
        Ok(()) => one_of(alloc, conditions),
        Err(error) => Err(error),
    }
}

/// The same of the permits of a key, which are asked for and kept.
fn condition_anew<B: Base>(
    alloc: Global,
    base: &mut B,
    user: &Name,
    right: Right,
    attrs: &[u8],
    key: &RelKey,
    found: &mut ExpansionsFound,
) -> Result<Option<QQual>, BaseFault>
    requires found { (db : Db) → B.database base.old ≡ Some db → IsFound db (as_user user.now) found.old }
    ensures known { (db : Db) → B.database base.old ≡ Some db → IfOk result (λ o. o ≡ one_of (covering_conditions (permits_on db key.now) (asker_of user.now) (right_of right) attrs.now)) }
    ensures within { IfOk result (λ o. list_all (is_qual_within 1) (option_to_list o) ≡ true) }
    ensures found { (db : Db) → B.database base.old ≡ Some db → IsFound db (as_user user.now) found.new }
    ensures kept { B.database base.new ≡ B.database base.old }
    ensures stays { (s : Db) → B.schema base.old ≡ Some s → B.schema base.new ≡ Some s }
    ensures asked { (b : B) → B.asked b base.old → B.asked b base.new }
    ensures cause { HasBaseCause (B.database base.old) (B.faults base.old) (B.faults base.new) result }
{
    let permits = base.permits(alloc, key)?;
    let condition = condition_of(alloc, &permits, user, right, attrs);
    let kept = found.keep_permits(alloc, key, permits);
    match both(condition, kept) {
        Ok((condition, ())) => Ok(condition),
        Err(_) => Err(BaseFault::OutOfMemory),
    }
}

/// That the condition of one of the permits of a key that cover this holds; `None` where none covers it.
/// The permits are asked for where they weren't found yet.
fn condition_on<B: Base>(
    alloc: Global,
    base: &mut B,
    user: &Name,
    right: Right,
    attrs: &[u8],
    key: &RelKey,
    found: &mut ExpansionsFound,
) -> Result<Option<QQual>, BaseFault>
    requires found { (db : Db) → B.database base.old ≡ Some db → IsFound db (as_user user.now) found.old }
    ensures known { (db : Db) → B.database base.old ≡ Some db → IfOk result (λ o. o ≡ one_of (covering_conditions (permits_on db key.now) (asker_of user.now) (right_of right) attrs.now)) }
    ensures within { IfOk result (λ o. list_all (is_qual_within 1) (option_to_list o) ≡ true) }
    ensures found { (db : Db) → B.database base.old ≡ Some db → IsFound db (as_user user.now) found.new }
    ensures kept { B.database base.new ≡ B.database base.old }
    ensures stays { (s : Db) → B.schema base.old ≡ Some s → B.schema base.new ≡ Some s }
    ensures asked { (b : B) → B.asked b base.old → B.asked b base.new }
    ensures cause { HasBaseCause (B.database base.old) (B.faults base.old) (B.faults base.new) result }
{
    match found.permits(key) {
        Some(permits) => match condition_of(alloc, permits, user, right, attrs) {
            Ok(condition) => Ok(condition),
            Err(_) => Err(BaseFault::OutOfMemory),
        },
        None => condition_anew(alloc, base, user, right, attrs, key, found),
    }
}

/// The condition on rows for a user who asks; `None` where no permit is needed.
#[tactic(auto, using(crate::proofs::Cutting::cut_without, crate::proofs::Cutting::restriction_with, crate::proofs::Cutting::permitted_without, crate::proofs::Cutting::permitted_with, crate::proofs::Cutting::not_permitted))]
fn restriction_for<B: Base>(
    alloc: Global,
    base: &mut B,
    user: &Name,
    right: Right,
    attrs: &[u8],
    key: &RelKey,
    found: &mut ExpansionsFound,
) -> Result<Option<QQual>, ExpansionFault>
    requires found { (db : Db) → B.database base.old ≡ Some db → IsFound db (as_user user.now) found.old }
    ensures known { (db : Db) → B.database base.old ≡ Some db → IfOk result (λ o. option_to_list o ≡ restriction db (as_user user.now) (right_of right) attrs.now key.now) }
    ensures permitted { (db : Db) → B.database base.old ≡ Some db → OnOk result (permitted db (as_user user.now) (right_of right) attrs.now key.now ≡ true) }
    ensures within { IfOk result (λ o. list_all (is_qual_within 1) (option_to_list o) ≡ true) }
    ensures found { (db : Db) → B.database base.old ≡ Some db → IsFound db (as_user user.now) found.new }
    ensures kept { B.database base.new ≡ B.database base.old }
    ensures stays { (s : Db) → B.schema base.old ≡ Some s → B.schema base.new ≡ Some s }
    ensures asked { (b : B) → B.asked b base.old → B.asked b base.new }
    ensures cause { HasCause (λ db. permitted db (as_user user.now) (right_of right) attrs.now key.now ≡ false) (B.database base.old) (B.faults base.old) (B.faults base.new) result }
{
    if needs_none(alloc, base, user, right, key)? {
        return Ok(None);
    }
    match condition_on(alloc, base, user, right, attrs, key, found)? {
        Some(condition) => Ok(Some(condition)),
        None => Err(ExpansionFault::NoPermit),
    }
}

/// The condition on the rows of what has a key, with which one may do this with these attributes: that
/// the qualification of a permit that covers it holds. `None` where no permit is needed, as where whoever
/// is unrestricted asks, the owner asks, or a catalogue is read. `NoPermit` exactly where one is needed and
/// none covers it. What was found before, for the same one who asks, is made use of, and what is found is
/// kept beside it.
#[tactic(auto, unfolding(calculus::specs::Rights::permitted))]
pub fn restriction<B: Base>(
    alloc: Global,
    base: &mut B,
    who: Option<&Name>,
    right: Right,
    attrs: &[u8],
    key: &RelKey,
    found: &mut ExpansionsFound,
) -> Result<Option<QQual>, ExpansionFault>
    requires found { (db : Db) → B.database base.old ≡ Some db → IsFound db (who_of (option_map (λ n. n.now) who)) found.old }
    ensures known { (db : Db) → B.database base.old ≡ Some db → IfOk result (λ o. option_to_list o ≡ restriction db (who_of (option_map (λ n. n.now) who.entry)) (right_of right) attrs.now key.now) }
    ensures permitted { (db : Db) → B.database base.old ≡ Some db → OnOk result (permitted db (who_of (option_map (λ n. n.now) who.entry)) (right_of right) attrs.now key.now ≡ true) }
    ensures within { IfOk result (λ o. list_all (is_qual_within 1) (option_to_list o) ≡ true) }
    ensures found { (db : Db) → B.database base.old ≡ Some db → IsFound db (who_of (option_map (λ n. n.now) who.entry)) found.new }
    ensures kept { B.database base.new ≡ B.database base.old }
    ensures stays { (s : Db) → B.schema base.old ≡ Some s → B.schema base.new ≡ Some s }
    ensures asked { (b : B) → B.asked b base.old → B.asked b base.new }
    ensures cause { HasCause (λ db. permitted db (who_of (option_map (λ n. n.now) who.entry)) (right_of right) attrs.now key.now ≡ false) (B.database base.old) (B.faults base.old) (B.faults base.new) result }
{
    match who {
        Some(user) => restriction_for(alloc, base, user, right, attrs, key, found),
        None => Ok(None),
    }
}
