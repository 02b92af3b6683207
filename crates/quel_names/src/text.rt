//! What refuses a target list with its qualification.

ghost use Rattle.std.specs.Prelude.{◌≡◌, ◌++◌, Some, IfOk, flat_map, map, option_map, unwrap_or};
ghost use Rattle.base_trait.specs.Causes.{HasCause};
ghost use Rattle.calculus.specs.Database.{Db};
ghost use Rattle.calculus.specs.declared.statement.Qual.TheVariants.{True};
ghost use Rattle.quel_meaning.specs.Naming.{dotted, first_number, item_mentions, mention_refusal, query_mentions};
ghost use Rattle.quel_meaning.specs.WrittenParts.{attributes_in_qual};
ghost use Rattle.quel_names.specs.Asking.{scope_of};
ghost use Rattle.quel_names.specs.Roles.{meant_by};

use crate::mentioned::refusal_of;
use crate::role::Role;
use crate::targets::item_refusal;
use base_trait::{Base, BaseFault};
use calculus::{Item, Name, Qual};
use quel_check::{RangeTable, mentions_in_qual};
use std::alloc::Global;

/// What refuses a target list: the first item in it that a name refuses.
fn items_refusal<B: Base>(
    alloc: Global,
    base: &mut B,
    user: &Name,
    ranges: &RangeTable,
    role: &Role<'_>,
    items: &[Item],
) -> Result<Option<u8>, BaseFault>
    ensures known { (db : Db) → B.schema base.old ≡ Some db
        → IfOk result (λ n. n ≡ first_number (map (mention_refusal (scope_of db user.now ranges.now)) (flat_map (item_mentions (scope_of db user.now ranges.now) (meant_by role.now)) items.now))) }
    ensures kept { B.database base.new ≡ B.database base.old }
    ensures stays { (s : Db) → B.schema base.old ≡ Some s → B.schema base.new ≡ Some s }
    ensures asked { (b : B) → B.asked b base.old → B.asked b base.new }
    ensures cause { HasCause (B.database base.old) (B.faults base.old) (B.faults base.new) result }
{
    for item in items {
        let refusal = item_refusal(alloc, base, user, ranges, role, item)?;
        if refusal.is_some() {
            return Ok(refusal);
        }
    }
    Ok(None)
}

/// What refuses a qualification; nothing where there is none.
fn qual_refusal<B: Base>(
    alloc: Global,
    base: &mut B,
    user: &Name,
    ranges: &RangeTable,
    qual: Option<&Qual>,
) -> Result<Option<u8>, BaseFault>
    ensures known { (db : Db) → B.schema base.old ≡ Some db
        → IfOk result (λ n. n ≡ first_number (map (mention_refusal (scope_of db user.now ranges.now)) (dotted (attributes_in_qual (unwrap_or (option_map (λ q. q.now) qual.entry) True))))) }
    ensures kept { B.database base.new ≡ B.database base.old }
    ensures stays { (s : Db) → B.schema base.old ≡ Some s → B.schema base.new ≡ Some s }
    ensures asked { (b : B) → B.asked b base.old → B.asked b base.new }
    ensures cause { HasCause (B.database base.old) (B.faults base.old) (B.faults base.new) result }
{
    match qual {
        Some(qual) => refusal_of(alloc, base, user, ranges, mentions_in_qual(alloc, qual)),
        None => Ok(None),
    }
}

/// What refuses a target list with its qualification.
pub(crate) fn query_refusal<B: Base>(
    alloc: Global,
    base: &mut B,
    user: &Name,
    ranges: &RangeTable,
    role: &Role<'_>,
    items: &[Item],
    qual: Option<&Qual>,
) -> Result<Option<u8>, BaseFault>
    ensures known { (db : Db) → B.schema base.old ≡ Some db
        → IfOk result (λ n. n ≡ first_number (map (mention_refusal (scope_of db user.now ranges.now))
        (query_mentions (scope_of db user.now ranges.now) (meant_by role.now) items.now (unwrap_or (option_map (λ q. q.now) qual.entry) True)))) }
    ensures kept { B.database base.new ≡ B.database base.old }
    ensures stays { (s : Db) → B.schema base.old ≡ Some s → B.schema base.new ≡ Some s }
    ensures asked { (b : B) → B.asked b base.old → B.asked b base.new }
    ensures cause { HasCause (B.database base.old) (B.faults base.old) (B.faults base.new) result }
{
    let refusal = items_refusal(alloc, base, user, ranges, role, items)?;
    if refusal.is_some() {
        return Ok(refusal);
    }
    qual_refusal(alloc, base, user, ranges, qual)
}
