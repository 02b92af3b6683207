//! What refuses a target list.

ghost use Rattle.std.specs.Prelude.{◌≡◌, ◌++◌, Some, IfOk, flat_map, map};
ghost use Rattle.base_trait.specs.Causes.{HasCause};
ghost use Rattle.calculus.specs.Database.{Db};
ghost use Rattle.calculus.specs.declared.statement.Item.TheVariants.{All};
ghost use Rattle.quel_meaning.specs.Naming.{dotted, first_number, item_mentions, mention_refusal};
ghost use Rattle.quel_meaning.specs.WrittenParts.{attributes};
ghost use Rattle.quel_names.specs.Asking.{scope_of};
ghost use Rattle.quel_names.specs.Roles.{meant_by};

use crate::looking::ranged;
use crate::meant::{meant, titled_by_itself, titles};
use crate::mention::mention_refusal;
use crate::mentioned::refusal_of;
use crate::role::Role;
use base_trait::{Base, BaseFault};
use calculus::{Attr, Item, Name, Term};
use quel_check::{Mention, RangeTable, mentions_in_term};
use std::alloc::Global;

/// What refuses a term with its title.
fn set_refusal<B: Base>(
    alloc: Global,
    base: &mut B,
    user: &Name,
    ranges: &RangeTable,
    role: &Role<'_>,
    name: &Name,
    term: &Term,
) -> Result<Option<u8>, BaseFault>
    ensures known { (db : Db) → B.schema base.old ≡ Some db
        → IfOk result (λ n. n ≡ first_number (map (mention_refusal (scope_of db user.now ranges.now)) (meant_by role.now name.now ++ dotted (attributes term.now)))) }
    ensures kept { B.database base.new ≡ B.database base.old }
    ensures stays { (s : Db) → B.schema base.old ≡ Some s → B.schema base.new ≡ Some s }
    ensures asked { (b : B) → B.asked b base.old → B.asked b base.new }
    ensures cause { HasCause (B.database base.old) (B.faults base.old) (B.faults base.new) result }
{
    let refusal = refusal_of(alloc, base, user, ranges, meant(alloc, role, name))?;
    if refusal.is_some() {
        return Ok(refusal);
    }
    refusal_of(alloc, base, user, ranges, mentions_in_term(alloc, term))
}

/// What refuses the titles of these attributes.
fn titles_refusal<B: Base>(
    alloc: Global,
    base: &mut B,
    user: &Name,
    ranges: &RangeTable,
    role: &Role<'_>,
    attrs: &[Attr],
) -> Result<Option<u8>, BaseFault>
    ensures known { (db : Db) → B.schema base.old ≡ Some db
        → IfOk result (λ n. n ≡ first_number (map (mention_refusal (scope_of db user.now ranges.now)) (flat_map (λ a. meant_by role.now a.name) attrs.now))) }
    ensures kept { B.database base.new ≡ B.database base.old }
    ensures stays { (s : Db) → B.schema base.old ≡ Some s → B.schema base.new ≡ Some s }
    ensures asked { (b : B) → B.asked b base.old → B.asked b base.new }
    ensures cause { HasCause (B.database base.old) (B.faults base.old) (B.faults base.new) result }
{
    refusal_of(alloc, base, user, ranges, titles(alloc, role, attrs))
}

/// What refuses a variable with `all`: the variable, else the titles of the attributes of what it
/// ranges over.
fn all_refusal<B: Base>(
    alloc: Global,
    base: &mut B,
    user: &Name,
    ranges: &RangeTable,
    role: &Role<'_>,
    var: &Name,
) -> Result<Option<u8>, BaseFault>
    ensures known { (db : Db) → B.schema base.old ≡ Some db
        → IfOk result (λ n. n ≡ first_number (map (mention_refusal (scope_of db user.now ranges.now)) (item_mentions (scope_of db user.now ranges.now) (meant_by role.now) (All var.now)))) }
    ensures kept { B.database base.new ≡ B.database base.old }
    ensures stays { (s : Db) → B.schema base.old ≡ Some s → B.schema base.new ≡ Some s }
    ensures asked { (b : B) → B.asked b base.old → B.asked b base.new }
    ensures cause { HasCause (B.database base.old) (B.faults base.old) (B.faults base.new) result }
{
    match ranged(alloc, base, ranges, var)? {
        Some(info) => {
            let refusal = titles_refusal(alloc, base, user, ranges, role, info.attrs.items());
            drop(info);
            refusal
        }
        None => mention_refusal(alloc, base, user, ranges, &Mention::Variable(var)),
    }
}

/// What refuses an item of a target list.
pub(crate) fn item_refusal<B: Base>(
    alloc: Global,
    base: &mut B,
    user: &Name,
    ranges: &RangeTable,
    role: &Role<'_>,
    item: &Item,
) -> Result<Option<u8>, BaseFault>
    ensures known { (db : Db) → B.schema base.old ≡ Some db
        → IfOk result (λ n. n ≡ first_number (map (mention_refusal (scope_of db user.now ranges.now)) (item_mentions (scope_of db user.now ranges.now) (meant_by role.now) item.now))) }
    ensures kept { B.database base.new ≡ B.database base.old }
    ensures stays { (s : Db) → B.schema base.old ≡ Some s → B.schema base.new ≡ Some s }
    ensures asked { (b : B) → B.asked b base.old → B.asked b base.new }
    ensures cause { HasCause (B.database base.old) (B.faults base.old) (B.faults base.new) result }
{
    match item {
        Item::Set { name, term } => set_refusal(alloc, base, user, ranges, role, name, term),
        Item::Attr { var, attr } => {
            let mentions = titled_by_itself(alloc, role, var, attr);
            refusal_of(alloc, base, user, ranges, mentions)
        }
        Item::All { var } => all_refusal(alloc, base, user, ranges, role, var),
    }
}
