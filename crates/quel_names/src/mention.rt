//! What refuses one name.

ghost use Rattle.std.specs.Prelude.{◌≡◌, ℕ, List, Some, None, IfOk};
ghost use Rattle.base_trait.specs.Causes.{HasCause};
ghost use Rattle.calculus.specs.Database.{Db};
ghost use Rattle.calculus.specs.Stored.{info_at};
ghost use Rattle.quel_check.specs.Seen.{seen};
ghost use Rattle.quel_meaning.specs.Naming.{Variable, AttrOf, Relation, AttrIn, attr_refusal, mention_refusal, no_refusal, refusal_in, variable_refusal};
ghost use Rattle.quel_meaning.specs.Ranges.{Ranges};
ghost use Rattle.quel_meaning.specs.Scope.{attr_place};
ghost use Rattle.quel_names.specs.Asking.{scope_of};

use crate::entry::entry_refusal;
use crate::looking::{info_at, named};
use base_trait::{Base, BaseFault};
use calculus::refusals::{NO_ATTRIBUTE, NO_RELATION, NO_VARIABLE};
use calculus::{Attr, Name, RelInfo, RelKey};
use quel_check::{Mention, RangeTable};
use std::alloc::Global;

fn attr_found(attrs: &[Attr], name: &Name) -> Option<usize>
    ensures { result ≡ attr_place attrs.now name.now }
{
    attrs.iter().position(|a| a.name == *name)
}

fn attr_refusal(name: &Name, info: &RelInfo) -> Option<u8>
    ensures { result ≡ attr_refusal name.now info.now }
{
    match attr_found(info.attrs.items(), name) {
        Some(_) => None,
        None => Some(NO_ATTRIBUTE),
    }
}

fn refusal_in(info: Option<RelInfo>) -> Option<u8>
    ensures { result ≡ refusal_in no_refusal info }
{
    match info {
        Some(_) => None,
        None => Some(NO_RELATION),
    }
}

fn attr_refusal_in(name: &Name, info: Option<RelInfo>) -> Option<u8>
    ensures { result ≡ refusal_in (attr_refusal name.now) info }
{
    match info {
        Some(info) => attr_refusal(name, &info),
        None => Some(NO_RELATION),
    }
}

fn refusal_under<B: Base>(
    alloc: Global,
    base: &mut B,
    key: &RelKey,
) -> Result<Option<u8>, BaseFault>
    ensures known { (db : Db) → B.schema base.old ≡ Some db → IfOk result (λ n. n ≡ refusal_in no_refusal (info_at db key.now)) }
    ensures kept { B.database base.new ≡ B.database base.old }
    ensures stays { (s : Db) → B.schema base.old ≡ Some s → B.schema base.new ≡ Some s }
    ensures asked { (b : B) → B.asked b base.old → B.asked b base.new }
    ensures cause { HasCause (B.database base.old) (B.faults base.old) (B.faults base.new) result }
{
    let info = info_at(alloc, base, key)?;
    Ok(refusal_in(info))
}

fn attr_refusal_under<B: Base>(
    alloc: Global,
    base: &mut B,
    key: &RelKey,
    attr: &Name,
) -> Result<Option<u8>, BaseFault>
    ensures known { (db : Db) → B.schema base.old ≡ Some db → IfOk result (λ n. n ≡ refusal_in (attr_refusal attr.now) (info_at db key.now)) }
    ensures kept { B.database base.new ≡ B.database base.old }
    ensures stays { (s : Db) → B.schema base.old ≡ Some s → B.schema base.new ≡ Some s }
    ensures asked { (b : B) → B.asked b base.old → B.asked b base.new }
    ensures cause { HasCause (B.database base.old) (B.faults base.old) (B.faults base.new) result }
{
    let info = info_at(alloc, base, key)?;
    Ok(attr_refusal_in(attr, info))
}

fn variable_refusal<B: Base>(
    alloc: Global,
    base: &mut B,
    ranges: &RangeTable,
    var: &Name,
) -> Result<Option<u8>, BaseFault>
    ensures known { (db : Db) (user : List ℕ) → B.schema base.old ≡ Some db
        → IfOk result (λ n. n ≡ mention_refusal (scope_of db user ranges.now) (Variable var.now)) }
    ensures kept { B.database base.new ≡ B.database base.old }
    ensures stays { (s : Db) → B.schema base.old ≡ Some s → B.schema base.new ≡ Some s }
    ensures asked { (b : B) → B.asked b base.old → B.asked b base.new }
    ensures cause { HasCause (B.database base.old) (B.faults base.old) (B.faults base.new) result }
{
    match ranges.of(var) {
        Some(key) => refusal_under(alloc, base, key),
        None => Ok(Some(NO_VARIABLE)),
    }
}

fn dotted_refusal<B: Base>(
    alloc: Global,
    base: &mut B,
    ranges: &RangeTable,
    var: &Name,
    attr: &Name,
) -> Result<Option<u8>, BaseFault>
    ensures known { (db : Db) (user : List ℕ) → B.schema base.old ≡ Some db
        → IfOk result (λ n. n ≡ mention_refusal (scope_of db user ranges.now) (AttrOf var.now attr.now)) }
    ensures kept { B.database base.new ≡ B.database base.old }
    ensures stays { (s : Db) → B.schema base.old ≡ Some s → B.schema base.new ≡ Some s }
    ensures asked { (b : B) → B.asked b base.old → B.asked b base.new }
    ensures cause { HasCause (B.database base.old) (B.faults base.old) (B.faults base.new) result }
{
    match ranges.of(var) {
        Some(key) => attr_refusal_under(alloc, base, key, attr),
        None => Ok(Some(NO_VARIABLE)),
    }
}

#[tactic(auto, unfolding(quel_meaning::specs::Scope::named))]
fn relation_refusal<B: Base>(
    alloc: Global,
    base: &mut B,
    user: &Name,
    name: &Name,
) -> Result<Option<u8>, BaseFault>
    ensures known { (db : Db) (ranges : Ranges) → B.schema base.old ≡ Some db
        → IfOk result (λ n. n ≡ mention_refusal (scope_of db user.now ranges) (Relation name.now)) }
    ensures kept { B.database base.new ≡ B.database base.old }
    ensures stays { (s : Db) → B.schema base.old ≡ Some s → B.schema base.new ≡ Some s }
    ensures asked { (b : B) → B.asked b base.old → B.asked b base.new }
    ensures cause { HasCause (B.database base.old) (B.faults base.old) (B.faults base.new) result }
{
    let info = named(alloc, base, user, name)?;
    Ok(refusal_in(info))
}

#[tactic(auto, unfolding(quel_meaning::specs::Scope::named))]
fn attr_in_refusal<B: Base>(
    alloc: Global,
    base: &mut B,
    user: &Name,
    name: &Name,
    attr: &Name,
) -> Result<Option<u8>, BaseFault>
    ensures known { (db : Db) (ranges : Ranges) → B.schema base.old ≡ Some db
        → IfOk result (λ n. n ≡ mention_refusal (scope_of db user.now ranges) (AttrIn name.now attr.now)) }
    ensures kept { B.database base.new ≡ B.database base.old }
    ensures stays { (s : Db) → B.schema base.old ≡ Some s → B.schema base.new ≡ Some s }
    ensures asked { (b : B) → B.asked b base.old → B.asked b base.new }
    ensures cause { HasCause (B.database base.old) (B.faults base.old) (B.faults base.new) result }
{
    let info = named(alloc, base, user, name)?;
    Ok(attr_refusal_in(attr, info))
}

/// The number that refuses a name in a statement of the user's that isn't what it has to be: 11 an
/// unknown variable, 10 an unknown relation, 12 an unknown attribute; `None` where nothing refuses it.
pub(crate) fn mention_refusal<B: Base>(
    alloc: Global,
    base: &mut B,
    user: &Name,
    ranges: &RangeTable,
    mention: &Mention<'_>,
) -> Result<Option<u8>, BaseFault>
    ensures known { (db : Db) → B.schema base.old ≡ Some db
        → IfOk result (λ n. n ≡ mention_refusal (scope_of db user.now ranges.now) (seen mention.now)) }
    ensures kept { B.database base.new ≡ B.database base.old }
    ensures stays { (s : Db) → B.schema base.old ≡ Some s → B.schema base.new ≡ Some s }
    ensures asked { (b : B) → B.asked b base.old → B.asked b base.new }
    ensures cause { HasCause (B.database base.old) (B.faults base.old) (B.faults base.new) result }
{
    match mention {
        Mention::Variable(var) => variable_refusal(alloc, base, ranges, var),
        Mention::AttrOf(var, attr) => dotted_refusal(alloc, base, ranges, var, attr),
        Mention::Relation(name) => relation_refusal(alloc, base, user, name),
        Mention::AttrIn(name, attr) => attr_in_refusal(alloc, base, user, name, attr),
        Mention::Entry(name) => entry_refusal(alloc, base, user, name),
    }
}
