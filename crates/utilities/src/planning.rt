//! The change that a utility makes of a database.

ghost use Rattle.std.specs.Prelude.{◌≡◌, [], false, IsTrue, Some, Ok as Planned, IfOk};
ghost use Rattle.calculus.specs.Database.{Db};
ghost use Rattle.calculus.specs.declared.change.DbChange.TheVariants.{Create};
ghost use Rattle.plan_laws.specs.Fitting.{is_copy};
ghost use Rattle.quel_meaning.specs.Planned.{heap_info, planned};
ghost use Rattle.utilities.specs.Causes.{HasCause, HasCauseBy};
ghost use Rattle.utilities.specs.Decided.{IsDecided, is_rule};

use crate::UtilFault;
use crate::destroying::destroyed;
use crate::dropping::{permits_gone, rules_gone};
use crate::permits::permit_planned;
use crate::rules::rule_planned;
use crate::structures::{index_planned, structure_planned};
use crate::views::view_made;
use base_trait::Base;
use calculus::{Attr, DbChange, List, Name, OutOfMemory, RelInfo, RelKey, Spec, TryCopy, Utility};
use std::alloc::Global;

/// The change that makes a relation without rows: a heap with these attributes.
fn relation_made(alloc: Global, rel: &RelKey, attrs: &List<Attr>) -> Result<DbChange, OutOfMemory>
    ensures { IfOk result (λ c. c ≡ Create (heap_info rel.now attrs.now) []) }
{
    let info = RelInfo {
        key: rel.copy(alloc)?,
        spec: Spec::Heap,
        attrs: attrs.copy(alloc)?,
        keys: List::of(Vec::new(alloc)),
    };
    let rows = List::of(Vec::new(alloc));
    Ok(DbChange::Create { info, rows })
}

/// The change that a utility makes for the user which neither copies nor makes a rule, or what refuses
/// it: no row counts.
#[tactic(auto, using(crate::proofs::Plans::create_planned, crate::proofs::Plans::view_planned))]
fn schema_planned<B: Base>(
    alloc: Global,
    base: &mut B,
    user: &Name,
    u: &Utility,
) -> Result<DbChange, UtilFault>
    requires copies { is_copy u.now ≡ false }
    requires rule { is_rule u.now ≡ false }
    ensures change { (db : Db) → B.schema base.old ≡ Some db → IfOk result (λ c. planned db user.now u.now ≡ Planned c) }
    ensures kept { B.database base.new ≡ B.database base.old }
    ensures stays { (s : Db) → B.schema base.old ≡ Some s → B.schema base.new ≡ Some s }
    ensures asked { (b : B) → B.asked b base.old → B.asked b base.new }
    ensures cause { HasCauseBy user.now u.now (B.schema base.old) (B.database base.old) (B.faults base.old) (B.faults base.new) result }
{
    match u {
        Utility::Create { rel, attrs } => Ok(relation_made(alloc, rel, attrs)?),
        Utility::Destroy { rels } => destroyed(alloc, base, user, rels),
        Utility::Modify { rel, to, keys } => structure_planned(
            alloc,
            base,
            user,
            rel,
            *to,
            keys.items(),
        ),
        Utility::Index {
            base: rel,
            name,
            keys,
        } => index_planned(alloc, base, user, rel, name, keys),
        Utility::View { rel, query } => Ok(view_made(alloc, rel, query)?),
        Utility::Permit { rel, permit } => permit_planned(alloc, base, user, rel, permit),
        Utility::DropPermits { rel, numbers } => permits_gone(
            alloc,
            base,
            user,
            rel,
            numbers.items(),
        ),
        Utility::DropRules { rel, numbers } => rules_gone(alloc, base, user, rel, numbers.items()),
        Utility::Copy {
            rel: _,
            columns: _,
            from: _,
            file: _,
        } => unreachable!(),
        Utility::Rule { rel: _, rule: _ } => unreachable!(),
    }
}

/// The same of a utility that may make a rule.
fn known_planned<B: Base>(
    alloc: Global,
    base: &mut B,
    user: &Name,
    u: &Utility,
) -> Result<DbChange, UtilFault>
    requires { is_copy u.now ≡ false }
    ensures change { (db : Db) → B.database base.old ≡ Some db → IfOk result (λ c. planned db user.now u.now ≡ Planned c) }
    ensures by_schema { (s : Db) → B.schema base.old ≡ Some s → IsDecided s user.now u.now result }
    ensures kept { B.database base.new ≡ B.database base.old }
    ensures stays { (s : Db) → B.schema base.old ≡ Some s → B.schema base.new ≡ Some s }
    ensures asked { (b : B) → B.asked b base.old → B.asked b base.new }
    ensures cause { HasCause user.now u.now (B.database base.old) (B.faults base.old) (B.faults base.new) result }
{
    match u {
        Utility::Rule { rel, rule } => rule_planned(alloc, base, user, rel, rule),
        _ => schema_planned(alloc, base, user, u),
    }
}

/// The change that a utility other than a copy makes for the user, or what refuses it. Asks the
/// database for the number of its relations, so that its schema is known, and then for what the causes
/// of the kind need up to the first that is there: of a new relation, which has no rows, or view for
/// nothing; of what is to go whether views name it, for each key up to the first that is named; and of
/// a rule for the rows of its relation up to the first that breaks it.
pub fn plan<B: Base>(
    alloc: Global,
    base: &mut B,
    user: &Name,
    u: &Utility,
) -> Result<DbChange, UtilFault>
    requires { is_copy u.now ≡ false }
    ensures change { (db : Db) → B.database base.old ≡ Some db → IfOk result (λ c. planned db user.now u.now ≡ Planned c) }
    // Where no database is known, the schema decides all but whether a row breaks a rule.
    ensures by_schema { IsTrue B.fixes → (s : Db) → B.schema base.new ≡ Some s → IsDecided s user.now u.now result }
    ensures kept { B.database base.new ≡ B.database base.old }
    ensures stays { (s : Db) → B.schema base.old ≡ Some s → B.schema base.new ≡ Some s }
    ensures asked { (b : B) → B.asked b base.old → B.asked b base.new }
    ensures cause { HasCause user.now u.now (B.database base.old) (B.faults base.old) (B.faults base.new) result }
{
    let _count = base.count()?;
    known_planned(alloc, base, user, u)
}
