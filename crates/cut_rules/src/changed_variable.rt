//! The text of the variable whose rows an update replaces or deletes, and what the rows have to meet that
//! it puts.

ghost use Rattle.std.specs.Prelude.{◌≡◌, ◌++◌, ◌==◌, [], ◌∷◌, true, false, Some, None, IfOk, IfErr, OnOk, option_map};
ghost use Rattle.std.specs.List.{list_all};
ghost use Rattle.std.specs.Option.{option_to_list};
ghost use Rattle.calculus.specs.Database.{Db};
ghost use Rattle.calculus.specs.Permission.{change_permitted};
ghost use Rattle.calculus.specs.Rights.{Append, permitted};
ghost use Rattle.cut_rules.specs.Placed.{changed_by, read_permitted};
ghost use Rattle.view_expand.specs.Asking.{right_of, who_of};
ghost use Rattle.view_expand.specs.Causes.{HasCause as HasExpansionCause};
ghost use Rattle.view_expand.specs.Found.{IsFound};
ghost use Rattle.view_expand.specs.declared.fault.ExpansionFault.TheVariants.{OutOfMemory as NoExpansionMemory};
ghost use Rattle.view_text.specs.Halves.{all_of};
ghost use Rattle.view_text.specs.Expanded.{changed_expansion, read_restriction};
ghost use Rattle.view_text.specs.Scoped.{is_qual_within, is_scoped};
ghost use Rattle.view_text.specs.ExpansionOf.{restriction, kept_expansion};

use base_trait::Base;
use calculus::{List, Name, OutOfMemory, QQual, RelKey, TryCopy, Update, UpdateOp};
use memory::{alone, push};
use std::alloc::Global;
use view_expand::{ExpansionFault, ExpansionsFound, Right, restriction};
use view_text::{Expansion, all_of};

/// The right to change the variable at a place; `None` where its rows stay.
pub(crate) fn changed_by(u: &Update, place: u8) -> Option<Right>
    ensures { option_map right_of result ≡ changed_by u.now place }
{
    match u.op {
        UpdateOp::Append | UpdateOp::Into => None,
        UpdateOp::Replace => {
            if u.old == place {
                Some(Right::Replace)
            } else {
                None
            }
        }
        UpdateOp::Delete => {
            if u.old == place {
                Some(Right::Delete)
            } else {
                None
            }
        }
    }
}

/// Puts the condition behind those that are there, where it is one.
fn put_condition(condition: Option<QQual>, conditions: &mut Vec<QQual>) -> Result<(), OutOfMemory>
    ensures { OnOk result (conditions.new.items ≡ conditions.old.items ++ option_to_list condition) }
{
    match condition {
        Some(condition) => push(conditions, condition),
        None => Ok(()),
    }
}

/// Puts the condition on the rows of what has a key, with which one may do this with these attributes,
/// behind those that are there. `NoPermit` exactly where a permit is needed and none covers it.
pub(crate) fn append_restriction<B: Base>(
    alloc: Global,
    base: &mut B,
    who: Option<&Name>,
    right: Right,
    attrs: &[u8],
    key: &RelKey,
    conditions: &mut Vec<QQual>,
    found: &mut ExpansionsFound,
) -> Result<(), ExpansionFault>
    requires found { (db : Db) → B.database base.old ≡ Some db → IsFound db (who_of (option_map (λ n. n.now) who)) found.old }
    ensures known { (db : Db) → B.database base.old ≡ Some db → OnOk result (conditions.new.items ≡ conditions.old.items ++ restriction db (who_of (option_map (λ n. n.now) who.entry)) (right_of right) attrs.now key.now) }
    ensures permitted { (db : Db) → B.database base.old ≡ Some db → OnOk result (permitted db (who_of (option_map (λ n. n.now) who.entry)) (right_of right) attrs.now key.now ≡ true) }
    ensures within { list_all (is_qual_within 1) conditions.old.items ≡ true → OnOk result (list_all (is_qual_within 1) conditions.new.items ≡ true) }
    ensures found { (db : Db) → B.database base.old ≡ Some db → IsFound db (who_of (option_map (λ n. n.now) who.entry)) found.new }
    ensures kept { B.database base.new ≡ B.database base.old }
    ensures stays { (s : Db) → B.schema base.old ≡ Some s → B.schema base.new ≡ Some s }
    ensures asked { (b : B) → B.asked b base.old → B.asked b base.new }
    ensures cause { HasExpansionCause (λ db. permitted db (who_of (option_map (λ n. n.now) who.entry)) (right_of right) attrs.now key.now ≡ false) (B.database base.old) (B.faults base.old) (B.faults base.new) result }
{
    match restriction(alloc, base, who, right, attrs, key, found) {
        Ok(condition) => match put_condition(condition, conditions) {
            Ok(()) => Ok(()),
            Err(_) => Err(ExpansionFault::OutOfMemory),
        },
        Err(fault) => Err(fault),
    }
}

/// The same for reading, where any attribute is read.
fn put_read_restriction<B: Base>(
    alloc: Global,
    base: &mut B,
    who: Option<&Name>,
    read: &[u8],
    key: &RelKey,
    quals: &mut Vec<QQual>,
    found: &mut ExpansionsFound,
) -> Result<(), ExpansionFault>
    requires found { (db : Db) → B.database base.old ≡ Some db → IsFound db (who_of (option_map (λ n. n.now) who)) found.old }
    ensures known { (db : Db) → B.database base.old ≡ Some db → OnOk result (quals.new.items ≡ quals.old.items ++ read_restriction db (who_of (option_map (λ n. n.now) who.entry)) read.now key.now) }
    ensures permitted { (db : Db) → B.database base.old ≡ Some db → OnOk result (read_permitted db (who_of (option_map (λ n. n.now) who.entry)) read.now key.now ≡ true) }
    ensures within { list_all (is_qual_within 1) quals.old.items ≡ true → OnOk result (list_all (is_qual_within 1) quals.new.items ≡ true) }
    ensures found { (db : Db) → B.database base.old ≡ Some db → IsFound db (who_of (option_map (λ n. n.now) who.entry)) found.new }
    ensures kept { B.database base.new ≡ B.database base.old }
    ensures stays { (s : Db) → B.schema base.old ≡ Some s → B.schema base.new ≡ Some s }
    ensures asked { (b : B) → B.asked b base.old → B.asked b base.new }
    ensures cause { HasExpansionCause (λ db. read_permitted db (who_of (option_map (λ n. n.now) who.entry)) read.now key.now ≡ false) (B.database base.old) (B.faults base.old) (B.faults base.new) result }
{
    match read {
        [] => Ok(()),
        [_, ..] => append_restriction(alloc, base, who, Right::Retrieve, read, key, quals, found),
    }
}

/// Puts the conditions on rows that are changed, and read where they are, behind those that are there.
fn put_cuts<B: Base>(
    alloc: Global,
    base: &mut B,
    who: Option<&Name>,
    right: Right,
    places: &[u8],
    read: &[u8],
    key: &RelKey,
    conditions: &mut Vec<QQual>,
    found: &mut ExpansionsFound,
) -> Result<(), ExpansionFault>
    requires found { (db : Db) → B.database base.old ≡ Some db → IsFound db (who_of (option_map (λ n. n.now) who)) found.old }
    ensures known { (db : Db) → B.database base.old ≡ Some db → OnOk result (conditions.new.items ≡ conditions.old.items ++ (restriction db (who_of (option_map (λ n. n.now) who.entry)) (right_of right) places.now key.now ++ read_restriction db (who_of (option_map (λ n. n.now) who.entry)) read.now key.now)) }
    ensures permitted { (db : Db) → B.database base.old ≡ Some db → OnOk result (change_permitted db (who_of (option_map (λ n. n.now) who.entry)) (right_of right) places.now key.now read.now ≡ true) }
    ensures within { list_all (is_qual_within 1) conditions.old.items ≡ true → OnOk result (list_all (is_qual_within 1) conditions.new.items ≡ true) }
    ensures found { (db : Db) → B.database base.old ≡ Some db → IsFound db (who_of (option_map (λ n. n.now) who.entry)) found.new }
    ensures kept { B.database base.new ≡ B.database base.old }
    ensures stays { (s : Db) → B.schema base.old ≡ Some s → B.schema base.new ≡ Some s }
    ensures asked { (b : B) → B.asked b base.old → B.asked b base.new }
    ensures cause { HasExpansionCause (λ db. change_permitted db (who_of (option_map (λ n. n.now) who.entry)) (right_of right) places.now key.now read.now ≡ false) (B.database base.old) (B.faults base.old) (B.faults base.new) result }
{
    match append_restriction(alloc, base, who, right, places, key, conditions, found) {
        Ok(()) => put_read_restriction(alloc, base, who, read, key, conditions, found),
        Err(fault) => Err(fault),
    }
}

/// The key alone.
fn only(alloc: Global, key: &RelKey) -> Result<Vec<RelKey>, OutOfMemory>
    ensures { IfOk result (λ keys. keys.items ≡ key.now ∷ []) }
{
    match key.copy(alloc) {
        Ok(key) => alone(alloc, key),
        Err(error) => Err(error),
    }
}

/// The expansion of what has a key and is no view, with these conditions on its rows.
#[tactic(auto, using(view_text::proofs::Scope::kept_scoped))]
fn kept(alloc: Global, key: &RelKey, conditions: Vec<QQual>) -> Result<Expansion, ExpansionFault>
    requires { list_all (is_qual_within 1) conditions.items ≡ true }
    ensures expansion { IfOk result (λ expansion. expansion ≡ kept_expansion conditions.items key.now) }
    ensures scoped { IfOk result (λ expansion. is_scoped expansion ≡ true) }
    ensures cause { IfErr result (λ fault. fault ≡ NoExpansionMemory) }
{
    match only(alloc, key) {
        Ok(vars) => Ok(Expansion {
            vars: List::of(vars),
            terms: None,
            conditions: List::of(conditions),
        }),
        Err(_) => Err(ExpansionFault::OutOfMemory),
    }
}

/// The expansion of a variable whose rows are replaced or deleted: its relation, restricted to the rows that may
/// be so changed with the attributes at these places, and be read as far as they are. `NoPermit` exactly
/// where one of the two isn't permitted at all.
pub(crate) fn changed_expansion<B: Base>(
    alloc: Global,
    base: &mut B,
    who: Option<&Name>,
    right: Right,
    places: &[u8],
    read: &[u8],
    key: &RelKey,
    found: &mut ExpansionsFound,
) -> Result<Expansion, ExpansionFault>
    requires found { (db : Db) → B.database base.old ≡ Some db → IsFound db (who_of (option_map (λ n. n.now) who)) found.old }
    ensures known { (db : Db) → B.database base.old ≡ Some db → IfOk result (λ expansion. expansion ≡ changed_expansion db (who_of (option_map (λ n. n.now) who.entry)) (right_of right) places.now read.now key.now) }
    ensures permitted { (db : Db) → B.database base.old ≡ Some db → OnOk result (change_permitted db (who_of (option_map (λ n. n.now) who.entry)) (right_of right) places.now key.now read.now ≡ true) }
    ensures scoped { IfOk result (λ expansion. is_scoped expansion ≡ true) }
    ensures found { (db : Db) → B.database base.old ≡ Some db → IsFound db (who_of (option_map (λ n. n.now) who.entry)) found.new }
    ensures kept { B.database base.new ≡ B.database base.old }
    ensures stays { (s : Db) → B.schema base.old ≡ Some s → B.schema base.new ≡ Some s }
    ensures asked { (b : B) → B.asked b base.old → B.asked b base.new }
    ensures cause { HasExpansionCause (λ db. change_permitted db (who_of (option_map (λ n. n.now) who.entry)) (right_of right) places.now key.now read.now ≡ false) (B.database base.old) (B.faults base.old) (B.faults base.new) result }
{
    let mut conditions = Vec::new(alloc);
    match put_cuts(
        alloc,
        base,
        who,
        right,
        places,
        read,
        key,
        &mut conditions,
        found,
    ) {
        Ok(()) => kept(alloc, key, conditions),
        Err(fault) => Err(fault),
    }
}

/// Puts a copy of the qualification into the list.
fn put_copy(alloc: Global, qual: &QQual, quals: &mut Vec<QQual>) -> Result<(), OutOfMemory>
    ensures { OnOk result (quals.new.items ≡ quals.old.items ++ qual.now ∷ []) }
{
    match qual.copy(alloc) {
        Ok(qual) => push(quals, qual),
        Err(error) => Err(error),
    }
}

/// What must hold of a row for the one who asks to append it, behind what must hold of it already.
/// `NoPermit` exactly where nothing may be appended.
pub(crate) fn appended_restriction<B: Base>(
    alloc: Global,
    base: &mut B,
    who: Option<&Name>,
    u: &Update,
    found: &mut ExpansionsFound,
) -> Result<QQual, ExpansionFault>
    requires found { (db : Db) → B.database base.old ≡ Some db → IsFound db (who_of (option_map (λ n. n.now) who)) found.old }
    ensures known { (db : Db) → B.database base.old ≡ Some db → IfOk result (λ q. q ≡ all_of (u.now.new_cut ∷ restriction db (who_of (option_map (λ n. n.now) who.entry)) Append u.now.places u.now.rel)) }
    ensures permitted { (db : Db) → B.database base.old ≡ Some db → OnOk result (permitted db (who_of (option_map (λ n. n.now) who.entry)) Append u.now.places u.now.rel ≡ true) }
    ensures found { (db : Db) → B.database base.old ≡ Some db → IsFound db (who_of (option_map (λ n. n.now) who.entry)) found.new }
    ensures kept { B.database base.new ≡ B.database base.old }
    ensures stays { (s : Db) → B.schema base.old ≡ Some s → B.schema base.new ≡ Some s }
    ensures asked { (b : B) → B.asked b base.old → B.asked b base.new }
    ensures cause { HasExpansionCause (λ db. permitted db (who_of (option_map (λ n. n.now) who.entry)) Append u.now.places u.now.rel ≡ false) (B.database base.old) (B.faults base.old) (B.faults base.new) result }
{
    let mut quals = Vec::new(alloc);
    if put_copy(alloc, &u.new_cut, &mut quals).is_err() {
        return Err(ExpansionFault::OutOfMemory);
    }
    match append_restriction(
        alloc,
        base,
        who,
        Right::Append,
        u.places.items(),
        &u.rel,
        &mut quals,
        found,
    ) {
        Ok(()) => match all_of(alloc, quals) {
            Ok(q) => Ok(q),
            Err(_) => Err(ExpansionFault::OutOfMemory),
        },
        Err(fault) => Err(fault),
    }
}
