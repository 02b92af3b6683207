//! Updates with their variables expanded.

ghost use Rattle.std.specs.Prelude.{◌≡◌, ◌⊎◌, ◌+◌, ◌≤◌, ◌++◌, [], ◌∷◌, map, true, false, Some, length, IfOk, IfErr, OnOk, option_map};
ghost use Rattle.std.specs.List.{enumerate_from, list_all};
ghost use Rattle.calculus.specs.Database.{Db};
ghost use Rattle.calculus.specs.Permission.{aggregates_permitted, change_permitted, readable, update_permitted};
ghost use Rattle.calculus.specs.QueryParts.{vars_of};
ghost use Rattle.calculus.specs.Rights.{Append, permitted};
ghost use Rattle.calculus.specs.Used.{used_in_query};
ghost use Rattle.calculus.specs.declared.request.UpdateOp.TheVariants as op;
ghost use Rattle.cut_rules.specs.Causes.{HasCause};
ghost use Rattle.cut_rules.specs.Placed.{IsRefusedAt, is_small_in, may_be_used, expansion_in};
ghost use Rattle.cut_rules.specs.Refused.{HasRefusedAggregate, IsRefusedAppend, IsRefusedOf};
ghost use Rattle.cut_rules.specs.declared.fault.CutFault.TheVariants.{OutOfMemory as NoMemory};
ghost use Rattle.quel_meaning.specs.Fit.{update_fits};
ghost use Rattle.quel_meaning.specs.FitQueries.{kept_or_viewed, reads_fit};
ghost use Rattle.view_expand.specs.Asking.{right_of, who_of};
ghost use Rattle.view_expand.specs.Found.{IsFound};
ghost use Rattle.view_text.specs.Expanded.{changed_expansion, append_restriction, expanded_update, expanded_over, put_place};
ghost use Rattle.view_text.specs.Scoped.{is_scoped};
ghost use Rattle.view_text.specs.Expansions.{place_from, expansions_vars};

use crate::changed_variable::{appended_restriction, changed_by, changed_expansion};
use crate::expanded::expanded_over;
use crate::expansions::{PLACES, are_few, fault_at, put_behind, read_expansion};
use crate::{CutFault, NO_VARIABLE};
use base_trait::Base;
use calculus::{Name, QQual, Query, RelKey, TryCopy, Update, UpdateOp};
use memory::both;
use ovqp::uses;
use std::alloc::Global;
use view_expand::{ExpansionsFound, Right};
use view_text::Expansion;

/// The last place that a variable may have.
const LAST_PLACE: usize = 255;

/// The text of the variable at a place, whose rows are changed by this right.
fn changed_at<B: Base>(
    alloc: Global,
    base: &mut B,
    who: Option<&Name>,
    u: &Update,
    right: Right,
    place: u8,
    key: &RelKey,
    found: &mut ExpansionsFound,
) -> Result<Expansion, CutFault>
    requires found { (db : Db) → B.database base.old ≡ Some db → IsFound db (who_of (option_map (λ n. n.now) who)) found.old }
    ensures known { (db : Db) → B.database base.old ≡ Some db → IfOk result (λ expansion. expansion ≡ changed_expansion db (who_of (option_map (λ n. n.now) who.entry)) (right_of right) u.now.places (used_in_query place u.now.query) key.now) }
    ensures permitted { (db : Db) → B.database base.old ≡ Some db → OnOk result (change_permitted db (who_of (option_map (λ n. n.now) who.entry)) (right_of right) u.now.places key.now (used_in_query place u.now.query) ≡ true) }
    ensures scoped { IfOk result (λ expansion. is_scoped expansion ≡ true) }
    ensures found { (db : Db) → B.database base.old ≡ Some db → IsFound db (who_of (option_map (λ n. n.now) who.entry)) found.new }
    ensures kept { B.database base.new ≡ B.database base.old }
    ensures stays { (s : Db) → B.schema base.old ≡ Some s → B.schema base.new ≡ Some s }
    ensures asked { (b : B) → B.asked b base.old → B.asked b base.new }
    ensures cause { HasCause (λ db var. (var ≡ place) × (change_permitted db (who_of (option_map (λ n. n.now) who.entry)) (right_of right) u.now.places key.now (used_in_query place u.now.query) ≡ false)) (B.database base.old) (B.faults base.old) (B.faults base.new) result }
{
    match uses(alloc, &u.query, place) {
        Ok(read) => match changed_expansion(
            alloc,
            base,
            who,
            right,
            u.places.items(),
            &read,
            key,
            found,
        ) {
            Ok(expansion) => Ok(expansion),
            Err(fault) => Err(fault_at(fault, place)),
        },
        Err(_) => Err(CutFault::OutOfMemory),
    }
}

/// The expansion of an update's variable at a place, which ranges over this. `NoPermit` exactly where its rows
/// may not be so changed, or, where they stay, it is used and may not be read.
fn expansion_in<B: Base>(
    alloc: Global,
    base: &mut B,
    who: Option<&Name>,
    u: &Update,
    place: u8,
    key: &RelKey,
    found: &mut ExpansionsFound,
) -> Result<Expansion, CutFault>
    requires small { (db : Db) → B.database base.old ≡ Some db → is_small_in db u.now (place, key.now) ≡ true }
    requires found { (db : Db) → B.database base.old ≡ Some db → IsFound db (who_of (option_map (λ n. n.now) who)) found.old }
    ensures known { (db : Db) → B.database base.old ≡ Some db → IfOk result (λ expansion. expansion ≡ expansion_in db (who_of (option_map (λ n. n.now) who.entry)) u.now (place, key.now)) }
    ensures permitted { (db : Db) → B.database base.old ≡ Some db → OnOk result (may_be_used db (who_of (option_map (λ n. n.now) who.entry)) u.now (place, key.now) ≡ true) }
    ensures scoped { IfOk result (λ expansion. is_scoped expansion ≡ true) }
    ensures found { (db : Db) → B.database base.old ≡ Some db → IsFound db (who_of (option_map (λ n. n.now) who.entry)) found.new }
    ensures kept { B.database base.new ≡ B.database base.old }
    ensures stays { (s : Db) → B.schema base.old ≡ Some s → B.schema base.new ≡ Some s }
    ensures asked { (b : B) → B.asked b base.old → B.asked b base.new }
    ensures cause { HasCause (λ db var. (var ≡ place) × (may_be_used db (who_of (option_map (λ n. n.now) who.entry)) u.now (place, key.now) ≡ false)) (B.database base.old) (B.faults base.old) (B.faults base.new) result }
{
    match changed_by(u, place) {
        Some(right) => changed_at(alloc, base, who, u, right, place, key, found),
        None => read_expansion(alloc, base, who, &u.query, place, key, found),
    }
}

/// Puts the expansions of an update's variables, which range over these, behind those that are there.
fn put_each<B: Base>(
    alloc: Global,
    base: &mut B,
    who: Option<&Name>,
    u: &Update,
    keys: &[RelKey],
    expansions: &mut Vec<Expansion>,
    found: &mut ExpansionsFound,
) -> Result<(), CutFault>
    requires listed { length keys.now ≤ 256 }
    requires small { (db : Db) → B.database base.old ≡ Some db → list_all (is_small_in db u.now) (enumerate_from 0 keys.now) ≡ true }
    requires found { (db : Db) → B.database base.old ≡ Some db → IsFound db (who_of (option_map (λ n. n.now) who)) found.old }
    ensures known { (db : Db) → B.database base.old ≡ Some db → OnOk result (expansions.new.items ≡ expansions.old.items ++ map (expansion_in db (who_of (option_map (λ n. n.now) who.entry)) u.now) (enumerate_from 0 keys.now)) }
    ensures permitted { (db : Db) → B.database base.old ≡ Some db → OnOk result (list_all (may_be_used db (who_of (option_map (λ n. n.now) who.entry)) u.now) (enumerate_from 0 keys.now) ≡ true) }
    ensures scoped { list_all is_scoped expansions.old.items ≡ true → OnOk result (list_all is_scoped expansions.new.items ≡ true) }
    ensures found { (db : Db) → B.database base.old ≡ Some db → IsFound db (who_of (option_map (λ n. n.now) who.entry)) found.new }
    ensures kept { B.database base.new ≡ B.database base.old }
    ensures stays { (s : Db) → B.schema base.old ≡ Some s → B.schema base.new ≡ Some s }
    ensures asked { (b : B) → B.asked b base.old → B.asked b base.new }
    ensures cause { HasCause (λ db var. IsRefusedAt (may_be_used db (who_of (option_map (λ n. n.now) who.entry)) u.now) keys.now var) (B.database base.old) (B.faults base.old) (B.faults base.new) result }
{
    let mut place: usize = 0;
    let mut rest = keys;
    'keys: while let Some((key, others)) = rest.split_first() {
        let more = expansion_in(alloc, base, who, u, place as u8, key, found)?;
        put_behind(expansions, more)?;
        place += 1;
        rest = others;
    }
    Ok(())
}

/// Puts the expansions of an update's variables behind those that are there.
fn put_expansions<B: Base>(
    alloc: Global,
    base: &mut B,
    who: Option<&Name>,
    u: &Update,
    expansions: &mut Vec<Expansion>,
    found: &mut ExpansionsFound,
) -> Result<(), CutFault>
    requires listed { (db : Db) → B.database base.old ≡ Some db → length (vars_of u.now.query) ≤ 256 }
    requires small { (db : Db) → B.database base.old ≡ Some db → list_all (is_small_in db u.now) (enumerate_from 0 (vars_of u.now.query)) ≡ true }
    requires found { (db : Db) → B.database base.old ≡ Some db → IsFound db (who_of (option_map (λ n. n.now) who)) found.old }
    ensures known { (db : Db) → B.database base.old ≡ Some db → OnOk result (expansions.new.items ≡ expansions.old.items ++ map (expansion_in db (who_of (option_map (λ n. n.now) who.entry)) u.now) (enumerate_from 0 (vars_of u.now.query))) }
    ensures permitted { (db : Db) → B.database base.old ≡ Some db → OnOk result (list_all (may_be_used db (who_of (option_map (λ n. n.now) who.entry)) u.now) (enumerate_from 0 (vars_of u.now.query)) ≡ true) }
    ensures scoped { list_all is_scoped expansions.old.items ≡ true → OnOk result (list_all is_scoped expansions.new.items ≡ true) }
    ensures found { (db : Db) → B.database base.old ≡ Some db → IsFound db (who_of (option_map (λ n. n.now) who.entry)) found.new }
    ensures kept { B.database base.new ≡ B.database base.old }
    ensures stays { (s : Db) → B.schema base.old ≡ Some s → B.schema base.new ≡ Some s }
    ensures asked { (b : B) → B.asked b base.old → B.asked b base.new }
    ensures cause { HasCause (λ db var. IsRefusedAt (may_be_used db (who_of (option_map (λ n. n.now) who.entry)) u.now) (vars_of u.now.query) var) (B.database base.old) (B.faults base.old) (B.faults base.new) result }
{
    let keys = u.query.vars.items();
    if keys.len() > PLACES {
        return Err(CutFault::TooMany);
    }
    put_each(alloc, base, who, u, keys, expansions, found)
}

/// The place at which the variable's text begins, where the variables of the expansions stand from this one on.
#[tactic(auto, using(view_expand::proofs::Few::vars_before, crate::proofs::Places::place_next, crate::proofs::Places::place_first))]
fn place_from(start: u8, expansions: &[Expansion], var: u8) -> u8
    requires { start + length (expansions_vars expansions.now) ≤ 255 }
    ensures { result ≡ place_from start expansions.now var }
{
    match expansions.split_first() {
        None => start,
        Some((expansion, others)) => {
            if var == 0 {
                start
            } else {
                place_from(start + expansion.vars.items().len() as u8, others, var - 1)
            }
        }
    }
}

/// The place of the variable whose rows are replaced or deleted, once these expansions are put in.
fn put_place(expansions: &[Expansion], u: &Update) -> u8
    requires { length (expansions_vars expansions.now) ≤ 255 }
    ensures { result ≡ put_place expansions.now u.now }
{
    match u.op {
        UpdateOp::Append | UpdateOp::Into => u.old,
        UpdateOp::Replace | UpdateOp::Delete => place_from(0, expansions, u.old),
    }
}

/// What must hold of a new row for the one who asks to put it. `NoPermit` exactly where nothing may be
/// appended.
fn put_new_cut<B: Base>(
    alloc: Global,
    base: &mut B,
    who: Option<&Name>,
    u: &Update,
    found: &mut ExpansionsFound,
) -> Result<QQual, CutFault>
    requires found { (db : Db) → B.database base.old ≡ Some db → IsFound db (who_of (option_map (λ n. n.now) who)) found.old }
    ensures known { (db : Db) → B.database base.old ≡ Some db → IfOk result (λ q. q ≡ append_restriction db (who_of (option_map (λ n. n.now) who.entry)) u.now u.now.op) }
    ensures permitted { (db : Db) → B.database base.old ≡ Some db → OnOk result (u.now.op ≡ op.Append → permitted db (who_of (option_map (λ n. n.now) who.entry)) Append u.now.places u.now.rel ≡ true) }
    ensures found { (db : Db) → B.database base.old ≡ Some db → IsFound db (who_of (option_map (λ n. n.now) who.entry)) found.new }
    ensures kept { B.database base.new ≡ B.database base.old }
    ensures stays { (s : Db) → B.schema base.old ≡ Some s → B.schema base.new ≡ Some s }
    ensures asked { (b : B) → B.asked b base.old → B.asked b base.new }
    ensures cause { HasCause (λ db var. IsRefusedAppend db (who_of (option_map (λ n. n.now) who.entry)) u.now var) (B.database base.old) (B.faults base.old) (B.faults base.new) result }
{
    match u.op {
        UpdateOp::Append => match appended_restriction(alloc, base, who, u, found) {
            Ok(q) => Ok(q),
            Err(fault) => Err(fault_at(fault, NO_VARIABLE)),
        },
        UpdateOp::Replace | UpdateOp::Delete | UpdateOp::Into => match u.new_cut.copy(alloc) {
            Ok(q) => Ok(q),
            Err(_) => Err(CutFault::OutOfMemory),
        },
    }
}

/// The update with its changed variable at this place, this query, and this that must hold of a new row.
fn update_of(
    alloc: Global,
    u: &Update,
    old: u8,
    query: Query,
    new_cut: QQual,
) -> Result<Update, CutFault>
    ensures update { IfOk result (λ made. made ≡ record u.now { old = old; query = query; new_cut = new_cut }) }
    ensures cause { IfErr result (λ fault. fault ≡ NoMemory) }
{
    let relation = both(u.rel.copy(alloc), u.places.copy(alloc));
    match both(relation, u.checks.copy(alloc)) {
        Ok(((rel, places), checks)) => Ok(Update {
            op: u.op,
            rel,
            old,
            places,
            query,
            checks,
            new_cut,
        }),
        Err(_) => Err(CutFault::OutOfMemory),
    }
}

/// The update with these expansions of its variables put in, where they have few variables.
fn expanded_over_few<B: Base>(
    alloc: Global,
    base: &mut B,
    who: Option<&Name>,
    u: &Update,
    expansions: &[Expansion],
    found: &mut ExpansionsFound,
) -> Result<Update, CutFault>
    requires fit { (db : Db) → B.database base.old ≡ Some db → reads_fit (kept_or_viewed db) db u.now.query ≡ true }
    requires scoped { list_all is_scoped expansions.now ≡ true }
    requires few { (db : Db) → B.database base.old ≡ Some db → length (expansions_vars expansions.now) ≤ 255 }
    requires found { (db : Db) → B.database base.old ≡ Some db → IsFound db (who_of (option_map (λ n. n.now) who)) found.old }
    ensures known { (db : Db) → B.database base.old ≡ Some db → IfOk result (λ made. made ≡ record u.now { old = put_place expansions.now u.now; query = expanded_over db (who_of (option_map (λ n. n.now) who.entry)) expansions.now u.now.query; new_cut = append_restriction db (who_of (option_map (λ n. n.now) who.entry)) u.now u.now.op }) }
    ensures permitted { (db : Db) → B.database base.old ≡ Some db → OnOk result (aggregates_permitted (readable db (who_of (option_map (λ n. n.now) who.entry))) u.now.query ≡ true) }
    ensures appended { (db : Db) → B.database base.old ≡ Some db → OnOk result (u.now.op ≡ op.Append → permitted db (who_of (option_map (λ n. n.now) who.entry)) Append u.now.places u.now.rel ≡ true) }
    ensures found { (db : Db) → B.database base.old ≡ Some db → IsFound db (who_of (option_map (λ n. n.now) who.entry)) found.new }
    ensures kept { B.database base.new ≡ B.database base.old }
    ensures stays { (s : Db) → B.schema base.old ≡ Some s → B.schema base.new ≡ Some s }
    ensures asked { (b : B) → B.asked b base.old → B.asked b base.new }
    ensures cause { HasCause (λ db var. IsRefusedAppend db (who_of (option_map (λ n. n.now) who.entry)) u.now var ⊎ HasRefusedAggregate db (who_of (option_map (λ n. n.now) who.entry)) u.now.query var) (B.database base.old) (B.faults base.old) (B.faults base.new) result }
{
    if !are_few(expansions, LAST_PLACE) {
        return Err(CutFault::TooMany);
    }
    let place = put_place(expansions, u);
    match put_new_cut(alloc, base, who, u, found) {
        Ok(new_cut) => match expanded_over(alloc, base, who, &u.query, expansions, found) {
            Ok(query) => update_of(alloc, u, place, query, new_cut),
            Err(fault) => Err(fault),
        },
        Err(fault) => Err(fault),
    }
}

/// The update with its variables expanded, and those that its aggregates are over. `NoPermit`
/// exactly where the relation may not be so changed, or another variable that is used, or what an
/// aggregate names, may not be read.
pub(crate) fn expanded_update<B: Base>(
    alloc: Global,
    base: &mut B,
    who: Option<&Name>,
    u: &Update,
    found: &mut ExpansionsFound,
) -> Result<Update, CutFault>
    requires fit { (db : Db) → B.database base.old ≡ Some db → update_fits (kept_or_viewed db) db u.now ≡ true }
    requires found { (db : Db) → B.database base.old ≡ Some db → IsFound db (who_of (option_map (λ n. n.now) who)) found.old }
    ensures known { (db : Db) → B.database base.old ≡ Some db → IfOk result (λ made. made ≡ expanded_update db (who_of (option_map (λ n. n.now) who.entry)) u.now) }
    ensures permitted { (db : Db) → B.database base.old ≡ Some db → OnOk result (update_permitted db (who_of (option_map (λ n. n.now) who.entry)) u.now ≡ true) }
    ensures found { (db : Db) → B.database base.old ≡ Some db → IsFound db (who_of (option_map (λ n. n.now) who.entry)) found.new }
    ensures kept { B.database base.new ≡ B.database base.old }
    ensures stays { (s : Db) → B.schema base.old ≡ Some s → B.schema base.new ≡ Some s }
    ensures asked { (b : B) → B.asked b base.old → B.asked b base.new }
    ensures cause { HasCause (λ db var. (update_permitted db (who_of (option_map (λ n. n.now) who.entry)) u.now ≡ false) × IsRefusedOf db (who_of (option_map (λ n. n.now) who.entry)) u.now var) (B.database base.old) (B.faults base.old) (B.faults base.new) result }
{
    let mut expansions = Vec::new(alloc);
    match put_expansions(alloc, base, who, u, &mut expansions, found) {
        Ok(()) => expanded_over_few(alloc, base, who, u, &expansions, found),
        Err(fault) => Err(fault),
    }
}
