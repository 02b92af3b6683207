//! The expansion of what has a key, and of a query's rows, through views, where what was found is kept.

ghost use Rattle.std.specs.Prelude.{◌≡◌, ℕ, ◌≤◌, List, [], ◌∷◌, ◌++◌, true, false, Some, length, IfOk, IfErr, OnOk, option_map};
ghost use Rattle.std.specs.List.{list_all};
ghost use Rattle.calculus.specs.Database.{Db};
ghost use Rattle.calculus.specs.Lists.{is_any};
ghost use Rattle.calculus.specs.Permission.{permitted_within, vars_permitted};
ghost use Rattle.calculus.specs.QueryParts.{vars_of};
ghost use Rattle.calculus.specs.Sizes.{measure_within, query_measure};
ghost use Rattle.calculus.specs.Used.{used_in_query, used_vars};
ghost use Rattle.base_trait.specs.Known.{query_at};
ghost use Rattle.view_expand.specs.Asking.{who_of};
ghost use Rattle.view_expand.specs.Causes.{HasCause};
ghost use Rattle.view_expand.specs.Found.{IsFound, IsExpansionOf};
ghost use Rattle.view_expand.specs.Listed.{permitted_at, expansions_at, variables_at};
ghost use Rattle.view_expand.specs.declared.fault.ExpansionFault.TheVariants.{OutOfMemory as NoMemory};
ghost use Rattle.view_text.specs.Scoped.{is_scoped};
ghost use Rattle.view_text.specs.ExpansionOf.{rows_expansion, expansion_within};
ghost use Rattle.view_text.specs.Expansions.{query_expansions, used_expansion};

use crate::plain::{PLACES, no_expansion, plain_expansion, rows_of};
use crate::{ExpansionFault, ExpansionsFound};
use base_trait::Base;
use calculus::{Name, Query, RelKey};
use ovqp::uses;
use std::alloc::Global;
use view_text::Expansion;

/// Puts an expansion behind those that are there.
#[tactic(auto, using(crate::proofs::Listing::all_scoped_more))]
fn put_behind(expansions: &mut Vec<Expansion>, more: Expansion) -> Result<(), ExpansionFault>
    requires { is_scoped more ≡ true }
    ensures expansions { OnOk result (expansions.new.items ≡ expansions.old.items ++ more ∷ []) }
    ensures scoped { list_all is_scoped expansions.old.items ≡ true → OnOk result (list_all is_scoped expansions.new.items ≡ true) }
    ensures cause { IfErr result (λ fault. fault ≡ NoMemory) }
{
    match expansions.push(more) {
        Ok(()) => Ok(()),
        Err(_) => Err(ExpansionFault::OutOfMemory),
    }
}

/// The expansion of what has a key, as `expansion_within`. What was found is looked up first.
#[cycle(expansions)]
pub(crate) fn expansion_through<B: Base>(
    alloc: Global,
    base: &mut B,
    who: Option<&Name>,
    key: &RelKey,
    attrs: &[u8],
    levels: u8,
    found: &mut ExpansionsFound,
) -> Result<Expansion, ExpansionFault>
    requires few { (db : Db) → B.database base.old ≡ Some db → (measure_within levels db key.now).variables ≤ 256 }
    requires found { (db : Db) → B.database base.old ≡ Some db → IsFound db (who_of (option_map (λ n. n.now) who)) found.old }
    ensures known { (db : Db) → B.database base.old ≡ Some db → IfOk result (λ expansion. expansion ≡ expansion_within levels db (who_of (option_map (λ n. n.now) who.entry)) key.now attrs.now) }
    ensures permitted { (db : Db) → B.database base.old ≡ Some db → OnOk result (permitted_within levels db (who_of (option_map (λ n. n.now) who.entry)) key.now attrs.now ≡ true) }
    ensures scoped { IfOk result (λ expansion. is_scoped expansion ≡ true) }
    ensures found { (db : Db) → B.database base.old ≡ Some db → IsFound db (who_of (option_map (λ n. n.now) who.entry)) found.new }
    ensures kept { B.database base.new ≡ B.database base.old }
    ensures stays { (s : Db) → B.schema base.old ≡ Some s → B.schema base.new ≡ Some s }
    ensures asked { (b : B) → B.asked b base.old → B.asked b base.new }
    ensures cause { HasCause (λ db. permitted_within levels db (who_of (option_map (λ n. n.now) who.entry)) key.now attrs.now ≡ false) (B.database base.old) (B.faults base.old) (B.faults base.new) result }
{
    match found.expansion(alloc, key, levels)? {
        Some(expansion) => Ok(expansion),
        None => expansion_anew(alloc, base, who, key, attrs, levels, found),
    }
}

/// The expansion of what has a key, where it wasn't found yet.
#[cycle(expansions)]
#[tactic(auto, using(crate::proofs::Viewing::expansion_of_kept))]
fn expansion_anew<B: Base>(
    alloc: Global,
    base: &mut B,
    who: Option<&Name>,
    key: &RelKey,
    attrs: &[u8],
    levels: u8,
    found: &mut ExpansionsFound,
) -> Result<Expansion, ExpansionFault>
    requires few { (db : Db) → B.database base.old ≡ Some db → (measure_within levels db key.now).variables ≤ 256 }
    requires found { (db : Db) → B.database base.old ≡ Some db → IsFound db (who_of (option_map (λ n. n.now) who)) found.old }
    ensures known { (db : Db) → B.database base.old ≡ Some db → IfOk result (λ expansion. expansion ≡ expansion_within levels db (who_of (option_map (λ n. n.now) who.entry)) key.now attrs.now) }
    ensures permitted { (db : Db) → B.database base.old ≡ Some db → OnOk result (permitted_within levels db (who_of (option_map (λ n. n.now) who.entry)) key.now attrs.now ≡ true) }
    ensures scoped { IfOk result (λ expansion. is_scoped expansion ≡ true) }
    ensures found { (db : Db) → B.database base.old ≡ Some db → IsFound db (who_of (option_map (λ n. n.now) who.entry)) found.new }
    ensures kept { B.database base.new ≡ B.database base.old }
    ensures stays { (s : Db) → B.schema base.old ≡ Some s → B.schema base.new ≡ Some s }
    ensures asked { (b : B) → B.asked b base.old → B.asked b base.new }
    ensures cause { HasCause (λ db. permitted_within levels db (who_of (option_map (λ n. n.now) who.entry)) key.now attrs.now ≡ false) (B.database base.old) (B.faults base.old) (B.faults base.new) result }
{
    match base.view(alloc, key)? {
        Some(query) => {
            let expansion = expansion_of_view(alloc, base, who, key, &query, levels, found);
            drop(query);
            expansion
        }
        None => plain_expansion(alloc, base, who, key, attrs, found),
    }
}

/// The expansion of a view, which has this query. What is found of it is kept.
#[cycle(expansions)]
#[tactic(auto, using(crate::proofs::Viewing::few_listed, crate::proofs::Viewing::measure_of_view))]
fn expansion_of_view<B: Base>(
    alloc: Global,
    base: &mut B,
    who: Option<&Name>,
    key: &RelKey,
    query: &Query,
    levels: u8,
    found: &mut ExpansionsFound,
) -> Result<Expansion, ExpansionFault>
    requires stands { (db : Db) → B.database base.old ≡ Some db → Some query.now ≡ query_at db key.now }
    requires few { (db : Db) → B.database base.old ≡ Some db → (measure_within levels db key.now).variables ≤ 256 }
    requires found { (db : Db) → B.database base.old ≡ Some db → IsFound db (who_of (option_map (λ n. n.now) who)) found.old }
    ensures known { (db : Db) → B.database base.old ≡ Some db → IfOk result (IsExpansionOf db (who_of (option_map (λ n. n.now) who.entry)) key.now levels) }
    ensures scoped { IfOk result (λ expansion. is_scoped expansion ≡ true) }
    ensures found { (db : Db) → B.database base.old ≡ Some db → IsFound db (who_of (option_map (λ n. n.now) who.entry)) found.new }
    ensures kept { B.database base.new ≡ B.database base.old }
    ensures stays { (s : Db) → B.schema base.old ≡ Some s → B.schema base.new ≡ Some s }
    ensures asked { (b : B) → B.asked b base.old → B.asked b base.new }
    ensures cause { HasCause (λ db. (attrs : List ℕ) → permitted_within levels db (who_of (option_map (λ n. n.now) who.entry)) key.now attrs ≡ false) (B.database base.old) (B.faults base.old) (B.faults base.new) result }
{
    if levels == 0 {
        return Err(ExpansionFault::NoPermit);
    }
    match rows_through(alloc, base, who, query, levels - 1, found) {
        Ok(expansion) => match found.kept(alloc, key, levels, expansion) {
            Ok(expansion) => Ok(expansion),
            Err(_) => Err(ExpansionFault::OutOfMemory),
        },
        Err(error) => Err(error),
    }
}

/// The expansion of a query's rows, where the expansions of its variables go through at most so many levels.
#[cycle(expansions)]
pub(crate) fn rows_through<B: Base>(
    alloc: Global,
    base: &mut B,
    who: Option<&Name>,
    query: &Query,
    levels: u8,
    found: &mut ExpansionsFound,
) -> Result<Expansion, ExpansionFault>
    requires listed { (db : Db) → B.database base.old ≡ Some db → length (vars_of query.now) ≤ 256 }
    requires expanded { (db : Db) → B.database base.old ≡ Some db → (query_measure (measure_within levels db) query.now).variables ≤ 256 }
    requires found { (db : Db) → B.database base.old ≡ Some db → IsFound db (who_of (option_map (λ n. n.now) who)) found.old }
    ensures known { (db : Db) → B.database base.old ≡ Some db → IfOk result (λ expansion. expansion ≡ rows_expansion (query_expansions (expansion_within levels db (who_of (option_map (λ n. n.now) who.entry))) query.now) query.now) }
    ensures permitted { (db : Db) → B.database base.old ≡ Some db → OnOk result (vars_permitted (permitted_within levels db (who_of (option_map (λ n. n.now) who.entry))) query.now (used_vars query.now) ≡ true) }
    ensures scoped { IfOk result (λ expansion. is_scoped expansion ≡ true) }
    ensures found { (db : Db) → B.database base.old ≡ Some db → IsFound db (who_of (option_map (λ n. n.now) who.entry)) found.new }
    ensures kept { B.database base.new ≡ B.database base.old }
    ensures stays { (s : Db) → B.schema base.old ≡ Some s → B.schema base.new ≡ Some s }
    ensures asked { (b : B) → B.asked b base.old → B.asked b base.new }
    ensures cause { HasCause (λ db. vars_permitted (permitted_within levels db (who_of (option_map (λ n. n.now) who.entry))) query.now (used_vars query.now) ≡ false) (B.database base.old) (B.faults base.old) (B.faults base.new) result }
{
    let keys = query.vars.items();
    if keys.len() > PLACES {
        return Err(ExpansionFault::TooMany);
    }
    let mut expansions = Vec::new(alloc);
    match put_expansions(
        alloc,
        base,
        who,
        query,
        keys,
        levels,
        &mut expansions,
        found,
    ) {
        Ok(()) => rows_of(alloc, &expansions, query),
        Err(error) => Err(error),
    }
}

/// Puts the expansions of a query's variables, which range over these, behind those that are there.
#[cycle(expansions)]
pub(crate) fn put_expansions<B: Base>(
    alloc: Global,
    base: &mut B,
    who: Option<&Name>,
    query: &Query,
    keys: &[RelKey],
    levels: u8,
    expansions: &mut Vec<Expansion>,
    found: &mut ExpansionsFound,
) -> Result<(), ExpansionFault>
    requires listed { length keys.now ≤ 256 }
    requires expanded { (db : Db) → B.database base.old ≡ Some db → variables_at (measure_within levels db) query.now 0 keys.now ≤ 256 }
    requires found { (db : Db) → B.database base.old ≡ Some db → IsFound db (who_of (option_map (λ n. n.now) who)) found.old }
    ensures known { (db : Db) → B.database base.old ≡ Some db → OnOk result (expansions.new.items ≡ expansions.old.items ++ expansions_at (expansion_within levels db (who_of (option_map (λ n. n.now) who.entry))) query.now 0 keys.now) }
    ensures permitted { (db : Db) → B.database base.old ≡ Some db → OnOk result (permitted_at (permitted_within levels db (who_of (option_map (λ n. n.now) who.entry))) query.now 0 keys.now ≡ true) }
    ensures scoped { list_all is_scoped expansions.old.items ≡ true → OnOk result (list_all is_scoped expansions.new.items ≡ true) }
    ensures found { (db : Db) → B.database base.old ≡ Some db → IsFound db (who_of (option_map (λ n. n.now) who.entry)) found.new }
    ensures kept { B.database base.new ≡ B.database base.old }
    ensures stays { (s : Db) → B.schema base.old ≡ Some s → B.schema base.new ≡ Some s }
    ensures asked { (b : B) → B.asked b base.old → B.asked b base.new }
    ensures cause { HasCause (λ db. permitted_at (permitted_within levels db (who_of (option_map (λ n. n.now) who.entry))) query.now 0 keys.now ≡ false) (B.database base.old) (B.faults base.old) (B.faults base.new) result }
{
    let mut place: usize = 0;
    let mut rest = keys;
    'keys: while let Some((key, others)) = rest.split_first() {
        let more = expansion_at(alloc, base, who, query, place as u8, key, levels, found)?;
        put_behind(expansions, more)?;
        place += 1;
        rest = others;
    }
    Ok(())
}

/// The text of the query's variable at a place, which ranges over this; one that isn't used has none.
/// `NoPermit` exactly where it is used and may not be read. What was found before of views, for the same
/// one who asks, is made use of, and what is found is kept beside it.
#[cycle(expansions)]
pub fn expansion_at<B: Base>(
    alloc: Global,
    base: &mut B,
    who: Option<&Name>,
    query: &Query,
    place: u8,
    key: &RelKey,
    levels: u8,
    found: &mut ExpansionsFound,
) -> Result<Expansion, ExpansionFault>
    requires few { (db : Db) → B.database base.old ≡ Some db → is_any (used_in_query place query.now) ≡ true → (measure_within levels db key.now).variables ≤ 256 }
    requires found { (db : Db) → B.database base.old ≡ Some db → IsFound db (who_of (option_map (λ n. n.now) who)) found.old }
    ensures known { (db : Db) → B.database base.old ≡ Some db → IfOk result (λ expansion. expansion ≡ used_expansion (expansion_within levels db (who_of (option_map (λ n. n.now) who.entry))) key.now (used_in_query place query.now)) }
    ensures permitted { (db : Db) → B.database base.old ≡ Some db → OnOk result (is_any (used_in_query place query.now) ≡ true → permitted_within levels db (who_of (option_map (λ n. n.now) who.entry)) key.now (used_in_query place query.now) ≡ true) }
    ensures scoped { IfOk result (λ expansion. is_scoped expansion ≡ true) }
    ensures found { (db : Db) → B.database base.old ≡ Some db → IsFound db (who_of (option_map (λ n. n.now) who.entry)) found.new }
    ensures kept { B.database base.new ≡ B.database base.old }
    ensures stays { (s : Db) → B.schema base.old ≡ Some s → B.schema base.new ≡ Some s }
    ensures asked { (b : B) → B.asked b base.old → B.asked b base.new }
    ensures cause { HasCause (λ db. (is_any (used_in_query place query.now) ≡ true) × (permitted_within levels db (who_of (option_map (λ n. n.now) who.entry)) key.now (used_in_query place query.now) ≡ false)) (B.database base.old) (B.faults base.old) (B.faults base.new) result }
{
    let attrs = uses(alloc, query, place)?;
    if attrs.is_empty() {
        return Ok(no_expansion(alloc));
    }
    expansion_through(alloc, base, who, key, &attrs, levels, found)
}
