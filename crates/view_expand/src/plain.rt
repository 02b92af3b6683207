//! The expansions of what no view is, and of a query whose texts are there.

ghost use Rattle.std.specs.Prelude.{◌≡◌, ◌<◌, ◌≤◌, true, false, Some, length, IfOk, IfErr, OnOk, option_map};
ghost use Rattle.std.specs.List.{list_all};
ghost use Rattle.std.specs.Option.{option_to_list};
ghost use Rattle.calculus.specs.Database.{Db};
ghost use Rattle.calculus.specs.Rights.{Retrieve, permitted};
ghost use Rattle.view_expand.specs.Asking.{who_of};
ghost use Rattle.view_expand.specs.Causes.{HasCause, IsCrowded};
ghost use Rattle.view_expand.specs.Found.{IsFound};
ghost use Rattle.view_text.specs.Expanded.{substituted_query};
ghost use Rattle.view_text.specs.Replaced.{no_aggregate};
ghost use Rattle.view_text.specs.Scoped.{is_qual_within, is_scoped};
ghost use Rattle.view_text.specs.ExpansionOf.{restriction, kept_expansion, rows_expansion};
ghost use Rattle.view_text.specs.Expansions.{no_expansion, expansions_vars};

use crate::row_restriction::restriction;
use crate::{ExpansionFault, ExpansionsFound, Right};
use base_trait::Base;
use calculus::{List, Name, OutOfMemory, QQual, Query, RelKey, TryCopy};
use memory::{alone, both};
use std::alloc::Global;
use view_text::{Expansion, rows_expansion, substituted_rows};

/// The variables that a query may number.
pub(crate) const PLACES: usize = 256;

/// The conditions, as a list of one or none.
fn conditions(alloc: Global, condition: Option<QQual>) -> Result<Vec<QQual>, OutOfMemory>
    ensures { IfOk result (λ list. list.items ≡ option_to_list condition) }
{
    match condition {
        Some(condition) => alone(alloc, condition),
        None => Ok(Vec::new(alloc)),
    }
}

/// The expansion of what has a key and is no view, with this condition on its rows.
#[tactic(auto, using(view_text::proofs::Scope::kept_scoped))]
fn kept(alloc: Global, key: &RelKey, condition: Option<QQual>) -> Result<Expansion, OutOfMemory>
    requires { list_all (is_qual_within 1) (option_to_list condition) ≡ true }
    ensures expansion { IfOk result (λ expansion. expansion ≡ kept_expansion (option_to_list condition) key.now) }
{
    let conditions = conditions(alloc, condition);
    let vars = match key.copy(alloc) {
        Ok(key) => alone(alloc, key),
        Err(error) => Err(error),
    };
    match both(vars, conditions) {
        Ok((vars, conditions)) => Ok(Expansion {
            vars: List::of(vars),
            terms: None,
            conditions: List::of(conditions),
        }),
        Err(error) => Err(error),
    }
}

/// The expansion of a variable that isn't used.
pub(crate) fn no_expansion(alloc: Global) -> Expansion
    ensures expansion { result ≡ no_expansion }
    ensures scoped { is_scoped result ≡ true }
{
    Expansion {
        vars: List::of(Vec::new(alloc)),
        terms: Some(List::of(Vec::new(alloc))),
        conditions: List::of(Vec::new(alloc)),
    }
}

/// The expansion of what has a key and is no view, with the condition on its rows with which one may read
/// these attributes.
#[tactic(auto, using(view_text::proofs::Scope::kept_scoped))]
pub(crate) fn plain_expansion<B: Base>(
    alloc: Global,
    base: &mut B,
    who: Option<&Name>,
    key: &RelKey,
    attrs: &[u8],
    found: &mut ExpansionsFound,
) -> Result<Expansion, ExpansionFault>
    requires found { (db : Db) → B.database base.old ≡ Some db → IsFound db (who_of (option_map (λ n. n.now) who)) found.old }
    ensures known { (db : Db) → B.database base.old ≡ Some db → IfOk result (λ expansion. expansion ≡ kept_expansion (restriction db (who_of (option_map (λ n. n.now) who.entry)) Retrieve attrs.now key.now) key.now) }
    ensures permitted { (db : Db) → B.database base.old ≡ Some db → OnOk result (permitted db (who_of (option_map (λ n. n.now) who.entry)) Retrieve attrs.now key.now ≡ true) }
    ensures scoped { IfOk result (λ expansion. is_scoped expansion ≡ true) }
    ensures found { (db : Db) → B.database base.old ≡ Some db → IsFound db (who_of (option_map (λ n. n.now) who.entry)) found.new }
    ensures kept { B.database base.new ≡ B.database base.old }
    ensures stays { (s : Db) → B.schema base.old ≡ Some s → B.schema base.new ≡ Some s }
    ensures asked { (b : B) → B.asked b base.old → B.asked b base.new }
    ensures cause { HasCause (λ db. permitted db (who_of (option_map (λ n. n.now) who.entry)) Retrieve attrs.now key.now ≡ false) (B.database base.old) (B.faults base.old) (B.faults base.new) result }
{
    match restriction(alloc, base, who, Right::Retrieve, attrs, key, found) {
        Ok(condition) => match kept(alloc, key, condition) {
            Ok(expansion) => Ok(expansion),
            Err(_) => Err(ExpansionFault::OutOfMemory),
        },
        Err(error) => Err(error),
    }
}

/// Whether the expansions have at most so many variables together.
#[tactic(auto, using(crate::proofs::Few::vars_before))]
fn are_few(expansions: &[Expansion], most: usize) -> bool
    ensures few { result ≡ true → length (expansions_vars expansions.now) ≤ most }
    ensures many { result ≡ false → most < length (expansions_vars expansions.now) }
{
    match expansions.split_first() {
        None => true,
        Some((expansion, others)) => {
            let some = expansion.vars.items().len();
            some <= most && are_few(others, most - some)
        }
    }
}

/// The expansion of a query's rows, where these are the expansions of its variables.
pub(crate) fn rows_of(
    alloc: Global,
    expansions: &[Expansion],
    query: &Query,
) -> Result<Expansion, ExpansionFault>
    requires { list_all is_scoped expansions.now ≡ true }
    ensures expansion { IfOk result (λ expansion. expansion ≡ rows_expansion expansions.now query.now) }
    ensures scoped { IfOk result (λ expansion. is_scoped expansion ≡ true) }
    ensures cause { IfErr result (IsCrowded (length (expansions_vars expansions.now))) }
{
    if !are_few(expansions, PLACES) {
        return Err(ExpansionFault::TooMany);
    }
    match rows_expansion(alloc, expansions, query) {
        Ok(expansion) => Ok(expansion),
        Err(_) => Err(ExpansionFault::OutOfMemory),
    }
}

/// The query over the variables of these expansions, which are those of its own.
pub(crate) fn query_over(
    alloc: Global,
    expansions: &[Expansion],
    query: &Query,
) -> Result<Query, ExpansionFault>
    requires { list_all is_scoped expansions.now ≡ true }
    ensures query { IfOk result (λ made. made ≡ substituted_query no_aggregate expansions.now query.now) }
    ensures cause { IfErr result (IsCrowded (length (expansions_vars expansions.now))) }
{
    if !are_few(expansions, PLACES) {
        return Err(ExpansionFault::TooMany);
    }
    match substituted_rows(alloc, expansions, query) {
        Ok(made) => Ok(made),
        Err(_) => Err(ExpansionFault::OutOfMemory),
    }
}
