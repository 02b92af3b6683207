//! The expansion of a query's rows, and a query over the variables of expansions.

ghost use Rattle.std.specs.Prelude.{◌≡◌, ◌≤◌, [], ◌∷◌, ◌++◌, true, map, length, IfOk, OnOk};
ghost use Rattle.std.specs.List.{list_all};
ghost use Rattle.calculus.specs.QueryParts.{qual_of, targets_of};
ghost use Rattle.calculus.specs.Tree.{query};
ghost use Rattle.view_text.specs.Halves.{all_of};
ghost use Rattle.view_text.specs.Expanded.{substituted_query};
ghost use Rattle.view_text.specs.Replaced.{listed, no_aggregate, replaced_in_qual, replaced_target};
ghost use Rattle.view_text.specs.Scoped.{is_scoped};
ghost use Rattle.view_text.specs.ExpansionOf.{has_value, substituted_terms, rows_expansion, settled};
ghost use Rattle.view_text.specs.Expansions.{conditions_from, substituted_from, expansions_vars};

use crate::put::{Texts, Whole, put_targets, substituted_terms};
use crate::putting::Substitution;
use crate::replaced::replaced_qual;
use crate::settled::settled;
use crate::{Expansion, all_of, conditions};
use calculus::{CmpOp, List, OutOfMemory, QAgg, QQual, QTerm, Query, RelKey, Target, TryCopy};
use memory::both;
use std::alloc::Global;

/// Puts copies of the keys behind those that are there.
fn put_keys(alloc: Global, keys: &[RelKey], made: &mut Vec<RelKey>) -> Result<(), OutOfMemory>
    ensures { OnOk result (made.new.items ≡ made.old.items ++ keys.now) }
{
    for key in keys {
        made.push(key.copy(alloc)?)?;
    }
    Ok(())
}

/// Puts what the expansions' variables range over behind those that are there.
fn put_vars(
    alloc: Global,
    expansions: &[Expansion],
    made: &mut Vec<RelKey>,
) -> Result<(), OutOfMemory>
    ensures { OnOk result (made.new.items ≡ made.old.items ++ expansions_vars expansions.now) }
{
    for expansion in expansions {
        put_keys(alloc, expansion.vars.items(), made)?;
    }
    Ok(())
}

/// That a term has a value: it is equal to itself.
fn has_value(alloc: Global, t: &QTerm) -> Result<QQual, OutOfMemory>
    ensures { IfOk result (λ q. q ≡ has_value t.now) }
{
    match both(t.copy(alloc), t.copy(alloc)) {
        Ok((left, right)) => Ok(QQual::Cmp {
            op: CmpOp::Eq,
            left,
            right,
        }),
        Err(error) => Err(error),
    }
}

/// Puts that each term has a value behind those that are there.
fn put_values(alloc: Global, terms: &[QTerm], made: &mut Vec<QQual>) -> Result<(), OutOfMemory>
    ensures { OnOk result (made.new.items ≡ made.old.items ++ map has_value terms.now) }
{
    for term in terms {
        made.push(has_value(alloc, term)?)?;
    }
    Ok(())
}

/// Puts the qualification, with what is put in, behind those that are there.
fn put_one<P: Substitution>(
    alloc: Global,
    putting: &P,
    qual: &QQual,
    made: &mut Vec<QQual>,
) -> Result<(), OutOfMemory>
    requires { P.fits putting.now }
    ensures { OnOk result (made.new.items ≡ made.old.items ++ replaced_in_qual (P.made putting.now) (P.put putting.now) qual.now ∷ []) }
{
    Ok(made.push(replaced_qual(alloc, putting, qual)?)?)
}

/// Puts the conditions of a query's rows, whose targets have become these terms, behind those that are there.
fn put_conditions<P: Substitution>(
    alloc: Global,
    putting: &P,
    expansions: &[Expansion],
    qual: &QQual,
    terms: &[QTerm],
    made: &mut Vec<QQual>,
) -> Result<(), OutOfMemory>
    requires put { P.fits putting.now }
    requires scoped { list_all is_scoped expansions.now ≡ true }
    requires fits { length (expansions_vars expansions.now) ≤ 256 }
    ensures { OnOk result (made.new.items ≡ made.old.items ++ replaced_in_qual (P.made putting.now) (P.put putting.now) qual.now ∷ (map has_value terms.now ++ conditions_from 0 expansions.now)) }
{
    put_one(alloc, putting, qual, made)?;
    put_values(alloc, terms, made)?;
    conditions(alloc, expansions, made)
}

/// Puts the parts of the expansion of a query's rows behind those that are there.
fn put_parts(
    alloc: Global,
    expansions: &[Expansion],
    query: &Query,
    vars: &mut Vec<RelKey>,
    terms: &mut Vec<QTerm>,
) -> Result<(), OutOfMemory>
    requires scoped { list_all is_scoped expansions.now ≡ true }
    requires fits { length (expansions_vars expansions.now) ≤ 256 }
    ensures vars { OnOk result (vars.new.items ≡ vars.old.items ++ expansions_vars expansions.now) }
    ensures terms { OnOk result (terms.new.items ≡ terms.old.items ++ substituted_terms expansions.now query.now) }
{
    put_vars(alloc, expansions, vars)?;
    substituted_terms(alloc, expansions, query.targets.items(), terms)
}

/// The conditions of a query's rows, whose targets have become these terms over these variables; where
/// there is none, whether they hold is settled.
fn settled_conditions(
    alloc: Global,
    expansions: &[Expansion],
    query: &Query,
    vars: &[RelKey],
    terms: &[QTerm],
) -> Result<Vec<QQual>, OutOfMemory>
    requires scoped { list_all is_scoped expansions.now ≡ true }
    requires fits { length (expansions_vars expansions.now) ≤ 256 }
    ensures { IfOk result (λ made. made.items ≡ settled vars.now (replaced_in_qual no_aggregate (substituted_from 0 expansions.now) (qual_of query.now) ∷ (map has_value terms.now ++ conditions_from 0 expansions.now))) }
{
    let mut made = Vec::new(alloc);
    match put_conditions(
        alloc,
        &Texts { expansions },
        expansions,
        &query.qual,
        terms,
        &mut made,
    ) {
        Ok(()) => settled(alloc, vars, made),
        Err(error) => Err(error),
    }
}

/// The expansion of a query's rows, where these are the expansions of its variables.
fn expansion_made(
    alloc: Global,
    expansions: &[Expansion],
    query: &Query,
) -> Result<Expansion, OutOfMemory>
    requires scoped { list_all is_scoped expansions.now ≡ true }
    requires fits { length (expansions_vars expansions.now) ≤ 256 }
    ensures { IfOk result (λ expansion. expansion ≡ rows_expansion expansions.now query.now) }
{
    let mut vars = Vec::new(alloc);
    let mut terms = Vec::new(alloc);
    let parts = put_parts(alloc, expansions, query, &mut vars, &mut terms);
    let rest = settled_conditions(alloc, expansions, query, &vars, &terms);
    match both(parts, rest) {
        Ok((_, conditions)) => Ok(Expansion {
            vars: List::of(vars),
            terms: Some(List::of(terms)),
            conditions: List::of(conditions),
        }),
        Err(error) => Err(error),
    }
}

/// The expansion of a query's rows, where these are the expansions of its variables, which stand one behind the
/// other: its qualification holds, each target has a value, and the conditions of the expansions hold. Where
/// there is no variable these conditions are evaluated: no condition is left where they hold, else one
/// that never holds. It names only its own variables.
#[tactic(auto, using(crate::proofs::Scope::rows_made_scoped))]
pub fn rows_expansion(
    alloc: Global,
    expansions: &[Expansion],
    query: &Query,
) -> Result<Expansion, OutOfMemory>
    requires scoped { list_all is_scoped expansions.now ≡ true }
    requires fits { length (expansions_vars expansions.now) ≤ 256 }
    ensures expansion { IfOk result (λ expansion. expansion ≡ rows_expansion expansions.now query.now) }
    ensures scoped { IfOk result (λ expansion. is_scoped expansion ≡ true) }
{
    match expansion_made(alloc, expansions, query) {
        Ok(expansion) => Ok(expansion),
        Err(error) => Err(error),
    }
}

/// The qualification of a query and the conditions of the expansions, all of which hold.
fn whole_qual<P: Substitution>(
    alloc: Global,
    putting: &P,
    expansions: &[Expansion],
    qual: &QQual,
) -> Result<QQual, OutOfMemory>
    requires put { P.fits putting.now }
    requires scoped { list_all is_scoped expansions.now ≡ true }
    requires fits { length (expansions_vars expansions.now) ≤ 256 }
    ensures { IfOk result (λ q. q ≡ all_of (replaced_in_qual (P.made putting.now) (P.put putting.now) qual.now ∷ conditions_from 0 expansions.now)) }
{
    let mut made = Vec::new(alloc);
    match put_conditions(alloc, putting, expansions, qual, &[], &mut made) {
        Ok(()) => all_of(alloc, made),
        Err(error) => Err(error),
    }
}

/// Puts what the expansions' variables range over, and the targets, behind those that are there.
fn put_targeted<P: Substitution>(
    alloc: Global,
    putting: &P,
    expansions: &[Expansion],
    query: &Query,
    vars: &mut Vec<RelKey>,
    targets: &mut Vec<Target>,
) -> Result<(), OutOfMemory>
    requires { P.fits putting.now }
    ensures vars { OnOk result (vars.new.items ≡ vars.old.items ++ expansions_vars expansions.now) }
    ensures targets { OnOk result (targets.new.items ≡ targets.old.items ++ map (replaced_target (P.made putting.now) (P.put putting.now)) (targets_of query.now)) }
{
    put_vars(alloc, expansions, vars)?;
    put_targets(alloc, putting, query.targets.items(), targets)
}

/// The query of these variables, targets and qualification.
#[tactic(auto, using(calculus::proofs::Forms::query_is))]
fn query_of(vars: Vec<RelKey>, targets: Vec<Target>, qual: QQual) -> Query
    ensures { result ≡ query vars.items targets.items qual }
{
    Query {
        vars: List::of(vars),
        targets: List::of(targets),
        qual,
    }
}

/// The query over the variables of these expansions, with what is substituted for its attributes and its
/// aggregates.
fn put_by<P: Substitution>(
    alloc: Global,
    putting: &P,
    expansions: &[Expansion],
    asked: &Query,
) -> Result<Query, OutOfMemory>
    requires put { P.fits putting.now }
    requires scoped { list_all is_scoped expansions.now ≡ true }
    requires fits { length (expansions_vars expansions.now) ≤ 256 }
    ensures { IfOk result (λ made. made ≡ query (expansions_vars expansions.now) (map (replaced_target (P.made putting.now) (P.put putting.now)) (targets_of asked.now)) (all_of (replaced_in_qual (P.made putting.now) (P.put putting.now) (qual_of asked.now) ∷ conditions_from 0 expansions.now))) }
{
    let mut vars = Vec::new(alloc);
    let mut targets = Vec::new(alloc);
    let filled = put_targeted(alloc, putting, expansions, asked, &mut vars, &mut targets);
    match both(filled, whole_qual(alloc, putting, expansions, &asked.qual)) {
        Ok((_, qual)) => Ok(query_of(vars, targets, qual)),
        Err(error) => Err(error),
    }
}

/// The query over the variables of these expansions, one for each of its own: their terms stand in place of
/// its attributes, and their conditions hold too. An aggregate becomes a term without value.
pub fn substituted_rows(
    alloc: Global,
    expansions: &[Expansion],
    query: &Query,
) -> Result<Query, OutOfMemory>
    requires scoped { list_all is_scoped expansions.now ≡ true }
    requires fits { length (expansions_vars expansions.now) ≤ 256 }
    ensures { IfOk result (λ made. made ≡ substituted_query no_aggregate expansions.now query.now) }
{
    put_by(alloc, &Texts { expansions }, expansions, query)
}

/// The query over the variables of these expansions so, with these aggregates, by their slots, in place of
/// its own; one at whose slot there is none becomes a term without value.
pub fn substituted_whole(
    alloc: Global,
    expansions: &[Expansion],
    aggregates: &[QAgg],
    query: &Query,
) -> Result<Query, OutOfMemory>
    requires scoped { list_all is_scoped expansions.now ≡ true }
    requires fits { length (expansions_vars expansions.now) ≤ 256 }
    ensures { IfOk result (λ made. made ≡ substituted_query (listed aggregates.now) expansions.now query.now) }
{
    put_by(
        alloc,
        &Whole {
            expansions,
            aggregates,
        },
        expansions,
        query,
    )
}
