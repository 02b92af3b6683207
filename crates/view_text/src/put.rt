//! Terms, qualifications and targets with their variables expanded.

ghost use Rattle.std.specs.Prelude.{◌≡◌, ◌+◌, ◌-◌, ◌≤◌, ◌++◌, true, map, length, IfOk, OnOk};
ghost use Rattle.std.specs.List.{list_all};
ghost use Rattle.view_text.specs.Fit.{AreFit};
ghost use Rattle.view_text.specs.Replaced.{aggregate_at, listed, shifted, no_aggregate, replaced, replaced_in_qual, replaced_target};
ghost use Rattle.view_text.specs.Scoped.{is_scoped, is_within};
ghost use Rattle.view_text.specs.Expansions.{attr_term, substituted_from, term_at, expansions_vars};

use crate::Expansion;
use crate::putting::Substitution;
use crate::replaced::{replaced_qual, replaced_term};
use crate::shifted::shifted_term;
use crate::tree_parts::{boxed, without_value};
use calculus::{OutOfMemory, QAgg, QQual, QTerm, Target, TryCopy};
use memory::both;
use std::alloc::Global;

/// The attribute at a place of the variable at a place, at most the 256th.
fn attribute(var: usize, attr: u8) -> QTerm
    requires { var ≤ 255 }
    ensures { result ≡ QTerm.Attr var attr }
{
    QTerm::Attr {
        var: var as u8,
        attr,
    }
}

/// The term at a place, its variables so many places further on; where there is none, one without value.
#[tactic(auto, using(crate::proofs::PutExpansion::term_there, crate::proofs::PutExpansion::term_missing, crate::proofs::PutExpansion::one_within))]
fn put_listed(alloc: Global, by: usize, terms: &[QTerm], place: u8) -> Result<QTerm, OutOfMemory>
    requires { list_all (is_within (256 - by)) terms.now ≡ true }
    ensures { IfOk result (λ t. t ≡ shifted by (term_at terms.now place)) }
{
    match terms.get(place as usize) {
        Some(term) => shifted_term(alloc, by, term),
        None => without_value(alloc),
    }
}

/// The term of an expansion's attribute, where the expansion's variables stand from this place on.
#[tactic(auto, using(crate::proofs::PutExpansion::own_shifted, crate::proofs::PutExpansion::none_has_variable, crate::proofs::PutExpansion::listed_shifted, crate::proofs::PutExpansion::listed_fit))]
fn put_own(
    alloc: Global,
    from: usize,
    expansion: &Expansion,
    attr: u8,
) -> Result<QTerm, OutOfMemory>
    requires scoped { is_scoped expansion.now ≡ true }
    requires fits { from + length expansion.now.vars ≤ 256 }
    ensures { IfOk result (λ t. t ≡ shifted from (attr_term expansion.now attr)) }
{
    match &expansion.terms {
        None => Ok(attribute(from, attr)),
        Some(terms) => put_listed(alloc, from, terms.items(), attr),
    }
}

/// The term of a variable's attribute, where the expansions' variables stand from this place on.
#[tactic(auto, using(crate::proofs::PutExpansion::put_first, crate::proofs::PutExpansion::put_next, crate::proofs::PutExpansion::fit_first, crate::proofs::PutExpansion::fit_next))]
fn put_at(
    alloc: Global,
    from: usize,
    expansions: &[Expansion],
    var: u8,
    attr: u8,
) -> Result<QTerm, OutOfMemory>
    requires { AreFit from expansions.now }
    ensures { IfOk result (λ t. t ≡ substituted_from from expansions.now var attr) }
{
    match expansions.split_first() {
        None => without_value(alloc),
        Some((expansion, others)) => {
            if var == 0 {
                put_own(alloc, from, expansion, attr)
            } else {
                let behind = from + expansion.vars.items().len();
                put_at(alloc, behind, others, var - 1, attr)
            }
        }
    }
}

/// The expansions of variables, by their places; no aggregate may stand in what they are put in.
#[derive(Drop)]
pub(crate) struct Texts<'a> {
    pub(crate) expansions: &'a [Expansion],
}

impl Substitution for Texts<'_> {
    ghost put = { λ them. substituted_from 0 them.expansions.now };

    ghost made = { λ _. no_aggregate };

    ghost fits = { λ them. AreFit 0 them.expansions.now };

    fn put_attribute(&self, alloc: Global, var: u8, attr: u8) -> Result<QTerm, OutOfMemory> {
        put_at(alloc, 0, self.expansions, var, attr)
    }

    fn expanded_aggregate(&self, alloc: Global, _aggregate: &QAgg) -> Result<QTerm, OutOfMemory> {
        without_value(alloc)
    }
}

/// The expansions of variables, by their places, and aggregates, by their slots.
#[derive(Drop)]
pub(crate) struct Whole<'a> {
    pub(crate) expansions: &'a [Expansion],
    pub(crate) aggregates: &'a [QAgg],
}

impl Substitution for Whole<'_> {
    ghost put = { λ them. substituted_from 0 them.expansions.now };

    ghost made = { λ them. listed them.aggregates.now };

    ghost fits = { λ them. AreFit 0 them.expansions.now };

    fn put_attribute(&self, alloc: Global, var: u8, attr: u8) -> Result<QTerm, OutOfMemory> {
        put_at(alloc, 0, self.expansions, var, attr)
    }

    fn expanded_aggregate(&self, alloc: Global, aggregate: &QAgg) -> Result<QTerm, OutOfMemory> {
        aggregate_at(alloc, self.aggregates, aggregate.slot)
    }
}

/// The aggregate at a slot among these; where there is none, a term without value.
fn aggregate_at(alloc: Global, aggregates: &[QAgg], slot: u16) -> Result<QTerm, OutOfMemory>
    ensures { IfOk result (λ t. t ≡ aggregate_at aggregates.now slot) }
{
    match aggregates.get(slot as usize) {
        Some(aggregate) => match boxed(alloc, aggregate.copy(alloc)) {
            Ok(aggregate) => Ok(QTerm::Agg(aggregate)),
            Err(error) => Err(error),
        },
        None => without_value(alloc),
    }
}

/// The term over the variables of these expansions, which stand one behind the other: the expansions' terms
/// stand in place of its attributes. An attribute that no expansion has, and an aggregate, become a term
/// without value.
pub fn substituted_term(
    alloc: Global,
    expansions: &[Expansion],
    t: &QTerm,
) -> Result<QTerm, OutOfMemory>
    requires scoped { list_all is_scoped expansions.now ≡ true }
    requires fits { length (expansions_vars expansions.now) ≤ 256 }
    ensures { IfOk result (λ made. made ≡ replaced no_aggregate (substituted_from 0 expansions.now) t.now) }
{
    replaced_term(alloc, &Texts { expansions }, t)
}

/// The qualification so.
pub fn substituted_qual(
    alloc: Global,
    expansions: &[Expansion],
    q: &QQual,
) -> Result<QQual, OutOfMemory>
    requires scoped { list_all is_scoped expansions.now ≡ true }
    requires fits { length (expansions_vars expansions.now) ≤ 256 }
    ensures { IfOk result (λ made. made ≡ replaced_in_qual no_aggregate (substituted_from 0 expansions.now) q.now) }
{
    replaced_qual(alloc, &Texts { expansions }, q)
}

/// The target with what is substituted for its attributes and aggregates: its name and its kind stay.
fn put_target<P: Substitution>(
    alloc: Global,
    putting: &P,
    target: &Target,
) -> Result<Target, OutOfMemory>
    requires { P.fits putting.now }
    ensures { IfOk result (λ made. made ≡ replaced_target (P.made putting.now) (P.put putting.now) target.now) }
{
    match both(
        target.name.copy(alloc),
        replaced_term(alloc, putting, &target.term),
    ) {
        Ok((name, term)) => Ok(Target {
            name,
            kind: target.kind,
            term,
        }),
        Err(error) => Err(error),
    }
}

/// Puts the targets so behind those that are there.
pub(crate) fn put_targets<P: Substitution>(
    alloc: Global,
    putting: &P,
    targets: &[Target],
    made: &mut Vec<Target>,
) -> Result<(), OutOfMemory>
    requires { P.fits putting.now }
    ensures { OnOk result (made.new.items ≡ made.old.items ++ map (replaced_target (P.made putting.now) (P.put putting.now)) targets.now) }
{
    for target in targets {
        made.push(put_target(alloc, putting, target)?)?;
    }
    Ok(())
}

/// Puts the terms of the targets, with its variables expanded, behind those that are there.
pub(crate) fn substituted_terms(
    alloc: Global,
    expansions: &[Expansion],
    targets: &[Target],
    made: &mut Vec<QTerm>,
) -> Result<(), OutOfMemory>
    requires scoped { list_all is_scoped expansions.now ≡ true }
    requires fits { length (expansions_vars expansions.now) ≤ 256 }
    ensures { OnOk result (made.new.items ≡ made.old.items ++ map (λ t. replaced no_aggregate (substituted_from 0 expansions.now) t.term) targets.now) }
{
    for target in targets {
        made.push(substituted_term(alloc, expansions, &target.term)?)?;
    }
    Ok(())
}
