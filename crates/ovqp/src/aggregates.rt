//! The aggregates in a query.

ghost use Rattle.std.specs.Prelude.{◌≡◌, ◌++◌, flat_map, map, IfOk, OnOk};
ghost use Rattle.calculus.specs.QueryParts.{qual_aggregates, query_aggregates, term_aggregates};

use calculus::{OutOfMemory, QAgg, QQual, QTerm, Query, Target};
use std::alloc::Global;

/// Puts the aggregates in a term behind the others.
#[tactic(auto, using(crate::proofs::AggregateForms::in_int, crate::proofs::AggregateForms::in_chars, crate::proofs::AggregateForms::in_attr, crate::proofs::AggregateForms::in_neg, crate::proofs::AggregateForms::in_abs, crate::proofs::AggregateForms::in_agg))]
fn push_term<'a>(found: &mut Vec<&'a QAgg>, t: &'a QTerm) -> Result<(), OutOfMemory>
    ensures { OnOk result (map (λ g. g.now) found.new.items ≡ map (λ g. g.now) found.old.items ++ term_aggregates t.now) }
{
    match t {
        QTerm::Int(_) | QTerm::Chars(_) | QTerm::Attr { var: _, attr: _ } => Ok(()),
        QTerm::Neg(inner) | QTerm::Abs(inner) => push_term(found, inner.get()),
        QTerm::Arith { op: _, left, right } | QTerm::Concat { left, right } => {
            push_term(found, left.get())?;
            push_term(found, right.get())
        }
        QTerm::Agg(aggregate) => Ok(found.push(aggregate.get())?),
    }
}

/// Puts the aggregates in a qualification behind the others.
#[tactic(auto, using(crate::proofs::AggregateForms::in_true, crate::proofs::AggregateForms::in_like, crate::proofs::AggregateForms::in_not))]
fn push_qual<'a>(found: &mut Vec<&'a QAgg>, q: &'a QQual) -> Result<(), OutOfMemory>
    ensures { OnOk result (map (λ g. g.now) found.new.items ≡ map (λ g. g.now) found.old.items ++ qual_aggregates q.now) }
{
    match q {
        QQual::True => Ok(()),
        QQual::Cmp { op: _, left, right } => {
            push_term(found, left)?;
            push_term(found, right)
        }
        QQual::Like {
            term,
            pattern: _,
            same: _,
        } => push_term(found, term),
        QQual::And(left, right) | QQual::Or(left, right) => {
            push_qual(found, left.get())?;
            push_qual(found, right.get())
        }
        QQual::Not(inner) => push_qual(found, inner.get()),
    }
}

/// Puts the aggregates in targets behind the others.
fn push_targets<'a>(found: &mut Vec<&'a QAgg>, targets: &'a [Target]) -> Result<(), OutOfMemory>
    ensures { OnOk result (map (λ g. g.now) found.new.items ≡ map (λ g. g.now) found.old.items ++ flat_map (λ t. term_aggregates t.term) targets.now) }
{
    for target in targets {
        push_term(found, &target.term)?;
    }
    Ok(())
}

/// The aggregates in a query: those of the targets in their order, then those of the qualification.
pub fn aggregates_of<'a>(alloc: Global, query: &'a Query) -> Result<Vec<&'a QAgg>, OutOfMemory>
    ensures { IfOk result (λ found. map (λ g. g.now) found.items ≡ query_aggregates query.now) }
{
    let mut found: Vec<&'a QAgg> = Vec::new(alloc);
    match push_targets(&mut found, query.targets.items()) {
        Ok(()) => match push_qual(&mut found, &query.qual) {
            Ok(()) => Ok(found),
            Err(error) => Err(error),
        },
        Err(error) => Err(error),
    }
}
