//! Terms and qualifications with other terms in place of their attributes and aggregates.

ghost use Rattle.std.specs.Prelude.{◌≡◌, IfOk};
ghost use Rattle.view_text.specs.Replaced.{replaced, replaced_in_qual};

use crate::putting::Substitution;
use crate::tree_parts::{boxed, boxed_both};
use calculus::{Chars, OutOfMemory, QQual, QTerm};
use memory::both;
use std::alloc::Global;

/// A text constant.
fn constant(alloc: Global, chars: &Chars) -> Result<QTerm, OutOfMemory>
    ensures { IfOk result (λ copy. copy ≡ QTerm.Chars chars.now) }
{
    match chars.copy(alloc) {
        Ok(chars) => Ok(QTerm::Chars(chars)),
        Err(error) => Err(error),
    }
}

/// A text matched against a pattern.
fn like(alloc: Global, term: QTerm, pattern: &Chars, same: bool) -> Result<QQual, OutOfMemory>
    ensures { IfOk result (λ copy. copy ≡ QQual.Like term pattern.now same) }
{
    match both(Ok(term), pattern.copy(alloc)) {
        Ok((term, pattern)) => Ok(QQual::Like {
            term,
            pattern,
            same,
        }),
        Err(error) => Err(error),
    }
}

/// The term with what is substituted for its attributes and of its aggregates.
#[tactic(auto, using(crate::proofs::ReplacedForms::replaced_int, crate::proofs::ReplacedForms::replaced_chars, crate::proofs::ReplacedForms::replaced_attr, crate::proofs::ReplacedForms::replaced_neg, crate::proofs::ReplacedForms::replaced_abs, crate::proofs::ReplacedForms::replaced_arith, crate::proofs::ReplacedForms::replaced_concat, crate::proofs::ReplacedForms::replaced_agg))]
pub(crate) fn replaced_term<P: Substitution>(
    alloc: Global,
    putting: &P,
    t: &QTerm,
) -> Result<QTerm, OutOfMemory>
    requires { P.fits putting.now }
    ensures { IfOk result (λ made. made ≡ replaced (P.made putting.now) (P.put putting.now) t.now) }
{
    match t {
        QTerm::Int(number) => Ok(QTerm::Int(*number)),
        QTerm::Chars(chars) => constant(alloc, chars),
        QTerm::Attr { var, attr } => putting.put_attribute(alloc, *var, *attr),
        QTerm::Neg(inner) => match boxed(alloc, replaced_term(alloc, putting, inner.get())) {
            Ok(inner) => Ok(QTerm::Neg(inner)),
            Err(error) => Err(error),
        },
        QTerm::Abs(inner) => match boxed(alloc, replaced_term(alloc, putting, inner.get())) {
            Ok(inner) => Ok(QTerm::Abs(inner)),
            Err(error) => Err(error),
        },
        QTerm::Arith { op, left, right } => {
            let op = *op;
            let left = replaced_term(alloc, putting, left.get());
            match boxed_both(alloc, left, replaced_term(alloc, putting, right.get())) {
                Ok((left, right)) => Ok(QTerm::Arith { op, left, right }),
                Err(error) => Err(error),
            }
        }
        QTerm::Concat { left, right } => {
            let left = replaced_term(alloc, putting, left.get());
            match boxed_both(alloc, left, replaced_term(alloc, putting, right.get())) {
                Ok((left, right)) => Ok(QTerm::Concat { left, right }),
                Err(error) => Err(error),
            }
        }
        QTerm::Agg(aggregate) => putting.expanded_aggregate(alloc, aggregate.get()),
    }
}

/// The qualification so: a text constant that is put in is compared as a value, and is no pattern.
#[tactic(auto, using(crate::proofs::ReplacedForms::replaced_true, crate::proofs::ReplacedForms::replaced_cmp, crate::proofs::ReplacedForms::replaced_like, crate::proofs::ReplacedForms::replaced_and, crate::proofs::ReplacedForms::replaced_or, crate::proofs::ReplacedForms::replaced_not))]
pub(crate) fn replaced_qual<P: Substitution>(
    alloc: Global,
    putting: &P,
    q: &QQual,
) -> Result<QQual, OutOfMemory>
    requires { P.fits putting.now }
    ensures { IfOk result (λ made. made ≡ replaced_in_qual (P.made putting.now) (P.put putting.now) q.now) }
{
    match q {
        QQual::True => Ok(QQual::True),
        QQual::Cmp { op, left, right } => {
            let op = *op;
            let left = replaced_term(alloc, putting, left);
            match both(left, replaced_term(alloc, putting, right)) {
                Ok((left, right)) => Ok(QQual::Cmp { op, left, right }),
                Err(error) => Err(error),
            }
        }
        QQual::Like {
            term,
            pattern,
            same,
        } => match replaced_term(alloc, putting, term) {
            Ok(term) => like(alloc, term, pattern, *same),
            Err(error) => Err(error),
        },
        QQual::And(left, right) => {
            let left = replaced_qual(alloc, putting, left.get());
            match boxed_both(alloc, left, replaced_qual(alloc, putting, right.get())) {
                Ok((left, right)) => Ok(QQual::And(left, right)),
                Err(error) => Err(error),
            }
        }
        QQual::Or(left, right) => {
            let left = replaced_qual(alloc, putting, left.get());
            match boxed_both(alloc, left, replaced_qual(alloc, putting, right.get())) {
                Ok((left, right)) => Ok(QQual::Or(left, right)),
                Err(error) => Err(error),
            }
        }
        QQual::Not(inner) => match boxed(alloc, replaced_qual(alloc, putting, inner.get())) {
            Ok(inner) => Ok(QQual::Not(inner)),
            Err(error) => Err(error),
        },
    }
}
