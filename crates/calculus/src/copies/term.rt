//! Copies of terms and qualifications as they are written.

ghost use Rattle.std.specs.Prelude.{◌≡◌, IfOk};

use super::parts::{boxed, boxed_both, copy_both};
use crate::{AggTerm, Chars, Name, OutOfMemory, Qual, Term};
use memory::{List, TryCopy, both};
use std::alloc::Global;

fn copy_chars(alloc: Global, chars: &Chars) -> Result<Term, OutOfMemory>
    ensures { IfOk result (λ copy. copy ≡ Term.Chars chars.now) }
{
    match chars.copy(alloc) {
        Ok(chars) => Ok(Term::Chars(chars)),
        Err(error) => Err(error),
    }
}

fn copy_attribute(alloc: Global, var: &Name, attr: &Name) -> Result<Term, OutOfMemory>
    ensures { IfOk result (λ copy. copy ≡ Term.Attr var.now attr.now) }
{
    match copy_both(alloc, var, attr) {
        Ok((var, attr)) => Ok(Term::Attr { var, attr }),
        Err(error) => Err(error),
    }
}

#[cycle(copy)]
fn copy_term(alloc: Global, term: &Term) -> Result<Term, OutOfMemory>
    ensures { IfOk result (λ t. t ≡ term.now) }
{
    match term {
        Term::Int(number) => Ok(Term::Int(*number)),
        Term::Chars(chars) => copy_chars(alloc, chars),
        Term::Attr { var, attr } => copy_attribute(alloc, var, attr),
        Term::Neg(inner) => match boxed(alloc, copy_term(alloc, inner.get())) {
            Ok(inner) => Ok(Term::Neg(inner)),
            Err(error) => Err(error),
        },
        Term::Abs(inner) => match boxed(alloc, copy_term(alloc, inner.get())) {
            Ok(inner) => Ok(Term::Abs(inner)),
            Err(error) => Err(error),
        },
        Term::Arith { op, left, right } => {
            let op = *op;
            let left = copy_term(alloc, left.get());
            match boxed_both(alloc, left, copy_term(alloc, right.get())) {
                Ok((left, right)) => Ok(Term::Arith { op, left, right }),
                Err(error) => Err(error),
            }
        }
        Term::Concat { left, right } => {
            let left = copy_term(alloc, left.get());
            match boxed_both(alloc, left, copy_term(alloc, right.get())) {
                Ok((left, right)) => Ok(Term::Concat { left, right }),
                Err(error) => Err(error),
            }
        }
        Term::Agg(agg) => match boxed(alloc, copy_agg(alloc, agg.get())) {
            Ok(agg) => Ok(Term::Agg(agg)),
            Err(error) => Err(error),
        },
    }
}

#[cycle(copy)]
fn copy_terms(alloc: Global, terms: &[Term]) -> Result<List<Term>, OutOfMemory>
    ensures { IfOk result (λ ts. ts ≡ terms.now) }
{
    let mut copies = Vec::new(alloc);
    for term in terms {
        copies.push(copy_term(alloc, term)?)?;
    }
    Ok(List::of(copies))
}

#[cycle(copy)]
fn copy_agg(alloc: Global, agg: &AggTerm) -> Result<AggTerm, OutOfMemory>
    ensures { IfOk result (λ a. a ≡ agg.now) }
{
    let arg = copy_term(alloc, &agg.arg);
    let by = copy_terms(alloc, agg.by.items());
    let qual = copy_qual(alloc, &agg.qual);
    match both(arg, both(by, qual)) {
        Ok((arg, (by, qual))) => Ok(AggTerm {
            op: agg.op,
            arg,
            by,
            qual,
        }),
        Err(error) => Err(error),
    }
}

#[cycle(copy)]
fn copy_qual(alloc: Global, qual: &Qual) -> Result<Qual, OutOfMemory>
    ensures { IfOk result (λ q. q ≡ qual.now) }
{
    match qual {
        Qual::True => Ok(Qual::True),
        Qual::Cmp { op, left, right } => {
            let op = *op;
            match both(copy_term(alloc, left), copy_term(alloc, right)) {
                Ok((left, right)) => Ok(Qual::Cmp { op, left, right }),
                Err(error) => Err(error),
            }
        }
        Qual::And(left, right) => {
            let left = copy_qual(alloc, left.get());
            match boxed_both(alloc, left, copy_qual(alloc, right.get())) {
                Ok((left, right)) => Ok(Qual::And(left, right)),
                Err(error) => Err(error),
            }
        }
        Qual::Or(left, right) => {
            let left = copy_qual(alloc, left.get());
            match boxed_both(alloc, left, copy_qual(alloc, right.get())) {
                Ok((left, right)) => Ok(Qual::Or(left, right)),
                Err(error) => Err(error),
            }
        }
        Qual::Not(inner) => match boxed(alloc, copy_qual(alloc, inner.get())) {
            Ok(inner) => Ok(Qual::Not(inner)),
            Err(error) => Err(error),
        },
    }
}

impl TryCopy for Term {
    fn copy(&self, alloc: Global) -> Result<Term, OutOfMemory> {
        copy_term(alloc, self)
    }
}

impl TryCopy for AggTerm {
    fn copy(&self, alloc: Global) -> Result<AggTerm, OutOfMemory> {
        copy_agg(alloc, self)
    }
}

impl TryCopy for Qual {
    fn copy(&self, alloc: Global) -> Result<Qual, OutOfMemory> {
        copy_qual(alloc, self)
    }
}
