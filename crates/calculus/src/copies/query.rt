//! Copies of queries.

ghost use Rattle.std.specs.Prelude.{◌≡◌, IfOk};

use super::parts::{boxed, boxed_both};
use crate::{AggSource, Chars, OutOfMemory, QAgg, QQual, QTerm, Query, Target};
use memory::{List, TryCopy, both};
use std::alloc::Global;

fn copy_chars(alloc: Global, chars: &Chars) -> Result<QTerm, OutOfMemory>
    ensures { IfOk result (λ copy. copy ≡ QTerm.Chars chars.now) }
{
    match chars.copy(alloc) {
        Ok(chars) => Ok(QTerm::Chars(chars)),
        Err(error) => Err(error),
    }
}

fn like(alloc: Global, term: QTerm, pattern: &Chars, same: bool) -> Result<QQual, OutOfMemory>
    ensures { IfOk result (λ copy. copy ≡ QQual.Like term pattern.now same) }
{
    match both(Ok(term), pattern.copy(alloc)) {
        Ok((term, pattern)) => Ok(QQual::Like {
            term,
            pattern,
            same,
        }),
        Err(error) => Err(error),
    }
}

fn place(var: u8, attr: u8) -> QTerm
    ensures { result ≡ QTerm.Attr var attr }
{
    QTerm::Attr { var, attr }
}

#[cycle(copy)]
fn copy_term(alloc: Global, term: &QTerm) -> Result<QTerm, OutOfMemory>
    ensures { IfOk result (λ t. t ≡ term.now) }
{
    match term {
        QTerm::Int(number) => Ok(QTerm::Int(*number)),
        QTerm::Chars(chars) => copy_chars(alloc, chars),
        QTerm::Attr { var, attr } => Ok(place(*var, *attr)),
        QTerm::Neg(inner) => match boxed(alloc, copy_term(alloc, inner.get())) {
            Ok(inner) => Ok(QTerm::Neg(inner)),
            Err(error) => Err(error),
        },
        QTerm::Abs(inner) => match boxed(alloc, copy_term(alloc, inner.get())) {
            Ok(inner) => Ok(QTerm::Abs(inner)),
            Err(error) => Err(error),
        },
        QTerm::Arith { op, left, right } => {
            let op = *op;
            let left = copy_term(alloc, left.get());
            match boxed_both(alloc, left, copy_term(alloc, right.get())) {
                Ok((left, right)) => Ok(QTerm::Arith { op, left, right }),
                Err(error) => Err(error),
            }
        }
        QTerm::Concat { left, right } => {
            let left = copy_term(alloc, left.get());
            match boxed_both(alloc, left, copy_term(alloc, right.get())) {
                Ok((left, right)) => Ok(QTerm::Concat { left, right }),
                Err(error) => Err(error),
            }
        }
        QTerm::Agg(agg) => match boxed(alloc, copy_agg(alloc, agg.get())) {
            Ok(agg) => Ok(QTerm::Agg(agg)),
            Err(error) => Err(error),
        },
    }
}

#[cycle(copy)]
fn copy_terms(alloc: Global, terms: &[QTerm]) -> Result<List<QTerm>, OutOfMemory>
    ensures { IfOk result (λ ts. ts ≡ terms.now) }
{
    let mut copies = Vec::new(alloc);
    for term in terms {
        copies.push(copy_term(alloc, term)?)?;
    }
    Ok(List::of(copies))
}

#[cycle(copy)]
fn copy_qual(alloc: Global, qual: &QQual) -> Result<QQual, OutOfMemory>
    ensures { IfOk result (λ q. q ≡ qual.now) }
{
    match qual {
        QQual::True => Ok(QQual::True),
        QQual::Cmp { op, left, right } => {
            let op = *op;
            match both(copy_term(alloc, left), copy_term(alloc, right)) {
                Ok((left, right)) => Ok(QQual::Cmp { op, left, right }),
                Err(error) => Err(error),
            }
        }
        QQual::Like {
            term,
            pattern,
            same,
        } => match copy_term(alloc, term) {
            Ok(term) => like(alloc, term, pattern, *same),
            Err(error) => Err(error),
        },
        QQual::And(left, right) => {
            let left = copy_qual(alloc, left.get());
            match boxed_both(alloc, left, copy_qual(alloc, right.get())) {
                Ok((left, right)) => Ok(QQual::And(left, right)),
                Err(error) => Err(error),
            }
        }
        QQual::Or(left, right) => {
            let left = copy_qual(alloc, left.get());
            match boxed_both(alloc, left, copy_qual(alloc, right.get())) {
                Ok((left, right)) => Ok(QQual::Or(left, right)),
                Err(error) => Err(error),
            }
        }
        QQual::Not(inner) => match boxed(alloc, copy_qual(alloc, inner.get())) {
            Ok(inner) => Ok(QQual::Not(inner)),
            Err(error) => Err(error),
        },
    }
}

#[cycle(copy)]
fn copy_agg(alloc: Global, agg: &QAgg) -> Result<QAgg, OutOfMemory>
    ensures { IfOk result (λ a. a ≡ agg.now) }
{
    let source = copy_source(alloc, &agg.source);
    let by = copy_terms(alloc, agg.by.items());
    let link = copy_terms(alloc, agg.link.items());
    let lists = both(by, link);
    let body = both(copy_term(alloc, &agg.arg), copy_qual(alloc, &agg.qual));
    match both(source, both(lists, body)) {
        Ok((source, ((by, link), (arg, qual)))) => Ok(QAgg {
            slot: agg.slot,
            op: agg.op,
            source,
            arg,
            by,
            link,
            qual,
        }),
        Err(error) => Err(error),
    }
}

#[cycle(copy)]
fn copy_source(alloc: Global, source: &AggSource) -> Result<AggSource, OutOfMemory>
    ensures { IfOk result (λ s. s ≡ source.now) }
{
    match source {
        AggSource::Named(key) => match key.copy(alloc) {
            Ok(key) => Ok(AggSource::Named(key)),
            Err(error) => Err(error),
        },
        AggSource::Rows(query) => match boxed(alloc, copy_query(alloc, query.get())) {
            Ok(query) => Ok(AggSource::Rows(query)),
            Err(error) => Err(error),
        },
    }
}

#[cycle(copy)]
fn copy_target(alloc: Global, target: &Target) -> Result<Target, OutOfMemory>
    ensures { IfOk result (λ t. t ≡ target.now) }
{
    match both(target.name.copy(alloc), copy_term(alloc, &target.term)) {
        Ok((name, term)) => Ok(Target {
            name,
            kind: target.kind,
            term,
        }),
        Err(error) => Err(error),
    }
}

#[cycle(copy)]
fn copy_targets(alloc: Global, targets: &[Target]) -> Result<List<Target>, OutOfMemory>
    ensures { IfOk result (λ ts. ts ≡ targets.now) }
{
    let mut copies = Vec::new(alloc);
    for target in targets {
        copies.push(copy_target(alloc, target)?)?;
    }
    Ok(List::of(copies))
}

#[cycle(copy)]
fn copy_query(alloc: Global, query: &Query) -> Result<Query, OutOfMemory>
    ensures { IfOk result (λ q. q ≡ query.now) }
{
    let targets = copy_targets(alloc, query.targets.items());
    let rest = both(targets, copy_qual(alloc, &query.qual));
    match both(query.vars.copy(alloc), rest) {
        Ok((vars, (targets, qual))) => Ok(Query {
            vars,
            targets,
            qual,
        }),
        Err(error) => Err(error),
    }
}

impl TryCopy for QTerm {
    fn copy(&self, alloc: Global) -> Result<QTerm, OutOfMemory> {
        copy_term(alloc, self)
    }
}

impl TryCopy for QQual {
    fn copy(&self, alloc: Global) -> Result<QQual, OutOfMemory> {
        copy_qual(alloc, self)
    }
}

impl TryCopy for QAgg {
    fn copy(&self, alloc: Global) -> Result<QAgg, OutOfMemory> {
        copy_agg(alloc, self)
    }
}

impl TryCopy for AggSource {
    fn copy(&self, alloc: Global) -> Result<AggSource, OutOfMemory> {
        copy_source(alloc, self)
    }
}

impl TryCopy for Target {
    fn copy(&self, alloc: Global) -> Result<Target, OutOfMemory> {
        copy_target(alloc, self)
    }
}

impl TryCopy for Query {
    fn copy(&self, alloc: Global) -> Result<Query, OutOfMemory> {
        copy_query(alloc, self)
    }
}
