//! Trees as bytes: places as digits, `VARIABLE.ATTRIBUTE`, and a question mark for what no test has.

use calculus::{AggOp, AggSource, CmpOp, QAgg, QQual, QTerm, Query, RelKey, Target};
use std::process::Abort;

/// Puts bytes behind the others.
pub(crate) fn put<R: Abort>(rt: &R, written: &mut Vec<u8>, bytes: &[u8]) {
    written.extend_from_slice(bytes).expect(rt, "memory");
}

/// The digit of a number below 10.
pub(crate) fn digit(number: u8) -> u8 {
    number.saturating_add(b'0')
}

/// Puts a term without aggregates behind the others.
pub(crate) fn put_term<R: Abort>(rt: &R, written: &mut Vec<u8>, term: &QTerm) {
    match term {
        QTerm::Int(number) => match u8::try_from(*number) {
            Ok(number) => put(rt, written, &[digit(number)]),
            Err(_) => put(rt, written, b"?"),
        },
        QTerm::Attr { var, attr } => put(rt, written, &[digit(*var), b'.', digit(*attr)]),
        _ => put(rt, written, b"?"),
    }
}

fn sign(op: CmpOp) -> &'static [u8] {
    match op {
        CmpOp::Eq => b"=",
        CmpOp::Gt => b">",
        _ => b"?",
    }
}

/// Puts a qualification without aggregates behind the others.
pub(crate) fn put_qual<R: Abort>(rt: &R, written: &mut Vec<u8>, qual: &QQual) {
    match qual {
        QQual::True => put(rt, written, b"true"),
        QQual::Cmp { op, left, right } => {
            put_term(rt, written, left);
            put(rt, written, sign(*op));
            put_term(rt, written, right);
        }
        QQual::And(left, right) => {
            put_qual(rt, written, left.get());
            put(rt, written, b" and ");
            put_qual(rt, written, right.get());
        }
        QQual::Not(inner) => {
            put(rt, written, b"not ");
            put_qual(rt, written, inner.get());
        }
        _ => put(rt, written, b"?"),
    }
}

/// Puts the names of these keys behind the others.
pub(crate) fn put_vars<R: Abort>(rt: &R, written: &mut Vec<u8>, keys: &[RelKey]) {
    for key in keys {
        put(rt, written, key.name.bytes());
        put(rt, written, b" ");
    }
}

/// Puts terms without aggregates behind the others.
pub(crate) fn put_terms<R: Abort>(rt: &R, written: &mut Vec<u8>, terms: &[QTerm]) {
    for term in terms {
        put(rt, written, b" ");
        put_term(rt, written, term);
    }
}

/// Puts a query without aggregates, of which an aggregate takes the rows.
fn put_rows<R: Abort>(rt: &R, written: &mut Vec<u8>, query: &Query) {
    put(rt, written, b"[");
    put_vars(rt, written, query.vars.items());
    put(rt, written, b"|");
    for target in query.targets.items() {
        put(rt, written, b" ");
        put_term(rt, written, &target.term);
    }
    put(rt, written, b" | ");
    put_qual(rt, written, &query.qual);
    put(rt, written, b"]");
}

fn put_source<R: Abort>(rt: &R, written: &mut Vec<u8>, source: &AggSource) {
    match source {
        AggSource::Named(key) => put(rt, written, key.name.bytes()),
        AggSource::Rows(query) => put_rows(rt, written, query.get()),
    }
}

fn name_of(op: AggOp) -> &'static [u8] {
    match op {
        AggOp::Count => b"count",
        AggOp::Max => b"max",
        _ => b"?",
    }
}

/// Puts an aggregate: its operation with its slot, its argument, its source, its by-list, what chooses
/// the group, and its qualification.
fn put_aggregate<R: Abort>(rt: &R, written: &mut Vec<u8>, g: &QAgg) {
    put(rt, written, name_of(g.op));
    put(rt, written, &[digit(u8::try_from(g.slot).unwrap_or(255))]);
    put(rt, written, b"(");
    put_term(rt, written, &g.arg);
    put(rt, written, b" of ");
    put_source(rt, written, &g.source);
    put(rt, written, b" by");
    put_terms(rt, written, g.by.items());
    put(rt, written, b" for");
    put_terms(rt, written, g.link.items());
    put(rt, written, b" where ");
    put_qual(rt, written, &g.qual);
    put(rt, written, b")");
}

fn put_target<R: Abort>(rt: &R, written: &mut Vec<u8>, target: &Target) {
    put(rt, written, b" ");
    match &target.term {
        QTerm::Agg(g) => put_aggregate(rt, written, g.get()),
        term => put_term(rt, written, term),
    }
}

/// Puts a query: what its variables range over, its targets, and its qualification.
pub(crate) fn put_query<R: Abort>(rt: &R, written: &mut Vec<u8>, query: &Query) {
    put_vars(rt, written, query.vars.items());
    put(rt, written, b"|");
    for target in query.targets.items() {
        put_target(rt, written, target);
    }
    put(rt, written, b" | ");
    put_qual(rt, written, &query.qual);
}
