//! Trees as bytes: numbers and places as digits, an attribute as `VARIABLE.ATTRIBUTE`, an aggregate as
//! `{SLOT:ARGUMENT}`; a question mark for what no test here has.

use calculus::{ArithOp, CmpOp, QAgg, QQual, QTerm, Query, RelKey};
use std::process::Abort;
use view_text::Expansion;

/// Puts bytes behind the others.
fn put(rt: &impl Abort, written: &mut Vec<u8>, bytes: &[u8]) {
    written.extend_from_slice(bytes).expect(rt, "memory");
}

/// Puts a number of one digit behind the others; a question mark for all that are greater.
fn put_digit(rt: &impl Abort, written: &mut Vec<u8>, number: u8) {
    let digit = if number < 10 { b'0' + number } else { b'?' };
    put(rt, written, &[digit]);
}

fn put_number(rt: &impl Abort, written: &mut Vec<u8>, number: i64) {
    put_digit(rt, written, u8::try_from(number).unwrap_or(10));
}

fn put_attribute(rt: &impl Abort, written: &mut Vec<u8>, var: u8, attr: u8) {
    put_digit(rt, written, var);
    put(rt, written, b".");
    put_digit(rt, written, attr);
}

fn put_aggregate(rt: &impl Abort, written: &mut Vec<u8>, aggregate: &QAgg) {
    put(rt, written, b"{");
    put_digit(rt, written, u8::try_from(aggregate.slot).unwrap_or(10));
    put(rt, written, b":");
    match aggregate.arg {
        QTerm::Int(number) => put_number(rt, written, number),
        _ => put(rt, written, b"?"),
    }
    put(rt, written, b"}");
}

/// Puts a term behind the others.
pub(crate) fn put_term(rt: &impl Abort, written: &mut Vec<u8>, term: &QTerm) {
    match term {
        QTerm::Int(number) => put_number(rt, written, *number),
        QTerm::Attr { var, attr } => put_attribute(rt, written, *var, *attr),
        QTerm::Agg(aggregate) => put_aggregate(rt, written, aggregate.get()),
        QTerm::Arith {
            op: ArithOp::Div,
            left,
            right,
        } => {
            put_term(rt, written, left.get());
            put(rt, written, b"/");
            put_term(rt, written, right.get());
        }
        _ => put(rt, written, b"?"),
    }
}

fn comparison(op: CmpOp) -> &'static [u8] {
    match op {
        CmpOp::Eq => b"=".as_slice(),
        CmpOp::Lt => b"<".as_slice(),
        _ => b"?".as_slice(),
    }
}

/// Puts a qualification behind the others.
pub(crate) fn put_qual(rt: &impl Abort, written: &mut Vec<u8>, qual: &QQual) {
    match qual {
        QQual::True => put(rt, written, b"true"),
        QQual::Cmp { op, left, right } => {
            put_term(rt, written, left);
            put(rt, written, comparison(*op));
            put_term(rt, written, right);
        }
        QQual::And(left, right) => {
            put(rt, written, b"(");
            put_qual(rt, written, left.get());
            put(rt, written, b" & ");
            put_qual(rt, written, right.get());
            put(rt, written, b")");
        }
        QQual::Or(left, right) => {
            put(rt, written, b"(");
            put_qual(rt, written, left.get());
            put(rt, written, b" | ");
            put_qual(rt, written, right.get());
            put(rt, written, b")");
        }
        QQual::Not(inner) => {
            put(rt, written, b"!");
            put_qual(rt, written, inner.get());
        }
        QQual::Like { .. } => put(rt, written, b"?"),
    }
}

/// Puts the names of relations behind the others.
fn put_keys(rt: &impl Abort, written: &mut Vec<u8>, keys: &[RelKey]) {
    for key in keys {
        put(rt, written, key.name.bytes());
        put(rt, written, b" ");
    }
    put(rt, written, b"; ");
}

fn put_terms(rt: &impl Abort, written: &mut Vec<u8>, terms: &[QTerm]) {
    for term in terms {
        put_term(rt, written, term);
        put(rt, written, b" ");
    }
    put(rt, written, b"; ");
}

fn put_conditions(rt: &impl Abort, written: &mut Vec<u8>, conditions: &[QQual]) {
    for condition in conditions {
        put_qual(rt, written, condition);
        put(rt, written, b" ");
    }
}

/// Puts what a text's variables range over, its terms and its conditions behind the others.
pub(crate) fn put_text(rt: &impl Abort, written: &mut Vec<u8>, text: &Expansion) {
    put_keys(rt, written, text.vars.items());
    match &text.terms {
        Some(terms) => put_terms(rt, written, terms.items()),
        None => put(rt, written, b"own ; "),
    }
    put_conditions(rt, written, text.conditions.items());
}

/// Puts what a query's variables range over, its targets and its qualification behind the others.
pub(crate) fn put_query(rt: &impl Abort, written: &mut Vec<u8>, query: &Query) {
    put_keys(rt, written, query.vars.items());
    for target in query.targets.items() {
        put(rt, written, target.name.bytes());
        put(rt, written, b"=");
        put_term(rt, written, &target.term);
        put(rt, written, b" ");
    }
    put(rt, written, b"; ");
    put_qual(rt, written, &query.qual);
}
