//! Trees as bytes: places as digits, `VARIABLE.ATTRIBUTE`.

use crate::shown::put;
use calculus::{ArithOp, Asked, Domain, Kind, QQual, QTerm, Query, RelKey, Target};
use std::process::Abort;

/// Puts a number of one digit behind the others; a question mark for all that are greater.
pub(crate) fn put_digit(rt: &impl Abort, shown: &mut Vec<u8>, number: u8) {
    let digit = if number < 10 { b'0' + number } else { b'?' };
    put(rt, shown, &[digit]);
}

pub(crate) fn put_term(rt: &impl Abort, shown: &mut Vec<u8>, term: &QTerm) {
    match term {
        QTerm::Attr { var, attr } => {
            put_digit(rt, shown, *var);
            put(rt, shown, b".");
            put_digit(rt, shown, *attr);
        }
        QTerm::Neg(inner) => {
            put(rt, shown, b"-");
            put_term(rt, shown, inner.get());
        }
        QTerm::Arith {
            op: ArithOp::Sub,
            left,
            right,
        } => {
            put_term(rt, shown, left.get());
            put(rt, shown, b" - ");
            put_term(rt, shown, right.get());
        }
        _ => put(rt, shown, b"?"),
    }
}

/// Puts a match with a pattern, or what is joined of such, behind the others; a question mark for what
/// compares terms.
pub(crate) fn put_qual(rt: &impl Abort, shown: &mut Vec<u8>, qual: &QQual) {
    match qual {
        QQual::True => put(rt, shown, b"true"),
        QQual::Like {
            term,
            pattern,
            same: true,
        } => {
            put_term(rt, shown, term);
            put(rt, shown, b" like ");
            put(rt, shown, pattern.bytes());
        }
        QQual::And(left, right) => {
            put_qual(rt, shown, left.get());
            put(rt, shown, b" and ");
            put_qual(rt, shown, right.get());
        }
        QQual::Or(left, right) => {
            put(rt, shown, b"(");
            put_qual(rt, shown, left.get());
            put(rt, shown, b" or ");
            put_qual(rt, shown, right.get());
            put(rt, shown, b")");
        }
        _ => put(rt, shown, b"?"),
    }
}

fn kind_of(target: &Target) -> &'static [u8] {
    match target.kind {
        Kind::Wide => b" wide ".as_slice(),
        Kind::Of(Domain::I2) => b" i2 ".as_slice(),
        _ => b" ? ".as_slice(),
    }
}

pub(crate) fn put_key(rt: &impl Abort, shown: &mut Vec<u8>, key: &RelKey) {
    put(rt, shown, key.owner.bytes());
    put(rt, shown, b"'s ");
    put(rt, shown, key.name.bytes());
    put(rt, shown, b", ");
}

/// Puts the name and the kind of a target behind the others.
pub(crate) fn put_title(rt: &impl Abort, shown: &mut Vec<u8>, target: &Target) {
    put(rt, shown, target.name.bytes());
    put(rt, shown, kind_of(target));
}

fn put_target(rt: &impl Abort, shown: &mut Vec<u8>, target: &Target) {
    put_title(rt, shown, target);
    put_term(rt, shown, &target.term);
    put(rt, shown, b", ");
}

/// Puts what the variables range over, the targets and the qualification behind the others.
pub(crate) fn put_query(rt: &impl Abort, shown: &mut Vec<u8>, query: &Query) {
    for key in query.vars.items() {
        put_key(rt, shown, key);
    }
    for target in query.targets.items() {
        put_target(rt, shown, target);
    }
    put_qual(rt, shown, &query.qual);
}

/// Puts the queries that are asked behind the others.
pub(crate) fn put_asked(rt: &impl Abort, shown: &mut Vec<u8>, all: &[Asked]) {
    for asked in all {
        put_query(rt, shown, &asked.query);
    }
}

/// Puts the two digits of a number that refuses a statement behind the others.
pub(crate) fn put_number(rt: &impl Abort, shown: &mut Vec<u8>, number: u8) {
    put_digit(rt, shown, number / 10);
    put_digit(rt, shown, number % 10);
}
