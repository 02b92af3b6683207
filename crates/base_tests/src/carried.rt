//! Relations that are destroyed, restructured, indexed and copied.

use crate::shown::put;
use crate::shown_trees::{put_digit, put_key};
use crate::stored::shown;
use calculus::{CopyCol, CopyForm, Spec, Utility};
use std::process::Abort;
use std::test::*;

pub(crate) fn put_places(rt: &impl Abort, shown: &mut Vec<u8>, places: &[u8]) {
    for place in places {
        put_digit(rt, shown, *place);
    }
}

/// Puts a structure and the places of its keys behind the others.
fn put_structure(rt: &impl Abort, shown: &mut Vec<u8>, to: Spec, keys: &[u8]) {
    match to {
        Spec::Heap => put(rt, shown, b"heap "),
        Spec::Hash => put(rt, shown, b"hash "),
        Spec::Isam => put(rt, shown, b"isam "),
        _ => put(rt, shown, b"? "),
    }
    put_places(rt, shown, keys);
}

/// Puts the place of a column's attribute and its form behind the others.
fn put_column(rt: &impl Abort, shown: &mut Vec<u8>, column: CopyCol) {
    put_digit(rt, shown, column.attr);
    match column.form {
        CopyForm::Bin(bytes) => {
            put(rt, shown, b" binary ");
            put_digit(rt, shown, bytes);
        }
        CopyForm::Fixed(bytes) => {
            put(rt, shown, b" fixed ");
            put_digit(rt, shown, bytes);
        }
        CopyForm::Until(byte) => {
            put(rt, shown, b" until ");
            put(rt, shown, &[byte]);
        }
    }
    put(rt, shown, b", ");
}

/// Puts the columns and the file of a copy behind the others.
fn put_copy(rt: &impl Abort, shown: &mut Vec<u8>, columns: &[CopyCol], from: bool, file: &[u8]) {
    for column in columns {
        put_column(rt, shown, *column);
    }
    put(rt, shown, if from { b"from " } else { b"into " });
    put(rt, shown, file);
}

/// Puts work with relations for the utilities behind the others.
pub(crate) fn put_utility(rt: &impl Abort, shown: &mut Vec<u8>, work: &Utility) {
    match work {
        Utility::Destroy { rels } => {
            for rel in rels.items() {
                put_key(rt, shown, rel);
            }
            put(rt, shown, b"gone");
        }
        Utility::Modify { rel, to, keys } => {
            put_key(rt, shown, rel);
            put_structure(rt, shown, *to, keys.items());
        }
        Utility::Index { base, name, keys } => {
            put_key(rt, shown, base);
            put(rt, shown, name.bytes());
            put(rt, shown, b" ");
            put_places(rt, shown, keys.items());
        }
        Utility::Copy {
            rel,
            columns,
            from,
            file,
        } => {
            put_key(rt, shown, rel);
            put_copy(rt, shown, columns.items(), *from, file.bytes());
        }
        _ => put(rt, shown, b"?"),
    }
}

/// A text, and what its statement asks the utilities for, or the number that refuses it.
const CARRIED: [(&[u8], &[u8]); 22] = [
    (b"destroy q, p", b"ann's q, ann's p, gone"),
    (b"destroy p, w", b"10"),
    (b"destroy p, q, p", b"17"),
    (b"modify p to hash on b, a", b"ann's p, hash 10"),
    (b"modify p to isam on b", b"ann's p, isam 1"),
    (b"modify p to isam", b"ann's p, isam 0"),
    (b"modify p to heap", b"ann's p, heap "),
    (b"modify w to heap", b"10"),
    (b"modify p to hash on b, c, b", b"12"),
    (b"modify p to hash on b, a, b", b"17"),
    (b"index on p is w (b)", b"ann's p, w 1"),
    (b"index on p is w (b, a)", b"ann's p, w 10"),
    (b"index on w is v (b)", b"10"),
    (b"index on p is q (c)", b"12"),
    (b"index on p is q (a, a)", b"17"),
    (b"index on p is q (a)", b"15"),
    (b"index on va is q (a)", b"15"),
    (
        b"copy p (b = i4, a = c7) into \"f\\\"\"",
        b"ann's p, 1 binary 4, 0 fixed 7, into f\\\"",
    ),
    (
        b"copy p (a = c0comma, b = c0nl) from \" f \"",
        b"ann's p, 0 until ,, 1 until \n, from  f ",
    ),
    (b"copy w (a = i1) from \"f\"", b"10"),
    (b"copy p (a = i1, c = i1, a = i1) from \"f\"", b"12"),
    (b"copy p (a = i1, b = i1, a = i1) from \"f\"", b"17"),
];

#[test]
fn work_for_the_utilities_is_resolved_or_refused_in_order(rt: HostRuntime) {
    for (text, wanted) in &CARRIED {
        assert!(rt; shown(&rt, rt.alloc(), *text, (0, 0, 1)).as_slice() == *wanted);
    }
}
