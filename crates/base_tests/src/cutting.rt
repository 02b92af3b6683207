//! Trees cut down to what a user may see and change.

use crate::shared::{named, tree, unknown};
use crate::shown::{digit, put, put_qual, put_query};
use crate::view_texts::LAID;
use calculus::{Checked, Update};
use cut_rules::{CutFault, cut_permits};
use std::alloc::Global;
use std::process::Abort;
use std::test::*;
use test_bases::TestBase;

/// What bob may do besides: delete the parts that have the number 8 and give them new values of the second
/// attribute, and append parts that have the number 9.
const MORE: [&[u8]; 2] = [
    b"\x06\x03ann\x05parts\x00\x00\x00\x02\x0c\x00\x01\x01\x01\x03bob\x01\x00\x02\x00\x00\x00\x00\x00\x00\x00\x00\x00\x00\x08",
    b"\x06\x03ann\x05parts\x00\x00\x00\x03\x02\x00\x01\x00\x01\x03bob\x01\x00\x02\x00\x00\x00\x00\x00\x00\x00\x00\x00\x00\x09",
];

/// A base of which no database is known and knows `parts` and its views. ann owns all. bob may read the first two
/// attributes of the parts that have the number 7, and what is said above.
fn unknown_parts<R: Abort>(rt: &R, alloc: Global) -> TestBase {
    let mut base = unknown(rt, alloc, &LAID);
    let given = base.give_all(alloc, &MORE);
    assert!(rt; given.is_ok());
    base
}

fn cut<R: Abort>(
    rt: &R,
    alloc: Global,
    base: &mut TestBase,
    user: &[u8],
    bytes: &[u8],
) -> Result<Checked, CutFault> {
    let tree = tree(rt, alloc, bytes);
    let user = named(rt, alloc, user);
    let made = cut_permits(alloc, tree, &user, base);
    drop(user);
    made
}

/// Puts an update: the place of its variable, its query, and what must hold of a new row for the user.
fn put_update<R: Abort>(rt: &R, written: &mut Vec<u8>, u: &Update) {
    match u.old {
        255 => put(rt, written, b"none"),
        old => put(rt, written, &[digit(old)]),
    }
    put(rt, written, b": ");
    put_query(rt, written, &u.query);
    put(rt, written, b"; ");
    put_qual(rt, written, &u.new_cut);
}

fn put_tree<R: Abort>(rt: &R, written: &mut Vec<u8>, tree: &Checked) {
    match tree {
        Checked::Answer(all) => {
            for asked in all.items() {
                put_query(rt, written, &asked.query);
            }
        }
        Checked::Update(u) => put_update(rt, written, u),
        Checked::Utility(_) => put(rt, written, b"?"),
    }
}

/// One who asks, what for, and what that becomes.
type Case<'a> = (&'a [u8], &'a [u8], &'a [u8]);

/// Whether the tree becomes what is said.
fn is_as_said<R: Abort>(rt: &R, alloc: Global, base: &mut TestBase, case: &Case) -> bool {
    let (user, bytes, said) = *case;
    let made = cut(rt, alloc, base, user, bytes);
    let mut written = Vec::new(alloc);
    match &made {
        Ok(tree) => put_tree(rt, &mut written, tree),
        Err(_) => put(rt, &mut written, b"a fault"),
    }
    drop(made);
    written.as_slice() == said
}

/// The variable that is refused.
fn refused<R: Abort>(
    rt: &R,
    alloc: Global,
    base: &mut TestBase,
    user: &[u8],
    bytes: &[u8],
) -> Option<u8> {
    match cut(rt, alloc, base, user, bytes) {
        Err(CutFault::NoPermit { var }) => Some(var),
        _ => None,
    }
}

/// What is asked, and what it becomes.
const ASKED: [Case; 8] = [
    // A number of the parts.
    (
        b"bob",
        b"\x00\x00\x01\x00\x01\x03ann\x05parts\x00\x01\x04pnum\x00\x01\x02\x00\x00\x00\x00\x00",
        b"parts | 0.0 | true and 0.0=7",
    ),
    // The same, by ann.
    (
        b"ann",
        b"\x00\x00\x01\x00\x01\x03ann\x05parts\x00\x01\x04pnum\x00\x01\x02\x00\x00\x00\x00\x00",
        b"parts | 0.0 | true",
    ),
    // The number of the parts.
    (
        b"bob",
        b"\x00\x00\x01\x00\x01\x03ann\x05parts\x00\x01\x04pnum\x01\x07\x00\x00\x00\x00\x03ann\x05parts\x02\x00\x00\x00\x00\x00\x00\x00\x00\x00\x00",
        b"| count0(0.0 of parts by for where true and 0.0=7) | true",
    ),
    // The number of the relations.
    (
        b"eve",
        b"\x00\x00\x01\x00\x00\x00\x01\x04pnum\x01\x07\x00\x00\x00\x00\x03ann\x08relation\x02\x00\x00\x00\x00\x00\x00\x00\x00\x00\x00",
        b"| count0(0.0 of relation by for where true) | true",
    ),
    // The number of the rows of a query over a view.
    (
        b"bob",
        b"\x00\x00\x01\x00\x00\x00\x01\x04pnum\x01\x07\x00\x00\x00\x01\x00\x01\x03ann\x07numbers\x00\x01\x04pnum\x00\x01\x02\x00\x00\x00\x02\x00\x00\x00\x00\x00\x00\x00\x00\x00\x00",
        b"| count0(0.0 of [parts | 0.0 | true and 0.1=5 and 0.0=0.0 and 0.0=7] by for where true) | true",
    ),
    // The greatest of a view's numbers, of each number.
    (
        b"bob",
        b"\x00\x00\x01\x00\x01\x03ann\x07numbers\x00\x01\x04pnum\x01\x07\x00\x00\x07\x00\x03ann\x07numbers\x02\x00\x00\x00\x01\x02\x00\x00\x00\x01\x02\x00\x00\x00\x00\x00\x00",
        b"parts | max0(0.0 of [parts | 0.0 | 0.1=5 and 0.0=7] by 0.0 for 0.0 where true) | true and 0.1=5 and 0.0=0.0 and 0.0=7",
    ),
    // A number of a view of two variables, and how many parts of its number have the second attribute 5.
    (
        b"bob",
        b"\x00\x00\x01\x00\x02\x03ann\x05pairs\x03ann\x05parts\x00\x02\x04pnum\x00\x01\x02\x00\x00\x04pnum\x01\x07\x00\x00\x00\x00\x03ann\x05parts\x02\x00\x01\x00\x01\x02\x00\x00\x00\x01\x02\x01\x00\x01\x00\x02\x00\x01\x00\x00\x00\x00\x00\x00\x00\x00\x05\x00\x00\x00",
        b"parts parts parts | 1.0 count0(0.1 of parts by 0.0 for 2.0 where 0.1=5 and 0.0=7) | true and 0.0=1.0 and 1.0=1.0 and 0.1=5 and 0.0=0.0 and 0.0=7 and 1.1=5 and 1.0=1.0 and 1.0=7 and 2.0=7",
    ),
    // Two aggregates, over a view and over a relation, where two attributes are equal.
    (
        b"bob",
        b"\x00\x00\x01\x00\x02\x03ann\x07numbers\x03ann\x05parts\x00\x02\x04pnum\x01\x07\x00\x00\x07\x00\x03ann\x07numbers\x02\x00\x00\x00\x01\x02\x00\x00\x00\x01\x02\x00\x00\x00\x04pnum\x01\x07\x00\x01\x00\x00\x03ann\x05parts\x02\x00\x01\x00\x01\x02\x00\x00\x00\x01\x02\x01\x00\x01\x00\x02\x00\x01\x00\x00\x00\x00\x00\x00\x00\x00\x05\x01\x00\x02\x01\x01\x02\x01\x00\x00\x00",
        b"parts parts | max0(0.0 of [parts | 0.0 | 0.1=5 and 0.0=7] by 0.0 for 0.0 where true) count1(0.1 of parts by 0.0 for 1.0 where 0.1=5 and 0.0=7) | 1.1=1.0 and 0.1=5 and 0.0=0.0 and 0.0=7 and 1.0=7",
    ),
];

/// Updates of `parts`, and what they become.
const CHANGED: [Case; 3] = [
    // A delete.
    (
        b"bob",
        b"\x01\x02\x03ann\x05parts\x01\x00\x00\x00\x02\x03ann\x05pairs\x03ann\x05parts\x00\x00\x01\x00\x02\x00\x00\x02\x01\x00\x00\x00\x00",
        b"2: parts parts parts | | 1.0=2.0 and 0.0=1.0 and 1.0=1.0 and 0.1=5 and 0.0=0.0 and 0.0=7 and 1.1=5 and 1.0=1.0 and 1.0=7 and 2.0=8 and 2.0=7; true",
    ),
    // A replace with an aggregate over a view.
    (
        b"bob",
        b"\x01\x01\x03ann\x05parts\x00\x00\x01\x01\x00\x01\x03ann\x05parts\x00\x01\x04pnum\x01\x07\x00\x00\x07\x00\x03ann\x07numbers\x02\x00\x00\x00\x01\x02\x00\x00\x00\x01\x02\x00\x00\x00\x00\x00\x00\x00",
        b"0: parts | max0(0.0 of [parts | 0.0 | 0.1=5 and 0.0=7] by 0.0 for 0.0 where true) | true and 0.0=8 and 0.0=7; true",
    ),
    // An append of an aggregate.
    (
        b"bob",
        b"\x01\x00\x03ann\x05parts\xff\x00\x01\x00\x00\x00\x00\x01\x04pnum\x01\x07\x00\x00\x00\x00\x03ann\x05parts\x02\x00\x00\x00\x00\x00\x00\x00\x00\x00\x00\x00",
        b"none: | count0(0.0 of parts by for where true and 0.0=7) | true; true and 0.0=9",
    ),
];

#[test]
fn a_tree_is_cut_with_its_aggregates(rt: HostRuntime) {
    let mut base = unknown_parts(&rt, rt.alloc());
    for case in &ASKED {
        assert!(rt; is_as_said(&rt, rt.alloc(), &mut base, case));
    }
    for case in &CHANGED {
        assert!(rt; is_as_said(&rt, rt.alloc(), &mut base, case));
    }
}

/// One who asks, what for, and the variable that is refused.
type Refusal<'a> = (&'a [u8], &'a [u8], u8);

/// What is refused because of a variable, or of an aggregate.
const UNREAD: [Refusal; 6] = [
    // A number of the parts.
    (
        b"eve",
        b"\x00\x00\x01\x00\x01\x03ann\x05parts\x00\x01\x04pnum\x00\x01\x02\x00\x00\x00\x00\x00",
        0,
    ),
    // The price of the second variable.
    (
        b"bob",
        b"\x00\x00\x01\x00\x02\x03ann\x07numbers\x03ann\x05parts\x00\x02\x04pnum\x00\x01\x02\x00\x00\x04pnum\x00\x01\x02\x01\x02\x00\x00\x00",
        1,
    ),
    // The same, where it chooses a group.
    (
        b"bob",
        b"\x00\x00\x01\x00\x02\x03ann\x07numbers\x03ann\x05parts\x00\x02\x04pnum\x00\x01\x02\x00\x00\x04pnum\x01\x07\x00\x00\x00\x00\x03ann\x05parts\x02\x00\x00\x00\x01\x02\x00\x00\x00\x01\x02\x01\x02\x00\x00\x00\x00",
        1,
    ),
    // The greatest price.
    (
        b"bob",
        b"\x00\x00\x01\x00\x01\x03ann\x05parts\x00\x02\x04pnum\x00\x01\x02\x00\x00\x04pnum\x01\x07\x00\x00\x07\x00\x03ann\x05parts\x02\x00\x02\x00\x00\x00\x00\x00\x00\x00\x00",
        255,
    ),
    // The number of the parts.
    (
        b"eve",
        b"\x00\x00\x01\x00\x00\x00\x01\x04pnum\x01\x07\x00\x00\x00\x00\x03ann\x05parts\x02\x00\x00\x00\x00\x00\x00\x00\x00\x00\x00",
        255,
    ),
    // The number of the rows of a query over a view.
    (
        b"eve",
        b"\x00\x00\x01\x00\x00\x00\x01\x04pnum\x01\x07\x00\x00\x00\x01\x00\x01\x03ann\x07numbers\x00\x01\x04pnum\x00\x01\x02\x00\x00\x00\x02\x00\x00\x00\x00\x00\x00\x00\x00\x00\x00",
        255,
    ),
];

/// What is refused because of what is changed, or of what is read of it.
const UNCHANGED: [Refusal; 5] = [
    // An append of a number.
    (
        b"eve",
        b"\x01\x00\x03ann\x05parts\xff\x00\x01\x00\x00\x00\x00\x01\x04pnum\x01\x00\x00\x00\x00\x00\x00\x00\x00\x09\x00\x00\x00\x00",
        255,
    ),
    // An append of the second attribute.
    (
        b"bob",
        b"\x01\x00\x03ann\x05parts\xff\x00\x01\x01\x00\x00\x00\x01\x04pnum\x01\x00\x00\x00\x00\x00\x00\x00\x00\x09\x00\x00\x00\x00",
        255,
    ),
    // A delete.
    (
        b"eve",
        b"\x01\x02\x03ann\x05parts\x00\x00\x00\x00\x01\x03ann\x05parts\x00\x00\x00\x00\x00\x00",
        0,
    ),
    // A delete that reads the price.
    (
        b"bob",
        b"\x01\x02\x03ann\x05parts\x01\x00\x00\x00\x02\x03ann\x07numbers\x03ann\x05parts\x00\x00\x01\x00\x02\x00\x00\x02\x01\x02\x00\x00\x00",
        1,
    ),
    // A replace of the first attribute.
    (
        b"bob",
        b"\x01\x01\x03ann\x05parts\x01\x00\x01\x00\x00\x02\x03ann\x07numbers\x03ann\x05parts\x00\x01\x04pnum\x01\x00\x00\x00\x00\x00\x00\x00\x00\x09\x01\x00\x02\x00\x00\x02\x01\x00\x00\x00\x00",
        1,
    ),
];

#[test]
fn what_is_not_permitted_has_its_variable(rt: HostRuntime) {
    let mut base = unknown_parts(&rt, rt.alloc());
    for (user, bytes, var) in &UNREAD {
        assert!(rt; refused(&rt, rt.alloc(), &mut base, *user, *bytes) == Some(*var));
    }
    for (user, bytes, var) in &UNCHANGED {
        assert!(rt; refused(&rt, rt.alloc(), &mut base, *user, *bytes) == Some(*var));
    }
}
