//! What statements become once views, permits and rules are put in, and what refuses them.

use crate::given::statement;
use crate::shared::named;
use crate::shown::put;
use crate::shown_trees::{put_asked, put_digit, put_key, put_number, put_qual, put_query};
use crate::stored::{SMALL, Standing, base, ranges};
use calculus::{Checked, Update};
use quel_resolve::CheckFault;
use stage_parse::checked;
use std::alloc::Global;
use std::process::Abort;
use std::test::*;

/// Puts an update: what it changes, the place of its variable, its query and its checks.
fn put_update(rt: &impl Abort, shown: &mut Vec<u8>, u: &Update) {
    put_key(rt, shown, &u.rel);
    put_digit(rt, shown, u.old);
    put(rt, shown, b": ");
    put_query(rt, shown, &u.query);
    for check in u.checks.items() {
        put(rt, shown, b"; ");
        put_qual(rt, shown, check);
    }
}

/// Puts a checked tree, or what refuses a statement, behind the others.
fn put_answer(rt: &impl Abort, shown: &mut Vec<u8>, answer: &Result<Checked, CheckFault>) {
    match answer {
        Ok(Checked::Answer(all)) => put_asked(rt, shown, all.items()),
        Ok(Checked::Update(u)) => put_update(rt, shown, u),
        Ok(Checked::Utility(_)) => put(rt, shown, b"for the utilities"),
        Err(CheckFault::No(number)) => put_number(rt, shown, *number),
        Err(_) => put(rt, shown, b"a fault"),
    }
}

/// What the user's statement becomes where so much stands.
fn shown(rt: &impl Abort, alloc: Global, user: &[u8], text: &[u8], standing: Standing) -> Vec<u8> {
    let mut shown = Vec::new(alloc);
    let mut base = base(rt, alloc, standing, SMALL);
    let ranges = ranges(rt, alloc);
    let user = named(rt, alloc, user);
    let s = statement(rt, alloc, text);
    let answer = checked(alloc, &s, &user, &ranges, &mut base);
    put_answer(rt, &mut shown, &answer);
    drop(answer);
    drop(s);
    drop(user);
    drop(ranges);
    drop(base);
    shown
}

/// A user, a text, how many rules and permits stand on each relation of ann's, and what the statement
/// becomes, or the number that refuses it.
const CHECKED: [(&[u8], &[u8], u32, u32, &[u8]); 31] = [
    (b"ann", b"retrieve (x.a)", 0, 0, b"ann's p, a i2 0.0, true"),
    (b"bob", b"retrieve (x.a)", 0, 0, b"23"),
    (
        b"bob",
        b"retrieve (x.a)",
        0,
        2,
        b"ann's p, a i2 0.0, true and (true or true)",
    ),
    (b"bob", b"retrieve (x.c)", 0, 0, b"12"),
    (b"bob", b"retrieve (u.a)", 0, 0, b"11"),
    (b"bob", b"retrieve (x.a) where x.a = \"b\"", 0, 0, b"13"),
    (
        b"ann",
        b"retrieve (v.a)",
        0,
        0,
        b"ann's pp, a i2 ?, true and true and ?",
    ),
    (b"bob", b"retrieve (v.a)", 0, 0, b"23"),
    (
        b"ann",
        b"replace x (a = y.b)",
        2,
        0,
        b"ann's p, 0: ann's p, ann's q, a i2 1.1, true; true; true",
    ),
    (b"bob", b"replace x (a = y.b)", 2, 1, b"23"),
    (
        b"ann",
        b"delete y where x.b = y.b and y.a = \"b\"",
        0,
        0,
        b"13",
    ),
    (b"ann", b"delete v", 0, 0, b"26"),
    (b"ann", b"create w (a = i2)", 0, 0, b"for the utilities"),
    (
        b"ann",
        b"print p",
        0,
        0,
        b"ann's p, a i2 0.0, b i2 0.1, true",
    ),
    (b"ann", b"print p, w", 0, 0, b"10"),
    (b"ann", b"help w", 0, 0, b"10"),
    (b"ann", b"destroy p, q", 0, 0, b"for the utilities"),
    (b"ann", b"destroy p, q, p", 0, 0, b"17"),
    (b"ann", b"modify p to hash on b", 0, 0, b"for the utilities"),
    (b"ann", b"modify p to hash on b, b", 0, 0, b"17"),
    (b"ann", b"index on p is w (b)", 0, 0, b"for the utilities"),
    (b"ann", b"index on p is q (b)", 0, 0, b"15"),
    (
        b"ann",
        b"copy p (b = c0nl) from \"f\"",
        0,
        0,
        b"for the utilities",
    ),
    (b"ann", b"copy p (c = c0nl) from \"f\"", 0, 0, b"12"),
    (
        b"ann",
        b"retrieve (n = count(x.a))",
        0,
        0,
        b"n wide ?, true",
    ),
    (
        b"bob",
        b"retrieve (n = count(x.a))",
        0,
        2,
        b"n wide ?, true",
    ),
    (b"bob", b"retrieve (n = count(x.a))", 0, 0, b"23"),
    (b"bob", b"retrieve (n = count(u.a))", 0, 0, b"11"),
    (b"bob", b"retrieve (n = count(x.c by 3))", 0, 0, b"12"),
    (
        b"bob",
        b"retrieve (n = count(3)) where 1 = \"b\"",
        0,
        0,
        b"18",
    ),
    (
        b"bob",
        b"retrieve (n = count(x.a)) where 1 = \"b\"",
        0,
        0,
        b"13",
    ),
];

#[test]
fn names_refuse_before_causes_and_causes_before_permits(rt: HostRuntime) {
    for (user, text, rules, permits, wanted) in &CHECKED {
        assert!(rt;
            shown(&rt, rt.alloc(), *user, *text, (*rules, *permits, 1)).as_slice() == *wanted
        );
    }
}
