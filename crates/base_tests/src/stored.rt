//! Views, permits and rules that are defined, and permits and rules that go.

use crate::carried::put_utility;
use crate::given::statement;
use crate::shared::named;
use crate::shown::put;
use crate::shown_trees::{put_asked, put_digit, put_key, put_number, put_qual, put_query};
use calculus::{Checked, Permit, RelKey, Rule, Utility};
use quel_check::RangeTable;
use quel_resolve::{CheckFault, resolve};
use std::alloc::Global;
use std::process::Abort;
use std::test::*;
use test_bases::TestBase;

/// How many rules and permits a relation has, and how many relations, views and indexes there are.
pub(crate) type Standing = (u32, u32, u32);

/// The bytes of the kinds of two attributes: two numbers of two bytes, and a text of 250 bytes and a wide number.
pub(crate) const SMALL: (&[u8], &[u8]) = (b"\x00\x01", b"\x00\x01");

const WIDE_KINDS: (&[u8], &[u8]) = (b"\x00\x03\xfa", b"\x01");

/// The one target of each view, the first attribute and 1 five times, and the qualification: so a view is on
/// each level larger by 10, 151 on level 15.
const TARGET: &[u8] = b"\x00\x01\x01a\x01\x05\x00\x05\x00\x05\x00\x05\x00\x05\x00\x02\x00\x00\
    \x00\x00\x00\x00\x00\x00\x00\x00\x01\x00\x00\x00\x00\x00\x00\x00\x00\x01\
    \x00\x00\x00\x00\x00\x00\x00\x00\x01\x00\x00\x00\x00\x00\x00\x00\x00\x01\
    \x00\x00\x00\x00\x00\x00\x00\x00\x01\x00";

/// Gives the base what these bytes spell.
fn give(rt: &impl Abort, alloc: Global, base: &mut TestBase, bytes: Vec<u8>) {
    let given = base.give(alloc, &bytes);
    drop(bytes);
    assert!(rt; given.is_ok());
}

/// Puts two attributes `a` and `b` of these kinds behind the bytes, with what stands in front of them.
fn put_attributes(rt: &impl Abort, bytes: &mut Vec<u8>, (first, second): (&[u8], &[u8])) {
    put(rt, bytes, b"\x00\x00\x02\x01a");
    put(rt, bytes, first);
    put(rt, bytes, b"\x01b");
    put(rt, bytes, second);
}

/// Gives the base `p`, `q` and `pp` with attributes of these kinds.
fn give_relations(rt: &impl Abort, alloc: Global, base: &mut TestBase, kinds: (&[u8], &[u8])) {
    for name in [b"\x01p".as_slice(), b"\x01q", b"\x02pp"] {
        let mut bytes = Vec::new(alloc);
        put(rt, &mut bytes, b"\x01\x03ann");
        put(rt, &mut bytes, name);
        put_attributes(rt, &mut bytes, kinds);
        put(rt, &mut bytes, b"\x00\x00\x00\x00\x00\x00");
        give(rt, alloc, base, bytes);
    }
}

/// Gives the base the views `va` to `vp` with attributes of these kinds, the first over `pp`, each other one over
/// the one before it.
fn give_views(rt: &impl Abort, alloc: Global, base: &mut TestBase, kinds: (&[u8], &[u8])) {
    let mut below = [b'p', b'p'];
    for letter in b'a'..=b'p' {
        let view = [b'v', letter];
        let mut bytes = Vec::new(alloc);
        put(rt, &mut bytes, b"\x05\x03ann\x02");
        put(rt, &mut bytes, &view);
        put_attributes(rt, &mut bytes, kinds);
        put(rt, &mut bytes, b"\x00\x00\x00\x01\x03ann\x02");
        put(rt, &mut bytes, &below);
        put(rt, &mut bytes, TARGET);
        give(rt, alloc, base, bytes);
        below = view;
    }
}

/// Gives the base one rule or permit on the relation of this name.
fn give_one(
    rt: &impl Abort,
    alloc: Global,
    base: &mut TestBase,
    number: u32,
    name: &[u8],
    (front, behind): (&[u8], &[u8]),
) {
    let mut bytes = Vec::new(alloc);
    put(rt, &mut bytes, front);
    put(rt, &mut bytes, name);
    put(rt, &mut bytes, &number.to_be_bytes());
    put(rt, &mut bytes, behind);
    give(rt, alloc, base, bytes);
}

/// Gives the base so many rules or permits on `p` and on `q`: what is spelled in front of the name, and behind the
/// number.
fn give_each(
    rt: &impl Abort,
    alloc: Global,
    base: &mut TestBase,
    count: u32,
    around: (&[u8], &[u8]),
) {
    for number in 0..count {
        give_one(rt, alloc, base, number, b"\x01p", around);
        give_one(rt, alloc, base, number, b"\x01q", around);
    }
}

/// A rule that every row meets, and a permit of all users to retrieve all.
const RULE: (&[u8], &[u8]) = (b"\x07\x03ann", b"\x00");

const PERMIT: (&[u8], &[u8]) = (b"\x06\x03ann", b"\x01\x00\x00\x00\x00");

/// A base with so many of each, of relations with two attributes of these kinds, and of views one over the
/// other.
pub(crate) fn base(
    rt: &impl Abort,
    alloc: Global,
    (rules, permits, entries): Standing,
    kinds: (&[u8], &[u8]),
) -> TestBase {
    let mut base = TestBase::of_entries(alloc, entries);
    give_relations(rt, alloc, &mut base, kinds);
    give_views(rt, alloc, &mut base, kinds);
    give_each(rt, alloc, &mut base, rules, RULE);
    give_each(rt, alloc, &mut base, permits, PERMIT);
    base
}

fn key(rt: &impl Abort, alloc: Global, rel: &[u8]) -> RelKey {
    RelKey {
        owner: named(rt, alloc, b"ann"),
        name: named(rt, alloc, rel),
    }
}

/// `x` over `p`, `y` over `q`, `v` over the view on level 1, `t` over the one on level 16, and `z` over the
/// one on level 15.
pub(crate) fn ranges(rt: &impl Abort, alloc: Global) -> RangeTable {
    let mut ranges = RangeTable::new(alloc);
    for (var, rel) in [
        (b"x", b"p".as_slice()),
        (b"y", b"q"),
        (b"v", b"va"),
        (b"z", b"vo"),
        (b"t", b"vp"),
    ] {
        let done = ranges.declare(named(rt, alloc, var), key(rt, alloc, rel));
        done.expect(rt, "memory");
    }
    ranges
}

fn put_numbers(rt: &impl Abort, shown: &mut Vec<u8>, numbers: &[u32]) {
    for number in numbers {
        put_digit(rt, shown, u8::try_from(*number).unwrap_or(255));
    }
}

fn put_permit(rt: &impl Abort, shown: &mut Vec<u8>, permit: &Permit) {
    put_numbers(rt, shown, &[permit.number, u32::from(permit.ops)]);
    put(rt, shown, b" of ");
    for place in permit.attrs.items() {
        put_digit(rt, shown, *place);
    }
    put(rt, shown, b" to ");
    if let Some(user) = &permit.user {
        put(rt, shown, user.bytes());
    }
    put(rt, shown, b" where ");
    put_qual(rt, shown, &permit.qual);
}

fn put_rule(rt: &impl Abort, shown: &mut Vec<u8>, rule: &Rule) {
    put_numbers(rt, shown, &[rule.number]);
    put(rt, shown, b" is ");
    put_qual(rt, shown, &rule.qual);
}

/// Puts work for the utilities behind the others.
fn put_work(rt: &impl Abort, shown: &mut Vec<u8>, work: &Utility) {
    match work {
        Utility::View { rel, query } => {
            put_key(rt, shown, rel);
            put_query(rt, shown, query);
        }
        Utility::Permit { rel, permit } => {
            put_key(rt, shown, rel);
            put_permit(rt, shown, permit);
        }
        Utility::Rule { rel, rule } => {
            put_key(rt, shown, rel);
            put_rule(rt, shown, rule);
        }
        Utility::DropPermits { rel, numbers } => {
            put_key(rt, shown, rel);
            put(rt, shown, b"permits ");
            put_numbers(rt, shown, numbers.items());
        }
        Utility::DropRules { rel, numbers } => {
            put_key(rt, shown, rel);
            put(rt, shown, b"rules ");
            put_numbers(rt, shown, numbers.items());
        }
        _ => put_utility(rt, shown, work),
    }
}

/// Puts a tree, or the digits of the number that refuses a statement, behind the others.
fn put_answer(rt: &impl Abort, shown: &mut Vec<u8>, answer: &Result<Checked, CheckFault>) {
    match answer {
        Ok(Checked::Utility(work)) => put_work(rt, shown, work),
        Ok(Checked::Answer(all)) => put_asked(rt, shown, all.items()),
        Err(CheckFault::No(number)) => put_number(rt, shown, *number),
        _ => put(rt, shown, b"?"),
    }
}

/// What ann's statement asks this base for.
fn shown_in(rt: &impl Abort, alloc: Global, text: &[u8], base: &mut TestBase) -> Vec<u8> {
    let mut shown = Vec::new(alloc);
    let ranges = ranges(rt, alloc);
    let user = named(rt, alloc, b"ann");
    let s = statement(rt, alloc, text);
    let answer = resolve(alloc, &s, &user, &ranges, base);
    put_answer(rt, &mut shown, &answer);
    drop(answer);
    drop(s);
    drop(user);
    drop(ranges);
    shown
}

/// What ann's statement asks a base for where so much stands.
pub(crate) fn shown(rt: &impl Abort, alloc: Global, text: &[u8], standing: Standing) -> Vec<u8> {
    let mut base = base(rt, alloc, standing, SMALL);
    let shown = shown_in(rt, alloc, text, &mut base);
    drop(base);
    shown
}

/// What ann's statement asks a base for whose attributes are a text of 250 bytes and a wide number.
fn shown_wide(rt: &impl Abort, alloc: Global, text: &[u8]) -> Vec<u8> {
    let mut base = base(rt, alloc, (0, 0, 1), WIDE_KINDS);
    let shown = shown_in(rt, alloc, text, &mut base);
    drop(base);
    shown
}

/// A text, how many rules stand, and what its statement asks for, or the number that refuses it.
const STORED: [(&[u8], u32, &[u8]); 26] = [
    (
        b"define view w (n = -x.b)",
        0,
        b"ann's w, ann's p, n wide -0.1, true",
    ),
    (
        b"define view w (z.a)",
        0,
        b"ann's w, ann's vo, a i2 0.0, true",
    ),
    (
        b"define view w (n = z.a+z.a+z.a+z.a+z.a+z.a)",
        0,
        b"ann's w, ann's vo, n wide ?, true",
    ),
    (b"define view w (n = z.a+z.a+z.a+z.a+z.a+z.a+z.a)", 0, b"14"),
    (b"define view w (t.a)", 0, b"14"),
    (b"define view p (t.a, t.a) where 1 = \"b\"", 0, b"14"),
    (b"define view p (x.a, x.a) where 1 = \"b\"", 0, b"17"),
    (b"define view p (x.a) where 1 = \"b\"", 0, b"13"),
    (b"define view p (x.a)", 0, b"15"),
    (b"define view w (x.c)", 0, b"12"),
    (b"define view w (n = count(x.a))", 0, b"18"),
    (b"define view w (x.a) where x.a = max(x.a)", 0, b"18"),
    (
        b"define permit retrieve on x to bob where x.a = max(x.a)",
        0,
        b"18",
    ),
    (b"define integrity on x is x.a < count(x.a)", 0, b"18"),
    (
        b"define permit append on x (b) to bob",
        0,
        b"ann's p, 02 of 1 to bob where true",
    ),
    (
        b"define permit retrieve on x to all",
        0,
        b"ann's p, 01 of  to  where true",
    ),
    (
        b"define permit retrieve on x to bob where x.a = y.a",
        0,
        b"14",
    ),
    (
        b"define permit retrieve on x to bob where x.a = \"b\"",
        0,
        b"13",
    ),
    (
        b"define permit retrieve on x to bob where x.a = y.a and 1 = \"b\"",
        0,
        b"14",
    ),
    (b"define integrity on x is x.a = 1", 99, b"ann's p, 0 is ?"),
    (b"define integrity on x is x.a = 1", 100, b"14"),
    (b"define integrity on x is x.a = \"b\"", 99, b"13"),
    (b"destroy permit p 1, 3", 0, b"ann's p, permits 13"),
    (b"destroy permit w all", 0, b"10"),
    (b"destroy integrity p all", 0, b"ann's p, rules "),
    (b"destroy integrity w 2", 0, b"10"),
];

/// A text, how many permits and how many relations, views and indexes stand, and what its statement asks
/// for, or the number that refuses it.
const CROWDED: [(&[u8], u32, u32, &[u8]); 15] = [
    (
        b"define view w (x.a)",
        0,
        9_999,
        b"ann's w, ann's p, a i2 0.0, true",
    ),
    (b"define view w (x.a)", 0, 10_000, b"14"),
    (b"define view p (x.a, x.a)", 0, 10_000, b"14"),
    (b"retrieve into w (x.a)", 0, 10_000, b"14"),
    (b"create w (a = i2)", 0, 10_000, b"14"),
    (b"index on p is w (a)", 0, 9_999, b"ann's p, w 0"),
    (b"index on p is w (a)", 0, 10_000, b"14"),
    (b"index on p is p (a)", 0, 10_000, b"14"),
    (b"index on p is p (a, a)", 0, 10_000, b"17"),
    (b"destroy p", 0, 10_000, b"ann's p, gone"),
    (
        b"define permit retrieve on x to all",
        99,
        1,
        b"ann's p, 01 of  to  where true",
    ),
    (b"define permit retrieve on x to all", 100, 1, b"14"),
    (b"define permit retrieve on u to all", 100, 1, b"11"),
    (b"define view w (u.a)", 0, 10_000, b"11"),
    (b"define integrity on u is u.a = 1", 0, 1, b"11"),
];

/// Four texts of 250 bytes of a view, and its wide number, are too wide; the statements, and what they ask
/// for, or the numbers that refuse them.
const WIDE: [(&[u8], &[u8]); 8] = [
    (b"copy p (a = i2) from \"f\"", b"13"),
    (
        b"copy p (a = c0nl) from \"f\"",
        b"ann's p, 0 until \n, from f",
    ),
    (
        b"retrieve (k = z.a, l = z.a, m = z.a, o = z.b)",
        b"ann's vo, k ? 0.0, l ? 0.0, m ? 0.0, o wide 0.1, true",
    ),
    (
        b"retrieve (k = z.a, l = z.a, m = z.a, n = z.a, o = z.b)",
        b"16",
    ),
    (
        b"retrieve (k = z.a, l = z.a, m = z.a, n = z.a, o = z.b) where 1 = \"b\"",
        b"13",
    ),
    (
        b"retrieve into p (k = z.a, l = z.a, m = z.a, n = z.a, o = z.b)",
        b"16",
    ),
    (
        b"define view p (k = z.a, l = z.a, m = z.a, n = z.a, o = z.b)",
        b"16",
    ),
    (b"define view p (k = z.a, l = z.a, m = z.a, n = z.a)", b"15"),
];

#[test]
fn views_permits_and_rules_are_resolved_or_refused_in_order(rt: HostRuntime) {
    for (text, rules, wanted) in &STORED {
        assert!(rt; shown(&rt, rt.alloc(), *text, (*rules, 0, 1)).as_slice() == *wanted);
    }
}

#[test]
fn what_is_full_and_what_is_not_declared_refuses(rt: HostRuntime) {
    for (text, permits, entries, wanted) in &CROWDED {
        assert!(rt; shown(&rt, rt.alloc(), *text, (0, *permits, *entries)).as_slice() == *wanted);
    }
}

#[test]
fn a_row_of_a_view_may_be_too_wide(rt: HostRuntime) {
    for (text, wanted) in &WIDE {
        assert!(rt; shown_wide(&rt, rt.alloc(), *text).as_slice() == *wanted);
    }
}
