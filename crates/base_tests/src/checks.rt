//! The range variables of a run; what statements name; their trees.

use crate::given::{statement, two_relations};
use crate::shared::named;
use crate::shown::put;
use crate::shown_trees::{put_digit, put_qual, put_term};
use calculus::{Item, Name, Qual, RelInfo, RelKey, Statement, Term};
use quel_check::{
    Mention, RangeTable, has_aggregate, mentions_in_qual, mentions_in_term, qual_has_aggregate,
    qual_tree, term_has_aggregate, term_tree, vars_in, where_tree,
};
use std::alloc::Global;
use std::process::Abort;
use std::test::*;

/// `replace z (a = count(y.b by x.c where y.d = "s*")) where y.d = "s*"`
const COUNTED: &[u8] = b"replace z (a = count(y.b by x.c where y.d = \"s*\")) where y.d = \"s*\"";

/// `replace z (a = x.c - -y.b) where y.d = "s*"`
const SUBTRACTED: &[u8] = b"replace z (a = x.c - -y.b) where y.d = \"s*\"";

/// The first byte of the name of what a variable ranges over.
fn relation_of(table: &RangeTable, var: &Name) -> Option<u8> {
    let key = table.of(var)?;
    key.name.bytes().first().copied()
}

/// What a variable ranges over, where `x` was declared for `p` and then for `q`: the relation's name.
fn ranged(rt: &impl Abort, alloc: Global, var: &[u8]) -> Option<u8> {
    let mut table = RangeTable::new(alloc);
    for rel in [b"p".as_slice(), b"q".as_slice()] {
        let key = RelKey {
            owner: named(rt, alloc, b"ann"),
            name: named(rt, alloc, rel),
        };
        let done = table.declare(named(rt, alloc, b"x"), key);
        done.expect(rt, "memory");
    }
    let var = named(rt, alloc, var);
    let found = relation_of(&table, &var);
    drop(var);
    drop(table);
    found
}

/// Puts a variable with its attribute behind the others.
fn put_mention(rt: &impl Abort, shown: &mut Vec<u8>, mention: &Mention<'_>) {
    match mention {
        Mention::AttrOf(var, attr) => {
            put(rt, shown, var.bytes());
            put(rt, shown, b".");
            put(rt, shown, attr.bytes());
            put(rt, shown, b" ");
        }
        _ => put(rt, shown, b"?"),
    }
}

/// Puts mentions behind the others, and lets go of them.
fn put_mentions(rt: &impl Abort, shown: &mut Vec<u8>, mentions: Vec<Mention<'_>>) {
    for mention in &mentions {
        put_mention(rt, shown, mention);
    }
    drop(mentions);
}

/// Variables, and the relations that they range over.
type Over<'a> = (&'a [Name], &'a [RelInfo]);

/// Puts whether there is an aggregate in a term, what it mentions, and its tree behind the others.
fn put_term_parts(
    rt: &impl Abort,
    alloc: Global,
    shown: &mut Vec<u8>,
    (vars, infos): Over<'_>,
    term: &Term,
) {
    put_digit(rt, shown, u8::from(term_has_aggregate(term)));
    let mentions = mentions_in_term(alloc, term).expect(rt, "memory");
    put_mentions(rt, shown, mentions);
    let tree = term_tree(alloc, vars, infos, term).expect(rt, "memory");
    put_term(rt, shown, &tree);
    drop(tree);
}

/// The same of a qualification.
fn put_qual_parts(
    rt: &impl Abort,
    alloc: Global,
    shown: &mut Vec<u8>,
    (vars, infos): Over<'_>,
    qual: &Qual,
) {
    put_digit(rt, shown, u8::from(qual_has_aggregate(qual)));
    let mentions = mentions_in_qual(alloc, qual).expect(rt, "memory");
    put_mentions(rt, shown, mentions);
    let tree = qual_tree(alloc, vars, infos, qual).expect(rt, "memory");
    put_qual(rt, shown, &tree);
    drop(tree);
}

/// Puts the tree of a statement's qualification behind the others.
fn put_where(
    rt: &impl Abort,
    alloc: Global,
    shown: &mut Vec<u8>,
    (vars, infos): Over<'_>,
    s: &Statement,
) {
    let tree = where_tree(alloc, vars, infos, s).expect(rt, "memory");
    put_qual(rt, shown, &tree);
    drop(tree);
}

/// The term of the first target of a replacement, and the qualification.
fn replaced(s: &Statement) -> Option<(&Term, &Qual)> {
    match s {
        Statement::Replace { items, qual, .. } => match items.items() {
            [Item::Set { name: _, term }, ..] => Some((term, qual)),
            _ => None,
        },
        _ => None,
    }
}

/// All but the first.
fn behind<T>(items: &[T]) -> &[T] {
    match items {
        [_, rest @ ..] => rest,
        [] => items,
    }
}

fn put_vars(rt: &impl Abort, shown: &mut Vec<u8>, vars: &[Name]) {
    for var in vars {
        put(rt, shown, var.bytes());
    }
}

/// Puts whether there is an aggregate, and the parts of a replacement over `p` and `q`, or the
/// qualification over `q` alone, behind the others.
fn put_parts(
    rt: &impl Abort,
    alloc: Global,
    shown: &mut Vec<u8>,
    (vars, infos): Over<'_>,
    s: &Statement,
) {
    put_digit(rt, shown, u8::from(has_aggregate(s)));
    match replaced(s) {
        Some((term, qual)) => {
            let over = (behind(vars), infos);
            put_term_parts(rt, alloc, shown, over, term);
            put(rt, shown, b" where ");
            put_qual_parts(rt, alloc, shown, over, qual);
        }
        None => put_where(rt, alloc, shown, (vars, behind(infos)), s),
    }
}

/// The parts of the statement that a text begins with.
fn parts(rt: &impl Abort, alloc: Global, text: &[u8]) -> Vec<u8> {
    let mut shown = Vec::new(alloc);
    let s = statement(rt, alloc, text);
    let vars = vars_in(alloc, &s).expect(rt, "memory");
    let infos = two_relations(rt, alloc);
    put_vars(rt, &mut shown, vars.items());
    put_parts(rt, alloc, &mut shown, (vars.items(), &infos), &s);
    drop(infos);
    drop(vars);
    drop(s);
    shown
}

/// A text, and the parts of its statement.
const PARTS: [(&[u8], &[u8]); 3] = [
    (COUNTED, b"zxy11y.b x.c y.d ? where 0y.d 1.1 like s*"),
    (
        SUBTRACTED,
        b"zxy00x.c y.b 0.1 - -1.0 where 0y.d 1.1 like s*",
    ),
    (b"delete y where y.d = \"s*\"", b"y00.1 like s*"),
];

#[test]
fn statements_have_variables_aggregates_mentions_and_trees(rt: HostRuntime) {
    // What a variable was declared for last is what it ranges over.
    assert!(rt; ranged(&rt, rt.alloc(), b"x") == Some(b'q'));
    assert!(rt; ranged(&rt, rt.alloc(), b"y") == None);
    for (text, shown) in &PARTS {
        assert!(rt; parts(&rt, rt.alloc(), *text).as_slice() == *shown);
    }
}
