//! The queries, the updates and the trees of statements.

use crate::carried::put_places;
use crate::given::{relation, statement, two_relations, two_vars};
use crate::shared::named;
use crate::shown::put;
use crate::shown_trees::{put_digit, put_query};
use calculus::{Asked, Checked, Query, Statement};
use quel_check::Known;
use quel_resolve::{query_of, tree_by};
use std::alloc::Global;
use std::process::Abort;
use std::test::*;
use test_bases::TestBase;

/// The query of a statement without aggregates whose variables are `x` over `p` and `y` over `q`.
fn query(rt: &impl Abort, alloc: Global, s: &Statement) -> Query {
    let vars = two_vars(rt, alloc);
    let infos = two_relations(rt, alloc);
    let known = Known {
        vars: &vars,
        infos: &infos,
        inner_vars: &[],
        inner_infos: &[],
    };
    let mut base = TestBase::of_entries(alloc, 0);
    let query = query_of(alloc, &mut base, s, known).expect(rt, "a query");
    drop(base);
    drop(vars);
    drop(infos);
    query
}

/// Puts a query, with the columns that its rows are sorted by and 1 where they descend, behind the others.
fn put_asked(rt: &impl Abort, shown: &mut Vec<u8>, asked: &Asked) {
    put_query(rt, shown, &asked.query);
    for key in asked.sort.items() {
        put(rt, shown, b" sort ");
        put_digit(rt, shown, u8::try_from(key.column).unwrap_or(255));
        put_digit(rt, shown, u8::from(key.down));
    }
}

/// Puts the tables that are printed behind the others.
fn put_answer(rt: &impl Abort, shown: &mut Vec<u8>, all: &[Asked]) {
    for asked in all {
        put_asked(rt, shown, asked);
    }
}

/// Puts what is printed, or the places in an update, behind the others.
fn put_tree(rt: &impl Abort, shown: &mut Vec<u8>, tree: Option<&Checked>) {
    match tree {
        Some(Checked::Answer(all)) => put_answer(rt, shown, all.items()),
        Some(Checked::Update(update)) => put_places(rt, shown, update.places.items()),
        Some(_) => put(rt, shown, b"?"),
        None => put(rt, shown, b"none"),
    }
}

/// Puts the tree of ann's statement with this query, which may change `r` of `a` and `b` where that is
/// there, behind the others.
fn put_tree_of(
    rt: &impl Abort,
    alloc: Global,
    shown: &mut Vec<u8>,
    s: &Statement,
    query: Query,
    is_there: bool,
) {
    let user = named(rt, alloc, b"ann");
    let info = relation(
        rt,
        alloc,
        b"\x03ann\x01r\x00\x00\x02\x01a\x00\x01\x01b\x00\x01\x00\x00",
    );
    let tree = tree_by(alloc, &user, s, query, is_there.then_some(&info)).expect(rt, "memory");
    drop(info);
    drop(user);
    put_tree(rt, shown, tree.as_ref());
    drop(tree);
}

/// The query and the tree of a statement.
fn shown(rt: &impl Abort, alloc: Global, text: &[u8], is_there: bool) -> Vec<u8> {
    let mut shown = Vec::new(alloc);
    let s = statement(rt, alloc, text);
    let query = query(rt, alloc, &s);
    put_query(rt, &mut shown, &query);
    put(rt, &mut shown, b"; ");
    put_tree_of(rt, alloc, &mut shown, &s, query, is_there);
    drop(s);
    shown
}

/// A table whose first title isn't a name alone, sorted by its second.
const SORTED: &[u8] = b"retrieve (b = -x.c, x.a, y.all) sort by a:d";

/// The query of that, and its tree.
const SORTED_TREE: &[u8] =
    b"ann's p, ann's q, b wide -0.1, a i2 0.0, b i2 1.0, d i2 1.1, true; ann's p, ann's q, b wide -0.1, a i2 0.0, b i2 1.0, d i2 1.1, true sort 11";

const APPEND: &[u8] = b"append to r (b = -x.c)";

/// A text, whether `r` is there, and the query and the tree.
const TREES: [(&[u8], bool, &[u8]); 3] = [
    (SORTED, false, SORTED_TREE),
    (APPEND, true, b"ann's p, ann's q, b wide -0.1, true; 1"),
    (APPEND, false, b"ann's p, ann's q, b wide -0.1, true; none"),
];

#[test]
fn queries_and_trees_have_names_kinds_places_and_columns(rt: HostRuntime) {
    for (text, is_there, wanted) in &TREES {
        assert!(rt; shown(&rt, rt.alloc(), *text, *is_there).as_slice() == *wanted);
    }
}
