//! The trees of aggregates: their slots, their by-lists and their links; and which aggregates may stand.

use crate::given::{P, Q, relation, statement};
use crate::shown::put;
use crate::shown_trees::{put_digit, put_key, put_qual, put_term, put_title};
use crate::stored::{SMALL, base, ranges};
use calculus::{
    AggOp, AggSource, ArithOp, CmpOp, Name, QAgg, QQual, QTerm, Query, RelInfo, Statement,
};
use quel_check::{Known, inner_vars, vars_in};
use quel_refusals::aggregates_allowed;
use quel_resolve::query_of;
use std::alloc::Global;
use std::process::Abort;
use std::test::*;

/// What these variables range over: `x` over `p` with `a` and `c`, each other one over `q` with `b` and `d`.
fn over(rt: &impl Abort, alloc: Global, vars: &[Name]) -> Vec<RelInfo> {
    let mut infos = Vec::new(alloc);
    for var in vars {
        let bytes = if var.bytes() == b"x".as_slice() { P } else { Q };
        infos.push(relation(rt, alloc, bytes)).expect(rt, "memory");
    }
    infos
}

/// The query of a statement.
fn query(rt: &impl Abort, alloc: Global, s: &Statement) -> Query {
    let vars = vars_in(alloc, s).expect(rt, "memory");
    let inner = inner_vars(alloc, s).expect(rt, "memory");
    let infos = over(rt, alloc, vars.items());
    let inner_infos = over(rt, alloc, inner.items());
    let mut base = base(rt, alloc, (0, 0, 1), SMALL);
    let known = Known {
        vars: vars.items(),
        infos: &infos,
        inner_vars: inner.items(),
        inner_infos: &inner_infos,
    };
    let query = query_of(alloc, &mut base, s, known).expect(rt, "a query");
    drop(base);
    drop(inner_infos);
    drop(infos);
    drop(inner);
    drop(vars);
    query
}

fn operation(op: AggOp) -> &'static [u8] {
    match op {
        AggOp::Count => b"count ".as_slice(),
        AggOp::Min => b"min ".as_slice(),
        AggOp::Max => b"max ".as_slice(),
        _ => b"? ".as_slice(),
    }
}

/// Puts each of these terms, behind a word, behind the others.
fn put_each(rt: &impl Abort, shown: &mut Vec<u8>, word: &[u8], terms: &[QTerm]) {
    for term in terms {
        put(rt, shown, word);
        put_term(rt, shown, term);
    }
}

/// Puts an aggregate of a relation behind the others: its slot, what it is over, its argument, its by-list, its
/// links and its qualification.
fn put_aggregate(rt: &impl Abort, shown: &mut Vec<u8>, g: &QAgg) {
    put(rt, shown, operation(g.op));
    put_digit(rt, shown, u8::try_from(g.slot).unwrap_or(255));
    put(rt, shown, b" of ");
    match &g.source {
        AggSource::Named(key) => put_key(rt, shown, key),
        AggSource::Rows(_) => put(rt, shown, b"a query, "),
    }
    put_term(rt, shown, &g.arg);
    put_each(rt, shown, b" by ", g.by.items());
    put_each(rt, shown, b" as ", g.link.items());
    put(rt, shown, b" where ");
    put_qual(rt, shown, &g.qual);
}

/// Puts a term that may have aggregates behind the others.
fn put_outer(rt: &impl Abort, shown: &mut Vec<u8>, term: &QTerm) {
    match term {
        QTerm::Agg(g) => put_aggregate(rt, shown, g.get()),
        QTerm::Neg(inner) => {
            put(rt, shown, b"-");
            put_outer(rt, shown, inner.get());
        }
        QTerm::Arith {
            op: ArithOp::Sub,
            left,
            right,
        } => {
            put_outer(rt, shown, left.get());
            put(rt, shown, b" - ");
            put_outer(rt, shown, right.get());
        }
        _ => put_term(rt, shown, term),
    }
}

/// Puts a qualification whose comparisons may have aggregates behind the others.
fn put_where(rt: &impl Abort, shown: &mut Vec<u8>, qual: &QQual) {
    match qual {
        QQual::Cmp {
            op: CmpOp::Eq,
            left,
            right,
        } => {
            put_outer(rt, shown, left);
            put(rt, shown, b" = ");
            put_outer(rt, shown, right);
        }
        QQual::And(left, right) => {
            put_where(rt, shown, left.get());
            put(rt, shown, b"; and ");
            put_where(rt, shown, right.get());
        }
        _ => put_qual(rt, shown, qual),
    }
}

/// The query of what a text begins with.
fn shown(rt: &impl Abort, alloc: Global, text: &[u8]) -> Vec<u8> {
    let mut shown = Vec::new(alloc);
    let s = statement(rt, alloc, text);
    let query = query(rt, alloc, &s);
    drop(s);
    for key in query.vars.items() {
        put_key(rt, &mut shown, key);
    }
    for target in query.targets.items() {
        put_title(rt, &mut shown, target);
        put_outer(rt, &mut shown, &target.term);
        put(rt, &mut shown, b"; ");
    }
    put_where(rt, &mut shown, &query.qual);
    drop(query);
    shown
}

/// Two aggregates in the targets, the second with a link, and one in the qualification.
const THREE: &[u8] = b"retrieve (x.a, n = count(y.b by y.d), m = max(x.c)) where x.c = min(y.d)";

const THREE_TREE: &[u8] =
    b"ann's p, ann's q, a i2 0.0; n wide count 0 of ann's q, 0.0 by 0.1 as 1.1 where true; m wide max 1 of ann's p, 0.1 where true; 0.1 = min 2 of ann's q, 0.1 where true";

/// A by-list of two entries, whose variable stands at another place around the aggregate than in it.
const LINKED: &[u8] =
    b"retrieve (y.b, n = count(x.a by x.c, -x.a where x.c = \"s*\")) where x.a = y.d";

const LINKED_TREE: &[u8] =
    b"ann's q, ann's p, b i2 0.0; n wide count 0 of ann's p, 0.0 by 0.1 by -0.0 as 1.1 as -1.0 where 0.1 like s*; 1.0 = 0.1";

/// Several aggregates in a term, whose variables stand nowhere around them.
const INSIDE: &[u8] =
    b"retrieve (n = count(x.a) - -max(y.d), m = min(y.b)) where max(x.c) = count(y.d) and min(x.c) = -count(x.a)";

const INSIDE_TREE: &[u8] =
    b"n wide count 0 of ann's p, 0.0 where true - -max 1 of ann's q, 0.1 where true; m wide min 2 of ann's q, 0.0 where true; max 3 of ann's p, 0.1 where true = count 4 of ann's q, 0.1 where true; and min 5 of ann's p, 0.1 where true = -count 6 of ann's p, 0.0 where true";

/// Updates: the variable that is changed stands at the front.
const CHANGED: &[u8] =
    b"replace y (b = max(x.a by x.c)) where y.d = count(y.d by y.b) and min(x.c) = y.b";

const CHANGED_TREE: &[u8] =
    b"ann's q, ann's p, b wide max 0 of ann's p, 0.0 by 0.1 as 1.1 where true; 0.1 = count 1 of ann's q, 0.1 by 0.0 as 0.0 where true; and min 2 of ann's p, 0.1 where true = 0.0";

const DELETED: &[u8] = b"delete y where y.d = min(x.c by x.a)";

const DELETED_TREE: &[u8] =
    b"ann's q, ann's p, 0.1 = min 0 of ann's p, 0.1 by 0.0 as 1.0 where true";

/// A text, and its query.
const TREES: [(&[u8], &[u8]); 5] = [
    (THREE, THREE_TREE),
    (LINKED, LINKED_TREE),
    (INSIDE, INSIDE_TREE),
    (CHANGED, CHANGED_TREE),
    (DELETED, DELETED_TREE),
];

#[test]
fn aggregates_have_slots_in_the_order_of_the_text_and_links_beside_by_lists(rt: HostRuntime) {
    for (text, wanted) in &TREES {
        assert!(rt; shown(&rt, rt.alloc(), *text).as_slice() == *wanted);
    }
}

/// Whether the aggregates of what a text begins with may stand.
fn stand(rt: &impl Abort, alloc: Global, text: &[u8]) -> bool {
    let mut base = base(rt, alloc, (0, 0, 1), SMALL);
    let ranges = ranges(rt, alloc);
    let s = statement(rt, alloc, text);
    let stand = aggregates_allowed(alloc, &mut base, &ranges, &s).expect(rt, "an answer");
    drop(s);
    drop(ranges);
    drop(base);
    stand
}

/// Aggregates of one variable each, over relations and views of one variable, and none.
const STANDING: [&[u8]; 12] = [
    b"retrieve (x.a) where x.a = y.b",
    b"retrieve (n = count(x.a))",
    b"retrieve (n = count(x.a by x.b, x.a + 1 where x.b = 1), m = max(y.a))",
    b"retrieve (n = count(v.a), m = max(t.a by t.b))",
    b"retrieve (x.a) where not x.a = max(y.a) or y.a < -min(x.b)",
    b"retrieve into w (n = count(x.a))",
    b"append to p (a = count(x.a)) where y.a = count(y.a)",
    b"replace x (a = count(y.a by y.b))",
    b"delete x where x.a = max(x.b)",
    b"define view w (x.a) where x.a = y.a",
    b"define permit retrieve on x to bob where x.a = 1",
    b"define integrity on x is x.a = 1",
];

/// Aggregates in an aggregate, of two variables, of none, and in what is kept for later.
const NOT_STANDING: [&[u8]; 19] = [
    b"retrieve (n = count(max(x.a)))",
    b"retrieve (n = count(x.a by max(x.a)))",
    b"retrieve (n = count(x.a where x.a = max(x.a)))",
    b"retrieve (n = count(x.a where not (x.a = 1 or x.b < -max(x.a))))",
    b"retrieve (n = count(x.a + y.a))",
    b"retrieve (n = count(x.a by y.a))",
    b"retrieve (n = count(x.a by x.a, y.a))",
    b"retrieve (n = count(x.a where y.a = 1))",
    b"retrieve (n = count(3))",
    b"retrieve (n = count(3 by 4 where 5 = 6))",
    b"retrieve (n = count(x.a), m = -abs(1 - count(3)))",
    b"retrieve (x.a) where x.a = max(x.a) and (x.a = 1 or not x.a = max(3))",
    b"append to p (a = count(3))",
    b"replace x (a = count(x.a + y.a))",
    b"delete x where x.a = max(3)",
    b"define view w (n = count(x.a))",
    b"define view w (x.a) where x.a = max(x.a)",
    b"define permit retrieve on x to bob where x.a = max(x.a)",
    b"define integrity on x is x.a < max(x.a)",
];

#[test]
fn aggregates_stand_where_they_are_of_one_variable_and_nothing_is_kept(rt: HostRuntime) {
    for text in &STANDING {
        assert!(rt; stand(&rt, rt.alloc(), *text));
    }
    for text in &NOT_STANDING {
        assert!(rt; !stand(&rt, rt.alloc(), *text));
    }
}
