//! Terms, qualifications, texts and queries that tests share.

ghost use Rattle.std.specs.Prelude.{◌≡◌, true, length};
ghost use Rattle.view_text.specs.Scoped.{is_qual_within, is_scoped};

use calculus::{AggOp, AggSource, CmpOp, List, Name, QAgg, QQual, QTerm, Query, RelKey};
use quel_tree::{QueryTree, tree_of};
use std::alloc::Global;
use std::process::Abort;
use view_text::Expansion;

fn named(rt: &impl Abort, alloc: Global, bytes: &[u8]) -> Name {
    let name = Name::of(alloc, bytes).expect(rt, "memory");
    name.expect(rt, "a name")
}

fn key(rt: &impl Abort, alloc: Global, name: &[u8]) -> RelKey {
    RelKey {
        owner: named(rt, alloc, b"ann"),
        name: named(rt, alloc, name),
    }
}

pub(crate) fn equal(left: QTerm, right: QTerm) -> QQual {
    let op = CmpOp::Eq;
    QQual::Cmp { op, left, right }
}

/// How many rows have this number, over `parts`.
pub(crate) fn aggregate(rt: &impl Abort, alloc: Global, slot: u16, number: i64) -> QAgg {
    QAgg {
        slot,
        op: AggOp::Count,
        source: AggSource::Named(key(rt, alloc, b"parts")),
        arg: QTerm::Int(number),
        by: List::of(Vec::new(alloc)),
        link: List::of(Vec::new(alloc)),
        qual: QQual::True,
    }
}

/// The query that these bytes spell; which texts stand for its variables is said apart.
pub(crate) fn query(rt: &impl Abort, alloc: Global, bytes: &[u8]) -> Query {
    tree_of::<QueryTree>(alloc, bytes)
        .ok()
        .expect(rt, "a query")
}

/// That the first attribute of the only variable is 1.
#[tactic(auto, unfolding(view_text::specs::Scoped::is_qual_within, view_text::specs::Scoped::is_within))]
fn is_one() -> QQual
    ensures { is_qual_within 1 result ≡ true }
{
    QQual::Cmp {
        op: CmpOp::Eq,
        left: QTerm::Attr { var: 0, attr: 0 },
        right: QTerm::Int(1),
    }
}

/// The text of a relation: itself, where its first attribute is 1.
#[tactic(auto, using(crate::proofs::OfOne::scoped_of_one))]
pub(crate) fn kept(rt: &impl Abort, alloc: Global, name: &[u8]) -> Expansion
    ensures scoped { is_scoped result ≡ true }
    ensures vars { length result.vars ≡ 1 }
{
    let mut vars = Vec::new(alloc);
    vars.push(key(rt, alloc, name)).expect(rt, "memory");
    let mut conditions = Vec::new(alloc);
    conditions.push(is_one()).expect(rt, "memory");
    Expansion {
        vars: List::of(vars),
        terms: None,
        conditions: List::of(conditions),
    }
}
