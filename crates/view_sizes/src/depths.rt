//! How deep trees without aggregates are.

ghost use Rattle.std.specs.Prelude.{◌≡◌, ◌+◌, ◌-◌, ◌^◌, min, max};
ghost use Rattle.calculus.specs.QueryParts.{qual_of, targets_of};
ghost use Rattle.view_sizes.specs.Sized.{greatest_depth, qual_depth, term_depth};

use calculus::{QQual, QTerm, Query, Target};

/// One level above two trees.
fn above(left: u64, right: u64) -> u64
    ensures { result ≡ min (1 + max left right) (2 ^ 64 - 1) }
{
    left.max(right).saturating_add(1)
}

/// How deep a term is, where an aggregate counts 1. Takes no memory.
#[tactic(auto, using(crate::proofs::DepthForms::depth_int, crate::proofs::DepthForms::depth_chars, crate::proofs::DepthForms::depth_attr, crate::proofs::DepthForms::depth_neg, crate::proofs::DepthForms::depth_abs, crate::proofs::DepthForms::depth_arith, crate::proofs::DepthForms::depth_concat, crate::proofs::DepthForms::depth_agg))]
pub fn term_depth(t: &QTerm) -> u64
    ensures { result ≡ min (term_depth t.now) (2 ^ 64 - 1) }
{
    match t {
        QTerm::Int(_) => 1,
        QTerm::Chars(_) => 1,
        QTerm::Attr { var: _, attr: _ } => 1,
        QTerm::Neg(inner) => above(term_depth(inner.get()), 0),
        QTerm::Abs(inner) => above(term_depth(inner.get()), 0),
        QTerm::Arith { op: _, left, right } => {
            above(term_depth(left.get()), term_depth(right.get()))
        }
        QTerm::Concat { left, right } => above(term_depth(left.get()), term_depth(right.get())),
        QTerm::Agg(_) => 1,
    }
}

/// How deep a qualification is, where an aggregate counts 1. Takes no memory.
#[tactic(auto, using(crate::proofs::DepthForms::depth_true, crate::proofs::DepthForms::depth_cmp, crate::proofs::DepthForms::depth_like, crate::proofs::DepthForms::depth_and, crate::proofs::DepthForms::depth_or, crate::proofs::DepthForms::depth_not))]
pub fn qual_depth(q: &QQual) -> u64
    ensures { result ≡ min (qual_depth q.now) (2 ^ 64 - 1) }
{
    match q {
        QQual::True => 1,
        QQual::Cmp { op: _, left, right } => above(term_depth(left), term_depth(right)),
        QQual::Like {
            term,
            pattern: _,
            same: _,
        } => above(term_depth(term), 0),
        QQual::And(left, right) => above(qual_depth(left.get()), qual_depth(right.get())),
        QQual::Or(left, right) => above(qual_depth(left.get()), qual_depth(right.get())),
        QQual::Not(inner) => above(qual_depth(inner.get()), 0),
    }
}

/// The greatest depth of the terms of targets.
fn targets_depth(targets: &[Target]) -> u64
    ensures { result ≡ min (greatest_depth targets.now) (2 ^ 64 - 1) }
{
    let Some((target, others)) = targets.split_first() else {
        return 0;
    };
    term_depth(&target.term).max(targets_depth(others))
}

/// How deep a query is, where an aggregate counts 1. Takes no memory.
pub fn query_depth(query: &Query) -> u64
    ensures { result ≡ min (1 + max (greatest_depth (targets_of query.now)) (qual_depth (qual_of query.now))) (2 ^ 64 - 1) }
{
    above(
        targets_depth(query.targets.items()),
        qual_depth(&query.qual),
    )
}
