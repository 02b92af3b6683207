//! The constants of a tree: that they are those of their types is known of each by its type, and of a whole
//! tree by a walk through it.

ghost use Rattle.std.specs.Prelude.{IsTrue};
ghost use Rattle.calculus.specs.Chars.{is_chars};
ghost use Rattle.calculus.specs.Number.{has_64_bits};
ghost use Rattle.calculus.specs.Spelled.{qual_is_spelled, query_is_spelled};
ghost use Rattle.update_laws.specs.Walked.{term_is_walked, terms_are_walked, source_is_walked, aggregate_is_walked, target_is_walked, targets_are_walked, qual_is_walked};

use calculus::{AggSource, Chars, Name, QAgg, QQual, QTerm, Query, Target};

/// What is known of a number.
fn walk_number(n: &i64)
    ensures { IsTrue (has_64_bits n.now) }
{
    let _value = *n;
}

/// What is known of one text constant.
pub(crate) fn walk_chars(chars: &Chars)
    ensures { IsTrue (is_chars chars.now) }
{
    let _ = chars.bytes();
}

/// What is known of the constants of a term.
#[cycle(walking)]
#[tactic(auto, using(crate::proofs::WalkedForms::walked_int, crate::proofs::WalkedForms::walked_chars, crate::proofs::WalkedForms::walked_attr, crate::proofs::WalkedForms::walked_neg, crate::proofs::WalkedForms::walked_abs, crate::proofs::WalkedForms::walked_arith, crate::proofs::WalkedForms::walked_concat, crate::proofs::WalkedForms::walked_agg))]
fn walk_term(t: &QTerm)
    ensures { IsTrue (term_is_walked t.now) }
{
    match t {
        QTerm::Int(n) => walk_number(n),
        QTerm::Chars(chars) => walk_chars(chars),
        QTerm::Attr { .. } => {}
        QTerm::Neg(inner) => walk_term(inner.get()),
        QTerm::Abs(inner) => walk_term(inner.get()),
        QTerm::Arith { op: _, left, right } => {
            walk_term(left.get());
            walk_term(right.get());
        }
        QTerm::Concat { left, right } => {
            walk_term(left.get());
            walk_term(right.get());
        }
        QTerm::Agg(agg) => walk_aggregate(agg.get()),
    }
}

/// What is known of the constants of terms.
#[cycle(walking)]
#[tactic(auto, unfolding(crate::specs::Walked::terms_are_walked))]
fn walk_terms(terms: &[QTerm])
    ensures { IsTrue (terms_are_walked terms.now) }
{
    for term in terms {
        walk_term(term);
    }
}

/// What is known of the constants of an aggregate.
#[cycle(walking)]
#[tactic(auto, using(crate::proofs::WalkedForms::walked_aggregate))]
fn walk_aggregate(agg: &QAgg)
    ensures { IsTrue (aggregate_is_walked agg.now) }
{
    walk_source(&agg.source);
    walk_term(&agg.arg);
    walk_terms(agg.by.items());
    walk_terms(agg.link.items());
    walk_qual(&agg.qual);
}

/// What is known of the constants of an aggregate's source.
#[cycle(walking)]
#[tactic(auto, using(crate::proofs::WalkedForms::walked_named, crate::proofs::WalkedForms::walked_rows))]
fn walk_source(source: &AggSource)
    ensures { IsTrue (source_is_walked source.now) }
{
    match source {
        AggSource::Named(_) => {}
        AggSource::Rows(q) => query_is_spelled(q.get()),
    }
}

/// What is known of a target by its name and its term.
#[cycle(walking)]
#[tactic(auto, using(crate::proofs::WalkedForms::walked_target))]
fn walk_target(name: &Name, term: &QTerm)
    ensures { IsTrue (target_is_walked name.now term.now) }
{
    let _ = name.bytes();
    walk_term(term);
}

/// What is known of targets.
#[cycle(walking)]
#[tactic(auto, unfolding(crate::specs::Walked::targets_are_walked))]
fn walk_targets(targets: &[Target])
    ensures { IsTrue (targets_are_walked targets.now) }
{
    for target in targets {
        walk_target(&target.name, &target.term);
    }
}

/// What is known of the constants of a qualification.
#[cycle(walking)]
#[tactic(auto, using(crate::proofs::WalkedForms::walked_true, crate::proofs::WalkedForms::walked_cmp, crate::proofs::WalkedForms::walked_like, crate::proofs::WalkedForms::walked_and, crate::proofs::WalkedForms::walked_or, crate::proofs::WalkedForms::walked_not))]
pub(crate) fn walk_qual(q: &QQual)
    ensures { IsTrue (qual_is_walked q.now) }
{
    match q {
        QQual::True => {}
        QQual::Cmp { op: _, left, right } => {
            walk_term(left);
            walk_term(right);
        }
        QQual::Like {
            term,
            pattern,
            same: _,
        } => {
            walk_term(term);
            walk_chars(pattern);
        }
        QQual::And(left, right) => {
            walk_qual(left.get());
            walk_qual(right.get());
        }
        QQual::Or(left, right) => {
            walk_qual(left.get());
            walk_qual(right.get());
        }
        QQual::Not(inner) => walk_qual(inner.get()),
    }
}

/// Walks through a query: each number in it has 64 bits, and each text constant is at most 255 bytes from 32
/// to 126, as every `Chars` is, in aggregates too. Takes no memory.
#[cycle(walking)]
#[tactic(auto, using(crate::proofs::WalkedForms::walked_query))]
pub fn query_is_spelled(q: &Query)
    ensures { IsTrue (query_is_spelled q.now) }
{
    walk_targets(q.targets.items());
    walk_qual(&q.qual);
}

/// Walks through a qualification: each number in it has 64 bits, and each text constant and pattern is at
/// most 255 bytes from 32 to 126, as every `Chars` is, in aggregates too. Takes no memory.
#[tactic(auto, unfolding(crate::specs::Walked::qual_is_walked))]
pub fn qual_is_spelled(q: &QQual)
    ensures { IsTrue (qual_is_spelled q.now) }
{
    walk_qual(q);
}
