//! Whether a statement holds an aggregate.

ghost use Rattle.std.specs.Prelude.{◌≡◌};
ghost use Rattle.std.specs.List.{list_any};
ghost use Rattle.calculus.specs.Lists.{is_any};
ghost use Rattle.quel_meaning.specs.WrittenParts.{aggregates_in, aggregates_in_item, aggregates_in_qual, text_aggregates, where_of};

use crate::statement_parts::{items_of, where_of};
use calculus::{Item, Qual, Statement, Term};

/// Whether a term holds an aggregate. Takes no memory.
#[tactic(auto, using(crate::proofs::AggregateForms::any_int, crate::proofs::AggregateForms::any_chars, crate::proofs::AggregateForms::any_attr, crate::proofs::AggregateForms::any_neg, crate::proofs::AggregateForms::any_abs, crate::proofs::AggregateForms::any_arith, crate::proofs::AggregateForms::any_concat, crate::proofs::AggregateForms::any_agg))]
pub fn term_has_aggregate(t: &Term) -> bool
    ensures { result ≡ is_any (aggregates_in t.now) }
{
    match t {
        Term::Int(_) | Term::Chars(_) | Term::Attr { .. } => false,
        Term::Neg(inner) | Term::Abs(inner) => term_has_aggregate(inner.get()),
        Term::Arith { op: _, left, right } | Term::Concat { left, right } => {
            term_has_aggregate(left.get()) || term_has_aggregate(right.get())
        }
        Term::Agg(_) => true,
    }
}

/// Whether a qualification holds an aggregate. Takes no memory.
#[tactic(auto, using(crate::proofs::AggregateForms::any_true, crate::proofs::AggregateForms::any_cmp, crate::proofs::AggregateForms::any_and, crate::proofs::AggregateForms::any_or, crate::proofs::AggregateForms::any_not))]
pub fn qual_has_aggregate(q: &Qual) -> bool
    ensures { result ≡ is_any (aggregates_in_qual q.now) }
{
    match q {
        Qual::True => false,
        Qual::Cmp { op: _, left, right } => term_has_aggregate(left) || term_has_aggregate(right),
        Qual::And(left, right) | Qual::Or(left, right) => {
            qual_has_aggregate(left.get()) || qual_has_aggregate(right.get())
        }
        Qual::Not(inner) => qual_has_aggregate(inner.get()),
    }
}

fn item_has_aggregate(item: &Item) -> bool
    ensures { result ≡ is_any (aggregates_in_item item.now) }
{
    match item {
        Item::Set { name: _, term } => term_has_aggregate(term),
        Item::Attr { .. } => false,
        Item::All { .. } => false,
    }
}

fn items_have_aggregate(items: &[Item]) -> bool
    ensures { result ≡ list_any (λ item. is_any (aggregates_in_item item)) items.now }
{
    items.iter().any(|item| item_has_aggregate(item))
}

#[tactic(auto, using(crate::proofs::AggregateForms::any_true))]
fn where_has_aggregate(s: &Statement) -> bool
    ensures { result ≡ is_any (aggregates_in_qual (where_of s.now)) }
{
    match where_of(s) {
        Some(qual) => qual_has_aggregate(qual),
        None => false,
    }
}

/// Whether a statement holds an aggregate, in its target list or in its qualification. Takes no
/// memory.
#[tactic(auto, using(crate::proofs::AggregateForms::any_joined, crate::proofs::AggregateForms::any_of_items))]
pub fn has_aggregate(s: &Statement) -> bool
    ensures { result ≡ is_any (text_aggregates s.now) }
{
    items_have_aggregate(items_of(s)) || where_has_aggregate(s)
}
