//! How many aggregates stand before a part of a statement.

ghost use Rattle.std.specs.Prelude.{◌≡◌, ◌≤◌, ◌+◌, flat_map, length};
ghost use Rattle.quel_meaning.specs.WrittenParts.{aggregates_in, aggregates_in_item, aggregates_in_qual};

use calculus::{Item, Qual, Term};

/// How many aggregates stand before what is behind a term, where so many stand before the term: those
/// in other aggregates don't count, and it stops at 65,535.
#[tactic(auto, using(crate::proofs::InnerForms::in_int, crate::proofs::InnerForms::in_chars, crate::proofs::InnerForms::in_attr, crate::proofs::InnerForms::in_neg, crate::proofs::InnerForms::in_abs, crate::proofs::InnerForms::in_agg))]
pub(crate) fn slot_behind(slot: u16, t: &Term) -> u16
    ensures { slot + length (aggregates_in t.now) ≤ 65535 → result ≡ slot + length (aggregates_in t.now) }
{
    match t {
        Term::Int(_) | Term::Chars(_) | Term::Attr { var: _, attr: _ } => slot,
        Term::Neg(inner) | Term::Abs(inner) => slot_behind(slot, inner.get()),
        Term::Arith { op: _, left, right } | Term::Concat { left, right } => {
            slot_behind(slot_behind(slot, left.get()), right.get())
        }
        Term::Agg(_) => slot.saturating_add(1),
    }
}

/// The same for a qualification.
#[tactic(auto, using(crate::proofs::InnerForms::in_true, crate::proofs::InnerForms::in_not))]
pub(crate) fn slot_behind_qual(slot: u16, q: &Qual) -> u16
    ensures { slot + length (aggregates_in_qual q.now) ≤ 65535 → result ≡ slot + length (aggregates_in_qual q.now) }
{
    match q {
        Qual::True => slot,
        Qual::Cmp { op: _, left, right } => slot_behind(slot_behind(slot, left), right),
        Qual::And(left, right) | Qual::Or(left, right) => {
            slot_behind_qual(slot_behind_qual(slot, left.get()), right.get())
        }
        Qual::Not(inner) => slot_behind_qual(slot, inner.get()),
    }
}

/// How many aggregates stand before what is behind an item of a target list, where so many stand before
/// the item; it stops at 65,535.
pub fn slot_behind_item(slot: u16, item: &Item) -> u16
    ensures { slot + length (aggregates_in_item item.now) ≤ 65535 → result ≡ slot + length (aggregates_in_item item.now) }
{
    match item {
        Item::Set { name: _, term } => slot_behind(slot, term),
        Item::Attr { .. } => slot,
        Item::All { .. } => slot,
    }
}

/// How many aggregates stand in a target list; it stops at 65,535.
pub(crate) fn slot_behind_items(items: &[Item]) -> u16
    ensures { length (flat_map aggregates_in_item items.now) ≤ 65535 → result ≡ length (flat_map aggregates_in_item items.now) }
{
    let mut slot = 0;
    for item in items {
        slot = slot_behind_item(slot, item);
    }
    slot
}
