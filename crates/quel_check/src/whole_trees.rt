//! Trees of terms and qualifications in which aggregates may stand, where the names in them were found.

ghost use Rattle.std.specs.Prelude.{◌≡◌, true, IfOk};
ghost use Rattle.quel_check.specs.Known.{IsQualFrom, IsTermFrom, Knows, inner_vars};
ghost use Rattle.quel_meaning.specs.Aggregates.{aggregates_allowed};
ghost use Rattle.quel_meaning.specs.Scope.{Scope};
ghost use Rattle.quel_meaning.specs.WrittenParts.{vars_in, where_of};
ghost use Rattle.quel_meaning.specs.WrittenQuery.{where_tree};
ghost use Rattle.std.specs.Prelude.{flat_map, length};
ghost use Rattle.quel_meaning.specs.WrittenParts.{aggregates_in_item, items_of};

use crate::inner_trees::aggregate_tree;
use crate::known::Known;
use crate::places::compared;
use crate::slots::{slot_behind, slot_behind_items, slot_behind_qual};
use crate::statement_parts::{items_of, where_of};
use crate::trees::term_tree;
use calculus::{Boxed, OutOfMemory, QQual, QTerm, Qual, Statement, Term};
use memory::both;
use std::alloc::Global;

#[cycle(trees_from)]
fn boxed_tree_from(
    alloc: Global,
    known: Known<'_>,
    slot: u16,
    t: &Term,
) -> Result<Boxed<QTerm>, OutOfMemory>
    ensures { IfOk result (IsTermFrom known.entry.vars.now known.entry.infos.now known.entry.inner_vars.now known.entry.inner_infos.now slot t.now) }
{
    Boxed::new(alloc, term_tree_from(alloc, known, slot, t)?)
}

/// The tree of a term before which `slot` aggregates stand in its statement: each of its variables that
/// stands outside aggregates or in a by-list is one of `known`, and so is the only variable of each of its
/// aggregates, which hold no others; it has so few of them that no slot is above 65,535. Of other terms
/// nothing is said.
#[cycle(trees_from)]
pub fn term_tree_from(
    alloc: Global,
    known: Known<'_>,
    slot: u16,
    t: &Term,
) -> Result<QTerm, OutOfMemory>
    ensures { IfOk result (IsTermFrom known.entry.vars.now known.entry.infos.now known.entry.inner_vars.now known.entry.inner_infos.now slot t.now) }
{
    match t {
        Term::Int(_) | Term::Chars(_) | Term::Attr { var: _, attr: _ } => {
            term_tree(alloc, known.vars, known.infos, t)
        }
        Term::Neg(inner) => Ok(QTerm::Neg(boxed_tree_from(alloc, known, slot, inner.get())?)),
        Term::Abs(inner) => Ok(QTerm::Abs(boxed_tree_from(alloc, known, slot, inner.get())?)),
        Term::Arith { op, left, right } => {
            let behind = slot_behind(slot, left.get());
            let left = boxed_tree_from(alloc, known, slot, left.get());
            let right = boxed_tree_from(alloc, known, behind, right.get());
            let (left, right) = both(left, right)?;
            Ok(QTerm::Arith {
                op: *op,
                left,
                right,
            })
        }
        Term::Concat { left, right } => {
            let behind = slot_behind(slot, left.get());
            let left = boxed_tree_from(alloc, known, slot, left.get());
            let right = boxed_tree_from(alloc, known, behind, right.get());
            let (left, right) = both(left, right)?;
            Ok(QTerm::Concat { left, right })
        }
        Term::Agg(aggregate) => aggregate_tree(alloc, known, slot, aggregate.get()),
    }
}

#[cycle(quals_from)]
fn boxed_qual_from(
    alloc: Global,
    known: Known<'_>,
    slot: u16,
    q: &Qual,
) -> Result<Boxed<QQual>, OutOfMemory>
    ensures { IfOk result (IsQualFrom known.entry.vars.now known.entry.infos.now known.entry.inner_vars.now known.entry.inner_infos.now slot q.now) }
{
    Boxed::new(alloc, qual_tree_from(alloc, known, slot, q)?)
}

/// The tree of a qualification before which `slot` aggregates stand in its statement, as
/// `term_tree_from` gives that of a term.
#[cycle(quals_from)]
pub fn qual_tree_from(
    alloc: Global,
    known: Known<'_>,
    slot: u16,
    q: &Qual,
) -> Result<QQual, OutOfMemory>
    ensures { IfOk result (IsQualFrom known.entry.vars.now known.entry.infos.now known.entry.inner_vars.now known.entry.inner_infos.now slot q.now) }
{
    match q {
        Qual::True => Ok(QQual::True),
        Qual::Cmp { op, left, right } => {
            let behind = slot_behind(slot, left);
            let left = term_tree_from(alloc, known, slot, left);
            let right = term_tree_from(alloc, known, behind, right);
            let (left, right) = both(left, right)?;
            Ok(compared(*op, left, right))
        }
        Qual::And(left, right) => {
            let behind = slot_behind_qual(slot, left.get());
            let left = boxed_qual_from(alloc, known, slot, left.get());
            let right = boxed_qual_from(alloc, known, behind, right.get());
            let (left, right) = both(left, right)?;
            Ok(QQual::And(left, right))
        }
        Qual::Or(left, right) => {
            let behind = slot_behind_qual(slot, left.get());
            let left = boxed_qual_from(alloc, known, slot, left.get());
            let right = boxed_qual_from(alloc, known, behind, right.get());
            let (left, right) = both(left, right)?;
            Ok(QQual::Or(left, right))
        }
        Qual::Not(inner) => Ok(QQual::Not(boxed_qual_from(alloc, known, slot, inner.get())?)),
    }
}

fn qual_tree_behind(
    alloc: Global,
    known: Known<'_>,
    slot: u16,
    s: &Statement,
) -> Result<QQual, OutOfMemory>
    ensures { IfOk result (IsQualFrom known.entry.vars.now known.entry.infos.now known.entry.inner_vars.now known.entry.inner_infos.now slot (where_of s.now)) }
{
    match where_of(s) {
        Some(qual) => qual_tree_from(alloc, known, slot, qual),
        None => Ok(QQual::True),
    }
}

/// The tree of a statement's qualification, where the statement's aggregates may stand, and `known` are
/// its variables with what they range over.
pub fn where_tree_from(alloc: Global, known: Known<'_>, s: &Statement) -> Result<QQual, OutOfMemory>
    ensures { IfOk result (λ tree. (scope : Scope) → known.entry.vars.now ≡ vars_in s.now → known.entry.inner_vars.now ≡ inner_vars s.now → Knows scope known.entry.vars.now known.entry.infos.now → Knows scope known.entry.inner_vars.now known.entry.inner_infos.now → aggregates_allowed scope s.now ≡ true → tree ≡ where_tree scope s.now) }
{
    qual_tree_behind(alloc, known, slot_behind_items(items_of(s)), s)
}
