//! The aggregates of a statement, and the variables in them.

ghost use Rattle.std.specs.Prelude.{◌≡◌, ◌++◌, [], flat_map, map, option_map, IfOk, OnOk};
ghost use Rattle.std.specs.Option.{option_to_list};
ghost use Rattle.quel_check.specs.Known.{front, inner_vars};
ghost use Rattle.quel_check.specs.Seen.{seen, vars_seen};
ghost use Rattle.quel_meaning.specs.WrittenParts.{aggregate_vars, aggregates_in, aggregates_in_item, aggregates_in_qual, items_of, text_aggregates, where_of};

use crate::mentions::{Mention, push_aggregate};
use crate::names::once;
use crate::statement_parts::{items_of, where_of};
use calculus::{AggTerm, Item, List, Name, OutOfMemory, Qual, Statement, Term};
use std::alloc::Global;

/// Puts the aggregates in a term that stand in no other behind those found.
#[tactic(auto, using(crate::proofs::InnerForms::in_int, crate::proofs::InnerForms::in_chars, crate::proofs::InnerForms::in_attr, crate::proofs::InnerForms::in_neg, crate::proofs::InnerForms::in_abs, crate::proofs::InnerForms::in_agg))]
fn push_in_term<'a>(found: &mut Vec<&'a AggTerm>, t: &'a Term) -> Result<(), OutOfMemory>
    ensures { OnOk result (map (λ g. g.now) found.new.items ≡ map (λ g. g.now) found.old.items ++ aggregates_in t.now) }
{
    match t {
        Term::Int(_) | Term::Chars(_) | Term::Attr { var: _, attr: _ } => Ok(()),
        Term::Neg(inner) | Term::Abs(inner) => push_in_term(found, inner.get()),
        Term::Arith { op: _, left, right } | Term::Concat { left, right } => {
            push_in_term(found, left.get())?;
            push_in_term(found, right.get())
        }
        Term::Agg(aggregate) => Ok(found.push(aggregate.get())?),
    }
}

/// The same for a qualification.
#[tactic(auto, using(crate::proofs::InnerForms::in_true, crate::proofs::InnerForms::in_not))]
fn push_in_qual<'a>(found: &mut Vec<&'a AggTerm>, q: &'a Qual) -> Result<(), OutOfMemory>
    ensures { OnOk result (map (λ g. g.now) found.new.items ≡ map (λ g. g.now) found.old.items ++ aggregates_in_qual q.now) }
{
    match q {
        Qual::True => Ok(()),
        Qual::Cmp { op: _, left, right } => {
            push_in_term(found, left)?;
            push_in_term(found, right)
        }
        Qual::And(left, right) | Qual::Or(left, right) => {
            push_in_qual(found, left.get())?;
            push_in_qual(found, right.get())
        }
        Qual::Not(inner) => push_in_qual(found, inner.get()),
    }
}

/// The same for an item of a target list.
fn push_in_item<'a>(found: &mut Vec<&'a AggTerm>, item: &'a Item) -> Result<(), OutOfMemory>
    ensures { OnOk result (map (λ g. g.now) found.new.items ≡ map (λ g. g.now) found.old.items ++ aggregates_in_item item.now) }
{
    match item {
        Item::Set { name: _, term } => push_in_term(found, term),
        Item::Attr { .. } => Ok(()),
        Item::All { .. } => Ok(()),
    }
}

/// The same for a target list.
fn push_in_items<'a>(found: &mut Vec<&'a AggTerm>, items: &'a [Item]) -> Result<(), OutOfMemory>
    ensures { OnOk result (map (λ g. g.now) found.new.items ≡ map (λ g. g.now) found.old.items ++ flat_map aggregates_in_item items.now) }
{
    for item in items {
        push_in_item(found, item)?;
    }
    Ok(())
}

/// The same for the qualification of a statement.
#[tactic(auto, using(crate::proofs::InnerForms::in_true))]
fn push_in_where<'a>(found: &mut Vec<&'a AggTerm>, s: &'a Statement) -> Result<(), OutOfMemory>
    ensures { OnOk result (map (λ g. g.now) found.new.items ≡ map (λ g. g.now) found.old.items ++ aggregates_in_qual (where_of s.now)) }
{
    match where_of(s) {
        Some(qual) => push_in_qual(found, qual),
        None => Ok(()),
    }
}

/// The aggregates of a statement that stand in no other, in the order of the text: those of its target
/// list, then those of its qualification.
pub fn text_aggregates(alloc: Global, s: &Statement) -> Result<Vec<&AggTerm>, OutOfMemory>
    ensures { IfOk result (λ found. map (λ g. g.now) found.items ≡ text_aggregates s.now) }
{
    let mut found: Vec<&AggTerm> = Vec::new(alloc);
    match push_in_items(&mut found, items_of(s)) {
        Ok(()) => match push_in_where(&mut found, s) {
            Ok(()) => Ok(found),
            Err(error) => Err(error),
        },
        Err(error) => Err(error),
    }
}

/// The variable that stands with its attribute in a term.
fn var_of<'a>(mention: &Mention<'a>) -> Option<&'a Name>
    ensures { option_to_list (option_map (λ n. n.now) result) ≡ vars_seen (seen mention.now) }
{
    match mention {
        Mention::AttrOf(var, _) => Some(var),
        Mention::Variable(_) => None,
        Mention::Relation(_) => None,
        Mention::AttrIn(_, _) => None,
        Mention::Entry(_) => None,
    }
}

/// Puts the variable of a mention behind the names.
fn push_var<'a>(names: &mut Vec<&'a Name>, mention: &Mention<'a>) -> Result<(), OutOfMemory>
    ensures { OnOk result (map (λ n. n.now) names.new.items ≡ map (λ n. n.now) names.old.items ++ vars_seen (seen mention.now)) }
{
    match var_of(mention) {
        Some(var) => Ok(names.push(var)?),
        None => Ok(()),
    }
}

/// Puts the variables of mentions behind the names.
fn push_vars<'a>(names: &mut Vec<&'a Name>, mentions: &[Mention<'a>]) -> Result<(), OutOfMemory>
    ensures { OnOk result (map (λ n. n.now) names.new.items ≡ map (λ n. n.now) names.old.items ++ flat_map vars_seen (map seen mentions.now)) }
{
    for mention in mentions {
        push_var(names, mention)?;
    }
    Ok(())
}

/// The different variables that an aggregate names, in its term, its by-list and its qualification, in
/// the order in which they first stand.
pub fn aggregate_vars(alloc: Global, g: &AggTerm) -> Result<List<Name>, OutOfMemory>
    ensures { IfOk result (λ vars. vars ≡ aggregate_vars g.now) }
{
    let mut mentions: Vec<Mention<'_>> = Vec::new(alloc);
    let mut names: Vec<&Name> = Vec::new(alloc);
    push_aggregate(&mut mentions, g)?;
    push_vars(&mut names, &mentions)?;
    once(alloc, &names)
}

/// Puts the first of these variables behind the others.
fn push_first(alloc: Global, found: &mut Vec<Name>, vars: &[Name]) -> Result<(), OutOfMemory>
    ensures { OnOk result (found.new.items ≡ found.old.items ++ front vars.now) }
{
    match vars.first() {
        Some(var) => {
            let copy = var.copy(alloc)?;
            Ok(found.push(copy)?)
        }
        None => Ok(()),
    }
}

/// Puts the first variable of an aggregate behind the others.
fn push_inner(alloc: Global, found: &mut Vec<Name>, g: &AggTerm) -> Result<(), OutOfMemory>
    ensures { OnOk result (found.new.items ≡ found.old.items ++ front (aggregate_vars g.now)) }
{
    let vars = aggregate_vars(alloc, g)?;
    let done = push_first(alloc, found, vars.items());
    drop(vars);
    done
}

/// Puts the first variable of each of these aggregates behind the others, of which there are none.
fn push_inners(
    alloc: Global,
    found: &mut Vec<Name>,
    aggregates: &[&AggTerm],
) -> Result<(), OutOfMemory>
    requires { found.old.items ≡ [] }
    ensures { OnOk result (found.new.items ≡ flat_map (λ g. front (aggregate_vars g)) (map (λ g. g.now) aggregates.now)) }
{
    for aggregate in aggregates {
        push_inner(alloc, found, aggregate)?;
    }
    Ok(())
}

/// The first variable of each aggregate of a statement, in the order of the text; of one that names none
/// there is none.
pub fn inner_vars(alloc: Global, s: &Statement) -> Result<List<Name>, OutOfMemory>
    ensures { IfOk result (λ vars. vars ≡ inner_vars s.now) }
{
    let aggregates = text_aggregates(alloc, s)?;
    let mut found: Vec<Name> = Vec::new(alloc);
    match push_inners(alloc, &mut found, &aggregates) {
        Ok(()) => Ok(List::of(found)),
        Err(error) => Err(error),
    }
}
