//! The variables of a statement.

ghost use Rattle.std.specs.Prelude.{◌≡◌, ◌++◌, ◌∷◌, [], cond, flat_map, map, option_map, IfOk, OnOk, bytes_eq};
ghost use Rattle.std.specs.Option.{option_to_list};
ghost use Rattle.std.specs.List.{list_any};
ghost use Rattle.quel_meaning.specs.WrittenParts.{first_vars, once, outer_vars, outer_vars_in_item, outer_vars_in_qual, items_of, where_of, vars_in};

use crate::statement_parts::{items_of, where_of};
use calculus::{Item, List, Name, OutOfMemory, Qual, Statement, Term};
use std::alloc::Global;

/// Puts the variables of a term that stand outside aggregates and in by-lists behind the names.
#[cycle(vars)]
#[tactic(auto, using(crate::proofs::VarForms::vars_int, crate::proofs::VarForms::vars_chars, crate::proofs::VarForms::vars_attr, crate::proofs::VarForms::vars_neg, crate::proofs::VarForms::vars_abs, crate::proofs::VarForms::vars_arith, crate::proofs::VarForms::vars_concat, crate::proofs::VarForms::vars_agg))]
fn push_vars<'a>(names: &mut Vec<&'a Name>, t: &'a Term) -> Result<(), OutOfMemory>
    ensures { OnOk result (map (λ n. n.now) names.new.items ≡ map (λ n. n.now) names.old.items ++ outer_vars t.now) }
{
    match t {
        Term::Int(_) | Term::Chars(_) => Ok(()),
        Term::Attr { var, attr: _ } => Ok(names.push(var)?),
        Term::Neg(inner) | Term::Abs(inner) => push_vars(names, inner.get()),
        Term::Arith { op: _, left, right } | Term::Concat { left, right } => {
            push_vars(names, left.get())?;
            push_vars(names, right.get())
        }
        Term::Agg(agg) => push_vars_of_terms(names, agg.get().by.items()),
    }
}

#[cycle(vars)]
fn push_vars_of_terms<'a>(names: &mut Vec<&'a Name>, terms: &'a [Term]) -> Result<(), OutOfMemory>
    ensures { OnOk result (map (λ n. n.now) names.new.items ≡ map (λ n. n.now) names.old.items ++ flat_map outer_vars terms.now) }
{
    for term in terms {
        push_vars(names, term)?;
    }
    Ok(())
}

/// The same for a qualification.
#[tactic(auto, using(crate::proofs::VarForms::qual_true, crate::proofs::VarForms::qual_cmp, crate::proofs::VarForms::qual_and, crate::proofs::VarForms::qual_or, crate::proofs::VarForms::qual_not))]
fn push_vars_of_qual<'a>(names: &mut Vec<&'a Name>, q: &'a Qual) -> Result<(), OutOfMemory>
    ensures { OnOk result (map (λ n. n.now) names.new.items ≡ map (λ n. n.now) names.old.items ++ outer_vars_in_qual q.now) }
{
    match q {
        Qual::True => Ok(()),
        Qual::Cmp { op: _, left, right } => {
            push_vars(names, left)?;
            push_vars(names, right)
        }
        Qual::And(left, right) | Qual::Or(left, right) => {
            push_vars_of_qual(names, left.get())?;
            push_vars_of_qual(names, right.get())?;
            Ok(())
        }
        Qual::Not(inner) => push_vars_of_qual(names, inner.get()),
    }
}

/// The same for an item of a target list.
fn push_vars_of_item<'a>(names: &mut Vec<&'a Name>, item: &'a Item) -> Result<(), OutOfMemory>
    ensures { OnOk result (map (λ n. n.now) names.new.items ≡ map (λ n. n.now) names.old.items ++ outer_vars_in_item item.now) }
{
    match item {
        Item::Set { name: _, term } => push_vars(names, term),
        Item::Attr { var, attr: _ } | Item::All { var } => Ok(names.push(var)?),
    }
}

/// The same for a target list.
fn push_vars_of_items<'a>(names: &mut Vec<&'a Name>, items: &'a [Item]) -> Result<(), OutOfMemory>
    ensures { OnOk result (map (λ n. n.now) names.new.items ≡ map (λ n. n.now) names.old.items ++ flat_map outer_vars_in_item items.now) }
{
    for item in items {
        push_vars_of_item(names, item)?;
    }
    Ok(())
}

/// The same for the qualification of a statement.
#[tactic(auto, using(crate::proofs::VarForms::qual_true))]
fn push_vars_of_where<'a>(names: &mut Vec<&'a Name>, s: &'a Statement) -> Result<(), OutOfMemory>
    ensures { OnOk result (map (λ n. n.now) names.new.items ≡ map (λ n. n.now) names.old.items ++ outer_vars_in_qual (where_of s.now)) }
{
    match where_of(s) {
        Some(qual) => push_vars_of_qual(names, qual),
        None => Ok(()),
    }
}

/// The variable that a statement names by itself.
fn first_var(s: &Statement) -> Option<&Name>
    ensures { option_to_list (option_map (λ n. n.now) result) ≡ first_vars s.now }
{
    match s {
        Statement::Replace { var, .. } => Some(var),
        Statement::Delete { var, .. } => Some(var),
        Statement::Permit { var, .. } => Some(var),
        Statement::Rule { var, .. } => Some(var),
        _ => None,
    }
}

/// Puts the variable that a statement names by itself behind the names.
fn push_first_var<'a>(names: &mut Vec<&'a Name>, s: &'a Statement) -> Result<(), OutOfMemory>
    ensures { OnOk result (map (λ n. n.now) names.new.items ≡ map (λ n. n.now) names.old.items ++ first_vars s.now) }
{
    match first_var(s) {
        Some(var) => Ok(names.push(var)?),
        None => Ok(()),
    }
}

/// Whether the name is one of these.
pub(crate) fn has_name(names: &[Name], name: &Name) -> bool
    ensures { result ≡ list_any (λ n. bytes_eq n name.now) names.now }
{
    names.iter().any(|n| n == name)
}

/// Puts a name behind those found where it is none of them.
fn push_new(alloc: Global, found: &mut Vec<Name>, name: &Name) -> Result<(), OutOfMemory>
    ensures { OnOk result (found.new.items ≡ cond (list_any (λ n. bytes_eq n name.now) found.old.items) found.old.items (found.old.items ++ name.now ∷ [])) }
{
    if !has_name(found, name) {
        let copy = name.copy(alloc)?;
        found.push(copy)?;
    }
    Ok(())
}

/// Puts each name once where none was found yet, in the order in which they first stand.
fn push_once(alloc: Global, found: &mut Vec<Name>, names: &[&Name]) -> Result<(), OutOfMemory>
    requires { found.old.items ≡ [] }
    ensures { OnOk result (found.new.items ≡ once (map (λ n. n.now) names.now)) }
{
    for name in names {
        push_new(alloc, found, name)?;
    }
    Ok(())
}

/// Each name once, in the order in which they first stand.
pub(crate) fn once(alloc: Global, names: &[&Name]) -> Result<List<Name>, OutOfMemory>
    ensures { IfOk result (λ found. found ≡ once (map (λ n. n.now) names.now)) }
{
    let mut found: Vec<Name> = Vec::new(alloc);
    match push_once(alloc, &mut found, names) {
        Ok(()) => Ok(List::of(found)),
        Err(error) => Err(error),
    }
}

/// Puts all variables of a statement's query behind the names: the one that it names by itself, then
/// those of its target list and of its qualification.
fn push_vars_of_statement<'a>(
    names: &mut Vec<&'a Name>,
    s: &'a Statement,
) -> Result<(), OutOfMemory>
    requires { names.old.items ≡ [] }
    ensures { OnOk result (map (λ n. n.now) names.new.items ≡ first_vars s.now ++ (flat_map outer_vars_in_item (items_of s.now) ++ outer_vars_in_qual (where_of s.now))) }
{
    push_first_var(names, s)?;
    push_vars_of_items(names, items_of(s))?;
    push_vars_of_where(names, s)?;
    Ok(())
}

/// The variables of a statement's query, each once, in the order of its text: the one that it names
/// by itself, then those outside aggregates and in by-lists.
pub fn vars_in(alloc: Global, s: &Statement) -> Result<List<Name>, OutOfMemory>
    ensures { IfOk result (λ vars. vars ≡ vars_in s.now) }
{
    let mut names: Vec<&Name> = Vec::new(alloc);
    match push_vars_of_statement(&mut names, s) {
        Ok(()) => once(alloc, &names),
        Err(error) => Err(error),
    }
}
