//! The names of a statement in front of its target list and its qualification.

ghost use Rattle.std.specs.Prelude.{◌≡◌, [], ◌∷◌, ◌++◌, flat_map, map, IfOk, OnOk};
ghost use Rattle.std.specs.Option.{option_to_list};
ghost use Rattle.quel_check.specs.Seen.{seen};
ghost use Rattle.quel_meaning.specs.Naming.{Entry, Relation, Variable, AttrIn, AttrOf};
ghost use Rattle.quel_names.specs.Parts.{head};
ghost use Rattle.quel_names.specs.Roles.{meant_by};

use crate::meant::{push_columns, push_names};
use crate::role::Role;
use calculus::{CopyForm, Name, OutOfMemory, Statement};
use quel_check::Mention;
use std::alloc::Global;

fn alone<'a>(alloc: Global, mention: &Mention<'a>) -> Result<Vec<Mention<'a>>, OutOfMemory>
    ensures { IfOk result (λ found. map seen found.items ≡ seen mention.now ∷ []) }
{
    let mut mentions: Vec<Mention<'a>> = Vec::new(alloc);
    mentions.push(*mention)?;
    Ok(mentions)
}

fn each<'a>(
    alloc: Global,
    role: &Role<'a>,
    names: &'a [Name],
) -> Result<Vec<Mention<'a>>, OutOfMemory>
    ensures { IfOk result (λ found. map seen found.items ≡ flat_map (meant_by role.now) names.now) }
{
    let mut mentions: Vec<Mention<'a>> = Vec::new(alloc);
    push_names(&mut mentions, role, names)?;
    Ok(mentions)
}

fn push_with_names<'a>(
    mentions: &mut Vec<Mention<'a>>,
    first: &Mention<'a>,
    role: &Role<'a>,
    names: &'a [Name],
) -> Result<(), OutOfMemory>
    ensures { OnOk result (map seen mentions.new.items ≡ map seen mentions.old.items ++ seen first.now ∷ flat_map (meant_by role.now) names.now) }
{
    mentions.push(*first)?;
    push_names(mentions, role, names)
}

fn with_names<'a>(
    alloc: Global,
    first: &Mention<'a>,
    role: &Role<'a>,
    names: &'a [Name],
) -> Result<Vec<Mention<'a>>, OutOfMemory>
    ensures { IfOk result (λ found. map seen found.items ≡ seen first.now ∷ flat_map (meant_by role.now) names.now) }
{
    let mut mentions: Vec<Mention<'a>> = Vec::new(alloc);
    push_with_names(&mut mentions, first, role, names)?;
    Ok(mentions)
}

fn push_with_columns<'a>(
    mentions: &mut Vec<Mention<'a>>,
    rel: &'a Name,
    columns: &'a [(Name, CopyForm)],
) -> Result<(), OutOfMemory>
    ensures { OnOk result (map seen mentions.new.items ≡ map seen mentions.old.items ++ Relation rel.now ∷ map (λ c. AttrIn rel.now c.0) columns.now) }
{
    mentions.push(Mention::Relation(rel))?;
    push_columns(mentions, &Role::AttrIn(rel), columns)
}

fn with_columns<'a>(
    alloc: Global,
    rel: &'a Name,
    columns: &'a [(Name, CopyForm)],
) -> Result<Vec<Mention<'a>>, OutOfMemory>
    ensures { IfOk result (λ found. map seen found.items ≡ Relation rel.now ∷ map (λ c. AttrIn rel.now c.0) columns.now) }
{
    let mut mentions: Vec<Mention<'a>> = Vec::new(alloc);
    push_with_columns(&mut mentions, rel, columns)?;
    Ok(mentions)
}

fn relation(alloc: Global, rel: &Name) -> Result<Vec<Mention<'_>>, OutOfMemory>
    ensures { IfOk result (λ found. map seen found.items ≡ Relation rel.now ∷ []) }
{
    alone(alloc, &Mention::Relation(rel))
}

fn variable(alloc: Global, var: &Name) -> Result<Vec<Mention<'_>>, OutOfMemory>
    ensures { IfOk result (λ found. map seen found.items ≡ Variable var.now ∷ []) }
{
    alone(alloc, &Mention::Variable(var))
}

fn attrs_in<'a>(
    alloc: Global,
    rel: &'a Name,
    names: &'a [Name],
) -> Result<Vec<Mention<'a>>, OutOfMemory>
    ensures { IfOk result (λ found. map seen found.items ≡ Relation rel.now ∷ map (AttrIn rel.now) names.now) }
{
    with_names(alloc, &Mention::Relation(rel), &Role::AttrIn(rel), names)
}

fn attrs_of<'a>(
    alloc: Global,
    var: &'a Name,
    names: &'a [Name],
) -> Result<Vec<Mention<'a>>, OutOfMemory>
    ensures { IfOk result (λ found. map seen found.items ≡ Variable var.now ∷ map (AttrOf var.now) names.now) }
{
    with_names(alloc, &Mention::Variable(var), &Role::AttrOf(var), names)
}

fn entries(alloc: Global, names: &[Name]) -> Result<Vec<Mention<'_>>, OutOfMemory>
    ensures { IfOk result (λ found. map seen found.items ≡ map Entry names.now) }
{
    each(alloc, &Role::Entry, names)
}

fn relations(alloc: Global, names: &[Name]) -> Result<Vec<Mention<'_>>, OutOfMemory>
    ensures { IfOk result (λ found. map seen found.items ≡ map Relation names.now) }
{
    each(alloc, &Role::Relation, names)
}

fn asked(alloc: Global, rel: &Option<Name>) -> Result<Vec<Mention<'_>>, OutOfMemory>
    ensures { IfOk result (λ found. map seen found.items ≡ map Relation (option_to_list rel.now)) }
{
    match rel {
        Some(rel) => relation(alloc, rel),
        None => Ok(Vec::new(alloc)),
    }
}

/// The names of a statement in front of its target list and its qualification, in the order of its
/// text, without those that it makes.
pub(crate) fn head(alloc: Global, s: &Statement) -> Result<Vec<Mention<'_>>, OutOfMemory>
    ensures { IfOk result (λ found. map seen found.items ≡ head s.now) }
{
    match s {
        Statement::Range { rel, .. }
        | Statement::Append { rel, .. }
        | Statement::DropPermits { rel, .. }
        | Statement::DropRules { rel, .. } => relation(alloc, rel),
        Statement::Replace { var, .. }
        | Statement::Delete { var, .. }
        | Statement::Rule { var, .. } => variable(alloc, var),
        Statement::Retrieve { .. } | Statement::Create { .. } | Statement::View { .. } => {
            Ok(Vec::new(alloc))
        }
        Statement::Destroy { rels } => entries(alloc, rels.items()),
        Statement::Modify { rel, keys, .. }
        | Statement::Index {
            base: rel,
            keys,
            ..
        } => attrs_in(alloc, rel, keys.items()),
        Statement::Print { rels } => relations(alloc, rels.items()),
        Statement::Help { rel } => asked(alloc, rel),
        Statement::Copy { rel, columns, .. } => with_columns(alloc, rel, columns.items()),
        Statement::Permit { var, attrs, .. } => attrs_of(alloc, var, attrs.items()),
    }
}
