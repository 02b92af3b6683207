//! Names that stand twice, and names to sort by.

ghost use Rattle.std.specs.Prelude.{◌≡◌, [], map, IfOk, OnOk, bytes_eq};
ghost use Rattle.std.specs.List.{list_all, list_any};
ghost use Rattle.quel_meaning.specs.Causes.{repeats, sorts_by_titles};
ghost use Rattle.quel_meaning.specs.StatementUpdate.{titles_of};

use calculus::{Domain, Name, OutOfMemory, Query, Target};
use indexmap::IndexSet;
use std::alloc::Global;

/// Whether one of the names stands twice, where none was seen before.
fn is_seen_twice<'a>(seen: &mut IndexSet<&'a Name>, names: &[&'a Name]) -> Result<bool, OutOfMemory>
    requires { seen.old.keys ≡ [] }
    ensures { IfOk result (λ found. found ≡ repeats (map (λ n. n.now) names.now)) }
{
    for name in names {
        let (_, is_new) = seen.insert_full(*name)?;
        if !is_new {
            return Ok(true);
        }
    }
    Ok(false)
}

/// Whether one of the names stands twice. Each is looked for among those before it at once.
pub fn repeats(alloc: Global, names: &[&Name]) -> Result<bool, OutOfMemory>
    ensures { IfOk result (λ found. found ≡ repeats (map (λ n. n.now) names.now)) }
{
    let mut seen: IndexSet<&Name> = IndexSet::new(alloc);
    is_seen_twice(&mut seen, names)
}

fn push_titles<'a>(names: &mut Vec<&'a Name>, targets: &'a [Target]) -> Result<(), OutOfMemory>
    requires { names.old.items ≡ [] }
    ensures { OnOk result (map (λ n. n.now) names.new.items ≡ map (λ t. t.name) targets.now) }
{
    for target in targets {
        names.push(&target.name)?;
    }
    Ok(())
}

/// Whether a title of the query's targets stands twice.
pub(crate) fn titles_repeat(alloc: Global, q: &Query) -> Result<bool, OutOfMemory>
    ensures { IfOk result (λ found. found ≡ repeats (titles_of q.now)) }
{
    let mut names: Vec<&Name> = Vec::new(alloc);
    match push_titles(&mut names, q.targets.items()) {
        Ok(()) => repeats(alloc, &names),
        Err(error) => Err(error),
    }
}

fn push_attrs<'a>(names: &mut Vec<&'a Name>, attrs: &'a [(Name, Domain)]) -> Result<(), OutOfMemory>
    requires { names.old.items ≡ [] }
    ensures { OnOk result (map (λ n. n.now) names.new.items ≡ map (λ a. a.0) attrs.now) }
{
    for (name, _) in attrs {
        names.push(name)?;
    }
    Ok(())
}

/// Whether the name of one of these attributes stands twice.
pub(crate) fn attrs_repeat(alloc: Global, attrs: &[(Name, Domain)]) -> Result<bool, OutOfMemory>
    ensures { IfOk result (λ found. found ≡ repeats (map (λ a. a.0) attrs.now)) }
{
    let mut names: Vec<&Name> = Vec::new(alloc);
    match push_attrs(&mut names, attrs) {
        Ok(()) => repeats(alloc, &names),
        Err(error) => Err(error),
    }
}

fn is_among(names: &IndexSet<&Name>, name: &Name) -> bool
    ensures { result ≡ list_any (λ k. bytes_eq name.now k.now) names.now.keys }
{
    names.contains(&name)
}

fn all_among(titles: &IndexSet<&Name>, sort: &[(Name, bool)]) -> bool
    ensures { result ≡ list_all (λ k. list_any (λ m. bytes_eq k.0 m.now) titles.now.keys) sort.now }
{
    for (name, _) in sort {
        if !is_among(titles, name) {
            return false;
        }
    }
    true
}

/// Whether each name to sort by is the title of a target, where no title was seen before. Each is put
/// there once.
fn sorts_among<'a>(
    titles: &mut IndexSet<&'a Name>,
    targets: &'a [Target],
    sort: &[(Name, bool)],
) -> Result<bool, OutOfMemory>
    requires { titles.old.keys ≡ [] }
    ensures { IfOk result (λ found. found ≡ sorts_by_titles targets.now sort.now) }
{
    for target in targets {
        titles.insert_full(&target.name)?;
    }
    Ok(all_among(titles, sort))
}

/// Whether each name to sort by is the title of a target.
pub fn sorts_by_titles(
    alloc: Global,
    targets: &[Target],
    sort: &[(Name, bool)],
) -> Result<bool, OutOfMemory>
    ensures { IfOk result (λ found. found ≡ sorts_by_titles targets.now sort.now) }
{
    let mut titles: IndexSet<&Name> = IndexSet::new(alloc);
    sorts_among(&mut titles, targets, sort)
}
