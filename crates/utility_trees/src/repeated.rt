//! What stands twice.

ghost use Rattle.std.specs.Prelude.{◌≡◌, [], not, map, IfOk, OnOk};
ghost use Rattle.calculus.specs.Keys.{same_key};
ghost use Rattle.calculus.specs.Lists.{differ_by};
ghost use Rattle.quel_meaning.specs.Causes.{repeats};

use calculus::{CopyForm, Name, OutOfMemory, RelKey};
use indexmap::IndexSet;
use quel_refusals::repeats;
use std::alloc::Global;

/// Whether one of the keys stands twice, where none was seen before.
fn is_seen_twice<'a>(
    seen: &mut IndexSet<&'a RelKey>,
    keys: &'a [RelKey],
) -> Result<bool, OutOfMemory>
    requires { seen.old.keys ≡ [] }
    ensures { IfOk result (λ found. found ≡ not (differ_by same_key keys.now)) }
{
    for key in keys {
        let (_, is_new) = seen.insert_full(key)?;
        if !is_new {
            return Ok(true);
        }
    }
    Ok(false)
}

/// Whether one of the keys stands twice. Each is looked for among those before it at once.
pub(crate) fn keys_repeat(alloc: Global, keys: &[RelKey]) -> Result<bool, OutOfMemory>
    ensures { IfOk result (λ found. found ≡ not (differ_by same_key keys.now)) }
{
    let mut seen: IndexSet<&RelKey> = IndexSet::new(alloc);
    is_seen_twice(&mut seen, keys)
}

fn push_names<'a>(names: &mut Vec<&'a Name>, more: &'a [Name]) -> Result<(), OutOfMemory>
    requires { names.old.items ≡ [] }
    ensures { OnOk result (map (λ n. n.now) names.new.items ≡ more.now) }
{
    for name in more {
        names.push(name)?;
    }
    Ok(())
}

/// Whether one of the names stands twice.
pub(crate) fn names_repeat(alloc: Global, names: &[Name]) -> Result<bool, OutOfMemory>
    ensures { IfOk result (λ found. found ≡ repeats names.now) }
{
    let mut behind: Vec<&Name> = Vec::new(alloc);
    match push_names(&mut behind, names) {
        Ok(()) => repeats(alloc, &behind),
        Err(error) => Err(error),
    }
}

fn push_columns<'a>(
    names: &mut Vec<&'a Name>,
    columns: &'a [(Name, CopyForm)],
) -> Result<(), OutOfMemory>
    requires { names.old.items ≡ [] }
    ensures { OnOk result (map (λ n. n.now) names.new.items ≡ map (λ c. c.0) columns.now) }
{
    for (name, _) in columns {
        names.push(name)?;
    }
    Ok(())
}

/// Whether the name of one of these columns stands twice.
pub(crate) fn columns_repeat(
    alloc: Global,
    columns: &[(Name, CopyForm)],
) -> Result<bool, OutOfMemory>
    ensures { IfOk result (λ found. found ≡ repeats (map (λ c. c.0) columns.now)) }
{
    let mut names: Vec<&Name> = Vec::new(alloc);
    match push_columns(&mut names, columns) {
        Ok(()) => repeats(alloc, &names),
        Err(error) => Err(error),
    }
}
