//! What names are that stand alone in a statement.

ghost use Rattle.std.specs.Prelude.{◌≡◌, ◌++◌, ◌∷◌, flat_map, map, IfOk, OnOk};
ghost use Rattle.std.specs.Option.{option_to_list};
ghost use Rattle.quel_check.specs.Seen.{seen};
ghost use Rattle.quel_meaning.specs.Naming.{AttrOf};
ghost use Rattle.quel_names.specs.Roles.{meant_by};

use crate::role::Role;
use calculus::{Attr, CopyForm, Name, OutOfMemory};
use quel_check::Mention;
use std::alloc::Global;

/// What a name is; `None` where it is nothing yet.
fn mention_by<'a>(role: &Role<'a>, name: &'a Name) -> Option<Mention<'a>>
    ensures { map seen (option_to_list result) ≡ meant_by role.now name.now }
{
    match role {
        Role::New => None,
        Role::Relation => Some(Mention::Relation(name)),
        Role::Entry => Some(Mention::Entry(name)),
        Role::AttrIn(rel) => Some(Mention::AttrIn(rel, name)),
        Role::AttrOf(var) => Some(Mention::AttrOf(var, name)),
    }
}

/// Puts what a name is behind the mentions.
pub(crate) fn push_meant<'a>(
    mentions: &mut Vec<Mention<'a>>,
    role: &Role<'a>,
    name: &'a Name,
) -> Result<(), OutOfMemory>
    ensures { OnOk result (map seen mentions.new.items ≡ map seen mentions.old.items ++ meant_by role.now name.now) }
{
    match mention_by(role, name) {
        Some(mention) => Ok(mentions.push(mention)?),
        None => Ok(()),
    }
}

/// What a name is.
pub(crate) fn meant<'a>(
    alloc: Global,
    role: &Role<'a>,
    name: &'a Name,
) -> Result<Vec<Mention<'a>>, OutOfMemory>
    ensures { IfOk result (λ found. map seen found.items ≡ meant_by role.now name.now) }
{
    let mut mentions: Vec<Mention<'a>> = Vec::new(alloc);
    push_meant(&mut mentions, role, name)?;
    Ok(mentions)
}

/// Puts what each of these names is behind the mentions.
pub(crate) fn push_names<'a>(
    mentions: &mut Vec<Mention<'a>>,
    role: &Role<'a>,
    names: &'a [Name],
) -> Result<(), OutOfMemory>
    ensures { OnOk result (map seen mentions.new.items ≡ map seen mentions.old.items ++ flat_map (meant_by role.now) names.now) }
{
    for name in names {
        push_meant(mentions, role, name)?;
    }
    Ok(())
}

/// The same of the names of columns of a file.
pub(crate) fn push_columns<'a>(
    mentions: &mut Vec<Mention<'a>>,
    role: &Role<'a>,
    columns: &'a [(Name, CopyForm)],
) -> Result<(), OutOfMemory>
    ensures { OnOk result (map seen mentions.new.items ≡ map seen mentions.old.items ++ flat_map (λ c. meant_by role.now c.0) columns.now) }
{
    for column in columns {
        push_meant(mentions, role, &column.0)?;
    }
    Ok(())
}

/// The same of the names of attributes.
pub(crate) fn push_attrs<'a>(
    mentions: &mut Vec<Mention<'a>>,
    role: &Role<'a>,
    attrs: &'a [Attr],
) -> Result<(), OutOfMemory>
    ensures { OnOk result (map seen mentions.new.items ≡ map seen mentions.old.items ++ flat_map (λ a. meant_by role.now a.name) attrs.now) }
{
    for attr in attrs {
        push_meant(mentions, role, &attr.name)?;
    }
    Ok(())
}

/// What the names of these attributes are.
pub(crate) fn titles<'a>(
    alloc: Global,
    role: &Role<'a>,
    attrs: &'a [Attr],
) -> Result<Vec<Mention<'a>>, OutOfMemory>
    ensures { IfOk result (λ found. map seen found.items ≡ flat_map (λ a. meant_by role.now a.name) attrs.now) }
{
    let mut mentions: Vec<Mention<'a>> = Vec::new(alloc);
    push_attrs(&mut mentions, role, attrs)?;
    Ok(mentions)
}

/// What an attribute of a variable is, whose name is its title too.
pub(crate) fn titled_by_itself<'a>(
    alloc: Global,
    role: &Role<'a>,
    var: &'a Name,
    attr: &'a Name,
) -> Result<Vec<Mention<'a>>, OutOfMemory>
    ensures { IfOk result (λ found. map seen found.items ≡ AttrOf var.now attr.now ∷ meant_by role.now attr.now) }
{
    let mut mentions: Vec<Mention<'a>> = Vec::new(alloc);
    mentions.push(Mention::AttrOf(var, attr))?;
    push_meant(&mut mentions, role, attr)?;
    Ok(mentions)
}
