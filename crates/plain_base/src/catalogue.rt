//! What is known of the two catalogues, and the values that their rows are made of.

ghost use Rattle.std.specs.Prelude.{◌≡◌, IsTrue, All, IfOk, OnOk, [], ◌∷◌, ◌++◌, map};
ghost use Rattle.calculus.specs.Catalogue.{attribute, relation_attrs, attribute_attrs};
ghost use Rattle.calculus.specs.Keys.{key_of, same_key};
ghost use Rattle.calculus.specs.Name.{is_name};

use calculus::{Attr, Domain, Kind, List, Name, OutOfMemory, RelKey};
use memory::both;
use std::alloc::Global;

/// Whether the key has this owner and this name.
pub(crate) fn is_named(key: &RelKey, owner: &Name, name: &[u8]) -> bool
    ensures { result ≡ same_key key.now (key_of owner.now name.now) }
{
    key.owner.bytes() == owner.bytes() && key.name.bytes() == name
}

fn name_of(alloc: Global, bytes: &[u8]) -> Result<Name, OutOfMemory>
    requires { IsTrue (is_name bytes.now) }
    ensures { IfOk result (λ name. name ≡ bytes.now) }
{
    match Name::of(alloc, bytes)? {
        Some(name) => Ok(name),
        None => {
            prove!(false);
            Err(OutOfMemory)
        }
    }
}

/// The key of this owner and name.
pub(crate) fn key_of(alloc: Global, owner: &Name, name: &[u8]) -> Result<RelKey, OutOfMemory>
    requires { IsTrue (is_name name.now) }
    ensures { IfOk result (λ key. key ≡ key_of owner.now name.now) }
{
    let (owner, name) = both(owner.copy(alloc), name_of(alloc, name))?;
    Ok(RelKey { owner, name })
}

/// Puts the attribute of this name and domain behind others.
fn put_attr(
    alloc: Global,
    attrs: &mut Vec<Attr>,
    name: &[u8],
    domain: Domain,
) -> Result<(), OutOfMemory>
    requires { IsTrue (is_name name.now) }
    ensures { OnOk result (attrs.new.items ≡ attrs.old.items ++ attribute name.now domain ∷ []) }
{
    let name = name_of(alloc, name)?;
    let kind = Kind::Of(domain);
    Ok(attrs.push(Attr { name, kind })?)
}

/// Puts the attributes of these names and domains into an empty list.
fn put_attrs(
    alloc: Global,
    attrs: &mut Vec<Attr>,
    columns: &[(&[u8], Domain)],
) -> Result<(), OutOfMemory>
    requires names { All (λ c. IsTrue (is_name c.0.now)) columns.now }
    requires empty { attrs.old.items ≡ [] }
    ensures { OnOk result (attrs.new.items ≡ map (λ c. attribute c.0.now c.1) columns.now) }
{
    for (name, domain) in columns {
        put_attr(alloc, attrs, name, *domain)?;
    }
    Ok(())
}

/// The attributes of these names and domains.
fn attrs_of(alloc: Global, columns: &[(&[u8], Domain)]) -> Result<List<Attr>, OutOfMemory>
    requires { All (λ c. IsTrue (is_name c.0.now)) columns.now }
    ensures { IfOk result (λ attrs. attrs ≡ map (λ c. attribute c.0.now c.1) columns.now) }
{
    let mut attrs = Vec::new(alloc);
    match put_attrs(alloc, &mut attrs, columns) {
        Ok(()) => Ok(List::of(attrs)),
        Err(error) => Err(error),
    }
}

/// The attributes of the catalogue `relation`.
#[tactic(auto, unfolding(calculus::specs::Name::is_name))]
pub(crate) fn relation_attrs(alloc: Global) -> Result<List<Attr>, OutOfMemory>
    ensures { IfOk result (λ attrs. attrs ≡ relation_attrs) }
{
    attrs_of(
        alloc,
        &[
            (b"relid", Domain::C(12)),
            (b"relowner", Domain::C(12)),
            (b"relspec", Domain::C(6)),
            (b"relatts", Domain::I2),
        ],
    )
}

/// The attributes of the catalogue `attribute`.
#[tactic(auto, unfolding(calculus::specs::Name::is_name))]
pub(crate) fn attribute_attrs(alloc: Global) -> Result<List<Attr>, OutOfMemory>
    ensures { IfOk result (λ attrs. attrs ≡ attribute_attrs) }
{
    attrs_of(
        alloc,
        &[
            (b"attrelid", Domain::C(12)),
            (b"attowner", Domain::C(12)),
            (b"attid", Domain::I2),
            (b"attname", Domain::C(12)),
            (b"attfrmt", Domain::C(4)),
        ],
    )
}
