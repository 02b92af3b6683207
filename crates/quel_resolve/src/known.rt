//! What is known of what the variables range over: keys and kinds.

ghost use Rattle.std.specs.Prelude.{◌≡◌, map, vec_items, IfOk};
ghost use Rattle.calculus.specs.Keys.{key_of};
ghost use Rattle.quel_resolve.specs.Targets.{kinds_in};

use calculus::{Attr, Kind, Name, OutOfMemory, RelInfo, RelKey, TryCopy};
use memory::both;
use std::alloc::Global;

/// The key of this owner and name.
pub(crate) fn key_of(alloc: Global, owner: &Name, name: &Name) -> Result<RelKey, OutOfMemory>
    ensures { IfOk result (λ key. key ≡ key_of owner.now name.now) }
{
    let (owner, name) = both(owner.copy(alloc), name.copy(alloc))?;
    Ok(RelKey { owner, name })
}

/// The key of each.
pub(crate) fn keys_of(alloc: Global, infos: &[RelInfo]) -> Result<Vec<RelKey>, OutOfMemory>
    ensures { IfOk result (λ keys. keys.items ≡ map (λ info. info.key) infos.now) }
{
    let mut keys = Vec::new(alloc);
    for info in infos {
        keys.push(info.key.copy(alloc)?)?;
    }
    Ok(keys)
}

fn kinds_of_attrs(alloc: Global, attrs: &[Attr]) -> Result<Vec<Kind>, OutOfMemory>
    ensures { IfOk result (λ kinds. kinds.items ≡ map (λ a. a.kind) attrs.now) }
{
    let mut kinds = Vec::new(alloc);
    for attr in attrs {
        kinds.push(attr.kind)?;
    }
    Ok(kinds)
}

/// The kinds of the attributes of each.
pub(crate) fn kinds_of(alloc: Global, infos: &[RelInfo]) -> Result<Vec<Vec<Kind>>, OutOfMemory>
    ensures { IfOk result (λ kinds. map vec_items kinds.items ≡ kinds_in infos.now) }
{
    let mut kinds = Vec::new(alloc);
    for info in infos {
        kinds.push(kinds_of_attrs(alloc, info.attrs.items())?)?;
    }
    Ok(kinds)
}
