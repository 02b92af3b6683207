//! Names and keys, and those of the catalogues.

ghost use Rattle.std.specs.Prelude.{◌≡◌, IfOk, IsTrue};
ghost use Rattle.calculus.specs.Keys.{key_of};
ghost use Rattle.calculus.specs.Name.{is_name};

use calculus::{Name, OutOfMemory, RelKey};
use memory::both;
use std::alloc::Global;

/// The key of this owner and name.
pub(crate) fn key_of(alloc: Global, owner: &Name, name: &Name) -> Result<RelKey, OutOfMemory>
    ensures { IfOk result (λ key. key ≡ key_of owner.now name.now) }
{
    let (owner, name) = both(owner.copy(alloc), name.copy(alloc))?;
    Ok(RelKey { owner, name })
}

/// The name of these bytes, which are one.
pub(crate) fn name_of(alloc: Global, bytes: &[u8]) -> Result<Name, OutOfMemory>
    requires { IsTrue (is_name bytes.now) }
    ensures { IfOk result (λ name. name ≡ bytes.now) }
{
    match Name::of(alloc, bytes)? {
        Some(name) => Ok(name),
        None => {
            prove!(false);
            Err(OutOfMemory)
        }
    }
}

/// The key of the administrator's with this name.
pub(crate) fn catalogue_key(alloc: Global, dba: &Name, name: &[u8]) -> Result<RelKey, OutOfMemory>
    requires { IsTrue (is_name name.now) }
    ensures { IfOk result (λ key. key ≡ key_of dba.now name.now) }
{
    let (owner, name) = both(dba.copy(alloc), name_of(alloc, name))?;
    Ok(RelKey { owner, name })
}
