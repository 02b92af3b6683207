//! What refuses a name that `destroy` may name.

ghost use Rattle.std.specs.Prelude.{◌≡◌, ◌||◌, ℕ, List, Some, None, IfOk, is_some, cond};
ghost use Rattle.base_trait.specs.Causes.{HasCause};
ghost use Rattle.base_trait.specs.Known.{known_at};
ghost use Rattle.calculus.specs.Database.{Db};
ghost use Rattle.calculus.specs.Keys.{key_of};
ghost use Rattle.quel_meaning.specs.Naming.{Entry, mention_refusal};
ghost use Rattle.quel_meaning.specs.Ranges.{Ranges};
ghost use Rattle.quel_names.specs.Asking.{scope_of};

use base_trait::{Base, BaseFault};
use calculus::{Name, OutOfMemory, RelKey};
use memory::both;
use std::alloc::Global;

/// The key of this owner and name.
fn key_of(alloc: Global, owner: &Name, name: &Name) -> Result<RelKey, OutOfMemory>
    ensures { IfOk result (λ key. key ≡ key_of owner.now name.now) }
{
    let (owner, name) = both(owner.copy(alloc), name.copy(alloc))?;
    Ok(RelKey { owner, name })
}

/// Whether anything stands under a key.
fn is_under<B: Base>(alloc: Global, base: &mut B, key: &RelKey) -> Result<bool, BaseFault>
    ensures known { (db : Db) → B.schema base.old ≡ Some db → IfOk result (λ b. b ≡ is_some (known_at db key.now)) }
    ensures kept { B.database base.new ≡ B.database base.old }
    ensures stays { (s : Db) → B.schema base.old ≡ Some s → B.schema base.new ≡ Some s }
    ensures asked { (b : B) → B.asked b base.old → B.asked b base.new }
    ensures cause { HasCause (B.database base.old) (B.faults base.old) (B.faults base.new) result }
{
    let info = base.info(alloc, key)?;
    Ok(info.is_some())
}

/// Whether anything stands under the key of this owner and name: a relation, a view, an index or a
/// catalogue.
fn is_known<B: Base>(
    alloc: Global,
    base: &mut B,
    owner: &Name,
    name: &Name,
) -> Result<bool, BaseFault>
    ensures known { (db : Db) → B.schema base.old ≡ Some db → IfOk result (λ b. b ≡ is_some (known_at db (key_of owner.now name.now))) }
    ensures kept { B.database base.new ≡ B.database base.old }
    ensures stays { (s : Db) → B.schema base.old ≡ Some s → B.schema base.new ≡ Some s }
    ensures asked { (b : B) → B.asked b base.old → B.asked b base.new }
    ensures cause { HasCause (B.database base.old) (B.faults base.old) (B.faults base.new) result }
{
    let key = key_of(alloc, owner, name)?;
    is_under(alloc, base, &key)
}

/// The same of the administrator's key.
fn is_known_to_all<B: Base>(alloc: Global, base: &mut B, name: &Name) -> Result<bool, BaseFault>
    ensures known { (db : Db) → B.schema base.old ≡ Some db → IfOk result (λ b. b ≡ is_some (known_at db (key_of db.dba name.now))) }
    ensures kept { B.database base.new ≡ B.database base.old }
    ensures stays { (s : Db) → B.schema base.old ≡ Some s → B.schema base.new ≡ Some s }
    ensures asked { (b : B) → B.asked b base.old → B.asked b base.new }
    ensures cause { HasCause (B.database base.old) (B.faults base.old) (B.faults base.new) result }
{
    let dba = base.dba(alloc)?;
    is_known(alloc, base, &dba, name)
}

/// Whether `destroy` may name it.
fn is_entry<B: Base>(
    alloc: Global,
    base: &mut B,
    user: &Name,
    name: &Name,
) -> Result<bool, BaseFault>
    ensures known { (db : Db) → B.schema base.old ≡ Some db
        → IfOk result (λ b. b ≡ (is_some (known_at db (key_of user.now name.now)) || is_some (known_at db (key_of db.dba name.now)))) }
    ensures kept { B.database base.new ≡ B.database base.old }
    ensures stays { (s : Db) → B.schema base.old ≡ Some s → B.schema base.new ≡ Some s }
    ensures asked { (b : B) → B.asked b base.old → B.asked b base.new }
    ensures cause { HasCause (B.database base.old) (B.faults base.old) (B.faults base.new) result }
{
    if is_known(alloc, base, user, name)? {
        return Ok(true);
    }
    is_known_to_all(alloc, base, name)
}

fn refused(known: bool) -> Option<u8>
    ensures { result ≡ cond known None (Some 10) }
{
    if known { None } else { Some(10) }
}

/// 10 where the name is nothing that `destroy` may name.
pub(crate) fn entry_refusal<B: Base>(
    alloc: Global,
    base: &mut B,
    user: &Name,
    name: &Name,
) -> Result<Option<u8>, BaseFault>
    ensures known { (db : Db) (ranges : Ranges) → B.schema base.old ≡ Some db
        → IfOk result (λ n. n ≡ mention_refusal (scope_of db user.now ranges) (Entry name.now)) }
    ensures kept { B.database base.new ≡ B.database base.old }
    ensures stays { (s : Db) → B.schema base.old ≡ Some s → B.schema base.new ≡ Some s }
    ensures asked { (b : B) → B.asked b base.old → B.asked b base.new }
    ensures cause { HasCause (B.database base.old) (B.faults base.old) (B.faults base.new) result }
{
    let known = is_entry(alloc, base, user, name)?;
    Ok(refused(known))
}
