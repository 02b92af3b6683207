//! Whether there is room for one more relation, view or index, and whether its name is in use.

ghost use Rattle.std.specs.Prelude.{◌≡◌, is_some, IfOk, Some};
ghost use Rattle.base_trait.specs.Causes.{HasCause};
ghost use Rattle.base_trait.specs.Known.{known_at};
ghost use Rattle.calculus.specs.Catalogue.{is_catalogue_name};
ghost use Rattle.calculus.specs.Database.{Db};
ghost use Rattle.calculus.specs.Keys.{key_of};
ghost use Rattle.quel_meaning.specs.Passing.{is_full, is_taken};

use base_trait::{Base, BaseFault};
use calculus::limits::MOST_ENTRIES;
use calculus::{Name, OutOfMemory, RelKey};
use std::alloc::Global;

/// Whether there is no room for a further relation, view or index.
#[tactic(auto, unfolding(quel_meaning::specs::Passing::is_full))]
pub fn is_full<B: Base>(base: &mut B) -> Result<bool, BaseFault>
    ensures known { (db : Db) → B.schema base.old ≡ Some db → IfOk result (λ full. full ≡ is_full db) }
    ensures kept { B.database base.new ≡ B.database base.old }
    ensures stays { (s : Db) → B.schema base.old ≡ Some s → B.schema base.new ≡ Some s }
    ensures asked { (b : B) → B.asked b base.old → B.asked b base.new }
    ensures cause { HasCause (B.database base.old) (B.faults base.old) (B.faults base.new) result }
{
    let count = base.count()?;
    Ok(count >= MOST_ENTRIES)
}

/// The key of this owner and name.
pub(crate) fn key_of(alloc: Global, owner: &Name, name: &Name) -> Result<RelKey, OutOfMemory>
    ensures { IfOk result (λ key. key ≡ key_of owner.now name.now) }
{
    let owner = owner.copy(alloc)?;
    let name = name.copy(alloc)?;
    Ok(RelKey { owner, name })
}

/// Whether only a catalogue has this name.
pub fn is_catalogue_name(name: &Name) -> bool
    ensures { result ≡ is_catalogue_name name.now }
{
    name.bytes() == b"relation".as_slice() || name.bytes() == b"attribute".as_slice()
}

/// Whether a relation, a view, an index or a catalogue stands under the key.
fn is_known<B: Base>(alloc: Global, base: &mut B, key: &RelKey) -> Result<bool, BaseFault>
    ensures known { (db : Db) → B.schema base.old ≡ Some db → IfOk result (λ known. known ≡ is_some (known_at db key.now)) }
    ensures kept { B.database base.new ≡ B.database base.old }
    ensures stays { (s : Db) → B.schema base.old ≡ Some s → B.schema base.new ≡ Some s }
    ensures asked { (b : B) → B.asked b base.old → B.asked b base.new }
    ensures cause { HasCause (B.database base.old) (B.faults base.old) (B.faults base.new) result }
{
    let info = base.info(alloc, key)?;
    let known = info.is_some();
    drop(info);
    Ok(known)
}

/// Whether the user has a relation, view or index of this name, or it is a catalogue's.
#[tactic(auto, using(crate::proofs::Entries::taken_where_known, crate::proofs::Entries::taken_by_catalogue))]
pub fn is_taken<B: Base>(
    alloc: Global,
    base: &mut B,
    user: &Name,
    name: &Name,
) -> Result<bool, BaseFault>
    ensures known { (db : Db) → B.schema base.old ≡ Some db → IfOk result (λ taken. taken ≡ is_taken db user.now name.now) }
    ensures kept { B.database base.new ≡ B.database base.old }
    ensures stays { (s : Db) → B.schema base.old ≡ Some s → B.schema base.new ≡ Some s }
    ensures asked { (b : B) → B.asked b base.old → B.asked b base.new }
    ensures cause { HasCause (B.database base.old) (B.faults base.old) (B.faults base.new) result }
{
    if is_catalogue_name(name) {
        return Ok(true);
    }
    let key = key_of(alloc, user, name)?;
    let known = is_known(alloc, base, &key);
    drop(key);
    known
}
