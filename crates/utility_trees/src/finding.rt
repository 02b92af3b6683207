//! What names mean.

ghost use Rattle.std.specs.Prelude.{◌≡◌, ◌≤◌, None, Some, filter_map, length, option_map, IfOk};
ghost use Rattle.base_trait.specs.Causes.{HasCause};
ghost use Rattle.base_trait.specs.Known.{known_at};
ghost use Rattle.calculus.specs.Database.{Db};
ghost use Rattle.calculus.specs.Finding.{found};
ghost use Rattle.calculus.specs.Keys.{key_of};
ghost use Rattle.quel_meaning.specs.Ranges.{Ranges};
ghost use Rattle.quel_meaning.specs.Scope.{entry_named};
ghost use Rattle.quel_names.specs.Asking.{scope_of};
ghost use Rattle.utility_trees.specs.Answers.{Says};
ghost use Rattle.utility_trees.specs.Causes.{HasCheckCause};

use crate::CheckFault;
use crate::keys::key_of;
use crate::lists::push_if;
use base_trait::{Base, BaseFault};
use calculus::refusals::NO_RELATION;
use calculus::{Name, RelInfo, RelKey};
use quel_names::named;
use std::alloc::Global;

/// What is known of the relation, view or catalogue that the user means by a name; `No` where there is
/// none.
pub(crate) fn found<B: Base>(
    alloc: Global,
    base: &mut B,
    user: &Name,
    name: &Name,
) -> Result<RelInfo, CheckFault>
    ensures known { (db : Db) → B.schema base.old ≡ Some db
        → Says (λ info. (found db user.now name.now ≡ Some info) × (length info.attrs ≤ 256)) (λ number. found db user.now name.now ≡ None) result }
    ensures kept { B.database base.new ≡ B.database base.old }
    ensures stays { (s : Db) → B.schema base.old ≡ Some s → B.schema base.new ≡ Some s }
    ensures asked { (b : B) → B.asked b base.old → B.asked b base.new }
    ensures cause { HasCheckCause (B.database base.old) (B.faults base.old) (B.faults base.new) result }
{
    match named(alloc, base, user, name)? {
        Some(info) => Ok(info),
        None => Err(CheckFault::No(NO_RELATION)),
    }
}

/// What names it.
fn key_in(info: Option<RelInfo>) -> Option<RelKey>
    ensures { result ≡ option_map (λ info. info.key) info }
{
    match info {
        Some(info) => Some(info.into_key()),
        None => None,
    }
}

/// What names the relation, view, index or catalogue under the key of this owner and name.
fn key_under<B: Base>(
    alloc: Global,
    base: &mut B,
    owner: &Name,
    name: &Name,
) -> Result<Option<RelKey>, BaseFault>
    ensures known { (db : Db) → B.schema base.old ≡ Some db → IfOk result (λ key. key ≡ option_map (λ info. info.key) (known_at db (key_of owner.now name.now))) }
    ensures kept { B.database base.new ≡ B.database base.old }
    ensures stays { (s : Db) → B.schema base.old ≡ Some s → B.schema base.new ≡ Some s }
    ensures asked { (b : B) → B.asked b base.old → B.asked b base.new }
    ensures cause { HasCause (B.database base.old) (B.faults base.old) (B.faults base.new) result }
{
    let key = key_of(alloc, owner, name)?;
    let info = base.info(alloc, &key);
    drop(key);
    Ok(key_in(info?))
}

/// The key of what `destroy` means by a name: what is the user's own, else what is the administrator's.
fn entry_key<B: Base>(
    alloc: Global,
    base: &mut B,
    user: &Name,
    dba: &Name,
    name: &Name,
) -> Result<Option<RelKey>, BaseFault>
    ensures known { (db : Db) (ranges : Ranges) → B.schema base.old ≡ Some db → dba.now ≡ db.dba
        → IfOk result (λ key. key ≡ entry_named (scope_of db user.now ranges) name.now) }
    ensures kept { B.database base.new ≡ B.database base.old }
    ensures stays { (s : Db) → B.schema base.old ≡ Some s → B.schema base.new ≡ Some s }
    ensures asked { (b : B) → B.asked b base.old → B.asked b base.new }
    ensures cause { HasCause (B.database base.old) (B.faults base.old) (B.faults base.new) result }
{
    match key_under(alloc, base, user, name)? {
        Some(key) => Ok(Some(key)),
        None => key_under(alloc, base, dba, name),
    }
}

/// The keys of what `destroy` means by these names, without those that mean nothing.
pub(crate) fn entry_keys<B: Base>(
    alloc: Global,
    base: &mut B,
    user: &Name,
    dba: &Name,
    names: &[Name],
) -> Result<Vec<RelKey>, BaseFault>
    ensures known { (db : Db) (ranges : Ranges) → B.schema base.old ≡ Some db → dba.now ≡ db.dba
        → IfOk result (λ keys. keys.items ≡ filter_map (entry_named (scope_of db user.now ranges)) names.now) }
    ensures kept { B.database base.new ≡ B.database base.old }
    ensures stays { (s : Db) → B.schema base.old ≡ Some s → B.schema base.new ≡ Some s }
    ensures asked { (b : B) → B.asked b base.old → B.asked b base.new }
    ensures cause { HasCause (B.database base.old) (B.faults base.old) (B.faults base.new) result }
{
    let mut keys = Vec::new(alloc);
    for name in names {
        let key = entry_key(alloc, base, user, dba, name)?;
        push_if(&mut keys, key)?;
    }
    Ok(keys)
}
