//! What a name means, and what a variable ranges over.

ghost use Rattle.std.specs.Prelude.{◌≡◌, ℕ, Some, IfOk};
ghost use Rattle.std.specs.Option.{option_and_then};
ghost use Rattle.base_trait.specs.Causes.{HasCause};
ghost use Rattle.calculus.specs.Database.{Db};
ghost use Rattle.calculus.specs.Finding.{found};
ghost use Rattle.calculus.specs.Stored.{info_at};
ghost use Rattle.calculus.specs.Structures.{is_index};
ghost use Rattle.quel_meaning.specs.Ranges.{range_of};
ghost use Rattle.quel_names.specs.Ranging.{but_index};

use base_trait::{Base, BaseFault};
use calculus::{Name, RelInfo, RelKey, Spec};
use quel_check::RangeTable;
use std::alloc::Global;

/// The relation, view or catalogue that the user means by a name; `None` exactly where there is none.
pub fn named<B: Base>(
    alloc: Global,
    base: &mut B,
    user: &Name,
    name: &Name,
) -> Result<Option<RelInfo>, BaseFault>
    ensures known { (db : Db) → B.schema base.old ≡ Some db → IfOk result (λ info. info ≡ found db user.now name.now) }
    ensures kept { B.database base.new ≡ B.database base.old }
    ensures stays { (s : Db) → B.schema base.old ≡ Some s → B.schema base.new ≡ Some s }
    ensures asked { (b : B) → B.asked b base.old → B.asked b base.new }
    ensures cause { HasCause (B.database base.old) (B.faults base.old) (B.faults base.new) result }
{
    base.find(alloc, name, user)
}

fn is_index(spec: Spec) -> bool
    ensures { result ≡ is_index spec }
{
    match spec {
        Spec::Heap => false,
        Spec::Hash => false,
        Spec::Isam => false,
        Spec::View => false,
        Spec::Index => true,
    }
}

/// What may be ranged over of what stands under a key.
fn but_index(info: Option<RelInfo>) -> Option<RelInfo>
    ensures { result ≡ but_index info }
{
    match info {
        Some(info) => {
            if is_index(info.spec) {
                None
            } else {
                Some(info)
            }
        }
        None => None,
    }
}

/// The relation, view or catalogue under a key; `None` exactly where an index or nothing stands there.
pub fn info_at<B: Base>(
    alloc: Global,
    base: &mut B,
    key: &RelKey,
) -> Result<Option<RelInfo>, BaseFault>
    ensures known { (db : Db) → B.schema base.old ≡ Some db → IfOk result (λ info. info ≡ info_at db key.now) }
    ensures kept { B.database base.new ≡ B.database base.old }
    ensures stays { (s : Db) → B.schema base.old ≡ Some s → B.schema base.new ≡ Some s }
    ensures asked { (b : B) → B.asked b base.old → B.asked b base.new }
    ensures cause { HasCause (B.database base.old) (B.faults base.old) (B.faults base.new) result }
{
    let info = base.info(alloc, key)?;
    Ok(but_index(info))
}

/// The relation, view or catalogue that the variable ranges over; `None` exactly where it was never
/// declared, or where what it was declared for is gone.
pub fn ranged<B: Base>(
    alloc: Global,
    base: &mut B,
    ranges: &RangeTable,
    var: &Name,
) -> Result<Option<RelInfo>, BaseFault>
    ensures known { (db : Db) → B.schema base.old ≡ Some db
        → IfOk result (λ info. info ≡ option_and_then (info_at db) (range_of ranges.now var.now)) }
    ensures kept { B.database base.new ≡ B.database base.old }
    ensures stays { (s : Db) → B.schema base.old ≡ Some s → B.schema base.new ≡ Some s }
    ensures asked { (b : B) → B.asked b base.old → B.asked b base.new }
    ensures cause { HasCause (B.database base.old) (B.faults base.old) (B.faults base.new) result }
{
    match ranges.of(var) {
        Some(key) => info_at(alloc, base, key),
        None => Ok(None),
    }
}
