//! The change that an update makes of a database.

ghost use Rattle.std.specs.Prelude.{◌≡◌, Some, Ok, Err, IfErr};
ghost use Rattle.calculus.specs.Change.{IsLawful};
ghost use Rattle.calculus.specs.Database.{Db};
ghost use Rattle.calculus.specs.Replacement.{updated};
ghost use Rattle.calculus.specs.Who.{Unrestricted};
ghost use Rattle.stage_proc.specs.Plans.{ArePairs, IsDoableUpdate, Plans};
ghost use Rattle.stage_proc.specs.Stopping.{HasStopCause, IsRefusing};
ghost use Rattle.stage_proc.specs.TableCauses.{CanBeAnswered};
ghost use Rattle.update_change.specs.Changes.{MakesNew};

use crate::pairs::pairs_of;
use crate::stopped::Stopped;
use base_trait::Base;
use calculus::{DbChange, Pair, Update};
use std::alloc::Global;
use update_change::change_of;

/// The pairs of an update, unrestricted.
fn paired<B: Base>(alloc: Global, base: &mut B, u: &Update) -> Result<Vec<Pair>, Stopped>
    requires { (db : Db) → B.database base.old ≡ Some db → CanBeAnswered db u.now.query }
    ensures known { (db : Db) → B.database base.old ≡ Some db → Plans (λ ps. ArePairs db u.now ps.items) (λ number. updated db Unrestricted u.now ≡ Err number) result }
    ensures refusing { IfErr result IsRefusing }
    ensures kept { B.database base.new ≡ B.database base.old }
    ensures asked { (b : B) → B.asked b base.old → B.asked b base.new }
    ensures cause { HasStopCause (B.database base.old) (B.faults base.old) (B.faults base.new) result }
{
    let pairs = pairs_of(alloc, base, u)?;
    Ok(pairs)
}

/// The change that an update makes, of whose pairs these are all.
fn changed_by<B: Base>(
    alloc: Global,
    base: &mut B,
    u: &Update,
    pairs: Vec<Pair>,
) -> Result<DbChange, Stopped>
    ensures known { (db : Db) → B.database base.old ≡ Some db → MakesNew db u.now → ArePairs db u.now pairs.items
        → Plans (λ change. updated db Unrestricted u.now ≡ Ok change) (λ number. updated db Unrestricted u.now ≡ Err number) result }
    ensures refusing { IfErr result IsRefusing }
    ensures kept { B.database base.new ≡ B.database base.old }
    ensures asked { (b : B) → B.asked b base.old → B.asked b base.new }
    ensures cause { HasStopCause (B.database base.old) (B.faults base.old) (B.faults base.new) result }
{
    let change = change_of(alloc, base, u, pairs)?;
    Ok(change)
}

/// The change that an update makes of a database, which is lawful, or the number of what refuses it.
pub(crate) fn update_planned<B: Base>(
    alloc: Global,
    base: &mut B,
    u: &Update,
) -> Result<DbChange, Stopped>
    requires { (db : Db) → B.database base.old ≡ Some db → IsDoableUpdate db u.now }
    ensures known { (db : Db) → B.database base.old ≡ Some db
        → Plans (λ change. (updated db Unrestricted u.now ≡ Ok change) × IsLawful db change) (λ number. updated db Unrestricted u.now ≡ Err number) result }
    ensures refusing { IfErr result IsRefusing }
    ensures kept { B.database base.new ≡ B.database base.old }
    ensures asked { (b : B) → B.asked b base.old → B.asked b base.new }
    ensures cause { HasStopCause (B.database base.old) (B.faults base.old) (B.faults base.new) result }
{
    let pairs = paired(alloc, base, u)?;
    changed_by(alloc, base, u, pairs)
}
