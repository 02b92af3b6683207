//! Whether a database may take a change.

ghost use Rattle.std.specs.Prelude.{◌≡◌, ◌↔◌, List, true, false, IfOk, IsTrue, Some};
ghost use Rattle.base_trait.specs.Causes.{HasCause};
ghost use Rattle.calculus.specs.Change.{IsLawful};
ghost use Rattle.calculus.specs.Database.{Db};
ghost use Rattle.calculus.specs.Rows.{Row as Values};
ghost use Rattle.calculus.specs.declared.change.DbChange.TheVariants.{Rows as OfRows};
ghost use Rattle.calculus.specs.declared.query.RelKey.{RelKey as Key};
ghost use Rattle.change_check.specs.BySchema.{is_of_rows, rows_stand};
ghost use Rattle.change_laws.specs.Fit.{change_is_fit};

use crate::destroying::destroying_is_fit;
use crate::indexes::index_is_fit;
use crate::numbers::{permits_may_go, rules_may_go};
use crate::permits::{permit_is_fit, rule_is_fit};
use crate::relations::relation_is_fit;
use crate::rows::rows_are_fit;
use crate::structures::structure_is_fit;
use crate::views::view_is_fit;
use base_trait::{Base, BaseFault};
use calculus::DbChange;
use std::alloc::Global;

/// Whether the change may be applied, by the test of its kind.
fn change_is_fit<B: Base>(alloc: Global, base: &mut B, change: &DbChange) -> Result<bool, BaseFault>
    ensures known { (db : Db) → B.database base.old ≡ Some db → IfOk result (λ fit. fit ≡ change_is_fit db change.now) }
    ensures by_schema { (s : Db) → B.schema base.old ≡ Some s → is_of_rows change.now ≡ false → IfOk result (λ fit. fit ≡ change_is_fit s change.now) }
    ensures rows_by_schema { (s : Db) → B.schema base.old ≡ Some s → (rel : Key) (remove add : List Values) → change.now ≡ OfRows rel remove add
        → IfOk result (λ fit. fit ≡ true → rows_stand s rel remove add ≡ true) }
    ensures kept { B.database base.new ≡ B.database base.old }
    ensures stays { (s : Db) → B.schema base.old ≡ Some s → B.schema base.new ≡ Some s }
    ensures asked { (b : B) → B.asked b base.old → B.asked b base.new }
    ensures cause { HasCause (B.database base.old) (B.faults base.old) (B.faults base.new) result }
{
    match change {
        DbChange::Rows { rel, remove, add } => {
            rows_are_fit(alloc, base, rel, remove.items(), add.items())
        }
        DbChange::Create { info, rows } => relation_is_fit(alloc, base, info, rows.items()),
        DbChange::Modify { rel, to, keys } => {
            structure_is_fit(alloc, base, rel, *to, keys.items())
        }
        DbChange::Index {
            base: rel,
            name,
            keys,
        } => index_is_fit(alloc, base, rel, name, keys.items()),
        DbChange::DropPermits { rel, numbers } => {
            permits_may_go(alloc, base, rel, numbers.items())
        }
        DbChange::DropRules { rel, numbers } => rules_may_go(alloc, base, rel, numbers.items()),
        DbChange::Destroy { rels } => destroying_is_fit(alloc, base, rels.items()),
        DbChange::View { info, query } => view_is_fit(alloc, base, info, query),
        DbChange::Permit { rel, permit } => permit_is_fit(alloc, base, rel, permit),
        DbChange::Rule { rel, rule } => rule_is_fit(alloc, base, rel, rule),
    }
}

/// Whether a database may take a change: true exactly where the change is lawful. Asks the database
/// part by part, up to the first that is false, and doesn't change it.
///
/// The first question fixes the schema. By that alone the answer is known of each change but one of rows,
/// which is refused, too, where its rows don't differ, don't fit, or have no relation.
pub fn fit_change<B: Base>(
    alloc: Global,
    base: &mut B,
    change: &DbChange,
) -> Result<bool, BaseFault>
    ensures known { (db : Db) → B.database base.old ≡ Some db → IfOk result (λ fit. (fit ≡ true) ↔ IsLawful db change.now) }
    ensures by_schema { IsTrue B.fixes → (s : Db) → B.schema base.new ≡ Some s → is_of_rows change.now ≡ false
        → IfOk result (λ fit. (fit ≡ true) ↔ IsLawful s change.now) }
    ensures rows_by_schema { IsTrue B.fixes → (s : Db) → B.schema base.new ≡ Some s → (rel : Key) (remove add : List Values) → change.now ≡ OfRows rel remove add
        → IfOk result (λ fit. fit ≡ true → rows_stand s rel remove add ≡ true) }
    ensures kept { B.database base.new ≡ B.database base.old }
    ensures stays { (s : Db) → B.schema base.old ≡ Some s → B.schema base.new ≡ Some s }
    ensures asked { (b : B) → B.asked b base.old → B.asked b base.new }
    ensures cause { HasCause (B.database base.old) (B.faults base.old) (B.faults base.new) result }
{
    let _entries = base.count()?;
    let fit = change_is_fit(alloc, base, change)?;
    Ok(fit)
}
