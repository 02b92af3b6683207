//! Views, and qualifications over one row, that are to be stored.

ghost use Rattle.std.specs.Prelude.{◌≡◌, ◌&&◌, IfOk, Some};
ghost use Rattle.base_trait.specs.Causes.{HasCause};
ghost use Rattle.calculus.specs.Database.{Db};
ghost use Rattle.quel_meaning.specs.Fit.{is_new, listed_attrs_fit, row_qual_fits, view_fits};

use crate::standing::{can_be_ranged_over, is_new};
use crate::target_attributes::target_attrs_stand;
use base_trait::{Base, BaseFault};
use calculus::{Permit, QQual, Query, RelKey};
use change_check::{attrs_are_places, row_qual_is_fit, view_query_is_fit};
use std::alloc::Global;
use update_laws::{qual_is_spelled, query_is_spelled};

/// The attributes that a permit lists at most.
const MOST_LISTED: usize = 65_535;

/// Whether the query of a new view is fit: what it names is there, its kinds fit and no aggregate stands;
/// its attributes, variables, size and level are within the limits.
fn view_fits<B: Base>(alloc: Global, base: &mut B, q: &Query) -> Result<bool, BaseFault>
    ensures known { (db : Db) → B.schema base.old ≡ Some db → IfOk result (λ fit. fit ≡ view_fits db q.now) }
    ensures kept { B.database base.new ≡ B.database base.old }
    ensures stays { (s : Db) → B.schema base.old ≡ Some s → B.schema base.new ≡ Some s }
    ensures asked { (b : B) → B.asked b base.old → B.asked b base.new }
    ensures cause { HasCause (B.database base.old) (B.faults base.old) (B.faults base.new) result }
{
    query_is_spelled(q);
    if !target_attrs_stand(alloc, q)? {
        return Ok(false);
    }
    view_query_is_fit(alloc, base, q)
}

/// Whether a view of this key may be made of a query.
pub(crate) fn new_view_fits<B: Base>(
    alloc: Global,
    base: &mut B,
    rel: &RelKey,
    q: &Query,
) -> Result<bool, BaseFault>
    ensures known { (db : Db) → B.schema base.old ≡ Some db → IfOk result (λ fit. fit ≡ (is_new db rel.now.owner rel.now.name && view_fits db q.now)) }
    ensures kept { B.database base.new ≡ B.database base.old }
    ensures stays { (s : Db) → B.schema base.old ≡ Some s → B.schema base.new ≡ Some s }
    ensures asked { (b : B) → B.asked b base.old → B.asked b base.new }
    ensures cause { HasCause (B.database base.old) (B.faults base.old) (B.faults base.new) result }
{
    if !is_new(alloc, base, &rel.owner, &rel.name)? {
        return Ok(false);
    }
    view_fits(alloc, base, q)
}

/// Whether a qualification over a row of what stands under a key is fit: that is there, the kinds fit, no
/// aggregate stands, and it isn't too large to be kept.
pub(crate) fn row_qual_fits<B: Base>(
    alloc: Global,
    base: &mut B,
    rel: &RelKey,
    qual: &QQual,
) -> Result<bool, BaseFault>
    ensures known { (db : Db) → B.schema base.old ≡ Some db → IfOk result (λ fit. fit ≡ row_qual_fits db rel.now qual.now) }
    ensures kept { B.database base.new ≡ B.database base.old }
    ensures stays { (s : Db) → B.schema base.old ≡ Some s → B.schema base.new ≡ Some s }
    ensures asked { (b : B) → B.asked b base.old → B.asked b base.new }
    ensures cause { HasCause (B.database base.old) (B.faults base.old) (B.faults base.new) result }
{
    qual_is_spelled(qual);
    if !can_be_ranged_over(alloc, base, rel)? {
        return Ok(false);
    }
    row_qual_is_fit(alloc, base, rel, qual)
}

/// Whether a permit lists attributes of its relation, and not too many.
fn listed_attrs_fit<B: Base>(
    alloc: Global,
    base: &mut B,
    rel: &RelKey,
    permit: &Permit,
) -> Result<bool, BaseFault>
    ensures known { (db : Db) → B.schema base.old ≡ Some db → IfOk result (λ fit. fit ≡ listed_attrs_fit db rel.now permit.now) }
    ensures kept { B.database base.new ≡ B.database base.old }
    ensures stays { (s : Db) → B.schema base.old ≡ Some s → B.schema base.new ≡ Some s }
    ensures asked { (b : B) → B.asked b base.old → B.asked b base.new }
    ensures cause { HasCause (B.database base.old) (B.faults base.old) (B.faults base.new) result }
{
    let attrs = permit.attrs.items();
    if !attrs_are_places(alloc, base, rel, attrs)? {
        return Ok(false);
    }
    Ok(attrs.len() <= MOST_LISTED)
}

/// Whether a permit may be defined.
pub(crate) fn permit_fits<B: Base>(
    alloc: Global,
    base: &mut B,
    rel: &RelKey,
    permit: &Permit,
) -> Result<bool, BaseFault>
    ensures known { (db : Db) → B.schema base.old ≡ Some db → IfOk result (λ fit. fit ≡ (row_qual_fits db rel.now permit.now.qual && listed_attrs_fit db rel.now permit.now)) }
    ensures kept { B.database base.new ≡ B.database base.old }
    ensures stays { (s : Db) → B.schema base.old ≡ Some s → B.schema base.new ≡ Some s }
    ensures asked { (b : B) → B.asked b base.old → B.asked b base.new }
    ensures cause { HasCause (B.database base.old) (B.faults base.old) (B.faults base.new) result }
{
    if !row_qual_fits(alloc, base, rel, &permit.qual)? {
        return Ok(false);
    }
    listed_attrs_fit(alloc, base, rel, permit)
}
