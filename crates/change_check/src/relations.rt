//! A relation that is made.

ghost use Rattle.std.specs.Prelude.{◌≡◌, ◌&&◌, length, nat_le, IfOk, Some};
ghost use Rattle.std.specs.List.{list_all};
ghost use Rattle.base_trait.specs.Causes.{HasCause};
ghost use Rattle.calculus.specs.Change.{rows_differ};
ghost use Rattle.calculus.specs.Database.{Db};
ghost use Rattle.calculus.specs.IsDatabase.{are_stored, attrs_stand, row_fits, valid_structure};
ghost use Rattle.calculus.specs.Limits.{most_rows};
ghost use Rattle.change_laws.specs.Fit.{relation_is_fit};

use crate::described::{are_stored, attrs_stand, valid_structure};
use crate::keys::key_is_free;
use crate::rows::{are_few, differ_and_fit};
use base_trait::{Base, BaseFault};
use calculus::{Attr, OutOfMemory, RelInfo, Row};
use std::alloc::Global;

/// Whether the structure is one for the attributes.
fn has_structure(info: &RelInfo) -> bool
    ensures { result ≡ valid_structure info.now }
{
    valid_structure(info.spec, info.attrs.items(), info.keys.items())
}

/// Whether the attributes stand and have domains.
pub fn relation_attrs_stand(alloc: Global, attrs: &[Attr]) -> Result<bool, OutOfMemory>
    ensures { IfOk result (λ b. b ≡ (attrs_stand attrs.now && are_stored attrs.now)) }
{
    if !attrs_stand(alloc, attrs)? {
        return Ok(false);
    }
    Ok(are_stored(attrs))
}

/// Whether the rows differ, fit the attributes and are no more than may be.
fn has_rows(alloc: Global, attrs: &[Attr], rows: &[Row]) -> Result<bool, OutOfMemory>
    ensures { IfOk result (λ b. b ≡ (rows_differ rows.now && (list_all (row_fits attrs.now) rows.now && nat_le (length rows.now) most_rows))) }
{
    if !differ_and_fit(alloc, attrs, rows)? {
        return Ok(false);
    }
    Ok(are_few(rows))
}

/// Whether what is said of the relation stands by itself.
fn stands(alloc: Global, info: &RelInfo, rows: &[Row]) -> Result<bool, OutOfMemory>
    ensures { IfOk result (λ b. b ≡ (valid_structure info.now && ((attrs_stand info.now.attrs && are_stored info.now.attrs)
        && (rows_differ rows.now && (list_all (row_fits info.now.attrs) rows.now && nat_le (length rows.now) most_rows))))) }
{
    if !has_structure(info) {
        return Ok(false);
    }
    if !relation_attrs_stand(alloc, info.attrs.items())? {
        return Ok(false);
    }
    has_rows(alloc, info.attrs.items(), rows)
}

/// Whether a relation may be made: its key is free, its structure and its attributes stand, these
/// have domains, and its rows differ, fit and are no more than may be.
pub(crate) fn relation_is_fit<B: Base>(
    alloc: Global,
    base: &mut B,
    info: &RelInfo,
    rows: &[Row],
) -> Result<bool, BaseFault>
    ensures known { (db : Db) → B.schema base.old ≡ Some db → IfOk result (λ fit. fit ≡ relation_is_fit db info.now rows.now) }
    ensures kept { B.database base.new ≡ B.database base.old }
    ensures stays { (s : Db) → B.schema base.old ≡ Some s → B.schema base.new ≡ Some s }
    ensures asked { (b : B) → B.asked b base.old → B.asked b base.new }
    ensures cause { HasCause (B.database base.old) (B.faults base.old) (B.faults base.new) result }
{
    if !key_is_free(alloc, base, &info.key)? {
        return Ok(false);
    }
    Ok(stands(alloc, info, rows)?)
}
