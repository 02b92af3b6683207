//! Rows that go and come.

ghost use Rattle.std.specs.Prelude.{◌≡◌, ◌+◌, ◌-◌, ◌&&◌, not, length, nat_le, true, IfOk, Some};
ghost use Rattle.std.specs.List.{list_all, list_any};
ghost use Rattle.base_trait.specs.Causes.{HasCause};
ghost use Rattle.calculus.specs.Change.{rows_differ};
ghost use Rattle.calculus.specs.Database.{Db, is_relation};
ghost use Rattle.calculus.specs.IsDatabase.{row_fits};
ghost use Rattle.calculus.specs.Limits.{most_rows};
ghost use Rattle.calculus.specs.Rows.{has};
ghost use Rattle.calculus.specs.Stored.{attrs_at, rows_at};
ghost use Rattle.change_check.specs.BySchema.{rows_stand};
ghost use Rattle.change_laws.specs.Fit.{rows_are_fit};

use crate::attributes::row_fits;
use crate::keys::relation;
use base_trait::{Base, BaseFault};
use calculus::limits::MOST_ROWS;
use calculus::{Attr, OutOfMemory, RelKey, Row, RowSet};
use memory::copies;
use std::alloc::Global;

/// Whether no two of these rows are the same. Costs a sort of copies.
#[tactic(auto, using(crate::proofs::Differing::differ_where_as_many))]
pub(crate) fn rows_differ(alloc: Global, rows: &[Row]) -> Result<bool, OutOfMemory>
    ensures { IfOk result (λ differ. differ ≡ rows_differ rows.now) }
{
    let set = RowSet::of_rows(copies(alloc, rows)?);
    Ok(set.len() == rows.len())
}

/// Whether the relation or catalogue under a key has each of these rows.
fn has_all<B: Base>(
    alloc: Global,
    base: &mut B,
    rel: &RelKey,
    rows: &[Row],
) -> Result<bool, BaseFault>
    ensures known { (db : Db) → B.database base.old ≡ Some db → IfOk result (λ all. all ≡ list_all (has (rows_at db rel.now)) rows.now) }
    ensures kept { B.database base.new ≡ B.database base.old }
    ensures stays { (s : Db) → B.schema base.old ≡ Some s → B.schema base.new ≡ Some s }
    ensures asked { (b : B) → B.asked b base.old → B.asked b base.new }
    ensures cause { HasCause (B.database base.old) (B.faults base.old) (B.faults base.new) result }
{
    for row in rows {
        let there = base.has_row(alloc, rel, row)?;
        if !there {
            return Ok(false);
        }
    }
    Ok(true)
}

/// Whether the relation or catalogue under a key has one of these rows.
fn has_any<B: Base>(
    alloc: Global,
    base: &mut B,
    rel: &RelKey,
    rows: &[Row],
) -> Result<bool, BaseFault>
    ensures known { (db : Db) → B.database base.old ≡ Some db → IfOk result (λ any. any ≡ list_any (has (rows_at db rel.now)) rows.now) }
    ensures kept { B.database base.new ≡ B.database base.old }
    ensures stays { (s : Db) → B.schema base.old ≡ Some s → B.schema base.new ≡ Some s }
    ensures asked { (b : B) → B.asked b base.old → B.asked b base.new }
    ensures cause { HasCause (B.database base.old) (B.faults base.old) (B.faults base.new) result }
{
    for row in rows {
        let there = base.has_row(alloc, rel, row)?;
        if there {
            return Ok(true);
        }
    }
    Ok(false)
}

/// Whether there are no more rows than a relation may have.
pub(crate) fn are_few(rows: &[Row]) -> bool
    ensures { result ≡ nat_le (length rows.now) most_rows }
{
    rows.len() <= MOST_ROWS
}

/// Whether there are no more rows than a relation may have once these have come and those have gone,
/// where so many stood before.
fn leaves_few(before: u32, remove: &[Row], add: &[Row]) -> bool
    ensures { result ≡ nat_le (before + length add.now - length remove.now) most_rows }
{
    let both = before as usize + add.len();
    both.saturating_sub(remove.len()) <= MOST_ROWS
}

/// Whether each row that goes is one of the relation's own, and none that comes is.
fn rows_move<B: Base>(
    alloc: Global,
    base: &mut B,
    rel: &RelKey,
    remove: &[Row],
    add: &[Row],
) -> Result<bool, BaseFault>
    ensures known { (db : Db) → B.database base.old ≡ Some db
        → IfOk result (λ b. b ≡ (list_all (has (rows_at db rel.now)) remove.now && not (list_any (has (rows_at db rel.now)) add.now))) }
    ensures kept { B.database base.new ≡ B.database base.old }
    ensures stays { (s : Db) → B.schema base.old ≡ Some s → B.schema base.new ≡ Some s }
    ensures asked { (b : B) → B.asked b base.old → B.asked b base.new }
    ensures cause { HasCause (B.database base.old) (B.faults base.old) (B.faults base.new) result }
{
    if !has_all(alloc, base, rel, remove)? {
        return Ok(false);
    }
    Ok(!has_any(alloc, base, rel, add)?)
}

/// Whether the rows that a change leaves are no more than a relation may have, counted by the number
/// of those that stand.
fn few_stay<B: Base>(
    alloc: Global,
    base: &mut B,
    rel: &RelKey,
    remove: &[Row],
    add: &[Row],
) -> Result<bool, BaseFault>
    ensures known { (db : Db) → B.database base.old ≡ Some db
        → IfOk result (λ b. b ≡ nat_le (length (rows_at db rel.now) + length add.now - length remove.now) most_rows) }
    ensures kept { B.database base.new ≡ B.database base.old }
    ensures stays { (s : Db) → B.schema base.old ≡ Some s → B.schema base.new ≡ Some s }
    ensures asked { (b : B) → B.asked b base.old → B.asked b base.new }
    ensures cause { HasCause (B.database base.old) (B.faults base.old) (B.faults base.new) result }
{
    let before = base.size(alloc, rel)?;
    Ok(leaves_few(before, remove, add))
}

/// Whether the row fits each attribute, for each row.
fn all_fit(attrs: &[Attr], rows: &[Row]) -> bool
    ensures { result ≡ list_all (row_fits attrs.now) rows.now }
{
    rows.iter().all(|row| row_fits(attrs, row))
}

/// Whether no two of these rows are the same, and each fits the attributes.
pub(crate) fn differ_and_fit(
    alloc: Global,
    attrs: &[Attr],
    rows: &[Row],
) -> Result<bool, OutOfMemory>
    ensures { IfOk result (λ b. b ≡ (rows_differ rows.now && list_all (row_fits attrs.now) rows.now)) }
{
    if !rows_differ(alloc, rows)? {
        return Ok(false);
    }
    Ok(all_fit(attrs, rows))
}

/// Whether neither list has a row twice, and each row that comes fits the attributes.
fn lists_stand(
    alloc: Global,
    attrs: &[Attr],
    remove: &[Row],
    add: &[Row],
) -> Result<bool, OutOfMemory>
    ensures { IfOk result (λ b. b ≡ (rows_differ remove.now && (rows_differ add.now && list_all (row_fits attrs.now) add.now))) }
{
    if !rows_differ(alloc, remove)? {
        return Ok(false);
    }
    differ_and_fit(alloc, attrs, add)
}

/// Whether these rows of a relation with these attributes may go and those come, asked part by part.
fn rows_have_parts<B: Base>(
    alloc: Global,
    base: &mut B,
    rel: &RelKey,
    attrs: &[Attr],
    remove: &[Row],
    add: &[Row],
) -> Result<bool, BaseFault>
    ensures known { (db : Db) → B.database base.old ≡ Some db → is_relation db rel.now ≡ true → attrs_at db rel.now ≡ attrs.now
        → IfOk result (λ fit. fit ≡ rows_are_fit db rel.now remove.now add.now) }
    ensures stand { IfOk result (λ fit. fit ≡ true → (rows_differ remove.now && (rows_differ add.now && list_all (row_fits attrs.now) add.now)) ≡ true) }
    ensures kept { B.database base.new ≡ B.database base.old }
    ensures stays { (s : Db) → B.schema base.old ≡ Some s → B.schema base.new ≡ Some s }
    ensures asked { (b : B) → B.asked b base.old → B.asked b base.new }
    ensures cause { HasCause (B.database base.old) (B.faults base.old) (B.faults base.new) result }
{
    if !rows_move(alloc, base, rel, remove, add)? {
        return Ok(false);
    }
    if !lists_stand(alloc, attrs, remove, add)? {
        return Ok(false);
    }
    few_stay(alloc, base, rel, remove, add)
}

/// Whether these rows of a relation may go and those come: the relation is there, each row that goes
/// is one of its own and none that comes is, neither lists one twice, those that come fit, and
/// afterwards there are no more than may be. Asks for each of these rows and for the number of all.
pub(crate) fn rows_are_fit<B: Base>(
    alloc: Global,
    base: &mut B,
    rel: &RelKey,
    remove: &[Row],
    add: &[Row],
) -> Result<bool, BaseFault>
    ensures known { (db : Db) → B.database base.old ≡ Some db → IfOk result (λ fit. fit ≡ rows_are_fit db rel.now remove.now add.now) }
    ensures by_schema { (s : Db) → B.schema base.old ≡ Some s → IfOk result (λ fit. fit ≡ true → rows_stand s rel.now remove.now add.now ≡ true) }
    ensures kept { B.database base.new ≡ B.database base.old }
    ensures stays { (s : Db) → B.schema base.old ≡ Some s → B.schema base.new ≡ Some s }
    ensures asked { (b : B) → B.asked b base.old → B.asked b base.new }
    ensures cause { HasCause (B.database base.old) (B.faults base.old) (B.faults base.new) result }
{
    match relation(alloc, base, rel)? {
        Some(info) => rows_have_parts(alloc, base, rel, info.attrs.items(), remove, add),
        None => Ok(false),
    }
}
