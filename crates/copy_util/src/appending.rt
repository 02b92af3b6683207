//! Rows that are appended to a relation.

ghost use Rattle.std.specs.Prelude.{◌≡◌, ◌+◌, [], ◌∷◌, ◌++◌, cond, filter, length, nat_lt, IsFalse, IsTrue, Some, Ok as Planned, Err as Refused, IfOk, OnOk};
ghost use Rattle.calculus.specs.Database.{Db};
ghost use Rattle.calculus.specs.Limits.{most_rows};
ghost use Rattle.calculus.specs.Replacement.{without_rows};
ghost use Rattle.calculus.specs.Rows.{set_of};
ghost use Rattle.calculus.specs.Stored.{rows_at};
ghost use Rattle.calculus.specs.declared.change.DbChange.TheVariants as change;
ghost use Rattle.base_trait.specs.Causes.{HasCause};
ghost use Rattle.quel_meaning.specs.Copying.{keeps_rules, refusal as refusal_of, rows_appended};
ghost use Rattle.copy_util.specs.Causes.{Copies, HasBaseCause};

use crate::CopyFault;
use crate::rule_keeping::kept_rows;
use base_trait::{Base, BaseFault};
use calculus::limits::MOST_ROWS;
use calculus::{DbChange, List, OutOfMemory, RelKey, Row, RowSet, TryCopy};
use std::alloc::Global;

/// The row behind the others, where this is so.
fn put_if(rows: &mut Vec<Row>, row: Row, is_so: bool) -> Result<(), OutOfMemory>
    ensures { OnOk result (rows.new.items ≡ rows.old.items ++ cond is_so (row ∷ []) []) }
{
    if is_so {
        rows.push(row)?;
    }
    Ok(())
}

/// Those of the rows that the relation under a key hasn't. Asks once for each.
fn absent_rows<B: Base>(
    alloc: Global,
    base: &mut B,
    rel: &RelKey,
    rows: Vec<Row>,
) -> Result<Vec<Row>, BaseFault>
    ensures known { (db : Db) → B.database base.old ≡ Some db → IfOk result (λ absent. absent.items ≡ without_rows (rows_at db rel.now) rows.items) }
    ensures kept { B.database base.new ≡ B.database base.old }
    ensures stays { (s : Db) → B.schema base.old ≡ Some s → B.schema base.new ≡ Some s }
    ensures asked { (b : B) → B.asked b base.old → B.asked b base.new }
    ensures cause { HasCause (B.database base.old) (B.faults base.old) (B.faults base.new) result }
{
    let mut absent = Vec::new(alloc);
    for row in rows {
        let is_there = base.has_row(alloc, rel, &row)?;
        put_if(&mut absent, row, !is_there)?;
    }
    Ok(absent)
}

/// The rows that break no rule of the relation, as a set.
fn lasting_rows<B: Base>(
    alloc: Global,
    base: &mut B,
    rel: &RelKey,
    rows: Vec<Row>,
) -> Result<RowSet, BaseFault>
    ensures known { (db : Db) → B.database base.old ≡ Some db → IfOk result (λ set. set ≡ set_of (filter (keeps_rules db rel.now) rows.items)) }
    ensures kept { B.database base.new ≡ B.database base.old }
    ensures stays { (s : Db) → B.schema base.old ≡ Some s → B.schema base.new ≡ Some s }
    ensures asked { (b : B) → B.asked b base.old → B.asked b base.new }
    ensures cause { HasCause (B.database base.old) (B.faults base.old) (B.faults base.new) result }
{
    match base.rules(alloc, rel) {
        Ok(rules) => {
            let kept = kept_rows(alloc, &rules, rows);
            drop(rules);
            Ok(RowSet::of_rows(kept?))
        }
        Err(fault) => {
            drop(rows);
            Err(fault)
        }
    }
}

/// The rows that come to a relation where these are appended: those that break no rule and aren't
/// there, ascending, each once.
fn coming_rows<B: Base>(
    alloc: Global,
    base: &mut B,
    rel: &RelKey,
    rows: Vec<Row>,
) -> Result<Vec<Row>, BaseFault>
    ensures known { (db : Db) → B.database base.old ≡ Some db
        → IfOk result (λ coming. coming.items ≡ without_rows (rows_at db rel.now) (set_of (filter (keeps_rules db rel.now) rows.items))) }
    ensures kept { B.database base.new ≡ B.database base.old }
    ensures stays { (s : Db) → B.schema base.old ≡ Some s → B.schema base.new ≡ Some s }
    ensures asked { (b : B) → B.asked b base.old → B.asked b base.new }
    ensures cause { HasCause (B.database base.old) (B.faults base.old) (B.faults base.new) result }
{
    match lasting_rows(alloc, base, rel, rows) {
        Ok(set) => absent_rows(alloc, base, rel, set.into_rows()),
        Err(fault) => Err(fault),
    }
}

/// Whether a relation may not have so many rows more.
fn has_no_room<B: Base>(
    alloc: Global,
    base: &mut B,
    rel: &RelKey,
    more: usize,
) -> Result<bool, BaseFault>
    ensures known { (db : Db) → B.database base.old ≡ Some db → IfOk result (λ b. b ≡ nat_lt most_rows (length (rows_at db rel.now) + more)) }
    ensures kept { B.database base.new ≡ B.database base.old }
    ensures stays { (s : Db) → B.schema base.old ≡ Some s → B.schema base.new ≡ Some s }
    ensures asked { (b : B) → B.asked b base.old → B.asked b base.new }
    ensures cause { HasCause (B.database base.old) (B.faults base.old) (B.faults base.new) result }
{
    let before = base.size(alloc, rel)? as usize;
    Ok(before > MOST_ROWS || more > MOST_ROWS - before)
}

/// The change by which these rows come to a relation.
fn change_of(alloc: Global, rel: &RelKey, rows: Vec<Row>) -> Result<DbChange, OutOfMemory>
    ensures { IfOk result (λ c. c ≡ change.Rows rel.now [] rows.items) }
{
    match rel.copy(alloc) {
        Ok(rel) => Ok(DbChange::Rows {
            rel,
            remove: List::of(Vec::new(alloc)),
            add: List::of(rows),
        }),
        Err(error) => {
            drop(rows);
            Err(error)
        }
    }
}

/// The change by which rows come that aren't there, where there is room for them.
fn change_with_room<B: Base>(
    alloc: Global,
    base: &mut B,
    rel: &RelKey,
    coming: Vec<Row>,
) -> Result<DbChange, CopyFault>
    ensures known { (db : Db) → B.database base.old ≡ Some db
        → Copies (λ c. (c ≡ change.Rows rel.now [] coming.items) × IsFalse (nat_lt most_rows (length (rows_at db rel.now) + length coming.items)))
        (λ refusal. (refusal ≡ refusal_of 29) × IsTrue (nat_lt most_rows (length (rows_at db rel.now) + length coming.items))) result }
    ensures kept { B.database base.new ≡ B.database base.old }
    ensures stays { (s : Db) → B.schema base.old ≡ Some s → B.schema base.new ≡ Some s }
    ensures asked { (b : B) → B.asked b base.old → B.asked b base.new }
    ensures cause { HasBaseCause (B.database base.old) (B.faults base.old) (B.faults base.new) result }
{
    match has_no_room(alloc, base, rel, coming.len()) {
        Ok(false) => Ok(change_of(alloc, rel, coming)?),
        Ok(true) => {
            drop(coming);
            Err(CopyFault::No(29))
        }
        Err(fault) => {
            drop(coming);
            Err(CopyFault::Base(fault))
        }
    }
}

/// The change that appends rows to a relation as one set, but for those that break a rule; 29 where
/// more than 100,000 rows would stand.
pub(crate) fn rows_appended<B: Base>(
    alloc: Global,
    base: &mut B,
    rel: &RelKey,
    rows: Vec<Row>,
) -> Result<DbChange, CopyFault>
    ensures known { (db : Db) → B.database base.old ≡ Some db
        → Copies (λ c. rows_appended db rel.now rows.items ≡ Planned c) (λ refusal. rows_appended db rel.now rows.items ≡ Refused refusal) result }
    ensures kept { B.database base.new ≡ B.database base.old }
    ensures stays { (s : Db) → B.schema base.old ≡ Some s → B.schema base.new ≡ Some s }
    ensures asked { (b : B) → B.asked b base.old → B.asked b base.new }
    ensures cause { HasBaseCause (B.database base.old) (B.faults base.old) (B.faults base.new) result }
{
    match coming_rows(alloc, base, rel, rows) {
        Ok(coming) => change_with_room(alloc, base, rel, coming),
        Err(fault) => Err(CopyFault::Base(fault)),
    }
}
