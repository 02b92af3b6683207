//! The rows under a key, of relations and catalogues.

ghost use Rattle.std.specs.Prelude.{◌≡◌, ◌<◌, ◌^◌, None, length, IfOk, OnOk, OnErr};
ghost use Rattle.std.specs.Option.{ForSome};
ghost use Rattle.calculus.specs.Database.{relation_at, view_at};
ghost use Rattle.calculus.specs.Rows.{Ascends, has};
ghost use Rattle.calculus.specs.Stored.{rows_at};
ghost use Rattle.base_trait.specs.Scans.{Gave, StaysOver};
ghost use Rattle.plain_base.specs.Places.{rows_from};
ghost use Rattle.plain_base.specs.Shown.{database_of, IsRelationReady, IsAttributeReady, IsReady};

use super::DbPlain;
use crate::near::is_near;
use crate::scanning::next_row;
use calculus::{OutOfMemory, Place, Probe, RelKey, Row, RowSet};
use std::alloc::Global;

/// The rows that are kept; none where nothing is.
fn kept_rows(kept: &Option<RowSet>) -> &[Row]
    ensures { ForSome kept.now (λ rows. result.now ≡ rows) }
{
    match kept {
        Some(rows) => rows.rows(),
        None => &[],
    }
}

impl DbPlain {
    /// Makes the rows of `relation`, where they aren't kept yet.
    fn keep_relation(&mut self, alloc: Global, key: &RelKey) -> Result<(), OutOfMemory>
        ensures same { database_of self.new ≡ database_of self.old }
        ensures ready { OnOk result (IsRelationReady self.new key.now) }
    {
        if self.kept_relation.is_none() && self.lists.is_relation_key(key) {
            let rows = self.lists.relation_rows(alloc)?;
            self.kept_relation = Some(rows);
        }
        Ok(())
    }

    /// Makes the rows of `attribute`, where they aren't kept yet.
    fn keep_attribute(&mut self, alloc: Global, key: &RelKey) -> Result<(), OutOfMemory>
        ensures same { database_of self.new ≡ database_of self.old }
        ensures other { self.new.kept_relation ≡ self.old.kept_relation }
        ensures ready { OnOk result (IsAttributeReady self.new key.now) }
    {
        if self.kept_attribute.is_none() && self.lists.is_attribute_key(key) {
            let rows = self.lists.attribute_rows(alloc)?;
            self.kept_attribute = Some(rows);
        }
        Ok(())
    }

    /// Makes the rows of the catalogue under a key, where they aren't kept yet.
    fn keep_rows(&mut self, alloc: Global, key: &RelKey) -> Result<(), OutOfMemory>
        ensures same { database_of self.new ≡ database_of self.old }
        ensures ready { OnOk result (IsReady self.new key.now) }
    {
        self.keep_relation(alloc, key)?;
        self.keep_attribute(alloc, key)
    }

    /// The rows of the catalogue under a key.
    fn catalogue_rows(&self, key: &RelKey) -> &[Row]
        requires { IsReady self.now key.now }
        ensures { None ≡ relation_at (database_of self.now) key.now → None ≡ view_at (database_of self.now) key.now → result.now ≡ rows_at (database_of self.now) key.now }
    {
        if self.lists.is_relation_key(key) {
            return kept_rows(&self.kept_relation);
        }
        if self.lists.is_attribute_key(key) {
            return kept_rows(&self.kept_attribute);
        }
        &[]
    }

    /// The rows under a key where no base relation stands: those of a catalogue, else none.
    fn other_rows(&self, key: &RelKey) -> &[Row]
        requires { IsReady self.now key.now }
        ensures { None ≡ relation_at (database_of self.now) key.now → result.now ≡ rows_at (database_of self.now) key.now }
    {
        match self.lists.viewed(key) {
            Some(_) => &[],
            None => self.catalogue_rows(key),
        }
    }

    /// The rows under a key.
    fn rows_under(&self, key: &RelKey) -> &[Row]
        requires { IsReady self.now key.now }
        ensures rows { result.now ≡ rows_at (database_of self.now) key.now }
        ensures few { length result.now < 2 ^ 32 }
        ensures ascend { Ascends result.now }
    {
        match self.lists.relation(key) {
            Some(relation) => relation.rows.as_slice(),
            None => self.other_rows(key),
        }
    }

    /// How many rows the base relation or catalogue under a key has.
    pub(super) fn row_count(&mut self, alloc: Global, key: &RelKey) -> Result<u32, OutOfMemory>
        ensures known { IfOk result (λ n. n ≡ length (rows_at (database_of self.old) key.now)) }
        ensures same { database_of self.new ≡ database_of self.old }
    {
        self.keep_rows(alloc, key)?;
        let rows = self.rows_under(key);
        Ok(rows.len() as u32)
    }

    /// Whether the base relation or catalogue under a key has the row.
    pub(super) fn has_kept_row(
        &mut self,
        alloc: Global,
        key: &RelKey,
        row: &Row,
    ) -> Result<bool, OutOfMemory>
        ensures known { IfOk result (λ b. b ≡ has (rows_at (database_of self.old) key.now) row.now) }
        ensures same { database_of self.new ≡ database_of self.old }
    {
        self.keep_rows(alloc, key)?;
        let mut near = self.near;
        let is_there = is_near(self.rows_under(key), row, &mut near);
        self.near = near;
        Ok(is_there)
    }

    /// The next row under a key that meets the probe, from a place on, which moves behind it.
    pub(super) fn next_kept_row(
        &mut self,
        alloc: Global,
        key: &RelKey,
        probe: &Probe,
        at: &mut Place,
    ) -> Result<Option<Row>, OutOfMemory>
        ensures known { IfOk result (λ answer. Gave probe.now (rows_from (database_of self.old) key.now at.old) (rows_from (database_of self.old) key.now at.new) answer) }
        ensures over { IfOk result (λ answer. StaysOver probe.now (rows_from (database_of self.old) key.now at.new) answer) }
        ensures same { database_of self.new ≡ database_of self.old }
        ensures err { OnErr result (at.new ≡ at.old) }
    {
        self.keep_rows(alloc, key)?;
        let rows = self.rows_under(key);
        next_row(alloc, rows, probe, at)
    }
}
