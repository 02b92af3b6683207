//! The rows of relations and catalogues.

ghost use Rattle.std.specs.Prelude.{◌≡◌, [], map, flat_map, IfOk, OnOk};
ghost use Rattle.calculus.specs.Catalogue.{all_entries, relation_info, attribute_info, relation_row, attribute_rows};
ghost use Rattle.calculus.specs.Rows.{set_of};

use super::DbLists;
use crate::catalogue_rows::{
    push_attribute_rows, push_relation_row, push_relation_rows, push_rows_of,
};
use calculus::{OutOfMemory, RelInfo, Row, RowSet};
use memory::both;
use std::alloc::Global;

impl DbLists {
    /// What is known of the two catalogues.
    fn catalogues(&self, alloc: Global) -> Result<(RelInfo, RelInfo), OutOfMemory>
        ensures { IfOk result (λ infos. infos ≡ (relation_info self.now, attribute_info self.now)) }
    {
        both(self.relation_info(alloc), self.attribute_info(alloc))
    }

    /// Puts a row of `relation` for each entry into an empty list.
    fn put_relation_list(
        &self,
        alloc: Global,
        rows: &mut Vec<Row>,
        relation: &RelInfo,
        attribute: &RelInfo,
    ) -> Result<(), OutOfMemory>
        requires relation { relation.now ≡ relation_info self.now }
        requires attribute { attribute.now ≡ attribute_info self.now }
        requires empty { rows.old.items ≡ [] }
        ensures { OnOk result (rows.new.items ≡ map relation_row (all_entries self.now)) }
    {
        push_relation_row(alloc, rows, relation)?;
        push_relation_row(alloc, rows, attribute)?;
        push_relation_rows(alloc, rows, &self.relations)?;
        push_relation_rows(alloc, rows, &self.views)?;
        push_relation_rows(alloc, rows, &self.indexes)?;
        Ok(())
    }

    /// Puts a row of `relation` for each entry, and for the catalogues, into an empty list.
    fn put_all_relations(&self, alloc: Global, rows: &mut Vec<Row>) -> Result<(), OutOfMemory>
        requires { rows.old.items ≡ [] }
        ensures { OnOk result (rows.new.items ≡ map relation_row (all_entries self.now)) }
    {
        match self.catalogues(alloc) {
            Ok(infos) => {
                let done = self.put_relation_list(alloc, rows, &infos.0, &infos.1);
                drop(infos);
                done
            }
            Err(error) => Err(error),
        }
    }

    /// Puts a row of `attribute` for each attribute of each entry into an empty list.
    fn put_attribute_list(
        &self,
        alloc: Global,
        rows: &mut Vec<Row>,
        relation: &RelInfo,
        attribute: &RelInfo,
    ) -> Result<(), OutOfMemory>
        requires relation { relation.now ≡ relation_info self.now }
        requires attribute { attribute.now ≡ attribute_info self.now }
        requires empty { rows.old.items ≡ [] }
        ensures { OnOk result (rows.new.items ≡ flat_map attribute_rows (all_entries self.now)) }
    {
        push_rows_of(alloc, rows, relation)?;
        push_rows_of(alloc, rows, attribute)?;
        push_attribute_rows(alloc, rows, &self.relations)?;
        push_attribute_rows(alloc, rows, &self.views)?;
        push_attribute_rows(alloc, rows, &self.indexes)?;
        Ok(())
    }

    /// Puts a row of `attribute` for each attribute, also of the catalogues, into an empty list.
    fn put_all_attributes(&self, alloc: Global, rows: &mut Vec<Row>) -> Result<(), OutOfMemory>
        requires { rows.old.items ≡ [] }
        ensures { OnOk result (rows.new.items ≡ flat_map attribute_rows (all_entries self.now)) }
    {
        match self.catalogues(alloc) {
            Ok(infos) => {
                let done = self.put_attribute_list(alloc, rows, &infos.0, &infos.1);
                drop(infos);
                done
            }
            Err(error) => Err(error),
        }
    }

    /// The rows of the catalogue `relation`. They are made at each call.
    pub fn relation_rows(&self, alloc: Global) -> Result<RowSet, OutOfMemory>
        ensures { IfOk result (λ rows. rows ≡ set_of (map relation_row (all_entries self.now))) }
    {
        let mut rows = Vec::new(alloc);
        match self.put_all_relations(alloc, &mut rows) {
            Ok(()) => Ok(RowSet::of_rows(rows)),
            Err(error) => Err(error),
        }
    }

    /// The rows of the catalogue `attribute`. They are made at each call.
    pub fn attribute_rows(&self, alloc: Global) -> Result<RowSet, OutOfMemory>
        ensures { IfOk result (λ rows. rows ≡ set_of (flat_map attribute_rows (all_entries self.now))) }
    {
        let mut rows = Vec::new(alloc);
        match self.put_all_attributes(alloc, &mut rows) {
            Ok(()) => Ok(RowSet::of_rows(rows)),
            Err(error) => Err(error),
        }
    }
}
