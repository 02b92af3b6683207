//! Rows of a heap come and go.

ghost use Rattle.std.specs.Prelude.{◌≡◌, ◌+◌, ◌-◌, ◌^◌, ◌<◌, ◌≤◌, [], List, Some, true, false, IsTrue, IfOk, OnOk, All, length, map};
ghost use Rattle.calculus.specs.Rows.{Row as Values, has};
ghost use Rattle.disk_model.specs.Disk.{Image};
ghost use Rattle.am_traits.specs.Causes.{HasFileCause};
ghost use Rattle.am_traits.specs.Pages.{KeepsOthers};
ghost use Rattle.am_traits.specs.Placed.{Placed, Added, Removed, Replaced, NowHolds, SameButUsed, rows_differ, rows_of};
ghost use Rattle.page_cells.specs.RowBytes.{is_row, row_bytes};
ghost use Rattle.page_chain.specs.Lying.{IsShort};
ghost use Rattle.heap_am.specs.Heap.{heap_rows, HeapFault};

use crate::Heap;
use crate::encoding::{all_encoded, encoded};
use crate::fitting::is_row;
use am_traits::PageStore;
use base_trait::BaseFault;
use calculus::{Place, Row};
use memory::List;
use page_chain::{Chain, extend, put_one, replace, take_one};
use std::alloc::Global;

impl Heap {
    /// Puts a row behind the others, and answers its place.
    pub(crate) fn put<S: PageStore>(
        &mut self,
        alloc: Global,
        store: &mut S,
        row: &Row,
    ) -> Result<Place, BaseFault>
        requires fits { IsTrue (is_row row.now self.old.file.domains) }
        requires room { self.old.file.used < 2 ^ 32 - 1 }
        ensures known { (m : Image) (rows : Placed) → S.pages store.old ≡ Some m → heap_rows self.old.file m ≡ Some rows
            → IfOk result (λ place. NowHolds (heap_rows self.new.file) (S.pages store.new) (Added rows place row.now)) }
        ensures others { OnOk result (KeepsOthers self.old.file.file (S.pages store.old) (S.pages store.new)) }
        ensures file { OnOk result (SameButUsed self.old.file self.new.file) }
        ensures came { (s : S) → S.came s store.old → S.came s store.new }
        ensures cause { HasFileCause (S.pages store.old) (HeapFault self.old.file) (S.faults store.old) (S.faults store.new) result }
    {
        let bytes = encoded(alloc, row, self.file.domains.items())?;
        let place = put_one(store, self.file.file, self.file.used - 1, bytes.items())?;
        self.file.used = place.page + 1;
        Ok(place)
    }

    /// Takes a row of the domains away, and answers the place that it had.
    fn take_row<S: PageStore>(
        &self,
        alloc: Global,
        store: &mut S,
        row: &Row,
    ) -> Result<Option<Place>, BaseFault>
        requires fits { IsTrue (is_row row.now self.now.file.domains) }
        ensures known { (m : Image) (rows : Placed) → S.pages store.old ≡ Some m → heap_rows self.now.file m ≡ Some rows
            → IfOk result (λ place. NowHolds (heap_rows self.now.file) (S.pages store.new) (Removed rows place row.now)) }
        ensures others { OnOk result (KeepsOthers self.now.file.file (S.pages store.old) (S.pages store.new)) }
        ensures came { (s : S) → S.came s store.old → S.came s store.new }
        ensures cause { HasFileCause (S.pages store.old) (HeapFault self.now.file) (S.faults store.old) (S.faults store.new) result }
    {
        let bytes = encoded(alloc, row, self.file.domains.items())?;
        take_one(store, self.file.file, self.file.used as u64, bytes.items())
    }

    /// Takes a row away, and answers the place that it had; `None` where it isn't there.
    pub(crate) fn take<S: PageStore>(
        &self,
        alloc: Global,
        store: &mut S,
        row: &Row,
    ) -> Result<Option<Place>, BaseFault>
        ensures known { (m : Image) (rows : Placed) → S.pages store.old ≡ Some m → heap_rows self.now.file m ≡ Some rows
            → IfOk result (λ place. NowHolds (heap_rows self.now.file) (S.pages store.new) (Removed rows place row.now)) }
        ensures others { OnOk result (KeepsOthers self.now.file.file (S.pages store.old) (S.pages store.new)) }
        ensures came { (s : S) → S.came s store.old → S.came s store.new }
        ensures cause { HasFileCause (S.pages store.old) (HeapFault self.now.file) (S.faults store.old) (S.faults store.new) result }
    {
        if is_row(row, self.file.domains.items()) {
            self.take_row(alloc, store, row)
        } else {
            Ok(None)
        }
    }

    /// Puts the rows with these bytes behind the others.
    fn extend<S: PageStore>(&mut self, store: &mut S, coming: &[List<u8>]) -> Result<(), BaseFault>
        requires short { All (λ row. IsShort row) coming.now }
        requires room { self.old.file.used + length coming.now < 2 ^ 32 }
        ensures known { (m : Image) (rows : Placed) (new : List Values) → S.pages store.old ≡ Some m → heap_rows self.old.file m ≡ Some rows
            → All (λ row. IsTrue (is_row row self.old.file.domains)) new → coming.now ≡ map (λ row. row_bytes row self.old.file.domains) new
            → OnOk result (NowHolds (heap_rows self.new.file) (S.pages store.new) (Replaced rows [] new)) }
        ensures others { OnOk result (KeepsOthers self.old.file.file (S.pages store.old) (S.pages store.new)) }
        ensures file { OnOk result (SameButUsed self.old.file self.new.file) }
        ensures came { (s : S) → S.came s store.old → S.came s store.new }
        ensures cause { HasFileCause (S.pages store.old) (HeapFault self.old.file) (S.faults store.old) (S.faults store.new) result }
    {
        let last = extend(store, self.file.file, self.file.used - 1, coming)?;
        self.file.used = last + 1;
        Ok(())
    }

    /// Takes the rows with these bytes away, and puts those with others. `false` where fewer went.
    pub(crate) fn renew<S: PageStore>(
        &mut self,
        alloc: Global,
        store: &mut S,
        going: &[List<u8>],
        coming: &[List<u8>],
    ) -> Result<bool, BaseFault>
        requires short { All (λ row. IsShort row) coming.now }
        requires room { self.old.file.used + length coming.now < 2 ^ 32 }
        ensures known { (m : Image) (rows : Placed) (gone new : List Values) → S.pages store.old ≡ Some m → heap_rows self.old.file m ≡ Some rows
            → All (λ row. IsTrue (is_row row self.old.file.domains)) gone → going.now ≡ map (λ row. row_bytes row self.old.file.domains) gone
            → All (λ row. IsTrue (is_row row self.old.file.domains)) new → coming.now ≡ map (λ row. row_bytes row self.old.file.domains) new
            → rows_differ (rows_of rows) ≡ true → rows_differ gone ≡ true → All (λ row. IsTrue (has (rows_of rows) row)) gone
            → IfOk result (λ all. IsTrue all × NowHolds (heap_rows self.new.file) (S.pages store.new) (Replaced rows gone new)) }
        // True only where all that were to go were there.
        ensures only { (m : Image) (rows : Placed) (gone : List Values) → S.pages store.old ≡ Some m → heap_rows self.old.file m ≡ Some rows
            → All (λ row. IsTrue (is_row row self.old.file.domains)) gone → going.now ≡ map (λ row. row_bytes row self.old.file.domains) gone
            → rows_differ (rows_of rows) ≡ true → rows_differ gone ≡ true
            → IfOk result (λ all. IsTrue all → All (λ row. IsTrue (has (rows_of rows) row)) gone) }
        ensures others { OnOk result (KeepsOthers self.old.file.file (S.pages store.old) (S.pages store.new)) }
        ensures file { OnOk result (SameButUsed self.old.file self.new.file) }
        ensures came { (s : S) → S.came s store.old → S.came s store.new }
        ensures cause { HasFileCause (S.pages store.old) (HeapFault self.old.file) (S.faults store.old) (S.faults store.new) result }
    {
        let chain = Chain {
            file: self.file.file,
            bound: self.file.used as u64,
            last: self.file.used - 1,
        };
        let done = replace(alloc, store, chain, going, coming)?;
        self.file.used = done.last + 1;
        Ok(done.gone as usize == going.len())
    }

    /// Takes rows away and puts others. `false` where fewer went than were to go.
    pub(crate) fn change<S: PageStore>(
        &mut self,
        alloc: Global,
        store: &mut S,
        going: &[Row],
        coming: &[Row],
    ) -> Result<bool, BaseFault>
        requires going { All (λ row. IsTrue (is_row row self.old.file.domains)) going.now }
        requires coming { All (λ row. IsTrue (is_row row self.old.file.domains)) coming.now }
        requires room { self.old.file.used + length coming.now < 2 ^ 32 }
        ensures known { (m : Image) (rows : Placed) → S.pages store.old ≡ Some m → heap_rows self.old.file m ≡ Some rows
            → rows_differ (rows_of rows) ≡ true → rows_differ going.now ≡ true → All (λ row. IsTrue (has (rows_of rows) row)) going.now
            → IfOk result (λ all. IsTrue all × NowHolds (heap_rows self.new.file) (S.pages store.new) (Replaced rows going.now coming.now)) }
        // True only where all that were to go were there.
        ensures only { (m : Image) (rows : Placed) → S.pages store.old ≡ Some m → heap_rows self.old.file m ≡ Some rows
            → rows_differ (rows_of rows) ≡ true → rows_differ going.now ≡ true
            → IfOk result (λ all. IsTrue all → All (λ row. IsTrue (has (rows_of rows) row)) going.now) }
        ensures others { OnOk result (KeepsOthers self.old.file.file (S.pages store.old) (S.pages store.new)) }
        ensures file { OnOk result (SameButUsed self.old.file self.new.file) }
        ensures came { (s : S) → S.came s store.old → S.came s store.new }
        ensures cause { HasFileCause (S.pages store.old) (HeapFault self.old.file) (S.faults store.old) (S.faults store.new) result }
    {
        let new = all_encoded(alloc, coming, self.file.domains.items())?;
        if going.is_empty() {
            self.extend(store, new.items())?;
            return Ok(true);
        }
        let gone = all_encoded(alloc, going, self.file.domains.items())?;
        self.renew(alloc, store, gone.items(), new.items())
    }
}
