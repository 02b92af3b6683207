//! A file of rows, whatever its structure.

ghost use Rattle.std.specs.Prelude.{◌≡◌, ◌+◌, ◌++◌, ◌^◌, ◌<◌, ◌≤◌, Some, true, All, IsTrue, IfOk, OnOk, length};
ghost use Rattle.disk_model.specs.Disk.{Image, RisesUpTo};
ghost use Rattle.calculus.specs.Rows.{has};
ghost use Rattle.am_traits.specs.Causes.{HasFileCause};
ghost use Rattle.am_traits.specs.Pages.{KeepsOthers};
ghost use Rattle.am_traits.specs.Placed.{Placed, Replaced, NowHolds, SameButUsed, rows_differ, rows_of};
ghost use Rattle.page_cells.specs.RowBytes.{is_row, widths};
ghost use Rattle.page_chain.specs.Lying.{place_of};
ghost use Rattle.page_chain.specs.Pages.{page_at};
ghost use Rattle.page_chain.specs.Rows.{reader};
ghost use Rattle.heap_am.specs.Heap.{heap_rows, stands, pages_ahead, HeapFault};
ghost use Rattle.heap_am.specs.Laws.{no_rows_at_fault, own_pages, whole_scan};
ghost use Rattle.heap_am.specs.Met.{placed_from, on_page};

use am_traits::{AccessMethod, PageStore, RelFile};
use base_trait::BaseFault;
use calculus::{Place, Probe, Row};
use heap_am::Heap;
use memory::List;
use std::alloc::Global;

/// A file of rows, whatever its structure. Today each is a heap.
#[derive(Drop)]
pub struct Method {
    pub(crate) heap: Heap,
}

/// The file of a relation. Today each lies on one chain, whatever its spec says. It has at least one
/// page, and its domains together are as wide as a row of a page may be. Reads nothing.
pub fn open_method(file: RelFile) -> Method
    requires number { 5 ≤ file.file }
    requires some { 0 < widths file.domains }
    requires most { widths file.domains ≤ 1012 }
    requires pages { 0 < file.used }
    ensures { result.heap.file ≡ file }
{
    Method {
        heap: Heap::at(file),
    }
}

impl Method {
    /// What is known of its file.
    pub fn info(&self) -> &RelFile
        ensures { result.now ≡ self.now.heap.file }
    {
        self.heap.info()
    }

    /// The rows on a page, each with its line, in the order of their lines. The page is read and checked
    /// once.
    pub fn page_rows<S: PageStore>(
        &self,
        alloc: Global,
        store: &mut S,
        number: u32,
    ) -> Result<List<(u16, Row)>, BaseFault>
        requires below { number < self.now.heap.file.used }
        ensures known { (m : Image) (rows : Placed) → S.pages store.old ≡ Some m → heap_rows self.now.heap.file m ≡ Some rows
            → IfOk result (λ found. placed_from rows (place_of number 0) ≡ on_page number found ++ placed_from rows (place_of (number + 1) 0)) }
        ensures stands { (m : Image) → S.pages store.old ≡ Some m → OnOk result (IsTrue (stands (reader self.now.heap.file.domains) self.now.heap.file.used number (m (page_at self.now.heap.file.file number)))) }
        ensures same { S.pages store.new ≡ S.pages store.old }
        ensures reads { RisesUpTo 1 (S.reads store.old) (S.reads store.new) }
        ensures kept { S.last store.old ≡ Some (page_at self.now.heap.file.file number) → S.reads store.new ≡ S.reads store.old }
        ensures last { OnOk result (S.last store.new ≡ Some (page_at self.now.heap.file.file number)) }
        ensures came { (s : S) → S.came s store.old → S.came s store.new }
        ensures only_read { (s : S) → S.only_read s store.old → S.only_read s store.new }
        ensures cause { HasFileCause (S.pages store.old) (HeapFault self.now.heap.file) (S.faults store.old) (S.faults store.new) result }
    {
        self.heap.page_rows(alloc, store, number)
    }

    /// As `replace`, but it looks for the rows that go on these pages first; where all lie there, no other
    /// page is read but the last. Which pages they are makes no difference to what is done.
    pub fn replace_near<S: PageStore>(
        &mut self,
        alloc: Global,
        store: &mut S,
        near: &[u32],
        going: &[Row],
        coming: &[Row],
    ) -> Result<bool, BaseFault>
        requires going { All (λ row. IsTrue (is_row row self.old.heap.file.domains)) going.now }
        requires coming { All (λ row. IsTrue (is_row row self.old.heap.file.domains)) coming.now }
        requires room { self.old.heap.file.used + length coming.now < 2 ^ 32 }
        ensures known { (m : Image) (rows : Placed) → S.pages store.old ≡ Some m → heap_rows self.old.heap.file m ≡ Some rows
            → rows_differ (rows_of rows) ≡ true → rows_differ going.now ≡ true → All (λ row. IsTrue (has (rows_of rows) row)) going.now
            → IfOk result (λ all. IsTrue all × NowHolds (heap_rows self.new.heap.file) (S.pages store.new) (Replaced rows going.now coming.now)) }
        ensures others { OnOk result (KeepsOthers self.old.heap.file.file (S.pages store.old) (S.pages store.new)) }
        ensures file { OnOk result (SameButUsed self.old.heap.file self.new.heap.file) }
        ensures came { (s : S) → S.came s store.old → S.came s store.new }
        ensures cause { HasFileCause (S.pages store.old) (HeapFault self.old.heap.file) (S.faults store.old) (S.faults store.new) result }
    {
        self.heap.replace_near(alloc, store, near, going, coming)
    }
}

impl AccessMethod for Method {
    ghost file = { λ a. a.heap.file };

    ghost placed = { λ a. heap_rows a.heap.file };

    ghost at_fault = { λ a. HeapFault a.heap.file };

    ghost ahead = { λ a. pages_ahead a.heap.file };

    ghost sound = { λ a. no_rows_at_fault a.heap.file };

    ghost own = { λ a. own_pages a.heap.file };

    ghost whole = { λ a. whole_scan a.heap.file };

    fn row_at<S: PageStore>(
        &self,
        alloc: Global,
        store: &mut S,
        place: &Place,
    ) -> Result<Option<Row>, BaseFault> {
        self.heap.row_at(alloc, store, place)
    }

    fn scan<S: PageStore>(
        &self,
        alloc: Global,
        store: &mut S,
        probe: &Probe,
        at: &mut Place,
    ) -> Result<Option<Row>, BaseFault> {
        self.heap.scan(alloc, store, probe, at)
    }

    fn scan_on<S: PageStore>(
        &self,
        alloc: Global,
        store: &mut S,
        probe: &Probe,
        chains: &mut Option<(u32, u32)>,
        at: &mut Place,
    ) -> Result<Option<Row>, BaseFault> {
        self.heap.scan_on(alloc, store, probe, chains, at)
    }

    fn add<S: PageStore>(
        &mut self,
        alloc: Global,
        store: &mut S,
        row: &Row,
    ) -> Result<Place, BaseFault> {
        self.heap.add(alloc, store, row)
    }

    fn remove<S: PageStore>(
        &mut self,
        alloc: Global,
        store: &mut S,
        row: &Row,
    ) -> Result<Option<Place>, BaseFault> {
        self.heap.remove(alloc, store, row)
    }

    fn replace<S: PageStore>(
        &mut self,
        alloc: Global,
        store: &mut S,
        going: &[Row],
        coming: &[Row],
    ) -> Result<bool, BaseFault> {
        self.heap.replace(alloc, store, going, coming)
    }
}
