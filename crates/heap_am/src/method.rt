//! A heap as a file of rows.

ghost use Rattle.std.specs.Prelude.{◌≡◌, ◌<◌, Some, IfOk};
ghost use Rattle.calculus.specs.declared.probe.Place.{Place as At};
ghost use Rattle.disk_model.specs.Disk.{Image, RisesUpTo};
ghost use Rattle.am_traits.specs.Causes.{HasFileCause};
ghost use Rattle.am_traits.specs.Placed.{Placed, row_with};
ghost use Rattle.heap_am.specs.Heap.{heap_rows, pages_ahead, HeapFault};
ghost use Rattle.heap_am.specs.Laws.{no_rows_at_fault, own_pages, whole_scan};

use crate::Heap;
use am_traits::{AccessMethod, PageStore};
use base_trait::BaseFault;
use calculus::{Place, Probe, Row};
use disk_model::Page;
use std::alloc::Global;

impl Heap {
    /// The row with a place on one of the pages.
    fn row_on_page<S: PageStore>(
        &self,
        alloc: Global,
        store: &mut S,
        place: &Place,
    ) -> Result<Option<Row>, BaseFault>
        requires below { place.now.page < self.now.file.used }
        ensures known { (m : Image) (rows : Placed) → S.pages store.old ≡ Some m → heap_rows self.now.file m ≡ Some rows
            → IfOk result (λ row. row ≡ row_with rows place.now) }
        ensures same { S.pages store.new ≡ S.pages store.old }
        ensures came { (s : S) → S.came s store.old → S.came s store.new }
        ensures only_read { (s : S) → S.only_read s store.old → S.only_read s store.new }
        ensures reads { RisesUpTo 1 (S.reads store.old) (S.reads store.new) }
        ensures cause { HasFileCause (S.pages store.old) (HeapFault self.now.file) (S.faults store.old) (S.faults store.new) result }
    {
        let mut page: Page = [0; 1024];
        self.page(store, place.page, &mut page)?;
        self.line(alloc, &page, place.page, place.line)
    }
}

impl AccessMethod for Heap {
    ghost file = { λ h. h.file };

    ghost placed = { λ h. heap_rows h.file };

    ghost at_fault = { λ h. HeapFault h.file };

    ghost ahead = { λ h. pages_ahead h.file };

    ghost sound = { λ h. no_rows_at_fault h.file };

    ghost own = { λ h. own_pages h.file };

    ghost whole = { λ h. whole_scan h.file };

    fn row_at<S: PageStore>(
        &self,
        alloc: Global,
        store: &mut S,
        place: &Place,
    ) -> Result<Option<Row>, BaseFault> {
        if place.page < self.file.used {
            self.row_on_page(alloc, store, place)
        } else {
            Ok(None)
        }
    }

    fn scan<S: PageStore>(
        &self,
        alloc: Global,
        store: &mut S,
        probe: &Probe,
        at: &mut Place,
    ) -> Result<Option<Row>, BaseFault> {
        self.next_row(alloc, store, probe, at)
    }

    fn scan_on<S: PageStore>(
        &self,
        alloc: Global,
        store: &mut S,
        probe: &Probe,
        _chains: &mut Option<(u32, u32)>,
        at: &mut Place,
    ) -> Result<Option<Row>, BaseFault> {
        self.next_row(alloc, store, probe, at)
    }

    fn add<S: PageStore>(
        &mut self,
        alloc: Global,
        store: &mut S,
        row: &Row,
    ) -> Result<Place, BaseFault> {
        self.put(alloc, store, row)
    }

    fn remove<S: PageStore>(
        &mut self,
        alloc: Global,
        store: &mut S,
        row: &Row,
    ) -> Result<Option<Place>, BaseFault> {
        self.take(alloc, store, row)
    }

    fn replace<S: PageStore>(
        &mut self,
        alloc: Global,
        store: &mut S,
        going: &[Row],
        coming: &[Row],
    ) -> Result<bool, BaseFault> {
        self.change(alloc, store, going, coming)
    }
}
