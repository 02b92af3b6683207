//! A scan of a heap: page by page, and of each page line by line.

ghost use Rattle.std.specs.Prelude.{◌≡◌, ◌+◌, ◌^◌, ◌<◌, ◌≤◌, Some, None, is_some, IfOk, IfErr, IfSome, OnOk, if◌then◌else◌};
ghost use Rattle.disk_model.specs.Disk.{Image};
ghost use Rattle.base_trait.specs.Scans.{Gives, IsOver, has_value, meets};
ghost use Rattle.am_traits.specs.Causes.{HasFileCause};
ghost use Rattle.am_traits.specs.Placed.{Placed, GivesBefore, row_with, rows_from};
ghost use Rattle.page_cells.specs.Page.{IsPage};
ghost use Rattle.page_chain.specs.Lying.{place_of};
ghost use Rattle.page_chain.specs.Pages.{page_at};
ghost use Rattle.heap_am.specs.Heap.{heap_rows, pages_ahead, HeapFault, IsOfPage};
ghost use Rattle.heap_am.specs.Met.{MetBefore, MetOn};

use crate::Heap;
use crate::lines::line_count;
use am_traits::PageStore;
use base_trait::BaseFault;
use calculus::{Place, Probe, Row, Value};
use disk_model::Page;
use std::alloc::Global;

/// Whether the row has this value at this place.
fn has_value(row: &Row, wanted: &(u8, Value)) -> bool
    ensures { result ≡ has_value row.now wanted.now }
{
    match row.values().get(wanted.0 as usize) {
        Some(value) => *value == wanted.1,
        None => false,
    }
}

/// Whether the row has what the probe looks for.
fn meets(probe: &Probe, row: &Row) -> bool
    ensures { result ≡ meets probe.now row.now }
{
    probe
        .equal
        .items()
        .iter()
        .all(|wanted| has_value(row, wanted))
}

impl Heap {
    /// The row in a line of a page, where there is one and it meets the probe.
    fn met(
        &self,
        alloc: Global,
        page: &Page,
        number: u32,
        line: u16,
        probe: &Probe,
    ) -> Result<Option<Row>, BaseFault>
        requires page { IsPage page.now }
        requires below { number < self.now.file.used }
        ensures known { (m : Image) (rows : Placed) → heap_rows self.now.file m ≡ Some rows → m (page_at self.now.file.file number) ≡ Some page.now
            → IfOk result (MetBefore rows probe.now (place_of number line) (place_of number (line + 1))) }
        ensures stood { (m : Image) (rows : Placed) → heap_rows self.now.file m ≡ Some rows → m (page_at self.now.file.file number) ≡ Some page.now
            → IfOk result (λ row. IfSome row (λ r. row_with rows (place_of number line) ≡ Some r)) }
        ensures fault { IfErr result (IsOfPage self.now.file number page.now) }
    {
        match self.line(alloc, page, number, line)? {
            Some(row) => {
                if meets(probe, &row) {
                    Ok(Some(row))
                } else {
                    Ok(None)
                }
            }
            None => Ok(None),
        }
    }

    /// The first row of a page, from a line on, that meets the probe, with its line.
    fn first_met(
        &self,
        alloc: Global,
        page: &Page,
        number: u32,
        from: u16,
        probe: &Probe,
    ) -> Result<Option<(u16, Row)>, BaseFault>
        requires page { IsPage page.now }
        requires below { number < self.now.file.used }
        ensures known { (m : Image) (rows : Placed) → heap_rows self.now.file m ≡ Some rows → m (page_at self.now.file.file number) ≡ Some page.now
            → IfOk result (MetOn rows probe.now number from) }
        ensures within { IfOk result (λ found. IfSome found (λ f. f.0 < 256)) }
        ensures fault { IfErr result (IsOfPage self.now.file number page.now) }
    {
        'lines: for line in from..line_count(page) {
            if let Some(row) = self.met(alloc, page, number, line, probe)? {
                return Ok(Some((line, row)));
            }
        }
        Ok(None)
    }

    /// The next row on a page that meets the probe, from a place on, which moves behind it, or to the
    /// next page where there is none.
    fn next_on_page(
        &self,
        alloc: Global,
        page: &Page,
        probe: &Probe,
        at: &mut Place,
    ) -> Result<Option<Row>, BaseFault>
        requires page { IsPage page.now }
        requires below { at.old.page < self.now.file.used }
        requires small { at.old.page + 1 < 2 ^ 32 }
        ensures known { (m : Image) (rows : Placed) → heap_rows self.now.file m ≡ Some rows → m (page_at self.now.file.file at.old.page) ≡ Some page.now
            → IfOk result (MetBefore rows probe.now at.old at.new) }
        ensures place { (m : Image) (rows : Placed) → heap_rows self.now.file m ≡ Some rows → m (page_at self.now.file.file at.old.page) ≡ Some page.now
            → GivesBefore rows at.new result }
        ensures page { IfOk result (λ row. at.new.page ≡ (if is_some row then at.old.page else at.old.page + 1)) }
        ensures fault { IfErr result (IsOfPage self.now.file at.old.page page.now) }
    {
        match self.first_met(alloc, page, at.page, at.line, probe)? {
            Some((line, row)) => {
                at.line = line + 1;
                Ok(Some(row))
            }
            None => {
                at.page += 1;
                at.line = 0;
                Ok(None)
            }
        }
    }

    /// The same, where the page is read.
    fn next_read<S: PageStore>(
        &self,
        alloc: Global,
        store: &mut S,
        probe: &Probe,
        at: &mut Place,
    ) -> Result<Option<Row>, BaseFault>
        requires below { at.old.page < self.now.file.used }
        requires small { at.old.page + 1 < 2 ^ 32 }
        ensures known { (m : Image) (rows : Placed) → S.pages store.old ≡ Some m → heap_rows self.now.file m ≡ Some rows
            → IfOk result (MetBefore rows probe.now at.old at.new) }
        ensures place { (m : Image) (rows : Placed) → S.pages store.old ≡ Some m → heap_rows self.now.file m ≡ Some rows
            → GivesBefore rows at.new result }
        ensures page { IfOk result (λ row. at.new.page ≡ (if is_some row then at.old.page else at.old.page + 1)) }
        ensures same { S.pages store.new ≡ S.pages store.old }
        ensures came { (s : S) → S.came s store.old → S.came s store.new }
        ensures only_read { (s : S) → S.only_read s store.old → S.only_read s store.new }
        ensures reads { OnOk result (S.reads store.new + pages_ahead self.now.file (S.last store.new) at.new
            ≤ S.reads store.old + pages_ahead self.now.file (S.last store.old) at.old) }
        ensures cause { HasFileCause (S.pages store.old) (HeapFault self.now.file) (S.faults store.old) (S.faults store.new) result }
    {
        let mut page: Page = [0; 1024];
        self.page(store, at.page, &mut page)?;
        self.next_on_page(alloc, &page, probe, at)
    }

    /// The next row that meets the probe, from a place on, which moves behind it.
    pub(crate) fn next_row<S: PageStore>(
        &self,
        alloc: Global,
        store: &mut S,
        probe: &Probe,
        at: &mut Place,
    ) -> Result<Option<Row>, BaseFault>
        ensures known { (m : Image) (rows : Placed) → S.pages store.old ≡ Some m → heap_rows self.now.file m ≡ Some rows
            → Gives probe.now (rows_from rows) at.old at.new result }
        ensures over { (m : Image) (rows : Placed) → S.pages store.old ≡ Some m → heap_rows self.now.file m ≡ Some rows
            → IsOver probe.now (rows_from rows) at.new result }
        ensures place { (m : Image) (rows : Placed) → S.pages store.old ≡ Some m → heap_rows self.now.file m ≡ Some rows
            → GivesBefore rows at.new result }
        ensures same { S.pages store.new ≡ S.pages store.old }
        ensures came { (s : S) → S.came s store.old → S.came s store.new }
        ensures only_read { (s : S) → S.only_read s store.old → S.only_read s store.new }
        ensures reads { OnOk result (S.reads store.new + pages_ahead self.now.file (S.last store.new) at.new
            ≤ S.reads store.old + pages_ahead self.now.file (S.last store.old) at.old) }
        ensures cause { HasFileCause (S.pages store.old) (HeapFault self.now.file) (S.faults store.old) (S.faults store.new) result }
    {
        let used = self.file.used;
        'pages: while at.page < used {
            if let Some(row) = self.next_read(alloc, store, probe, at)? {
                return Ok(Some(row));
            }
        }
        Ok(None)
    }
}
