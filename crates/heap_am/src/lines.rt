//! The rows in the lines of a page.

ghost use Rattle.std.specs.Prelude.{◌≡◌, ◌<◌, Some, None, is_some, slice_index_or, IsTrue, IfOk, IfErr, OnOk};
ghost use Rattle.base_trait.specs.declared.fault.BaseFault.TheVariants.{Damaged};
ghost use Rattle.disk_model.specs.Disk.{Image};
ghost use Rattle.am_traits.specs.Placed.{Placed, row_with};
ghost use Rattle.page_cells.specs.Page.{IsPage, lines, slots};
ghost use Rattle.page_chain.specs.Lying.{place_of};
ghost use Rattle.page_chain.specs.Pages.{page_at};
ghost use Rattle.page_chain.specs.Rows.{reader};
ghost use Rattle.heap_am.specs.Heap.{heap_rows, is_readable, IsOfPage, IsOfRow};

use crate::Heap;
use base_trait::BaseFault;
use byteorder::{ByteOrder, LittleEndian};
use calculus::{Domain, OutOfMemory, Row};
use disk_model::Page;
use page_cells::{row_of, slot};
use std::alloc::Global;

/// How many lines the page has.
pub(crate) fn line_count(page: &Page) -> u16
    ensures { result ≡ lines page.now }
{
    LittleEndian::read_u16(&page[4..6])
}

/// The row whose bytes these are, where they are those of one.
fn row_read(alloc: Global, bytes: &[u8], domains: &[Domain]) -> Result<Option<Row>, OutOfMemory>
    ensures { IfOk result (λ row. row ≡ reader domains.now bytes.now) }
{
    row_of(alloc, bytes, domains)
}

impl Heap {
    /// Damage that this page shows.
    pub(crate) fn damaged(&self, page: u32) -> BaseFault
        ensures { result ≡ Damaged self.now.file.file page }
    {
        BaseFault::Damaged {
            file: self.file.file,
            page,
        }
    }

    /// The row whose bytes these are. Where they are those of none the page is damaged.
    fn row_on(&self, alloc: Global, number: u32, bytes: &[u8]) -> Result<Option<Row>, BaseFault>
        ensures row { IfOk result (λ row. row ≡ reader self.now.file.domains bytes.now) }
        ensures read { OnOk result (IsTrue (is_some (reader self.now.file.domains bytes.now))) }
        ensures fault { IfErr result (IsOfRow self.now.file number bytes.now) }
    {
        match row_read(alloc, bytes, self.file.domains.items())? {
            Some(row) => Ok(Some(row)),
            None => Err(self.damaged(number)),
        }
    }

    /// The row in a line of a page, where there is one.
    pub(crate) fn line(
        &self,
        alloc: Global,
        page: &Page,
        number: u32,
        line: u16,
    ) -> Result<Option<Row>, BaseFault>
        requires page { IsPage page.now }
        requires below { number < self.now.file.used }
        ensures known { (m : Image) (rows : Placed) → heap_rows self.now.file m ≡ Some rows → m (page_at self.now.file.file number) ≡ Some page.now
            → IfOk result (λ row. row ≡ row_with rows (place_of number line)) }
        ensures read { OnOk result (IsTrue (is_readable (reader self.now.file.domains) (slice_index_or (slots page.now) line None))) }
        ensures fault { IfErr result (IsOfPage self.now.file number page.now) }
    {
        match slot(page, line) {
            Some(bytes) => self.row_on(alloc, number, bytes),
            None => Ok(None),
        }
    }
}
