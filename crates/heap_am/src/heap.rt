//! A heap, and how one is made.

ghost use Rattle.std.specs.Prelude.{◌≡◌, ◌<◌, ◌≤◌, ◌^◌, Some, IsTrue, IfOk, OnOk, All, length, map};
ghost use Rattle.disk_model.specs.Disk.{Image};
ghost use Rattle.am_traits.specs.Causes.{HasFileCause};
ghost use Rattle.am_traits.specs.Pages.{KeepsOthers};
ghost use Rattle.am_traits.specs.Placed.{NowHolds, rows_of};
ghost use Rattle.page_cells.specs.RowBytes.{is_row, row_bytes, widths};
ghost use Rattle.page_chain.specs.Grown.{IsBuilt, IsNever};
ghost use Rattle.heap_am.specs.Heap.{heap_rows, IsMade};

use crate::encoding::all_encoded;
use am_traits::{PageStore, RelFile};
use base_trait::BaseFault;
use calculus::Row;
use page_chain::build;
use std::alloc::Global;

/// A file whose rows lie on one chain of pages, in no order. Page 0 goes on to page 1, that to page 2,
/// and so on up to the last.
#[derive(Drop)]
pub struct Heap {
    pub(crate) file: RelFile,
    ghost number: { 5 ≤ file.file },
    ghost some: { 0 < widths file.domains },
    ghost most: { widths file.domains ≤ 1012 },
    ghost pages: { 0 < file.used },
}

impl Heap {
    /// The heap of this file, which has at least one page. Its domains together are as wide as a row of
    /// a page may be. Reads nothing.
    pub fn at(file: RelFile) -> Heap
        requires number { 5 ≤ file.file }
        requires some { 0 < widths file.domains }
        requires most { widths file.domains ≤ 1012 }
        requires pages { 0 < file.used }
        ensures { result.file ≡ file }
    {
        Heap { file }
    }

    /// What is known of its file.
    pub fn info(&self) -> &RelFile
        ensures { result.now ≡ self.now.file }
    {
        &self.file
    }

    /// Makes the file anew as a heap with these rows, in this order.
    pub fn build<S: PageStore>(
        alloc: Global,
        store: &mut S,
        file: RelFile,
        rows: &[Row],
    ) -> Result<Heap, BaseFault>
        requires number { 5 ≤ file.file }
        requires some { 0 < widths file.domains }
        requires most { widths file.domains ≤ 1012 }
        requires fit { All (λ row. IsTrue (is_row row file.domains)) rows.now }
        requires few { length rows.now < 2 ^ 30 }
        ensures known { (m : Image) → S.pages store.old ≡ Some m → IfOk result (λ heap. NowHolds (heap_rows heap.file) (S.pages store.new) (λ placed. rows_of placed ≡ rows.now)) }
        ensures others { OnOk result (KeepsOthers file.file (S.pages store.old) (S.pages store.new)) }
        ensures file { IfOk result (λ heap. IsMade file heap.file) }
        ensures came { (s : S) → S.came s store.old → S.came s store.new }
        ensures cause { HasFileCause (S.pages store.old) IsNever (S.faults store.old) (S.faults store.new) result }
    {
        let mut file = file;
        file.used = pages_built(alloc, store, &file, rows)?;
        file.primary = 1;
        file.directory = 0;
        Ok(Heap { file })
    }
}

/// Makes the file anew with these rows, and answers how many pages it has.
fn pages_built<S: PageStore>(
    alloc: Global,
    store: &mut S,
    file: &RelFile,
    rows: &[Row],
) -> Result<u32, BaseFault>
    requires number { 5 ≤ file.now.file }
    requires some { 0 < widths file.now.domains }
    requires most { widths file.now.domains ≤ 1012 }
    requires fit { All (λ row. IsTrue (is_row row file.now.domains)) rows.now }
    requires few { length rows.now < 2 ^ 30 }
    ensures some { IfOk result (λ used. 1 ≤ used) }
    ensures built { (m : Image) → S.pages store.old ≡ Some m → IfOk result (λ used. IsBuilt file.now.file used (map (λ row. row_bytes row file.now.domains) rows.now) (S.pages store.new)) }
    ensures others { OnOk result (KeepsOthers file.now.file (S.pages store.old) (S.pages store.new)) }
    ensures came { (s : S) → S.came s store.old → S.came s store.new }
    ensures cause { HasFileCause (S.pages store.old) IsNever (S.faults store.old) (S.faults store.new) result }
{
    let bytes = all_encoded(alloc, rows, file.domains.items())?;
    build(store, file.file, bytes.items())
}
