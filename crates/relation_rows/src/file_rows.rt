//! Rows of a relation's file go and come, and a file is made with rows.

ghost use Rattle.std.specs.Prelude.{◌≡◌, ◌<◌, ◌≤◌, ◌^◌, All, IsTrue, List as Items, Some, false, true, length, IfOk, OnOk};
ghost use Rattle.std.specs.List.{list_any};
ghost use Rattle.disk_model.specs.Disk.{Image};
ghost use Rattle.am_traits.specs.Causes.{HasFileCause};
ghost use Rattle.am_traits.specs.Pages.{KeepsOthers};
ghost use Rattle.am_traits.specs.Placed.{rows_differ};
ghost use Rattle.calculus.specs.Replacement.{with_rows, without_rows};
ghost use Rattle.calculus.specs.Rows.{Row as Values, has, set_of};
ghost use Rattle.page_cells.specs.RowBytes.{is_row, widths};
ghost use Rattle.page_chain.specs.Grown.{IsNever};
ghost use Rattle.page_chain.specs.Pages.{pages_of};
ghost use Rattle.page_chain.specs.Rows.{reader, set_on};
ghost use Rattle.relation_rows.specs.Sets.{HasNoneOf, HasSet};

use crate::spots::RowSpots;
use crate::unseen::pages_near;
use access::open_method;
use am_traits::{AccessMethod, PageStore, RelFile};
use base_trait::BaseFault;
use calculus::Row;
use heap_am::Heap;
use std::alloc::Global;

/// Takes rows of a relation's file away and puts others. Where few rows are to go, the pages on which they
/// were seen are read alone, and the last; else it is one pass, which ends where all that are to go were
/// found. Without rows that are to go only the last page is read. What is done is the same wherever rows
/// were seen. Answers how many pages the file has then. A file that could grow to 2^32 pages answers
/// want of memory.
pub fn change_rows<S: PageStore>(
    alloc: Global,
    store: &mut S,
    file: RelFile,
    spots: &mut RowSpots,
    remove: &[Row],
    add: &[Row],
) -> Result<u32, BaseFault>
    requires number { 5 ≤ file.file }
    requires some { 0 < widths file.domains }
    requires most { widths file.domains ≤ 1012 }
    requires pages { 0 < file.used }
    requires going { All (λ row. IsTrue (is_row row file.domains)) remove.now }
    requires coming { All (λ row. IsTrue (is_row row file.domains)) add.now }
    ensures some { IfOk result (λ used. 1 ≤ used) }
    ensures changed { (m : Image) (rows : Items Values) → S.pages store.old ≡ Some m → set_on (reader file.domains) file.used (pages_of m file.file) ≡ Some rows
        → rows_differ remove.now ≡ true → All (λ row. IsTrue (has rows row)) remove.now
        → rows_differ add.now ≡ true → list_any (has rows) add.now ≡ false
        → IfOk result (λ used. HasSet file.domains file.file used (with_rows add.now (without_rows remove.now rows)) (S.pages store.new)) }
    ensures others { OnOk result (KeepsOthers file.file (S.pages store.old) (S.pages store.new)) }
    ensures came { (s : S) → S.came s store.old → S.came s store.new }
    ensures cause { HasFileCause (S.pages store.old) (HasNoneOf file remove.now) (S.faults store.old) (S.faults store.new) result }
{
    let number = file.file;
    let used = file.used;
    if used as u64 + add.len() as u64 > u32::MAX as u64 {
        return Err(BaseFault::OutOfMemory);
    }
    let mut method = open_method(file);
    let near = pages_near(alloc, store, &method, spots, remove)?;
    if !method.replace_near(alloc, store, near.items(), remove, add)? {
        return Err(BaseFault::Damaged {
            file: number,
            page: 0,
        });
    }
    let now = method.info().used;
    spots.note(near.items(), remove, add, used, now)?;
    Ok(now)
}

/// Makes a relation's file anew with these rows, and answers how many pages it has.
#[tactic(auto, using(crate::proofs::Holding::set_built))]
pub fn build_rows<S: PageStore>(
    alloc: Global,
    store: &mut S,
    file: RelFile,
    rows: &[Row],
) -> Result<u32, BaseFault>
    requires number { 5 ≤ file.file }
    requires some { 0 < widths file.domains }
    requires most { widths file.domains ≤ 1012 }
    requires fit { All (λ row. IsTrue (is_row row file.domains)) rows.now }
    requires few { length rows.now < 2 ^ 30 }
    ensures some { IfOk result (λ used. 1 ≤ used) }
    ensures built { (m : Image) → S.pages store.old ≡ Some m → rows_differ rows.now ≡ true
        → IfOk result (λ used. HasSet file.domains file.file used (set_of rows.now) (S.pages store.new)) }
    ensures others { OnOk result (KeepsOthers file.file (S.pages store.old) (S.pages store.new)) }
    ensures came { (s : S) → S.came s store.old → S.came s store.new }
    ensures cause { HasFileCause (S.pages store.old) IsNever (S.faults store.old) (S.faults store.new) result }
{
    let heap = Heap::build(alloc, store, file, rows)?;
    Ok(heap.info().used)
}
