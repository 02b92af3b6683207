//! All rows of a relation's file.

ghost use Rattle.std.specs.Prelude.{◌≡◌, ◌+◌, ◌++◌, ◌<◌, ◌≤◌, ◌∷◌, [], map, Some, IsTrue, IfOk, OnOk};
ghost use Rattle.disk_model.specs.Disk.{Image, RisesUpTo};
ghost use Rattle.am_traits.specs.Causes.{HasFileCause};
ghost use Rattle.am_traits.specs.Placed.{Placed, rows_of, rows_from};
ghost use Rattle.page_cells.specs.RowBytes.{widths};
ghost use Rattle.page_chain.specs.Lying.{place_of};
ghost use Rattle.page_chain.specs.Pages.{page_at};
ghost use Rattle.page_chain.specs.Rows.{reader};
ghost use Rattle.heap_am.specs.Heap.{heap_rows, stands, HeapFault};
ghost use Rattle.relation_rows.specs.Sets.{IsRead};

use crate::spots::RowSpots;
use access::{Method, open_method};
use am_traits::{PageStore, RelFile};
use base_trait::BaseFault;
use calculus::{List, OutOfMemory, Row};
use std::alloc::Global;

/// Puts the rows of a page behind the others.
fn put_behind(rows: &mut Vec<Row>, found: List<(u16, Row)>) -> Result<(), OutOfMemory>
    ensures { OnOk result (rows.new.items ≡ rows.old.items ++ map (λ f. f.1) found) }
{
    'found: for (_line, row) in found.into_items() {
        rows.push(row)?;
    }
    Ok(())
}

/// Puts the rows on a page behind the others, and notes where they were seen.
#[tactic(auto, using(crate::proofs::Pages::page_read))]
fn read_page<S: PageStore>(
    method: &Method,
    alloc: Global,
    store: &mut S,
    number: u32,
    spots: &mut RowSpots,
    rows: &mut Vec<Row>,
) -> Result<(), BaseFault>
    requires below { number < method.now.heap.file.used }
    ensures known { (m : Image) (placed : Placed) → S.pages store.old ≡ Some m → heap_rows method.now.heap.file m ≡ Some placed
        → OnOk result (rows.old.items ++ rows_from placed (place_of number 0) ≡ rows.new.items ++ rows_from placed (place_of (number + 1) 0)) }
    ensures stands { (m : Image) → S.pages store.old ≡ Some m → OnOk result (IsTrue (stands (reader method.now.heap.file.domains) method.now.heap.file.used number (m (page_at method.now.heap.file.file number)))) }
    ensures same { S.pages store.new ≡ S.pages store.old }
    ensures reads { RisesUpTo 1 (S.reads store.old) (S.reads store.new) }
    ensures came { (s : S) → S.came s store.old → S.came s store.new }
    ensures only_read { (s : S) → S.only_read s store.old → S.only_read s store.new }
    ensures cause { HasFileCause (S.pages store.old) (HeapFault method.now.heap.file) (S.faults store.old) (S.faults store.new) result }
{
    let found = method.page_rows(alloc, store, number)?;
    spots.see(found.items(), number)?;
    put_behind(rows, found)?;
    Ok(())
}

/// All rows of a relation's file, in the order of their places. Each page is read and checked once. Where
/// the rows were seen is noted.
#[tactic(auto, using(crate::proofs::Pages::none_read, crate::proofs::Pages::all_read, crate::proofs::Pages::one_stands))]
pub fn relation_rows<S: PageStore>(
    alloc: Global,
    store: &mut S,
    file: RelFile,
    spots: &mut RowSpots,
) -> Result<List<Row>, BaseFault>
    requires number { 5 ≤ file.file }
    requires some { 0 < widths file.domains }
    requires most { widths file.domains ≤ 1012 }
    requires pages { 0 < file.used }
    ensures known { (m : Image) (rows : Placed) → S.pages store.old ≡ Some m → heap_rows file m ≡ Some rows
        → IfOk result (λ found. found ≡ rows_of rows) }
    ensures exact { (m : Image) → S.pages store.old ≡ Some m → IfOk result (λ found. IsRead file m found) }
    ensures same { S.pages store.new ≡ S.pages store.old }
    ensures reads { RisesUpTo file.used (S.reads store.old) (S.reads store.new) }
    ensures came { (s : S) → S.came s store.old → S.came s store.new }
    ensures only_read { (s : S) → S.only_read s store.old → S.only_read s store.new }
    ensures cause { HasFileCause (S.pages store.old) (HeapFault file) (S.faults store.old) (S.faults store.new) result }
{
    let used = file.used;
    let method = open_method(file);
    let mut rows = Vec::new(alloc);
    'pages: for number in 0..used {
        read_page(&method, alloc, store, number, spots, &mut rows)?;
    }
    Ok(List::of(rows))
}
