//! Pages to which rows may have come are looked at, so that it is known where these were seen.

ghost use Rattle.std.specs.Prelude.{◌≡◌, ◌<◌};
ghost use Rattle.am_traits.specs.Causes.{HasFileCause};
ghost use Rattle.heap_am.specs.Heap.{HeapFault};

use crate::spots::{PageRange, RowSpots};
use access::Method;
use am_traits::PageStore;
use base_trait::BaseFault;
use calculus::Row;
use memory::List;
use std::alloc::Global;

/// Notes where the rows of a page are.
fn see_page<S: PageStore>(
    alloc: Global,
    store: &mut S,
    method: &Method,
    spots: &mut RowSpots,
    number: u32,
) -> Result<(), BaseFault>
    requires below { number < method.now.heap.file.used }
    ensures same { S.pages store.new ≡ S.pages store.old }
    ensures came { (s : S) → S.came s store.old → S.came s store.new }
    ensures cause { HasFileCause (S.pages store.old) (HeapFault method.now.heap.file) (S.faults store.old) (S.faults store.new) result }
{
    let found = method.page_rows(alloc, store, number)?;
    spots.see(found.items(), number)?;
    Ok(())
}

/// Notes where the rows of pages are that follow each other.
fn see_range<S: PageStore>(
    alloc: Global,
    store: &mut S,
    method: &Method,
    spots: &mut RowSpots,
    range: PageRange,
) -> Result<(), BaseFault>
    ensures same { S.pages store.new ≡ S.pages store.old }
    ensures came { (s : S) → S.came s store.old → S.came s store.new }
    ensures cause { HasFileCause (S.pages store.old) (HeapFault method.now.heap.file) (S.faults store.old) (S.faults store.new) result }
{
    let used = method.info().used;
    'numbers: for number in range.first..used {
        if number > range.last {
            return Ok(());
        }
        see_page(alloc, store, method, spots, number)?;
    }
    Ok(())
}

/// Notes where the rows are of all pages to which rows may have come.
fn see_all<S: PageStore>(
    alloc: Global,
    store: &mut S,
    method: &Method,
    spots: &mut RowSpots,
) -> Result<(), BaseFault>
    ensures same { S.pages store.new ≡ S.pages store.old }
    ensures came { (s : S) → S.came s store.old → S.came s store.new }
    ensures cause { HasFileCause (S.pages store.old) (HeapFault method.now.heap.file) (S.faults store.old) (S.faults store.new) result }
{
    let ranges = spots.take_unseen(alloc);
    'each: for range in ranges.items() {
        see_range(alloc, store, method, spots, *range)?;
    }
    Ok(())
}

/// The pages on which rows that are to go were seen, in their order; none where they are many, or one of
/// them wasn't seen. Changes no page.
pub(crate) fn pages_near<S: PageStore>(
    alloc: Global,
    store: &mut S,
    method: &Method,
    spots: &mut RowSpots,
    rows: &[Row],
) -> Result<List<u32>, BaseFault>
    ensures same { S.pages store.new ≡ S.pages store.old }
    ensures came { (s : S) → S.came s store.old → S.came s store.new }
    ensures cause { HasFileCause (S.pages store.old) (HeapFault method.now.heap.file) (S.faults store.old) (S.faults store.new) result }
{
    if rows.is_empty() || rows.len() as u64 >= method.info().used as u64 {
        return Ok(List::of(Vec::new(alloc)));
    }
    see_all(alloc, store, method, spots)?;
    Ok(spots.near(alloc, rows)?)
}
