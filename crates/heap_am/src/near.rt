//! Rows that go are looked for on given pages first.

ghost use Rattle.std.specs.Prelude.{◌≡◌, ◌+◌, ◌-◌, ◌^◌, ◌<◌, ◌≤◌, ℕ, [], ◌∷◌, ◌++◌, List, Some, None, true, IsTrue, IfOk, IfSome, OnOk, All, length, map, take};
ghost use Rattle.calculus.specs.Rows.{Row as Values, has};
ghost use Rattle.disk_model.specs.Disk.{Image};
ghost use Rattle.am_traits.specs.Causes.{HasFileCause};
ghost use Rattle.am_traits.specs.Pages.{KeepsOthers};
ghost use Rattle.am_traits.specs.Placed.{Placed, Replaced, NowHolds, SameButUsed, rows_differ, rows_of};
ghost use Rattle.page_cells.specs.RowBytes.{is_row, row_bytes};
ghost use Rattle.page_chain.specs.Chains.{IsChain, OffPage};
ghost use Rattle.page_chain.specs.Grown.{IsGrown};
ghost use Rattle.page_chain.specs.Lying.{IsShort, lying, lying_on, staying};
ghost use Rattle.page_chain.specs.Pages.{pages_of};
ghost use Rattle.heap_am.specs.Heap.{heap_rows, HeapFault};
ghost use Rattle.heap_am.specs.Near.{IsRising, IsDoneOn, IsDoneNear};

use crate::Heap;
use crate::encoding::all_encoded;
use am_traits::PageStore;
use base_trait::BaseFault;
use calculus::{OutOfMemory, Row};
use disk_model::{Addr, Page};
use memory::List;
use page_chain::{GoingRows, chain_page, extend, renew_page};
use std::alloc::Global;

/// Of these numbers, from the first on, each that is below `used` and greater than all that were taken
/// before it.
fn taken(alloc: Global, near: &[u32], used: u32) -> Result<List<u32>, OutOfMemory>
    ensures { IfOk result (λ numbers. IsRising 0 used numbers) }
{
    let mut numbers = Vec::new(alloc);
    let mut least = 0;
    'near: for number in near {
        if least <= *number && *number < used {
            numbers.push(*number)?;
            least = *number + 1;
        }
    }
    Ok(List::of(numbers))
}

impl Heap {
    /// How many of the rows on a page are to go. They go from the page in hand, which isn't put.
    fn count_on<S: PageStore>(
        &self,
        store: &mut S,
        number: u32,
        going: &GoingRows<'_>,
    ) -> Result<u16, BaseFault>
        requires below { number < self.now.file.used }
        ensures count { (m : Image) → S.pages store.old ≡ Some m → IfOk result (λ count.
            count + length (staying going.now (lying_on number (pages_of m self.now.file.file number))) ≡ length (lying_on number (pages_of m self.now.file.file number))) }
        ensures most { IfOk result (λ count. count ≤ 254) }
        ensures same { S.pages store.new ≡ S.pages store.old }
        ensures came { (s : S) → S.came s store.old → S.came s store.new }
        ensures cause { HasFileCause (S.pages store.old) (HeapFault self.now.file) (S.faults store.old) (S.faults store.new) result }
    {
        let mut page: Page = [0; 1024];
        self.page(store, number, &mut page)?;
        let done = renew_page(&mut page, going, &[]);
        Ok(done.gone)
    }

    /// How many of the rows on these pages are to go. No page changes.
    fn count_near<S: PageStore>(
        &self,
        store: &mut S,
        numbers: &[u32],
        going: &GoingRows<'_>,
    ) -> Result<usize, BaseFault>
        requires rising { IsRising 0 self.now.file.used numbers.now }
        ensures count { (m : Image) → S.pages store.old ≡ Some m → IfOk result (λ count.
            count + length (staying going.now (lying (pages_of m self.now.file.file) numbers.now)) ≡ length (lying (pages_of m self.now.file.file) numbers.now)) }
        ensures same { S.pages store.new ≡ S.pages store.old }
        ensures came { (s : S) → S.came s store.old → S.came s store.new }
        ensures cause { HasFileCause (S.pages store.old) (HeapFault self.now.file) (S.faults store.old) (S.faults store.new) result }
    {
        let mut count: usize = 0;
        'numbers: for number in numbers {
            count += self.count_on(store, *number, going)? as usize;
        }
        Ok(count)
    }

    /// Takes the rows that are to go away from a page, and where one went puts others. A page that
    /// changed is put in its place. Answers how many came.
    fn renew_on<S: PageStore>(
        &self,
        store: &mut S,
        number: u32,
        going: &GoingRows<'_>,
        coming: &[List<u8>],
    ) -> Result<usize, BaseFault>
        requires short { All (λ row. IsShort row) coming.now }
        ensures done { (m : Image) → S.pages store.old ≡ Some m → IfOk result (λ put.
            IsDoneOn self.now.file.file self.now.file.used (number ∷ []) going.now (take put coming.now) m (S.pages store.new)) }
        ensures put { IfOk result (λ put. put ≤ length coming.now) }
        ensures came { (s : S) → S.came s store.old → S.came s store.new }
        ensures cause { HasFileCause (S.pages store.old) (OffPage self.now.file.file number self.now.file.used) (S.faults store.old) (S.faults store.new) result }
    {
        let mut page: Page = [0; 1024];
        let file = self.file.file;
        chain_page(store, file, number, self.file.used as u64, &mut page)?;
        let done = renew_page(&mut page, going, coming);
        if done.gone > 0 {
            let at = Addr { file, page: number };
            store.put(at, &page)?;
        }
        Ok(done.put)
    }

    /// The same on each of these pages.
    fn renew_all<S: PageStore>(
        &self,
        store: &mut S,
        numbers: &[u32],
        going: &GoingRows<'_>,
        coming: &[List<u8>],
    ) -> Result<usize, BaseFault>
        requires rising { IsRising 0 self.now.file.used numbers.now }
        requires short { All (λ row. IsShort row) coming.now }
        ensures done { (m : Image) → S.pages store.old ≡ Some m → IfOk result (λ put.
            IsDoneOn self.now.file.file self.now.file.used numbers.now going.now (take put coming.now) m (S.pages store.new)) }
        ensures put { IfOk result (λ put. put ≤ length coming.now) }
        ensures came { (s : S) → S.came s store.old → S.came s store.new }
        ensures cause { HasFileCause (S.pages store.old) (HeapFault self.now.file) (S.faults store.old) (S.faults store.new) result }
    {
        let mut put = 0;
        'numbers: for number in numbers {
            put += self.renew_on(store, *number, going, coming.split_at(put).1)?;
        }
        Ok(put)
    }

    /// Where all rows that are to go lie on these pages, takes them away, puts others where one went, and
    /// answers how many came. Else nothing is done.
    fn renew_near<S: PageStore>(
        &self,
        alloc: Global,
        store: &mut S,
        near: &[u32],
        going: &[List<u8>],
        coming: &[List<u8>],
    ) -> Result<Option<usize>, BaseFault>
        requires short { All (λ row. IsShort row) coming.now }
        ensures done { (m : Image) → S.pages store.old ≡ Some m → IfOk result (λ done. IfSome done (λ put.
            IsDoneNear self.now.file.file self.now.file.used going.now (take put coming.now) m (S.pages store.new))) }
        ensures put { IfOk result (λ done. IfSome done (λ put. put ≤ length coming.now)) }
        ensures none { IfOk result (λ done. done ≡ None → S.pages store.new ≡ S.pages store.old) }
        ensures came { (s : S) → S.came s store.old → S.came s store.new }
        ensures cause { HasFileCause (S.pages store.old) (HeapFault self.now.file) (S.faults store.old) (S.faults store.new) result }
    {
        let numbers = taken(alloc, near, self.file.used)?;
        let rows = GoingRows::of(alloc, going)?;
        let count = self.count_near(store, numbers.items(), &rows)?;
        if count != rows.len() {
            return Ok(None);
        }
        let put = self.renew_all(store, numbers.items(), &rows, coming)?;
        Ok(Some(put))
    }

    /// Puts rows with these bytes behind the last page. Without rows no page is read.
    fn put_rest<S: PageStore>(&mut self, store: &mut S, rows: &[List<u8>]) -> Result<(), BaseFault>
        requires short { All (λ row. IsShort row) rows.now }
        requires room { self.old.file.used + length rows.now < 2 ^ 32 }
        ensures behind { OnOk result (self.old.file.used ≤ self.new.file.used) }
        ensures grown { (m : Image) → S.pages store.old ≡ Some m → OnOk result ((earlier : List ℕ)
            → IsChain self.old.file.used (pages_of m self.old.file.file) (earlier ++ (self.old.file.used - 1) ∷ [])
            → IsGrown self.old.file.file self.old.file.used earlier (self.old.file.used - 1) (self.new.file.used - 1) rows.now m (S.pages store.new)) }
        ensures others { OnOk result (KeepsOthers self.old.file.file (S.pages store.old) (S.pages store.new)) }
        ensures file { OnOk result (SameButUsed self.old.file self.new.file) }
        ensures came { (s : S) → S.came s store.old → S.came s store.new }
        ensures cause { HasFileCause (S.pages store.old) (OffPage self.old.file.file (self.old.file.used - 1) (self.old.file.used - 1 + 1)) (S.faults store.old) (S.faults store.new) result }
    {
        if rows.is_empty() {
            return Ok(());
        }
        let last = extend(store, self.file.file, self.file.used - 1, rows)?;
        self.file.used = last + 1;
        Ok(())
    }

    /// As `renew`, but it looks on these pages first.
    fn renew_first<S: PageStore>(
        &mut self,
        alloc: Global,
        store: &mut S,
        near: &[u32],
        going: &[List<u8>],
        coming: &[List<u8>],
    ) -> Result<bool, BaseFault>
        requires short { All (λ row. IsShort row) coming.now }
        requires room { self.old.file.used + length coming.now < 2 ^ 32 }
        ensures known { (m : Image) (rows : Placed) (gone new : List Values) → S.pages store.old ≡ Some m → heap_rows self.old.file m ≡ Some rows
            → All (λ row. IsTrue (is_row row self.old.file.domains)) gone → going.now ≡ map (λ row. row_bytes row self.old.file.domains) gone
            → All (λ row. IsTrue (is_row row self.old.file.domains)) new → coming.now ≡ map (λ row. row_bytes row self.old.file.domains) new
            → rows_differ (rows_of rows) ≡ true → rows_differ gone ≡ true → All (λ row. IsTrue (has (rows_of rows) row)) gone
            → IfOk result (λ all. IsTrue all × NowHolds (heap_rows self.new.file) (S.pages store.new) (Replaced rows gone new)) }
        // True only where all that were to go were there.
        ensures only { (m : Image) (rows : Placed) (gone : List Values) → S.pages store.old ≡ Some m → heap_rows self.old.file m ≡ Some rows
            → All (λ row. IsTrue (is_row row self.old.file.domains)) gone → going.now ≡ map (λ row. row_bytes row self.old.file.domains) gone
            → rows_differ (rows_of rows) ≡ true → rows_differ gone ≡ true
            → IfOk result (λ all. IsTrue all → All (λ row. IsTrue (has (rows_of rows) row)) gone) }
        ensures others { OnOk result (KeepsOthers self.old.file.file (S.pages store.old) (S.pages store.new)) }
        ensures file { OnOk result (SameButUsed self.old.file self.new.file) }
        ensures came { (s : S) → S.came s store.old → S.came s store.new }
        ensures cause { HasFileCause (S.pages store.old) (HeapFault self.old.file) (S.faults store.old) (S.faults store.new) result }
    {
        match self.renew_near(alloc, store, near, going, coming)? {
            Some(put) => {
                self.put_rest(store, coming.split_at(put).1)?;
                Ok(true)
            }
            None => self.renew(alloc, store, going, coming),
        }
    }

    /// As `replace`, but it looks for the rows that go on these pages first; where all lie there, no other
    /// page is read but the last. Which pages they are makes no difference to what is done.
    pub fn replace_near<S: PageStore>(
        &mut self,
        alloc: Global,
        store: &mut S,
        near: &[u32],
        going: &[Row],
        coming: &[Row],
    ) -> Result<bool, BaseFault>
        requires going { All (λ row. IsTrue (is_row row self.old.file.domains)) going.now }
        requires coming { All (λ row. IsTrue (is_row row self.old.file.domains)) coming.now }
        requires room { self.old.file.used + length coming.now < 2 ^ 32 }
        ensures known { (m : Image) (rows : Placed) → S.pages store.old ≡ Some m → heap_rows self.old.file m ≡ Some rows
            → rows_differ (rows_of rows) ≡ true → rows_differ going.now ≡ true → All (λ row. IsTrue (has (rows_of rows) row)) going.now
            → IfOk result (λ all. IsTrue all × NowHolds (heap_rows self.new.file) (S.pages store.new) (Replaced rows going.now coming.now)) }
        // True only where all that were to go were there.
        ensures only { (m : Image) (rows : Placed) → S.pages store.old ≡ Some m → heap_rows self.old.file m ≡ Some rows
            → rows_differ (rows_of rows) ≡ true → rows_differ going.now ≡ true
            → IfOk result (λ all. IsTrue all → All (λ row. IsTrue (has (rows_of rows) row)) going.now) }
        ensures others { OnOk result (KeepsOthers self.old.file.file (S.pages store.old) (S.pages store.new)) }
        ensures file { OnOk result (SameButUsed self.old.file self.new.file) }
        ensures came { (s : S) → S.came s store.old → S.came s store.new }
        ensures cause { HasFileCause (S.pages store.old) (HeapFault self.old.file) (S.faults store.old) (S.faults store.new) result }
    {
        if going.is_empty() {
            return self.change(alloc, store, going, coming);
        }
        let new = all_encoded(alloc, coming, self.file.domains.items())?;
        let gone = all_encoded(alloc, going, self.file.domains.items())?;
        self.renew_first(alloc, store, near, gone.items(), new.items())
    }
}
