//! The rows of a page, all at once.

ghost use Rattle.std.specs.Prelude.{◌≡◌, ◌+◌, ◌++◌, ◌<◌, [], ◌∷◌, Some, IsTrue, IfOk, IfErr, OnOk};
ghost use Rattle.disk_model.specs.Disk.{Image, RisesUpTo};
ghost use Rattle.am_traits.specs.Causes.{HasFileCause};
ghost use Rattle.am_traits.specs.Placed.{Placed};
ghost use Rattle.page_cells.specs.Page.{IsPage};
ghost use Rattle.page_chain.specs.Lying.{place_of};
ghost use Rattle.page_chain.specs.Pages.{page_at};
ghost use Rattle.page_chain.specs.Rows.{reader};
ghost use Rattle.heap_am.specs.Heap.{heap_rows, has_rows, stands, HeapFault, IsOfPage};
ghost use Rattle.heap_am.specs.Met.{placed_from, on_page};

use crate::Heap;
use crate::lines::line_count;
use am_traits::PageStore;
use base_trait::BaseFault;
use calculus::{OutOfMemory, Row};
use disk_model::Page;
use memory::List;
use std::alloc::Global;

/// Adds a row with its line.
fn add(found: &mut Vec<(u16, Row)>, line: u16, row: Row) -> Result<(), OutOfMemory>
    ensures { OnOk result (found.new.items ≡ found.old.items ++ (line, row) ∷ []) }
{
    found.push((line, row))?;
    Ok(())
}

impl Heap {
    /// The rows on a page, each with its line.
    fn lines(&self, alloc: Global, page: &Page, number: u32) -> Result<List<(u16, Row)>, BaseFault>
        requires page { IsPage page.now }
        requires below { number < self.now.file.used }
        ensures known { (m : Image) (rows : Placed) → heap_rows self.now.file m ≡ Some rows → m (page_at self.now.file.file number) ≡ Some page.now
            → IfOk result (λ found. placed_from rows (place_of number 0) ≡ on_page number found ++ placed_from rows (place_of (number + 1) 0)) }
        ensures read { OnOk result (IsTrue (has_rows (reader self.now.file.domains) number (Some page.now))) }
        ensures fault { IfErr result (IsOfPage self.now.file number page.now) }
    {
        let mut found = Vec::new(alloc);
        'lines: for line in 0..line_count(page) {
            match self.line(alloc, page, number, line)? {
                Some(row) => add(&mut found, line, row)?,
                None => {}
            }
        }
        Ok(List::of(found))
    }

    /// The rows on a page, each with its line, in the order of their lines. The page is read and checked
    /// once.
    pub fn page_rows<S: PageStore>(
        &self,
        alloc: Global,
        store: &mut S,
        number: u32,
    ) -> Result<List<(u16, Row)>, BaseFault>
        requires below { number < self.now.file.used }
        ensures known { (m : Image) (rows : Placed) → S.pages store.old ≡ Some m → heap_rows self.now.file m ≡ Some rows
            → IfOk result (λ found. placed_from rows (place_of number 0) ≡ on_page number found ++ placed_from rows (place_of (number + 1) 0)) }
        ensures stands { (m : Image) → S.pages store.old ≡ Some m → OnOk result (IsTrue (stands (reader self.now.file.domains) self.now.file.used number (m (page_at self.now.file.file number)))) }
        ensures same { S.pages store.new ≡ S.pages store.old }
        ensures reads { RisesUpTo 1 (S.reads store.old) (S.reads store.new) }
        ensures kept { S.last store.old ≡ Some (page_at self.now.file.file number) → S.reads store.new ≡ S.reads store.old }
        ensures last { OnOk result (S.last store.new ≡ Some (page_at self.now.file.file number)) }
        ensures came { (s : S) → S.came s store.old → S.came s store.new }
        ensures only_read { (s : S) → S.only_read s store.old → S.only_read s store.new }
        ensures cause { HasFileCause (S.pages store.old) (HeapFault self.now.file) (S.faults store.old) (S.faults store.new) result }
    {
        let mut page: Page = [0; 1024];
        self.page(store, number, &mut page)?;
        self.lines(alloc, &page, number)
    }
}
