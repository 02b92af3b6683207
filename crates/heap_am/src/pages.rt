//! A page of a heap is read.

ghost use Rattle.std.specs.Prelude.{◌≡◌, ◌<◌, Some, IsTrue, OnOk};
ghost use Rattle.disk_model.specs.Disk.{Image, RisesUpTo};
ghost use Rattle.am_traits.specs.Causes.{HasFileCause};
ghost use Rattle.page_cells.specs.Page.{IsPage};
ghost use Rattle.page_chain.specs.Pages.{page_at};
ghost use Rattle.heap_am.specs.Heap.{behind, goes_on, HeapFault};

use crate::Heap;
use am_traits::PageStore;
use base_trait::BaseFault;
use disk_model::Page;
use page_chain::chain_page;

/// The number of the page right behind, 0 where this is the last of so many.
fn behind(page: u32, used: u32) -> u32
    requires { page < used }
    ensures { result ≡ behind used page }
{
    if page + 1 < used { page + 1 } else { 0 }
}

impl Heap {
    /// Gives a page. One that isn't there, is none of rows, or goes on to another page than the one
    /// right behind it is damaged.
    pub(crate) fn page<S: PageStore>(
        &self,
        store: &mut S,
        number: u32,
        out: &mut Page,
    ) -> Result<(), BaseFault>
        requires below { number < self.now.file.used }
        ensures there { (m : Image) → S.pages store.old ≡ Some m → OnOk result (m (page_at self.now.file.file number) ≡ Some out.new) }
        ensures page { OnOk result (IsPage out.new) }
        ensures goes { OnOk result (IsTrue (goes_on self.now.file.used number (Some out.new))) }
        ensures same { S.pages store.new ≡ S.pages store.old }
        ensures reads { RisesUpTo 1 (S.reads store.old) (S.reads store.new) }
        ensures kept { S.last store.old ≡ Some (page_at self.now.file.file number) → S.reads store.new ≡ S.reads store.old }
        ensures last { OnOk result (S.last store.new ≡ Some (page_at self.now.file.file number)) }
        ensures came { (s : S) → S.came s store.old → S.came s store.new }
        ensures only_read { (s : S) → S.only_read s store.old → S.only_read s store.new }
        ensures cause { HasFileCause (S.pages store.old) (HeapFault self.now.file) (S.faults store.old) (S.faults store.new) result }
    {
        let used = self.file.used;
        let next = chain_page(store, self.file.file, number, used as u64, out)?;
        if next != behind(number, used) {
            return Err(self.damaged(number));
        }
        Ok(())
    }
}
