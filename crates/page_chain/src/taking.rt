//! One row goes from a page of a chain.

ghost use Rattle.std.specs.Prelude.{◌≡◌, ◌↔◌, ◌<◌, ◌≤◌, ℕ, ◌∷◌, Some, None, false, IsTrue, IfSome, IfNone, IfOk, slice_index_or};
ghost use Rattle.std.specs.List.Sorted.{IsPermutation};
ghost use Rattle.disk_model.specs.Disk.{Image};
ghost use Rattle.am_traits.specs.Causes.{HasFileCause};
ghost use Rattle.page_cells.specs.Page.{IsPage, next_page, slots};
ghost use Rattle.page_chain.specs.Chains.{OffPage};
ghost use Rattle.page_chain.specs.Lying.{bytes_of, is_among, lying_on, place_of};
ghost use Rattle.page_chain.specs.Passing.{PageTook};

use crate::chains::chain_page;
use crate::renewing::LINES;
use am_traits::PageStore;
use base_trait::BaseFault;
use disk_model::{Addr, Page};
use page_cells::{clear_row, slot};

/// Whether a line has this row.
fn has_row(page: &Page, line: u16, row: &[u8]) -> bool
    requires { IsPage page.now }
    ensures { IsTrue result ↔ (slice_index_or (slots page.now) line None ≡ Some row.now) }
{
    match slot(page, line) {
        Some(bytes) => bytes == row,
        None => false,
    }
}

/// The first line that has this row.
fn line_with(page: &Page, row: &[u8]) -> Option<u16>
    requires { IsPage page.now }
    ensures found { IfSome result (λ line. slice_index_or (slots page.now) line None ≡ Some row.now) }
    ensures none { IfNone result ((n : ℕ) → is_among (bytes_of (lying_on n (Some page.now))) row.now ≡ false) }
{
    'lines: for line in 0..LINES {
        if has_row(page, line, row) {
            return Some(line);
        }
    }
    None
}

/// Empties the first line that has this row, and answers it; without one the page is as it was.
fn take_row(page: &mut Page, row: &[u8]) -> Option<u16>
    requires { IsPage page.old }
    ensures took { IfSome result (λ line. (n : ℕ) → IsPermutation (lying_on n (Some page.old)) ((place_of n line, row.now) ∷ lying_on n (Some page.new))) }
    ensures none { IfNone result ((n : ℕ) → is_among (bytes_of (lying_on n (Some page.old))) row.now ≡ false) }
    ensures same { IfNone result (page.new ≡ page.old) }
    ensures next { next_page page.new ≡ next_page page.old }
    ensures page { IsPage page.new }
{
    match line_with(page, row) {
        Some(line) => {
            clear_row(page, line);
            Some(line)
        }
        None => None,
    }
}

/// What was done on a page.
#[derive(Clone, Copy)]
pub struct Taken {
    /// The number of the page that follows, 0 where none does.
    pub next: u32,
    /// The line from which the row went.
    pub line: Option<u16>,
}

/// Takes the first such row of a page of a chain away. A page that changed is put in its place.
pub fn take_at<S: PageStore>(
    store: &mut S,
    file: u32,
    number: u32,
    bound: u64,
    row: &[u8],
) -> Result<Taken, BaseFault>
    requires file { 5 ≤ file }
    ensures took { (m : Image) → S.pages store.old ≡ Some m → IfOk result (λ taken.
        PageTook file bound number row.now taken.line taken.next m (S.pages store.new)) }
    ensures same { IfOk result (λ taken. taken.line ≡ None → S.pages store.new ≡ S.pages store.old) }
    ensures next { IfOk result (λ taken. 0 < taken.next → (number < taken.next) × (taken.next < bound)) }
    ensures came { (s : S) → S.came s store.old → S.came s store.new }
    ensures cause { HasFileCause (S.pages store.old) (OffPage file number bound) (S.faults store.old) (S.faults store.new) result }
{
    let mut page: Page = [0; 1024];
    let next = chain_page(store, file, number, bound, &mut page)?;
    let line = take_row(&mut page, row);
    if line.is_some() {
        let at = Addr { file, page: number };
        store.put(at, &page)?;
    }
    Ok(Taken { next, line })
}
