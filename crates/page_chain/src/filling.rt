//! Rows are put on pages, as many on each as it has room for.

ghost use Rattle.std.specs.Prelude.{◌≡◌, ◌+◌, ◌^◌, ◌<◌, ◌≤◌, ℕ, List as Rows, [], Some, All, IfOk, OnOk, drop, length, take};
ghost use Rattle.disk_model.specs.Disk.{Image};
ghost use Rattle.am_traits.specs.Causes.{HasStoreCause};
ghost use Rattle.am_traits.specs.Pages.{with_page};
ghost use Rattle.page_cells.specs.Page.{IsPage, next_page, slots};
ghost use Rattle.page_chain.specs.Filled.{InHand, IsFilled, IsLinked, KnownLaid};
ghost use Rattle.page_chain.specs.Lying.{IsShort};
ghost use Rattle.page_chain.specs.Pages.{page_at};

use am_traits::{PageStore, StoreFault};
use disk_model::{Addr, Page};
use memory::List;
use page_cells::{fresh_page, put_row, set_next};

/// Puts rows on a page, from the first on, while there is room for them, and answers how many.
pub(crate) fn fill(page: &mut Page, rows: &[List<u8>]) -> usize
    requires page { IsPage page.old }
    requires short { All (λ row. IsShort row) rows.now }
    ensures count { result ≤ length rows.now }
    ensures filled { IsFilled page.old (take result rows.now) page.new }
    ensures some { slots page.old ≡ [] → 0 < length rows.now → 0 < result }
    ensures next { next_page page.new ≡ next_page page.old }
    ensures page { IsPage page.new }
{
    'rows: for (count, row) in rows.iter().enumerate() {
        if put_row(page, row.items()).is_none() {
            return count;
        }
    }
    rows.len()
}

/// Puts a page in its place, with the next one behind it, and makes it a fresh one.
pub(crate) fn turn_page<S: PageStore>(
    store: &mut S,
    file: u32,
    at: u32,
    page: &mut Page,
) -> Result<(), StoreFault>
    requires file { 5 ≤ file }
    requires page { IsPage page.old }
    requires room { at + 1 < 2 ^ 32 }
    ensures linked { (m : Image) → S.pages store.old ≡ Some m → OnOk result (IsLinked file at page.old m (S.pages store.new)) }
    ensures fresh { OnOk result (slots page.new ≡ []) }
    ensures next { OnOk result (next_page page.new ≡ 0) }
    ensures page { OnOk result (IsPage page.new) }
    ensures reads { S.reads store.new ≡ S.reads store.old }
    ensures came { (s : S) → S.came s store.old → S.came s store.new }
    ensures cause { HasStoreCause (S.faults store.old) (S.faults store.new) result }
{
    set_next(page, at + 1);
    store.put(Addr { file, page: at }, page)?;
    fresh_page(page);
    Ok(())
}

/// Puts the page in hand, which is full, in its place, and as many of the rows that are left as there is
/// room for on a fresh one behind it. Answers how many.
fn write_page<S: PageStore>(
    store: &mut S,
    file: u32,
    at: u32,
    page: &mut Page,
    left: &[List<u8>],
) -> Result<usize, StoreFault>
    requires file { 5 ≤ file }
    requires page { IsPage page.old }
    requires short { All (λ row. IsShort row) left.now }
    requires room { at + 1 < 2 ^ 32 }
    ensures some { IfOk result (λ n. 0 < length left.now → 0 < n) }
    ensures count { IfOk result (λ n. n ≤ length left.now) }
    ensures hand { (first : ℕ) (rows : Rows (Rows ℕ)) (m : Image) → InHand file first at page.old left.now rows m (S.pages store.old)
        → IfOk result (λ n. InHand file first (at + 1) page.new (drop n left.now) rows m (S.pages store.new)) }
    ensures page { OnOk result (IsPage page.new) }
    ensures reads { S.reads store.new ≡ S.reads store.old }
    ensures came { (s : S) → S.came s store.old → S.came s store.new }
    ensures cause { HasStoreCause (S.faults store.old) (S.faults store.new) result }
{
    turn_page(store, file, at, page)?;
    Ok(fill(page, left))
}

/// Writes the rows that are left on pages behind the one in hand, which is full. The last of them is in
/// hand then; answers its number.
fn write_pages<S: PageStore>(
    store: &mut S,
    file: u32,
    first: u32,
    page: &mut Page,
    rows: &[List<u8>],
) -> Result<u32, StoreFault>
    requires file { 5 ≤ file }
    requires page { IsPage page.old }
    requires short { All (λ row. IsShort row) rows.now }
    requires room { first + length rows.now < 2 ^ 32 }
    ensures behind { IfOk result (λ now. (first ≤ now) × (now ≤ first + length rows.now)) }
    ensures hand { (begin : ℕ) (all : Rows (Rows ℕ)) (m : Image) → InHand file begin first page.old rows.now all m (S.pages store.old)
        → IfOk result (λ now. InHand file begin now page.new [] all m (S.pages store.new)) }
    ensures reads { S.reads store.new ≡ S.reads store.old }
    ensures came { (s : S) → S.came s store.old → S.came s store.new }
    ensures cause { HasStoreCause (S.faults store.old) (S.faults store.new) result }
{
    let mut at = first;
    let mut left = rows;
    'pages: while !left.is_empty() {
        let count = write_page(store, file, at, page, left)?;
        left = left.split_at(count).1;
        at += 1;
    }
    Ok(at)
}

/// Writes rows on the pages of a file from this one on, which is in hand and has none behind it: into its
/// room, then on fresh pages, which have the numbers behind it. Each page is put once. Answers the
/// number of the last.
pub(crate) fn write_rows<S: PageStore>(
    store: &mut S,
    file: u32,
    first: u32,
    page: &mut Page,
    rows: &[List<u8>],
) -> Result<u32, StoreFault>
    requires file { 5 ≤ file }
    requires page { IsPage page.old }
    requires ends { next_page page.old ≡ 0 }
    requires short { All (λ row. IsShort row) rows.now }
    requires room { first + length rows.now < 2 ^ 32 }
    ensures behind { IfOk result (λ now. (first ≤ now) × (now ≤ first + length rows.now)) }
    ensures laid { (m : Image) → S.pages store.old ≡ Some m → IfOk result (λ now.
        KnownLaid file first now rows.now (with_page (page_at file first) page.old m) (S.pages store.new)) }
    ensures reads { S.reads store.new ≡ S.reads store.old }
    ensures came { (s : S) → S.came s store.old → S.came s store.new }
    ensures cause { HasStoreCause (S.faults store.old) (S.faults store.new) result }
{
    let left = rows.split_at(fill(page, rows)).1;
    let at = write_pages(store, file, first, page, left)?;
    store.put(Addr { file, page: at }, page)?;
    Ok(at)
}
