//! The pages of a chain are read.

ghost use Rattle.std.specs.Prelude.{◌≡◌, ◌≤◌, ◌<◌, ◌++◌, ◌^◌, ℕ, List as Items, [], ◌∷◌, length, Some, None, true, IfOk, OnOk, if◌then◌else◌};
ghost use Rattle.std.specs.Option.{option_copied};
ghost use Rattle.disk_model.specs.Disk.{Image, RisesUpTo};
ghost use Rattle.am_traits.specs.Causes.{HasFileCause};
ghost use Rattle.page_cells.specs.Page.{IsPage, next_page, slots};
ghost use Rattle.page_chain.specs.Chains.{NoChain, OffPage, chain};
ghost use Rattle.page_chain.specs.Found.{Found, in_slot};
ghost use Rattle.page_chain.specs.Lying.{bytes_of, lying_in, lying_on};
ghost use Rattle.page_chain.specs.Pages.{page_at, pages_of, next_of, may_follow};

use am_traits::PageStore;
use base_trait::BaseFault;
use disk_model::{Addr, Page};
use memory::{List, OutOfMemory};
use page_cells::{next_of, page_ok, slot};
use std::alloc::Global;

/// Whether a chain may go on from a page to this one.
fn may_go_on(bound: u64, page: u32, next: u32) -> bool
    ensures { result ≡ may_follow bound page next }
{
    next == 0 || (page < next && (next as u64) < bound)
}

/// The number of the page that follows in a chain; `None` where these bytes are no page of one.
fn next_in(bound: u64, page: u32, bytes: &Page) -> Option<u32>
    ensures { result ≡ next_of bound page (Some bytes.now) }
{
    if !page_ok(bytes) {
        return None;
    }
    let next = next_of(bytes);
    if may_go_on(bound, page, next) {
        Some(next)
    } else {
        None
    }
}

/// The number of the page that follows, where there is such a page.
fn next_there(bound: u64, page: u32, is_there: bool, bytes: &Page) -> Option<u32>
    ensures { result ≡ next_of bound page (if is_there then Some bytes.now else None) }
{
    if is_there {
        next_in(bound, page, bytes)
    } else {
        None
    }
}

/// Gives a page of a chain, and answers the number of the page that follows, 0 where none does. A page
/// that isn't there, that is no page of rows, or behind which the chain may not go on so, is damaged:
/// the page that follows is one behind it and below the bound.
pub fn chain_page<S: PageStore>(
    store: &mut S,
    file: u32,
    page: u32,
    bound: u64,
    out: &mut Page,
) -> Result<u32, BaseFault>
    ensures there { (m : Image) → S.pages store.old ≡ Some m → OnOk result (m (page_at file page) ≡ Some out.new) }
    ensures follows { IfOk result (λ next. next_of bound page (Some out.new) ≡ Some next) }
    ensures page { OnOk result (IsPage out.new) }
    ensures next { IfOk result (λ next. next ≡ next_page out.new) }
    ensures may { IfOk result (λ next. may_follow bound page next ≡ true) }
    ensures same { S.pages store.new ≡ S.pages store.old }
    ensures reads { RisesUpTo 1 (S.reads store.old) (S.reads store.new) }
    ensures kept { S.last store.old ≡ Some (page_at file page) → S.reads store.new ≡ S.reads store.old }
    ensures last { OnOk result (S.last store.new ≡ Some (page_at file page)) }
    ensures came { (s : S) → S.came s store.old → S.came s store.new }
    ensures only_read { (s : S) → S.only_read s store.old → S.only_read s store.new }
    ensures cause { HasFileCause (S.pages store.old) (OffPage file page bound) (S.faults store.old) (S.faults store.new) result }
{
    let is_there = store.get(Addr { file, page }, out)?;
    match next_there(bound, page, is_there, out) {
        Some(next) => Ok(next),
        None => Err(BaseFault::Damaged { file, page }),
    }
}

/// Puts a copy of a row behind the others.
fn copy_row(alloc: Global, row: &[u8], rows: &mut Vec<List<u8>>) -> Result<(), OutOfMemory>
    ensures { OnOk result (rows.new.items ≡ rows.old.items ++ row.now ∷ []) }
{
    let mut bytes = Vec::new(alloc);
    bytes.extend_from_slice(row)?;
    rows.push(List::of(bytes))?;
    Ok(())
}

/// Puts a copy of the row in a slot behind the others, where there is one.
fn copy_slot(
    alloc: Global,
    slot: Option<&[u8]>,
    rows: &mut Vec<List<u8>>,
) -> Result<(), OutOfMemory>
    ensures { OnOk result (rows.new.items ≡ rows.old.items ++ in_slot (option_copied slot.entry)) }
{
    match slot {
        Some(row) => copy_row(alloc, row, rows),
        None => Ok(()),
    }
}

/// Puts copies of the rows on a page behind the others.
fn copy_rows(alloc: Global, page: &Page, rows: &mut Vec<List<u8>>) -> Result<(), OutOfMemory>
    requires { IsPage page.now }
    ensures { OnOk result (rows.new.items ≡ rows.old.items ++ bytes_of (lying_in 0 0 (slots page.now))) }
{
    'lines: for line in 0..254 {
        copy_slot(alloc, slot(page, line), rows)?;
    }
    Ok(())
}

/// Reads a page of a chain and puts copies of its rows behind the others. Answers the number of the
/// page that follows, 0 where none does.
fn copy_page<S: PageStore>(
    alloc: Global,
    store: &mut S,
    file: u32,
    page: u32,
    bound: u64,
    out: &mut Page,
    rows: &mut Vec<List<u8>>,
) -> Result<u32, BaseFault>
    ensures follows { (m : Image) → S.pages store.old ≡ Some m → IfOk result (λ next. next_of bound page (pages_of m file page) ≡ Some next) }
    ensures rows { (m : Image) → S.pages store.old ≡ Some m → OnOk result (rows.new.items ≡ rows.old.items ++ bytes_of (lying_on page (pages_of m file page))) }
    ensures may { IfOk result (λ next. may_follow bound page next ≡ true) }
    ensures same { S.pages store.new ≡ S.pages store.old }
    ensures reads { RisesUpTo 1 (S.reads store.old) (S.reads store.new) }
    ensures came { (s : S) → S.came s store.old → S.came s store.new }
    ensures only_read { (s : S) → S.only_read s store.old → S.only_read s store.new }
    ensures cause { HasFileCause (S.pages store.old) (OffPage file page bound) (S.faults store.old) (S.faults store.new) result }
{
    let next = chain_page(store, file, page, bound, out)?;
    copy_rows(alloc, out, rows)?;
    Ok(next)
}

/// Puts copies of all rows of the chain from page 0 on into an empty list, each page read once. Answers
/// the number of its last page.
fn walk<S: PageStore>(
    alloc: Global,
    store: &mut S,
    file: u32,
    bound: u64,
    rows: &mut Vec<List<u8>>,
) -> Result<u32, BaseFault>
    requires some { 1 ≤ bound }
    requires most { bound ≤ 2 ^ 32 }
    requires none { rows.old.items ≡ [] }
    ensures found { (m : Image) → S.pages store.old ≡ Some m → IfOk result (λ last. Found bound (pages_of m file) rows.new.items last) }
    ensures same { S.pages store.new ≡ S.pages store.old }
    ensures reads { (m : Image) (numbers : Items ℕ) → S.pages store.old ≡ Some m → chain bound (pages_of m file) ≡ Some numbers
        → RisesUpTo (length numbers) (S.reads store.old) (S.reads store.new) }
    ensures came { (s : S) → S.came s store.old → S.came s store.new }
    ensures only_read { (s : S) → S.only_read s store.old → S.only_read s store.new }
    ensures cause { HasFileCause (S.pages store.old) (NoChain file bound) (S.faults store.old) (S.faults store.new) result }
{
    let mut page: Page = [0; 1024];
    let mut at = 0;
    'pages: loop {
        match copy_page(alloc, store, file, at, bound, &mut page, rows) {
            Ok(0) => return Ok(at),
            Ok(next) => at = next,
            Err(fault) => return Err(fault),
        }
    }
}

/// The rows of a chain, and its last page.
#[derive(Drop)]
pub struct ChainRows {
    /// The rows, in the order of their places.
    pub rows: List<List<u8>>,
    /// The number of the last page.
    pub last: u32,
}

/// All rows of the chain from page 0 on, each page read once.
pub fn chain_rows<S: PageStore>(
    alloc: Global,
    store: &mut S,
    file: u32,
    bound: u64,
) -> Result<ChainRows, BaseFault>
    requires some { 1 ≤ bound }
    requires most { bound ≤ 2 ^ 32 }
    ensures found { (m : Image) → S.pages store.old ≡ Some m → IfOk result (λ found. Found bound (pages_of m file) found.rows found.last) }
    ensures same { S.pages store.new ≡ S.pages store.old }
    ensures reads { (m : Image) (numbers : Items ℕ) → S.pages store.old ≡ Some m → chain bound (pages_of m file) ≡ Some numbers
        → RisesUpTo (length numbers) (S.reads store.old) (S.reads store.new) }
    ensures came { (s : S) → S.came s store.old → S.came s store.new }
    ensures only_read { (s : S) → S.only_read s store.old → S.only_read s store.new }
    ensures cause { HasFileCause (S.pages store.old) (NoChain file bound) (S.faults store.old) (S.faults store.new) result }
{
    let mut rows = Vec::new(alloc);
    match walk(alloc, store, file, bound, &mut rows) {
        Ok(last) => Ok(ChainRows {
            rows: List::of(rows),
            last,
        }),
        Err(fault) => Err(fault),
    }
}
