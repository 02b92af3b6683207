//! A chain grows at its end, and a file is made anew.

ghost use Rattle.std.specs.Prelude.{◌≡◌, ◌+◌, ◌-◌, ◌^◌, ◌<◌, ◌≤◌, ℕ, List, [], ◌∷◌, ◌++◌, Some, All, IfOk, OnOk, length};
ghost use Rattle.calculus.specs.declared.probe.Place.{Place as At};
ghost use Rattle.disk_model.specs.Disk.{Image, RisesUpTo};
ghost use Rattle.am_traits.specs.Causes.{HasFileCause, HasStoreCause};
ghost use Rattle.am_traits.specs.Pages.{KeepsOthers, with_page};
ghost use Rattle.page_cells.specs.Page.{IsPage, next_page};
ghost use Rattle.page_chain.specs.Chains.{IsChain, OffPage};
ghost use Rattle.page_chain.specs.Filled.{OneLaid};
ghost use Rattle.page_chain.specs.Grown.{IsBuilt, IsGrown, IsNever, IsOneMore};
ghost use Rattle.page_chain.specs.Lying.{IsShort};
ghost use Rattle.page_chain.specs.Pages.{page_at, pages_of};

use crate::chains::chain_page;
use crate::filling::{turn_page, write_rows};
use am_traits::{PageStore, StoreFault};
use base_trait::BaseFault;
use calculus::Place;
use disk_model::{Addr, Page};
use memory::List;
use page_cells::{fresh_page, put_row};

/// Puts rows behind those of a chain whose last page this is: into the room of that page, then on new
/// pages, which have the numbers behind it. Answers the number of the last page.
pub fn extend<S: PageStore>(
    store: &mut S,
    file: u32,
    last: u32,
    rows: &[List<u8>],
) -> Result<u32, BaseFault>
    requires file { 5 ≤ file }
    requires short { All (λ row. IsShort row) rows.now }
    requires room { last + length rows.now < 2 ^ 32 }
    ensures behind { IfOk result (λ now. (last ≤ now) × (now ≤ last + length rows.now)) }
    ensures grown { (m : Image) → S.pages store.old ≡ Some m → IfOk result (λ now. (bound : ℕ) (earlier : List ℕ) → last < bound
        → IsChain bound (pages_of m file) (earlier ++ last ∷ []) → IsGrown file bound earlier last now rows.now m (S.pages store.new)) }
    ensures others { OnOk result (KeepsOthers file (S.pages store.old) (S.pages store.new)) }
    ensures reads { RisesUpTo 1 (S.reads store.old) (S.reads store.new) }
    ensures came { (s : S) → S.came s store.old → S.came s store.new }
    ensures cause { HasFileCause (S.pages store.old) (OffPage file last (last + 1)) (S.faults store.old) (S.faults store.new) result }
{
    let mut page: Page = [0; 1024];
    chain_page(store, file, last, last as u64 + 1, &mut page)?;
    let now = write_rows(store, file, last, &mut page, rows)?;
    Ok(now)
}

/// Puts a row on a fresh page behind this one, which is full and in hand, and answers its place.
fn put_behind<S: PageStore>(
    store: &mut S,
    file: u32,
    last: u32,
    page: &mut Page,
    row: &[u8],
) -> Result<Place, StoreFault>
    requires file { 5 ≤ file }
    requires page { IsPage page.old }
    requires ends { next_page page.old ≡ 0 }
    requires short { IsShort row.now }
    requires room { last + 1 < 2 ^ 32 }
    ensures behind { IfOk result (λ place. (last ≤ place.page) × (place.page ≤ last + 1)) }
    ensures laid { (m : Image) → S.pages store.old ≡ Some m → IfOk result (λ place.
        OneLaid file last place row.now (with_page (page_at file last) page.old m) (S.pages store.new)) }
    ensures reads { S.reads store.new ≡ S.reads store.old }
    ensures came { (s : S) → S.came s store.old → S.came s store.new }
    ensures cause { HasStoreCause (S.faults store.old) (S.faults store.new) result }
{
    turn_page(store, file, last, page)?;
    put_row(page, row);
    let next = last + 1;
    store.put(Addr { file, page: next }, page)?;
    Ok(Place {
        page: next,
        line: 0,
    })
}

/// Puts a row on the page in hand, where it has room, and else on a fresh one behind it. Answers the
/// row's place.
fn put_at<S: PageStore>(
    store: &mut S,
    file: u32,
    last: u32,
    page: &mut Page,
    row: &[u8],
) -> Result<Place, StoreFault>
    requires file { 5 ≤ file }
    requires page { IsPage page.old }
    requires ends { next_page page.old ≡ 0 }
    requires short { IsShort row.now }
    requires room { last + 1 < 2 ^ 32 }
    ensures behind { IfOk result (λ place. (last ≤ place.page) × (place.page ≤ last + 1)) }
    ensures laid { (m : Image) → S.pages store.old ≡ Some m → IfOk result (λ place.
        OneLaid file last place row.now (with_page (page_at file last) page.old m) (S.pages store.new)) }
    ensures reads { S.reads store.new ≡ S.reads store.old }
    ensures came { (s : S) → S.came s store.old → S.came s store.new }
    ensures cause { HasStoreCause (S.faults store.old) (S.faults store.new) result }
{
    match put_row(page, row) {
        Some(line) => {
            store.put(Addr { file, page: last }, page)?;
            Ok(Place { page: last, line })
        }
        None => put_behind(store, file, last, page, row),
    }
}

/// Puts a row behind those of a chain whose last page this is, and answers its place.
pub fn put_one<S: PageStore>(
    store: &mut S,
    file: u32,
    last: u32,
    row: &[u8],
) -> Result<Place, BaseFault>
    requires file { 5 ≤ file }
    requires short { IsShort row.now }
    requires room { last + 1 < 2 ^ 32 }
    ensures behind { IfOk result (λ place. (last ≤ place.page) × (place.page ≤ last + 1)) }
    ensures grown { (m : Image) → S.pages store.old ≡ Some m → IfOk result (λ place. (bound : ℕ) (earlier : List ℕ) → last < bound
        → IsChain bound (pages_of m file) (earlier ++ last ∷ []) → IsGrown file bound earlier last place.page (row.now ∷ []) m (S.pages store.new)) }
    ensures place { (m : Image) → S.pages store.old ≡ Some m → IfOk result (λ place. (bound : ℕ) (earlier : List ℕ) → last < bound
        → IsChain bound (pages_of m file) (earlier ++ last ∷ []) → IsOneMore file earlier last place row.now m (S.pages store.new)) }
    ensures others { OnOk result (KeepsOthers file (S.pages store.old) (S.pages store.new)) }
    ensures reads { RisesUpTo 1 (S.reads store.old) (S.reads store.new) }
    ensures came { (s : S) → S.came s store.old → S.came s store.new }
    ensures cause { HasFileCause (S.pages store.old) (OffPage file last (last + 1)) (S.faults store.old) (S.faults store.new) result }
{
    let mut page: Page = [0; 1024];
    chain_page(store, file, last, last as u64 + 1, &mut page)?;
    let place = put_at(store, file, last, &mut page, row)?;
    Ok(place)
}

/// Makes a file anew: page 0, and as many behind it as these rows need, each as full as it gets.
/// Answers the number of pages.
pub fn build<S: PageStore>(store: &mut S, file: u32, rows: &[List<u8>]) -> Result<u32, BaseFault>
    requires file { 5 ≤ file }
    requires short { All (λ row. IsShort row) rows.now }
    requires room { 1 + length rows.now < 2 ^ 32 }
    ensures some { IfOk result (λ used. (1 ≤ used) × (used ≤ 1 + length rows.now)) }
    ensures built { (m : Image) → S.pages store.old ≡ Some m → IfOk result (λ used. IsBuilt file used rows.now (S.pages store.new)) }
    ensures others { OnOk result (KeepsOthers file (S.pages store.old) (S.pages store.new)) }
    ensures reads { S.reads store.new ≡ S.reads store.old }
    ensures came { (s : S) → S.came s store.old → S.came s store.new }
    ensures cause { HasFileCause (S.pages store.old) IsNever (S.faults store.old) (S.faults store.new) result }
{
    let mut page: Page = [0; 1024];
    fresh_page(&mut page);
    let last = write_rows(store, file, 0, &mut page, rows)?;
    Ok(last + 1)
}
