//! Rows of a chain go, and others come, in one pass.

ghost use Rattle.std.specs.Prelude.{◌≡◌, ◌+◌, ◌-◌, ◌^◌, ◌<◌, ◌≤◌, ◌==◌, if◌then◌else◌, ℕ, List, [], ◌∷◌, ◌++◌, Some, true, All, IfOk, OnOk, length, take};
ghost use Rattle.disk_model.specs.Disk.{Image, RisesUpTo};
ghost use Rattle.am_traits.specs.Causes.{HasFileCause};
ghost use Rattle.am_traits.specs.Pages.{KeepsOthers};
ghost use Rattle.page_chain.specs.Chains.{IsChain, NoChain, NoChainTo, OffPage, starts};
ghost use Rattle.page_chain.specs.Grown.{IsGrown};
ghost use Rattle.page_chain.specs.Lying.{IsShort, all_differ, bytes_of, lying};
ghost use Rattle.page_chain.specs.Pages.{pages_of};
ghost use Rattle.page_chain.specs.Passing.{Passed};
ghost use Rattle.page_chain.specs.Renewed.{AllLie, IsRenewed, TookOne};

use crate::going::GoingRows;
use crate::growing::extend;
use crate::passing::{Progress, pass};
use crate::taking::take_at;
use am_traits::PageStore;
use base_trait::BaseFault;
use calculus::Place;
use memory::List;
use std::alloc::Global;

/// A chain from page 0 on.
#[derive(Clone, Copy)]
pub struct Chain {
    /// The number of its file.
    pub file: u32,
    /// The numbers of its pages are below this.
    pub bound: u64,
    /// The number of its last page.
    pub last: u32,
}

/// What a replacement did.
#[derive(Clone, Copy)]
pub struct Replacement {
    /// How many rows went.
    pub gone: u32,
    /// The number of the last page of the chain.
    pub last: u32,
}

/// Takes rows away from a chain, and puts others where one went; without rows that are to go no page
/// is read.
fn pass_over<S: PageStore>(
    alloc: Global,
    store: &mut S,
    chain: Chain,
    going: &[List<u8>],
    coming: &[List<u8>],
) -> Result<Progress, BaseFault>
    requires file { 5 ≤ chain.file }
    requires some { 1 ≤ chain.bound }
    requires most { chain.bound ≤ 2 ^ 32 }
    requires short { All (λ row. IsShort row) coming.now }
    ensures passed { (m : Image) → S.pages store.old ≡ Some m → IfOk result (λ done.
        Passed chain.file chain.bound going.now (take done.put coming.now) done.gone m (S.pages store.new)) }
    ensures put { IfOk result (λ done. done.put ≤ length coming.now) }
    ensures reads { (m : Image) (numbers : List ℕ) → S.pages store.old ≡ Some m → starts numbers ≡ true
        → IsChain chain.bound (pages_of m chain.file) numbers → RisesUpTo (length numbers) (S.reads store.old) (S.reads store.new) }
    ensures ends { (m : Image) (first rest : List ℕ) → S.pages store.old ≡ Some m → starts (first ++ rest) ≡ true
        → IsChain chain.bound (pages_of m chain.file) (first ++ rest) → AllLie (pages_of m chain.file) first going.now
        → RisesUpTo (length first) (S.reads store.old) (S.reads store.new) }
    ensures came { (s : S) → S.came s store.old → S.came s store.new }
    ensures cause { HasFileCause (S.pages store.old) (NoChainTo chain.file chain.bound chain.last) (S.faults store.old) (S.faults store.new) result }
{
    if going.is_empty() {
        return Ok(Progress { gone: 0, put: 0 });
    }
    let rows = GoingRows::of(alloc, going)?;
    pass(store, chain, &rows, coming)
}

/// Puts rows behind those of a chain, and answers the number of its last page. Without rows no page is
/// read.
fn put_rest<S: PageStore>(store: &mut S, chain: Chain, rows: &[List<u8>]) -> Result<u32, BaseFault>
    requires file { 5 ≤ chain.file }
    requires short { All (λ row. IsShort row) rows.now }
    requires room { chain.last + length rows.now < 2 ^ 32 }
    ensures behind { IfOk result (λ now. (chain.last ≤ now) × (now ≤ chain.last + length rows.now)) }
    ensures grown { (m : Image) → S.pages store.old ≡ Some m → IfOk result (λ now. (earlier : List ℕ) → chain.last < chain.bound
        → IsChain chain.bound (pages_of m chain.file) (earlier ++ chain.last ∷ []) → IsGrown chain.file chain.bound earlier chain.last now rows.now m (S.pages store.new)) }
    ensures others { OnOk result (KeepsOthers chain.file (S.pages store.old) (S.pages store.new)) }
    ensures reads { RisesUpTo 1 (S.reads store.old) (S.reads store.new) }
    ensures none { length rows.now ≡ 0 → S.reads store.new ≡ S.reads store.old }
    ensures came { (s : S) → S.came s store.old → S.came s store.new }
    ensures cause { HasFileCause (S.pages store.old) (OffPage chain.file chain.last (chain.last + 1)) (S.faults store.old) (S.faults store.new) result }
{
    if rows.is_empty() {
        return Ok(chain.last);
    }
    extend(store, chain.file, chain.last, rows)
}

/// Takes rows away from the chain of a file, and puts others, in one pass from page 0 on that ends where
/// all that are to go were found. Where a row goes others come as far as its page has room; what is
/// left of them comes behind the last page. Without rows that are to go no page is read but the last.
/// Where more rows went than a u32 counts it answers want of memory.
pub fn replace<S: PageStore>(
    alloc: Global,
    store: &mut S,
    chain: Chain,
    going: &[List<u8>],
    coming: &[List<u8>],
) -> Result<Replacement, BaseFault>
    requires file { 5 ≤ chain.file }
    requires most { chain.bound ≤ 2 ^ 32 }
    requires last { chain.last < chain.bound }
    requires short { All (λ row. IsShort row) coming.now }
    requires room { chain.last + length coming.now < 2 ^ 32 }
    ensures behind { IfOk result (λ done. (chain.last ≤ done.last) × (done.last ≤ chain.last + length coming.now)) }
    ensures renewed { (m : Image) → S.pages store.old ≡ Some m → IfOk result (λ done. (earlier : List ℕ) → starts (earlier ++ chain.last ∷ []) ≡ true
        → IsChain chain.bound (pages_of m chain.file) (earlier ++ chain.last ∷ []) → AllLie (pages_of m chain.file) (earlier ++ chain.last ∷ []) going.now
        → (done.gone ≡ length going.now) × IsRenewed chain.file chain.bound earlier chain.last done.last going.now coming.now m (S.pages store.new)) }
    // So many went only where all that were to go were there.
    ensures all { (m : Image) → S.pages store.old ≡ Some m → IfOk result (λ done. (earlier : List ℕ) → starts (earlier ++ chain.last ∷ []) ≡ true
        → IsChain chain.bound (pages_of m chain.file) (earlier ++ chain.last ∷ []) → done.gone ≡ length going.now
        → all_differ (bytes_of (lying (pages_of m chain.file) (earlier ++ chain.last ∷ []))) ≡ true → all_differ going.now ≡ true
        → AllLie (pages_of m chain.file) (earlier ++ chain.last ∷ []) going.now) }
    ensures others { OnOk result (KeepsOthers chain.file (S.pages store.old) (S.pages store.new)) }
    // At most each page of the chain is read, and the last one once more; where nothing comes, none behind
    // those on which all rows lie that are to go, and else none of these but the last.
    ensures reads { (m : Image) (numbers : List ℕ) → S.pages store.old ≡ Some m → starts numbers ≡ true
        → IsChain chain.bound (pages_of m chain.file) numbers → RisesUpTo (length numbers + 1) (S.reads store.old) (S.reads store.new) }
    ensures ends { (m : Image) (first rest : List ℕ) → S.pages store.old ≡ Some m → starts (first ++ rest) ≡ true
        → IsChain chain.bound (pages_of m chain.file) (first ++ rest) → AllLie (pages_of m chain.file) first going.now
        → RisesUpTo (length first + (if length coming.now == 0 then 0 else 1)) (S.reads store.old) (S.reads store.new) }
    ensures came { (s : S) → S.came s store.old → S.came s store.new }
    ensures cause { HasFileCause (S.pages store.old) (NoChainTo chain.file chain.bound chain.last) (S.faults store.old) (S.faults store.new) result }
{
    let done = pass_over(alloc, store, chain, going, coming)?;
    let last = put_rest(store, chain, coming.split_at(done.put).1)?;
    match u32::try_from(done.gone) {
        Ok(gone) => Ok(Replacement { gone, last }),
        Err(_) => Err(BaseFault::OutOfMemory),
    }
}

/// Takes the first row of the chain of a file that has these bytes away, and answers the place that it
/// had; `None` where there is none.
pub fn take_one<S: PageStore>(
    store: &mut S,
    file: u32,
    bound: u64,
    row: &[u8],
) -> Result<Option<Place>, BaseFault>
    requires file { 5 ≤ file }
    requires some { 1 ≤ bound }
    requires most { bound ≤ 2 ^ 32 }
    ensures took { (m : Image) → S.pages store.old ≡ Some m → IfOk result (λ place. (numbers : List ℕ)
        → IsChain bound (pages_of m file) (0 ∷ numbers) → TookOne file bound (0 ∷ numbers) row.now place m (S.pages store.new)) }
    ensures others { OnOk result (KeepsOthers file (S.pages store.old) (S.pages store.new)) }
    ensures came { (s : S) → S.came s store.old → S.came s store.new }
    ensures cause { HasFileCause (S.pages store.old) (NoChain file bound) (S.faults store.old) (S.faults store.new) result }
{
    let mut number = 0;
    'pages: loop {
        let taken = take_at(store, file, number, bound, row)?;
        if let Some(line) = taken.line {
            return Ok(Some(Place { page: number, line }));
        }
        if taken.next == 0 {
            return Ok(None);
        }
        number = taken.next;
    }
}
