//! A pass over the pages of a chain in which rows go and others come.

ghost use Rattle.std.specs.Prelude.{◌≡◌, ◌+◌, ◌<◌, ◌≤◌, ◌^◌, ℕ, List as Items, ◌++◌, Some, true, All, IfOk, OnOk, length, take};
ghost use Rattle.disk_model.specs.Disk.{Image, RisesUpTo};
ghost use Rattle.am_traits.specs.Causes.{HasFileCause};
ghost use Rattle.page_cells.specs.Page.{IsPage, next_page};
ghost use Rattle.page_chain.specs.Chains.{IsChain, NoChainTo, starts};
ghost use Rattle.page_chain.specs.Lying.{IsShort};
ghost use Rattle.page_chain.specs.Pages.{page_at, pages_of, next_of};
ghost use Rattle.page_chain.specs.Passing.{OffChain, PageRenewed, Passed};
ghost use Rattle.page_chain.specs.Renewed.{AllLie};

use crate::chains::chain_page;
use crate::going::GoingRows;
use crate::renewing::renew_page;
use crate::replacing::Chain;
use am_traits::PageStore;
use base_trait::BaseFault;
use disk_model::{Addr, Page};
use memory::List;

/// Gives a page of a chain, and answers the number of the page that follows, 0 where it is the last one.
fn page_on<S: PageStore>(
    store: &mut S,
    chain: Chain,
    number: u32,
    out: &mut Page,
) -> Result<u32, BaseFault>
    ensures there { (m : Image) → S.pages store.old ≡ Some m → OnOk result (m (page_at chain.file number) ≡ Some out.new) }
    ensures follows { IfOk result (λ next. next_of chain.bound number (Some out.new) ≡ Some next) }
    ensures page { OnOk result (IsPage out.new) }
    ensures next { IfOk result (λ next. next ≡ next_page out.new) }
    ensures same { S.pages store.new ≡ S.pages store.old }
    ensures reads { RisesUpTo 1 (S.reads store.old) (S.reads store.new) }
    ensures came { (s : S) → S.came s store.old → S.came s store.new }
    ensures cause { HasFileCause (S.pages store.old) (OffChain chain.file number chain.bound chain.last) (S.faults store.old) (S.faults store.new) result }
{
    let next = chain_page(store, chain.file, number, chain.bound, out)?;
    if (next == 0) != (number == chain.last) {
        return Err(BaseFault::Damaged {
            file: chain.file,
            page: number,
        });
    }
    Ok(next)
}

/// What was done on a page of a chain.
#[derive(Clone, Copy)]
struct Step {
    /// The number of the page that follows, 0 where none does.
    next: u32,
    /// How many rows went.
    gone: u16,
    /// How many came.
    put: usize,
}

/// Takes the rows that are to go away from a page of a chain, and where one went puts others. A page
/// that changed is put in its place.
fn renew_at<S: PageStore>(
    store: &mut S,
    chain: Chain,
    number: u32,
    going: &GoingRows<'_>,
    coming: &[List<u8>],
) -> Result<Step, BaseFault>
    requires file { 5 ≤ chain.file }
    requires short { All (λ row. IsShort row) coming.now }
    ensures renewed { (m : Image) → S.pages store.old ≡ Some m → IfOk result (λ step.
        PageRenewed chain.file chain.bound number going.now (take step.put coming.now) step.gone step.next m (S.pages store.new)) }
    ensures next { IfOk result (λ step. 0 < step.next → (number < step.next) × (step.next < chain.bound)) }
    ensures most { IfOk result (λ step. step.gone ≤ 254) }
    ensures put { IfOk result (λ step. step.put ≤ length coming.now) }
    ensures reads { RisesUpTo 1 (S.reads store.old) (S.reads store.new) }
    ensures came { (s : S) → S.came s store.old → S.came s store.new }
    ensures cause { HasFileCause (S.pages store.old) (OffChain chain.file number chain.bound chain.last) (S.faults store.old) (S.faults store.new) result }
{
    let mut page: Page = [0; 1024];
    let next = page_on(store, chain, number, &mut page)?;
    let done = renew_page(&mut page, going, coming);
    if done.gone > 0 {
        let at = Addr {
            file: chain.file,
            page: number,
        };
        store.put(at, &page)?;
    }
    Ok(Step {
        next,
        gone: done.gone,
        put: done.put,
    })
}

/// What was done on the pages of a chain.
#[derive(Clone, Copy)]
pub struct Progress {
    /// How many rows went.
    pub gone: usize,
    /// How many came.
    pub put: usize,
}

/// Takes the rows that are to go away from a chain, page by page from page 0 on until as many went as
/// are to go, and puts others where one went.
pub fn pass<S: PageStore>(
    store: &mut S,
    chain: Chain,
    going: &GoingRows<'_>,
    coming: &[List<u8>],
) -> Result<Progress, BaseFault>
    requires file { 5 ≤ chain.file }
    requires some { 1 ≤ chain.bound }
    requires most { chain.bound ≤ 2 ^ 32 }
    requires short { All (λ row. IsShort row) coming.now }
    ensures passed { (m : Image) → S.pages store.old ≡ Some m → IfOk result (λ done.
        Passed chain.file chain.bound going.now (take done.put coming.now) done.gone m (S.pages store.new)) }
    ensures put { IfOk result (λ done. done.put ≤ length coming.now) }
    // At most each page of the chain is read, and none behind those on which all rows lie that are to go.
    ensures reads { (m : Image) (numbers : Items ℕ) → S.pages store.old ≡ Some m → starts numbers ≡ true
        → IsChain chain.bound (pages_of m chain.file) numbers → RisesUpTo (length numbers) (S.reads store.old) (S.reads store.new) }
    ensures ends { (m : Image) (first rest : Items ℕ) → S.pages store.old ≡ Some m → 0 < length going.now → starts (first ++ rest) ≡ true
        → IsChain chain.bound (pages_of m chain.file) (first ++ rest) → AllLie (pages_of m chain.file) first going.now
        → RisesUpTo (length first) (S.reads store.old) (S.reads store.new) }
    ensures came { (s : S) → S.came s store.old → S.came s store.new }
    ensures cause { HasFileCause (S.pages store.old) (NoChainTo chain.file chain.bound chain.last) (S.faults store.old) (S.faults store.new) result }
{
    let wanted = going.len();
    let mut number = 0;
    let mut gone: usize = 0;
    let mut put = 0;
    'pages: loop {
        let step = renew_at(store, chain, number, going, coming.split_at(put).1)?;
        gone += step.gone as usize;
        put += step.put;
        if step.next == 0 || gone >= wanted {
            return Ok(Progress { gone, put });
        }
        number = step.next;
    }
}
