//! Rows of the three catalogues go and come on their pages.

ghost use Rattle.std.specs.Prelude.{◌≡◌, ◌+◌, ◌<◌, ◌≤◌, ◌^◌, All, Some, IfOk, true};
ghost use Rattle.disk_model.specs.Disk.{Image};
ghost use Rattle.am_traits.specs.Causes.{HasFileCause};
ghost use Rattle.page_chain.specs.Chains.{NoChainTo};
ghost use Rattle.page_chain.specs.Lying.{IsShort};
ghost use Rattle.page_chain.specs.Pages.{pages_of};
ghost use Rattle.stored_database.specs.Catalogue.{Catalogue, IsCatalogue, catalogue_in, most_pages};
ghost use Rattle.stored_database.specs.After.{AreChanges, changed};
ghost use Rattle.catalog_moves.specs.Moves.{AreMoves, AreShort};
ghost use Rattle.catalog_pages.specs.Ends.{AreEnds, NoCatalogue, Written};
ghost use Rattle.catalog_pages.specs.Rewritten.{IsRewritten};

use am_traits::PageStore;
use base_trait::BaseFault;
use catalog_moves::{FileMoves, Moves};
use page_chain::{Chain, replace};
use std::alloc::Global;

/// The last page of each of the three chains.
#[derive(Clone, Copy)]
pub struct Ends {
    /// Of file 5.
    pub entries: u32,
    /// Of file 6.
    pub columns: u32,
    /// Of file 7.
    pub parts: u32,
}

/// So many pages at most can a chain have.
const MOST_PAGES: u64 = 1 << 32;

/// Whether a chain that ends at this page has room for so many pages more.
fn has_room(last: u32, more: usize) -> bool
    ensures { result ≡ true → last + more < 2 ^ 32 }
{
    match u32::try_from(more) {
        Ok(more) => more <= u32::MAX - last,
        Err(_) => false,
    }
}

/// Takes rows of one file away and puts others, and answers the last page of its chain. Without rows
/// no page is read.
fn write_file<S: PageStore>(
    alloc: Global,
    store: &mut S,
    file: u32,
    last: u32,
    moves: &FileMoves,
) -> Result<u32, BaseFault>
    requires file { 5 ≤ file }
    requires short { All (λ row. IsShort row) moves.now.coming }
    ensures behind { IfOk result (λ now. last ≤ now) }
    ensures rewritten { (m : Image) → S.pages store.old ≡ Some m → IfOk result (λ now.
        IsRewritten file last now moves.now.going moves.now.coming m (S.pages store.new)) }
    ensures came { (s : S) → S.came s store.old → S.came s store.new }
    ensures cause { HasFileCause (S.pages store.old) (NoChainTo file most_pages last) (S.faults store.old) (S.faults store.new) result }
{
    let going = moves.going.items();
    let coming = moves.coming.items();
    if going.is_empty() && coming.is_empty() {
        return Ok(last);
    }
    if !has_room(last, coming.len()) {
        return Err(BaseFault::OutOfMemory);
    }
    let chain = Chain {
        file,
        bound: MOST_PAGES,
        last,
    };
    let done = replace(alloc, store, chain, going, coming)?;
    Ok(done.last)
}

/// Takes rows of the three catalogues away and puts others, each file in one pass that ends where all
/// that are to go were found; a file of which no row goes is read at its last page alone. Answers the
/// last pages afterwards. Where a chain could grow past 2^32 pages it answers want of memory.
pub fn write_moves<S: PageStore>(
    alloc: Global,
    store: &mut S,
    ends: Ends,
    moves: &Moves,
) -> Result<Ends, BaseFault>
    requires { AreShort moves.now }
    ensures written { (m : Image) (cat going coming : Catalogue) → S.pages store.old ≡ Some m → AreEnds m ends
        → catalogue_in (pages_of m) ≡ Some cat → AreChanges going coming cat → IsCatalogue (changed going coming cat)
        → AreMoves going coming moves.now → IfOk result (λ now. Written m (S.pages store.new) now (changed going coming cat)) }
    ensures came { (s : S) → S.came s store.old → S.came s store.new }
    ensures cause { HasFileCause (S.pages store.old) (NoCatalogue ends) (S.faults store.old) (S.faults store.new) result }
{
    let entries = write_file(alloc, store, 5, ends.entries, &moves.entries)?;
    let columns = write_file(alloc, store, 6, ends.columns, &moves.columns)?;
    let parts = write_file(alloc, store, 7, ends.parts, &moves.parts)?;
    Ok(Ends {
        entries,
        columns,
        parts,
    })
}
