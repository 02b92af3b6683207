//! The catalogues of a disk are read.

ghost use Rattle.std.specs.Prelude.{◌≡◌, ◌+◌, ℕ, List as Items, length, true, None, Some, IfOk};
ghost use Rattle.std.specs.Option.{ForSome};
ghost use Rattle.am_traits.specs.Causes.{HasFileCause};
ghost use Rattle.calculus.specs.Database.{Db};
ghost use Rattle.calculus.specs.Schema.{schema_of};
ghost use Rattle.disk_model.specs.Disk.{Image, RisesUpTo};
ghost use Rattle.page_chain.specs.Chains.{chain, NoChain};
ghost use Rattle.page_chain.specs.Found.{Found};
ghost use Rattle.page_chain.specs.Pages.{Pages, pages_of};
ghost use Rattle.plain_base.specs.Shown.{database_of};
ghost use Rattle.catalog_read.specs.Parts.{index_owners_agree};
ghost use Rattle.stored_database.specs.Denoting.{denoted};
ghost use Rattle.catalog.specs.Knows.{Knows, NoDatabaseAt};
ghost use Rattle.catalog.specs.Lies.{LiesOn};
ghost use Rattle.stored_database.specs.Catalogue.{IsCatalogue, most_pages};
ghost use Rattle.stored_database.specs.Spelled.{spelled};
ghost use Rattle.catalog_read.specs.Read.{catalogue_of, catalogue_shown};
ghost use Rattle.catalog.specs.Reads.{HasChains};
ghost use Rattle.catalog.specs.Loading.{AreFound, HoldsFor, IfKnown, IsMadeOf, IsOfParts, NoCatalogueIn, SpellsNone};

use crate::catalog::Catalog;
use am_traits::PageStore;
use base_trait::BaseFault;
use calculus::{Name, OutOfMemory};
use catalog_moves::{FileTable, KeySet};
use catalog_pages::Ends;
use catalog_read::{CatalogueRows, build_schema, read_catalogue, schema_parts};
use memory::both;
use page_chain::{ChainRows, chain_rows};
use plain_base::DbPlain;
use std::alloc::Global;

/// The page numbers are below this.
const MOST_PAGES: u64 = 4_294_967_296;

/// The rows of the three catalogues as bytes, and the last pages of their chains.
#[derive(Drop)]
pub(crate) struct Chains {
    /// Of file 5.
    pub(crate) entries: ChainRows,
    /// Of file 6.
    pub(crate) columns: ChainRows,
    /// Of file 7.
    pub(crate) parts: ChainRows,
}

/// The rows of the catalogue in a file, each page read once.
fn rows_in<S: PageStore>(alloc: Global, store: &mut S, file: u32) -> Result<ChainRows, BaseFault>
    ensures found { (m : Image) → S.pages store.old ≡ Some m → IfOk result (λ found. Found most_pages (pages_of m file) found.rows found.last) }
    ensures reads { (m : Image) (numbers : Items ℕ) → S.pages store.old ≡ Some m → chain most_pages (pages_of m file) ≡ Some numbers
        → RisesUpTo (length numbers) (S.reads store.old) (S.reads store.new) }
    ensures same { S.pages store.new ≡ S.pages store.old }
    ensures came { (s : S) → S.came s store.old → S.came s store.new }
    ensures only_read { (s : S) → S.only_read s store.old → S.only_read s store.new }
    ensures cause { HasFileCause (S.pages store.old) (NoChain file most_pages) (S.faults store.old) (S.faults store.new) result }
{
    chain_rows(alloc, store, file, MOST_PAGES)
}

/// The rows of attributes and of parts of trees.
fn behind_entries<S: PageStore>(
    alloc: Global,
    store: &mut S,
    entries: ChainRows,
) -> Result<Chains, BaseFault>
    ensures found { (m : Image) → S.pages store.old ≡ Some m → Found most_pages (pages_of m 5) entries.rows entries.last → IfOk result (λ chains. AreFound m chains) }
    ensures reads { (m : Image) (columns parts : Items ℕ) → S.pages store.old ≡ Some m → chain most_pages (pages_of m 6) ≡ Some columns
        → chain most_pages (pages_of m 7) ≡ Some parts → RisesUpTo (length columns + length parts) (S.reads store.old) (S.reads store.new) }
    ensures same { S.pages store.new ≡ S.pages store.old }
    ensures came { (s : S) → S.came s store.old → S.came s store.new }
    ensures only_read { (s : S) → S.only_read s store.old → S.only_read s store.new }
    ensures cause { HasFileCause (S.pages store.old) NoCatalogueIn (S.faults store.old) (S.faults store.new) result }
{
    let columns = rows_in(alloc, store, 6)?;
    let parts = rows_in(alloc, store, 7)?;
    Ok(Chains {
        entries,
        columns,
        parts,
    })
}

/// The rows of the three catalogues, each page read once.
pub(crate) fn read_chains<S: PageStore>(alloc: Global, store: &mut S) -> Result<Chains, BaseFault>
    ensures found { (m : Image) → S.pages store.old ≡ Some m → IfOk result (λ chains. AreFound m chains) }
    ensures reads { (m : Image) (all : ℕ) → S.pages store.old ≡ Some m → HasChains m all → RisesUpTo all (S.reads store.old) (S.reads store.new) }
    ensures same { S.pages store.new ≡ S.pages store.old }
    ensures came { (s : S) → S.came s store.old → S.came s store.new }
    ensures only_read { (s : S) → S.only_read s store.old → S.only_read s store.new }
    ensures cause { HasFileCause (S.pages store.old) NoCatalogueIn (S.faults store.old) (S.faults store.new) result }
{
    let entries = rows_in(alloc, store, 5)?;
    behind_entries(alloc, store, entries)
}

/// The database without rows that a catalogue spells.
fn schema_in(alloc: Global, dba: Name, rows: &CatalogueRows) -> Result<Option<DbPlain>, OutOfMemory>
    requires { IsCatalogue (catalogue_shown rows.now) }
    ensures built { IfOk result (λ found. ForSome found (λ plain. (files : ℕ → Pages) (db : Db) → spelled dba files (catalogue_shown rows.now) ≡ Some db
        → database_of plain ≡ schema_of db)) }
    ensures of_parts { IfOk result (λ found. ForSome found (λ plain. IsOfParts dba (catalogue_shown rows.now) (database_of plain))) }
    ensures refused { IfOk result (λ found. found ≡ None → SpellsNone dba (catalogue_shown rows.now)) }
{
    match schema_parts(alloc, rows)? {
        Some(parts) => build_schema(alloc, dba, parts),
        None => Ok(None),
    }
}

/// What is known in memory of a catalogue whose chains end at these pages.
fn catalog_of(
    alloc: Global,
    dba: Name,
    rows: &CatalogueRows,
    ends: Ends,
) -> Result<Option<Catalog>, OutOfMemory>
    requires { IsCatalogue (catalogue_shown rows.now) }
    ensures made { IfOk result (λ found. ForSome found (λ c. IsMadeOf dba (catalogue_shown rows.now) ends c)) }
    ensures refused { IfOk result (λ found. found ≡ None → SpellsNone dba (catalogue_shown rows.now)) }
{
    let parts = both(
        schema_in(alloc, dba, rows),
        FileTable::of_entries(alloc, rows.entries.items()),
    );
    let (plain, files) = parts?;
    let Some(plain) = plain else {
        return Ok(None);
    };
    match files {
        Some(files) => Ok(Some(Catalog {
            plain,
            loaded: KeySet::new(alloc),
            files,
            ends,
        })),
        None => Ok(None),
    }
}

/// What is known in memory of the rows of the three catalogues.
pub(crate) fn made(
    alloc: Global,
    dba: Name,
    chains: &Chains,
) -> Result<Option<Catalog>, OutOfMemory>
    ensures known { (m : Image) (db : Db) → AreFound m chains.now → HoldsFor dba m db → IfOk result (λ found. IfKnown m db found) }
    ensures lies { (m : Image) → AreFound m chains.now → IfOk result (λ found. ForSome found (λ c. LiesOn c m)) }
    ensures dba { IfOk result (λ found. ForSome found (λ c. (database_of c.plain).dba ≡ dba)) }
{
    let rows = read_catalogue(
        alloc,
        chains.entries.rows.items(),
        chains.columns.rows.items(),
        chains.parts.rows.items(),
    )?;
    let ends = Ends {
        entries: chains.entries.last,
        columns: chains.columns.last,
        parts: chains.parts.last,
    };
    match rows {
        Some(rows) => catalog_of(alloc, dba, &rows, ends),
        None => Ok(None),
    }
}

impl Catalog {
    /// Reads the catalogues, each page once.
    pub fn load<S: PageStore>(alloc: Global, store: &mut S, dba: Name) -> Result<Catalog, BaseFault>
        ensures knows { (m : Image) (db : Db) → S.pages store.old ≡ Some m → denoted m ≡ Some db → db.dba ≡ dba
            → index_owners_agree db ≡ true → IfOk result (λ c. Knows c m db) }
        ensures lies { (m : Image) → S.pages store.old ≡ Some m → IfOk result (λ c. LiesOn c m) }
        ensures dba { IfOk result (λ c. (database_of c.plain).dba ≡ dba) }
        ensures reads { (m : Image) (all : ℕ) → S.pages store.old ≡ Some m → HasChains m all → RisesUpTo all (S.reads store.old) (S.reads store.new) }
        ensures same { S.pages store.new ≡ S.pages store.old }
        ensures came { (s : S) → S.came s store.old → S.came s store.new }
        ensures only_read { (s : S) → S.only_read s store.old → S.only_read s store.new }
        ensures cause { HasFileCause (S.pages store.old) (NoDatabaseAt dba) (S.faults store.old) (S.faults store.new) result }
    {
        let chains = read_chains(alloc, store)?;
        match made(alloc, dba, &chains)? {
            Some(catalog) => Ok(catalog),
            None => Err(BaseFault::Damaged { file: 5, page: 0 }),
        }
    }
}
