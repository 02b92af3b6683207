//! The catalogue of a disk is read.

ghost use Rattle.std.specs.Prelude.{◌≡◌, ◌+◌, ℕ, Some, Err, IfOk, true, false};
ghost use Rattle.calculus.specs.Database.{Db};
ghost use Rattle.disk_model.specs.Disk.{Image, RisesUpTo};
ghost use Rattle.am_traits.specs.Causes.{HasFileCause, of_store};
ghost use Rattle.base_trait.specs.declared.fault.BaseFault.TheVariants.{Damaged as DamagedBase};
ghost use Rattle.catalog.specs.Damage.{ShowsNone};
ghost use Rattle.catalog.specs.Knows.{Knows};
ghost use Rattle.catalog.specs.Lies.{LiesOn};
ghost use Rattle.catalog.specs.Reads.{HasChains};
ghost use Rattle.plain_base.specs.Shown.{database_of};
ghost use Rattle.catalog_read.specs.Parts.{index_owners_agree};
ghost use Rattle.stored_database.specs.Denoting.{denoted};
ghost use Rattle.db_disk.specs.Held.{has_head, headless_page};
ghost use Rattle.db_disk.specs.Known.{LiesFor};
ghost use Rattle.db_disk.specs.Load.{as_base, base_fault, IsNoHead, NoneDenoted};
ghost use Rattle.db_disk.specs.declared.load.LoadFault.TheVariants.{NoHead as WithoutHead, Base as OfBase};

use crate::head::{Head, read_head};
use am_traits::{PageStore, StoreFault};
use base_trait::BaseFault;
use calculus::Name;
use catalog::Catalog;
use std::alloc::Global;

/// Why a catalogue wasn't read.
#[derive(Clone, Copy, PartialEq, Eq)]
pub(crate) enum LoadFault {
    /// There is no header, or no database was born: this page of file 0 shows it.
    NoHead(u32),
    /// A call below failed, or the catalogue is damaged.
    Base(BaseFault),
}

impl From<StoreFault> for LoadFault {
    ghost from_gives = { λ error fault. fault ≡ OfBase (of_store error) };

    fn from(error: StoreFault) -> LoadFault {
        LoadFault::Base(BaseFault::from(error))
    }
}

/// The fault of a base.
pub(crate) fn base_fault(fault: LoadFault) -> BaseFault
    ensures { result ≡ base_fault fault }
{
    match fault {
        LoadFault::NoHead(page) => BaseFault::Damaged { file: 0, page },
        LoadFault::Base(fault) => fault,
    }
}

/// Reads the catalogue of this administrator's database.
fn load_for<S: PageStore>(alloc: Global, store: &mut S, dba: Name) -> Result<Catalog, LoadFault>
    ensures knows { (m : Image) (db : Db) → S.pages store.old ≡ Some m → denoted m ≡ Some db → db.dba ≡ dba
        → index_owners_agree db ≡ true → IfOk result (λ c. Knows c m db) }
    ensures lies { (m : Image) → S.pages store.old ≡ Some m → IfOk result (λ c. LiesOn c m) }
    ensures dba { IfOk result (λ c. (database_of c.plain).dba ≡ dba) }
    ensures headed { (page : ℕ) → result ≡ Err (WithoutHead page) → ⊥ }
    ensures at_catalog { (m : Image) (file page : ℕ) → S.pages store.old ≡ Some m → as_base result ≡ Err (DamagedBase file page) → ShowsNone m (record { file = file; page = page }) }
    ensures reads { (m : Image) (all : ℕ) → S.pages store.old ≡ Some m → HasChains m all → RisesUpTo all (S.reads store.old) (S.reads store.new) }
    ensures same { S.pages store.new ≡ S.pages store.old }
    ensures came { (s : S) → S.came s store.old → S.came s store.new }
    ensures only_read { (s : S) → S.only_read s store.old → S.only_read s store.new }
    ensures cause { HasFileCause (S.pages store.old) (λ m a. (db : Db) → denoted m ≡ Some db → db.dba ≡ dba → index_owners_agree db ≡ true → ⊥)
        (S.faults store.old) (S.faults store.new) (as_base result) }
{
    match Catalog::load(alloc, store, dba) {
        Ok(catalog) => Ok(catalog),
        Err(fault) => Err(LoadFault::Base(fault)),
    }
}

/// Reads the catalogue of the database that the pages denote.
pub(crate) fn load<S: PageStore>(alloc: Global, store: &mut S) -> Result<Catalog, LoadFault>
    ensures knows { (m : Image) (db : Db) → S.pages store.old ≡ Some m → denoted m ≡ Some db
        → index_owners_agree db ≡ true → IfOk result (λ c. Knows c m db) }
    ensures lies { (m : Image) → S.pages store.old ≡ Some m → IfOk result (λ c. LiesFor c m) }
    ensures no_head { (m : Image) (page : ℕ) → S.pages store.old ≡ Some m → result ≡ Err (WithoutHead page) → has_head m ≡ false }
    // The page that it names is the one that shows it.
    ensures at_head { (m : Image) (page : ℕ) → S.pages store.old ≡ Some m → result ≡ Err (WithoutHead page) → page ≡ headless_page m }
    ensures headless { (m : Image) → S.pages store.old ≡ Some m → has_head m ≡ false → IsNoHead result }
    ensures at_catalog { (m : Image) (file page : ℕ) → S.pages store.old ≡ Some m → has_head m ≡ true → as_base result ≡ Err (DamagedBase file page)
        → ShowsNone m (record { file = file; page = page }) }
    ensures reads { (m : Image) (all : ℕ) → S.pages store.old ≡ Some m → HasChains m all → RisesUpTo (all + 2) (S.reads store.old) (S.reads store.new) }
    ensures same { S.pages store.new ≡ S.pages store.old }
    ensures came { (s : S) → S.came s store.old → S.came s store.new }
    ensures only_read { (s : S) → S.only_read s store.old → S.only_read s store.new }
    ensures cause { HasFileCause (S.pages store.old) NoneDenoted (S.faults store.old) (S.faults store.new) (as_base result) }
{
    match read_head(alloc, store)? {
        Head::Of(dba) => load_for(alloc, store, dba),
        Head::NoHeader => Err(LoadFault::NoHead(0)),
        Head::Unborn => Err(LoadFault::NoHead(1)),
    }
}
