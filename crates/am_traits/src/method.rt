//! What a file of rows offers, whatever its structure.

ghost use Rattle.std.specs.Prelude.{◌≡◌, ◌+◌, ◌-◌, ◌^◌, ◌<◌, ◌≤◌, ℕ, Bool, true, false, List, Option, Some, IfOk, OnOk, IsTrue, All, length};
ghost use Rattle.std.specs.List.{list_any};
ghost use Rattle.calculus.specs.Rows.{Row as Values, has};
ghost use Rattle.calculus.specs.declared.probe.Place.{Place as At};
ghost use Rattle.disk_model.specs.Disk.{Image, RisesUpTo};
ghost use Rattle.base_trait.specs.Scans.{Gives, IsOver, first_place};
ghost use Rattle.page_cells.specs.RowBytes.{is_row};
ghost use Rattle.am_traits.specs.Causes.{HasFileCause};
ghost use Rattle.am_traits.specs.Pages.{KeepsOthers};
ghost use Rattle.am_traits.specs.Placed.{Placed, Added, Removed, Replaced, GivesBefore, NowHolds, SameButUsed, row_with, rows_differ, rows_of, rows_from};
ghost use Rattle.calculus.specs.declared.schema.RelFile.{RelFile as File};

use crate::PageStore;
use base_trait::BaseFault;
use calculus::{Place, Probe, Row};
use std::alloc::Global;

/// A file of rows on the pages of a store.
///
/// What it holds are rows with their places, where the pages are known and are of their form. No call
/// changes a page of another file. After an error of a call that changes pages nothing is known of
/// the store's pages, and the change is given up; after an error of a scan nothing is known of its
/// place.
pub trait AccessMethod {
    ghost use Rattle.disk_model.specs.declared.disk.Addr.{Addr as PageAt};

    /// What is known of the file.
    ghost file: { Self → File };

    /// The rows on the pages, each with its place, where the pages are of their form.
    ghost placed: { Self → Image → Option Placed };

    /// The page at this address isn't of its form.
    ghost at_fault: { Self → Image → PageAt → Type 0 };

    /// How many pages a scan may still read from a place on, where the store gave this page last.
    ghost ahead: { Self → Option PageAt → At → ℕ };

    /// Where the pages are of their form, none is at fault.
    ghost sound: { (a : Self) (m : Image) (rows : Placed) (b : PageAt) → placed a m ≡ Some rows → at_fault a m b → ⊥ };

    /// Only the pages of the file count.
    ghost own: { (a : Self) (m n : Image) → ((b : PageAt) → b.file ≡ (file a).file → m b ≡ n b) → placed a m ≡ placed a n };

    /// A whole scan reads each page once at most.
    ghost whole: { (a : Self) (last : Option PageAt) → ahead a last first_place ≤ (file a).used };

    /// The row with this place; `None` exactly where no row has it.
    fn row_at<S: PageStore>(
        &self,
        alloc: Global,
        store: &mut S,
        place: &Place,
    ) -> Result<Option<Row>, BaseFault>
        ensures known { (m : Image) (rows : Placed) → S.pages store.old ≡ Some m → placed self.now m ≡ Some rows
            → IfOk result (λ row. row ≡ row_with rows place.now) }
        ensures same { S.pages store.new ≡ S.pages store.old }
        ensures came { (s : S) → S.came s store.old → S.came s store.new }
        ensures only_read { (s : S) → S.only_read s store.old → S.only_read s store.new }
        ensures reads { RisesUpTo 1 (S.reads store.old) (S.reads store.new) }
        ensures cause { HasFileCause (S.pages store.old) (at_fault self.now) (S.faults store.old) (S.faults store.new) result };

    /// The next row that meets the probe, from a place on, which then has the page of the row's place
    /// and its line plus one; `None` where no more meets it, and then each further call from there
    /// on says so again. From the first place on, while nothing is changed, the calls give each row
    /// that meets the probe once.
    fn scan<S: PageStore>(
        &self,
        alloc: Global,
        store: &mut S,
        probe: &Probe,
        at: &mut Place,
    ) -> Result<Option<Row>, BaseFault>
        ensures known { (m : Image) (rows : Placed) → S.pages store.old ≡ Some m → placed self.now m ≡ Some rows
            → Gives probe.now (rows_from rows) at.old at.new result }
        ensures over { (m : Image) (rows : Placed) → S.pages store.old ≡ Some m → placed self.now m ≡ Some rows
            → IsOver probe.now (rows_from rows) at.new result }
        ensures place { (m : Image) (rows : Placed) → S.pages store.old ≡ Some m → placed self.now m ≡ Some rows
            → GivesBefore rows at.new result }
        ensures same { S.pages store.new ≡ S.pages store.old }
        ensures came { (s : S) → S.came s store.old → S.came s store.new }
        ensures only_read { (s : S) → S.only_read s store.old → S.only_read s store.new }
        ensures reads { OnOk result (S.reads store.new + ahead self.now (S.last store.new) at.new
            ≤ S.reads store.old + ahead self.now (S.last store.old) at.old) }
        ensures cause { HasFileCause (S.pages store.old) (at_fault self.now) (S.faults store.old) (S.faults store.new) result };

    /// What `scan` gives, where `chains` is `None` with the first place and later, as the place, what
    /// the call before left. A structure that looks a key up keeps there which of its chains are left.
    fn scan_on<S: PageStore>(
        &self,
        alloc: Global,
        store: &mut S,
        probe: &Probe,
        chains: &mut Option<(u32, u32)>,
        at: &mut Place,
    ) -> Result<Option<Row>, BaseFault>
        ensures known { (m : Image) (rows : Placed) → S.pages store.old ≡ Some m → placed self.now m ≡ Some rows
            → Gives probe.now (rows_from rows) at.old at.new result }
        ensures over { (m : Image) (rows : Placed) → S.pages store.old ≡ Some m → placed self.now m ≡ Some rows
            → IsOver probe.now (rows_from rows) at.new result }
        ensures place { (m : Image) (rows : Placed) → S.pages store.old ≡ Some m → placed self.now m ≡ Some rows
            → GivesBefore rows at.new result }
        ensures chains { chains.new ≡ chains.old }
        ensures same { S.pages store.new ≡ S.pages store.old }
        ensures came { (s : S) → S.came s store.old → S.came s store.new }
        ensures only_read { (s : S) → S.only_read s store.old → S.only_read s store.new }
        ensures reads { OnOk result (S.reads store.new + ahead self.now (S.last store.new) at.new
            ≤ S.reads store.old + ahead self.now (S.last store.old) at.old) }
        ensures cause { HasFileCause (S.pages store.old) (at_fault self.now) (S.faults store.old) (S.faults store.new) result };

    /// Puts a row that isn't there, and answers its place.
    fn add<S: PageStore>(
        &mut self,
        alloc: Global,
        store: &mut S,
        row: &Row,
    ) -> Result<Place, BaseFault>
        requires fits { IsTrue (is_row row.now (file self.old).domains) }
        requires room { (file self.old).used < 2 ^ 32 - 1 }
        requires new { (m : Image) (rows : Placed) → S.pages store.old ≡ Some m → placed self.old m ≡ Some rows
            → has (rows_of rows) row.now ≡ false }
        ensures known { (m : Image) (rows : Placed) → S.pages store.old ≡ Some m → placed self.old m ≡ Some rows
            → IfOk result (λ place. NowHolds (placed self.new) (S.pages store.new) (Added rows place row.now)) }
        ensures others { OnOk result (KeepsOthers (file self.old).file (S.pages store.old) (S.pages store.new)) }
        ensures file { OnOk result (SameButUsed (file self.old) (file self.new)) }
        ensures came { (s : S) → S.came s store.old → S.came s store.new }
        ensures cause { HasFileCause (S.pages store.old) (at_fault self.old) (S.faults store.old) (S.faults store.new) result };

    /// Takes a row away, and answers the place that it had; `None` exactly where the row isn't there.
    fn remove<S: PageStore>(
        &mut self,
        alloc: Global,
        store: &mut S,
        row: &Row,
    ) -> Result<Option<Place>, BaseFault>
        ensures known { (m : Image) (rows : Placed) → S.pages store.old ≡ Some m → placed self.old m ≡ Some rows
            → IfOk result (λ place. NowHolds (placed self.new) (S.pages store.new) (Removed rows place row.now)) }
        ensures others { OnOk result (KeepsOthers (file self.old).file (S.pages store.old) (S.pages store.new)) }
        ensures file { OnOk result (SameButUsed (file self.old) (file self.new)) }
        ensures came { (s : S) → S.came s store.old → S.came s store.new }
        ensures cause { HasFileCause (S.pages store.old) (at_fault self.old) (S.faults store.old) (S.faults store.new) result };

    /// Takes rows away and puts others in one pass over the pages; without rows that are to go it reads
    /// no page but those on which the others come to stand. `Ok(false)` where a row that is to go
    /// isn't there: nothing is known of the pages then. Our own: so a change of many rows is one pass,
    /// which ends where all that are to go were found, so no row may stand twice, in the file or among
    /// those that are to go.
    fn replace<S: PageStore>(
        &mut self,
        alloc: Global,
        store: &mut S,
        going: &[Row],
        coming: &[Row],
    ) -> Result<bool, BaseFault>
        requires going { All (λ row. IsTrue (is_row row (file self.old).domains)) going.now }
        requires coming { All (λ row. IsTrue (is_row row (file self.old).domains)) coming.now }
        requires room { (file self.old).used + length coming.now < 2 ^ 32 }
        ensures known { (m : Image) (rows : Placed) → S.pages store.old ≡ Some m → placed self.old m ≡ Some rows
            → rows_differ (rows_of rows) ≡ true → rows_differ going.now ≡ true → All (λ row. IsTrue (has (rows_of rows) row)) going.now
            → IfOk result (λ all. IsTrue all × NowHolds (placed self.new) (S.pages store.new) (Replaced rows going.now coming.now)) }
        ensures others { OnOk result (KeepsOthers (file self.old).file (S.pages store.old) (S.pages store.new)) }
        ensures file { OnOk result (SameButUsed (file self.old) (file self.new)) }
        ensures came { (s : S) → S.came s store.old → S.came s store.new }
        ensures cause { HasFileCause (S.pages store.old) (at_fault self.old) (S.faults store.old) (S.faults store.new) result };
}
