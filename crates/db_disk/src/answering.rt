//! A database on a disk answers as any base does.

ghost use Rattle.std.specs.Prelude.{refl, true};
ghost use Rattle.std.proofs.Common.{ap};
ghost use Rattle.base_trait.proofs.Crashes.{asked_itself};
ghost use Rattle.db_disk.specs.Laws.{lawful_known, left_counts, own_known, scanned_known, unread_at_most};
ghost use Rattle.db_disk.specs.Reads.{pages_known, pages_unread, rows_in_memory, OpensWith};
ghost use Rattle.db_disk.specs.Shown.{clock_in, db_of, disk_in, is_restored, known_in, left_in, left_of, rows_left, schema_in, AskedOf};

use crate::DbDisk;
use base_trait::{Base, BaseFault};
use calculus::{DbChange, Name, Permit, Place, Probe, Query, RelInfo, RelKey, Row, Rule};
use disk_model::Disk;
use std::alloc::Global;

impl<D: Disk> Base for DbDisk<D> {
    ghost database = { db_of };

    ghost schema = { known_in };

    ghost fixes = { true };

    ghost faults = { λ d. D.faults (disk_in d) };

    ghost clock = { clock_in };

    ghost reads = { λ d. D.reads (disk_in d) };

    ghost cat = { OpensWith };

    ghost pages = { pages_known };

    ghost unread = { pages_unread };

    ghost left_since = { left_in };

    ghost ready = { is_restored };

    ghost asked = { AskedOf };

    ghost left = { left_of };

    ghost lawful = { λ d s is. lawful_known D.is_known (D.seen (disk_in d)) d.catalog s is };

    ghost own = { λ d db is. own_known (db_of d) (schema_in d) db is };

    ghost scanned = { λ d db key is. scanned_known D.is_known (D.seen (disk_in d)) db key is };

    ghost counts_now = { λ d t o le left. left_counts D.is_known D.seen D.touched D.clock D.left_since (disk_in d) t o left };

    ghost whole = { λ d key at. unread_at_most (rows_in_memory d key) (pages_known d key) };

    ghost starts = { λ d. record { kept = refl; only = asked_itself (clock_in d) (is_restored d) (left_in d) } };

    ghost asks_keep = { λ _ _ is. (is.kept, ap rows_left is.kept) };

    ghost asks = { λ _ _ is. is.only };

    fn dba(&mut self, alloc: Global) -> Result<Name, BaseFault> {
        DbDisk::dba(self, alloc)
    }

    fn count(&mut self) -> Result<u32, BaseFault> {
        DbDisk::count(self)
    }

    fn find(
        &mut self,
        alloc: Global,
        name: &Name,
        user: &Name,
    ) -> Result<Option<RelInfo>, BaseFault> {
        DbDisk::find(self, alloc, name, user)
    }

    fn info(&mut self, alloc: Global, key: &RelKey) -> Result<Option<RelInfo>, BaseFault> {
        DbDisk::info(self, alloc, key)
    }

    fn size(&mut self, alloc: Global, key: &RelKey) -> Result<u32, BaseFault> {
        DbDisk::size(self, alloc, key)
    }

    fn has_row(&mut self, alloc: Global, key: &RelKey, row: &Row) -> Result<bool, BaseFault> {
        DbDisk::has_row(self, alloc, key, row)
    }

    fn scan(
        &mut self,
        alloc: Global,
        key: &RelKey,
        probe: &Probe,
        at: &mut Place,
    ) -> Result<Option<Row>, BaseFault> {
        DbDisk::scan(self, alloc, key, probe, at)
    }

    fn view(&mut self, alloc: Global, key: &RelKey) -> Result<Option<Query>, BaseFault> {
        DbDisk::view(self, alloc, key)
    }

    fn rules(&mut self, alloc: Global, key: &RelKey) -> Result<Vec<Rule>, BaseFault> {
        DbDisk::rules(self, alloc, key)
    }

    fn permits(&mut self, alloc: Global, key: &RelKey) -> Result<Vec<Permit>, BaseFault> {
        DbDisk::permits(self, alloc, key)
    }

    fn named_by_view(
        &mut self,
        alloc: Global,
        key: &RelKey,
        but: &[RelKey],
    ) -> Result<bool, BaseFault> {
        DbDisk::named_by_view(self, alloc, key, but)
    }

    fn apply(&mut self, alloc: Global, change: &DbChange) -> Result<(), BaseFault> {
        DbDisk::apply(self, alloc, change)
    }

    fn hand_over(&mut self) {
        DbDisk::hand_over(self)
    }
}
