//! A database in memory answers as any base does.

ghost use Rattle.std.specs.Prelude.{◌≡◌, Some, true, refl};
ghost use Rattle.std.proofs.Common.{arith, ap};
ghost use Rattle.calculus.specs.IsDatabase.{IsDatabase};
ghost use Rattle.calculus.specs.Stored.{rows_at};
ghost use Rattle.base_trait.specs.InMemory.{asked_in_memory};
ghost use Rattle.base_trait.specs.Scans.{IsScan, first_place};
ghost use Rattle.plain_base.specs.Places.{rows_from};
ghost use Rattle.plain_base.specs.Shown.{database_of};
ghost use Rattle.plain_base.specs.Laws.{of_known, whole_scan};

use super::DbPlain;
use base_trait::{Base, BaseFault};
use calculus::{DbChange, Name, Permit, Place, Probe, Query, RelInfo, RelKey, Row, Rule};
use std::alloc::Global;

impl Base for DbPlain {
    ghost database = { λ b. Some (database_of b) };

    ghost schema = { λ b. Some (database_of b) };

    ghost fixes = { true };

    ghost faults = { λ _. 0 };

    ghost clock = { λ _. 0 };

    ghost reads = { λ _. 0 };

    ghost cat = { λ _ _. Unit {0} };

    ghost pages = { λ _ _. 0 };

    ghost unread = { λ _ _ _. 0 };

    ghost left_since = { λ _ _ _. ⊥ };

    ghost ready = { λ _. true };

    ghost asked = { λ b now. database_of now ≡ database_of b };

    ghost left = { λ b. rows_from (database_of b) };

    ghost lawful = { λ b db e. of_known IsDatabase (database_of b) db e b.is };

    ghost own = { λ _ _ is. is };

    ghost scanned = { λ b db key e. of_known (λ db. IsScan (rows_at db key) (rows_from (database_of b) key first_place)) (database_of b) db e (whole_scan (database_of b) key b.is) };

    ghost counts_now = { λ _ _ _ _ left. left };

    ghost whole = { λ _ _ _. omega arith };

    ghost starts = { λ _. refl };

    ghost asks_keep = { λ _ _ is. (ap Some is, ap rows_from is) };

    ghost asks = { λ _ _ _. asked_in_memory };

    fn dba(&mut self, alloc: Global) -> Result<Name, BaseFault> {
        Ok(self.lists.administrator().copy(alloc)?)
    }

    fn count(&mut self) -> Result<u32, BaseFault> {
        Ok(self.lists.entry_count())
    }

    fn find(
        &mut self,
        alloc: Global,
        name: &Name,
        user: &Name,
    ) -> Result<Option<RelInfo>, BaseFault> {
        Ok(self.lists.found(alloc, user, name)?)
    }

    fn info(&mut self, alloc: Global, key: &RelKey) -> Result<Option<RelInfo>, BaseFault> {
        Ok(self.lists.known(alloc, key)?)
    }

    fn size(&mut self, alloc: Global, key: &RelKey) -> Result<u32, BaseFault> {
        Ok(self.row_count(alloc, key)?)
    }

    fn has_row(&mut self, alloc: Global, key: &RelKey, row: &Row) -> Result<bool, BaseFault> {
        Ok(self.has_kept_row(alloc, key, row)?)
    }

    fn scan(
        &mut self,
        alloc: Global,
        key: &RelKey,
        probe: &Probe,
        at: &mut Place,
    ) -> Result<Option<Row>, BaseFault> {
        Ok(self.next_kept_row(alloc, key, probe, at)?)
    }

    fn view(&mut self, alloc: Global, key: &RelKey) -> Result<Option<Query>, BaseFault> {
        Ok(self.lists.query(alloc, key)?)
    }

    fn rules(&mut self, alloc: Global, key: &RelKey) -> Result<Vec<Rule>, BaseFault> {
        Ok(self.lists.rules_on(alloc, key)?)
    }

    fn permits(&mut self, alloc: Global, key: &RelKey) -> Result<Vec<Permit>, BaseFault> {
        Ok(self.lists.permits_on(alloc, key)?)
    }

    fn named_by_view(
        &mut self,
        _alloc: Global,
        key: &RelKey,
        but: &[RelKey],
    ) -> Result<bool, BaseFault> {
        Ok(self.lists.is_named_by_view(key, but))
    }

    fn apply(&mut self, alloc: Global, change: &DbChange) -> Result<(), BaseFault> {
        self.apply_change(alloc, change)?;
        Ok(())
    }

    fn hand_over(&mut self) {
        self.forget();
    }
}
