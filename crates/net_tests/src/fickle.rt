// A base of which nothing is known, and which never answers the same twice.
ghost use Rattle.std.specs.Prelude.{None, [], false, true, refl};
ghost use Rattle.std.proofs.Common.{arith};
ghost use Rattle.std.proofs.lemmas.Option.{none-some};
ghost use Rattle.base_trait.specs.InMemory.{asked_in_memory};

use base_trait::{Base, BaseFault};
use calculus::{
    DbChange, Name, OutOfMemory, Permit, Place, Probe, Query, RelInfo, RelKey, Row, Rule, Value,
};
use std::alloc::Global;

/// A base of which no database is known and no schema. Each row that it gives, and each number, is another one
/// than before, and a scan never ends. It takes each change, and nothing changes it.
pub(crate) struct Fickle {
    asked: u32,
}

impl Drop for Fickle {
    fn drop(self) {
        let Self { asked: _ } = self;
    }
}

impl Fickle {
    /// A base that was asked nothing yet.
    pub(crate) fn new() -> Fickle {
        Fickle { asked: 0 }
    }

    /// How often it was asked, with this time.
    fn next(&mut self) -> u32 {
        self.asked = self.asked.wrapping_add(1);
        self.asked
    }
}

/// The row of one number.
fn row_of(alloc: Global, number: u32) -> Result<Row, OutOfMemory> {
    let mut values = Vec::new(alloc);
    values.push(Value::Int(i64::from(number)))?;
    Ok(Row::of(values))
}

impl Base for Fickle {
    ghost database = { λ _. None };

    ghost schema = { λ _. None };

    ghost fixes = { false };

    ghost faults = { λ _. 0 };

    ghost clock = { λ _. 0 };

    ghost reads = { λ _. 0 };

    ghost cat = { λ _ _. Unit {0} };

    ghost pages = { λ _ _. 0 };

    ghost unread = { λ _ _ _. 0 };

    ghost left_since = { λ _ _ _. ⊥ };

    ghost ready = { λ _. true };

    ghost asked = { λ _ _. Unit {0} };

    ghost left = { λ _ _ _. [] };

    ghost lawful = { λ _ db known. absurd (none-some db known) };

    ghost own = { λ _ db known. absurd (none-some db known) };

    ghost scanned = { λ _ db _ known. absurd (none-some db known) };

    ghost counts_now = { λ _ _ _ _ left. left };

    ghost whole = { λ _ _ _. omega arith };

    ghost starts = { λ _. tt };

    ghost asks_keep = { λ _ _ _. (refl, refl) };

    ghost asks = { λ _ _ _. asked_in_memory };

    fn dba(&mut self, _alloc: Global) -> Result<Name, BaseFault> {
        Err(BaseFault::OutOfMemory)
    }

    fn count(&mut self) -> Result<u32, BaseFault> {
        Ok(self.next())
    }

    fn find(
        &mut self,
        _alloc: Global,
        _name: &Name,
        _user: &Name,
    ) -> Result<Option<RelInfo>, BaseFault> {
        Ok(None)
    }

    fn info(&mut self, _alloc: Global, _key: &RelKey) -> Result<Option<RelInfo>, BaseFault> {
        Ok(None)
    }

    fn size(&mut self, _alloc: Global, _key: &RelKey) -> Result<u32, BaseFault> {
        Ok(self.next())
    }

    fn has_row(&mut self, _alloc: Global, _key: &RelKey, _row: &Row) -> Result<bool, BaseFault> {
        Ok(self.next() % 2 == 0)
    }

    fn scan(
        &mut self,
        alloc: Global,
        _key: &RelKey,
        _probe: &Probe,
        at: &mut Place,
    ) -> Result<Option<Row>, BaseFault> {
        at.page = at.page.saturating_add(1);
        let row = row_of(alloc, self.next())?;
        Ok(Some(row))
    }

    fn view(&mut self, _alloc: Global, _key: &RelKey) -> Result<Option<Query>, BaseFault> {
        Ok(None)
    }

    fn rules(&mut self, alloc: Global, _key: &RelKey) -> Result<Vec<Rule>, BaseFault> {
        Ok(Vec::new(alloc))
    }

    fn permits(&mut self, alloc: Global, _key: &RelKey) -> Result<Vec<Permit>, BaseFault> {
        Ok(Vec::new(alloc))
    }

    fn named_by_view(
        &mut self,
        _alloc: Global,
        _key: &RelKey,
        _but: &[RelKey],
    ) -> Result<bool, BaseFault> {
        Ok(self.next() % 2 == 0)
    }

    fn apply(&mut self, _alloc: Global, _change: &DbChange) -> Result<(), BaseFault> {
        Ok(())
    }

    fn hand_over(&mut self) {}
}
