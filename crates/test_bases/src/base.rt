//! A base of which no database is known, and answers by what it was given.

ghost use Rattle.std.specs.Prelude.{None, [], false, true, refl};
ghost use Rattle.std.proofs.Common.{arith};
ghost use Rattle.std.proofs.lemmas.Option.{none-some};
ghost use Rattle.base_trait.specs.InMemory.{asked_in_memory};

use crate::given::{copied, known, named, put_permits, put_rules, rows, view};
use base_trait::{Base, BaseFault};
use calculus::{
    DbChange, Name, OutOfMemory, Permit, Place, Probe, Query, RelInfo, RelKey, Row, Rule, Value,
};
use quel_tree::{DbChangeTree, TreeFault, tree_of};
use std::alloc::Global;

/// A base of which no database is known, of ann as the administrator. What it knows is given by changes that make
/// relations, views, rules and permits, each spelled as bytes. It answers with the first that has the name or
/// the key, and looks neither at the user nor at a probe. Nothing changes it.
pub struct TestBase {
    changes: Vec<DbChange>,
    /// How many relations, views and indexes there are said to be.
    pub entries: u32,
    /// Under each key to which no change gives rows there are so many rows of one number, counted from 0.
    pub numbers: u32,
    /// How often it was asked for what may be a view.
    pub views: u32,
    /// How often it was asked for permits.
    pub permits: u32,
}

impl Drop for TestBase {
    fn drop(self) {
        let Self {
            changes: _,
            entries: _,
            numbers: _,
            views: _,
            permits: _,
        } = self;
    }
}

impl TestBase {
    /// Of nothing, and with so many rows of one number under each key.
    pub fn of_numbers(alloc: Global, numbers: u32) -> TestBase {
        TestBase {
            changes: Vec::new(alloc),
            entries: 1,
            numbers,
            views: 0,
            permits: 0,
        }
    }

    /// Of nothing, where so many relations, views and indexes are said to be.
    pub fn of_entries(alloc: Global, entries: u32) -> TestBase {
        let mut base = TestBase::of_numbers(alloc, 0);
        base.entries = entries;
        base
    }

    /// What these bytes spell is given, too.
    pub fn give(&mut self, alloc: Global, change: &[u8]) -> Result<(), TreeFault> {
        let change = tree_of::<DbChangeTree>(alloc, change)?;
        match self.changes.push(change) {
            Ok(()) => Ok(()),
            Err(_) => Err(TreeFault::OutOfMemory),
        }
    }

    /// What each of these spells is given, too.
    pub fn give_all(&mut self, alloc: Global, changes: &[&[u8]]) -> Result<(), TreeFault> {
        for change in changes {
            self.give(alloc, change)?;
        }
        Ok(())
    }

    /// The row at a place; `None` past the last one.
    fn row_at(&self, alloc: Global, key: &RelKey, place: u32) -> Result<Option<Row>, OutOfMemory> {
        match rows(&self.changes, key) {
            Some(rows) => copied(alloc, rows.get(place as usize)),
            None if place < self.numbers => number(alloc, place),
            None => Ok(None),
        }
    }
}

/// The row of one number.
fn number(alloc: Global, number: u32) -> Result<Option<Row>, OutOfMemory> {
    let mut values = Vec::new(alloc);
    values.push(Value::Int(i64::from(number)))?;
    Ok(Some(Row::of(values)))
}

/// Whether the row is one of the first so many of one number.
fn is_number(row: &Row, numbers: u32) -> bool {
    match row.values().first() {
        Some(Value::Int(number)) => *number >= 0 && *number < i64::from(numbers),
        _ => false,
    }
}

/// Whether the row is one of these.
fn is_among(rows: &[Row], row: &Row) -> bool {
    for other in rows {
        if *other == *row {
            return true;
        }
    }
    false
}

impl Base for TestBase {
    ghost database = { λ _. None };

    ghost schema = { λ _. None };

    ghost fixes = { false };

    ghost faults = { λ _. 0 };

    ghost clock = { λ _. 0 };

    ghost reads = { λ _. 0 };

    ghost cat = { λ _ _. Unit {0} };

    ghost pages = { λ _ _. 0 };

    ghost unread = { λ _ _ _. 0 };

    ghost left_since = { λ _ _ _. ⊥ };

    ghost ready = { λ _. true };

    ghost asked = { λ _ _. Unit {0} };

    ghost left = { λ _ _ _. [] };

    ghost lawful = { λ _ db known. absurd (none-some db known) };

    ghost own = { λ _ db known. absurd (none-some db known) };

    ghost scanned = { λ _ db _ known. absurd (none-some db known) };

    ghost counts_now = { λ _ _ _ _ left. left };

    ghost whole = { λ _ _ _. omega arith };

    ghost starts = { λ _. tt };

    ghost asks_keep = { λ _ _ _. (refl, refl) };

    ghost asks = { λ _ _ _. asked_in_memory };

    fn dba(&mut self, alloc: Global) -> Result<Name, BaseFault> {
        match Name::of(alloc, b"ann")? {
            Some(name) => Ok(name),
            None => Err(BaseFault::OutOfMemory),
        }
    }

    fn count(&mut self) -> Result<u32, BaseFault> {
        Ok(self.entries)
    }

    fn find(
        &mut self,
        alloc: Global,
        name: &Name,
        _user: &Name,
    ) -> Result<Option<RelInfo>, BaseFault> {
        Ok(copied(alloc, named(&self.changes, name))?)
    }

    fn info(&mut self, alloc: Global, key: &RelKey) -> Result<Option<RelInfo>, BaseFault> {
        Ok(copied(alloc, known(&self.changes, key))?)
    }

    fn size(&mut self, _alloc: Global, key: &RelKey) -> Result<u32, BaseFault> {
        match rows(&self.changes, key) {
            Some(rows) => Ok(u32::try_from(rows.len()).unwrap_or(u32::MAX)),
            None => Ok(self.numbers),
        }
    }

    fn has_row(&mut self, _alloc: Global, key: &RelKey, row: &Row) -> Result<bool, BaseFault> {
        match rows(&self.changes, key) {
            Some(rows) => Ok(is_among(rows, row)),
            None => Ok(is_number(row, self.numbers)),
        }
    }

    fn scan(
        &mut self,
        alloc: Global,
        key: &RelKey,
        _probe: &Probe,
        at: &mut Place,
    ) -> Result<Option<Row>, BaseFault> {
        let row = self.row_at(alloc, key, at.page)?;
        at.page = at.page.saturating_add(1);
        Ok(row)
    }

    fn view(&mut self, alloc: Global, key: &RelKey) -> Result<Option<Query>, BaseFault> {
        self.views = self.views.saturating_add(1);
        Ok(copied(alloc, view(&self.changes, key))?)
    }

    fn rules(&mut self, alloc: Global, key: &RelKey) -> Result<Vec<Rule>, BaseFault> {
        let mut rules = Vec::new(alloc);
        put_rules(alloc, &self.changes, key, &mut rules)?;
        Ok(rules)
    }

    fn permits(&mut self, alloc: Global, key: &RelKey) -> Result<Vec<Permit>, BaseFault> {
        self.permits = self.permits.saturating_add(1);
        let mut permits = Vec::new(alloc);
        put_permits(alloc, &self.changes, key, &mut permits)?;
        Ok(permits)
    }

    fn named_by_view(
        &mut self,
        _alloc: Global,
        _key: &RelKey,
        _but: &[RelKey],
    ) -> Result<bool, BaseFault> {
        Ok(false)
    }

    fn apply(&mut self, _alloc: Global, _change: &DbChange) -> Result<(), BaseFault> {
        Ok(())
    }

    fn hand_over(&mut self) {}
}
