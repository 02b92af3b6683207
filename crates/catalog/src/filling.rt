//! The rows of a relation are read.

ghost use Rattle.std.specs.Prelude.{◌≡◌, ◌↔◌, [], true, false, Some, IfOk, OnOk, OnErr, if◌then◌else◌};
ghost use Rattle.am_traits.specs.Causes.{HasFileCause};
ghost use Rattle.calculus.specs.Change.{IsLawful, laid};
ghost use Rattle.calculus.specs.Database.{Db, is_relation};
ghost use Rattle.calculus.specs.IsDatabase.{IsDatabase};
ghost use Rattle.calculus.specs.Schema.{schema_of};
ghost use Rattle.calculus.specs.declared.change.DbChange.TheVariants.{Rows};
ghost use Rattle.calculus.specs.Stored.{rows_at};
ghost use Rattle.disk_model.specs.Disk.{Image, RisesUpTo};
ghost use Rattle.plain_base.specs.Shown.{database_of};
ghost use Rattle.catalog_moves.specs.Files.{files_of, is_in};
ghost use Rattle.catalog.specs.Knows.{Knows, KnowsNone};
ghost use Rattle.catalog.specs.Lies.{LiesOn};
ghost use Rattle.catalog.specs.Reads.{rows_known};
ghost use Rattle.catalog.specs.Filling.{IsFileOf, IsSame, IsTaken};

use crate::catalog::Catalog;
use crate::files::relation_file;
use crate::spots::SpotTable;
use am_traits::{PageStore, RelFile};
use base_trait::BaseFault;
use calculus::{DbChange, List, OutOfMemory, RelKey, Row, TryCopy};
use change_check::{fit_change, is_relation};
use plain_base::DbPlain;
use relation_rows::{RowSpots, relation_rows};
use std::alloc::Global;

/// The change by which rows come to a relation.
fn coming(alloc: Global, key: &RelKey, rows: List<Row>) -> Result<DbChange, OutOfMemory>
    ensures { IfOk result (λ change. change ≡ Rows key.now [] rows) }
{
    let rel = key.copy(alloc)?;
    Ok(DbChange::Rows {
        rel,
        remove: List::of(Vec::new(alloc)),
        add: rows,
    })
}

/// Whether a change is lawful.
pub(crate) fn is_lawful(
    alloc: Global,
    plain: &mut DbPlain,
    change: &DbChange,
) -> Result<bool, OutOfMemory>
    ensures lawful { IfOk result (λ fit. (fit ≡ true) ↔ IsLawful (database_of plain.old) change.now) }
    ensures same { database_of plain.new ≡ database_of plain.old }
{
    match fit_change(alloc, plain, change) {
        Ok(fit) => Ok(fit),
        Err(_) => Err(OutOfMemory),
    }
}

/// Applies a change in memory where it is lawful, and answers whether it is.
pub(crate) fn apply_lawful(
    alloc: Global,
    plain: &mut DbPlain,
    change: &DbChange,
) -> Result<bool, OutOfMemory>
    ensures lawful { IfOk result (λ fit. (fit ≡ true) ↔ IsLawful (database_of plain.old) change.now) }
    ensures laid { IfOk result (λ fit. database_of plain.new ≡ (if fit then laid (database_of plain.old) change.now else database_of plain.old)) }
    ensures err { OnErr result (database_of plain.new ≡ database_of plain.old) }
{
    if !is_lawful(alloc, plain, change)? {
        return Ok(false);
    }
    plain.apply_change(alloc, change)?;
    Ok(true)
}

/// Applies in memory that rows come to a relation, where that is lawful, and answers whether it is.
fn put_rows(
    alloc: Global,
    plain: &mut DbPlain,
    key: &RelKey,
    rows: List<Row>,
) -> Result<bool, OutOfMemory>
    ensures lawful { IfOk result (λ fit. (fit ≡ true) ↔ IsLawful (database_of plain.old) (Rows key.now [] rows)) }
    ensures laid { IfOk result (λ fit. database_of plain.new ≡ (if fit then laid (database_of plain.old) (Rows key.now [] rows) else database_of plain.old)) }
    ensures err { OnErr result (database_of plain.new ≡ database_of plain.old) }
{
    let change = coming(alloc, key, rows)?;
    apply_lawful(alloc, plain, &change)
}

/// Whether a base relation stands under a key.
fn is_stored(alloc: Global, plain: &mut DbPlain, key: &RelKey) -> Result<bool, OutOfMemory>
    ensures there { IfOk result (λ there. there ≡ is_relation (database_of plain.old) key.now) }
    ensures same { database_of plain.new ≡ database_of plain.old }
{
    match is_relation(alloc, plain, key) {
        Ok(there) => Ok(there),
        Err(_) => Err(OutOfMemory),
    }
}

impl Catalog {
    /// Puts rows that were read of a relation into memory, where they may stand there, and answers
    /// whether they may.
    fn take(&mut self, alloc: Global, key: &RelKey, rows: List<Row>) -> Result<bool, OutOfMemory>
        requires { is_in self.old.loaded key.now ≡ false }
        ensures taken { IfOk result (λ taken. taken ≡ true → IsTaken self.old self.new key.now rows) }
        ensures refused { IfOk result (λ taken. taken ≡ false → IsLawful (database_of self.old.plain) (Rows key.now [] rows) → ⊥) }
        ensures kept { IfOk result (λ taken. taken ≡ false → IsSame self.old self.new) }
        ensures err { OnErr result (IsSame self.old self.new) }
    {
        self.loaded.insert(alloc, key)?;
        match put_rows(alloc, &mut self.plain, key, rows) {
            Ok(true) => Ok(true),
            other => {
                self.loaded.remove(key);
                other
            }
        }
    }

    /// Reads the rows of a relation that has this file.
    fn read<S: PageStore>(
        &mut self,
        alloc: Global,
        store: &mut S,
        spots: &mut SpotTable,
        key: &RelKey,
        file: RelFile,
    ) -> Result<(), BaseFault>
        requires unread { is_in self.old.loaded key.now ≡ false }
        requires stored { is_relation (database_of self.old.plain) key.now ≡ true }
        requires file { IsFileOf (database_of self.old.plain) (files_of self.old.files) key.now file }
        ensures knows { (m : Image) (db : Db) → S.pages store.old ≡ Some m → IsDatabase db → Knows self.old m db → Knows self.new m db }
        ensures lies { (m : Image) → S.pages store.old ≡ Some m → LiesOn self.old m → LiesOn self.new m }
        ensures rows { (m : Image) (db : Db) → S.pages store.old ≡ Some m → IsDatabase db → Knows self.old m db
            → OnOk result (rows_at (database_of self.new.plain) key.now ≡ rows_at db key.now) }
        ensures schema { schema_of (database_of self.new.plain) ≡ schema_of (database_of self.old.plain) }
        ensures files { self.new.files ≡ self.old.files }
        ensures reads { RisesUpTo file.used (S.reads store.old) (S.reads store.new) }
        ensures loaded { OnOk result (is_in self.new.loaded key.now ≡ true) }
        ensures same { S.pages store.new ≡ S.pages store.old }
        ensures came { (s : S) → S.came s store.old → S.came s store.new }
        ensures only_read { (s : S) → S.only_read s store.old → S.only_read s store.new }
        ensures cause { HasFileCause (S.pages store.old) (KnowsNone self.old) (S.faults store.old) (S.faults store.new) result }
    {
        let number = file.file;
        let mut seen = RowSpots::new(alloc);
        let rows = relation_rows(alloc, store, file, &mut seen)?;
        spots.put(number, seen)?;
        if self.take(alloc, key, rows)? {
            Ok(())
        } else {
            Err(BaseFault::Damaged {
                file: number,
                page: 0,
            })
        }
    }

    /// Reads the rows of a relation, where they weren't read yet, each page once. Where it sees them is
    /// noted.
    pub fn fill<S: PageStore>(
        &mut self,
        alloc: Global,
        store: &mut S,
        spots: &mut SpotTable,
        key: &RelKey,
    ) -> Result<(), BaseFault>
        ensures knows { (m : Image) (db : Db) → S.pages store.old ≡ Some m → IsDatabase db → Knows self.old m db → Knows self.new m db }
        ensures lies { (m : Image) → S.pages store.old ≡ Some m → LiesOn self.old m → LiesOn self.new m }
        ensures rows { (m : Image) (db : Db) → S.pages store.old ≡ Some m → IsDatabase db → Knows self.old m db
            → OnOk result (rows_at (database_of self.new.plain) key.now ≡ rows_at db key.now) }
        ensures schema { schema_of (database_of self.new.plain) ≡ schema_of (database_of self.old.plain) }
        ensures files { files_of self.new.files ≡ files_of self.old.files }
        // No page of another file is read, and none where the rows are in memory.
        ensures reads { RisesUpTo ((files_of self.old.files).used key.now) (S.reads store.old) (S.reads store.new) }
        ensures again { rows_known self.old key.now ≡ true → S.reads store.new ≡ S.reads store.old }
        ensures known { OnOk result (rows_known self.new key.now ≡ true) }
        ensures same { S.pages store.new ≡ S.pages store.old }
        ensures came { (s : S) → S.came s store.old → S.came s store.new }
        ensures only_read { (s : S) → S.only_read s store.old → S.only_read s store.new }
        ensures cause { HasFileCause (S.pages store.old) (KnowsNone self.old) (S.faults store.old) (S.faults store.new) result }
    {
        if self.loaded.has(key) {
            return Ok(());
        }
        if !is_stored(alloc, &mut self.plain, key)? {
            return Ok(());
        }
        match relation_file(alloc, &mut self.plain, &self.files, key)? {
            Some(file) => self.read(alloc, store, spots, key, file),
            None => Err(BaseFault::Damaged { file: 5, page: 0 }),
        }
    }
}
