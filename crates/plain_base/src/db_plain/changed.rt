//! A new database in memory, and its changes.

ghost use Rattle.std.specs.Prelude.{◌≡◌, [], None, OnOk, OnErr};
ghost use Rattle.calculus.specs.Change.{IsLawful, laid};
ghost use Rattle.plain_base.specs.Shown.{database_of};

use super::DbPlain;
use crate::DbLists;
use calculus::{DbChange, Name, OutOfMemory};
use std::alloc::Global;

impl DbPlain {
    /// The database of this administrator, without anything in it.
    pub fn new(alloc: Global, dba: Name) -> DbPlain
        ensures { database_of result ≡ record { dba = dba; relations = []; indexes = []; views = []; rules = []; permits = [] } }
    {
        DbPlain {
            lists: DbLists::new(alloc, dba),
            kept_relation: None,
            kept_attribute: None,
            near: 0,
        }
    }

    /// Forgets the rows of the catalogues that are kept.
    pub(super) fn forget(&mut self)
        ensures same { database_of self.new ≡ database_of self.old }
        ensures relation { self.new.kept_relation ≡ None }
        ensures attribute { self.new.kept_attribute ≡ None }
    {
        self.kept_relation = None;
        self.kept_attribute = None;
    }

    /// Applies a lawful change. After want of memory the database is as before.
    pub fn apply_change(&mut self, alloc: Global, change: &DbChange) -> Result<(), OutOfMemory>
        requires { IsLawful (database_of self.old) change.now }
        ensures ok { OnOk result (database_of self.new ≡ laid (database_of self.old) change.now) }
        ensures err { OnErr result (database_of self.new ≡ database_of self.old) }
    {
        self.forget();
        self.lists.apply_change(alloc, change)
    }
}
