//! A change of a database in memory, of whatever kind.

ghost use Rattle.std.specs.Prelude.{◌≡◌, OnOk, OnErr};
ghost use Rattle.calculus.specs.Change.{IsLawful, laid};

use super::DbLists;
use calculus::{DbChange, OutOfMemory};
use std::alloc::Global;

impl DbLists {
    /// Applies a lawful change. After want of memory nothing is changed.
    pub fn apply_change(&mut self, alloc: Global, change: &DbChange) -> Result<(), OutOfMemory>
        requires { IsLawful self.old change.now }
        ensures ok { OnOk result (self.new ≡ laid self.old change.now) }
        ensures err { OnErr result (self.new ≡ self.old) }
    {
        match change {
            DbChange::Rows { rel, remove, add } => {
                self.change_rows(alloc, rel, remove.items(), add.items())
            }
            DbChange::Create { info, rows } => self.create(alloc, info, rows.items()),
            DbChange::Destroy { rels } => {
                self.destroy(rels.items());
                Ok(())
            }
            DbChange::Modify { rel, to, keys } => self.modify(alloc, rel, *to, keys),
            DbChange::Index { base, name, keys } => self.create_index(alloc, base, name, keys),
            DbChange::View { info, query } => self.create_view(alloc, info, query),
            DbChange::Permit { rel, permit } => self.create_permit(alloc, rel, permit),
            DbChange::Rule { rel, rule } => self.create_rule(alloc, rel, rule),
            DbChange::DropPermits { rel, numbers } => {
                self.drop_permits(rel, numbers.items());
                Ok(())
            }
            DbChange::DropRules { rel, numbers } => {
                self.drop_rules(rel, numbers.items());
                Ok(())
            }
        }
    }
}
