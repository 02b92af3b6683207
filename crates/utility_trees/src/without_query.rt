//! The tree of a statement that needs no query.

ghost use Rattle.std.specs.Prelude.{◌≡◌, true, Some, None, Ok, Err};
ghost use Rattle.calculus.specs.Database.{Db};
ghost use Rattle.quel_meaning.specs.Naming.{name_refusal};
ghost use Rattle.quel_meaning.specs.Ranges.{Ranges};
ghost use Rattle.quel_meaning.specs.Resolved.{resolved};
ghost use Rattle.quel_names.specs.Asking.{scope_of};
ghost use Rattle.utility_trees.specs.Answers.{Says};
ghost use Rattle.utility_trees.specs.Causes.{HasCheckCause};
ghost use Rattle.utility_trees.specs.WithoutQuery.{needs_no_query};

use crate::CheckFault;
use crate::copied::copied;
use crate::destroyed::destroyed;
use crate::helped::helped;
use crate::printed::printed;
use crate::stored::{indexed, modified};
use base_trait::Base;
use calculus::{Checked, Name, Statement};
use std::alloc::Global;

/// Whether a statement needs no query: it destroys, gives a structure, makes an index, prints, asks for
/// help or copies. Takes no memory.
pub fn needs_no_query(s: &Statement) -> bool
    ensures { result ≡ needs_no_query s.now }
{
    match s {
        Statement::Destroy { .. } => true,
        Statement::Modify { .. } => true,
        Statement::Index { .. } => true,
        Statement::Print { .. } => true,
        Statement::Help { .. } => true,
        Statement::Copy { .. } => true,
        _ => false,
    }
}

/// What the user's statement asks for that needs no query and whose names were found: its tree. `No` has
/// the number of the first cause that refuses it: 17 where a name or what is named stands twice, 14 where
/// there is no room, 15 where the name is in use, 13 where a binary column is for a text.
pub fn tree_without_query<B: Base>(
    alloc: Global,
    base: &mut B,
    user: &Name,
    s: &Statement,
) -> Result<Checked, CheckFault>
    requires { needs_no_query s.now ≡ true }
    ensures known { (db : Db) (ranges : Ranges) → B.schema base.old ≡ Some db → name_refusal (scope_of db user.now ranges) s.now ≡ None
        → Says (λ tree. resolved db user.now ranges s.now ≡ Ok tree) (λ number. resolved db user.now ranges s.now ≡ Err number) result }
    ensures kept { B.database base.new ≡ B.database base.old }
    ensures stays { (s : Db) → B.schema base.old ≡ Some s → B.schema base.new ≡ Some s }
    ensures asked { (b : B) → B.asked b base.old → B.asked b base.new }
    ensures cause { HasCheckCause (B.database base.old) (B.faults base.old) (B.faults base.new) result }
{
    match s {
        Statement::Destroy { rels } => destroyed(alloc, base, user, rels.items()),
        Statement::Modify { rel, to, keys } => {
            modified(alloc, base, user, rel, *to, keys.items())
        }
        Statement::Index {
            base: rel,
            name,
            keys,
        } => indexed(alloc, base, user, rel, name, keys.items()),
        Statement::Print { rels } => printed(alloc, base, user, rels.items()),
        Statement::Help { rel } => helped(alloc, base, user, rel),
        Statement::Copy {
            rel,
            columns,
            from,
            file,
        } => copied(alloc, base, user, rel, columns.items(), *from, file),
        _ => {
            prove!(false);
            Err(CheckFault::OutOfMemory)
        }
    }
}
