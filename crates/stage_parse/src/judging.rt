//! What comes of a statement.

ghost use Rattle.std.specs.Prelude.{◌≡◌, None, Some, false, IfOk, IfSome, OnErr};
ghost use Rattle.base_trait.specs.Causes.{HasCause};
ghost use Rattle.calculus.specs.Database.{Db};
ghost use Rattle.calculus.specs.Finding.{found};
ghost use Rattle.calculus.specs.declared.statement.Statement.TheVariants.{Range};
ghost use Rattle.quel_meaning.specs.Meaning.{is_range};
ghost use Rattle.quel_tree.specs.Message.{most_tree_levels};
ghost use Rattle.quel_tree.specs.Requests.{checked as checked_codec};
ghost use Rattle.stage_parse.specs.Judging.{IsDeclared, IsShaped, Judges, KeepsRanges, SendsTree, WasRead};

use crate::checking::checked;
use crate::judged::Judged;
use crate::refusing::{refused, refused_by};
use base_trait::{Base, BaseFault};
use calculus::refusals::{NO_RELATION, PAST_LIMIT};
use calculus::{Checked, Name, Statement};
use frame_codec::Message;
use memory::OutOfMemory;
use message_codec::again;
use quel_check::RangeTable;
use quel_resolve::CheckFault;
use quel_tree::CheckedTree;
use std::alloc::Global;

/// The kind of a tree as a message.
const TREE: u8 = 2;

/// A range variable over what the user means by a name, or the refusal where that is nothing.
fn declared<B: Base>(
    alloc: Global,
    base: &mut B,
    ranges: &mut RangeTable,
    user: &Name,
    var: &Name,
    rel: &Name,
    line: u32,
) -> Result<Judged, BaseFault>
    ensures known { (s : Db) → B.schema base.old ≡ Some s
        → IfOk result (IsDeclared ranges.old var.now (found s user.now rel.now) line ranges.new) }
    ensures shaped { IfOk result (IsShaped line) }
    ensures ranges { IfOk result (KeepsRanges ranges.old ranges.new) }
    ensures same { OnErr result (ranges.new ≡ ranges.old) }
    ensures kept { B.database base.new ≡ B.database base.old }
    ensures asked { (b : B) → B.asked b base.old → B.asked b base.new }
    ensures cause { HasCause (B.database base.old) (B.faults base.old) (B.faults base.new) result }
{
    let var = var.copy(alloc)?;
    match base.find(alloc, rel, user) {
        Ok(Some(info)) => {
            ranges.declare(var, info.into_key())?;
            Ok(Judged::Declared)
        }
        Ok(None) => Ok(Judged::Refused(refused_by(alloc, NO_RELATION, line)?)),
        Err(fault) => Err(fault),
    }
}

/// The tree as it is read again from its bytes. One that has no spelling can come only of a database
/// that isn't known: it passes a limit.
fn sent(alloc: Global, tree: &Checked, line: u32) -> Result<Judged, OutOfMemory>
    ensures shaped { IfOk result (IsShaped line) }
    ensures sends { (checked_codec most_tree_levels).Fits tree.now → IfOk result (SendsTree tree.now) }
{
    let found = again::<CheckedTree>(alloc, tree)?;
    match found {
        Some((read, bytes)) => {
            drop(read);
            Ok(Judged::Asks(Message { kind: TREE, bytes }))
        }
        None => Ok(Judged::Refused(refused_by(alloc, PAST_LIMIT, line)?)),
    }
}

/// What a statement asks for that declares no variable, or what refuses it.
fn asked_for<B: Base>(
    alloc: Global,
    base: &mut B,
    ranges: &RangeTable,
    user: &Name,
    s: &Statement,
    line: u32,
) -> Result<Judged, BaseFault>
    requires read { WasRead s.now }
    requires other { is_range s.now ≡ false }
    ensures known { (db : Db) → B.database base.old ≡ Some db
        → IfOk result (Judges db user.now ranges.now s.now line ranges.now) }
    ensures shaped { IfOk result (IsShaped line) }
    ensures kept { B.database base.new ≡ B.database base.old }
    ensures asked { (b : B) → B.asked b base.old → B.asked b base.new }
    ensures cause { HasCause (B.database base.old) (B.faults base.old) (B.faults base.new) result }
{
    let _ = user.bytes();
    match checked(alloc, s, user, ranges, base) {
        Ok(tree) => Ok(sent(alloc, &tree, line)?),
        Err(CheckFault::No(number)) => Ok(Judged::Refused(refused(alloc, number, line)?)),
        Err(CheckFault::Base(fault)) => Err(fault),
        Err(CheckFault::OutOfMemory) => Err(BaseFault::OutOfMemory),
    }
}

/// The variable that a statement declares, and the name of what it is to range over.
fn range_of(s: &Statement) -> Option<(&Name, &Name)>
    ensures some { IfSome result (λ r. s.now ≡ Range r.0.now r.1.now) }
    ensures none { result ≡ None → is_range s.now ≡ false }
{
    match s {
        Statement::Range { var, rel } => Some((var, rel)),
        _ => None,
    }
}

/// What comes of a statement of the user's that is read of a text, whose first token has this line: its
/// variable is declared, or it is refused, or the tree that it asks for is to be handed on. Where the
/// database is known it means that. The range variables change only with a declaration.
pub(crate) fn judge<B: Base>(
    alloc: Global,
    base: &mut B,
    ranges: &mut RangeTable,
    user: &Name,
    s: &Statement,
    line: u32,
) -> Result<Judged, BaseFault>
    requires { WasRead s.now }
    ensures known { (db : Db) → B.database base.old ≡ Some db
        → IfOk result (Judges db user.now ranges.old s.now line ranges.new) }
    ensures shaped { IfOk result (IsShaped line) }
    ensures ranges { IfOk result (KeepsRanges ranges.old ranges.new) }
    ensures same { OnErr result (ranges.new ≡ ranges.old) }
    ensures kept { B.database base.new ≡ B.database base.old }
    ensures asked { (b : B) → B.asked b base.old → B.asked b base.new }
    ensures cause { HasCause (B.database base.old) (B.faults base.old) (B.faults base.new) result }
{
    match range_of(s) {
        Some((var, rel)) => declared(alloc, base, ranges, user, var, rel, line),
        None => asked_for(alloc, base, ranges, user, s, line),
    }
}
