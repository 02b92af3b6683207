//! What trees come to.

ghost use Rattle.std.specs.Prelude.{◌≡◌, map, true, Some, IfErr, IfNone, IfOk, IfSome, IsErrOf, OnOk};
ghost use Rattle.calculus.specs.Database.{Db};
ghost use Rattle.net_core.specs.Crashes.{IsForgotten};
ghost use Rattle.quel_meaning.proofs.Each.{Each};
ghost use Rattle.quel_meaning.specs.Fit.{is_fit};
ghost use Rattle.quel_network.specs.TableFits.{TableStands};
ghost use Rattle.quel_network.specs.Trees.{sent_table};
ghost use Rattle.quel_tree.specs.Changes.{change as change_codec};
ghost use Rattle.quel_tree.specs.Message.{most_tree_levels};
ghost use Rattle.quel_tree.specs.Requests.{checked as checked_codec};
ghost use Rattle.stage_proc.specs.Comes.{Answers, CannotBeShown, Comes, ComesTo, HasHead, HeadIsSpelled, IsHanded, IsRefused, IsSentAs, IsUnfit, Updates};
ghost use Rattle.stage_proc.specs.Plans.{AreDoable, IsDoableUpdate};
ghost use Rattle.stage_proc.specs.Sending.{answer_frames};
ghost use Rattle.stage_proc.specs.Stopping.{HasWorkCause, IsFaultOf, IsOfSending, IsRefusing};
ghost use Rattle.stage_proc.specs.declared.processed.Processed.TheVariants.{Shows};

use crate::planning::update_planned;
use crate::processed::Processed;
use crate::sending::{answer_out, refusal_out};
use crate::stopped::{Stopped, of_base};
use crate::suiting::tables_stand;
use crate::tables::tables_of;
use base_trait::Base;
use calculus::{Asked, Checked, DbChange, List, Name, OutOfMemory, Table, Update};
use message_codec::again;
use net_core::WorkFault;
use quel_tree::DbChangeTree;
use std::alloc::Global;
use tree_check::fit_tree;

/// The refusal by what stops a tree, where it has a number; else the fault.
fn refuse(alloc: Global, stopped: Stopped) -> Result<Processed, WorkFault>
    requires { IsRefusing stopped }
    ensures refused { IfOk result (IsRefused stopped) }
    ensures fault { IfErr result (IsFaultOf stopped) }
{
    match stopped {
        Stopped::No(number) => match refusal_out(alloc, number) {
            Ok(out) => Ok(Processed::Shows(out)),
            Err(OutOfMemory) => Err(WorkFault::OutOfMemory),
        },
        Stopped::Base(fault) => Err(of_base(fault)),
        Stopped::OutOfMemory => Err(WorkFault::OutOfMemory),
    }
}

/// Tables as they are shown; unlawful where a row of one can't stand behind its head.
fn show(alloc: Global, tables: List<Table>) -> Result<Processed, WorkFault>
    requires { Each HasHead tables }
    ensures shown { IfOk result (λ made. Each TableStands (map sent_table tables) × (made ≡ Shows (answer_frames tables))) }
    ensures unlawful { IsErrOf result WorkFault.Unlawful → Each TableStands (map sent_table tables) → ⊥ }
    ensures cause { IfErr result IsOfSending }
{
    let stand = tables_stand(tables.items());
    if !stand {
        drop(tables);
        return Err(WorkFault::Unlawful);
    }
    match answer_out(alloc, tables) {
        Ok(out) => Ok(Processed::Shows(out)),
        Err(OutOfMemory) => Err(WorkFault::OutOfMemory),
    }
}

/// The bytes of a change as it is handed on: as it is read again from them. None where it has no spelling.
fn change_bytes(alloc: Global, change: &DbChange) -> Result<Option<List<u8>>, OutOfMemory>
    ensures some { IfOk result (λ found. IfSome found (IsSentAs change.now)) }
    ensures none { IfOk result (λ found. IfNone found ((change_codec most_tree_levels).Fits change.now → ⊥)) }
{
    match again::<DbChangeTree>(alloc, change)? {
        Some((sent, bytes)) => {
            drop(sent);
            Ok(Some(bytes))
        }
        None => Ok(None),
    }
}

/// A change as it is handed on; unlawful where it has no spelling.
fn hand(alloc: Global, change: DbChange) -> Result<Processed, WorkFault>
    ensures handed { IfOk result (IsHanded change) }
    ensures unlawful { IsErrOf result WorkFault.Unlawful → (change_codec most_tree_levels).Fits change → ⊥ }
    ensures cause { IfErr result IsOfSending }
{
    match change_bytes(alloc, &change) {
        Ok(Some(bytes)) => Ok(Processed::Changes(bytes)),
        Ok(None) => Err(WorkFault::Unlawful),
        Err(OutOfMemory) => Err(WorkFault::OutOfMemory),
    }
}

/// What queries come to: their tables and the end, or the refusal where a target has no value.
fn answer_queries<B: Base>(
    alloc: Global,
    asked: &[Asked],
    base: &mut B,
) -> Result<Processed, WorkFault>
    requires doable { (db : Db) → B.database base.old ≡ Some db → AreDoable db asked.now }
    requires heads { Each HeadIsSpelled asked.now }
    ensures made { IfOk result (Answers asked.now (B.database base.old)) }
    ensures unlawful { IsErrOf result WorkFault.Unlawful → (db : Db) → B.database base.old ≡ Some db → CannotBeShown db asked.now }
    ensures kept { B.database base.new ≡ B.database base.old }
    ensures asked { (b : B) → B.asked b base.old → B.asked b base.new }
    ensures cause { HasWorkCause (B.database base.old) (B.faults base.old) (B.faults base.new) result }
{
    match tables_of(alloc, base, asked) {
        Ok(tables) => show(alloc, tables),
        Err(fault) => refuse(alloc, Stopped::from(fault)),
    }
}

/// What an update comes to: its change, or the refusal by its cause.
fn make_change<B: Base>(alloc: Global, u: &Update, base: &mut B) -> Result<Processed, WorkFault>
    requires { (db : Db) → B.database base.old ≡ Some db → IsDoableUpdate db u.now }
    ensures made { IfOk result (Updates u.now (B.database base.old)) }
    ensures unlawful { IsErrOf result WorkFault.Unlawful → (db : Db) → B.database base.old ≡ Some db → ⊥ }
    ensures kept { B.database base.new ≡ B.database base.old }
    ensures asked { (b : B) → B.asked b base.old → B.asked b base.new }
    ensures cause { HasWorkCause (B.database base.old) (B.faults base.old) (B.faults base.new) result }
{
    match update_planned(alloc, base, u) {
        Ok(change) => hand(alloc, change),
        Err(stopped) => refuse(alloc, stopped),
    }
}

/// What a tree comes to that is fit where the database is known.
fn carry_out<B: Base>(
    alloc: Global,
    tree: &Checked,
    user: &Name,
    base: &mut B,
) -> Result<Processed, WorkFault>
    requires spelled { (checked_codec most_tree_levels).Fits tree.now }
    requires fit { (db : Db) → B.database base.old ≡ Some db → is_fit db user.now tree.now ≡ true }
    ensures made { IfOk result (ComesTo tree.now (B.database base.old)) }
    ensures unlawful { IsErrOf result WorkFault.Unlawful → IsUnfit user.now tree.now (B.database base.old) }
    ensures kept { B.database base.new ≡ B.database base.old }
    ensures asked { (b : B) → B.asked b base.old → B.asked b base.new }
    ensures cause { HasWorkCause (B.database base.old) (B.faults base.old) (B.faults base.new) result }
{
    match tree {
        Checked::Answer(asked) => answer_queries(alloc, asked.items(), base),
        Checked::Update(u) => make_change(alloc, u, base),
        Checked::Utility(_) => Ok(Processed::HandsOn),
    }
}

/// Whether the tree is fit.
fn judge<B: Base>(
    alloc: Global,
    tree: &Checked,
    user: &Name,
    base: &mut B,
) -> Result<bool, WorkFault>
    ensures known { (db : Db) → B.database base.old ≡ Some db → IfOk result (λ fit. fit ≡ is_fit db user.now tree.now) }
    ensures judged { IsErrOf result WorkFault.Unlawful → ⊥ }
    ensures kept { B.database base.new ≡ B.database base.old }
    ensures asked { (b : B) → B.asked b base.old → B.asked b base.new }
    ensures cause { HasWorkCause (B.database base.old) (B.faults base.old) (B.faults base.new) result }
{
    match fit_tree(alloc, tree, user, base) {
        Ok(fit) => Ok(fit),
        Err(fault) => Err(of_base(fault)),
    }
}

/// What a tree comes to; unlawful where it isn't fit.
fn process<B: Base>(
    alloc: Global,
    tree: &Checked,
    user: &Name,
    base: &mut B,
) -> Result<Processed, WorkFault>
    requires { (checked_codec most_tree_levels).Fits tree.now }
    ensures made { IfOk result (Comes user.now tree.now (B.database base.old)) }
    ensures unlawful { IsErrOf result WorkFault.Unlawful → IsUnfit user.now tree.now (B.database base.old) }
    ensures kept { B.database base.new ≡ B.database base.old }
    ensures asked { (b : B) → B.asked b base.old → B.asked b base.new }
    ensures cause { HasWorkCause (B.database base.old) (B.faults base.old) (B.faults base.new) result }
{
    let fit = judge(alloc, tree, user, base)?;
    if !fit {
        return Err(WorkFault::Unlawful);
    }
    carry_out(alloc, tree, user, base)
}

/// What a tree comes to, and then the base is handed over.
pub(crate) fn process_and_hand_over<B: Base>(
    alloc: Global,
    tree: &Checked,
    user: &Name,
    base: &mut B,
) -> Result<Processed, WorkFault>
    requires { (checked_codec most_tree_levels).Fits tree.now }
    ensures made { IfOk result (Comes user.now tree.now (B.database base.old)) }
    ensures unlawful { IsErrOf result WorkFault.Unlawful → IsUnfit user.now tree.now (B.database base.old) }
    ensures kept { B.database base.new ≡ B.database base.old }
    ensures asked { (b : B) → B.asked b base.old → B.asked b base.new }
    ensures handed { OnOk result (IsForgotten (B.schema base.new) (B.database base.new)) }
    ensures cause { HasWorkCause (B.database base.old) (B.faults base.old) (B.faults base.new) result }
{
    match process(alloc, tree, user, base) {
        Ok(made) => {
            base.hand_over();
            Ok(made)
        }
        Err(fault) => Err(fault),
    }
}
