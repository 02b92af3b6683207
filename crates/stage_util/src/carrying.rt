//! What is in the stage's hands is carried out, where it is fit for the present database.

ghost use Rattle.std.specs.Prelude.{◌≡◌, ◌++◌, ℕ, List, [], false, true, IfOk, None, Option, Some};
ghost use Rattle.calculus.specs.Database.{Db};
ghost use Rattle.calculus.specs.declared.request.Checked.TheVariants as checked;
ghost use Rattle.copy_util.specs.Copies.{IsCopy};
ghost use Rattle.fault_io.specs.Files.{Files};
ghost use Rattle.network_meaning.specs.Sorts.{Cargo.change, Cargo.tree};
ghost use Rattle.plan_laws.specs.Fitting.{is_copy};
ghost use Rattle.quel_meaning.specs.Fit.{is_fit};
ghost use Rattle.stage_util.specs.Standing.{IsHolding};
ghost use Rattle.stage_util.specs.Working.{Carries, CarriesAt, HasWorkCause, frames_of, span};

use crate::at::At;
use crate::carried::Carried;
use crate::copying::{copy_from_done, copy_into_done};
use crate::faults::of_base;
use crate::laying::lay;
use crate::planning::plan_done;
use base_trait::Base;
use calculus::{Checked, DbChange, Name, Utility};
use change_check::fit_change;
use fault_io::Shelf;
use message_codec::Outgoing;
use net_core::WorkFault;
use std::alloc::Global;
use tree_check::fit_tree;

/// Whether a utility copies from a file or into one; none where it doesn't copy.
fn copies_from(work: &Utility) -> Option<bool>
    ensures from { result ≡ Some true → IsCopy work.now true }
    ensures into { result ≡ Some false → IsCopy work.now false }
    ensures none { result ≡ None → is_copy work.now ≡ false }
{
    match work {
        Utility::Copy { from, .. } => Some(*from),
        _ => None,
    }
}

/// Carries out work of the utilities that is fit.
fn work_done<B: Base, H: Shelf>(
    alloc: Global,
    base: &mut B,
    shelf: &mut H,
    user: &Name,
    work: &Utility,
    out: &mut Outgoing,
) -> Result<Carried, WorkFault>
    requires fits { (db : Db) → B.database base.old ≡ Some db → is_fit db user.now (checked.Utility work.now) ≡ true }
    requires empty { out.old ≡ [] }
    ensures done { (b : B) → B.asked b base.old → Carries user.now (tree (checked.Utility work.now)) (span B.database B.schema B.clock B.left_since b base.new) (H.files shelf.old) (H.files shelf.new) result }
    ensures frames { IfOk result (λ answer. out.new ≡ out.old ++ frames_of answer) }
    ensures cause { HasWorkCause (B.database base.old) (B.faults base.old) (B.faults base.new) (H.faults shelf.old) (H.faults shelf.new) result }
{
    match copies_from(work) {
        Some(true) => copy_from_done(alloc, base, shelf, user, work, out),
        Some(false) => copy_into_done(alloc, base, shelf, user, work, out),
        None => plan_done(alloc, base, user, work, out),
    }
}

/// Carries out a tree that asks for this work, where it is fit.
fn fit_done<B: Base, H: Shelf>(
    alloc: Global,
    base: &mut B,
    shelf: &mut H,
    user: &Name,
    given: &Checked,
    work: &Utility,
    out: &mut Outgoing,
) -> Result<Carried, WorkFault>
    requires is { given.now ≡ checked.Utility work.now }
    requires empty { out.old ≡ [] }
    ensures done { Carries user.now (tree (checked.Utility work.now)) (span B.database B.schema B.clock B.left_since base.old base.new) (H.files shelf.old) (H.files shelf.new) result }
    ensures frames { IfOk result (λ answer. out.new ≡ out.old ++ frames_of answer) }
    ensures cause { HasWorkCause (B.database base.old) (B.faults base.old) (B.faults base.new) (H.faults shelf.old) (H.faults shelf.new) result }
{
    match fit_tree(alloc, given, user, base) {
        Ok(true) => work_done(alloc, base, shelf, user, work, out),
        Ok(false) => Err(WorkFault::Unlawful),
        Err(fault) => Err(of_base(fault)),
    }
}

/// Carries out a tree, where it asks for work of the utilities and is fit.
fn tree_done<B: Base, H: Shelf>(
    alloc: Global,
    base: &mut B,
    shelf: &mut H,
    user: &Name,
    given: &Checked,
    out: &mut Outgoing,
) -> Result<Carried, WorkFault>
    requires empty { out.old ≡ [] }
    ensures done { Carries user.now (tree given.now) (span B.database B.schema B.clock B.left_since base.old base.new) (H.files shelf.old) (H.files shelf.new) result }
    ensures frames { IfOk result (λ answer. out.new ≡ out.old ++ frames_of answer) }
    ensures cause { HasWorkCause (B.database base.old) (B.faults base.old) (B.faults base.new) (H.faults shelf.old) (H.faults shelf.new) result }
{
    match given {
        Checked::Utility(work) => fit_done(alloc, base, shelf, user, given, work, out),
        Checked::Answer(_) => Err(WorkFault::Unlawful),
        Checked::Update(_) => Err(WorkFault::Unlawful),
    }
}

/// Lays a change, where it is lawful, whoever asks for it.
fn change_done<B: Base>(
    alloc: Global,
    base: &mut B,
    given: &DbChange,
    out: &mut Outgoing,
) -> Result<Carried, WorkFault>
    ensures done { (user : List ℕ) (files : Option Files) → Carries user (change given.now) (span B.database B.schema B.clock B.left_since base.old base.new) files files result }
    ensures frames { IfOk result (λ answer. out.new ≡ out.old ++ frames_of answer) }
    ensures cause { HasWorkCause (B.database base.old) (B.faults base.old) (B.faults base.new) 0 0 result }
{
    match fit_change(alloc, base, given) {
        Ok(true) => lay(alloc, base, given, out),
        Ok(false) => Err(WorkFault::Unlawful),
        Err(fault) => Err(of_base(fault)),
    }
}

/// Carries out what is in the stage's hands, where it is fit, puts the answer, and hands the base over.
pub(crate) fn carry_out<B: Base, H: Shelf>(
    alloc: Global,
    base: &mut B,
    shelf: &mut H,
    user: &Name,
    at: &At,
    out: &mut Outgoing,
) -> Result<Carried, WorkFault>
    requires holding { IsHolding at.now }
    requires empty { out.old ≡ [] }
    ensures done { CarriesAt user.now at.now (span B.database B.schema B.clock B.left_since base.old base.new) (H.files shelf.old) (H.files shelf.new) result }
    ensures frames { IfOk result (λ answer. out.new ≡ out.old ++ frames_of answer) }
    ensures cause { HasWorkCause (B.database base.old) (B.faults base.old) (B.faults base.new) (H.faults shelf.old) (H.faults shelf.new) result }
{
    match at {
        At::Tree(tree) => tree_done(alloc, base, shelf, user, tree.get(), out),
        At::Change(change) => change_done(alloc, base, change.get(), out),
        At::Idle => unreachable!(),
        At::Ended => unreachable!(),
    }
}
