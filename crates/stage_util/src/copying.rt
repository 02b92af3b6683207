//! Copies between a relation and a file.

ghost use Rattle.std.specs.Prelude.{◌≡◌, ◌++◌, [], false, true, IfOk, Some};
ghost use Rattle.calculus.specs.Database.{Db};
ghost use Rattle.calculus.specs.declared.request.Checked.TheVariants as checked;
ghost use Rattle.copy_util.specs.Copies.{IsCopy};
ghost use Rattle.network_meaning.specs.Sorts.{Cargo.tree};
ghost use Rattle.quel_meaning.specs.Fit.{is_fit};
ghost use Rattle.stage_util.specs.Copying.{NotCopied};
ghost use Rattle.stage_util.specs.Working.{Carries, HasWorkCause, frames_of, span};

use crate::carried::{Carried, bad_row, refusal};
use crate::faults::of_base;
use crate::laying::{hand_over, lay, put_done, refuse};
use base_trait::Base;
use calculus::refusals::NO_FILE;
use calculus::{Name, Utility};
use copy_util::{CopyFault, copy_from, copy_into};
use fault_io::Shelf;
use message_codec::Outgoing;
use net_core::WorkFault;
use std::alloc::Global;

/// Answers why a copy is not made, or fails.
fn not_copied<B: Base>(
    alloc: Global,
    base: &mut B,
    fault: CopyFault,
    out: &mut Outgoing,
) -> Result<Carried, WorkFault>
    ensures not_copied { (b : B) → B.asked b base.old → NotCopied fault (span B.database B.schema B.clock B.left_since b base.new) result }
    ensures frames { IfOk result (λ answer. out.new ≡ out.old ++ frames_of answer) }
    ensures faults { B.faults base.new ≡ B.faults base.old }
{
    match fault {
        CopyFault::No(number) => refuse(alloc, base, refusal(number), out),
        CopyFault::BadRow { row } => refuse(alloc, base, bad_row(row), out),
        CopyFault::NoFile => refuse(alloc, base, refusal(NO_FILE), out),
        CopyFault::Shelf => Err(WorkFault::Shelf),
        CopyFault::Base(fault) => Err(of_base(fault)),
        CopyFault::OutOfMemory => Err(WorkFault::OutOfMemory),
    }
}

/// Copies rows from a file into a relation.
pub(crate) fn copy_from_done<B: Base, H: Shelf>(
    alloc: Global,
    base: &mut B,
    shelf: &mut H,
    user: &Name,
    work: &Utility,
    out: &mut Outgoing,
) -> Result<Carried, WorkFault>
    requires copies { IsCopy work.now true }
    requires fits { (db : Db) → B.database base.old ≡ Some db → is_fit db user.now (checked.Utility work.now) ≡ true }
    ensures done { (b : B) → B.asked b base.old → Carries user.now (tree (checked.Utility work.now)) (span B.database B.schema B.clock B.left_since b base.new) (H.files shelf.old) (H.files shelf.new) result }
    ensures frames { IfOk result (λ answer. out.new ≡ out.old ++ frames_of answer) }
    ensures cause { HasWorkCause (B.database base.old) (B.faults base.old) (B.faults base.new) (H.faults shelf.old) (H.faults shelf.new) result }
{
    match copy_from(alloc, base, shelf, user, work) {
        Ok(change) => lay(alloc, base, &change, out),
        Err(fault) => not_copied(alloc, base, fault, out),
    }
}

/// Copies the rows of a relation into a file. The answer is made before, so that memory isn't wanting once
/// the file is stored.
pub(crate) fn copy_into_done<B: Base, H: Shelf>(
    alloc: Global,
    base: &mut B,
    shelf: &mut H,
    user: &Name,
    work: &Utility,
    out: &mut Outgoing,
) -> Result<Carried, WorkFault>
    requires copies { IsCopy work.now false }
    requires fits { (db : Db) → B.database base.old ≡ Some db → is_fit db user.now (checked.Utility work.now) ≡ true }
    requires empty { out.old ≡ [] }
    ensures done { (b : B) → B.asked b base.old → Carries user.now (tree (checked.Utility work.now)) (span B.database B.schema B.clock B.left_since b base.new) (H.files shelf.old) (H.files shelf.new) result }
    ensures frames { IfOk result (λ answer. out.new ≡ out.old ++ frames_of answer) }
    ensures cause { HasWorkCause (B.database base.old) (B.faults base.old) (B.faults base.new) (H.faults shelf.old) (H.faults shelf.new) result }
{
    match put_done(alloc, out) {
        Ok(answer) => match copy_into(alloc, base, shelf, user, work) {
            Ok(()) => {
                hand_over(base);
                Ok(answer)
            }
            Err(fault) => {
                *out = Outgoing::new(alloc);
                not_copied(alloc, base, fault, out)
            }
        },
        Err(_) => Err(WorkFault::OutOfMemory),
    }
}
