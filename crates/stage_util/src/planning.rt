//! Work of the utilities that is no copy.

ghost use Rattle.std.specs.Prelude.{◌≡◌, ◌++◌, false, true, IfOk, Option, Some};
ghost use Rattle.calculus.specs.Database.{Db};
ghost use Rattle.calculus.specs.declared.request.Checked.TheVariants as checked;
ghost use Rattle.fault_io.specs.Files.{Files};
ghost use Rattle.network_meaning.specs.Sorts.{Cargo.tree};
ghost use Rattle.plan_laws.specs.Fitting.{is_copy};
ghost use Rattle.quel_meaning.specs.Fit.{is_fit};
ghost use Rattle.stage_util.specs.Working.{Carries, HasWorkCause, frames_of, span};

use crate::carried::{Carried, refusal};
use crate::faults::of_base;
use crate::laying::{lay, refuse};
use base_trait::Base;
use calculus::{Name, Utility};
use message_codec::Outgoing;
use net_core::WorkFault;
use std::alloc::Global;
use utilities::{UtilFault, plan};

/// Carries out work of the utilities that is no copy.
pub(crate) fn plan_done<B: Base>(
    alloc: Global,
    base: &mut B,
    user: &Name,
    work: &Utility,
    out: &mut Outgoing,
) -> Result<Carried, WorkFault>
    requires copies { is_copy work.now ≡ false }
    requires fits { (db : Db) → B.database base.old ≡ Some db → is_fit db user.now (checked.Utility work.now) ≡ true }
    ensures done { (b : B) (files : Option Files) → B.asked b base.old → Carries user.now (tree (checked.Utility work.now)) (span B.database B.schema B.clock B.left_since b base.new) files files result }
    ensures frames { IfOk result (λ answer. out.new ≡ out.old ++ frames_of answer) }
    ensures cause { HasWorkCause (B.database base.old) (B.faults base.old) (B.faults base.new) 0 0 result }
{
    match plan(alloc, base, user, work) {
        Ok(change) => lay(alloc, base, &change, out),
        Err(UtilFault::No(number)) => refuse(alloc, base, refusal(number), out),
        Err(UtilFault::Base(fault)) => Err(of_base(fault)),
        Err(UtilFault::OutOfMemory) => Err(WorkFault::OutOfMemory),
    }
}
