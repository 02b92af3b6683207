//! How a piece of work ends: a change is laid, a refusal is answered, or nothing is left to do. The answer
//! is put first, since behind a change nothing may fail; and the base is handed over, since the answer
//! carries the turn.

ghost use Rattle.std.specs.Prelude.{◌≡◌, ◌++◌, IfOk, Some};
ghost use Rattle.calculus.specs.Change.{IsLawful};
ghost use Rattle.calculus.specs.Database.{Db};
ghost use Rattle.message_codec.specs.Messages.{IsMessageOf};
ghost use Rattle.network_meaning.specs.Sorts.{Message.said, Reply.refused, Said.replied};
ghost use Rattle.stage_util.specs.Laying.{Lays, Refuses};
ghost use Rattle.stage_util.specs.Working.{HandedOver, HasWorkCause, frames_of, span};
ghost use Rattle.stage_util.specs.declared.carried.Carried.TheVariants.{Done};

use crate::carried::Carried;
use crate::faults::of_base;
use base_trait::Base;
use calculus::{DbChange, Refusal};
use frame_codec::Message;
use memory::OutOfMemory;
use message_codec::{Outgoing, done_message, refusal_message};
use net_core::WorkFault;
use std::alloc::Global;

/// Puts the answer that all was carried out.
#[tactic(auto, using(crate::proofs::Replies::done_frames))]
pub(crate) fn put_done(alloc: Global, out: &mut Outgoing) -> Result<Carried, OutOfMemory>
    ensures frames { IfOk result (λ answer. out.new ≡ out.old ++ frames_of answer) }
    ensures done { IfOk result (λ answer. answer ≡ Done) }
{
    match out.put(done_message(alloc)) {
        Ok(()) => Ok(Carried::Done),
        Err(short) => Err(short),
    }
}

/// Applies a lawful change, whose answer was put, and hands the base over.
fn apply<B: Base>(
    alloc: Global,
    base: &mut B,
    change: &DbChange,
    answer: Carried,
) -> Result<Carried, WorkFault>
    requires lawful { (db : Db) → B.database base.old ≡ Some db → IsLawful db change.now }
    requires is_done { answer ≡ Done }
    ensures done { (b : B) → B.asked b base.old → Lays change.now (span B.database B.schema B.clock B.left_since b base.new) result }
    ensures same { IfOk result (λ given. given ≡ answer) }
    ensures cause { HasWorkCause (B.database base.old) (B.faults base.old) (B.faults base.new) 0 0 result }
{
    match base.apply(alloc, change) {
        Ok(()) => {
            base.hand_over();
            Ok(answer)
        }
        Err(fault) => Err(of_base(fault)),
    }
}

/// Lays a lawful change, and hands the base over.
pub(crate) fn lay<B: Base>(
    alloc: Global,
    base: &mut B,
    change: &DbChange,
    out: &mut Outgoing,
) -> Result<Carried, WorkFault>
    requires { (db : Db) → B.database base.old ≡ Some db → IsLawful db change.now }
    ensures done { (b : B) → B.asked b base.old → Lays change.now (span B.database B.schema B.clock B.left_since b base.new) result }
    ensures frames { IfOk result (λ answer. out.new ≡ out.old ++ frames_of answer) }
    ensures cause { HasWorkCause (B.database base.old) (B.faults base.old) (B.faults base.new) 0 0 result }
{
    match put_done(alloc, out) {
        Ok(answer) => apply(alloc, base, change, answer),
        Err(_) => Err(WorkFault::OutOfMemory),
    }
}

/// Puts the message of a refusal, and hands the base over.
fn put_refusal<B: Base>(
    base: &mut B,
    refusal: Refusal,
    message: Message,
    out: &mut Outgoing,
) -> Result<Carried, WorkFault>
    requires is { IsMessageOf (said (replied (refused refusal))) message.kind message.bytes }
    requires kind { message.kind ≡ 7 }
    ensures refused { (b : B) → B.asked b base.old → Refuses refusal (span B.database B.schema B.clock B.left_since b base.new) result }
    ensures frames { IfOk result (λ answer. out.new ≡ out.old ++ frames_of answer) }
    ensures faults { B.faults base.new ≡ B.faults base.old }
{
    match out.put(message) {
        Ok(()) => {
            base.hand_over();
            Ok(Carried::Refused(refusal))
        }
        Err(_) => Err(WorkFault::OutOfMemory),
    }
}

/// Answers a refusal, and hands the base over; unlawful where no refusal has its number.
pub(crate) fn refuse<B: Base>(
    alloc: Global,
    base: &mut B,
    refusal: Refusal,
    out: &mut Outgoing,
) -> Result<Carried, WorkFault>
    ensures refused { (b : B) → B.asked b base.old → Refuses refusal (span B.database B.schema B.clock B.left_since b base.new) result }
    ensures frames { IfOk result (λ answer. out.new ≡ out.old ++ frames_of answer) }
    ensures faults { B.faults base.new ≡ B.faults base.old }
{
    match refusal_message(alloc, refusal) {
        Ok(Some(message)) => put_refusal(base, refusal, message, out),
        Ok(None) => Err(WorkFault::Unlawful),
        Err(_) => Err(WorkFault::OutOfMemory),
    }
}

/// Hands a base over that was not changed.
pub(crate) fn hand_over<B: Base>(base: &mut B)
    ensures kept { (b : B) → B.asked b base.old → HandedOver (span B.database B.schema B.clock B.left_since b base.new) }
    ensures faults { B.faults base.new ≡ B.faults base.old }
{
    base.hand_over();
}
