//! What one stage does: at one of its pipes, in the room, and between all its pipes.

ghost use Rattle.std.specs.Prelude.{◌≡◌, ◌∷◌, ℕ, IfErr, IfOk, IsErrOf, IsOk, List, OnErr, OnOk};
ghost use Rattle.frame_codec.specs.declared.frame.Frame.{Frame as FrameOf};
ghost use Rattle.net_core.specs.Causes.{IsCaused, MayNotTake, MayNotWork};
ghost use Rattle.net_core.specs.Crashes.{HandsOver, QuietWithout, StaysDurable, StepCrash, WorkLeaves};
ghost use Rattle.net_core.specs.declared.steps.Moved.TheVariants.{Stepped};
ghost use Rattle.net_core.specs.Faults.{IsOfTaking};
ghost use Rattle.net_core.specs.Pipes.{GaveTo, TookFrom, WasEmpty};
ghost use Rattle.net_core.specs.Reads.{ReadsOn, Within};
ghost use Rattle.net_core.specs.Spares.{CountsOnly, LeavesEnds, Spares};
ghost use Rattle.net_core.specs.Steps.{PipedDone};
ghost use Rattle.net_core.specs.Known.{FailedWork, KeepsDatabase, Later, outside, known};
ghost use Rattle.net_core.specs.Wants.{IsToGive, IsToTake, IsToWork};
ghost use Rattle.network_meaning.specs.Calls.{WorkDone};
ghost use Rattle.quel_network.specs.Quel.{quel};
ghost use Rattle.quel_network.specs.Sorts.{User};

use crate::fault::WorkFault;
use crate::room::Room;
use crate::stage::{Stage, Want};
use crate::steps::Moved;
use base_trait::Base;
use fault_io::{Shelf, Sink, Source};
use frame_codec::Frame;
use std::alloc::Global;
use std::collections::VecDeque;

/// The stage takes the first frame of a pipe, unless this is empty. The frame is moved.
fn take_from<A: Stage>(
    alloc: Global,
    stage: &mut A,
    pipe: &mut VecDeque<Frame>,
) -> Result<Moved, WorkFault>
    requires { IsToTake (A.state stage.old) }
    ensures took { (user : User) → A.serves stage.old user → IfOk result (λ moved. TookFrom (quel user) moved (A.state stage.old) pipe.old.items (A.state stage.new) pipe.new.items) }
    ensures blocked { IfOk result (λ moved. WasEmpty moved pipe.old.items) }
    ensures unlawful { (user : User) → A.serves stage.old user → IsErrOf result WorkFault.Unlawful → (frame : FrameOf) × (later : List FrameOf) × (pipe.old.items ≡ frame ∷ later) × MayNotTake (quel user) (A.state stage.old) frame }
    ensures cause { IfErr result (λ fault. IsOfTaking fault) }
    ensures serves { (user : User) → A.serves stage.old user → A.serves stage.new user }
    ensures place { A.place stage.new ≡ A.place stage.old }
    ensures heard { A.heard stage.new ≡ A.heard stage.old }
{
    let Some(frame) = pipe.pop_front() else {
        return Ok(Moved::Blocked);
    };
    stage.take(alloc, frame)?;
    Ok(Moved::Stepped)
}

/// The stage gives a frame to a pipe, unless this is full. The frame is moved; room for it is made before
/// it is given, so that none is lost.
fn give_to<A: Stage>(
    alloc: Global,
    stage: &mut A,
    pipe: &mut VecDeque<Frame>,
    capacity: usize,
) -> Result<Moved, WorkFault>
    requires { IsToGive (A.state stage.old) }
    ensures gave { IfOk result (λ moved. GaveTo moved capacity (A.state stage.old) pipe.old.items (A.state stage.new) pipe.new.items) }
    ensures kept { OnErr result ((A.state stage.new ≡ A.state stage.old) × (pipe.new.items ≡ pipe.old.items)) }
    ensures cause { OnErr result (IsErrOf result WorkFault.OutOfMemory) }
    ensures serves { (user : User) → A.serves stage.old user → A.serves stage.new user }
    ensures place { A.place stage.new ≡ A.place stage.old }
    ensures heard { A.heard stage.new ≡ A.heard stage.old }
{
    if pipe.len() >= capacity {
        return Ok(Moved::Blocked);
    }
    pipe.reserve(1)?;
    let frame = stage.give(alloc)?;
    pipe.push_back_reserved(frame);
    Ok(Moved::Stepped)
}

/// The stage works on the room.
fn work_on<A: Stage, B: Base, H: Shelf, S: Source, K: Sink>(
    alloc: Global,
    stage: &mut A,
    room: &mut Room<B, H, S, K>,
) -> Result<Moved, WorkFault>
    requires { IsToWork (A.state stage.old) }
    ensures stepped { IfOk result (λ moved. moved ≡ Stepped) }
    ensures works { (user : User) → A.serves stage.old user → OnOk result (WorkDone (quel user) (A.state stage.old) (A.state stage.new)
        (known (outside B.database B.faults B.clock B.reads H.files H.faults S.left S.given S.faults S.ended K.written K.faults K.stalls room.old))
        (known (outside B.database B.faults B.clock B.reads H.files H.faults S.left S.given S.faults S.ended K.written K.faults K.stalls room.new))) }
    ensures failed { (user : User) → A.serves stage.old user → OnErr result (FailedWork (quel user) (A.state stage.old).mode
        (outside B.database B.faults B.clock B.reads H.files H.faults S.left S.given S.faults S.ended K.written K.faults K.stalls room.old)
        (outside B.database B.faults B.clock B.reads H.files H.faults S.left S.given S.faults S.ended K.written K.faults K.stalls room.new)) }
    ensures unlawful { (user : User) → A.serves stage.old user → IsErrOf result WorkFault.Unlawful → MayNotWork (quel user) (A.state stage.old).mode
        (outside B.database B.faults B.clock B.reads H.files H.faults S.left S.given S.faults S.ended K.written K.faults K.stalls room.old) }
    ensures database { OnOk result (KeepsDatabase
        (outside B.database B.faults B.clock B.reads H.files H.faults S.left S.given S.faults S.ended K.written K.faults K.stalls room.old)
        (outside B.database B.faults B.clock B.reads H.files H.faults S.left S.given S.faults S.ended K.written K.faults K.stalls room.new)) }
    ensures later { Later
        (outside B.database B.faults B.clock B.reads H.files H.faults S.left S.given S.faults S.ended K.written K.faults K.stalls room.old)
        (outside B.database B.faults B.clock B.reads H.files H.faults S.left S.given S.faults S.ended K.written K.faults K.stalls room.new) }
    ensures cause { IsCaused (A.heard stage.old)
        (outside B.database B.faults B.clock B.reads H.files H.faults S.left S.given S.faults S.ended K.written K.faults K.stalls room.old)
        (outside B.database B.faults B.clock B.reads H.files H.faults S.left S.given S.faults S.ended K.written K.faults K.stalls room.new) result }
    ensures counts { CountsOnly
        (outside B.database B.faults B.clock B.reads H.files H.faults S.left S.given S.faults S.ended K.written K.faults K.stalls room.old)
        (outside B.database B.faults B.clock B.reads H.files H.faults S.left S.given S.faults S.ended K.written K.faults K.stalls room.new) result }
    ensures spares { Spares
        (outside B.database B.faults B.clock B.reads H.files H.faults S.left S.given S.faults S.ended K.written K.faults K.stalls room.old)
        (outside B.database B.faults B.clock B.reads H.files H.faults S.left S.given S.faults S.ended K.written K.faults K.stalls room.new) result }
    ensures reads { ReadsOn (A.state stage.old).mode (A.heard stage.old) (A.heard stage.new)
        (outside B.database B.faults B.clock B.reads H.files H.faults S.left S.given S.faults S.ended K.written K.faults K.stalls room.old)
        (outside B.database B.faults B.clock B.reads H.files H.faults S.left S.given S.faults S.ended K.written K.faults K.stalls room.new) (IsErrOf result WorkFault.Source) (IsOk result) }
    ensures within { Within (A.heard stage.old) (A.heard stage.new) result }
    ensures ends { (A.place stage.old ≡ 1 → ⊥) → LeavesEnds (A.heard stage.old) (A.heard stage.new)
        (outside B.database B.faults B.clock B.reads H.files H.faults S.left S.given S.faults S.ended K.written K.faults K.stalls room.old)
        (outside B.database B.faults B.clock B.reads H.files H.faults S.left S.given S.faults S.ended K.written K.faults K.stalls room.new) result }
    ensures handed { OnOk result (HandsOver (A.state stage.old) (A.state stage.new) (B.schema room.new.base) (B.database room.new.base)) }
    ensures crash { (user : User) → A.serves stage.old user → WorkLeaves (quel user) (A.state stage.old).mode
        (outside B.database B.faults B.clock B.reads H.files H.faults S.left S.given S.faults S.ended K.written K.faults K.stalls room.old)
        (outside B.database B.faults B.clock B.reads H.files H.faults S.left S.given S.faults S.ended K.written K.faults K.stalls room.new) (B.left_since room.old.base) (B.left_since room.new.base) }
    ensures durable { OnOk result (StaysDurable
        (outside B.database B.faults B.clock B.reads H.files H.faults S.left S.given S.faults S.ended K.written K.faults K.stalls room.old)
        (outside B.database B.faults B.clock B.reads H.files H.faults S.left S.given S.faults S.ended K.written K.faults K.stalls room.new) (B.left_since room.old.base) (B.left_since room.new.base)) }
    ensures quiet { QuietWithout (A.state stage.old)
        (outside B.database B.faults B.clock B.reads H.files H.faults S.left S.given S.faults S.ended K.written K.faults K.stalls room.old)
        (outside B.database B.faults B.clock B.reads H.files H.faults S.left S.given S.faults S.ended K.written K.faults K.stalls room.new) }
    ensures serves { (user : User) → A.serves stage.old user → A.serves stage.new user }
    ensures place { A.place stage.new ≡ A.place stage.old }
{
    stage.work(alloc, room)?;
    Ok(Moved::Stepped)
}

/// A stage between its pipes does what it wants next. So many frames the pipe to its left holds, and the
/// one to its right.
pub(crate) fn step_stage<A: Stage, B: Base, H: Shelf, S: Source, K: Sink>(
    alloc: Global,
    stage: &mut A,
    left_in: &mut VecDeque<Frame>,
    left_out: &mut VecDeque<Frame>,
    left: usize,
    right_out: &mut VecDeque<Frame>,
    right_in: &mut VecDeque<Frame>,
    right: usize,
    room: &mut Room<B, H, S, K>,
) -> Result<Moved, WorkFault>
    ensures done { PipedDone left right
        (record { stage = A.state stage.old; left_in = left_in.old.items; left_out = left_out.old.items; right_out = right_out.old.items; right_in = right_in.old.items })
        (record { stage = A.state stage.new; left_in = left_in.new.items; left_out = left_out.new.items; right_out = right_out.new.items; right_in = right_in.new.items })
        (outside B.database B.faults B.clock B.reads H.files H.faults S.left S.given S.faults S.ended K.written K.faults K.stalls room.old)
        (outside B.database B.faults B.clock B.reads H.files H.faults S.left S.given S.faults S.ended K.written K.faults K.stalls room.new)
        (A.heard stage.old) (A.heard stage.new) (A.place stage.old) (A.place stage.new) (A.serves stage.old) (A.serves stage.new) result }
    ensures crash { StepCrash (A.serves stage.old) (A.state stage.old) (A.state stage.new)
        (outside B.database B.faults B.clock B.reads H.files H.faults S.left S.given S.faults S.ended K.written K.faults K.stalls room.old)
        (outside B.database B.faults B.clock B.reads H.files H.faults S.left S.given S.faults S.ended K.written K.faults K.stalls room.new) (B.left_since room.old.base) (B.left_since room.new.base) (B.schema room.new.base) result }
{
    match stage.want() {
        Want::TakeLeft => take_from(alloc, stage, left_in),
        Want::TakeRight => take_from(alloc, stage, right_in),
        Want::GiveLeft => give_to(alloc, stage, left_out, left),
        Want::GiveRight => give_to(alloc, stage, right_out, right),
        Want::Work => work_on(alloc, stage, room),
        Want::Ended => Ok(Moved::Blocked),
    }
}
