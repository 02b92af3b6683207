//! The process of a stage: all its steps.

ghost use Rattle.std.specs.Prelude.{◌≡◌, IfErr, OnOk};
ghost use Rattle.net_core.specs.Crashes.{StaysDurable};
ghost use Rattle.net_core.specs.LoopFaults.{status_of};
ghost use Rattle.net_core.specs.Reads.{CountsHeard};
ghost use Rattle.net_core.specs.Known.{KeepsDatabase, KeepsScript, Later, outside};
ghost use Rattle.quel_network.specs.Sorts.{User};
ghost use Rattle.net_core.specs.Sides.{sides};
ghost use Rattle.net_core.specs.LoopSteps.{RanWhole};
ghost use Rattle.net_core.specs.WholeLoop.{EndsKept, LoopCounts, LoopDone, LoopWithin};

use crate::incoming::{Incoming, PIECE};
use crate::loop_fault::LoopFault;
use crate::stepping::{Talk, step};
use crate::telling::tell;
use crate::{Moved, Room, Stage};
use base_trait::Base;
use fault_io::{Link, Shelf, Sink, Source};
use std::alloc::Global;

/// The steps of a stage until it has ended, or one fails. They are counted, and end where no more can be.
fn run<T: Stage, I: Source, O: Sink, L: Link, B: Base, H: Shelf, S: Source, K: Sink>(
    alloc: Global,
    stage: &mut T,
    left_in: &mut I,
    left_out: &mut O,
    right: &mut L,
    room: &mut Room<B, H, S, K>,
) -> Result<(), LoopFault>
    ensures done { RanWhole (T.serves stage.old)
        (record { state = T.state stage.old; outside = outside B.database B.faults B.clock B.reads H.files H.faults S.left S.given S.faults S.ended K.written K.faults K.stalls room.old; schema = B.schema room.old.base })
        (T.heard stage.old) (T.state stage.new) (B.schema room.new.base)
        (outside B.database B.faults B.clock B.reads H.files H.faults S.left S.given S.faults S.ended K.written K.faults K.stalls room.old)
        (outside B.database B.faults B.clock B.reads H.files H.faults S.left S.given S.faults S.ended K.written K.faults K.stalls room.new)
        (sides I.left I.faults O.written O.faults O.stalls L.left L.written L.faults L.stalls left_in.old left_out.old right.old)
        (sides I.left I.faults O.written O.faults O.stalls L.left L.written L.faults L.stalls left_in.new left_out.new right.new)
        (B.left_since room.old.base) (B.left_since room.new.base) result }
    ensures database { OnOk result (KeepsDatabase
        (outside B.database B.faults B.clock B.reads H.files H.faults S.left S.given S.faults S.ended K.written K.faults K.stalls room.old)
        (outside B.database B.faults B.clock B.reads H.files H.faults S.left S.given S.faults S.ended K.written K.faults K.stalls room.new)) }
    ensures later { Later
        (outside B.database B.faults B.clock B.reads H.files H.faults S.left S.given S.faults S.ended K.written K.faults K.stalls room.old)
        (outside B.database B.faults B.clock B.reads H.files H.faults S.left S.given S.faults S.ended K.written K.faults K.stalls room.new) }
    ensures heard { KeepsScript (T.heard stage.old) (T.heard stage.new)
        (outside B.database B.faults B.clock B.reads H.files H.faults S.left S.given S.faults S.ended K.written K.faults K.stalls room.old)
        (outside B.database B.faults B.clock B.reads H.files H.faults S.left S.given S.faults S.ended K.written K.faults K.stalls room.new) }
    // Only the first stage reads the source and writes to the sink.
    ensures ends { (T.place stage.old ≡ 1 → ⊥) → EndsKept (T.heard stage.old) (T.heard stage.new)
        (outside B.database B.faults B.clock B.reads H.files H.faults S.left S.given S.faults S.ended K.written K.faults K.stalls room.old)
        (outside B.database B.faults B.clock B.reads H.files H.faults S.left S.given S.faults S.ended K.written K.faults K.stalls room.new) result }
    ensures given { CountsHeard (T.heard stage.old) (T.heard stage.new) (S.given room.old.source) (S.given room.new.source) }
    // The script is too long exactly where more of it was read than a script may have.
    ensures within { LoopWithin (T.heard stage.old) (T.heard stage.new) result }
    // No count of the room rose, unless work failed: then only that which its fault names.
    ensures counts { LoopCounts
        (outside B.database B.faults B.clock B.reads H.files H.faults S.left S.given S.faults S.ended K.written K.faults K.stalls room.old)
        (outside B.database B.faults B.clock B.reads H.files H.faults S.left S.given S.faults S.ended K.written K.faults K.stalls room.new) result }
    // Where each image stood for the database, after Ok each one stands for that of after.
    ensures durable { OnOk result (StaysDurable
        (outside B.database B.faults B.clock B.reads H.files H.faults S.left S.given S.faults S.ended K.written K.faults K.stalls room.old)
        (outside B.database B.faults B.clock B.reads H.files H.faults S.left S.given S.faults S.ended K.written K.faults K.stalls room.new) (B.left_since room.old.base) (B.left_since room.new.base)) }
    ensures serves { (user : User) → T.serves stage.old user → T.serves stage.new user }
    ensures place { T.place stage.new ≡ T.place stage.old }
{
    let mut talk = Talk {
        left: Incoming::new(alloc),
        right: Incoming::new(alloc),
        last: 0,
    };
    let mut buf = [0u8; PIECE];
    let mut made = 0u64;
    'steps: while made < u64::MAX {
        match step(
            alloc, stage, left_in, left_out, right, room, &mut talk, &mut buf,
        )? {
            Moved::Stepped => made += 1,
            Moved::Blocked => return Ok(()),
        }
    }
    Err(LoopFault::Spent)
}

/// A stage as a process of its own, between the streams to and from its left and a link to its right. It
/// does what the stage wants until the stage has ended. The streams are read in pieces of at most 4,096
/// bytes, one at a time, and only while no frame is there that is wanted; nothing is read any more once the
/// stage has ended.
///
/// A fault whose status is neither 3 nor 4 is told to the left by one Fault frame, by every stage but the
/// first; a fault of that write is not answered. The caller closes the link.
pub fn stage_loop<T: Stage, I: Source, O: Sink, L: Link, B: Base, H: Shelf, S: Source, K: Sink>(
    alloc: Global,
    stage: &mut T,
    left_in: &mut I,
    left_out: &mut O,
    right: &mut L,
    room: &mut Room<B, H, S, K>,
) -> Result<(), LoopFault>
    ensures done { LoopDone (T.serves stage.old) (T.place stage.old) (T.heard stage.old) (T.state stage.old) (T.state stage.new) (B.schema room.old.base) (B.schema room.new.base)
        (outside B.database B.faults B.clock B.reads H.files H.faults S.left S.given S.faults S.ended K.written K.faults K.stalls room.old)
        (outside B.database B.faults B.clock B.reads H.files H.faults S.left S.given S.faults S.ended K.written K.faults K.stalls room.new)
        (sides I.left I.faults O.written O.faults O.stalls L.left L.written L.faults L.stalls left_in.old left_out.old right.old)
        (sides I.left I.faults O.written O.faults O.stalls L.left L.written L.faults L.stalls left_in.new left_out.new right.new)
        (B.left_since room.old.base) (B.left_since room.new.base) result }
    ensures database { OnOk result (KeepsDatabase
        (outside B.database B.faults B.clock B.reads H.files H.faults S.left S.given S.faults S.ended K.written K.faults K.stalls room.old)
        (outside B.database B.faults B.clock B.reads H.files H.faults S.left S.given S.faults S.ended K.written K.faults K.stalls room.new)) }
    ensures later { Later
        (outside B.database B.faults B.clock B.reads H.files H.faults S.left S.given S.faults S.ended K.written K.faults K.stalls room.old)
        (outside B.database B.faults B.clock B.reads H.files H.faults S.left S.given S.faults S.ended K.written K.faults K.stalls room.new) }
    ensures heard { KeepsScript (T.heard stage.old) (T.heard stage.new)
        (outside B.database B.faults B.clock B.reads H.files H.faults S.left S.given S.faults S.ended K.written K.faults K.stalls room.old)
        (outside B.database B.faults B.clock B.reads H.files H.faults S.left S.given S.faults S.ended K.written K.faults K.stalls room.new) }
    // Only the first stage reads the source and writes to the sink.
    ensures ends { (T.place stage.old ≡ 1 → ⊥) → EndsKept (T.heard stage.old) (T.heard stage.new)
        (outside B.database B.faults B.clock B.reads H.files H.faults S.left S.given S.faults S.ended K.written K.faults K.stalls room.old)
        (outside B.database B.faults B.clock B.reads H.files H.faults S.left S.given S.faults S.ended K.written K.faults K.stalls room.new) result }
    ensures given { CountsHeard (T.heard stage.old) (T.heard stage.new) (S.given room.old.source) (S.given room.new.source) }
    // The script is too long exactly where more of it was read than a script may have.
    ensures within { LoopWithin (T.heard stage.old) (T.heard stage.new) result }
    // No count of the room rose, unless work failed: then only that which its fault names.
    ensures counts { LoopCounts
        (outside B.database B.faults B.clock B.reads H.files H.faults S.left S.given S.faults S.ended K.written K.faults K.stalls room.old)
        (outside B.database B.faults B.clock B.reads H.files H.faults S.left S.given S.faults S.ended K.written K.faults K.stalls room.new) result }
    // Where each image stood for the database, after Ok each one stands for that of after.
    ensures durable { OnOk result (StaysDurable
        (outside B.database B.faults B.clock B.reads H.files H.faults S.left S.given S.faults S.ended K.written K.faults K.stalls room.old)
        (outside B.database B.faults B.clock B.reads H.files H.faults S.left S.given S.faults S.ended K.written K.faults K.stalls room.new) (B.left_since room.old.base) (B.left_since room.new.base)) }
    // No stage but the first ends with the status of a script that is too long.
    ensures status { (T.place stage.old ≡ 1 → ⊥) → IfErr result (λ fault. status_of fault ≡ 7 → ⊥) }
    ensures serves { (user : User) → T.serves stage.old user → T.serves stage.new user }
    ensures place { T.place stage.new ≡ T.place stage.old }
{
    match run(alloc, stage, left_in, left_out, right, room) {
        Ok(()) => Ok(()),
        Err(fault) => {
            tell(left_out, stage.number(), fault);
            Err(fault)
        }
    }
}
