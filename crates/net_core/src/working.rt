//! A stage works.

ghost use Rattle.std.specs.Prelude.{◌≡◌, OnOk};
ghost use Rattle.net_core.specs.Crashes.{HandsOver, QuietWithout, StaysDurable, WorkLeaves};
ghost use Rattle.net_core.specs.Reads.{CountsHeard};
ghost use Rattle.net_core.specs.Known.{KeepsDatabase, KeepsScript, Later, outside};
ghost use Rattle.net_core.specs.Wants.{IsToWork};
ghost use Rattle.quel_network.specs.Quel.{quel};
ghost use Rattle.quel_network.specs.Sorts.{User};
ghost use Rattle.net_core.specs.Taking.{Worked};
ghost use Rattle.net_core.specs.WholeLoop.{EndsKept, LoopCounts, LoopWithin};

use crate::loop_fault::LoopFault;
use crate::{Moved, Room, Stage, WorkFault};
use base_trait::Base;
use fault_io::{Shelf, Sink, Source};
use std::alloc::Global;

/// The stage works on the room. What isn't fit came with the last frame that was taken, which begins at
/// this place.
pub(crate) fn work_on<T: Stage, B: Base, H: Shelf, S: Source, K: Sink>(
    alloc: Global,
    stage: &mut T,
    room: &mut Room<B, H, S, K>,
    last: u64,
) -> Result<Moved, LoopFault>
    requires { IsToWork (T.state stage.old) }
    ensures worked { Worked (T.serves stage.old) (T.heard stage.old) (T.state stage.old) (T.state stage.new)
        (outside B.database B.faults B.clock B.reads H.files H.faults S.left S.given S.faults S.ended K.written K.faults K.stalls room.old)
        (outside B.database B.faults B.clock B.reads H.files H.faults S.left S.given S.faults S.ended K.written K.faults K.stalls room.new) (B.schema room.new.base) last result }
    ensures database { OnOk result (KeepsDatabase
        (outside B.database B.faults B.clock B.reads H.files H.faults S.left S.given S.faults S.ended K.written K.faults K.stalls room.old)
        (outside B.database B.faults B.clock B.reads H.files H.faults S.left S.given S.faults S.ended K.written K.faults K.stalls room.new)) }
    ensures later { Later
        (outside B.database B.faults B.clock B.reads H.files H.faults S.left S.given S.faults S.ended K.written K.faults K.stalls room.old)
        (outside B.database B.faults B.clock B.reads H.files H.faults S.left S.given S.faults S.ended K.written K.faults K.stalls room.new) }
    ensures heard { KeepsScript (T.heard stage.old) (T.heard stage.new)
        (outside B.database B.faults B.clock B.reads H.files H.faults S.left S.given S.faults S.ended K.written K.faults K.stalls room.old)
        (outside B.database B.faults B.clock B.reads H.files H.faults S.left S.given S.faults S.ended K.written K.faults K.stalls room.new) }
    // Only the first stage reads the source and writes to the sink.
    ensures ends { (T.place stage.old ≡ 1 → ⊥) → EndsKept (T.heard stage.old) (T.heard stage.new)
        (outside B.database B.faults B.clock B.reads H.files H.faults S.left S.given S.faults S.ended K.written K.faults K.stalls room.old)
        (outside B.database B.faults B.clock B.reads H.files H.faults S.left S.given S.faults S.ended K.written K.faults K.stalls room.new) result }
    ensures given { CountsHeard (T.heard stage.old) (T.heard stage.new) (S.given room.old.source) (S.given room.new.source) }
    ensures within { LoopWithin (T.heard stage.old) (T.heard stage.new) result }
    ensures counts { LoopCounts
        (outside B.database B.faults B.clock B.reads H.files H.faults S.left S.given S.faults S.ended K.written K.faults K.stalls room.old)
        (outside B.database B.faults B.clock B.reads H.files H.faults S.left S.given S.faults S.ended K.written K.faults K.stalls room.new) result }
    ensures handed { OnOk result (HandsOver (T.state stage.old) (T.state stage.new) (B.schema room.new.base) (B.database room.new.base)) }
    ensures crash { (user : User) → T.serves stage.old user → WorkLeaves (quel user) (T.state stage.old).mode
        (outside B.database B.faults B.clock B.reads H.files H.faults S.left S.given S.faults S.ended K.written K.faults K.stalls room.old)
        (outside B.database B.faults B.clock B.reads H.files H.faults S.left S.given S.faults S.ended K.written K.faults K.stalls room.new) (B.left_since room.old.base) (B.left_since room.new.base) }
    ensures durable { OnOk result (StaysDurable
        (outside B.database B.faults B.clock B.reads H.files H.faults S.left S.given S.faults S.ended K.written K.faults K.stalls room.old)
        (outside B.database B.faults B.clock B.reads H.files H.faults S.left S.given S.faults S.ended K.written K.faults K.stalls room.new) (B.left_since room.old.base) (B.left_since room.new.base)) }
    ensures quiet { QuietWithout (T.state stage.old)
        (outside B.database B.faults B.clock B.reads H.files H.faults S.left S.given S.faults S.ended K.written K.faults K.stalls room.old)
        (outside B.database B.faults B.clock B.reads H.files H.faults S.left S.given S.faults S.ended K.written K.faults K.stalls room.new) }
    ensures serves { (user : User) → T.serves stage.old user → T.serves stage.new user }
    ensures place { T.place stage.new ≡ T.place stage.old }
{
    match stage.work(alloc, room) {
        Ok(()) => Ok(Moved::Stepped),
        Err(WorkFault::Unlawful) => Err(LoopFault::BadFrame { at: last }),
        Err(fault) => Err(LoopFault::Work(fault)),
    }
}
