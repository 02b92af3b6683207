//! One step of a stage between its two sides.

ghost use Rattle.std.specs.Prelude.{◌≡◌, length};
ghost use Rattle.net_core.specs.Crashes.{StepCrash};
ghost use Rattle.net_core.specs.Known.{outside};
ghost use Rattle.quel_network.specs.Sorts.{User};
ghost use Rattle.net_core.specs.Incoming.{IsHeld};
ghost use Rattle.net_core.specs.Sides.{sides};
ghost use Rattle.net_core.specs.LoopSteps.{Goes, Past, RoomKept, StepDone};

use crate::giving::{give_left, give_right};
use crate::incoming::Incoming;
use crate::loop_fault::LoopFault;
use crate::taking::{take_left, take_right};
use crate::working::work_on;
use crate::{Moved, Room, Stage, Want};
use base_trait::Base;
use fault_io::{Link, Shelf, Sink, Source};
use std::alloc::Global;

/// What comes from both sides, and the place of the frame that was taken last.
#[derive(Drop)]
pub(crate) struct Talk {
    pub(crate) left: Incoming,
    pub(crate) right: Incoming,
    pub(crate) last: u64,
}

/// The stage does what it wants next; `Blocked` where it has ended.
pub(crate) fn step<T: Stage, I: Source, O: Sink, L: Link, B: Base, H: Shelf, S: Source, K: Sink>(
    alloc: Global,
    stage: &mut T,
    left_in: &mut I,
    left_out: &mut O,
    right: &mut L,
    room: &mut Room<B, H, S, K>,
    talk: &mut Talk,
    buf: &mut [u8],
) -> Result<Moved, LoopFault>
    requires left { IsHeld talk.old.left }
    requires right { IsHeld talk.old.right }
    requires size { length buf.old ≡ 4096 }
    ensures done { (past : Past)
        → Goes past (record {
          state = T.state stage.old;
          outside = outside B.database B.faults B.clock B.reads H.files H.faults S.left S.given S.faults S.ended K.written K.faults K.stalls room.old;
          schema = B.schema room.old.base;
          sides = sides I.left I.faults O.written O.faults O.stalls L.left L.written L.faults L.stalls left_in.old left_out.old right.old;
          talk = talk.old;
          heard = T.heard stage.old;
        })
        → StepDone (T.serves stage.old) past (record {
          state = T.state stage.old;
          outside = outside B.database B.faults B.clock B.reads H.files H.faults S.left S.given S.faults S.ended K.written K.faults K.stalls room.old;
          schema = B.schema room.old.base;
          sides = sides I.left I.faults O.written O.faults O.stalls L.left L.written L.faults L.stalls left_in.old left_out.old right.old;
          talk = talk.old;
          heard = T.heard stage.old;
        }) (record {
          state = T.state stage.new;
          outside = outside B.database B.faults B.clock B.reads H.files H.faults S.left S.given S.faults S.ended K.written K.faults K.stalls room.new;
          schema = B.schema room.new.base;
          sides = sides I.left I.faults O.written O.faults O.stalls L.left L.written L.faults L.stalls left_in.new left_out.new right.new;
          talk = talk.new;
          heard = T.heard stage.new;
        }) result }
    ensures room { RoomKept (T.place stage.old) (T.heard stage.old) (T.heard stage.new)
        (outside B.database B.faults B.clock B.reads H.files H.faults S.left S.given S.faults S.ended K.written K.faults K.stalls room.old)
        (outside B.database B.faults B.clock B.reads H.files H.faults S.left S.given S.faults S.ended K.written K.faults K.stalls room.new) result }
    ensures crash { StepCrash (T.serves stage.old) (T.state stage.old) (T.state stage.new)
        (outside B.database B.faults B.clock B.reads H.files H.faults S.left S.given S.faults S.ended K.written K.faults K.stalls room.old)
        (outside B.database B.faults B.clock B.reads H.files H.faults S.left S.given S.faults S.ended K.written K.faults K.stalls room.new) (B.left_since room.old.base) (B.left_since room.new.base) (B.schema room.new.base) result }
    ensures serves { (user : User) → T.serves stage.old user → T.serves stage.new user }
    ensures place { T.place stage.new ≡ T.place stage.old }
{
    match stage.want() {
        Want::TakeLeft => {
            talk.last = talk.left.place;
            take_left(alloc, stage, left_in, &mut talk.left, buf)
        }
        Want::TakeRight => {
            talk.last = talk.right.place;
            take_right(alloc, stage, right, &mut talk.right, buf)
        }
        Want::GiveLeft => give_left(alloc, stage, left_out),
        Want::GiveRight => give_right(alloc, stage, right),
        Want::Work => work_on(alloc, stage, room, talk.last),
        Want::Ended => Ok(Moved::Blocked),
    }
}
