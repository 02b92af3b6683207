//! A stage takes a frame.

ghost use Rattle.std.specs.Prelude.{◌≡◌, ◌≤◌, ◌↔◌, ℕ, Contains, IfNone, IfSome, IsErrOf, IsTrue, List, OnOk, length};
ghost use Rattle.fault_io.specs.Causes.{Rose};
ghost use Rattle.frame_codec.specs.declared.frame.Frame.{Frame as FrameOf};
ghost use Rattle.net_core.specs.Wants.{IsToTake};
ghost use Rattle.quel_network.specs.Sorts.{User};
ghost use Rattle.net_core.specs.LoopFaults.{IsPlain, fault_frame, told_statuses};
ghost use Rattle.net_core.specs.Incoming.{Holds, IsHeld};
ghost use Rattle.net_core.specs.Taking.{TakeDone, TookFrame};
ghost use Rattle.net_core.specs.declared.loop_fault.LoopFault.TheVariants.{LeftRead as left_failed, Right as right_failed};

use crate::incoming::Incoming;
use crate::loop_fault::LoopFault;
use crate::{Moved, Stage, TakeFault};
use fault_io::{Link, Source};
use frame_codec::Frame;
use std::alloc::Global;

/// The kind of a Fault frame.
const FAULT: u8 = 9;

/// The statuses that a Fault frame tells.
const STATUSES: [u8; 7] = [2, 5, 6, 8, 9, 10, 11];

/// Whether a Fault frame tells this status.
fn is_told(status: u8) -> bool
    ensures { IsTrue result ↔ Contains told_statuses status }
{
    STATUSES.contains(&status)
}

/// The status that a Fault frame tells.
fn known_by(frame: &Frame) -> Option<u8>
    ensures known { IfSome result (λ status. frame.now ≡ fault_frame status) }
    ensures status { IfSome result (λ status. Contains told_statuses status) }
    ensures plain { IfNone result (IsPlain frame.now) }
{
    if frame.kind != FAULT {
        return None;
    }
    match frame.payload.items() {
        [status] => {
            if is_told(*status) {
                Some(*status)
            } else {
                None
            }
        }
        _ => None,
    }
}

/// The stage takes a frame that begins at this place.
fn take_frame<T: Stage>(
    alloc: Global,
    stage: &mut T,
    frame: Frame,
    at: u64,
) -> Result<Moved, LoopFault>
    requires { IsToTake (T.state stage.old) }
    ensures took { TookFrame (T.serves stage.old) (T.state stage.old) frame (T.state stage.new) at result }
    ensures serves { (user : User) → T.serves stage.old user → T.serves stage.new user }
    ensures place { T.place stage.new ≡ T.place stage.old }
    ensures heard { T.heard stage.new ≡ T.heard stage.old }
{
    match stage.take(alloc, frame) {
        Ok(()) => Ok(Moved::Stepped),
        Err(TakeFault::Unlawful) => Err(LoopFault::BadFrame { at }),
        Err(TakeFault::OutOfMemory) => Err(LoopFault::OutOfMemory),
    }
}

/// The stage takes the next frame from the left.
pub(crate) fn take_left<T: Stage, I: Source>(
    alloc: Global,
    stage: &mut T,
    left_in: &mut I,
    left: &mut Incoming,
    buf: &mut [u8],
) -> Result<Moved, LoopFault>
    requires wants { IsToTake (T.state stage.old) }
    requires held { IsHeld left.old }
    requires size { length buf.old ≡ 4096 }
    ensures taken { (taken : List FrameOf) (bytes : List ℕ) → Holds taken bytes left.old → TakeDone (T.serves stage.old) (T.state stage.old) (T.state stage.new) taken bytes (I.left left_in.old) (I.left left_in.new) left_failed left.new result }
    ensures later { I.faults left_in.old ≤ I.faults left_in.new }
    ensures failed { IsErrOf result LoopFault.LeftRead → Rose (I.faults left_in.old) (I.faults left_in.new) }
    ensures answered { OnOk result (I.faults left_in.new ≡ I.faults left_in.old) }
    ensures serves { (user : User) → T.serves stage.old user → T.serves stage.new user }
    ensures place { T.place stage.new ≡ T.place stage.old }
    ensures heard { T.heard stage.new ≡ T.heard stage.old }
{
    let at = left.place;
    let frame = left.next_left(left_in, buf)?;
    take_frame(alloc, stage, frame, at)
}

/// The stage takes the next frame from the right, unless this tells a status.
pub(crate) fn take_right<T: Stage, L: Link>(
    alloc: Global,
    stage: &mut T,
    link: &mut L,
    right: &mut Incoming,
    buf: &mut [u8],
) -> Result<Moved, LoopFault>
    requires wants { IsToTake (T.state stage.old) }
    requires held { IsHeld right.old }
    requires size { length buf.old ≡ 4096 }
    ensures taken { (taken : List FrameOf) (bytes : List ℕ) → Holds taken bytes right.old → TakeDone (T.serves stage.old) (T.state stage.old) (T.state stage.new) taken bytes (L.left link.old) (L.left link.new) right_failed right.new result }
    ensures written { L.written link.new ≡ L.written link.old }
    ensures stalls { L.stalls link.new ≡ L.stalls link.old }
    ensures later { L.faults link.old ≤ L.faults link.new }
    ensures failed { IsErrOf result LoopFault.Right → Rose (L.faults link.old) (L.faults link.new) }
    ensures answered { OnOk result (L.faults link.new ≡ L.faults link.old) }
    ensures serves { (user : User) → T.serves stage.old user → T.serves stage.new user }
    ensures place { T.place stage.new ≡ T.place stage.old }
    ensures heard { T.heard stage.new ≡ T.heard stage.old }
{
    let at = right.place;
    let frame = right.next_right(link, buf)?;
    match known_by(&frame) {
        Some(status) => Err(LoopFault::Told(status)),
        None => take_frame(alloc, stage, frame, at),
    }
}
