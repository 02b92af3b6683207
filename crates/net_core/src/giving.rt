//! A stage gives a frame.

ghost use Rattle.std.specs.Prelude.{◌≡◌, IfErr, IfOk};
ghost use Rattle.frame_codec.specs.Frames.{frame_bytes};
ghost use Rattle.frame_codec.specs.declared.frame.Frame.{Frame as FrameOf};
ghost use Rattle.net_core.specs.Wants.{IsToGive};
ghost use Rattle.network_meaning.specs.Calls.{Given};
ghost use Rattle.quel_network.specs.Sorts.{User};
ghost use Rattle.net_core.specs.Sides.{outlet};
ghost use Rattle.net_core.specs.Taking.{Gave};
ghost use Rattle.net_core.specs.declared.loop_fault.LoopFault.TheVariants.{LeftWrite as left_failed, OutOfMemory as no_memory, Right as right_failed};

use crate::loop_fault::LoopFault;
use crate::{Moved, Stage};
use fault_io::{Link, Sink, write_all, write_all_to_link};
use frame_codec::frame_bytes;
use std::alloc::Global;

/// The bytes of the frame that the stage gives.
fn give_bytes<T: Stage>(alloc: Global, stage: &mut T) -> Result<Vec<u8>, LoopFault>
    requires { IsToGive (T.state stage.old) }
    ensures given { IfOk result (λ bytes. (frame : FrameOf) × Given (T.state stage.old) frame (T.state stage.new) × (bytes.items ≡ frame_bytes frame)) }
    ensures memory { IfErr result (λ fault. fault ≡ no_memory) }
    ensures serves { (user : User) → T.serves stage.old user → T.serves stage.new user }
    ensures place { T.place stage.new ≡ T.place stage.old }
    ensures heard { T.heard stage.new ≡ T.heard stage.old }
{
    let frame = stage.give(alloc)?;
    let bytes = frame_bytes(alloc, &frame)?;
    Ok(bytes)
}

/// The stage gives a frame to the left.
pub(crate) fn give_left<T: Stage, O: Sink>(
    alloc: Global,
    stage: &mut T,
    left_out: &mut O,
) -> Result<Moved, LoopFault>
    requires { IsToGive (T.state stage.old) }
    ensures gave { Gave (T.state stage.old) (T.state stage.new) (outlet O.written O.faults O.stalls left_out.old) (outlet O.written O.faults O.stalls left_out.new) left_failed result }
    ensures serves { (user : User) → T.serves stage.old user → T.serves stage.new user }
    ensures place { T.place stage.new ≡ T.place stage.old }
    ensures heard { T.heard stage.new ≡ T.heard stage.old }
{
    let bytes = give_bytes(alloc, stage)?;
    match write_all(left_out, &bytes) {
        Ok(()) => Ok(Moved::Stepped),
        Err(_) => Err(LoopFault::LeftWrite),
    }
}

/// The stage gives a frame to the right.
pub(crate) fn give_right<T: Stage, L: Link>(
    alloc: Global,
    stage: &mut T,
    right: &mut L,
) -> Result<Moved, LoopFault>
    requires { IsToGive (T.state stage.old) }
    ensures gave { Gave (T.state stage.old) (T.state stage.new) (outlet L.written L.faults L.stalls right.old) (outlet L.written L.faults L.stalls right.new) right_failed result }
    ensures left { L.left right.new ≡ L.left right.old }
    ensures serves { (user : User) → T.serves stage.old user → T.serves stage.new user }
    ensures place { T.place stage.new ≡ T.place stage.old }
    ensures heard { T.heard stage.new ≡ T.heard stage.old }
{
    let bytes = give_bytes(alloc, stage)?;
    match write_all_to_link(right, &bytes) {
        Ok(()) => Ok(Moved::Stepped),
        Err(_) => Err(LoopFault::Right),
    }
}
