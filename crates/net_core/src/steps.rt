//! One step of the network.

ghost use Rattle.std.specs.Prelude.{◌≡◌, ◌≤◌, IfOk, IsErrOf, IsOk, OnErr, OnOk};
ghost use Rattle.network_meaning.specs.Calls.{KeepsAll, Moves, join, stage_number};
ghost use Rattle.network_meaning.specs.LocalSteps.{Room as NetworkRoom, Want.work};
ghost use Rattle.network_meaning.specs.MessageNetwork.{StageNumber.first, StageNumber.second, StageNumber.third, StageNumber.fourth};
ghost use Rattle.network_meaning.specs.Network.{is_stuck, want};
ghost use Rattle.network_meaning.specs.Statements.{FinishesInOrder};
ghost use Rattle.net_core.specs.Causes.{IsCaused};
ghost use Rattle.net_core.specs.Crashes.{HandsOver, QuietWithout, StaysDurable, StepCrash, StepLeaves};
ghost use Rattle.net_core.specs.Reads.{ReadsOn, Within};
ghost use Rattle.net_core.specs.Spares.{CountsOnly, LeavesEnds, Spares};
ghost use Rattle.net_core.specs.Steps.{StepDone};
ghost use Rattle.net_core.specs.Known.{FailedStep, KeepsDatabase, Later, outside};
ghost use Rattle.net_core.specs.Wants.{was_blocked};
ghost use Rattle.net_core.specs.Whole.{AllServe, AreNumbered, IsDisorderly, MayNotStep, WroteFront, heard_by, seen, shape, state_at};
ghost use Rattle.quel_network.specs.Quel.{quel};
ghost use Rattle.quel_network.specs.Sorts.{User, quel_sorts};

use crate::fault::WorkFault;
use crate::moving::step_stage;
use crate::net::Net;
use crate::room::Room;
use crate::stage::Stage;
use base_trait::Base;
use fault_io::{Shelf, Sink, Source};
use std::alloc::Global;
use std::collections::VecDeque;

/// What a step came to.
#[derive(Clone, Copy, Debug, PartialEq, Eq)]
pub enum Moved {
    /// The stage took a frame, gave one, or worked.
    Stepped,
    /// The stage has ended, the pipe that it wants to take from is empty, or the one that it wants to
    /// give to is full.
    Blocked,
}

/// Stage k does what it wants next: it takes a frame of a pipe, gives one to a pipe, or works on the room;
/// or it is blocked, and nothing changes.
///
/// Whatever the room tells, a piece of work has its shape. Where the room is known, it is the network's,
/// an orderly network stays orderly, and the bytes in all, those that were written, those of what is on
/// its way and those of the rest of the session, stay the same; after an error a front of them was
/// written. From an orderly network nothing unlawful comes. After an error the network isn't used again.
pub fn net_step<A1: Stage, A2: Stage, A3: Stage, A4: Stage, B: Base, H: Shelf, S: Source, K: Sink>(
    alloc: Global,
    net: &mut Net<A1, A2, A3, A4>,
    room: &mut Room<B, H, S, K>,
    k: u8,
) -> Result<Moved, WorkFault>
    requires low { 1 ≤ k }
    requires high { k ≤ 4 }
    ensures blocked { (r : NetworkRoom quel_sorts) → IfOk result (λ moved. is_stuck net.old.capacity (stage_number k) (join (shape A1.state A2.state A3.state A4.state net.old) r) ≡ was_blocked moved) }
    ensures steps { (user : User) → AllServe A1.serves A2.serves A3.serves A4.serves net.old user → IfOk result (λ moved. Moves (quel user) net.old.capacity (stage_number k) (was_blocked moved)
        (seen (shape A1.state A2.state A3.state A4.state net.old) (outside B.database B.faults B.clock B.reads H.files H.faults S.left S.given S.faults S.ended K.written K.faults K.stalls room.old))
        (seen (shape A1.state A2.state A3.state A4.state net.new) (outside B.database B.faults B.clock B.reads H.files H.faults S.left S.given S.faults S.ended K.written K.faults K.stalls room.new))) }
    ensures failed { (user : User) → AllServe A1.serves A2.serves A3.serves A4.serves net.old user → OnErr result (WroteFront (quel user)
        (seen (shape A1.state A2.state A3.state A4.state net.old) (outside B.database B.faults B.clock B.reads H.files H.faults S.left S.given S.faults S.ended K.written K.faults K.stalls room.old))
        (outside B.database B.faults B.clock B.reads H.files H.faults S.left S.given S.faults S.ended K.written K.faults K.stalls room.new)) }
    ensures part { (user : User) → AllServe A1.serves A2.serves A3.serves A4.serves net.old user → OnErr result (FailedStep (quel user) (state_at (shape A1.state A2.state A3.state A4.state net.old) (stage_number k))
        (outside B.database B.faults B.clock B.reads H.files H.faults S.left S.given S.faults S.ended K.written K.faults K.stalls room.old)
        (outside B.database B.faults B.clock B.reads H.files H.faults S.left S.given S.faults S.ended K.written K.faults K.stalls room.new)) }
    ensures unlawful { (user : User) → AllServe A1.serves A2.serves A3.serves A4.serves net.old user → IsErrOf result WorkFault.Unlawful → MayNotStep (quel user) (stage_number k) (shape A1.state A2.state A3.state A4.state net.old)
        (outside B.database B.faults B.clock B.reads H.files H.faults S.left S.given S.faults S.ended K.written K.faults K.stalls room.old) }
    ensures untouched { (want (state_at (shape A1.state A2.state A3.state A4.state net.old) (stage_number k)) ≡ work → ⊥) →
        outside B.database B.faults B.clock B.reads H.files H.faults S.left S.given S.faults S.ended K.written K.faults K.stalls room.new ≡ outside B.database B.faults B.clock B.reads H.files H.faults S.left S.given S.faults S.ended K.written K.faults K.stalls room.old }
    ensures cause { IsCaused (heard_by A1.heard A2.heard A3.heard A4.heard net.old)
        (outside B.database B.faults B.clock B.reads H.files H.faults S.left S.given S.faults S.ended K.written K.faults K.stalls room.old)
        (outside B.database B.faults B.clock B.reads H.files H.faults S.left S.given S.faults S.ended K.written K.faults K.stalls room.new) result }
    ensures database { OnOk result (KeepsDatabase
        (outside B.database B.faults B.clock B.reads H.files H.faults S.left S.given S.faults S.ended K.written K.faults K.stalls room.old)
        (outside B.database B.faults B.clock B.reads H.files H.faults S.left S.given S.faults S.ended K.written K.faults K.stalls room.new)) }
    ensures later { Later
        (outside B.database B.faults B.clock B.reads H.files H.faults S.left S.given S.faults S.ended K.written K.faults K.stalls room.old)
        (outside B.database B.faults B.clock B.reads H.files H.faults S.left S.given S.faults S.ended K.written K.faults K.stalls room.new) }
    ensures counts { CountsOnly
        (outside B.database B.faults B.clock B.reads H.files H.faults S.left S.given S.faults S.ended K.written K.faults K.stalls room.old)
        (outside B.database B.faults B.clock B.reads H.files H.faults S.left S.given S.faults S.ended K.written K.faults K.stalls room.new) result }
    // Where reading failed nothing was written or stored.
    ensures spares { Spares
        (outside B.database B.faults B.clock B.reads H.files H.faults S.left S.given S.faults S.ended K.written K.faults K.stalls room.old)
        (outside B.database B.faults B.clock B.reads H.files H.faults S.left S.given S.faults S.ended K.written K.faults K.stalls room.new) result }
    // At most one line of the script was read, and only where the monitor reads the script itself; and the
    // end of the source is seen.
    ensures reads { ReadsOn (state_at (shape A1.state A2.state A3.state A4.state net.old) (stage_number k)).mode (heard_by A1.heard A2.heard A3.heard A4.heard net.old) (heard_by A1.heard A2.heard A3.heard A4.heard net.new)
        (outside B.database B.faults B.clock B.reads H.files H.faults S.left S.given S.faults S.ended K.written K.faults K.stalls room.old)
        (outside B.database B.faults B.clock B.reads H.files H.faults S.left S.given S.faults S.ended K.written K.faults K.stalls room.new) (IsErrOf result WorkFault.Source) (IsOk result) }
    // The script is too long exactly where the first stage read more of it than a script may have.
    ensures within { AreNumbered A1.place A2.place A3.place A4.place net.old → Within (A1.heard net.old.one) (A1.heard net.new.one) result }
    // Only the first stage reads the source and writes to the sink.
    ensures ends { AreNumbered A1.place A2.place A3.place A4.place net.old → (stage_number k ≡ first → ⊥) → LeavesEnds (heard_by A1.heard A2.heard A3.heard A4.heard net.old) (heard_by A1.heard A2.heard A3.heard A4.heard net.new)
        (outside B.database B.faults B.clock B.reads H.files H.faults S.left S.given S.faults S.ended K.written K.faults K.stalls room.old)
        (outside B.database B.faults B.clock B.reads H.files H.faults S.left S.given S.faults S.ended K.written K.faults K.stalls room.new) result }
    ensures serve { (user : User) → AllServe A1.serves A2.serves A3.serves A4.serves net.old user → AllServe A1.serves A2.serves A3.serves A4.serves net.new user }
    ensures numbers { AreNumbered A1.place A2.place A3.place A4.place net.old → AreNumbered A1.place A2.place A3.place A4.place net.new }
    ensures capacity { net.new.capacity ≡ net.old.capacity }
    ensures equation { (user : User) → AllServe A1.serves A2.serves A3.serves A4.serves net.old user → OnOk result (KeepsAll (quel user)
        (seen (shape A1.state A2.state A3.state A4.state net.old) (outside B.database B.faults B.clock B.reads H.files H.faults S.left S.given S.faults S.ended K.written K.faults K.stalls room.old))
        (seen (shape A1.state A2.state A3.state A4.state net.new) (outside B.database B.faults B.clock B.reads H.files H.faults S.left S.given S.faults S.ended K.written K.faults K.stalls room.new))) }
    ensures finishes { (user : User) → AllServe A1.serves A2.serves A3.serves A4.serves net.old user → OnOk result (FinishesInOrder (quel user)
        (seen (shape A1.state A2.state A3.state A4.state net.old) (outside B.database B.faults B.clock B.reads H.files H.faults S.left S.given S.faults S.ended K.written K.faults K.stalls room.old))
        (seen (shape A1.state A2.state A3.state A4.state net.new) (outside B.database B.faults B.clock B.reads H.files H.faults S.left S.given S.faults S.ended K.written K.faults K.stalls room.new))) }
    ensures lawful { (user : User) → AllServe A1.serves A2.serves A3.serves A4.serves net.old user → IsErrOf result WorkFault.Unlawful → IsDisorderly (quel user)
        (seen (shape A1.state A2.state A3.state A4.state net.old) (outside B.database B.faults B.clock B.reads H.files H.faults S.left S.given S.faults S.ended K.written K.faults K.stalls room.old)) }
    // Where the room is known, a crash leaves what it might leave before, or the database that this step leaves.
    ensures crash { (user : User) → AllServe A1.serves A2.serves A3.serves A4.serves net.old user → StepLeaves (quel user) (state_at (shape A1.state A2.state A3.state A4.state net.old) (stage_number k))
        (outside B.database B.faults B.clock B.reads H.files H.faults S.left S.given S.faults S.ended K.written K.faults K.stalls room.old)
        (outside B.database B.faults B.clock B.reads H.files H.faults S.left S.given S.faults S.ended K.written K.faults K.stalls room.new) (B.left_since room.old.base) (B.left_since room.new.base) }
    // Where each image stood for the database, after Ok each one stands for that of after.
    ensures durable { OnOk result (StaysDurable
        (outside B.database B.faults B.clock B.reads H.files H.faults S.left S.given S.faults S.ended K.written K.faults K.stalls room.old)
        (outside B.database B.faults B.clock B.reads H.files H.faults S.left S.given S.faults S.ended K.written K.faults K.stalls room.new) (B.left_since room.old.base) (B.left_since room.new.base)) }
    // A stage without the turn neither reads the disk nor writes it.
    ensures quiet { QuietWithout (state_at (shape A1.state A2.state A3.state A4.state net.old) (stage_number k))
        (outside B.database B.faults B.clock B.reads H.files H.faults S.left S.given S.faults S.ended K.written K.faults K.stalls room.old)
        (outside B.database B.faults B.clock B.reads H.files H.faults S.left S.given S.faults S.ended K.written K.faults K.stalls room.new) }
    // A stage that worked and gave the turn away has handed the base over, and asked nothing of it since.
    ensures handed { OnOk result (HandsOver (state_at (shape A1.state A2.state A3.state A4.state net.old) (stage_number k)) (state_at (shape A1.state A2.state A3.state A4.state net.new) (stage_number k)) (B.schema room.new.base) (B.database room.new.base)) }
{
    step_of(alloc, net, room, k)
}

/// Stage k does what it wants next.
fn step_of<A1: Stage, A2: Stage, A3: Stage, A4: Stage, B: Base, H: Shelf, S: Source, K: Sink>(
    alloc: Global,
    net: &mut Net<A1, A2, A3, A4>,
    room: &mut Room<B, H, S, K>,
    k: u8,
) -> Result<Moved, WorkFault>
    requires low { 1 ≤ k }
    requires high { k ≤ 4 }
    ensures done { StepDone net.old.capacity (stage_number k) (shape A1.state A2.state A3.state A4.state net.old) (shape A1.state A2.state A3.state A4.state net.new)
        (outside B.database B.faults B.clock B.reads H.files H.faults S.left S.given S.faults S.ended K.written K.faults K.stalls room.old)
        (outside B.database B.faults B.clock B.reads H.files H.faults S.left S.given S.faults S.ended K.written K.faults K.stalls room.new)
        (heard_by A1.heard A2.heard A3.heard A4.heard net.old) (heard_by A1.heard A2.heard A3.heard A4.heard net.new) (A1.heard net.old.one) (A1.heard net.new.one)
        (AllServe A1.serves A2.serves A3.serves A4.serves net.old) (AllServe A1.serves A2.serves A3.serves A4.serves net.new)
        (AreNumbered A1.place A2.place A3.place A4.place net.old) (AreNumbered A1.place A2.place A3.place A4.place net.new) result }
    ensures crash { StepCrash (AllServe A1.serves A2.serves A3.serves A4.serves net.old) (state_at (shape A1.state A2.state A3.state A4.state net.old) (stage_number k)) (state_at (shape A1.state A2.state A3.state A4.state net.new) (stage_number k))
        (outside B.database B.faults B.clock B.reads H.files H.faults S.left S.given S.faults S.ended K.written K.faults K.stalls room.old)
        (outside B.database B.faults B.clock B.reads H.files H.faults S.left S.given S.faults S.ended K.written K.faults K.stalls room.new) (B.left_since room.old.base) (B.left_since room.new.base) (B.schema room.new.base) result }
    ensures capacity { net.new.capacity ≡ net.old.capacity }
{
    match k {
        1 => step_first(alloc, net, room),
        2 => step_second(alloc, net, room),
        3 => step_third(alloc, net, room),
        _ => step_fourth(alloc, net, room),
    }
}

/// The monitor does what it wants next. To its left it has pipes that are empty and hold nothing.
fn step_first<A1: Stage, A2: Stage, A3: Stage, A4: Stage, B: Base, H: Shelf, S: Source, K: Sink>(
    alloc: Global,
    net: &mut Net<A1, A2, A3, A4>,
    room: &mut Room<B, H, S, K>,
) -> Result<Moved, WorkFault>
    ensures done { StepDone net.old.capacity first (shape A1.state A2.state A3.state A4.state net.old) (shape A1.state A2.state A3.state A4.state net.new)
        (outside B.database B.faults B.clock B.reads H.files H.faults S.left S.given S.faults S.ended K.written K.faults K.stalls room.old)
        (outside B.database B.faults B.clock B.reads H.files H.faults S.left S.given S.faults S.ended K.written K.faults K.stalls room.new)
        (heard_by A1.heard A2.heard A3.heard A4.heard net.old) (heard_by A1.heard A2.heard A3.heard A4.heard net.new) (A1.heard net.old.one) (A1.heard net.new.one)
        (AllServe A1.serves A2.serves A3.serves A4.serves net.old) (AllServe A1.serves A2.serves A3.serves A4.serves net.new)
        (AreNumbered A1.place A2.place A3.place A4.place net.old) (AreNumbered A1.place A2.place A3.place A4.place net.new) result }
    ensures crash { StepCrash (AllServe A1.serves A2.serves A3.serves A4.serves net.old) (state_at (shape A1.state A2.state A3.state A4.state net.old) first) (state_at (shape A1.state A2.state A3.state A4.state net.new) first)
        (outside B.database B.faults B.clock B.reads H.files H.faults S.left S.given S.faults S.ended K.written K.faults K.stalls room.old)
        (outside B.database B.faults B.clock B.reads H.files H.faults S.left S.given S.faults S.ended K.written K.faults K.stalls room.new) (B.left_since room.old.base) (B.left_since room.new.base) (B.schema room.new.base) result }
    ensures capacity { net.new.capacity ≡ net.old.capacity }
{
    let mut left_in = VecDeque::new(alloc);
    let mut left_out = VecDeque::new(alloc);
    step_stage(
        alloc,
        &mut net.one,
        &mut left_in,
        &mut left_out,
        0,
        &mut net.a,
        &mut net.f,
        net.capacity,
        room,
    )
}

/// The parser does what it wants next.
fn step_second<A1: Stage, A2: Stage, A3: Stage, A4: Stage, B: Base, H: Shelf, S: Source, K: Sink>(
    alloc: Global,
    net: &mut Net<A1, A2, A3, A4>,
    room: &mut Room<B, H, S, K>,
) -> Result<Moved, WorkFault>
    ensures done { StepDone net.old.capacity second (shape A1.state A2.state A3.state A4.state net.old) (shape A1.state A2.state A3.state A4.state net.new)
        (outside B.database B.faults B.clock B.reads H.files H.faults S.left S.given S.faults S.ended K.written K.faults K.stalls room.old)
        (outside B.database B.faults B.clock B.reads H.files H.faults S.left S.given S.faults S.ended K.written K.faults K.stalls room.new)
        (heard_by A1.heard A2.heard A3.heard A4.heard net.old) (heard_by A1.heard A2.heard A3.heard A4.heard net.new) (A1.heard net.old.one) (A1.heard net.new.one)
        (AllServe A1.serves A2.serves A3.serves A4.serves net.old) (AllServe A1.serves A2.serves A3.serves A4.serves net.new)
        (AreNumbered A1.place A2.place A3.place A4.place net.old) (AreNumbered A1.place A2.place A3.place A4.place net.new) result }
    ensures crash { StepCrash (AllServe A1.serves A2.serves A3.serves A4.serves net.old) (state_at (shape A1.state A2.state A3.state A4.state net.old) second) (state_at (shape A1.state A2.state A3.state A4.state net.new) second)
        (outside B.database B.faults B.clock B.reads H.files H.faults S.left S.given S.faults S.ended K.written K.faults K.stalls room.old)
        (outside B.database B.faults B.clock B.reads H.files H.faults S.left S.given S.faults S.ended K.written K.faults K.stalls room.new) (B.left_since room.old.base) (B.left_since room.new.base) (B.schema room.new.base) result }
    ensures capacity { net.new.capacity ≡ net.old.capacity }
{
    step_stage(
        alloc,
        &mut net.two,
        &mut net.a,
        &mut net.f,
        net.capacity,
        &mut net.b,
        &mut net.e,
        net.capacity,
        room,
    )
}

/// The query processor does what it wants next.
fn step_third<A1: Stage, A2: Stage, A3: Stage, A4: Stage, B: Base, H: Shelf, S: Source, K: Sink>(
    alloc: Global,
    net: &mut Net<A1, A2, A3, A4>,
    room: &mut Room<B, H, S, K>,
) -> Result<Moved, WorkFault>
    ensures done { StepDone net.old.capacity third (shape A1.state A2.state A3.state A4.state net.old) (shape A1.state A2.state A3.state A4.state net.new)
        (outside B.database B.faults B.clock B.reads H.files H.faults S.left S.given S.faults S.ended K.written K.faults K.stalls room.old)
        (outside B.database B.faults B.clock B.reads H.files H.faults S.left S.given S.faults S.ended K.written K.faults K.stalls room.new)
        (heard_by A1.heard A2.heard A3.heard A4.heard net.old) (heard_by A1.heard A2.heard A3.heard A4.heard net.new) (A1.heard net.old.one) (A1.heard net.new.one)
        (AllServe A1.serves A2.serves A3.serves A4.serves net.old) (AllServe A1.serves A2.serves A3.serves A4.serves net.new)
        (AreNumbered A1.place A2.place A3.place A4.place net.old) (AreNumbered A1.place A2.place A3.place A4.place net.new) result }
    ensures crash { StepCrash (AllServe A1.serves A2.serves A3.serves A4.serves net.old) (state_at (shape A1.state A2.state A3.state A4.state net.old) third) (state_at (shape A1.state A2.state A3.state A4.state net.new) third)
        (outside B.database B.faults B.clock B.reads H.files H.faults S.left S.given S.faults S.ended K.written K.faults K.stalls room.old)
        (outside B.database B.faults B.clock B.reads H.files H.faults S.left S.given S.faults S.ended K.written K.faults K.stalls room.new) (B.left_since room.old.base) (B.left_since room.new.base) (B.schema room.new.base) result }
    ensures capacity { net.new.capacity ≡ net.old.capacity }
{
    step_stage(
        alloc,
        &mut net.three,
        &mut net.b,
        &mut net.e,
        net.capacity,
        &mut net.c,
        &mut net.d,
        net.capacity,
        room,
    )
}

/// The utilities do what they want next. To their right they have pipes that are empty and hold nothing.
fn step_fourth<A1: Stage, A2: Stage, A3: Stage, A4: Stage, B: Base, H: Shelf, S: Source, K: Sink>(
    alloc: Global,
    net: &mut Net<A1, A2, A3, A4>,
    room: &mut Room<B, H, S, K>,
) -> Result<Moved, WorkFault>
    ensures done { StepDone net.old.capacity fourth (shape A1.state A2.state A3.state A4.state net.old) (shape A1.state A2.state A3.state A4.state net.new)
        (outside B.database B.faults B.clock B.reads H.files H.faults S.left S.given S.faults S.ended K.written K.faults K.stalls room.old)
        (outside B.database B.faults B.clock B.reads H.files H.faults S.left S.given S.faults S.ended K.written K.faults K.stalls room.new)
        (heard_by A1.heard A2.heard A3.heard A4.heard net.old) (heard_by A1.heard A2.heard A3.heard A4.heard net.new) (A1.heard net.old.one) (A1.heard net.new.one)
        (AllServe A1.serves A2.serves A3.serves A4.serves net.old) (AllServe A1.serves A2.serves A3.serves A4.serves net.new)
        (AreNumbered A1.place A2.place A3.place A4.place net.old) (AreNumbered A1.place A2.place A3.place A4.place net.new) result }
    ensures crash { StepCrash (AllServe A1.serves A2.serves A3.serves A4.serves net.old) (state_at (shape A1.state A2.state A3.state A4.state net.old) fourth) (state_at (shape A1.state A2.state A3.state A4.state net.new) fourth)
        (outside B.database B.faults B.clock B.reads H.files H.faults S.left S.given S.faults S.ended K.written K.faults K.stalls room.old)
        (outside B.database B.faults B.clock B.reads H.files H.faults S.left S.given S.faults S.ended K.written K.faults K.stalls room.new) (B.left_since room.old.base) (B.left_since room.new.base) (B.schema room.new.base) result }
    ensures capacity { net.new.capacity ≡ net.old.capacity }
{
    let mut right_out = VecDeque::new(alloc);
    let mut right_in = VecDeque::new(alloc);
    step_stage(
        alloc,
        &mut net.four,
        &mut net.c,
        &mut net.d,
        net.capacity,
        &mut right_out,
        &mut right_in,
        0,
        room,
    )
}
