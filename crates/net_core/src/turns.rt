//! The steps of a list of turns.

ghost use Rattle.std.specs.Prelude.{◌≡◌, ◌≤◌, ◌++◌, ℕ, List, All, IfErr, IsErrOf, IsOk, OnErr, OnOk};
ghost use Rattle.network_meaning.specs.Calls.{KeepsAll, RunsTurns, Seen};
ghost use Rattle.network_meaning.specs.Rounds.{LeadsOn};
ghost use Rattle.network_meaning.specs.Statements.{FinishesInOrder};
ghost use Rattle.net_core.specs.Crashes.{StaysDurable, TurnsLeave};
ghost use Rattle.net_core.specs.Causes.{IsCaused};
ghost use Rattle.net_core.specs.Reads.{CountsHeard, ReadsWhole, SeesEnd, Within};
ghost use Rattle.net_core.specs.Spares.{CountsOnly};
ghost use Rattle.net_core.specs.Known.{KeepsDatabase, KeepsScript, Later, Outside, outside};
ghost use Rattle.net_core.specs.declared.fault.WorkFault.{WorkFault as Fault};
ghost use Rattle.net_core.specs.Whole.{AllServe, AreNumbered, IsDisorderly, StopsAt, WroteFront, heard_by, numbers_by, seen, shape};
ghost use Rattle.quel_network.specs.Quel.{quel};
ghost use Rattle.quel_network.specs.Sorts.{User, quel_sorts};
ghost use Rattle.quel_network.specs.Work.{quel_work};

use crate::fault::WorkFault;
use crate::net::Net;
use crate::room::Room;
use crate::stage::Stage;
use crate::steps::net_step;
use base_trait::Base;
use fault_io::{Shelf, Sink, Source};
use std::alloc::Global;

/// The steps of a list of stage numbers, one after the other.
///
/// Whatever the list is: where the room is known, an orderly network stays orderly, and the bytes in all,
/// those that were written, those of what is on its way and those of the rest of the session, stay the
/// same; after an error a front of them was written. After an error the network isn't used again.
pub fn net_turns<A1: Stage, A2: Stage, A3: Stage, A4: Stage, B: Base, H: Shelf, S: Source, K: Sink>(
    alloc: Global,
    net: &mut Net<A1, A2, A3, A4>,
    room: &mut Room<B, H, S, K>,
    turns: &[u8],
) -> Result<(), WorkFault>
    requires { All (λ k. (1 ≤ k) × (k ≤ 4)) turns.now }
    ensures steps { (user : User) → AllServe A1.serves A2.serves A3.serves A4.serves net.old user → OnOk result (RunsTurns (quel user) net.old.capacity turns.now
        (seen (shape A1.state A2.state A3.state A4.state net.old) (outside B.database B.faults B.clock B.reads H.files H.faults S.left S.given S.faults S.ended K.written K.faults K.stalls room.old))
        (seen (shape A1.state A2.state A3.state A4.state net.new) (outside B.database B.faults B.clock B.reads H.files H.faults S.left S.given S.faults S.ended K.written K.faults K.stalls room.new))) }
    ensures equation { (user : User) → AllServe A1.serves A2.serves A3.serves A4.serves net.old user → OnOk result (KeepsAll (quel user)
        (seen (shape A1.state A2.state A3.state A4.state net.old) (outside B.database B.faults B.clock B.reads H.files H.faults S.left S.given S.faults S.ended K.written K.faults K.stalls room.old))
        (seen (shape A1.state A2.state A3.state A4.state net.new) (outside B.database B.faults B.clock B.reads H.files H.faults S.left S.given S.faults S.ended K.written K.faults K.stalls room.new))) }
    ensures finishes { (user : User) → AllServe A1.serves A2.serves A3.serves A4.serves net.old user → OnOk result (FinishesInOrder (quel user)
        (seen (shape A1.state A2.state A3.state A4.state net.old) (outside B.database B.faults B.clock B.reads H.files H.faults S.left S.given S.faults S.ended K.written K.faults K.stalls room.old))
        (seen (shape A1.state A2.state A3.state A4.state net.new) (outside B.database B.faults B.clock B.reads H.files H.faults S.left S.given S.faults S.ended K.written K.faults K.stalls room.new))) }
    ensures stopped { (user : User) → AllServe A1.serves A2.serves A3.serves A4.serves net.old user → IfErr result (λ fault. StopsAt (quel user) net.old.capacity turns.now (numbers_by A1.place A2.place A3.place A4.place net.old) (heard_by A1.heard A2.heard A3.heard A4.heard net.new)
        (seen (shape A1.state A2.state A3.state A4.state net.old) (outside B.database B.faults B.clock B.reads H.files H.faults S.left S.given S.faults S.ended K.written K.faults K.stalls room.old))
        (outside B.database B.faults B.clock B.reads H.files H.faults S.left S.given S.faults S.ended K.written K.faults K.stalls room.new) fault) }
    ensures failed { (user : User) → AllServe A1.serves A2.serves A3.serves A4.serves net.old user → OnErr result (WroteFront (quel user)
        (seen (shape A1.state A2.state A3.state A4.state net.old) (outside B.database B.faults B.clock B.reads H.files H.faults S.left S.given S.faults S.ended K.written K.faults K.stalls room.old))
        (outside B.database B.faults B.clock B.reads H.files H.faults S.left S.given S.faults S.ended K.written K.faults K.stalls room.new)) }
    ensures lawful { (user : User) → AllServe A1.serves A2.serves A3.serves A4.serves net.old user → IsErrOf result WorkFault.Unlawful → IsDisorderly (quel user)
        (seen (shape A1.state A2.state A3.state A4.state net.old) (outside B.database B.faults B.clock B.reads H.files H.faults S.left S.given S.faults S.ended K.written K.faults K.stalls room.old)) }
    ensures cause { IsCaused (heard_by A1.heard A2.heard A3.heard A4.heard net.old)
        (outside B.database B.faults B.clock B.reads H.files H.faults S.left S.given S.faults S.ended K.written K.faults K.stalls room.old)
        (outside B.database B.faults B.clock B.reads H.files H.faults S.left S.given S.faults S.ended K.written K.faults K.stalls room.new) result }
    ensures database { OnOk result (KeepsDatabase
        (outside B.database B.faults B.clock B.reads H.files H.faults S.left S.given S.faults S.ended K.written K.faults K.stalls room.old)
        (outside B.database B.faults B.clock B.reads H.files H.faults S.left S.given S.faults S.ended K.written K.faults K.stalls room.new)) }
    ensures later { Later
        (outside B.database B.faults B.clock B.reads H.files H.faults S.left S.given S.faults S.ended K.written K.faults K.stalls room.old)
        (outside B.database B.faults B.clock B.reads H.files H.faults S.left S.given S.faults S.ended K.written K.faults K.stalls room.new) }
    ensures heard { KeepsScript (heard_by A1.heard A2.heard A3.heard A4.heard net.old) (heard_by A1.heard A2.heard A3.heard A4.heard net.new)
        (outside B.database B.faults B.clock B.reads H.files H.faults S.left S.given S.faults S.ended K.written K.faults K.stalls room.old)
        (outside B.database B.faults B.clock B.reads H.files H.faults S.left S.given S.faults S.ended K.written K.faults K.stalls room.new) }
    ensures given { CountsHeard (heard_by A1.heard A2.heard A3.heard A4.heard net.old) (heard_by A1.heard A2.heard A3.heard A4.heard net.new) (S.given room.old.source) (S.given room.new.source) }
    // What was read is whole lines, or the source has ended; and a source that has ended stays so.
    ensures over { SeesEnd
        (outside B.database B.faults B.clock B.reads H.files H.faults S.left S.given S.faults S.ended K.written K.faults K.stalls room.old)
        (outside B.database B.faults B.clock B.reads H.files H.faults S.left S.given S.faults S.ended K.written K.faults K.stalls room.new) (IsErrOf result WorkFault.Source) (IsOk result) }
    // The script is too long exactly where the first stage read more of it than a script may have.
    ensures within { AreNumbered A1.place A2.place A3.place A4.place net.old → Within (A1.heard net.old.one) (A1.heard net.new.one) result }
    // With an answer no count of the room rose, and with a fault only its own.
    ensures counts { CountsOnly
        (outside B.database B.faults B.clock B.reads H.files H.faults S.left S.given S.faults S.ended K.written K.faults K.stalls room.old)
        (outside B.database B.faults B.clock B.reads H.files H.faults S.left S.given S.faults S.ended K.written K.faults K.stalls room.new) result }
    // From an orderly network whose room is known all that turns lead to.
    ensures leads { (user : User) → AllServe A1.serves A2.serves A3.serves A4.serves net.old user → OnOk result (LeadsOn (quel user) (quel_work user) net.old.capacity turns.now
        (seen (shape A1.state A2.state A3.state A4.state net.old) (outside B.database B.faults B.clock B.reads H.files H.faults S.left S.given S.faults S.ended K.written K.faults K.stalls room.old))
        (seen (shape A1.state A2.state A3.state A4.state net.new) (outside B.database B.faults B.clock B.reads H.files H.faults S.left S.given S.faults S.ended K.written K.faults K.stalls room.new))) }
    ensures serve { (user : User) → AllServe A1.serves A2.serves A3.serves A4.serves net.old user → AllServe A1.serves A2.serves A3.serves A4.serves net.new user }
    ensures numbers { AreNumbered A1.place A2.place A3.place A4.place net.old → AreNumbered A1.place A2.place A3.place A4.place net.new }
    ensures capacity { net.new.capacity ≡ net.old.capacity }
    // Where the room is known, a crash leaves what it might leave before, or a database that these steps leave.
    ensures crash { (user : User) → AllServe A1.serves A2.serves A3.serves A4.serves net.old user → TurnsLeave (quel user) net.old.capacity turns.now
        (seen (shape A1.state A2.state A3.state A4.state net.old) (outside B.database B.faults B.clock B.reads H.files H.faults S.left S.given S.faults S.ended K.written K.faults K.stalls room.old))
        (B.clock room.old.base) (B.clock room.new.base) (B.left_since room.old.base) (B.left_since room.new.base) }
    // Where each image stood for the database, after Ok each one stands for that of after.
    ensures durable { OnOk result (StaysDurable
        (outside B.database B.faults B.clock B.reads H.files H.faults S.left S.given S.faults S.ended K.written K.faults K.stalls room.old)
        (outside B.database B.faults B.clock B.reads H.files H.faults S.left S.given S.faults S.ended K.written K.faults K.stalls room.new) (B.left_since room.old.base) (B.left_since room.new.base)) }
{
    for k in turns {
        net_step(alloc, net, room, *k)?;
    }
    Ok(())
}

/// Where a list of turns was made and a second list behind it stops, both, one behind the other, stop there,
/// where the first read whole lines or the source didn't fail.
pub fn a_run_stops_behind_another()
    ensures { (user : User) (capacity : ℕ) (first second numbers : List ℕ) (heard : ℕ) (old mid : Seen quel_sorts) (after : Outside) (fault : Fault)
        → RunsTurns (quel user) capacity first old mid → (fault ≡ WorkFault.Source → ReadsWhole old.known.script mid.known.script) → StopsAt (quel user) capacity second numbers heard mid after fault → StopsAt (quel user) capacity (first ++ second) numbers heard old after fault }
{}
