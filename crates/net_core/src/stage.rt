//! What a stage is.

ghost use Rattle.std.specs.Prelude.{◌≡◌, ◌≤◌, ℕ, OnOk, OnErr, IfOk, IsErrOf, IsOk, IsTrue};
ghost use Rattle.frame_codec.specs.Frames.{is_lawful};
ghost use Rattle.network_meaning.specs.Calls.{Given, Taken, WorkDone};
ghost use Rattle.network_meaning.specs.Network.{LocalState, want};
ghost use Rattle.net_core.specs.Causes.{IsCaused, MayNotTake, MayNotWork};
ghost use Rattle.net_core.specs.Crashes.{HandsOver, QuietWithout, StaysDurable, WorkLeaves};
ghost use Rattle.net_core.specs.Reads.{ReadsOn, Within};
ghost use Rattle.net_core.specs.Spares.{CountsOnly, LeavesEnds, Spares};
ghost use Rattle.net_core.specs.Known.{FailedWork, KeepsDatabase, Later, outside, known};
ghost use Rattle.net_core.specs.Wants.{IsToGive, IsToTake, IsToWork, wish};
ghost use Rattle.quel_network.specs.Quel.{quel};
ghost use Rattle.quel_network.specs.Sorts.{User, quel_sorts};

use crate::fault::{TakeFault, WorkFault};
use crate::room::Room;
use base_trait::Base;
use fault_io::{Shelf, Sink, Source};
use frame_codec::Frame;
use memory::OutOfMemory;
use std::alloc::Global;

/// What a stage does next.
#[derive(Clone, Copy, Debug, PartialEq, Eq)]
pub enum Want {
    /// It takes a frame from its left.
    TakeLeft,
    /// It takes a frame from its right.
    TakeRight,
    /// It gives a frame to its left.
    GiveLeft,
    /// It gives a frame to its right.
    GiveRight,
    /// It works on the room.
    Work,
    /// Nothing any more.
    Ended,
}

/// One of the four stages: the monitor, the parser, the query processor or the utilities.
///
/// What it does is what the local steps of the network are for the users whom it serves. Whom it serves
/// is what it was made for: the monitor serves everyone.
pub trait Stage {
    /// Where it stands, with what it has taken in part and is still to give.
    ghost state: { Self → LocalState quel_sorts };

    /// It does what the stages of this user do.
    ghost serves: { Self → User → Type 0 };

    /// Which of the four stages it is, 1 to 4.
    ghost place: { Self → ℕ };

    /// How many bytes of the script it has read.
    ghost heard: { Self → ℕ };

    /// Which of the four stages it is: 1 the monitor, 2 the parser, 3 the query processor, 4 the utilities.
    fn number(&self) -> u8
        ensures { result ≡ place self.now };

    /// What it does next. Takes no memory.
    fn want(&self) -> Want
        ensures { wish result ≡ want (state self.now) };

    /// Takes a frame from the side from which it wants one. A frame that may not come is refused as
    /// unlawful, by its kind, its length or its message. After an error it is as it was.
    fn take(&mut self, alloc: Global, frame: Frame) -> Result<(), TakeFault>
        requires { IsToTake (state self.old) }
        ensures taken { (user : User) → serves self.old user → OnOk result (Taken (quel user) (state self.old) frame (state self.new)) }
        ensures unlawful { (user : User) → serves self.old user → IsErrOf result TakeFault.Unlawful → MayNotTake (quel user) (state self.old) frame }
        ensures kept { OnErr result (state self.new ≡ state self.old) }
        ensures serves { (user : User) → serves self.old user → serves self.new user }
        ensures place { place self.new ≡ place self.old }
        ensures heard { heard self.new ≡ heard self.old };

    /// Gives the next frame of those that it has to give, to the side to which it wants to. After want of
    /// memory it is as it was.
    fn give(&mut self, alloc: Global) -> Result<Frame, OutOfMemory>
        requires { IsToGive (state self.old) }
        ensures given { IfOk result (λ frame. Given (state self.old) frame (state self.new)) }
        ensures form { IfOk result (λ frame. IsTrue (is_lawful frame)) }
        ensures kept { OnErr result (state self.new ≡ state self.old) }
        ensures serves { (user : User) → serves self.old user → serves self.new user }
        ensures place { place self.new ≡ place self.old }
        ensures heard { heard self.new ≡ heard self.old };

    /// Works on the room. Whatever the room tells, what it goes to and what it gives has the shape of such
    /// a piece of work. Where the room is known, this is the network's work, and what it leaves is what that
    /// leaves; after an error a front of what this work writes was written, and the database is that of
    /// before or of after. What was written needn't be known. Of files that are known no one differs after
    /// an error but that which such work stores, also where the database isn't known. A tree or a change
    /// that isn't fit for the present database is refused as unlawful.
    fn work<B: Base, H: Shelf, S: Source, K: Sink>(
        &mut self,
        alloc: Global,
        room: &mut Room<B, H, S, K>,
    ) -> Result<(), WorkFault>
        requires { IsToWork (state self.old) }
        ensures works { (user : User) → serves self.old user → OnOk result (WorkDone (quel user) (state self.old) (state self.new)
            (known (outside B.database B.faults B.clock B.reads H.files H.faults S.left S.given S.faults S.ended K.written K.faults K.stalls room.old))
            (known (outside B.database B.faults B.clock B.reads H.files H.faults S.left S.given S.faults S.ended K.written K.faults K.stalls room.new))) }
        ensures failed { (user : User) → serves self.old user → OnErr result (FailedWork (quel user) (state self.old).mode
            (outside B.database B.faults B.clock B.reads H.files H.faults S.left S.given S.faults S.ended K.written K.faults K.stalls room.old)
            (outside B.database B.faults B.clock B.reads H.files H.faults S.left S.given S.faults S.ended K.written K.faults K.stalls room.new)) }
        ensures unlawful { (user : User) → serves self.old user → IsErrOf result WorkFault.Unlawful → MayNotWork (quel user) (state self.old).mode
            (outside B.database B.faults B.clock B.reads H.files H.faults S.left S.given S.faults S.ended K.written K.faults K.stalls room.old) }
        ensures database { OnOk result (KeepsDatabase
            (outside B.database B.faults B.clock B.reads H.files H.faults S.left S.given S.faults S.ended K.written K.faults K.stalls room.old)
            (outside B.database B.faults B.clock B.reads H.files H.faults S.left S.given S.faults S.ended K.written K.faults K.stalls room.new)) }
        ensures later { Later
            (outside B.database B.faults B.clock B.reads H.files H.faults S.left S.given S.faults S.ended K.written K.faults K.stalls room.old)
            (outside B.database B.faults B.clock B.reads H.files H.faults S.left S.given S.faults S.ended K.written K.faults K.stalls room.new) }
        ensures cause { IsCaused (heard self.old)
            (outside B.database B.faults B.clock B.reads H.files H.faults S.left S.given S.faults S.ended K.written K.faults K.stalls room.old)
            (outside B.database B.faults B.clock B.reads H.files H.faults S.left S.given S.faults S.ended K.written K.faults K.stalls room.new) result }
        // With an answer no count of the room rose, and with a fault only its own.
        ensures counts { CountsOnly
            (outside B.database B.faults B.clock B.reads H.files H.faults S.left S.given S.faults S.ended K.written K.faults K.stalls room.old)
            (outside B.database B.faults B.clock B.reads H.files H.faults S.left S.given S.faults S.ended K.written K.faults K.stalls room.new) result }
        // Where reading failed nothing was written or stored.
        ensures spares { Spares
            (outside B.database B.faults B.clock B.reads H.files H.faults S.left S.given S.faults S.ended K.written K.faults K.stalls room.old)
            (outside B.database B.faults B.clock B.reads H.files H.faults S.left S.given S.faults S.ended K.written K.faults K.stalls room.new) result }
        // At most one line of the script was read, and only where the monitor reads the script itself; and the
        // end of the source is seen.
        ensures reads { ReadsOn (state self.old).mode (heard self.old) (heard self.new)
            (outside B.database B.faults B.clock B.reads H.files H.faults S.left S.given S.faults S.ended K.written K.faults K.stalls room.old)
            (outside B.database B.faults B.clock B.reads H.files H.faults S.left S.given S.faults S.ended K.written K.faults K.stalls room.new) (IsErrOf result WorkFault.Source) (IsOk result) }
        // The script is too long exactly where more of it was read than a script may have.
        ensures within { Within (heard self.old) (heard self.new) result }
        // Only the first stage reads the source and writes to the sink.
        ensures ends { (place self.old ≡ 1 → ⊥) → LeavesEnds (heard self.old) (heard self.new)
            (outside B.database B.faults B.clock B.reads H.files H.faults S.left S.given S.faults S.ended K.written K.faults K.stalls room.old)
            (outside B.database B.faults B.clock B.reads H.files H.faults S.left S.given S.faults S.ended K.written K.faults K.stalls room.new) result }
        // Where it gives the turn away it has handed the base over, and asked nothing of it since.
        ensures handed { OnOk result (HandsOver (state self.old) (state self.new) (B.schema room.new.base) (B.database room.new.base)) }
        // A crash leaves what it might leave before, or the database that this work leaves.
        ensures crash { (user : User) → serves self.old user → WorkLeaves (quel user) (state self.old).mode
            (outside B.database B.faults B.clock B.reads H.files H.faults S.left S.given S.faults S.ended K.written K.faults K.stalls room.old)
            (outside B.database B.faults B.clock B.reads H.files H.faults S.left S.given S.faults S.ended K.written K.faults K.stalls room.new) (B.left_since room.old.base) (B.left_since room.new.base) }
        // Where each image stood for the database, each one stands for that of after, once this work is done.
        ensures durable { OnOk result (StaysDurable
            (outside B.database B.faults B.clock B.reads H.files H.faults S.left S.given S.faults S.ended K.written K.faults K.stalls room.old)
            (outside B.database B.faults B.clock B.reads H.files H.faults S.left S.given S.faults S.ended K.written K.faults K.stalls room.new) (B.left_since room.old.base) (B.left_since room.new.base)) }
        // Without the turn the disk is neither read nor written.
        ensures quiet { QuietWithout (state self.old)
            (outside B.database B.faults B.clock B.reads H.files H.faults S.left S.given S.faults S.ended K.written K.faults K.stalls room.old)
            (outside B.database B.faults B.clock B.reads H.files H.faults S.left S.given S.faults S.ended K.written K.faults K.stalls room.new) }
        ensures serves { (user : User) → serves self.old user → serves self.new user }
        ensures place { place self.new ≡ place self.old };
}
