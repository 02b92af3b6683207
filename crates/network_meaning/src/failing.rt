//! What a step that fails leaves of the bytes in all.

ghost use Rattle.std.specs.Prelude.{◌≡◌, ◌++◌, ℕ, List};
ghost use Rattle.network_meaning.specs.Failing.{Begins, work_bytes};
ghost use Rattle.network_meaning.specs.LocalSteps.{Want.work};
ghost use Rattle.network_meaning.specs.MessageNetwork.{StageNumber};
ghost use Rattle.network_meaning.specs.Network.{Network, Orderly, between, bytes_in_all, want};
ghost use Rattle.network_meaning.specs.Sorts.{Sorts};

use crate::Spoken;

/// Where a piece of work in an orderly network fails and has written only a front of its bytes, the bytes
/// that were written begin the bytes in all; and so they do where a stage fails to take or to give, which
/// writes nothing.
pub fn a_failed_work_writes_a_front<T: Spoken>()
    ensures works { (user : T.User) (k : StageNumber) (n : Network T.sorts) (front : List ℕ) → Orderly (T.language user) n → want (between n k).stage ≡ work
        → Begins front (work_bytes (T.language user) (between n k).stage.mode n.room) → Begins (n.room.out ++ front) (bytes_in_all (T.language user) n) }
    ensures takes_or_gives { (user : T.User) (n : Network T.sorts) → Begins n.room.out (bytes_in_all (T.language user) n) }
{}
