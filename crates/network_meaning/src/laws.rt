//! What holds of every network of four stages, whatever language they speak. Each function here is a
//! law with no body: its clauses speak of the definitions alone.

ghost use Rattle.std.specs.Prelude.{◌≡◌, ◌<◌, ◌≤◌, ◌⊎◌, ◌++◌, ℕ, true, false, List};
ghost use Rattle.network_meaning.specs.Calls.{KeepsAll, RunsTurns, Seen};
ghost use Rattle.network_meaning.specs.Ending.{Ends, KeepsEnd};
ghost use Rattle.network_meaning.specs.Going.{AllEnded, SomeGoes};
ghost use Rattle.network_meaning.specs.Language.{HasStopped};
ghost use Rattle.network_meaning.specs.LocalSteps.{Act, Mode, Room, Works};
ghost use Rattle.network_meaning.specs.MessageNetwork.{StageNumber};
ghost use Rattle.network_meaning.specs.Network.{Network, NetworkStep, as_messages, Orderly, StepsUnlessBlocked, bytes_in_all, start};
ghost use Rattle.network_meaning.specs.Sorts.{SessionEnd, Sorts};
ghost use Rattle.network_meaning.specs.Turn.{has_turn, turns};
ghost use Rattle.network_meaning.specs.WorkLeft.{Work, WorkLaws, work_left};

use crate::Spoken;

/// The equation: the bytes that were written, those of what is on its way to stage 1, and those of the
/// rest of the session are the same before and after each step of an orderly network, which stays so;
/// and so they are over any list of steps.
pub fn each_step_keeps_the_bytes<T: Spoken>()
    ensures step { (user : T.User) (capacity : ℕ) (k : StageNumber) (n new : Network T.sorts) → Orderly (T.language user) n → NetworkStep (T.language user) capacity k n new
        → Orderly (T.language user) new × (bytes_in_all (T.language user) new ≡ bytes_in_all (T.language user) n) }
    ensures turns { (user : T.User) (capacity : ℕ) (turns : List ℕ) (old new : Seen T.sorts) → RunsTurns (T.language user) capacity turns old new → KeepsAll (T.language user) old new }
{}

/// In an orderly network some stage isn't blocked, unless all four have ended; and each step that isn't
/// blocked lowers the work that is left.
pub fn some_stage_goes_on<T: Spoken>()
    ensures goes { (user : T.User) (capacity : ℕ) (n : Network T.sorts) → 1 ≤ capacity → Orderly (T.language user) n → SomeGoes capacity n ⊎ AllEnded n }
    ensures lowers { (user : T.User) (W : Work (T.language user)) → WorkLaws (T.language user) W → (k : StageNumber) (n new : Network T.sorts) → Orderly (T.language user) n → StepsUnlessBlocked (T.language user) k n new false
        → work_left (T.language user) W new < work_left (T.language user) W n }
{}

/// At the start the network is orderly, and its bytes in all are what was written and the output of the
/// session. Where all four stages have ended, the bytes that were written are all.
pub fn bytes_are_whole_at_the_end<T: Spoken>()
    ensures start { (user : T.User) (m : T.sorts.Monitor) (ranges : T.sorts.Ranges) (room : Room T.sorts) → Orderly (T.language user) (start m ranges room)
        × (bytes_in_all (T.language user) (start m ranges room) ≡ room.out ++ (T.language user).script_bytes room.db room.shelf ranges m room.script) }
    ensures end { (user : T.User) (n : Network T.sorts) → Orderly (T.language user) n → AllEnded n → bytes_in_all (T.language user) n ≡ n.room.out }
{}

/// Where a session ends stays the same over each step of an orderly network: its database, its shelf, and
/// whether a command ended it. At the start it is the end of the script's session; and where all four
/// stages have ended, the database and the shelf are those of the end, and nothing is left of the script
/// unless a command ended the session.
pub fn each_step_keeps_the_end<T: Spoken>()
    ensures step { (user : T.User) (capacity : ℕ) (k : StageNumber) (n new : Network T.sorts) → Orderly (T.language user) n → NetworkStep (T.language user) capacity k n new
        → KeepsEnd (T.language user) (as_messages (T.language user) n) (as_messages (T.language user) new) }
    ensures start { (user : T.User) (m : T.sorts.Monitor) (ranges : T.sorts.Ranges) (room : Room T.sorts)
        → Ends (T.language user) (as_messages (T.language user) (start m ranges room)) ((T.language user).script_end room.db room.shelf ranges m room.script) }
    ensures end { (user : T.User) (n : Network T.sorts) (e : SessionEnd T.sorts) → Orderly (T.language user) n → AllEnded n → Ends (T.language user) (as_messages (T.language user) n) e
        → HasStopped (T.language user) n.room.db n.room.shelf n.room.script e }
{}

/// In an orderly network the turn is in one place: at one stage, or in one message on its way. A stage
/// that works without it leaves the database and the shelf as they are.
pub fn the_turn_is_in_one_place<T: Spoken>()
    ensures one { (user : T.User) (n : Network T.sorts) → Orderly (T.language user) n → turns (as_messages (T.language user) n) ≡ 1 }
    ensures holder { (user : T.User) (k : StageNumber) (mode : Mode T.sorts) (room new : Room T.sorts) (act : Act T.sorts) → Works (T.language user) mode room act new
        → (has_turn k mode ≡ true) ⊎ ((new.db ≡ room.db) × (new.shelf ≡ room.shelf)) }
{}
