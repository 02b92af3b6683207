//! The law of the statements that are left, which ties what was acknowledged to the database that stands.

ghost use Rattle.std.specs.Prelude.{◌≡◌, ℕ, List, []};
ghost use Rattle.network_meaning.specs.Calls.{RunsTurns, Seen};
ghost use Rattle.network_meaning.specs.Going.{AllEnded};
ghost use Rattle.network_meaning.specs.Held.{rest};
ghost use Rattle.network_meaning.specs.Language.{Stand};
ghost use Rattle.network_meaning.specs.LocalSteps.{Room};
ghost use Rattle.network_meaning.specs.MessageNetwork.{StageNumber};
ghost use Rattle.network_meaning.specs.Network.{Network, NetworkStep, Orderly, as_messages, start};
ghost use Rattle.network_meaning.specs.Sorts.{Sorts};
ghost use Rattle.network_meaning.specs.Statements.{Finishes, FinishesInOrder, statements_left};

use crate::Spoken;

/// The statements that are left to run, each with the database after it, stay the same over a step of an
/// orderly network, but for the first of them where the step finishes it: then the database after it is
/// the present one, and its reply is what is held more than before. So the statements that the steps of
/// a list finish are the first ones, in order. Of all that are left the replies stand in the rest of the
/// output, one behind the other. At the start they are the statements of the script, and at the end none
/// is left.
pub fn statements_are_finished_in_order<T: Spoken>()
    ensures step { (user : T.User) (capacity : ℕ) (k : StageNumber) (n new : Network T.sorts) → Orderly (T.language user) n → NetworkStep (T.language user) capacity k n new
        → Finishes (T.language user) (as_messages (T.language user) n) (as_messages (T.language user) new) }
    ensures turns { (user : T.User) (capacity : ℕ) (turns : List ℕ) (old new : Seen T.sorts) → RunsTurns (T.language user) capacity turns old new → FinishesInOrder (T.language user) old new }
    ensures places { (user : T.User) (n : Network T.sorts) → Stand (rest (T.language user) (as_messages (T.language user) n)) (statements_left (T.language user) (as_messages (T.language user) n)) }
    ensures start { (user : T.User) (m : T.sorts.Monitor) (ranges : T.sorts.Ranges) (room : Room T.sorts)
        → statements_left (T.language user) (as_messages (T.language user) (start m ranges room)) ≡ (T.language user).script_statements room.db room.shelf ranges m room.script }
    ensures end { (user : T.User) (n : Network T.sorts) → Orderly (T.language user) n → AllEnded n → statements_left (T.language user) (as_messages (T.language user) n) ≡ [] }
{}
