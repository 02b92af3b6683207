//! What lists of turns lead to.

ghost use Rattle.std.specs.Prelude.{◌++◌, ℕ, List};
ghost use Rattle.network_meaning.specs.Calls.{RunsTurns, Seen};
ghost use Rattle.network_meaning.specs.Rounds.{LeadsOn};
ghost use Rattle.network_meaning.specs.Sorts.{Sorts};
ghost use Rattle.network_meaning.specs.WorkLeft.{Work, WorkLaws};

use crate::Spoken;

/// What the turns of a list lead to, from an orderly network whose room is known: it is orderly and known
/// again, with the same bytes in all; the turn is in one place, and some stage goes on until all have
/// ended; the statements are finished in order; where each stage had a turn less work is left, unless all
/// had ended; and where all have ended the bytes that were written are whole, and no statement is left.
/// The runs of two lists, one behind the other, are the run of both.
pub fn turns_lead_on<T: Spoken>()
    ensures leads { (user : T.User) (W : Work (T.language user)) → WorkLaws (T.language user) W → (capacity : ℕ) (turns : List ℕ) (old new : Seen T.sorts)
        → RunsTurns (T.language user) capacity turns old new → LeadsOn (T.language user) W capacity turns old new }
    ensures both { (user : T.User) (capacity : ℕ) (first second : List ℕ) (old mid new : Seen T.sorts)
        → RunsTurns (T.language user) capacity first old mid → RunsTurns (T.language user) capacity second mid new → RunsTurns (T.language user) capacity (first ++ second) old new }
{}
