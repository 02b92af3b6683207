//! What a run of the stages from the start on has printed.

ghost use Rattle.std.specs.Prelude.{ℕ, List};
ghost use Rattle.net_core.specs.Known.{Outside, known};
ghost use Rattle.net_core.specs.Whole.{HaveEnded, seen, start_shape};
ghost use Rattle.network_meaning.specs.Calls.{Knows, RunsTurns, Shape};
ghost use Rattle.network_meaning.specs.LocalSteps.{Room};
ghost use Rattle.quel_network.specs.Quel.{quel};
ghost use Rattle.quel_network.specs.Sorts.{User, quel_sorts};
ghost use Rattle.session_laws.specs.Heard.{AllDone, IsPartly, KeptUp};

/// Turns of the stages from the start on, in a room that is known, have written a front of what the session
/// of its script prints, and at least what the lines print that were read, but the last one. Where all
/// stages have ended, all was done.
pub fn a_run_prints_its_session()
    ensures ended { (user : User) (capacity : ℕ) (turns : List ℕ) (r : Room quel_sorts) (old after : Outside) (now : Shape quel_sorts)
        → Knows (known old) r → RunsTurns (quel user) capacity turns (seen start_shape old) (seen now after) → HaveEnded now → AllDone user r (known old) (known after) }
    ensures front { (user : User) (capacity : ℕ) (turns : List ℕ) (r : Room quel_sorts) (old after : Outside) (now : Shape quel_sorts)
        → Knows (known old) r → RunsTurns (quel user) capacity turns (seen start_shape old) (seen now after) → IsPartly user r old.output after.output }
    ensures keeps_up { (user : User) (capacity : ℕ) (turns : List ℕ) (r : Room quel_sorts) (old after : Outside) (now : Shape quel_sorts)
        → Knows (known old) r → RunsTurns (quel user) capacity turns (seen start_shape old) (seen now after) → KeptUp user r after.script old.output after.output }
{}
