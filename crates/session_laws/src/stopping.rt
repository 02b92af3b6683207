//! What a run of the stages has printed that stopped by a fault.

ghost use Rattle.std.specs.Prelude.{◌≡◌, ◌∷◌, ◌≤◌, [], ℕ, List};
ghost use Rattle.net_core.specs.declared.fault.WorkFault.{WorkFault};
ghost use Rattle.net_core.specs.declared.fault.WorkFault.TheVariants as faults;
ghost use Rattle.net_core.specs.Known.{KeepsScript, Outside, known};
ghost use Rattle.net_core.specs.Whole.{StopsAt, seen, start_shape};
ghost use Rattle.network_meaning.specs.Calls.{Knows, RunsTurns, Shape};
ghost use Rattle.network_meaning.specs.LocalSteps.{Room};
ghost use Rattle.quel_network.specs.Quel.{quel};
ghost use Rattle.quel_network.specs.Sorts.{User, quel_sorts};
ghost use Rattle.session_laws.specs.Heard.{BrokenOff, IsBrokenOff, IsPartly, KeptUp};

/// Turns of the stages from the start on, in a room that is known, that stop by a fault have written a front
/// of what the session of its script prints, and at least what the lines print that were read, but the last
/// one. Where the source failed they have written exactly what the lines print that were read; and where the
/// script is too long, what those print that lie wholly in its first 16,777,216 bytes.
pub fn what_was_read_was_printed()
    ensures front { (user : User) (capacity : ℕ) (turns numbers : List ℕ) (heard : ℕ) (r : Room quel_sorts) (old after : Outside) (fault : WorkFault)
        → Knows (known old) r → StopsAt (quel user) capacity turns numbers heard (seen start_shape old) after fault → IsPartly user r old.output after.output }
    ensures keeps_up { (user : User) (capacity : ℕ) (turns numbers : List ℕ) (heard : ℕ) (r : Room quel_sorts) (old after : Outside) (fault : WorkFault)
        → Knows (known old) r → StopsAt (quel user) capacity turns numbers heard (seen start_shape old) after fault → KeptUp user r after.script old.output after.output }
    ensures broken { (user : User) (capacity : ℕ) (turns numbers : List ℕ) (heard : ℕ) (r : Room quel_sorts) (old after : Outside)
        → Knows (known old) r → StopsAt (quel user) capacity turns numbers heard (seen start_shape old) after faults.Source → IsBrokenOff user r after.script old.output after.output after.files }
    ensures cut { (user : User) (capacity k read : ℕ) (turns numbers : List ℕ) (heard : ℕ) (r : Room quel_sorts) (old mid after : Outside) (now : Shape quel_sorts)
        → Knows (known old) r → RunsTurns (quel user) capacity turns (seen start_shape old) (seen now mid) → KeepsScript 0 read old mid → read ≤ 16777216
        → StopsAt (quel user) capacity (k ∷ []) numbers heard (seen now mid) after faults.TooLong → KeepsScript read 16777217 mid after
        → BrokenOff user r 16777217 16777216 after.script old.output after.output after.files }
{}
