//! Laws of reading. Each function here is a law with no body: its clause speaks of the definitions
//! alone.

ghost use Rattle.std.specs.Prelude.{◌≡◌, ◌++◌, ℕ, List, ◌∷◌};
ghost use Rattle.quel_grammar.specs.Next.{IsNext};
ghost use Rattle.quel_grammar.specs.NextReader.{next_at};
ghost use Rattle.quel_grammar.specs.Pieces.{Placed, pieces_from};
ghost use Rattle.quel_parse.specs.Laws.{IsUsed};

/// What follows the next token behind a statement changes nothing: two texts that have the same tokens
/// at the same places up to the end of what is used of the one, and the same next token, are read
/// the same from there, also where they are refused.
pub fn what_follows_the_next_token_changes_nothing()
    ensures { (text other : List ℕ) (from : ℕ) (used : List Placed) (next : Placed) (later later2 : List Placed)
        → (pieces_from text from).placed ≡ used ++ next ∷ later → (pieces_from other from).placed ≡ used ++ next ∷ later2
        → IsUsed used next
        → next_at other from ≡ next_at text from }
{}
