//! What is read of a text is a statement of the language's forms. Each function here is a law with no
//! body: its clause speaks of the definitions alone.

ghost use Rattle.std.specs.Prelude.{◌≡◌, ℕ, true, List};
ghost use Rattle.calculus.specs.declared.statement.Statement.{Statement};
ghost use Rattle.quel_grammar.specs.Next.{Reading, IsNext, IsGrammatical};
ghost use Rattle.quel_grammar.specs.Next.Next.{Read};
ghost use Rattle.quel_grammar.specs.NextReader.{next_at};
ghost use Rattle.quel_meaning.specs.IsWritten.{is_written};

/// What is read of a text, from whichever place on, has what a statement that is read has: target lists,
/// attributes, keys and columns are there and of their forms, what it makes has a name, its rights are
/// rights, and its constants are ones of their types. So whoever reads texts as the grammar allows need
/// not look at that again.
pub fn what_is_read_is_written()
    ensures allowed { (text : List ℕ) (from : ℕ) (s : Statement) (end : ℕ) → IsNext text from (Read s end) → is_written s ≡ true }
    ensures computed { (text : List ℕ) (from : ℕ) (s : Statement) (end : ℕ) → next_at text from ≡ Read s end → is_written s ≡ true }
    ensures grammatical { (reading : Reading) → IsGrammatical reading
        → (text : List ℕ) (from : ℕ) (s : Statement) (end : ℕ) → reading text from ≡ Read s end → is_written s ≡ true }
{}
