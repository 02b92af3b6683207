//! A statement that is read of a text has few levels, and so has the tree that it is resolved to. Each
//! function here is a law with no body: its clauses speak of the definitions alone.

ghost use Rattle.std.specs.Prelude.{◌≡◌, ◌≤◌, ◌+◌, ℕ, List, length, Ok};
ghost use Rattle.calculus.specs.declared.request.Checked.{Checked};
ghost use Rattle.calculus.specs.declared.statement.Statement.{Statement};
ghost use Rattle.calculus.specs.Database.{Db};
ghost use Rattle.quel_grammar.specs.declared.token.Token.{Token};
ghost use Rattle.quel_grammar.specs.Next.{Reading, IsNext, IsGrammatical};
ghost use Rattle.quel_grammar.specs.Next.Next.{Read};
ghost use Rattle.quel_grammar.specs.NextReader.{next_at};
ghost use Rattle.quel_grammar.specs.Statements.{IsStatement};
ghost use Rattle.quel_meaning.specs.Ranges.{Ranges};
ghost use Rattle.quel_meaning.specs.Resolved.{resolved};
ghost use Rattle.reading_laws.specs.Shallow.{statement_levels};
ghost use Rattle.reading_laws.specs.Levels.{tree_levels};

/// A statement has at most as many levels as tokens. So what is read of a text, from whichever place on,
/// has at most 500.
pub fn what_is_read_is_shallow()
    ensures written { (ts : List Token) (s : Statement) → IsStatement ts s → statement_levels s ≤ length ts }
    ensures allowed { (text : List ℕ) (from : ℕ) (s : Statement) (end : ℕ) → IsNext text from (Read s end) → statement_levels s ≤ 500 }
    ensures computed { (text : List ℕ) (from : ℕ) (s : Statement) (end : ℕ) → next_at text from ≡ Read s end → statement_levels s ≤ 500 }
    ensures grammatical { (reading : Reading) → IsGrammatical reading
        → (text : List ℕ) (from : ℕ) (s : Statement) (end : ℕ) → reading text from ≡ Read s end → statement_levels s ≤ 500 }
{}

/// The tree that a statement is resolved to has at most 4 levels more than the statement: a query is a
/// level itself, and that of `help` has 4 in all.
pub fn what_is_asked_for_is_as_shallow()
    ensures asked { (db : Db) (user : List ℕ) (ranges : Ranges) (s : Statement) (tree : Checked)
        → resolved db user ranges s ≡ Ok tree → tree_levels tree ≤ statement_levels s + 4 }
{}
