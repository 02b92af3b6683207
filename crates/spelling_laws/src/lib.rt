//! What a stage hands on has a spelling: the tree that a statement asks for, and a change of a database. Each
//! function here is a law with no body: its clauses speak of the definitions alone.
#![tactic(auto)]

ghost use Rattle.calculus.specs.Change.{IsLawful};
ghost use Rattle.calculus.specs.Database.{Db};
ghost use Rattle.calculus.specs.IsDatabase.{IsDatabase};
ghost use Rattle.calculus.specs.Name.{is_name};
ghost use Rattle.calculus.specs.Who.{Who};
ghost use Rattle.calculus.specs.declared.change.DbChange.{DbChange};
ghost use Rattle.calculus.specs.declared.request.Checked.{Checked};
ghost use Rattle.calculus.specs.declared.statement.Statement.{Statement};
ghost use Rattle.quel_grammar.specs.Next.Next.{Read};
ghost use Rattle.quel_grammar.specs.Next.{Reading, IsNext, IsGrammatical};
ghost use Rattle.quel_meaning.specs.Meaning.{ruled_tree};
ghost use Rattle.quel_meaning.specs.Ranges.{Ranges};
ghost use Rattle.quel_meaning.specs.Resolved.{resolved};
ghost use Rattle.quel_meaning.specs.SpelledTree.{tree_is_spelled};
ghost use Rattle.quel_tree.specs.Changes.{change};
ghost use Rattle.quel_tree.specs.Message.{most_tree_levels};
ghost use Rattle.quel_tree.specs.Requests.{checked};
ghost use Rattle.reading_laws.specs.Levels.{tree_levels};
ghost use Rattle.spelling_laws.specs.Short.{tree_is_short};
ghost use Rattle.std.specs.Prelude.{◌≡◌, ◌≤◌, ℕ, true, List, Ok};
ghost use Rattle.view_text.specs.Expanded.{expanded_tree};

/// A tree has a spelling where it has at most 3,000 levels, its constants and the names of what it makes are
/// ones, and it is short.
pub fn what_is_short_has_a_spelling()
    ensures { (tree : Checked) → tree_levels tree ≤ most_tree_levels → tree_is_spelled tree ≡ true → tree_is_short tree ≡ true → (checked most_tree_levels).Fits tree }
{}

/// The tree that a statement is resolved to has a spelling, where the statement is read of a text, from
/// whichever place on.
pub fn what_is_read_has_a_spelling()
    ensures allowed { (db : Db) → IsDatabase db → (user : List ℕ) → is_name user ≡ true → (ranges : Ranges) (text : List ℕ) (from : ℕ) (s : Statement) (end : ℕ) → IsNext text from (Read s end)
        → (tree : Checked) → resolved db user ranges s ≡ Ok tree → (checked most_tree_levels).Fits tree }
    ensures grammatical { (reading : Reading) → IsGrammatical reading
        → (db : Db) → IsDatabase db → (user : List ℕ) → is_name user ≡ true → (ranges : Ranges) (text : List ℕ) (from : ℕ) (s : Statement) (end : ℕ) → reading text from ≡ Read s end
        → (tree : Checked) → resolved db user ranges s ≡ Ok tree → (checked most_tree_levels).Fits tree }
{}

/// So it has once views and permits were put in for the one who asks, and the rules of the relation that it
/// changes.
pub fn what_is_put_in_has_a_spelling()
    ensures allowed { (db : Db) → IsDatabase db → (user : List ℕ) → is_name user ≡ true → (ranges : Ranges) (text : List ℕ) (from : ℕ) (s : Statement) (end : ℕ) → IsNext text from (Read s end)
        → (tree : Checked) → resolved db user ranges s ≡ Ok tree → (who : Who) → (checked most_tree_levels).Fits (ruled_tree db (expanded_tree db who tree)) }
    ensures grammatical { (reading : Reading) → IsGrammatical reading
        → (db : Db) → IsDatabase db → (user : List ℕ) → is_name user ≡ true → (ranges : Ranges) (text : List ℕ) (from : ℕ) (s : Statement) (end : ℕ) → reading text from ≡ Read s end
        → (tree : Checked) → resolved db user ranges s ≡ Ok tree → (who : Who) → (checked most_tree_levels).Fits (ruled_tree db (expanded_tree db who tree)) }
{}

/// A lawful change of a database has a spelling: its lists have no more items than their counts can say, its
/// places and numbers fit their fields, its names, kinds, values and constants are ones of their types, and
/// its query or qualification has at most 3,000 levels.
pub fn a_lawful_change_has_a_spelling()
    ensures { (db : Db) (made : DbChange) → IsDatabase db → IsLawful db made → (change most_tree_levels).Fits made }
{}
