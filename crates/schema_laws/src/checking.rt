//! What a statement asks for, and what refuses it before its tree is handed on.

ghost use Rattle.std.specs.Prelude.{◌≡◌, ℕ, List};
ghost use Rattle.calculus.specs.declared.statement.Statement.{Statement};
ghost use Rattle.calculus.specs.Who.{Asker};
ghost use Rattle.calculus.specs.Database.{Db};
ghost use Rattle.calculus.specs.Schema.{schema_of};
ghost use Rattle.quel_meaning.specs.Ranges.{Ranges};
ghost use Rattle.quel_meaning.specs.Resolved.{resolved};
ghost use Rattle.quel_meaning.specs.Meaning.{checked_tree};

/// The tree of a statement, or the number that refuses it before its tree is handed on, is told by the schema.
pub fn what_is_asked_for_is_in_the_schema()
    ensures resolved { (db : Db) (user : List ℕ) (ranges : Ranges) (s : Statement)
        → resolved (schema_of db) user ranges s ≡ resolved db user ranges s }
    ensures checked_tree { (db : Db) (asker : Asker) (ranges : Ranges) (s : Statement)
        → checked_tree (schema_of db) asker ranges s ≡ checked_tree db asker ranges s }
{}
