//! Structures and indexes.

ghost use Rattle.std.specs.Prelude.{◌≡◌, ℕ, List, Ok};
ghost use Rattle.calculus.specs.declared.query.RelKey.{RelKey};
ghost use Rattle.calculus.specs.declared.schema.Spec.{Spec};
ghost use Rattle.calculus.specs.declared.request.Utility.TheVariants as utility;
ghost use Rattle.calculus.specs.declared.change.DbChange.{DbChange};
ghost use Rattle.calculus.specs.Database.{Db};
ghost use Rattle.calculus.specs.IsDatabase.{IsDatabase};
ghost use Rattle.calculus.specs.Change.{IsLawful};
ghost use Rattle.quel_meaning.specs.Planned.{planned};
ghost use Rattle.plan_laws.specs.Fitting.{IsFitStructure, IsFitIndex};

/// Another structure for a relation, where it isn't refused, is a lawful change: the relation's indexes
/// go, and what is left is a database.
pub fn another_structure_is_lawful()
    ensures { (db : Db) (user : List ℕ) (rel : RelKey) (to : Spec) (keys : List ℕ) (made : DbChange)
        → IsDatabase db → IsFitStructure db rel to keys → planned db user (utility.Modify rel to keys) ≡ Ok made → IsLawful db made }
{}

/// An index on a relation, where it isn't refused, is a lawful change.
pub fn a_new_index_is_lawful()
    ensures { (db : Db) (user : List ℕ) (base : RelKey) (name : List ℕ) (keys : List ℕ) (made : DbChange)
        → IsDatabase db → IsFitIndex db base name keys → planned db user (utility.Index base name keys) ≡ Ok made → IsLawful db made }
{}
