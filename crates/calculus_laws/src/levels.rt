//! Views of views, up to the greatest level.

ghost use Rattle.std.specs.Prelude.{◌≡◌, ◌≤◌, ℕ, List, IsTrue, is_some};
ghost use Rattle.calculus.specs.declared.query.RelKey.{RelKey};
ghost use Rattle.calculus.specs.Limits.{greatest_level};
ghost use Rattle.calculus.specs.Who.{Who};
ghost use Rattle.calculus.specs.Database.{Db};
ghost use Rattle.calculus.specs.IsDatabase.{IsDatabase};
ghost use Rattle.calculus.specs.Sizes.{level_of};
ghost use Rattle.calculus.specs.VariableRows.{rows_within, rows_of};

/// What has a level has no more rows through more levels than the greatest.
#[tactic(auto, using(crate::proofs::Enough::more_levels))]
pub fn more_levels_change_nothing()
    ensures { (db : Db) (who : Who) (key : RelKey) → IsTrue (is_some (level_of db key))
        → (n : ℕ) → greatest_level ≤ n → (attrs : List ℕ) → rows_within n db who key attrs ≡ rows_of db who key attrs }
{}

/// The level of what stands under a key is the number of levels that is enough for it.
pub fn its_own_level_is_enough()
    ensures { (db : Db) (who : Who) (key : RelKey) (level : ℕ) → level_of db key ≡ Some level
        → (n : ℕ) → level ≤ n → (attrs : List ℕ) → rows_within n db who key attrs ≡ rows_of db who key attrs }
{}

/// In a database nothing has more rows through more levels than the greatest.
#[tactic(auto, using(crate::proofs::Enough::more_levels_in_a_database))]
pub fn more_levels_change_nothing_in_a_database()
    ensures { (db : Db) → IsDatabase db → (who : Who) (key : RelKey)
        → (n : ℕ) → greatest_level ≤ n → (attrs : List ℕ) → rows_within n db who key attrs ≡ rows_of db who key attrs }
{}
