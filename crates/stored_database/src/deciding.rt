//! The test of a database.

ghost use Rattle.std.specs.Prelude.{◌≡◌, ◌↔◌, true};
ghost use Rattle.calculus.specs.Database.{Db};
ghost use Rattle.calculus.specs.IsDatabase.{IsDatabase};
ghost use Rattle.stored_database.specs.IsOne.{is_database};

/// The test tells what is a database.
#[tactic(auto, using(crate::proofs::IsOne::the_test_decides))]
pub fn the_test_decides_a_database()
    ensures { (db : Db) → (is_database db ≡ true) ↔ IsDatabase db }
{}
