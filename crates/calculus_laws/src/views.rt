//! The rows of views.

ghost use Rattle.std.specs.Prelude.{◌≡◌, ◌↔◌, ℕ, List, Some};
ghost use Rattle.std.specs.List.{Contains};
ghost use Rattle.calculus.specs.declared.query.RelKey.{RelKey};
ghost use Rattle.calculus.specs.Rows.{Row};
ghost use Rattle.calculus.specs.Who.{Who};
ghost use Rattle.calculus.specs.Database.{Db, View, view_at};
ghost use Rattle.calculus.specs.IsDatabase.{IsDatabase};
ghost use Rattle.calculus.specs.VariableRows.{rows_of};
ghost use Rattle.calculus.specs.Answer.{answer};
ghost use Rattle.calculus_laws.specs.TupleCalculus.{IsAskedFor};

/// In a database the rows of a view are the answer of its query, for the same one who asks, whichever
/// attributes of it are used: the rows that its query asks for.
pub fn a_view_has_the_answer_of_its_query()
    ensures answer { (db : Db) → IsDatabase db → (who : Who) (key : RelKey) (view : View) → view_at db key ≡ Some view
        → (attrs : List ℕ) → rows_of db who key attrs ≡ answer db who view.query }
    ensures rows { (db : Db) → IsDatabase db → (who : Who) (key : RelKey) (view : View) → view_at db key ≡ Some view
        → (attrs : List ℕ) (row : Row) → Contains (rows_of db who key attrs) row ↔ IsAskedFor db who view.query row }
{}
