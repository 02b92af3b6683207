//! Rows of a relation that change.

ghost use Rattle.std.specs.Prelude.{◌≡◌, List, IsTrue, Some, length, nat_le};
ghost use Rattle.std.specs.List.{list_all};
ghost use Rattle.calculus.specs.declared.request.Update.{Update};
ghost use Rattle.calculus.specs.Limits.{most_rows};
ghost use Rattle.calculus.specs.Rows.{Row, Ascends};
ghost use Rattle.calculus.specs.Database.{Db, Relation, relation_at};
ghost use Rattle.calculus.specs.Stored.{rows_at};
ghost use Rattle.calculus.specs.Replacement.{rows_change};
ghost use Rattle.calculus.specs.IsDatabase.{IsDatabase, row_fits};
ghost use Rattle.calculus.specs.Change.{IsLawful};

/// The change by which an update makes the rows of a relation another set is lawful, where the new rows
/// fit the relation and are not too many.
pub fn another_set_of_rows_is_lawful()
    ensures { (db : Db) (u : Update) (relation : Relation) (new : List Row) → IsDatabase db → relation_at db u.rel ≡ Some relation
        → Ascends new → IsTrue (list_all (row_fits relation.info.attrs) new) → IsTrue (nat_le (length new) most_rows) → IsLawful db (rows_change u (rows_at db u.rel) new) }
{}
