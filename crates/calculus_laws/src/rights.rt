//! Who may use which rows.

ghost use Rattle.std.specs.Prelude.{◌≡◌, ℕ, true, false, List, [], Some};
ghost use Rattle.calculus.specs.declared.query.RelKey.{RelKey};
ghost use Rattle.calculus.specs.declared.query.Query.{Query};
ghost use Rattle.calculus.specs.Rows.{Row, has};
ghost use Rattle.calculus.specs.Who.{Who, Unrestricted};
ghost use Rattle.calculus.specs.Database.{Db, Relation};
ghost use Rattle.calculus.specs.Stored.{Kept, range_at};
ghost use Rattle.calculus.specs.Rights.{Right, Retrieve, permitted, may};
ghost use Rattle.calculus.specs.QueryParts.{query_aggregates};
ghost use Rattle.calculus.specs.Used.{used_vars};
ghost use Rattle.calculus.specs.Permission.{vars_permitted, readable, change_permitted};
ghost use Rattle.calculus.specs.Assignments.{changed_rows};
ghost use Rattle.calculus.specs.VariableRows.{rows_of};
ghost use Rattle.calculus.specs.Answer.{answer};

/// Where something is not permitted, whatever the rows, no row may be used for it: none of a relation
/// or a catalogue is read, and none of a relation is replaced or deleted. The same holds of a view:
/// where what its text names may not be read, it has no rows. So a query that uses a variable that may
/// not be read has an empty answer.
pub fn what_is_not_permitted_is_not_used()
    ensures row_by_row { (db : Db) (who : Who) (right : Right) (attrs : List ℕ) (key : RelKey) (row : Row)
        → permitted db who right attrs key ≡ false → may db who right attrs key row ≡ false }
    ensures read { (db : Db) (who : Who) (attrs : List ℕ) (key : RelKey) (relation : Relation)
        → range_at db key ≡ Some (Kept relation) → permitted db who Retrieve attrs key ≡ false → rows_of db who key attrs ≡ [] }
    ensures changed { (db : Db) (who : Who) (right : Right) (places attrs : List ℕ) (key : RelKey)
        → change_permitted db who right places key attrs ≡ false → changed_rows db who right places attrs key ≡ [] }
    ensures through_views { (db : Db) (who : Who) (attrs : List ℕ) (key : RelKey)
        → readable db who key attrs ≡ false → rows_of db who key attrs ≡ [] }
    ensures in_answers { (db : Db) (who : Who) (q : Query)
        → vars_permitted (readable db who) q (used_vars q) ≡ false → answer db who q ≡ [] }
{}

/// A user sees no row that is not there unrestricted: neither as a row of a variable, through
/// views of views, nor in the answer of a query without aggregates. With aggregates this is not so, as a
/// user's count may be smaller.
pub fn nobody_sees_more_than_is_there()
    ensures variable { (db : Db) (who : Who) (key : RelKey) (attrs : List ℕ) (row : Row)
        → has (rows_of db who key attrs) row ≡ true → has (rows_of db Unrestricted key attrs) row ≡ true }
    ensures query { (db : Db) (who : Who) (q : Query) (row : Row)
        → query_aggregates q ≡ [] → has (answer db who q) row ≡ true → has (answer db Unrestricted q) row ≡ true }
{}
