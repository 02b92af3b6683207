//! Relations that are made, and what is destroyed.

ghost use Rattle.std.specs.Prelude.{◌≡◌, ◌||◌, ℕ, List, IsTrue, length, nat_le, Ok};
ghost use Rattle.std.specs.List.{list_all};
ghost use Rattle.calculus.specs.declared.query.RelKey.{RelKey};
ghost use Rattle.calculus.specs.declared.schema.Attr.{Attr};
ghost use Rattle.calculus.specs.declared.request.Utility.TheVariants as utility;
ghost use Rattle.calculus.specs.declared.change.DbChange.{DbChange};
ghost use Rattle.calculus.specs.declared.change.DbChange.TheVariants as change;
ghost use Rattle.calculus.specs.Limits.{most_rows};
ghost use Rattle.calculus.specs.Rows.{Row, Ascends};
ghost use Rattle.calculus.specs.Database.{Db, is_there};
ghost use Rattle.calculus.specs.Keys.{same_key};
ghost use Rattle.calculus.specs.Lists.{differ_by};
ghost use Rattle.calculus.specs.Catalogue.{is_catalogue};
ghost use Rattle.calculus.specs.IsDatabase.{IsDatabase, row_fits};
ghost use Rattle.calculus.specs.Change.{IsLawful};
ghost use Rattle.quel_meaning.specs.Planned.{planned, heap_info};
ghost use Rattle.plan_laws.specs.Fitting.{IsFitRelation};

/// A relation that is made, under a key that nothing has, is a lawful change: without rows, as the
/// utilities make it, and with a set of rows that fit and are not too many.
pub fn a_new_relation_is_lawful()
    ensures rows { (db : Db) (rel : RelKey) (attrs : List Attr) (rows : List Row) → IsDatabase db → IsFitRelation db rel attrs
        → Ascends rows → IsTrue (list_all (row_fits attrs) rows) → IsTrue (nat_le (length rows) most_rows) → IsLawful db (change.Create (heap_info rel attrs) rows) }
    ensures empty { (db : Db) (user : List ℕ) (rel : RelKey) (attrs : List Attr) (made : DbChange)
        → IsDatabase db → IsFitRelation db rel attrs → planned db user (utility.Create rel attrs) ≡ Ok made → IsLawful db made }
{}

/// Relations, views and indexes that go, where that isn't refused, are a lawful change: no view that
/// stays names one that goes, and with a relation go its indexes, rules and permits.
pub fn destroying_is_lawful()
    ensures { (db : Db) (user : List ℕ) (rels : List RelKey) (made : DbChange)
        → IsDatabase db → IsTrue (list_all (λ key. is_there db key || is_catalogue db key) rels) → IsTrue (differ_by same_key rels)
        → planned db user (utility.Destroy rels) ≡ Ok made → IsLawful db made }
{}
