//! Which changes are lawful.

ghost use Rattle.std.specs.Prelude.{◌↔◌, IsTrue};
ghost use Rattle.calculus.specs.declared.change.DbChange.{DbChange};
ghost use Rattle.calculus.specs.Database.{Db};
ghost use Rattle.calculus.specs.IsDatabase.{IsDatabase};
ghost use Rattle.calculus.specs.Change.{IsLawful};
ghost use Rattle.calculus.specs.Schema.{IsLawfulBySchema, rows_allow};

/// A change is lawful exactly where what the schema and the change alone decide holds, and the rows allow it.
pub fn a_change_is_lawful_by_schema_and_rows()
    ensures { (db : Db) (change : DbChange) → IsDatabase db → IsLawful db change ↔ (IsLawfulBySchema db change × IsTrue (rows_allow db change)) }
{}
