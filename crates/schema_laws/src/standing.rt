//! What a schema is.

ghost use Rattle.calculus.specs.Database.{Db};
ghost use Rattle.calculus.specs.IsDatabase.{IsDatabase};
ghost use Rattle.calculus.specs.Schema.{schema_of};

/// The schema of a database is itself a database.
pub fn a_schema_is_a_database()
    ensures { (db : Db) → IsDatabase db → IsDatabase (schema_of db) }
{}
