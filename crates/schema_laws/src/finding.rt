//! What is found by a name, and what is known of it.

ghost use Rattle.std.specs.Prelude.{◌≡◌, ℕ, List};
ghost use Rattle.calculus.specs.declared.query.RelKey.{RelKey};
ghost use Rattle.calculus.specs.Database.{Db, entries};
ghost use Rattle.calculus.specs.Stored.{info_at};
ghost use Rattle.calculus.specs.Finding.{found};
ghost use Rattle.calculus.specs.Schema.{schema_of};

/// A schema has the relations, views and indexes of its database, and the same is found there by each name.
pub fn what_is_found_is_in_the_schema()
    ensures entries { (db : Db) → entries (schema_of db) ≡ entries db }
    ensures known { (db : Db) (key : RelKey) → info_at (schema_of db) key ≡ info_at db key }
    ensures found { (db : Db) (user name : List ℕ) → found (schema_of db) user name ≡ found db user name }
{}
