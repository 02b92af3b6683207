//! Levels and sizes of views, and what is read through them.

ghost use Rattle.std.specs.Prelude.{◌≡◌};
ghost use Rattle.calculus.specs.declared.query.RelKey.{RelKey};
ghost use Rattle.calculus.specs.declared.query.Query.{Query};
ghost use Rattle.calculus.specs.declared.request.Update.{Update};
ghost use Rattle.calculus.specs.Database.{Db};
ghost use Rattle.calculus.specs.Sizes.{level_of, measure_of, query_size, expanded_variables, update_expanded_variables, query_level};
ghost use Rattle.calculus.specs.Reads.{reads_of};
ghost use Rattle.calculus.specs.Schema.{schema_of};

/// Levels, sizes, numbers of variables and what is read are those of the schema.
pub fn levels_and_sizes_are_in_the_schema()
    ensures levels { (db : Db) (key : RelKey) → level_of (schema_of db) key ≡ level_of db key }
    ensures measures { (db : Db) (key : RelKey) → measure_of (schema_of db) key ≡ measure_of db key }
    ensures query_levels { (db : Db) (q : Query) → query_level (schema_of db) q ≡ query_level db q }
    ensures sizes { (db : Db) (q : Query) → query_size (schema_of db) q ≡ query_size db q }
    ensures variables { (db : Db) (q : Query) → expanded_variables (schema_of db) q ≡ expanded_variables db q }
    ensures update_variables { (db : Db) (u : Update) → update_expanded_variables (schema_of db) u ≡ update_expanded_variables db u }
    ensures reads { (db : Db) (key : RelKey) → reads_of (schema_of db) key ≡ reads_of db key }
{}
