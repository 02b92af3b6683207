//! What stands in a part of a database.

ghost use Rattle.catalog_laws.specs.Loaded.{IsADatabase, HasTheSchema, StartsAsTheSchema, HasTheRows};

/// A part of a database is a database with the same schema; the part with no rows at all is that schema.
pub fn a_part_is_a_database()
    ensures is { IsADatabase }
    ensures schema { HasTheSchema }
    ensures starts { StartsAsTheSchema }
{}

/// Where the rows of a relation are known, they are those of the database; and so are those of what is no
/// relation.
pub fn a_part_has_the_rows()
    ensures { HasTheRows }
{}
