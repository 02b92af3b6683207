//! What becomes of a part of a database.

ghost use Rattle.catalog_laws.specs.Loaded.{TakesChanges, TakesRows};

/// A lawful change that names rows of known relations alone is lawful of a part, and makes of it the part
/// of what it makes of the database.
pub fn a_part_takes_changes()
    ensures { TakesChanges }
{}

/// Rows of a relation that are read come as a lawful change, and make of the part the one that knows them.
pub fn a_part_takes_rows()
    ensures { TakesRows }
{}
