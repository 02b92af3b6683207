//! What lies on pages that denote a database.

ghost use Rattle.catalog.specs.Lies.{LyingIsKnowing};

/// What is known in memory and lies on pages that denote a database of the same administrator, whose
/// indexes have the owners of their relations, is known of that database.
pub fn what_lies_is_known()
    ensures { LyingIsKnowing }
{}
