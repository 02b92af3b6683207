//! What a catalogue spells, whatever rows lie on the pages of its relations.

ghost use Rattle.catalog_laws.specs.Made.{ThereAreEmptyPages};
ghost use Rattle.catalog_laws.specs.Unread.{AreSpelledOnce, PartsAreSpelled};

/// For each number of pages, one at least and below 2^32, there are so many pages of a file, one behind the
/// other on a chain, on which no row lies.
#[tactic(auto, using(crate::proofs::EmptyPages::there_are_empty_pages))]
pub fn empty_pages_are_there()
    ensures { ThereAreEmptyPages }
{}

/// The database without rows that the parts of a catalogue make is spelled by that catalogue on some image,
/// which has the same pages in files below 16.
#[tactic(auto, using(crate::proofs::Spelling::parts_are_spelled))]
pub fn parts_are_spelled()
    ensures { PartsAreSpelled }
{}

/// Two databases that a catalogue spells, on whatever pages each, have the same schema.
#[tactic(auto, using(crate::proofs::Spelling::are_spelled_once))]
pub fn what_is_spelled_has_one_schema()
    ensures { AreSpelledOnce }
{}
