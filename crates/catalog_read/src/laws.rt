//! What a catalogue says without the rows of its relations.

ghost use Rattle.catalog_read.specs.Laws.{SpellsItsSchema};

/// A catalogue that spells a database has the parts of its schema: they make that database without the
/// rows of its relations.
#[tactic(auto, using(crate::proofs::SpellsSchema::spells_its_schema))]
pub fn a_catalogue_spells_its_schema()
    ensures { SpellsItsSchema }
{}
