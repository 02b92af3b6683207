//! What is printed of a database is read again.

ghost use Rattle.stored_database.specs.Laws.{WhatIsPrintedIsRead};

/// The catalogue that a database has, by files that it may have, spells that database.
#[tactic(auto, using(crate::proofs::PrintedLaw::what_is_printed_is_read))]
pub fn a_printed_catalogue_is_read()
    ensures { WhatIsPrintedIsRead }
{}
