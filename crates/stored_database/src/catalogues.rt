//! What catalogues and databases say of each other.

ghost use Rattle.stored_database.specs.Laws.{CataloguesAreRead, WhatIsListed, WhatIsPrintedIsACatalogue, WhatIsReadIsPrinted};

/// What is read of files 5, 6 and 7 is a catalogue: three sets in their order, of items that have bytes.
#[tactic(auto, using(crate::proofs::CatalogueRead::catalogues_are_read))]
pub fn catalogues_are_read()
    ensures { CataloguesAreRead }
{}

/// A catalogue that spells a database is the one that the database has, by the files that its entries
/// say; and these are files that the database may have.
#[tactic(auto, using(crate::proofs::FilesAgain::what_is_read_is_printed))]
pub fn what_is_read_is_printed()
    ensures { WhatIsReadIsPrinted }
{}

/// The catalogue that a database has, by files that it may have, is one whose items all have bytes, where
/// no tree has too many parts.
#[tactic(auto, using(crate::proofs::PrintedStands::what_is_printed_is_a_catalogue))]
pub fn what_is_printed_is_a_catalogue()
    ensures { WhatIsPrintedIsACatalogue }
{}

/// A file lists entries, attributes or parts exactly where they ascend and the rows on its chain are
/// their bytes, each once and in any order.
#[tactic(auto, using(crate::proofs::Listing::what_is_listed))]
pub fn what_is_listed()
    ensures { WhatIsListed }
{}
