//! What a lawful change leaves on the pages of a database.

ghost use Rattle.calculus.specs.declared.change.DbChange.{DbChange};
ghost use Rattle.catalog_laws.specs.Followed.{CatalogueFollows};
ghost use Rattle.catalog_laws.specs.Placed.{FilesStand, FirstFilesStay};

/// Where a change gives what it makes a file that nothing has, and the relation whose rows it changes or
/// that it makes has its rows on its pages, each relation has its rows afterwards, and files differ; the
/// pages of files below 16 stay.
pub fn what_a_change_leaves()
    ensures files { (made : DbChange) → FilesStand made }
    ensures first { (made : DbChange) → FirstFilesStay made }
{}

/// The rows that go and come with a change make of the catalogue of a database that of the database
/// afterwards, as they are said of a part of it that differs in rows of relations alone.
pub fn the_catalogue_follows()
    ensures { (made : DbChange) → CatalogueFollows made }
{}
