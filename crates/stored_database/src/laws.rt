//! What a change of a database does to its catalogue.

ghost use Rattle.calculus.specs.declared.change.DbChange.{DbChange};
ghost use Rattle.stored_database.specs.ChangeLaws.{ChangesRows, ChangesTheCatalogue, FilesDifferAgain};
ghost use Rattle.stored_database.specs.Renumbered.{RenumbersTheCatalogue, RenumbersRows};

/// The catalogue after a lawful change is the one before without the rows that go and with those that
/// come, set by set, where the files agree on what stays.
#[tactic(auto, using(crate::proofs::Every::every_change))]
pub fn each_change_changes_the_catalogue()
    ensures { (made : DbChange) → ChangesTheCatalogue made }
{}

/// And the rows that go are there, each listed once; wherever the rows of a set lie, of those that stay
/// and those that come no two are equal, and they are the set afterwards.
#[tactic(auto, using(crate::proofs::Every::every_row))]
pub fn what_goes_is_there_and_what_comes_is_new()
    ensures { (made : DbChange) → ChangesRows made }
{}

/// Where what a change makes has a file of its own and the files agree on what stays, the files differ
/// afterwards as they did before.
#[tactic(auto, using(crate::proofs::FilesDiffer::differ_again))]
pub fn files_differ_again()
    ensures { (made : DbChange) → FilesDifferAgain made }
{}

/// Where what stands under a key gets another file, or another number of pages, the catalogue is the one
/// before without the rows of what would be destroyed with that key, and with the rows that the same has
/// by the new files.
#[tactic(auto, using(crate::proofs::Renumbered::renumbers_the_catalogue))]
pub fn another_file_renumbers_the_catalogue()
    ensures { RenumbersTheCatalogue }
{}

/// And the rows that go are there, each listed once; wherever the rows of a set lie, of those that stay
/// and those that come no two are equal, and they are the set afterwards.
#[tactic(auto, using(crate::proofs::Renumbered::renumbers_rows))]
pub fn what_is_renumbered_is_there_and_comes_anew()
    ensures { RenumbersRows }
{}
