//! Which file each relation, view and index has; and the rows of the catalogues that go and come with a
//! change.
#![tactic(auto)]

mod asked;
mod changed_relation;
mod dropping;
mod files;
mod going;
mod gone;
mod gone_trees;
mod key_set;
mod keys;
mod made_rows;
mod moving;
mod renumbering;
mod rows;
mod trees;
mod writing;

pub use files::{FilePlace, FileTable};
pub use key_set::KeySet;
pub use moving::moves;
pub use renumbering::renumber;
pub use rows::{FileMoves, Moves};
