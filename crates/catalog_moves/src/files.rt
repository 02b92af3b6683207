//! Which file each relation, view and index has, and how many pages.

ghost use Rattle.std.specs.Prelude.{◌≤◌};
ghost use Rattle.std.specs.List.{AllByRecursion};
ghost use Rattle.std.specs.List.Sorted.{IsStrictlySortedBy};
ghost use Rattle.std.proofs.Props.{props};
ghost use Rattle.calculus.specs.Keys.{key_cmp};

mod asking;
mod places;
mod putting;
mod reading;
mod renumbering;

use calculus::RelKey;

/// Where what stands under a key lies.
#[derive(Drop)]
pub struct FilePlace {
    /// What names it.
    pub key: RelKey,
    /// The number of its file.
    pub file: u32,
    /// How many pages it has.
    pub used: u32,
    /// Of an index the file of its relation, else 0.
    pub base: u32,
}

/// The file of each relation, view and index, by their keys.
pub struct FileTable {
    pub(crate) places: Vec<FilePlace>,
    pub(crate) greatest: u32,
    ghost up: { IsStrictlySortedBy (λ a b. key_cmp a.key b.key) places.items } by { Prim.hlevel props },
    ghost bound: { AllByRecursion (λ p. p.file ≤ greatest) places.items } by { Prim.hlevel props },
}

impl Drop for FileTable {
    fn drop(self) {
        let Self {
            places: _,
            greatest: _,
        } = self;
    }
}
