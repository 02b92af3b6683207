//! Where the rows of relations were seen last.

use calculus::OutOfMemory;
use relation_rows::RowSpots;
use std::alloc::Global;

/// Where the rows of the relations that were read were seen last, by the numbers of their files. What a
/// call does doesn't rest on it: it says where to look first.
pub struct SpotTable {
    tables: Vec<(u32, RowSpots)>,
}

impl Drop for SpotTable {
    fn drop(self) {
        let Self { tables: _ } = self;
    }
}

impl SpotTable {
    /// None were seen.
    pub fn new(alloc: Global) -> SpotTable {
        SpotTable {
            tables: Vec::new(alloc),
        }
    }

    /// Takes those of a file out.
    pub(crate) fn take(&mut self, alloc: Global, file: u32) -> RowSpots {
        match self.tables.iter().position(|(of, _spots)| *of == file) {
            Some(place) => self.tables.swap_remove(place).1,
            None => RowSpots::new(alloc),
        }
    }

    /// Puts those of a file in.
    pub(crate) fn put(&mut self, file: u32, spots: RowSpots) -> Result<(), OutOfMemory> {
        self.tables.retain(|(of, _spots)| *of != file);
        self.tables.push((file, spots))?;
        Ok(())
    }
}
