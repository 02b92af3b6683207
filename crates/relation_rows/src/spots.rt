//! Where the rows of a relation's file were seen last.

use calculus::{OutOfMemory, Row, Value};
use memory::List;
use std::alloc::Global;
use std::collections::HashMap;

/// Pages that follow each other.
#[derive(Clone, Copy)]
pub(crate) struct PageRange {
    /// The first of them.
    pub(crate) first: u32,
    /// The last of them.
    pub(crate) last: u32,
}

/// A number that two others make.
fn mixed(mark: u64, part: u64) -> u64 {
    (mark ^ part)
        .wrapping_mul(0x9E37_79B9_7F4A_7C15)
        .rotate_left(29)
}

/// A number that stands for bytes; others may have it, too.
fn mark_of_bytes(bytes: &[u8]) -> u64 {
    let mut mark = 1;
    'bytes: for byte in bytes {
        mark = mixed(mark, *byte as u64);
    }
    mark
}

/// A number that stands for a value; another may have it, too.
fn mark_of_value(value: &Value) -> u64 {
    match value {
        Value::Int(number) => mark_of_bytes(&number.to_le_bytes()),
        Value::Text(text) => mark_of_bytes(text.bytes()),
    }
}

/// A number that stands for a row; another may have it, too.
fn mark_of(row: &Row) -> u64 {
    let mut mark = 0;
    'values: for value in row.values() {
        mark = mixed(mark, mark_of_value(value));
    }
    mark
}

/// On which page of its file each row of a relation was seen last. What a call does doesn't rest on it:
/// it says where to look first. A row that moved since, or that has its number from another, is looked
/// for on all pages.
#[derive(Drop)]
pub struct RowSpots {
    pages: HashMap<u64, u32>,
    unseen: Vec<PageRange>,
}

impl RowSpots {
    /// None was seen.
    pub fn new(alloc: Global) -> RowSpots {
        RowSpots {
            pages: HashMap::new(alloc),
            unseen: Vec::new(alloc),
        }
    }

    /// These rows were seen on a page.
    pub(crate) fn see(&mut self, found: &[(u16, Row)], page: u32) -> Result<(), OutOfMemory> {
        'found: for (_line, row) in found {
            self.pages.insert(mark_of(row), page)?;
        }
        Ok(())
    }

    /// These rows went.
    fn forget(&mut self, rows: &[Row]) {
        'rows: for row in rows {
            self.pages.remove(&mark_of(row));
        }
    }

    /// Rows may have come to these pages.
    fn changed(&mut self, first: u32, last: u32) -> Result<(), OutOfMemory> {
        if let Some(range) = self.unseen.last_mut() {
            if range.first <= first && first <= range.last {
                range.last = range.last.max(last);
                return Ok(());
            }
        }
        self.unseen.push(PageRange { first, last })?;
        Ok(())
    }

    /// Takes the pages out to which rows may have come.
    pub(crate) fn take_unseen(&mut self, alloc: Global) -> List<PageRange> {
        List::of(std::mem::replace(&mut self.unseen, Vec::new(alloc)))
    }

    /// Rows went and others came, as far as there was room on these pages, and then behind what had so
    /// many pages; without such pages wherever the rows were. The file has so many pages now.
    pub(crate) fn note(
        &mut self,
        near: &[u32],
        remove: &[Row],
        add: &[Row],
        before: u32,
        now: u32,
    ) -> Result<(), OutOfMemory> {
        self.forget(remove);
        if add.is_empty() {
            return Ok(());
        }
        if near.is_empty() && !remove.is_empty() {
            return self.changed(0, now);
        }
        'near: for page in near {
            self.changed(*page, *page)?;
        }
        self.changed(before.saturating_sub(1), now)
    }

    /// The page on which the row was seen.
    fn page_of(&self, row: &Row) -> Option<u32> {
        self.pages.get(&mark_of(row)).copied()
    }

    /// The pages on which these rows were seen, in their order, each once; none where one wasn't seen.
    pub(crate) fn near(&self, alloc: Global, rows: &[Row]) -> Result<List<u32>, OutOfMemory> {
        let mut pages = Vec::new(alloc);
        'rows: for row in rows {
            match self.page_of(row) {
                Some(page) => pages.push(page)?,
                None => return Ok(List::of(Vec::new(alloc))),
            }
        }
        pages.sort_unstable();
        pages.dedup();
        Ok(List::of(pages))
    }
}
