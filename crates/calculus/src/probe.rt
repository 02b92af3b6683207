//! Places of rows, and what rows are looked for.

use crate::{List, Value};

/// What rows are looked for.
#[derive(PartialEq, Eq)]
pub struct Probe {
    /// The places of attributes, counted from 0, each with the value that the row must have there;
    /// none means every row.
    pub equal: List<(u8, Value)>,
}

impl Drop for Probe {
    fn drop(self) {
        let Self { equal: _ } = self;
    }
}

/// Where a row lies in a file.
#[derive(Clone, Copy)]
pub struct Place {
    /// The page, counted from 0.
    pub page: u32,
    /// The line on the page, counted from 0.
    pub line: u16,
}
