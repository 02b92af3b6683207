//! What a statement is answered.

use crate::value::Kind;
use crate::{List, Name, Row};

/// A refusal of a statement, a batch or a command of the monitor.
#[derive(Clone, Copy, PartialEq, Eq)]
pub struct Refusal {
    /// Its number, which says the cause.
    pub code: u8,
    /// The line of the batch, counted from 1; 0 for a command of the monitor.
    pub line: u32,
    /// The row of a copied file that is bad, counted from 1; 0 where the cause is no such row.
    pub row: u32,
}

/// A column of a table.
#[derive(PartialEq, Eq)]
pub struct Column {
    /// Its title.
    pub name: Name,
    /// What its values are.
    pub kind: Kind,
}

impl Drop for Column {
    fn drop(self) {
        let Self { name: _, kind: _ } = self;
    }
}

/// A table that is printed.
#[derive(PartialEq, Eq)]
pub struct Table {
    /// Its columns, in order.
    pub columns: List<Column>,
    /// Its rows, in the order in which they are printed.
    pub rows: List<Row>,
}

impl Drop for Table {
    fn drop(self) {
        let Self {
            columns: _,
            rows: _,
        } = self;
    }
}

/// What a statement is answered.
#[derive(PartialEq, Eq)]
pub enum Reply {
    /// Nothing is printed.
    Nothing,
    /// It is done, and said to be.
    Done,
    /// It is refused, and changed nothing.
    Refused(Refusal),
    /// Tables.
    Tables(List<Table>),
}

impl Drop for Reply {
    fn drop(self) {
        match self {
            Reply::Nothing | Reply::Done | Reply::Refused(_) | Reply::Tables(_) => {}
        }
    }
}
