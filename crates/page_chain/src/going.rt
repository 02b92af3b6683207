//! Rows that are to go, looked up by their bytes.

ghost use Rattle.std.specs.Prelude.{◌≡◌, IfOk, length};
ghost use Rattle.page_chain.specs.Lying.{is_among};

use memory::{List, OutOfMemory};
use std::alloc::Global;
use std::collections::BTreeSet;
use std::marker::Model;

/// Rows that are to go. Contracts see them as they were listed.
#[derive(Drop)]
pub struct GoingRows<'a> {
    listed: &'a [List<u8>],
    sorted: BTreeSet<&'a [u8]>,
}

impl<'a> Model for GoingRows<'a> {
    ghost use Rattle.std.specs.Prelude.{ℕ, List};
    ghost use Rattle.page_chain.specs.Going.{IsSetOf};

    ghost Value = { List (List ℕ) };

    ghost view = { λ rows. rows.listed.now };

    ghost invariant = { λ rows. IsSetOf rows.listed.now rows.sorted.keys };
}

impl<'a> GoingRows<'a> {
    /// These rows.
    pub fn of(alloc: Global, rows: &'a [List<u8>]) -> Result<GoingRows<'a>, OutOfMemory>
        ensures { IfOk result (λ going. going ≡ rows.now) }
    {
        let sorted = rows.iter().map(|row| row.items()).collect(alloc)?;
        Ok(GoingRows {
            listed: rows,
            sorted,
        })
    }

    /// How many they are.
    pub fn len(&self) -> usize
        ensures { result ≡ length self.now }
    {
        self.listed.len()
    }

    /// Whether a row is one of them.
    pub fn has(&self, row: &[u8]) -> bool
        ensures { result ≡ is_among self.now row.now }
    {
        self.sorted.contains(row)
    }
}
