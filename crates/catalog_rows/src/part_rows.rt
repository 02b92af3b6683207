//! The rows of file 7: the parts of trees.

ghost use Rattle.std.specs.Prelude.{◌≡◌, ◌≤◌, ◌++◌, IfOk, OnOk, length, option_map};
ghost use Rattle.page_chain.specs.Lying.{IsShort};
ghost use Rattle.stored_database.specs.Parts.{part_bytes, part_of};
ghost use Rattle.catalog_rows.specs.Shown.{part_in};

use crate::adding::{add_number, add_place};
use crate::places::{number_at, place_at};
use calculus::{List, OutOfMemory};
use std::alloc::Global;

/// How many bytes the row of a part has in front of those of the part.
const PART_BYTES: usize = 11;

/// The greatest number of a sort of trees.
const LAST_SORT: u8 = 2;

/// A part of a tree, as its row says.
#[derive(Drop)]
pub struct PartRow {
    /// The file of what the tree belongs to.
    pub file: u32,
    /// The sort of the tree: 0 the query of a view, 1 a rule, 2 a permit.
    pub sort: u8,
    /// The number of the rule or permit; 0 of a view.
    pub number: u32,
    /// The place of the part in the tree, counted from 0.
    pub place: u16,
    /// The bytes.
    pub bytes: List<u8>,
}

/// The part whose bytes a row is; `None` exactly where it is that of none.
#[tactic(auto, using(crate::proofs::Lengths::short_rows_are_no_part, crate::proofs::Fields::part_where_sort_is, crate::proofs::Fields::other_sorts_are_no_part), unfolding(stored_database::specs::Parts::part_in))]
pub fn read_part(alloc: Global, bytes: &[u8]) -> Result<Option<PartRow>, OutOfMemory>
    ensures { IfOk result (λ part. option_map part_in part ≡ part_of bytes.now) }
{
    if bytes.len() < PART_BYTES || bytes[4] > LAST_SORT {
        return Ok(None);
    }
    let behind = Vec::from_slice(alloc, bytes.split_at(PART_BYTES).1)?;
    Ok(Some(PartRow {
        file: number_at(bytes, 0),
        sort: bytes[4],
        number: number_at(bytes, 5),
        place: place_at(bytes, 9),
        bytes: List::of(behind),
    }))
}

/// Adds the bytes of a part.
fn add_part(
    row: &mut Vec<u8>,
    file: u32,
    sort: u8,
    number: u32,
    place: u16,
    bytes: &[u8],
) -> Result<(), OutOfMemory>
    ensures { OnOk result (row.new.items ≡ row.old.items ++ part_bytes (record { file = file; sort = sort; number = number; place = place; bytes = bytes.now })) }
{
    add_number(row, file)?;
    row.push(sort)?;
    add_number(row, number)?;
    add_place(row, place)?;
    row.extend_from_slice(bytes)?;
    Ok(())
}

/// The bytes of the part of a tree that has these bytes.
#[tactic(auto, using(crate::proofs::Lengths::part_is_short))]
pub(crate) fn row_with(
    alloc: Global,
    file: u32,
    sort: u8,
    number: u32,
    place: u16,
    bytes: &[u8],
) -> Result<List<u8>, OutOfMemory>
    requires few_bytes { length bytes.now ≤ 900 }
    ensures bytes { IfOk result (λ row. row ≡ part_bytes (record { file = file; sort = sort; number = number; place = place; bytes = bytes.now })) }
    ensures short { IfOk result (λ row. IsShort row) }
{
    let mut row = Vec::with_capacity(alloc, PART_BYTES + bytes.len())?;
    add_part(&mut row, file, sort, number, place, bytes)?;
    Ok(List::of(row))
}

/// The bytes of a part.
pub fn part_row(alloc: Global, part: &PartRow) -> Result<List<u8>, OutOfMemory>
    requires few_bytes { length part.now.bytes ≤ 900 }
    ensures bytes { IfOk result (λ row. row ≡ part_bytes (part_in part.now)) }
    ensures short { IfOk result (λ row. IsShort row) }
{
    row_with(
        alloc,
        part.file,
        part.sort,
        part.number,
        part.place,
        part.bytes.items(),
    )
}
