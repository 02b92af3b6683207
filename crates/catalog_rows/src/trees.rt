//! The bytes of a tree in parts.

ghost use Rattle.std.specs.Prelude.{◌≡◌, ◌≤◌, ◌<◌, ◌*◌, ◌==◌, ◌&&◌, All, IfOk, OnOk, length, map, nat_le, None, []};
ghost use Rattle.std.specs.List.{concat, list_all};
ghost use Rattle.std.specs.Option.{ForSome};
ghost use Rattle.stored_database.specs.Parts.{part_bytes};
ghost use Rattle.stored_database.specs.Trees.{are_cut, cut, joined, parts_from};
ghost use Rattle.catalog_rows.specs.Shown.{part_in};
ghost use Rattle.page_chain.specs.Lists.{are_from};
ghost use Rattle.page_chain.specs.Lying.{IsShort};

use crate::part_rows::{PartRow, row_with};
use calculus::{List, OutOfMemory};
use std::alloc::Global;

/// The bytes of each part but the last.
const MOST_PART_BYTES: usize = 900;

/// The bytes of a tree that has a part at each place.
const MOST_TREE_BYTES: usize = 58_982_400;

/// Adds the rows of the parts of a tree, by their places.
fn add_parts(
    alloc: Global,
    rows: &mut Vec<List<u8>>,
    file: u32,
    sort: u8,
    number: u32,
    bytes: &[u8],
) -> Result<(), OutOfMemory>
    requires none { rows.old.items ≡ [] }
    requires few { length bytes.now ≤ 900 * 65536 }
    ensures rows { OnOk result (rows.new.items ≡ map part_bytes (parts_from file sort number 0 (cut bytes.now))) }
    ensures short { OnOk result (All (λ row. IsShort row) rows.new.items) }
{
    let mut rest = bytes;
    let mut place: u32 = 0;
    'parts: while !rest.is_empty() {
        let (piece, behind) = rest.split_at(MOST_PART_BYTES.min(rest.len()));
        let row = row_with(alloc, file, sort, number, place as u16, piece)?;
        rows.push(row)?;
        place += 1;
        rest = behind;
    }
    Ok(())
}

/// The rows of the parts of a tree with these bytes, by their places; `None` only where there are more
/// parts than places for them.
pub fn tree_parts(
    alloc: Global,
    file: u32,
    sort: u8,
    number: u32,
    bytes: &[u8],
) -> Result<Option<List<List<u8>>>, OutOfMemory>
    ensures rows { IfOk result (λ rows. ForSome rows (λ rows. rows ≡ map part_bytes (parts_from file sort number 0 (cut bytes.now)))) }
    ensures short { IfOk result (λ rows. ForSome rows (λ rows. All (λ row. IsShort row) rows)) }
    ensures long { IfOk result (λ rows. rows ≡ None → 900 * 65536 < length bytes.now) }
{
    if bytes.len() > MOST_TREE_BYTES {
        return Ok(None);
    }
    let mut rows = Vec::with_capacity(alloc, bytes.len().div_ceil(MOST_PART_BYTES))?;
    add_parts(alloc, &mut rows, file, sort, number, bytes)?;
    Ok(Some(List::of(rows)))
}

/// Whether the places of the parts are 0, 1, 2 and so on.
fn are_in_place(parts: &[PartRow]) -> bool
    ensures { result ≡ are_from (λ p. p.place) 0 (map part_in parts.now) }
{
    'parts: for (place, part) in parts.iter().enumerate() {
        if part.place as usize != place {
            return false;
        }
    }
    true
}

/// Whether each part is as long as one that isn't the last.
fn are_full(parts: &[PartRow]) -> bool
    ensures { result ≡ list_all (λ p. length p.bytes == 900) parts.now }
{
    parts
        .iter()
        .all(|part| part.bytes.items().len() == MOST_PART_BYTES)
}

/// Whether a part is as long as a last one may be.
fn is_last(part: &PartRow) -> bool
    ensures { result ≡ (nat_le 1 (length part.now.bytes) && nat_le (length part.now.bytes) 900) }
{
    let count = part.bytes.items().len();
    1 <= count && count <= MOST_PART_BYTES
}

/// Whether there are parts, and they are as long as those of a tree.
fn are_cut(parts: &[PartRow]) -> bool
    ensures { result ≡ are_cut (map (λ p. p.bytes) (map part_in parts.now)) }
{
    match parts.split_last() {
        Some((last, front)) => are_full(front) && is_last(last),
        None => false,
    }
}

/// The bytes of the parts, one behind the other.
fn together(alloc: Global, parts: &[PartRow]) -> Result<List<u8>, OutOfMemory>
    ensures { IfOk result (λ bytes. bytes ≡ concat (map (λ p. p.bytes) (map part_in parts.now))) }
{
    let mut bytes = Vec::new(alloc);
    'parts: for part in parts {
        bytes.extend_from_slice(part.bytes.items())?;
    }
    Ok(List::of(bytes))
}

/// The bytes of a tree, from its parts in the order of their places; `None` exactly where they aren't
/// those of one whole tree.
#[tactic(auto, unfolding(stored_database::specs::Trees::joined))]
pub fn joined_parts(alloc: Global, parts: &[PartRow]) -> Result<Option<List<u8>>, OutOfMemory>
    ensures { IfOk result (λ bytes. bytes ≡ joined (map part_in parts.now)) }
{
    if !are_in_place(parts) || !are_cut(parts) {
        return Ok(None);
    }
    let bytes = together(alloc, parts)?;
    Ok(Some(bytes))
}
