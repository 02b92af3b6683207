//! The rows of file 5: what is a relation, a view or an index, and which file is its own.

ghost use Rattle.std.specs.Prelude.{◌≡◌, ◌≤◌, ◌&&◌, ◌++◌, IsTrue, IfOk, IfSome, OnOk, bytes_eq, drop, length, option_map, slice_index, take};
ghost use Rattle.byteorder.specs.Endian.{little_from};
ghost use Rattle.calculus.specs.Lists.{is_any};
ghost use Rattle.calculus.specs.Name.{is_name};
ghost use Rattle.page_chain.specs.Lists.{when};
ghost use Rattle.page_chain.specs.Lying.{IsShort};
ghost use Rattle.stored_database.specs.Entries.{entry_bytes, entry_in as entry_at, entry_of, fields_in, has_no_pages, is_one_chain, keys_bytes, spec_number, spec_of, suits_spec};
ghost use Rattle.stored_database.specs.Names.{bytes32, name_bytes};
ghost use Rattle.catalog_rows.specs.Shown.{entry_in, is_in_order, key_at};

use crate::adding::{add_name, add_number};
use crate::places::{name_in, number_at};
use calculus::limits::MOST_KEYS;
use calculus::{List, OutOfMemory, RelKey, Spec};
use std::alloc::Global;

/// How many bytes the row of an entry has.
const ENTRY_BYTES: usize = 52;

/// The first file that may be an entry's own.
const FIRST_FILE: u32 = 16;

/// A relation, a view or an index, as its row says.
#[derive(Drop)]
pub struct EntryRow {
    /// The file that is its own.
    pub file: u32,
    /// What names it.
    pub key: RelKey,
    /// What it is.
    pub spec: Spec,
    /// Of an index the file of its relation, else 0.
    pub base: u32,
    /// How many primary pages a relation has.
    pub primary: u32,
    /// How many pages its directory has.
    pub directory: u32,
    /// How many pages it has in all.
    pub used: u32,
    /// The places of its key attributes.
    pub keys: List<u8>,
}

/// The number of what an entry is.
fn spec_number(spec: Spec) -> u8
    ensures { result ≡ spec_number spec }
{
    match spec {
        Spec::Heap => 0,
        Spec::Hash => 1,
        Spec::Isam => 2,
        Spec::View => 3,
        Spec::Index => 4,
    }
}

/// What an entry is, by its number.
fn spec_of(number: u8) -> Option<Spec>
    ensures { result ≡ spec_of number }
{
    match number {
        0 => Some(Spec::Heap),
        1 => Some(Spec::Hash),
        2 => Some(Spec::Isam),
        3 => Some(Spec::View),
        4 => Some(Spec::Index),
        _ => None,
    }
}

// ---- bytes of an entry

/// Adds an owner and a name.
fn add_key(row: &mut Vec<u8>, key: &RelKey) -> Result<(), OutOfMemory>
    ensures bytes { OnOk result (row.new.items ≡ row.old.items ++ (name_bytes key.now.owner ++ name_bytes key.now.name)) }
    ensures owner { OnOk result (IsTrue (is_name key.now.owner)) }
    ensures name { OnOk result (IsTrue (is_name key.now.name)) }
{
    add_name(row, &key.owner)?;
    add_name(row, &key.name)
}

/// Adds the file of an index's relation, and how many primary pages and pages of the directory there are.
fn add_first_pages(row: &mut Vec<u8>, entry: &EntryRow) -> Result<(), OutOfMemory>
    ensures { OnOk result (row.new.items ≡ row.old.items ++ (bytes32 entry.now.base ++ (bytes32 entry.now.primary ++ bytes32 entry.now.directory))) }
{
    add_number(row, entry.base)?;
    add_number(row, entry.primary)?;
    add_number(row, entry.directory)
}

/// Adds the file of an index's relation, and how many pages there are.
fn add_pages(row: &mut Vec<u8>, entry: &EntryRow) -> Result<(), OutOfMemory>
    ensures { OnOk result (row.new.items ≡ row.old.items ++ (bytes32 entry.now.base ++ (bytes32 entry.now.primary ++ (bytes32 entry.now.directory ++ bytes32 entry.now.used)))) }
{
    add_first_pages(row, entry)?;
    add_number(row, entry.used)
}

/// Adds the keys in six bytes, behind their number.
fn add_keys(row: &mut Vec<u8>, keys: &[u8]) -> Result<(), OutOfMemory>
    requires { length keys.now ≤ 6 }
    ensures { OnOk result (row.new.items ≡ row.old.items ++ keys_bytes keys.now) }
{
    let behind = [0; MOST_KEYS];
    row.push(keys.len() as u8)?;
    row.extend_from_slice(keys)?;
    row.extend_from_slice(&behind[keys.len()..])?;
    Ok(())
}

/// Adds the bytes of an entry.
fn add_entry(row: &mut Vec<u8>, entry: &EntryRow) -> Result<(), OutOfMemory>
    requires { length entry.now.keys ≤ 6 }
    ensures bytes { OnOk result (row.new.items ≡ row.old.items ++ entry_bytes (entry_in entry.now)) }
    ensures owner { OnOk result (IsTrue (is_name entry.now.key.owner)) }
    ensures name { OnOk result (IsTrue (is_name entry.now.key.name)) }
{
    add_number(row, entry.file)?;
    add_key(row, &entry.key)?;
    row.push(spec_number(entry.spec))?;
    add_pages(row, entry)?;
    add_keys(row, entry.keys.items())?;
    Ok(())
}

/// The bytes of an entry.
#[tactic(auto, using(crate::proofs::Lengths::entry_is_short))]
pub fn entry_row(alloc: Global, entry: &EntryRow) -> Result<List<u8>, OutOfMemory>
    requires few_keys { length entry.now.keys ≤ 6 }
    ensures bytes { IfOk result (λ row. row ≡ entry_bytes (entry_in entry.now)) }
    ensures short { IfOk result (λ row. IsShort row) }
{
    let mut row = Vec::with_capacity(alloc, ENTRY_BYTES)?;
    add_entry(&mut row, entry)?;
    Ok(List::of(row))
}

// ---- which entries there are

/// Whether there are no pages.
fn has_no_pages(entry: &EntryRow) -> bool
    ensures { result ≡ has_no_pages (entry_in entry.now) }
{
    entry.primary == 0 && entry.directory == 0 && entry.used == 0
}

/// Whether the pages are one chain from page 0 on, and there is no directory.
fn is_one_chain(entry: &EntryRow) -> bool
    ensures { result ≡ is_one_chain (entry_in entry.now) }
{
    entry.primary == 1 && entry.directory == 0 && entry.used >= 1
}

/// Whether there are keys.
fn has_keys(entry: &EntryRow) -> bool
    ensures { result ≡ is_any entry.now.keys }
{
    !entry.keys.items().is_empty()
}

/// Whether pages, keys and base are those of what it is.
#[tactic(auto, unfolding(stored_database::specs::Entries::suits_spec))]
fn suits_spec(entry: &EntryRow) -> bool
    ensures { result ≡ suits_spec (entry_in entry.now) }
{
    match entry.spec {
        Spec::Heap => entry.base == 0 && is_one_chain(entry),
        Spec::Hash => entry.base == 0 && is_one_chain(entry),
        Spec::Isam => entry.base == 0 && is_one_chain(entry),
        Spec::View => entry.base == 0 && has_no_pages(entry) && !has_keys(entry),
        Spec::Index => has_no_pages(entry),
    }
}

/// Whether it has its own file, not too many keys, and what suits what it is.
fn is_in_order(entry: &EntryRow) -> bool
    ensures { result ≡ is_in_order (entry_in entry.now) }
{
    entry.file >= FIRST_FILE && entry.keys.items().len() <= MOST_KEYS && suits_spec(entry)
}

/// Whether its bytes are these.
fn has_bytes(alloc: Global, entry: &EntryRow, bytes: &[u8]) -> Result<bool, OutOfMemory>
    requires { length entry.now.keys ≤ 6 }
    ensures { IfOk result (λ has. has ≡ bytes_eq bytes.now (entry_bytes (entry_in entry.now))) }
{
    let row = entry_row(alloc, entry)?;
    Ok(bytes == row.items())
}

/// Whether it is in order, and its bytes are these.
fn is_of(alloc: Global, entry: &EntryRow, bytes: &[u8]) -> Result<bool, OutOfMemory>
    requires { length entry.now.keys ≤ 6 }
    ensures { IfOk result (λ is. is ≡ (is_in_order (entry_in entry.now) && bytes_eq bytes.now (entry_bytes (entry_in entry.now)))) }
{
    if !is_in_order(entry) {
        return Ok(false);
    }
    has_bytes(alloc, entry, bytes)
}

/// The entry, where it is in order and its bytes are these.
fn only_of(alloc: Global, entry: EntryRow, bytes: &[u8]) -> Result<Option<EntryRow>, OutOfMemory>
    requires { length entry.keys ≤ 6 }
    ensures { IfOk result (λ found. option_map entry_in found ≡ when (is_in_order (entry_in entry) && bytes_eq bytes.now (entry_bytes (entry_in entry))) (entry_in entry)) }
{
    match is_of(alloc, &entry, bytes) {
        Ok(true) => Ok(Some(entry)),
        Ok(false) => Ok(None),
        Err(want) => Err(want),
    }
}

// ---- the entry of bytes

/// The names in their places.
fn key_at(alloc: Global, bytes: &[u8]) -> Result<Option<RelKey>, OutOfMemory>
    requires { length bytes.now ≡ 52 }
    ensures { IfOk result (λ key. key ≡ key_at bytes.now) }
{
    let Some(owner) = name_in(alloc, &bytes[4..16])? else {
        return Ok(None);
    };
    match name_in(alloc, &bytes[16..28]) {
        Ok(Some(name)) => Ok(Some(RelKey { owner, name })),
        Ok(None) => Ok(None),
        Err(want) => Err(want),
    }
}

/// The places of the keys: as many as are said, but no more than there is room for.
fn keys_at(alloc: Global, bytes: &[u8]) -> Result<List<u8>, OutOfMemory>
    requires { length bytes.now ≡ 52 }
    ensures keys { IfOk result (λ keys. keys ≡ take (slice_index bytes.now 45) (drop 46 bytes.now)) }
    ensures few { IfOk result (λ keys. length keys ≤ 6) }
{
    let count = (bytes[45] as usize).min(MOST_KEYS);
    let keys = Vec::from_slice(alloc, &bytes[46..46 + count])?;
    Ok(List::of(keys))
}

/// The entry of these names that is of this sort, and what stands in the places behind.
fn entry_with(alloc: Global, key: RelKey, spec: Spec, bytes: &[u8]) -> Result<EntryRow, OutOfMemory>
    requires { length bytes.now ≡ 52 }
    ensures entry { IfOk result (λ entry. entry_in entry ≡ fields_in (little_from 0 4 bytes.now) key spec (drop 28 bytes.now)) }
    ensures few { IfOk result (λ entry. length entry.keys ≤ 6) }
{
    let keys = keys_at(alloc, bytes)?;
    Ok(EntryRow {
        file: number_at(bytes, 0),
        key,
        spec,
        base: number_at(bytes, 29),
        primary: number_at(bytes, 33),
        directory: number_at(bytes, 37),
        used: number_at(bytes, 41),
        keys,
    })
}

/// What stands in the places of an entry.
fn entry_at(alloc: Global, bytes: &[u8]) -> Result<Option<EntryRow>, OutOfMemory>
    requires { length bytes.now ≡ 52 }
    ensures entry { IfOk result (λ entry. option_map entry_in entry ≡ entry_at bytes.now) }
    ensures few { IfOk result (λ entry. IfSome entry (λ entry. length entry.keys ≤ 6)) }
{
    let Some(key) = key_at(alloc, bytes)? else {
        return Ok(None);
    };
    let Some(spec) = spec_of(bytes[28]) else {
        return Ok(None);
    };
    let entry = entry_with(alloc, key, spec, bytes)?;
    Ok(Some(entry))
}

/// The entry whose bytes a row is; `None` exactly where it is that of none.
#[tactic(auto, using(crate::proofs::Lengths::other_lengths_are_no_entry, crate::proofs::Tests::entry_where))]
pub fn read_entry(alloc: Global, bytes: &[u8]) -> Result<Option<EntryRow>, OutOfMemory>
    ensures { IfOk result (λ entry. option_map entry_in entry ≡ entry_of bytes.now) }
{
    if bytes.len() != ENTRY_BYTES {
        return Ok(None);
    }
    match entry_at(alloc, bytes)? {
        Some(entry) => only_of(alloc, entry, bytes),
        None => Ok(None),
    }
}
