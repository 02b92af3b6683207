//! The numbers and the bytes that stand on a page.

ghost use Rattle.std.specs.Prelude.{◌≡◌, ◌⊎◌, ◌+◌, ◌*◌, ◌<◌, ◌≤◌, ℕ, length, slice_index, slice_range};
ghost use Rattle.page_cells.specs.Page.{number_at, next_page, lines, low, offset, size};

use byteorder::{ByteOrder, LittleEndian};
use disk_model::Page;

/// The number in the four bytes from 0.
#[tactic(auto, unfolding(crate::specs::Page::next_page))]
pub fn next_number(page: &Page) -> u32
    ensures { result ≡ next_page page.now }
{
    LittleEndian::read_u32(page)
}

/// Puts a number into the four bytes from 0.
#[tactic(auto, unfolding(crate::specs::Page::next_page))]
pub fn put_next_number(page: &mut Page, n: u32)
    ensures there { next_page page.new ≡ n }
    ensures others { (i : ℕ) → 4 ≤ i → slice_index page.new i ≡ slice_index page.old i }
{
    LittleEndian::write_u32(page, n);
}

/// The number in the two bytes from a place.
fn number(page: &Page, at: usize) -> u16
    requires { at + 2 ≤ 1024 }
    ensures { result ≡ number_at page.now at }
{
    LittleEndian::read_u16(&page[at..at + 2])
}

/// Puts a number into the two bytes from a place.
pub fn put_number(page: &mut Page, at: usize, n: u16)
    requires { at + 2 ≤ 1024 }
    ensures there { number_at page.new at ≡ n }
    ensures others { (i : ℕ) → (i < at) ⊎ (at + 2 ≤ i) → slice_index page.new i ≡ slice_index page.old i }
{
    LittleEndian::write_u16(&mut page[at..at + 2], n);
}

/// Puts bytes from a place on.
pub fn put_bytes(page: &mut Page, at: usize, bytes: &[u8])
    requires { at + length bytes.now ≤ 1024 }
    ensures there { slice_range page.new at (at + length bytes.now) ≡ bytes.now }
    ensures others { (i : ℕ) → (i < at) ⊎ (at + length bytes.now ≤ i) → slice_index page.new i ≡ slice_index page.old i }
{
    page[at..at + bytes.len()].copy_from_slice(bytes);
}

/// How many lines the page has.
pub fn lines(page: &Page) -> u16
    ensures { result ≡ lines page.now }
{
    number(page, 4)
}

/// Where the rows of the page begin.
pub fn low(page: &Page) -> usize
    ensures { result ≡ low page.now }
{
    number(page, 6) as usize
}

/// Where the row of a line begins.
pub fn offset(page: &Page, line: u16) -> usize
    requires { 12 + 4 * line ≤ 1024 }
    ensures { result ≡ offset page.now line }
{
    number(page, 8 + 4 * line as usize) as usize
}

/// How many bytes the row of a line has.
pub fn size(page: &Page, line: u16) -> usize
    requires { 12 + 4 * line ≤ 1024 }
    ensures { result ≡ size page.now line }
{
    number(page, 10 + 4 * line as usize) as usize
}
