//! Whether bytes are a page of rows.

ghost use Rattle.std.specs.Prelude.{◌≡◌, ◌⊎◌, ◌↔◌, ◌+◌, ◌*◌, ◌<◌, ◌≤◌, ℕ, IsTrue, true, false, slice_index_or};
ghost use Rattle.std.specs.Bool.{OnTrue, OnFalse};
ghost use Rattle.page_cells.specs.Page.{IsPage, lines, low};
ghost use Rattle.page_cells.specs.Marks.{Marks};

use crate::number::{lines, low, offset, size};
use disk_model::Page;

/// A flag for each byte of a page.
type Flags = [bool; 1024];

/// Flags the bytes from one place to another, unless one of them is flagged already.
fn flag_bytes(flags: &mut Flags, from: usize, to: usize) -> bool
    requires order { from ≤ to }
    requires room { to ≤ 1024 }
    ensures free { OnTrue result ((k : ℕ) → from ≤ k → k < to → slice_index_or flags.old k false ≡ false) }
    ensures flagged { OnTrue result ((k : ℕ) → from ≤ k → k < to → slice_index_or flags.new k false ≡ true) }
    ensures others { OnTrue result ((k : ℕ) → (k < from) ⊎ (to ≤ k) → slice_index_or flags.new k false ≡ slice_index_or flags.old k false) }
    ensures taken { OnFalse result ((k : ℕ) × (from ≤ k) × (k < to) × (slice_index_or flags.old k false ≡ true)) }
{
    'bytes: for i in from..to {
        if flags[i] {
            return false;
        }
        flags[i] = true;
    }
    true
}

/// Whether the row of a line lies where it may, apart from the rows of the lines before it.
fn flag_row(flags: &mut Flags, page: &Page, line: u16) -> bool
    requires behind { 8 + 4 * lines page.now ≤ low page.now }
    requires top { low page.now ≤ 1024 }
    requires line { line < lines page.now }
    requires marks { Marks page.now line flags.old }
    ensures apart { OnTrue result (Marks page.now (line + 1) flags.new) }
    ensures not { OnFalse result (IsPage page.now → ⊥) }
{
    let from = offset(page, line);
    let size = size(page, line);
    if size == 0 {
        return true;
    }
    if from < low(page) || from + size > 1024 {
        return false;
    }
    flag_bytes(flags, from, from + size)
}

/// Flags of which none is set.
fn no_flags() -> Flags
    ensures { (i : ℕ) → slice_index_or result i false ≡ false }
{
    [false; 1024]
}

/// Whether the rows of all lines lie where they may, and apart.
fn rows_are_apart(page: &Page) -> bool
    requires behind { 8 + 4 * lines page.now ≤ low page.now }
    requires top { low page.now ≤ 1024 }
    ensures { IsTrue result ↔ IsPage page.now }
{
    let mut flags = no_flags();
    'lines: for line in 0..lines(page) {
        if !flag_row(&mut flags, page, line) {
            return false;
        }
    }
    true
}

/// Whether the bytes are a page of rows: its rows begin behind its lines, each row lies from there to
/// the end, and no byte belongs to two rows. Takes no memory.
pub fn page_ok(p: &Page) -> bool
    ensures { IsTrue result ↔ IsPage p.now }
{
    let low = low(p);
    if low > 1024 || 8 + 4 * lines(p) as usize > low {
        return false;
    }
    rows_are_apart(p)
}
