//! Rows go from one page, and others come.

ghost use Rattle.std.specs.Prelude.{◌≡◌, ◌+◌, ◌≤◌, ◌≢◌, ℕ, Some, None, All, if◌then◌else◌, length, map, slice_index_or, take};
ghost use Rattle.std.specs.Bool.{OnFalse};
ghost use Rattle.page_cells.specs.Page.{IsPage, next_page, slots};
ghost use Rattle.page_chain.specs.Going.{has_going, unless_going};
ghost use Rattle.page_chain.specs.Lying.{IsShort, Came, lying_on, staying};

use crate::filling::fill;
use crate::going::GoingRows;
use disk_model::Page;
use memory::List;
use page_cells::{clear_row, slot};

/// No page has more lines.
pub const LINES: u16 = 254;

/// Whether the row of a line is to go.
fn is_going(page: &Page, line: u16, going: &GoingRows<'_>) -> bool
    requires { IsPage page.now }
    ensures { result ≡ has_going going.now (slice_index_or (slots page.now) line None) }
{
    match slot(page, line) {
        Some(row) => going.has(row),
        None => false,
    }
}

/// Empties a line whose row is to go, and says whether it did.
fn clear_line(page: &mut Page, line: u16, going: &GoingRows<'_>) -> bool
    requires { IsPage page.old }
    ensures stay { map (unless_going going.now) (slots page.new) ≡ map (unless_going going.now) (slots page.old) }
    ensures here { unless_going going.now (slice_index_or (slots page.new) line None) ≡ slice_index_or (slots page.new) line None }
    ensures others { (k : ℕ) → k ≢ line → slice_index_or (slots page.new) k None ≡ slice_index_or (slots page.old) k None }
    ensures gone { (n : ℕ) → (if result then 1 else 0) + length (lying_on n (Some page.new)) ≡ length (lying_on n (Some page.old)) }
    ensures none { OnFalse result (page.new ≡ page.old) }
    ensures next { next_page page.new ≡ next_page page.old }
    ensures page { IsPage page.new }
{
    let goes = is_going(page, line, going);
    if goes {
        clear_row(page, line);
    }
    goes
}

/// Empties each line whose row is to go, and answers how many did.
fn clear_lines(page: &mut Page, going: &GoingRows<'_>) -> u16
    requires { IsPage page.old }
    ensures stay { (n : ℕ) → lying_on n (Some page.new) ≡ staying going.now (lying_on n (Some page.old)) }
    ensures gone { (n : ℕ) → result + length (lying_on n (Some page.new)) ≡ length (lying_on n (Some page.old)) }
    ensures most { result ≤ 254 }
    ensures none { result ≡ 0 → page.new ≡ page.old }
    ensures next { next_page page.new ≡ next_page page.old }
    ensures page { IsPage page.new }
{
    let mut gone = 0;
    'lines: for line in 0..LINES {
        if clear_line(page, line, going) {
            gone += 1;
        }
    }
    gone
}

/// What was done on a page.
#[derive(Clone, Copy)]
pub struct PageChange {
    /// How many rows went.
    pub gone: u16,
    /// How many came.
    pub put: usize,
}

/// Takes the rows that are to go away from a page, and where one went puts others, from the first on,
/// as far as there is room.
pub fn renew_page(page: &mut Page, going: &GoingRows<'_>, coming: &[List<u8>]) -> PageChange
    requires page { IsPage page.old }
    requires short { All (λ row. IsShort row) coming.now }
    ensures came { (n : ℕ) → Came (staying going.now (lying_on n (Some page.old))) (take result.put coming.now) (lying_on n (Some page.new)) }
    ensures gone { (n : ℕ) → result.gone + length (staying going.now (lying_on n (Some page.old))) ≡ length (lying_on n (Some page.old)) }
    ensures most { result.gone ≤ 254 }
    ensures put { result.put ≤ length coming.now }
    ensures none { result.gone ≡ 0 → page.new ≡ page.old }
    ensures next { next_page page.new ≡ next_page page.old }
    ensures page { IsPage page.new }
{
    let gone = clear_lines(page, going);
    if gone == 0 {
        return PageChange { gone, put: 0 };
    }
    let put = fill(page, coming);
    PageChange { gone, put }
}
