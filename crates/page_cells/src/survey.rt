//! What the lines of a page say, all of them read once.

ghost use Rattle.std.specs.Prelude.{◌≡◌, ◌==◌, ◌*◌, ◌≤◌, Some, None, is_none, position, sum_by, if◌then◌else◌};
ghost use Rattle.page_cells.specs.Page.{IsPage, slots, row_length};

use crate::number::{lines, size};
use disk_model::Page;

/// What the lines of a page say.
#[derive(Clone, Copy)]
pub struct Survey {
    /// The first empty line.
    pub empty: Option<u16>,
    /// The bytes of the rows together.
    pub used: usize,
}

/// The line, where it is empty.
fn line_if_empty(line: u16, size: usize) -> Option<u16>
    ensures { result ≡ (if size == 0 then Some line else None) }
{
    if size == 0 { Some(line) } else { None }
}

/// Reads all lines.
pub fn survey_of(page: &Page) -> Survey
    requires { IsPage page.now }
    ensures empty { result.empty ≡ position is_none (slots page.now) }
    ensures used { result.used ≡ sum_by row_length (slots page.now) }
    ensures bound { result.used ≤ 1024 * 254 }
{
    let mut empty = None;
    let mut used = 0;
    'lines: for line in 0..lines(page) {
        let size = size(page, line);
        empty = empty.or(line_if_empty(line, size));
        used += size;
    }
    Survey { empty, used }
}
