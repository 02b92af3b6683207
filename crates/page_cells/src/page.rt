//! A page as its slots and its next page.

ghost use Rattle.std.specs.Prelude.{◌≡◌, ◌<◌, ◌≤◌, None, [], IfSome, length, slice_index_or, slice_set};
ghost use Rattle.std.specs.Option.{option_copied};
ghost use Rattle.page_cells.specs.Page.{IsPage, low, next_page, slots};

use crate::number::{lines, next_number, offset, put_next_number, put_number, size};
use disk_model::Page;

/// Makes the page one without lines, and with this number of the page that follows.
pub fn start_page(out: &mut Page, next: u32)
    ensures slots { slots out.new ≡ [] }
    ensures next { next_page out.new ≡ next }
    ensures low { low out.new ≡ 1024 }
    ensures page { IsPage out.new }
{
    out.fill(0);
    put_next_number(out, next);
    put_number(out, 4, 0);
    put_number(out, 6, 1024);
}

/// Makes the page one without lines, and without a page that follows. Takes no memory.
pub fn fresh_page(out: &mut Page)
    ensures slots { slots out.new ≡ [] }
    ensures next { next_page out.new ≡ 0 }
    ensures page { IsPage out.new }
{
    start_page(out, 0);
}

/// The bytes of the row in a line, 1 to 1,012, lines counting from 0; `None` where the line is empty or past the
/// last. Takes no memory.
pub fn slot(p: &Page, line: u16) -> Option<&[u8]>
    requires { IsPage p.now }
    ensures row { option_copied result ≡ slice_index_or (slots p.now) line None }
    ensures bytes { IfSome result (λ row. (0 < length row.now) × (length row.now ≤ 1012)) }
{
    if line >= lines(p) {
        return None;
    }
    let from = offset(p, line);
    let size = size(p, line);
    if size == 0 {
        return None;
    }
    Some(&p[from..from + size])
}

/// Empties a line, lines counting from 0. One that is empty or past the last leaves the page as it
/// was. Takes no memory.
pub fn clear_row(p: &mut Page, line: u16)
    requires { IsPage p.old }
    ensures slots { slots p.new ≡ slice_set (slots p.old) line None }
    ensures empty { slice_index_or (slots p.old) line None ≡ None → p.new ≡ p.old }
    ensures next { next_page p.new ≡ next_page p.old }
    ensures page { IsPage p.new }
{
    if line < lines(p) && size(p, line) > 0 {
        put_number(p, 10 + 4 * line as usize, 0);
    }
}

/// The number of the page that follows, 0 where none does. Takes no memory.
pub fn next_of(p: &Page) -> u32
    requires { IsPage p.now }
    ensures { result ≡ next_page p.now }
{
    next_number(p)
}

/// Sets the number of the page that follows, 0 where none does. Takes no memory.
pub fn set_next(p: &mut Page, next: u32)
    requires { IsPage p.old }
    ensures next { next_page p.new ≡ next }
    ensures slots { slots p.new ≡ slots p.old }
    ensures page { IsPage p.new }
{
    put_next_number(p, next);
}
