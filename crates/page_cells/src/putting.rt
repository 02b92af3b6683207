//! A row is put on a page.

ghost use Rattle.std.specs.Prelude.{◌≡◌, ◌+◌, ◌*◌, ◌<◌, ◌≤◌, [], ◌∷◌, ◌++◌, Some, None, IfSome, IfNone, length, nat_le, sum_by, slice_index_or, slice_set, if◌then◌else◌};
ghost use Rattle.std.specs.Option.{option_copied};
ghost use Rattle.page_cells.specs.Page.{IsPage, next_page, lines, low, size, slots, row_length, room, line_for, with_row};

use crate::number::{lines, low, next_number, put_bytes, put_number};
use crate::page::{slot, start_page};
use crate::survey::survey_of;
use disk_model::Page;

/// Puts a row into an empty line, right below the other rows.
fn fill_line(page: &mut Page, line: u16, row: &[u8])
    requires page { IsPage page.old }
    requires line { line < lines page.old }
    requires empty { size page.old line ≡ 0 }
    requires row { 0 < length row.now }
    requires gap { 8 + 4 * lines page.old + length row.now ≤ low page.old }
    ensures slots { slots page.new ≡ slice_set (slots page.old) line (Some row.now) }
    ensures next { next_page page.new ≡ next_page page.old }
    ensures low { low page.new + length row.now ≡ low page.old }
    ensures page { IsPage page.new }
{
    let begin = low(page) - row.len();
    put_bytes(page, begin, row);
    put_number(page, 6, begin as u16);
    put_number(page, 8 + 4 * line as usize, begin as u16);
    put_number(page, 10 + 4 * line as usize, row.len() as u16);
}

/// Adds an empty line behind the last.
fn add_line(page: &mut Page)
    requires page { IsPage page.old }
    requires gap { 12 + 4 * lines page.old ≤ low page.old }
    ensures slots { slots page.new ≡ slots page.old ++ None ∷ [] }
    ensures lines { lines page.new ≡ lines page.old + 1 }
    ensures empty { size page.new (lines page.old) ≡ 0 }
    ensures next { next_page page.new ≡ next_page page.old }
    ensures low { low page.new ≡ low page.old }
    ensures page { IsPage page.new }
{
    let line = lines(page);
    put_number(page, 10 + 4 * line as usize, 0);
    put_number(page, 4, line + 1);
}

/// Adds a line behind the last with a row, right below the other rows.
fn add_row(page: &mut Page, row: &[u8])
    requires page { IsPage page.old }
    requires row { 0 < length row.now }
    requires gap { 12 + 4 * lines page.old + length row.now ≤ low page.old }
    ensures slots { slots page.new ≡ slots page.old ++ Some row.now ∷ [] }
    ensures next { next_page page.new ≡ next_page page.old }
    ensures low { low page.new + length row.now ≡ low page.old }
    ensures page { IsPage page.new }
{
    let line = lines(page);
    add_line(page);
    fill_line(page, line, row);
}

/// Adds a line behind the last, with what a slot has.
fn add_slot(page: &mut Page, slot: Option<&[u8]>)
    requires page { IsPage page.old }
    requires row { IfSome (option_copied slot) (λ row. 0 < length row) }
    requires gap { 12 + 4 * lines page.old + row_length (option_copied slot) ≤ low page.old }
    ensures slots { slots page.new ≡ slots page.old ++ option_copied slot.entry ∷ [] }
    ensures next { next_page page.new ≡ next_page page.old }
    ensures low { low page.new + row_length (option_copied slot.entry) ≡ low page.old }
    ensures page { IsPage page.new }
{
    match slot {
        Some(row) => add_row(page, row),
        None => add_line(page),
    }
}

/// Makes `out` the page with its rows moved together.
fn pack(out: &mut Page, page: &Page)
    requires page { IsPage page.now }
    requires room { 8 + 4 * length (slots page.now) + sum_by row_length (slots page.now) ≤ 1024 }
    ensures slots { slots out.new ≡ slots page.now }
    ensures next { next_page out.new ≡ next_page page.now }
    ensures low { low out.new + sum_by row_length (slots page.now) ≡ 1024 }
    ensures page { IsPage out.new }
{
    start_page(out, next_number(page));
    'lines: for line in 0..lines(page) {
        add_slot(out, slot(page, line));
    }
}

/// Moves the rows together, unless so many bytes are free between them and the lines.
fn make_gap(page: &mut Page, needed: usize)
    requires page { IsPage page.old }
    requires room { 8 + 4 * length (slots page.old) + sum_by row_length (slots page.old) + needed ≤ 1024 }
    ensures slots { slots page.new ≡ slots page.old }
    ensures next { next_page page.new ≡ next_page page.old }
    ensures gap { 8 + 4 * lines page.new + needed ≤ low page.new }
    ensures page { IsPage page.new }
{
    if 8 + 4 * lines(page) as usize + needed <= low(page) {
        return;
    }
    let mut packed: Page = [0; 1024];
    pack(&mut packed, page);
    *page = packed;
}

/// Puts a row into an empty line, where the room is large enough.
fn put_into(page: &mut Page, line: u16, free: usize, row: &[u8]) -> Option<u16>
    requires page { IsPage page.old }
    requires line { line < lines page.old }
    requires empty { slice_index_or (slots page.old) line None ≡ None }
    requires row { 0 < length row.now }
    requires free { free ≡ room page.old }
    ensures line { result ≡ (if nat_le (length row.now) (room page.old) then Some line else None) }
    ensures slots { slots page.new ≡ with_row (slots page.old) result row.now }
    ensures none { IfNone result (page.new ≡ page.old) }
    ensures next { next_page page.new ≡ next_page page.old }
    ensures page { IsPage page.new }
{
    if row.len() > free {
        return None;
    }
    make_gap(page, row.len());
    fill_line(page, line, row);
    Some(line)
}

/// Puts a row into a new line, where the room is large enough.
fn put_behind(page: &mut Page, free: usize, row: &[u8]) -> Option<u16>
    requires page { IsPage page.old }
    requires row { 0 < length row.now }
    requires short { length row.now ≤ 1012 }
    requires free { free ≡ room page.old }
    ensures line { result ≡ (if nat_le (length row.now + 4) (room page.old) then Some (length (slots page.old)) else None) }
    ensures slots { slots page.new ≡ with_row (slots page.old) result row.now }
    ensures none { IfNone result (page.new ≡ page.old) }
    ensures next { next_page page.new ≡ next_page page.old }
    ensures page { IsPage page.new }
{
    if row.len() + 4 > free {
        return None;
    }
    let line = lines(page);
    make_gap(page, row.len() + 4);
    add_row(page, row);
    Some(line)
}

/// Puts a row of 1 to 1,012 bytes into the first empty line, or into a new one behind the last where
/// none is empty, and answers the line. `None` exactly where the page has less room than the row has
/// bytes, or than four more for a new line; the page is then as it was. Takes no memory.
pub fn put_row(p: &mut Page, row: &[u8]) -> Option<u16>
    requires page { IsPage p.old }
    requires some { 0 < length row.now }
    requires short { length row.now ≤ 1012 }
    ensures line { result ≡ line_for (slots p.old) (length row.now) }
    ensures slots { slots p.new ≡ with_row (slots p.old) result row.now }
    ensures none { IfNone result (p.new ≡ p.old) }
    ensures next { next_page p.new ≡ next_page p.old }
    ensures page { IsPage p.new }
{
    let survey = survey_of(p);
    let free = 1016usize.saturating_sub(4 * lines(p) as usize + survey.used);
    match survey.empty {
        Some(line) => put_into(p, line, free, row),
        None => put_behind(p, free, row),
    }
}
