// Pages of rows: what their room takes, and which bytes are such a page.
ghost use Rattle.std.specs.Prelude.{◌≤◌};
ghost use Rattle.page_cells.specs.Page.{IsPage};

use disk_model::Page;
use page_cells::{clear_row, fresh_page, next_of, page_ok, put_row, set_next, slot};
use std::test::*;

/// Puts a row of equal bytes.
fn put(page: &mut Page, byte: u8, count: usize) -> Option<u16>
    requires page { IsPage page.old }
    requires some { 1 ≤ count }
    requires short { count ≤ 1012 }
    ensures { IsPage page.new }
{
    let row = [byte; 1012];
    put_row(page, row.split_at(count).0)
}

/// Whether a line has a row of so many equal bytes.
fn has(page: &Page, line: u16, byte: u8, count: usize) -> bool
    requires { IsPage page.now }
{
    match slot(page, line) {
        Some(row) => row.len() == count && row.iter().all(|b| *b == byte),
        None => false,
    }
}

#[test]
fn a_row_needs_room_for_itself_and_a_new_line(rt: HostRuntime) {
    let mut page = [0; 1024];
    fresh_page(&mut page);
    assert!(rt; page_ok(&page));
    assert!(rt; next_of(&page) == 0);
    assert!(rt; put(&mut page, 1, 1000) == Some(0));
    assert!(rt; put(&mut page, 2, 12) == None);
    assert!(rt; put(&mut page, 3, 4) == Some(1));
    assert!(rt; has(&page, 0, 1, 1000));
    assert!(rt; has(&page, 1, 3, 4));
    assert!(rt; slot(&page, 2).is_none());
}

#[test]
fn rows_are_moved_together_for_one_that_needs_it(rt: HostRuntime) {
    let mut page = [0; 1024];
    fresh_page(&mut page);
    set_next(&mut page, 70_000);
    assert!(rt; put(&mut page, 1, 300) == Some(0));
    assert!(rt; put(&mut page, 2, 300) == Some(1));
    assert!(rt; put(&mut page, 3, 300) == Some(2));
    clear_row(&mut page, 1);
    clear_row(&mut page, 7);
    assert!(rt; slot(&page, 1).is_none());
    assert!(rt; put(&mut page, 4, 405) == None);
    assert!(rt; put(&mut page, 4, 350) == Some(1));
    assert!(rt; put(&mut page, 5, 51) == None);
    assert!(rt; put(&mut page, 5, 50) == Some(3));
    assert!(rt; has(&page, 0, 1, 300));
    assert!(rt; has(&page, 1, 4, 350));
    assert!(rt; has(&page, 2, 3, 300));
    assert!(rt; has(&page, 3, 5, 50));
    assert!(rt; next_of(&page) == 70_000);
    assert!(rt; page_ok(&page));
}

/// A page whose line 0 has the bytes 1,014 to 1,023 and whose line 1 has the ten before them, but for
/// the two bytes from a place.
fn forged(at: usize, number: u16) -> Page {
    let mut page = [0; 1024];
    fresh_page(&mut page);
    put(&mut page, 1, 10);
    put(&mut page, 2, 10);
    if at <= 1022 {
        page[at] = (number % 256) as u8;
        page[at + 1] = (number / 256) as u8;
    }
    page
}

/// A place, the two bytes there as a number, and whether the page is sound.
const FORGED: [(usize, u16, bool); 18] = [
    (0, 65535, true),
    (4, 0, true),
    (4, 3, true),
    (4, 254, false),
    (6, 16, true),
    (6, 15, false),
    (6, 1005, false),
    (6, 1025, false),
    (8, 1015, false),
    (8, 65535, false),
    (10, 0, true),
    (10, 9, true),
    (10, 11, false),
    (12, 1003, false),
    (12, 1005, false),
    (14, 9, true),
    (14, 11, false),
    (500, 65535, true),
];

#[test]
fn forged_pages_are_found_out(rt: HostRuntime) {
    for (at, number, sound) in &FORGED {
        assert!(rt; page_ok(&forged(*at, *number)) == *sound);
    }
}
