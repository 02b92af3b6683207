// Files of rows on pages: what is built is scanned, what is added and removed, and what is damaged.
ghost use Rattle.std.specs.Prelude.{◌≡◌, ◌<◌, ◌≤◌, [], ◌∷◌, All, IsTrue, length};
ghost use Rattle.calculus.specs.declared.value.Domain.TheVariants.{I2 as TwoBytes};
ghost use Rattle.page_cells.specs.RowBytes.{is_row};

use crate::counting::Counting;
use access::{Method, open_method};
use am_traits::{AccessMethod, PageStore, RelFile};
use base_trait::BaseFault;
use calculus::{Domain, List, Place, Probe, Row, Spec, Value};
use disk_model::{Addr, Page};
use heap_am::Heap;
use page_cells::{fresh_page, put_row, set_next};
use page_chain::chain_rows;
use std::alloc::Global;
use std::process::Abort;
use std::test::*;

/// How many rows of two bytes a page has room for.
const A_PAGE: i16 = 169;

/// The row with this number.
fn row(alloc: Global, rt: &impl Abort, n: i16) -> Row
    ensures { IsTrue (is_row result (TwoBytes ∷ [])) }
{
    let mut values = Vec::new(alloc);
    values.push(Value::Int(n as i64)).expect(rt, "memory");
    Row::of(values)
}

/// The rows from a number up to another.
fn rows(alloc: Global, rt: &impl Abort, from: i16, to: i16) -> Vec<Row>
    ensures fit { All (λ row. IsTrue (is_row row (TwoBytes ∷ []))) result.items }
{
    let mut rows = Vec::new(alloc);
    for n in from..to {
        rows.push(row(alloc, rt, n)).expect(rt, "memory");
    }
    rows
}

/// The file 16, of rows of one number of two bytes.
fn file(alloc: Global, rt: &impl Abort) -> RelFile
    ensures number { result.file ≡ 16 }
    ensures domains { result.domains ≡ TwoBytes ∷ [] }
    ensures used { result.used ≡ 1 }
{
    let mut domains = Vec::new(alloc);
    domains.push(Domain::I2).expect(rt, "memory");
    RelFile {
        file: 16,
        spec: Spec::Heap,
        keys: List::of(Vec::new(alloc)),
        domains: List::of(domains),
        primary: 1,
        directory: 0,
        used: 1,
    }
}

/// A heap of the rows from a number up to another.
fn built(alloc: Global, rt: &impl Abort, store: &mut Counting, from: i16, to: i16) -> Heap
    ensures file { result.file.domains ≡ TwoBytes ∷ [] }
{
    let rows = rows(alloc, rt, from, to);
    if rows.len() > 1000 {
        rt.panic("so many rows");
    }
    let heap = Heap::build(alloc, store, file(alloc, rt), rows.as_slice()).expect(rt, "build");
    drop(rows);
    heap
}

/// The number in a row.
fn number(row: &Row) -> i64 {
    match row.values().first() {
        Some(Value::Int(n)) => *n,
        _ => -1,
    }
}

/// How many rows a scan gives, and the sum of their numbers.
fn scanned(
    alloc: Global,
    rt: &impl Abort,
    heap: &Heap,
    store: &mut Counting,
    probe: &Probe,
) -> (u32, i64) {
    let mut at = Place { page: 0, line: 0 };
    let mut count: u32 = 0;
    let mut sum: i64 = 0;
    for _ in 0..2000 {
        match heap.scan(alloc, store, probe, &mut at).expect(rt, "scan") {
            Some(row) => {
                count = count.saturating_add(1);
                sum = sum.wrapping_add(number(&row));
            }
            None => return (count, sum),
        }
    }
    (count, sum)
}

#[test]
fn what_is_built_is_scanned_each_row_once(rt: HostRuntime) {
    let alloc = rt.alloc();
    let mut store = Counting::new(alloc);
    let heap = built(alloc, &rt, &mut store, 0, 3 * A_PAGE);
    assert!(rt; heap.info().used == 3);
    assert!(rt; store.puts == 3);
    assert!(rt; stands(alloc, &rt, &heap, &mut store) == (507, 128271));
    drop(heap);
    drop(store);
}

/// The row of a number comes, or goes: how many pages were asked for and put then.
fn changed(
    alloc: Global,
    rt: &impl Abort,
    heap: &mut Heap,
    store: &mut Counting,
    n: i16,
) -> (Place, u32, u32)
    requires file { heap.old.file.domains ≡ TwoBytes ∷ [] }
    ensures file { heap.new.file.domains ≡ TwoBytes ∷ [] }
{
    store.restart();
    if heap.info().used > 1000 {
        rt.panic("so many pages");
    }
    let row = row(alloc, rt, n);
    let place = heap.add(alloc, store, &row).expect(rt, "add");
    drop(row);
    (place, store.gets, store.puts)
}

/// The number of the row with a place.
fn number_at(
    alloc: Global,
    rt: &impl Abort,
    heap: &Heap,
    store: &mut Counting,
    place: &Place,
) -> Option<i64> {
    match heap.row_at(alloc, store, place).expect(rt, "row") {
        Some(row) => Some(number(&row)),
        None => None,
    }
}

/// The row of a number goes: the page and the line that it had.
fn gone(
    alloc: Global,
    rt: &impl Abort,
    heap: &mut Heap,
    store: &mut Counting,
    n: i16,
) -> Option<(u32, u16)> {
    let row = row(alloc, rt, n);
    let from = heap.remove(alloc, store, &row).expect(rt, "remove");
    drop(row);
    match from {
        Some(at) => Some((at.page, at.line)),
        None => None,
    }
}

/// What a scan of all rows gives.
fn stands(alloc: Global, rt: &impl Abort, heap: &Heap, store: &mut Counting) -> (u32, i64) {
    let every = Probe {
        equal: List::of(Vec::new(alloc)),
    };
    let found = scanned(alloc, rt, heap, store, &every);
    drop(every);
    found
}

/// Rows come to a heap of one page that has room for one, and one of them goes.
fn try_places(alloc: Global, rt: &impl Abort, heap: &mut Heap, store: &mut Counting)
    requires file { heap.old.file.domains ≡ TwoBytes ∷ [] }
{
    let (first, gets, puts) = changed(alloc, rt, heap, store, 1000);
    assert!(rt; first.page == 0 && first.line == 168 && gets == 1 && puts == 1);
    let (second, gets, puts) = changed(alloc, rt, heap, store, 1001);
    assert!(rt; second.page == 1 && second.line == 0 && gets == 1 && puts == 2);
    assert!(rt; heap.info().used == 2);
    assert!(rt; number_at(alloc, rt, heap, store, &first) == Some(1000));
    assert!(rt; gone(alloc, rt, heap, store, 1000) == Some((0, 168)));
    assert!(rt; number_at(alloc, rt, heap, store, &first) == None);
    assert!(rt; number_at(alloc, rt, heap, store, &second) == Some(1001));
    assert!(rt; gone(alloc, rt, heap, store, 1000) == None);
}

#[test]
fn a_row_that_is_added_has_its_place_until_it_is_removed(rt: HostRuntime) {
    let alloc = rt.alloc();
    let mut store = Counting::new(alloc);
    let mut heap = built(alloc, &rt, &mut store, 0, A_PAGE - 1);
    try_places(alloc, &rt, &mut heap, &mut store);
    assert!(rt; stands(alloc, &rt, &heap, &mut store) == (169, 14028 + 1001));
    drop(heap);
    drop(store);
}

/// Rows of a heap of three pages go and others come in one pass, where pages are given after those that go
/// were looked for there: whether all that were to go were there, how many pages were asked for and put,
/// and what stands then.
fn replaced(
    alloc: Global,
    rt: &impl Abort,
    near: Option<&[u32]>,
    going: (i16, i16),
    coming: (i16, i16),
) -> (bool, (u32, u32), (u32, i64)) {
    let mut store = Counting::new(alloc);
    let mut heap = built(alloc, rt, &mut store, 0, 3 * A_PAGE);
    let going = rows(alloc, rt, going.0, going.1);
    let coming = rows(alloc, rt, coming.0, coming.1);
    if heap.info().used > 1000 || coming.len() > 1000 {
        rt.panic("so many");
    }
    store.restart();
    let (old, new) = (going.as_slice(), coming.as_slice());
    let done = match near {
        Some(pages) => heap.replace_near(alloc, &mut store, pages, old, new),
        None => heap.replace(alloc, &mut store, old, new),
    };
    let done = done.expect(rt, "replace");
    let calls = (store.gets, store.puts);
    let stands = stands(alloc, rt, &heap, &mut store);
    drop(going);
    drop(coming);
    drop(heap);
    drop(store);
    (done, calls, stands)
}

#[test]
fn many_rows_are_replaced_in_one_pass(rt: HostRuntime) {
    let alloc = rt.alloc();
    // Each row goes, and each page is read and put once.
    assert!(rt;
        replaced(alloc, &rt, None, (0, 507), (1000, 1507)) == (true, (3, 3), (507, 128271 + 507000))
    );
    // The pass ends on the page of the last row that goes.
    assert!(rt; replaced(alloc, &rt, None, (3, 5), (0, 0)) == (true, (1, 1), (505, 128264)));
    // What comes takes the room of what went.
    assert!(rt;
        replaced(alloc, &rt, None, (3, 5), (1000, 1002)) == (true, (1, 1), (507, 128264 + 2001))
    );
    // Without rows that go the last page alone is read.
    assert!(rt;
        replaced(alloc, &rt, None, (0, 0), (1000, 1002)) == (true, (1, 2), (509, 128271 + 2001))
    );
    // A row that isn't there.
    assert!(rt; !replaced(alloc, &rt, None, (506, 508), (0, 0)).0);
}

#[test]
fn rows_that_go_are_looked_for_on_given_pages_first(rt: HostRuntime) {
    let alloc = rt.alloc();
    // Where all lie there, no other page is asked for: it is counted, and then it is put.
    assert!(rt;
        replaced(alloc, &rt, Some(&[2]), (400, 402), (1000, 1002))
            == (true, (2, 1), (507, 127470 + 2001))
    );
    // Where they lie elsewhere, the pass is made.
    assert!(rt;
        replaced(alloc, &rt, Some(&[0]), (400, 402), (0, 0)) == (true, (4, 1), (505, 127470))
    );
    // What is no page of the file isn't asked for.
    assert!(rt; replaced(alloc, &rt, Some(&[9]), (3, 5), (0, 0)) == (true, (1, 1), (505, 128264)));
}

/// What is wrong with a page.
#[derive(Clone, Copy)]
enum Wrong {
    Gone,
    NoRows,
    GoesOn(u32),
    HasRow(usize),
}

/// Spoils a page of the file.
fn spoil(store: &mut Counting, page: u32, wrong: Wrong) {
    let at = Addr { file: 16, page };
    let mut bytes: Page = [0; 1024];
    fresh_page(&mut bytes);
    match wrong {
        Wrong::Gone => {
            store.lose(at);
            return;
        }
        Wrong::NoRows => bytes = [255; 1024],
        Wrong::GoesOn(next) => set_next(&mut bytes, next),
        Wrong::HasRow(length) => {
            if 0 < length && length <= 1000 {
                let _line = put_row(&mut bytes, &[1; 1000][..length]);
            }
        }
    }
    let _put = store.put(at, &bytes);
}

/// The page that a scan of three pages finds damaged, where one of them is spoilt.
fn damaged(alloc: Global, rt: &impl Abort, page: u32, wrong: Wrong) -> Option<(u32, u32)> {
    let mut store = Counting::new(alloc);
    let heap = built(alloc, rt, &mut store, 0, 3 * A_PAGE);
    spoil(&mut store, page, wrong);
    let none = Probe {
        equal: no_such(alloc, rt),
    };
    let mut at = Place { page: 0, line: 0 };
    let found = match heap.scan(alloc, &mut store, &none, &mut at) {
        Err(BaseFault::Damaged { file, page }) => Some((file, page)),
        _ => None,
    };
    drop(none);
    drop(heap);
    drop(store);
    found
}

/// What no row meets.
fn no_such(alloc: Global, rt: &impl Abort) -> List<(u8, Value)> {
    let mut equal = Vec::new(alloc);
    equal.push((0, Value::Int(-1))).expect(rt, "memory");
    List::of(equal)
}

#[test]
fn a_page_that_is_not_of_its_form_is_named(rt: HostRuntime) {
    let alloc = rt.alloc();
    for page in 0..3 {
        assert!(rt; damaged(alloc, &rt, page, Wrong::Gone) == Some((16, page)));
        assert!(rt; damaged(alloc, &rt, page, Wrong::NoRows) == Some((16, page)));
        assert!(rt; damaged(alloc, &rt, page, Wrong::HasRow(3)) == Some((16, page)));
        for next in 0..5 {
            let is_so = next == page + 1 && page < 2 || next == 0 && page == 2;
            let wanted = if is_so { None } else { Some((16, page)) };
            assert!(rt; damaged(alloc, &rt, page, Wrong::GoesOn(next)) == wanted);
        }
    }
}

/// A file of the rows 5, 6 and 7.
fn opened(alloc: Global, rt: &impl Abort, store: &mut Counting) -> Method
    ensures file { result.heap.file.domains ≡ TwoBytes ∷ [] }
    ensures used { result.heap.file.used ≡ 1 }
{
    let heap = built(alloc, rt, store, 5, 8);
    drop(heap);
    open_method(file(alloc, rt))
}

#[test]
fn a_method_gives_and_takes_single_rows(rt: HostRuntime) {
    let alloc = rt.alloc();
    let mut store = Counting::new(alloc);
    let mut method = opened(alloc, &rt, &mut store);
    let new = row(alloc, &rt, 9);
    let place = method.add(alloc, &mut store, &new).expect(&rt, "add");
    assert!(rt; place.page == 0 && place.line == 3);
    let found = method.row_at(alloc, &mut store, &place).expect(&rt, "row");
    assert!(rt; found.is_some_and(|row| number(&row) == 9));
    let from = method.remove(alloc, &mut store, &new).expect(&rt, "remove");
    assert!(rt; from.is_some_and(|at| at.page == 0 && at.line == 3));
    drop(new);
    drop(method);
    drop(store);
}

#[test]
fn a_method_gives_its_rows(rt: HostRuntime) {
    let alloc = rt.alloc();
    let mut store = Counting::new(alloc);
    let method = opened(alloc, &rt, &mut store);
    let every = Probe {
        equal: List::of(Vec::new(alloc)),
    };
    let mut at = Place { page: 0, line: 0 };
    let mut chains = None;
    let found = method
        .scan_on(alloc, &mut store, &every, &mut chains, &mut at)
        .expect(&rt, "scan");
    assert!(rt; found.is_some_and(|row| number(&row) == 5));
    let found = method
        .scan(alloc, &mut store, &every, &mut at)
        .expect(&rt, "scan");
    assert!(rt; found.is_some_and(|row| number(&row) == 6));
    let lines = method.page_rows(alloc, &mut store, 0).expect(&rt, "rows");
    assert!(rt; lines.items().len() == 3);
    drop(lines);
    drop(every);
    drop(method);
    drop(store);
}

#[test]
fn a_method_replaces_rows(rt: HostRuntime) {
    let alloc = rt.alloc();
    let mut store = Counting::new(alloc);
    let mut method = opened(alloc, &rt, &mut store);
    let going = rows(alloc, &rt, 5, 6);
    let coming = rows(alloc, &rt, 20, 22);
    if coming.len() > 1000 {
        rt.panic("so many");
    }
    let done = method.replace(alloc, &mut store, going.as_slice(), coming.as_slice());
    assert!(rt; done.expect(&rt, "replace"));
    drop(going);
    drop(coming);
    drop(method);
    let found = chain_rows(alloc, &mut store, 16, 100).expect(&rt, "rows");
    assert!(rt; found.rows.items().len() == 4 && found.last == 0);
    drop(found);
    drop(store);
}
