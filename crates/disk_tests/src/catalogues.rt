// A catalogue in memory: changes laid on the pages of the catalogues alone, and files said anew.
ghost use Rattle.std.specs.Prelude.{◌≡◌, ◌==◌, ◌⊎◌, false, true};
ghost use Rattle.std.specs.Option.{ForSome};
ghost use Rattle.calculus.specs.declared.query.RelKey.{RelKey as Key};
ghost use Rattle.stored_database.specs.Printed.{is_file};
ghost use Rattle.catalog_moves.specs.Files.{files_of};

use crate::databases::new_disk;
use crate::shared::{
    GONE, INDEXED, MADE_BARE_P, PERMITTED, RULED, STORED, Step, change_of, key, named,
};
use am_traits::PageStore;
use base_trait::{Base, BaseFault};
use batch_store::BatchStore;
use calculus::{DbChange, RelKey, Spec};
use catalog::Catalog;
use change_check::fit_change;
use std::alloc::Global;
use std::process::Abort;
use std::test::*;

/// The catalogue that lies on pages.
fn loaded<S: PageStore>(alloc: Global, rt: &impl Abort, store: &mut S) -> Catalog {
    let dba = named(alloc, rt, b"ann");
    Catalog::load(alloc, store, dba).expect(rt, "a catalogue")
}

/// Applies a change to the catalogues where it is lawful; whether it is.
fn write_fit<S: PageStore>(
    alloc: Global,
    catalog: &mut Catalog,
    store: &mut S,
    change: &DbChange,
) -> Result<bool, BaseFault> {
    let fit = fit_change(alloc, &mut catalog.plain, change)?;
    if fit {
        catalog.write_change(alloc, store, change)?;
    }
    Ok(fit)
}

/// Takes a step, which is lawful, on the catalogues alone.
fn write<S: PageStore>(
    alloc: Global,
    rt: &impl Abort,
    catalog: &mut Catalog,
    store: &mut S,
    step: Step,
) {
    let change = change_of(alloc, rt, step);
    let written = write_fit(alloc, catalog, store, &change);
    drop(change);
    assert!(rt; written == Ok(true));
}

/// The number of a file that has it already, or of one that nothing has.
fn number(catalog: &Catalog, own: u32, elsewhere: bool) -> Option<u32>
    ensures { ForSome result (λ n. (n ≡ own) ⊎ ((is_file n ≡ true) × ((k : Key) → ((files_of catalog.now.files).file k == n) ≡ false))) }
{
    if elsewhere {
        catalog.files.free_file()
    } else {
        Some(own)
    }
}

/// Says three pages of the heap under a key, in its own file or in one that nothing has; whether a heap is
/// there.
fn set_three<S: PageStore>(
    alloc: Global,
    catalog: &mut Catalog,
    store: &mut S,
    key: &RelKey,
    elsewhere: bool,
) -> Result<bool, BaseFault> {
    let Some(mut its) = catalog.file_of(alloc, key)? else {
        return Ok(false);
    };
    let Spec::Heap = its.spec else {
        return Ok(false);
    };
    let Some(file) = number(catalog, its.file, elsewhere) else {
        return Ok(false);
    };
    its.file = file;
    its.used = 3;
    catalog.set_file(alloc, store, key, &its)?;
    Ok(true)
}

/// The file and the pages of what has this name; 0 and 0 where it has none.
fn place(alloc: Global, rt: &impl Abort, catalog: &Catalog, name: &[u8]) -> (u32, u32) {
    let key = key(alloc, rt, name);
    match catalog.file_of(alloc, &key).expect(rt, "memory") {
        Some(its) => (its.file, its.used),
        None => (0, 0),
    }
}

/// How many indexes are on `p`, and whether the first of them is `x`.
fn indexes(alloc: Global, rt: &impl Abort, catalog: &Catalog) -> (usize, bool) {
    let keys = catalog
        .indexes_of(alloc, &key(alloc, rt, b"p"))
        .expect(rt, "memory");
    match keys.first() {
        Some(first) => (keys.len(), first.name.bytes() == b"x".as_slice()),
        None => (0, false),
    }
}

/// Claims where `p` and `x` lie by the catalogue in memory, and by the one on the pages.
fn lie<S: PageStore>(
    alloc: Global,
    rt: &impl Abort,
    catalog: &Catalog,
    store: &mut S,
    p: (u32, u32),
    x: (u32, u32),
) {
    let again = loaded(alloc, rt, store);
    assert!(rt; place(alloc, rt, catalog, b"p") == p);
    assert!(rt; place(alloc, rt, &again, b"p") == p);
    assert!(rt; place(alloc, rt, catalog, b"x") == x);
    assert!(rt; place(alloc, rt, &again, b"x") == x);
    assert!(rt; indexes(alloc, rt, catalog) == indexes(alloc, rt, &again));
}

/// How many rules and permits `p` has by the catalogue on the pages.
fn counts<S: PageStore>(alloc: Global, rt: &impl Abort, store: &mut S) -> (usize, usize) {
    let mut again = loaded(alloc, rt, store);
    let p = key(alloc, rt, b"p");
    let rules = again.plain.rules(alloc, &p).expect(rt, "memory").len();
    let permits = again.plain.permits(alloc, &p).expect(rt, "memory").len();
    (rules, permits)
}

/// A relation is written, and its file is said anew; then an index, a permit and a rule of it are written.
fn make<S: PageStore>(
    alloc: Global,
    rt: &impl Abort,
    catalog: &mut Catalog,
    store: &mut S,
    p: &RelKey,
) {
    lie(alloc, rt, catalog, store, (0, 0), (0, 0));
    write(alloc, rt, catalog, store, MADE_BARE_P);
    lie(alloc, rt, catalog, store, (16, 1), (0, 0));
    assert!(rt; set_three(alloc, catalog, store, p, false) == Ok(true));
    lie(alloc, rt, catalog, store, (16, 3), (0, 0));
    for step in [INDEXED, PERMITTED, RULED] {
        write(alloc, rt, catalog, store, step);
    }
    lie(alloc, rt, catalog, store, (16, 3), (17, 0));
}

/// Another file is said of it, with which the index, the permit and the rule stay; with another structure
/// the index goes, and all goes at last.
fn unmake<S: PageStore>(
    alloc: Global,
    rt: &impl Abort,
    catalog: &mut Catalog,
    store: &mut S,
    p: &RelKey,
) {
    assert!(rt; set_three(alloc, catalog, store, p, true) == Ok(true));
    lie(alloc, rt, catalog, store, (18, 3), (17, 0));
    assert!(rt; indexes(alloc, rt, catalog) == (1, true));
    assert!(rt; counts(alloc, rt, store) == (1, 1));
    write(alloc, rt, catalog, store, STORED);
    lie(alloc, rt, catalog, store, (18, 3), (0, 0));
    write(alloc, rt, catalog, store, GONE);
    lie(alloc, rt, catalog, store, (0, 0), (0, 0));
}

/// Tries both on the pages of a store.
fn try_files<S: PageStore>(alloc: Global, rt: &impl Abort, store: &mut S) {
    let mut catalog = loaded(alloc, rt, store);
    let p = key(alloc, rt, b"p");
    make(alloc, rt, &mut catalog, store, &p);
    unmake(alloc, rt, &mut catalog, store, &p);
    drop(p);
    drop(catalog);
}

#[test]
fn a_catalogue_is_written_and_its_files_are_said_anew(rt: HostRuntime) {
    let mut store = BatchStore::unopened(rt.alloc(), new_disk(rt.alloc(), &rt));
    assert!(rt; store.restore().is_ok());
    try_files(rt.alloc(), &rt, &mut store);
    drop(store);
}
