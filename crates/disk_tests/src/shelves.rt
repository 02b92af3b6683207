//! Shelves in memory.

use fault_io::{Failed, MemShelf, Shelf, ShelfFault};
use std::alloc::AllocGlobal;
use std::process::Abort;
use std::test::*;

/// A shelf with `f` and `g`, and before them another `f`, whose calls with these numbers fail.
fn shelf(rt: &(impl Abort + AllocGlobal), failing: &[u64]) -> MemShelf {
    let mut files = Vec::new(rt.alloc());
    for (name, bytes) in [(b"f", b"first".as_slice()), (b"g", b""), (b"f", b"second")] {
        let name = Vec::from_slice(rt.alloc(), name).expect(rt, "memory");
        let bytes = Vec::from_slice(rt.alloc(), bytes).expect(rt, "memory");
        files.push((name, bytes)).expect(rt, "memory");
    }
    let failing = Vec::from_slice(rt.alloc(), failing).expect(rt, "memory");
    MemShelf::new(rt.alloc(), files, failing).expect(rt, "memory")
}

/// What a fetch of a file answers: its bytes, `none` where there is no such file, and `fault` where the call
/// fails.
fn fetched(rt: &(impl Abort + AllocGlobal), shelf: &mut MemShelf, name: &[u8]) -> Vec<u8> {
    let known: &[u8] = match shelf.fetch(rt.alloc(), name) {
        Ok(Some(bytes)) => return bytes,
        Ok(None) => b"none",
        Err(ShelfFault::Failed) => b"fault",
        Err(ShelfFault::OutOfMemory) => b"no memory",
    };
    Vec::from_slice(rt.alloc(), known).expect(rt, "memory")
}

/// Whether a fetch of each of these files answers this.
fn answer(rt: &(impl Abort + AllocGlobal), shelf: &mut MemShelf, files: &[(&[u8], &[u8])]) -> bool {
    let mut are_right = true;
    for (name, bytes) in files {
        let is_right = fetched(rt, shelf, *name).as_slice() == *bytes;
        are_right = are_right && is_right;
    }
    are_right
}

/// Stores an empty file under a new name, one over another and one under the empty name.
fn store_three(shelf: &mut MemShelf) -> [Result<(), Failed>; 3] {
    [
        shelf.store(b"new", b""),
        shelf.store(b"f", b"third"),
        shelf.store(b"", b"\xff\0"),
    ]
}

#[test]
fn files_are_fetched_as_they_were_stored_last(rt: HostRuntime) {
    let mut shelf = shelf(&rt, &[]);
    let before = [
        (b"f".as_slice(), b"second".as_slice()),
        (b"g", b""),
        (b"F", b"none"),
    ];
    assert!(rt; answer(&rt, &mut shelf, &before));
    assert!(rt;
        answer(
            &rt,
            &mut shelf,
            &[(b"new", b"none"), (b"", b"none"), (b"f ", b"none")]
        )
    );
    assert!(rt; store_three(&mut shelf) == [Ok(()), Ok(()), Ok(())]);
    let after = [
        (b"f".as_slice(), b"third".as_slice()),
        (b"g", b""),
        (b"new", b""),
        (b"", b"\xff\0"),
        (b"f", b"third"),
    ];
    assert!(rt; answer(&rt, &mut shelf, &after));
    drop(shelf);
}

#[test]
fn the_listed_calls_fail_and_store_nothing(rt: HostRuntime) {
    let mut shelf = shelf(&rt, &[1, 2, 4, 9]);
    let answers = [
        (b"f".as_slice(), b"second".as_slice()),
        (b"f", b"fault"),
        (b"none", b"fault"),
    ];
    assert!(rt; answer(&rt, &mut shelf, &answers));
    assert!(rt; store_three(&mut shelf) == [Ok(()), Err(Failed), Ok(())]);
    let after = [
        (b"f".as_slice(), b"second".as_slice()),
        (b"new", b""),
        (b"", b"\xff\0"),
        (b"f", b"fault"),
        (b"g", b""),
    ];
    assert!(rt; answer(&rt, &mut shelf, &after));
    drop(shelf);
}
