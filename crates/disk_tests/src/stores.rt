// A store of pages whose changes go into a batch, on a disk that stops at each of its calls.
ghost use Rattle.std.specs.Prelude.{◌≤◌};

use crate::stopping::Stopping;
use am_traits::{PageStore, StoreFault};
use batch_file::{RestoreFault, restore};
use batch_store::BatchStore;
use disk_model::{Addr, Disk, Left, MemDisk};
use std::alloc::Global;
use std::process::Abort;
use std::test::*;

const ENDLESS: u64 = 1 << 40;

/// Where page `i` stands.
fn place(i: u32) -> Addr
    ensures { 5 ≤ result.file }
{
    Addr { file: 16, page: i }
}

/// A store over a disk whose first two pages are full of 1.
fn begun(alloc: Global, rt: &impl Abort, stop: u64) -> BatchStore<Stopping> {
    let mut disk = MemDisk::new(alloc, Vec::new(alloc), None);
    disk.write(place(0), &[1; 1024]).expect(rt, "write");
    disk.write(place(1), &[1; 1024]).expect(rt, "write");
    disk.sync().expect(rt, "sync");
    BatchStore::over(alloc, Stopping::over(disk, stop))
}

/// Puts pages, each full of a byte, until a call fails.
fn put_all(store: &mut BatchStore<Stopping>, pages: &[(u32, u8)]) -> Result<(), StoreFault> {
    for (i, byte) in pages {
        store.put(place(*i), &[*byte; 1024])?;
    }
    Ok(())
}

/// The byte of which a page is full, 0 where there is none, and 99 where the call fails.
fn byte_at(store: &mut BatchStore<Stopping>, i: u32) -> u8 {
    let mut page = [0; 1024];
    match store.get(place(i), &mut page) {
        Ok(true) if page == [page[0]; 1024] => page[0],
        Ok(false) => 0,
        _ => 99,
    }
}

/// The bytes of the first three pages.
fn bytes_in(store: &mut BatchStore<Stopping>) -> [u8; 3] {
    [0, 1, 2].map(|i| byte_at(store, i))
}

#[test]
fn what_is_put_is_given_and_stays_once_it_is_laid(rt: HostRuntime) {
    let mut store = begun(rt.alloc(), &rt, ENDLESS);
    assert!(rt; put_all(&mut store, &[(0, 2), (2, 3), (0, 4)]) == Ok(()));
    assert!(rt; bytes_in(&mut store) == [4, 1, 3]);
    store.begin();
    assert!(rt; store.is_empty());
    assert!(rt; bytes_in(&mut store) == [1, 1, 0]);
    assert!(rt; put_all(&mut store, &[(2, 5), (1, 6), (2, 7)]) == Ok(()));
    assert!(rt; store.finish() == Ok(()));
    assert!(rt; store.is_empty());
    assert!(rt; bytes_in(&mut store) == [1, 6, 7]);
    assert!(rt; put_all(&mut store, &[(0, 8)]) == Ok(()));
    assert!(rt; store.finish() == Ok(()));
    assert!(rt; bytes_in(&mut store) == [8, 6, 7]);
    drop(store);
}

/// A change of three pages that stops after so many calls of the disk, a crash, and a restore: whether
/// it went well, and what stands then.
fn stopped(alloc: Global, rt: &impl Abort, stop: u64, left: Left) -> (bool, [u8; 3]) {
    let mut store = begun(alloc, rt, stop);
    let done = match put_all(&mut store, &[(0, 2), (2, 2), (0, 3)]) {
        Ok(()) => store.finish().is_ok(),
        Err(_) => false,
    };
    let disk = store.into_disk();
    let mut disk = Stopping::over(disk.disk.crash(alloc, left).expect(rt, "memory"), ENDLESS);
    let _restored = restore(&mut disk).expect(rt, "restore");
    let mut store = BatchStore::over(alloc, disk);
    let bytes = bytes_in(&mut store);
    drop(store);
    (done, bytes)
}

#[test]
fn all_that_was_put_stands_or_nothing_wherever_a_change_stops(rt: HostRuntime) {
    for stop in 0..15 {
        for left in [Left::Old, Left::New, Left::Filled(1), Left::Filled(255)] {
            let (done, bytes) = stopped(rt.alloc(), &rt, stop, left);
            assert!(rt; done == (stop >= 13));
            assert!(rt; bytes == [3, 1, 2] || bytes == [1, 1, 0] && !done);
        }
    }
}

#[test]
fn nothing_is_put_while_a_restore_is_due(rt: HostRuntime) {
    let mut store = begun(rt.alloc(), &rt, 6);
    assert!(rt; put_all(&mut store, &[(0, 2)]) == Ok(()));
    assert!(rt; store.finish() == Err(RestoreFault::Disk));
    assert!(rt; store.is_due());
    assert!(rt; put_all(&mut store, &[(0, 3)]) == Err(StoreFault::OutOfMemory));
    assert!(rt; store.restore() == Err(RestoreFault::Disk));
    drop(store);
}
