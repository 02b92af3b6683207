// The disk in memory: what a crash leaves, and which of its calls fail.
use disk_model::{Addr, Call, Disk, DiskFailed, Left, MemDisk};
use std::alloc::Global;
use std::process::Abort;
use std::test::*;

const KEPT: Addr = Addr { file: 5, page: 0 };

const WRITTEN: Addr = Addr { file: 5, page: 1 };

const ADDED: Addr = Addr { file: 6, page: 9 };

const CUT: Addr = Addr { file: 7, page: 3 };

/// Fills pages with a byte each.
fn fill(rt: &impl Abort, disk: &mut MemDisk, pages: &[(Addr, u8)]) {
    for (at, byte) in pages {
        disk.write(*at, &[*byte; 1024]).expect(rt, "write");
    }
}

/// A disk on which one address is untouched since the last sync, one was written again, one is new,
/// and the file of one was cut.
fn written(alloc: Global, rt: &impl Abort) -> MemDisk {
    let mut disk = MemDisk::new(alloc, Vec::new(alloc), None);
    fill(rt, &mut disk, &[(KEPT, 1), (WRITTEN, 1), (CUT, 1)]);
    disk.sync().expect(rt, "sync");
    fill(rt, &mut disk, &[(WRITTEN, 2), (ADDED, 3)]);
    disk.cut(CUT.file).expect(rt, "cut");
    disk
}

/// The byte of which a page is full, 0 where there is none, and 99 where it has several or the read
/// failed.
fn byte_at(disk: &mut MemDisk, at: Addr) -> u8 {
    let mut page = [0; 1024];
    match disk.read(at, &mut page) {
        Ok(false) => 0,
        Ok(true) if page == [page[0]; 1024] => page[0],
        _ => 99,
    }
}

/// What a crash leaves at the four addresses and beside the last; the disk then goes on.
fn bytes_after(alloc: Global, rt: &impl Abort, left: Left) -> [u8; 5] {
    let mut disk = written(alloc, rt).crash(alloc, left).expect(rt, "memory");
    assert!(rt; disk.calls().len() == 0);
    let beside = Addr { file: 7, page: 0 };
    let bytes = [KEPT, WRITTEN, ADDED, CUT, beside].map(|at| byte_at(&mut disk, at));
    assert!(rt; disk.sync() == Ok(()));
    drop(disk);
    bytes
}

#[test]
fn a_crash_leaves_what_its_kind_says(rt: HostRuntime) {
    for (left, bytes) in [
        (Left::Old, [1, 1, 0, 1, 0]),
        (Left::New, [1, 2, 3, 0, 0]),
        (Left::Filled(7), [1, 7, 7, 7, 7]),
    ] {
        assert!(rt; bytes_after(rt.alloc(), &rt, left) == bytes);
    }
}

#[test]
fn calls_fail_by_their_number_and_after_the_stop(rt: HostRuntime) {
    let failing = [1, 3].to_vec(rt.alloc()).expect(&rt, "memory");
    let mut page = [0; 1024];
    let mut disk = MemDisk::new(rt.alloc(), failing, Some(4));
    assert!(rt; disk.write(KEPT, &[1; 1024]) == Ok(()));
    assert!(rt; disk.read(KEPT, &mut page) == Err(DiskFailed));
    assert!(rt; disk.write(KEPT, &[2; 1024]) == Ok(()));
    assert!(rt; disk.sync() == Err(DiskFailed));
    assert!(rt; disk.read(KEPT, &mut page) == Ok(true));
    assert!(rt; page[1023] == 2);
    assert!(rt; disk.cut(5) == Ok(()));
    assert!(rt; disk.read(KEPT, &mut page) == Err(DiskFailed));
    assert!(rt; disk.write(KEPT, &[3; 1024]) == Err(DiskFailed));
    let entries = [
        Call::Write(KEPT, [1; 1024]),
        Call::Write(KEPT, [2; 1024]),
        Call::FailedSync,
        Call::Cut(5),
        Call::FailedWrite(KEPT),
    ];
    assert!(rt; disk.calls() == entries.as_slice());
    drop(disk);
}
