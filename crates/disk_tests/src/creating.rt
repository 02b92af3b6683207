// A database is made on a disk that stops and crashes at each of its calls.
use calculus::Name;
use db_disk::{CreateFault, create_db};
use disk_model::{Addr, Call, Disk, Left, MemDisk, Page};
use page_cells::{next_of, page_ok, slot};
use std::alloc::Global;
use std::process::Abort;
use std::test::*;

const KINDS: [Left; 5] = [
    Left::Old,
    Left::New,
    Left::Filled(0),
    Left::Filled(1),
    Left::Filled(255),
];

/// How many writes, cuts and syncs make a database.
const CALLS: u64 = 9;

/// The name of the administrator.
fn ann(alloc: Global, rt: &impl Abort) -> Name {
    match Name::of(alloc, b"ann") {
        Ok(Some(name)) => name,
        _ => rt.panic("a name"),
    }
}

/// A disk with some pages of something else, whose gate is open, and which stops after so many calls.
fn begun(alloc: Global, rt: &impl Abort, stop: Option<u64>) -> MemDisk {
    let mut disk = MemDisk::new(alloc, Vec::new(alloc), stop.map(|n| n.saturating_add(4)));
    disk.write(Addr { file: 0, page: 1 }, &[7; 1024])
        .expect(rt, "write");
    disk.write(Addr { file: 1, page: 0 }, &[1; 1024])
        .expect(rt, "write");
    disk.write(Addr { file: 5, page: 0 }, &[9; 1024])
        .expect(rt, "write");
    disk.sync().expect(rt, "sync");
    disk
}

/// The page at an address.
fn page_at(rt: &impl Abort, disk: &mut MemDisk, file: u32, page: u32) -> Page {
    let mut bytes = [0; 1024];
    assert!(rt;
        disk.read(Addr { file, page }, &mut bytes)
            .expect(rt, "read")
    );
    bytes
}

/// Whether a database was born on the disk.
fn is_born(rt: &impl Abort, disk: &mut MemDisk) -> bool {
    let mut bytes = [0; 1024];
    disk.read(Addr { file: 0, page: 1 }, &mut bytes)
        .expect(rt, "read")
        && bytes[0] == 1
}

/// Whether page 0 of a file has no row and no page behind it.
fn is_empty(rt: &impl Abort, disk: &mut MemDisk, file: u32) -> bool {
    let page = page_at(rt, disk, file, 0);
    page_ok(&page) && next_of(&page) == 0 && slot(&page, 0).is_none()
}

/// Whether the disk has the pages of ann's empty database.
fn is_new(rt: &impl Abort, disk: &mut MemDisk) -> bool {
    let header = page_at(rt, disk, 0, 0);
    let gate = page_at(rt, disk, 1, 0);
    header.starts_with(b"INGRES7 \x01\x00ann         ")
        && gate[0] == 0
        && is_born(rt, disk)
        && is_empty(rt, disk, 5)
        && is_empty(rt, disk, 6)
        && is_empty(rt, disk, 7)
}

/// A database is made on a disk that stops after so many calls and crashes: whether it was made, whether
/// one was born, and, once it was made again, whether it is there.
fn stopped(alloc: Global, rt: &impl Abort, stop: u64, left: Left) -> (bool, bool, bool) {
    let mut disk = begun(alloc, rt, Some(stop));
    let dba = ann(alloc, rt);
    let made = create_db(&mut disk, &dba) == Ok(());
    let mut disk = disk.crash(alloc, left).expect(rt, "memory");
    let born = is_born(rt, &mut disk);
    let again = create_db(&mut disk, &dba);
    let is_there = is_new(rt, &mut disk) && (again == Err(CreateFault::Exists)) == born;
    drop(disk);
    (made, born, is_there)
}

#[test]
fn a_database_is_there_or_not_wherever_its_making_stops(rt: HostRuntime) {
    for stop in 0..=CALLS {
        for left in KINDS {
            let (made, born, is_there) = stopped(rt.alloc(), &rt, stop, left);
            assert!(rt; made == (stop == CALLS));
            assert!(rt; born == made || stop == CALLS - 1 || stop == CALLS - 2);
            assert!(rt; is_there);
        }
    }
}

#[test]
fn a_database_that_is_there_is_not_made_again(rt: HostRuntime) {
    let mut disk = begun(rt.alloc(), &rt, None);
    let dba = ann(rt.alloc(), &rt);
    assert!(rt; create_db(&mut disk, &dba) == Ok(()));
    assert!(rt; is_new(&rt, &mut disk));
    let before = disk.calls().len();
    assert!(rt; create_db(&mut disk, &dba) == Err(CreateFault::Exists));
    assert!(rt; disk.calls().len() == before + 1);
    assert!(rt; matches!(disk.calls()[before], Call::Sync));
    drop(disk);
}
