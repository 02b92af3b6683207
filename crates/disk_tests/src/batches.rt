// Batches on a disk that stops and crashes at each of its calls.
ghost use Rattle.std.specs.Prelude.{◌≡◌, ◌<◌, ◌≤◌, ◌^◌, All, IsTrue, length};
ghost use Rattle.batch_file.specs.Layout.{is_place};

use crate::stopping::Stopping;
use batch_file::{Batch, RestoreFault, Restored, commit, restore};
use disk_model::{Addr, Call, Disk, Left, MemDisk, Page};
use std::alloc::Global;
use std::process::Abort;
use std::test::*;

const ENDLESS: u64 = 1 << 40;

const KINDS: [Left; 5] = [
    Left::Old,
    Left::New,
    Left::Filled(0),
    Left::Filled(1),
    Left::Filled(255),
];

/// A disk without a page that doesn't stop.
fn empty_disk(alloc: Global, rt: &impl Abort) -> Stopping {
    Stopping::over(MemDisk::new(alloc, Vec::new(alloc), None), ENDLESS)
}

/// Where page `i` of the batches below stands.
fn place(i: u32) -> Addr
    ensures { IsTrue (is_place result) }
{
    if i == 0 {
        Addr { file: 0, page: 0 }
    } else {
        Addr { file: 16, page: i }
    }
}

/// Changes that fill `n` pages with the byte 2.
fn changes(alloc: Global, rt: &impl Abort, n: u32) -> Vec<(Addr, Page)>
    ensures places { All (λ c. IsTrue (is_place c.0)) result.items }
    ensures few { length result.items ≤ n }
{
    let mut changes = Vec::new(alloc);
    for i in 0..n {
        changes.push((place(i), [2; 1024])).expect(rt, "memory");
    }
    changes
}

/// The byte of which a page is full, and None where there is no page.
fn byte_at<D: Disk>(rt: &impl Abort, disk: &mut D, at: Addr) -> Option<u8> {
    let mut page = [0; 1024];
    if !disk.read(at, &mut page).expect(rt, "read") {
        return None;
    }
    assert!(rt; page == [page[0]; 1024]);
    Some(page[0])
}

/// A disk on which the even ones of the first `n` places are full of 1, and the odd ones are empty.
fn begun(alloc: Global, rt: &impl Abort, n: u32) -> MemDisk {
    let mut disk = MemDisk::new(alloc, Vec::new(alloc), None);
    for i in 0..n {
        if i % 2 == 0 {
            disk.write(place(i), &[1; 1024]).expect(rt, "write");
        }
    }
    disk.sync().expect(rt, "sync");
    disk
}

/// Whether the first `n` places are all full of 2; else they are to be as they were.
fn is_new<D: Disk>(rt: &impl Abort, disk: &mut D, n: u32) -> bool {
    let is_new = byte_at(rt, disk, place(0)) == Some(2);
    for i in 0..n {
        let was = if i % 2 == 0 { Some(1) } else { None };
        let wanted = if is_new { Some(2) } else { was };
        assert!(rt; byte_at(rt, disk, place(i)) == wanted);
    }
    is_new
}

/// The disk as a crash leaves it, which stops after so many calls.
fn crashed(alloc: Global, rt: &impl Abort, disk: Stopping, left: Left, stop: u64) -> Stopping {
    Stopping::over(disk.disk.crash(alloc, left).expect(rt, "memory"), stop)
}

/// Restores the disk after a crash, and finds nothing to be done then.
fn restored(alloc: Global, rt: &impl Abort, disk: Stopping, left: Left) -> Stopping {
    let mut disk = crashed(alloc, rt, disk, left, ENDLESS);
    let _redone = restore(&mut disk).expect(rt, "restore");
    assert!(rt; restore(&mut disk) == Ok(Restored::Nothing));
    disk
}

/// A commit of `n` pages that stops after `k` calls, a crash, a restore that stops after `j` calls, a
/// crash, and a restore. Answers whether the commit went well, and whether the new pages stand.
fn stopped_twice(
    alloc: Global,
    rt: &impl Abort,
    n: u32,
    (k, left): (u64, Left),
    (j, again): (u64, Left),
) -> (bool, bool) {
    let mut disk = Stopping::over(begun(alloc, rt, n), k);
    let changes = changes(alloc, rt, n);
    let done = commit(&mut disk, &changes).is_ok();
    drop(changes);
    let mut disk = crashed(alloc, rt, disk, left, j);
    let _stopped = restore(&mut disk).is_ok();
    let mut disk = restored(alloc, rt, disk, again);
    let is_new = is_new(rt, &mut disk, n);
    drop(disk);
    (done, is_new)
}

#[test]
fn all_pages_stand_or_none_wherever_commit_and_restore_stop(rt: HostRuntime) {
    for n in 1..6 {
        let calls = u64::from(2 * n + 8);
        let gate = u64::from(n + 3);
        for k in 0..=calls {
            for left in KINDS {
                for j in 0..u64::from(n + 6) {
                    for again in [Left::Old, Left::New, Left::Filled(1)] {
                        let (done, is_new) = stopped_twice(
                            rt.alloc(),
                            &rt,
                            n,
                            (k, left),
                            (j, again),
                        );
                        let is_lawful = (!is_new || k >= gate) && (is_new || k < gate + 2);
                        assert!(rt; done == (k == calls) && is_lawful);
                    }
                }
            }
        }
    }
}

/// What stands at a page, and whether the commit went well, after a stop of the disk itself, a crash
/// and two restores.
fn after_one_change(alloc: Global, rt: &impl Abort, k: u64, left: Left) -> (Option<u8>, bool) {
    let mut disk = MemDisk::new(alloc, Vec::new(alloc), Some(k.saturating_add(2)));
    disk.write(A, &[1; 1024]).expect(rt, "write");
    disk.sync().expect(rt, "sync");
    let mut disk = Stopping::over(disk, ENDLESS);
    let done = commit(&mut disk, &[(A, [2; 1024])]).is_ok();
    let mut disk = restored(alloc, rt, disk, left);
    let byte = byte_at(rt, &mut disk, A);
    drop(disk);
    (byte, done)
}

#[test]
fn one_change_is_ten_calls_and_stands_from_the_gate_on(rt: HostRuntime) {
    for k in 0..11 {
        for left in KINDS {
            let (byte, done) = after_one_change(rt.alloc(), &rt, k, left);
            assert!(rt; done == (k == 10));
            let is_lawful = match k {
                0..=3 => byte == Some(1),
                4 | 5 => byte == Some(1) || byte == Some(2),
                _ => byte == Some(2),
            };
            assert!(rt; is_lawful);
        }
    }
}

/// The file of a write, 99 for a sync, and 98 for anything else.
fn file_of(call: &Call) -> u32 {
    match call {
        Call::Write(at, _) => at.file,
        Call::Sync => 99,
        _ => 98,
    }
}

/// The calls of a commit of `n` pages as they are to be: each image, each page of 128 addresses once
/// it is full, the rest of the addresses and the head; the gate; the places; the gate.
fn files_to_be(alloc: Global, rt: &impl Abort, n: u32) -> Vec<u32> {
    let mut files = Vec::new(alloc);
    for i in 0..n {
        let both = [4, 3];
        let due = if i % 128 == 127 || i + 1 == n { 2 } else { 1 };
        files.extend_from_slice(&both[..due]).expect(rt, "memory");
    }
    files
        .extend_from_slice(&[2, 99, 1, 99])
        .expect(rt, "memory");
    for i in 0..n {
        files.push(place(i).file).expect(rt, "memory");
    }
    files.extend_from_slice(&[99, 1, 99]).expect(rt, "memory");
    files
}

/// Whether a commit of `n` pages goes well and makes these calls.
fn is_written(alloc: Global, rt: &impl Abort, n: u32) -> bool {
    let mut disk = empty_disk(alloc, rt);
    let changes = changes(alloc, rt, n);
    let done = commit(&mut disk, &changes).is_ok();
    drop(changes);
    let to_be = files_to_be(alloc, rt, n);
    let files = disk.disk.calls().iter().map(file_of);
    let same = files.eq(to_be.iter().copied());
    drop(to_be);
    drop(disk);
    done && same
}

#[test]
fn a_commit_writes_each_page_twice_and_its_addresses_by_128(rt: HostRuntime) {
    for n in [1, 2, 128, 129, 300] {
        assert!(rt; is_written(rt.alloc(), &rt, n));
    }
}

const A: Addr = Addr { file: 16, page: 0 };

const B: Addr = Addr { file: 16, page: 1 };

/// What a restore answers and what stands at two pages, after two images were added to a batch that
/// was left as it was.
fn left_unfinished(
    alloc: Global,
    rt: &impl Abort,
) -> (Result<Restored, RestoreFault>, Option<u8>, Option<u8>) {
    let mut disk = empty_disk(alloc, rt);
    disk.write(A, &[1; 1024]).expect(rt, "write");
    let mut batch = Batch::begin();
    batch.add(&mut disk, A, &[2; 1024]).expect(rt, "add");
    batch.add(&mut disk, B, &[3; 1024]).expect(rt, "add");
    let restored = restore(&mut disk);
    let first = byte_at(rt, &mut disk, A);
    let second = byte_at(rt, &mut disk, B);
    drop(disk);
    (restored, first, second)
}

/// The counts of a batch as it grew, its image, and what stands at its page in the end, where its
/// only image was renewed.
fn renewed(alloc: Global, rt: &impl Abort) -> (u32, u32, u8, Option<u8>) {
    let mut disk = empty_disk(alloc, rt);
    let mut image = [0; 1024];
    let mut batch = Batch::begin();
    let none = batch.count();
    batch.add(&mut disk, A, &[2; 1024]).expect(rt, "add");
    let one = batch.count();
    batch.renew(&mut disk, 0, &[3; 1024]).expect(rt, "renew");
    batch.image(&mut disk, 0, &mut image).expect(rt, "image");
    batch.finish(&mut disk).expect(rt, "finish");
    let byte = byte_at(rt, &mut disk, A);
    drop(disk);
    (none, one, image[1023], byte)
}

#[test]
fn an_unfinished_batch_changes_no_page_and_a_renewed_image_is_laid(rt: HostRuntime) {
    assert!(rt; left_unfinished(rt.alloc(), &rt) == (Ok(Restored::Nothing), Some(1), None));
    assert!(rt; renewed(rt.alloc(), &rt) == (0, 1, 3, Some(3)));
}

/// A page whose first bytes are these.
fn page_of(bytes: &[u8]) -> Page {
    let mut page = [0; 1024];
    for (to, from) in page.iter_mut().zip(bytes) {
        *to = *from;
    }
    page
}

/// Writes page 0 of a file, where there are bytes for it.
fn put<D: Disk>(rt: &impl Abort, disk: &mut D, file: u32, bytes: &[u8]) {
    if !bytes.is_empty() {
        let at = Addr { file, page: 0 };
        disk.write(at, &page_of(bytes)).expect(rt, "write");
    }
}

/// What a restore answers on a disk with this gate, head and page of addresses, and with the first
/// image and no other.
fn answer_to(
    alloc: Global,
    rt: &impl Abort,
    gate: u8,
    head: &[u8],
    addresses: &[u8],
) -> Result<Restored, RestoreFault> {
    let mut disk = empty_disk(alloc, rt);
    put(rt, &mut disk, 1, &[gate]);
    put(rt, &mut disk, 2, head);
    put(rt, &mut disk, 3, addresses);
    put(rt, &mut disk, 4, &[7]);
    let restored = restore(&mut disk);
    drop(disk);
    restored
}

const ONE: &[u8] = b"BATCH7  \x01\0\0\0";

const TWO: &[u8] = b"BATCH7  \x02\0\0\0";

const MANY: &[u8] = b"BATCH7  \x81\0\0\0";

const NONE: &[u8] = b"BATCH7  \0\0\0\0";

const HEADER: &[u8] = &[0, 0, 0, 0, 0, 0, 0, 0];

const BIRTH: &[u8] = &[0, 0, 0, 0, 1, 0, 0, 0];

const OWN: &[u8] = &[4, 0, 0, 0, 0, 0, 0, 0];

const FIFTH: &[u8] = &[5, 0, 0, 0, 9, 0, 0, 0, 0, 1, 0, 0, 9, 0, 0, 0];

/// A gate, a head, a page of addresses, and what a restore answers.
type Forged = (
    u8,
    &'static [u8],
    &'static [u8],
    Result<Restored, RestoreFault>,
);

static FORGED: [Forged; 14] = [
    (0, &[], &[], Ok(Restored::Nothing)),
    (0, NONE, OWN, Ok(Restored::Nothing)),
    (2, ONE, FIFTH, Ok(Restored::Nothing)),
    (1, ONE, FIFTH, Ok(Restored::Redone(1))),
    (1, ONE, HEADER, Ok(Restored::Redone(1))),
    (
        1,
        &[],
        FIFTH,
        Err(RestoreFault::Damaged { file: 2, page: 0 }),
    ),
    (
        1,
        NONE,
        FIFTH,
        Err(RestoreFault::Damaged { file: 2, page: 0 }),
    ),
    (
        1,
        b"BATCH7 \0\x01\0\0\0",
        OWN,
        Err(RestoreFault::Damaged { file: 2, page: 0 }),
    ),
    (1, ONE, &[], Err(RestoreFault::Damaged { file: 3, page: 0 })),
    (1, ONE, OWN, Err(RestoreFault::Damaged { file: 3, page: 0 })),
    (
        1,
        ONE,
        BIRTH,
        Err(RestoreFault::Damaged { file: 3, page: 0 }),
    ),
    (1, TWO, OWN, Err(RestoreFault::Damaged { file: 3, page: 0 })),
    (
        1,
        TWO,
        FIFTH,
        Err(RestoreFault::Damaged { file: 4, page: 1 }),
    ),
    (
        1,
        MANY,
        &[],
        Err(RestoreFault::Damaged { file: 3, page: 0 }),
    ),
];

#[test]
fn a_restore_answers_by_the_gate_and_the_first_page_at_fault(rt: HostRuntime) {
    for (gate, head, addresses, answer) in &FORGED {
        let restored = answer_to(rt.alloc(), &rt, *gate, *head, *addresses);
        assert!(rt; restored == *answer);
    }
}
