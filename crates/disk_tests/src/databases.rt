// Databases on disks that stop and crash, and that are damaged.
use crate::shared::{
    COME, GONE_WITH_VIEW, INDEXED, MADE_BARE_Q, MADE_P, MADE_Q, MOVED, PERMITTED, RULED, STORED,
    Step, UNPERMITTED, UNRULED, VIEWED, known, named, take, take_all,
};
use base_trait::{Base, BaseFault};
use batch_file::{Restored, restore};
use calculus::List;
use db_disk::{CreateFault, DbDisk, OpenFault, create_db};
use disk_model::{Addr, Disk, Left, MemDisk, Page};
use std::alloc::Global;
use std::process::Abort;
use std::test::*;

const KINDS: [Left; 5] = [
    Left::Old,
    Left::New,
    Left::Filled(0),
    Left::Filled(1),
    Left::Filled(255),
];

/// The most calls that are tried for a stop; each change takes fewer.
const MOST: u64 = 100;

/// The pages of a small database, without those of a batch.
struct Pages {
    pages: Vec<(Addr, Page)>,
}

impl Drop for Pages {
    fn drop(self) {
        let Self { pages: _ } = self;
    }
}

/// The addresses of the pages that a small database may have: the header, the birth byte, the catalogues,
/// and the pages of two relations.
const ADDRESSES: [Addr; 7] = [
    Addr { file: 0, page: 0 },
    Addr { file: 0, page: 1 },
    Addr { file: 5, page: 0 },
    Addr { file: 6, page: 0 },
    Addr { file: 7, page: 0 },
    Addr { file: 16, page: 0 },
    Addr { file: 17, page: 0 },
];

/// The pages of a disk at these addresses.
fn pages_of(alloc: Global, rt: &impl Abort, mut disk: MemDisk) -> Pages {
    let mut pages = Vec::new(alloc);
    for at in ADDRESSES {
        let mut page: Page = [0; 1024];
        if disk.read(at, &mut page).expect(rt, "read") {
            pages.push((at, page)).expect(rt, "memory");
        }
    }
    drop(disk);
    Pages { pages }
}

/// A new disk with an empty database.
pub fn new_disk(alloc: Global, rt: &impl Abort) -> MemDisk {
    let mut disk = MemDisk::new(alloc, Vec::new(alloc), None);
    let dba = named(alloc, rt, b"ann");
    assert!(rt; create_db(&mut disk, &dba) == Ok(()));
    disk
}

/// The disk of a database on which these steps were taken.
fn with_all_taken<D: Disk>(alloc: Global, rt: &impl Abort, disk: D, steps: &[Step]) -> D {
    let mut base = DbDisk::later(alloc, disk);
    assert!(rt; take_all(alloc, rt, &mut base, steps) == Ok(()));
    base.into_disk()
}

/// The pages of a database on which these steps were taken.
fn begun(alloc: Global, rt: &impl Abort, steps: &[Step]) -> Pages {
    let disk = with_all_taken(alloc, rt, new_disk(alloc, rt), steps);
    pages_of(alloc, rt, disk)
}

/// How many calls write these pages.
fn calls_for(pages: &Pages) -> u64 {
    (pages.pages.len() as u64).saturating_add(1)
}

/// A disk with these pages, which stops after so many calls.
fn disk_with(alloc: Global, rt: &impl Abort, pages: &Pages, stop: Option<u64>) -> MemDisk {
    let mut disk = MemDisk::new(alloc, Vec::new(alloc), stop);
    for (at, page) in pages.pages.iter() {
        disk.write(*at, page).expect(rt, "write");
    }
    disk.sync().expect(rt, "sync");
    disk
}

/// What a database says.
fn says<B: Base>(alloc: Global, rt: &impl Abort, base: &mut B) -> List<i64> {
    match known(alloc, rt, base) {
        Ok(said) => said,
        Err(_) => rt.panic("an answer"),
    }
}

/// The database on a disk.
fn opened<D: Disk + Drop>(alloc: Global, rt: &impl Abort, disk: D) -> DbDisk<D> {
    match DbDisk::open_db(alloc, disk) {
        Ok(base) => base,
        Err(_) => rt.panic("a database"),
    }
}

/// What the database on a disk says; a restore behind its opening finds nothing to do.
fn answers_of<D: Disk + Drop>(alloc: Global, rt: &impl Abort, disk: D) -> List<i64> {
    let mut base = opened(alloc, rt, disk);
    let said = says(alloc, rt, &mut base);
    let mut disk = base.into_disk();
    assert!(rt; restore(&mut disk) == Ok(Restored::Nothing));
    drop(disk);
    said
}

/// Whether a step is done on the database of a disk, and the disk then.
fn with_taken<D: Disk>(alloc: Global, rt: &impl Abort, disk: D, step: Step) -> (bool, D) {
    let mut base = DbDisk::later(alloc, disk);
    let done = take(alloc, rt, &mut base, step) == Ok(true);
    (done, base.into_disk())
}

/// A step is taken on a disk that stops after so many calls more, and crashes. Whether it was done, and
/// what the database says then.
fn stopped(
    alloc: Global,
    rt: &impl Abort,
    pages: &Pages,
    step: Step,
    calls: u64,
    left: Left,
) -> (bool, List<i64>) {
    let stop = calls_for(pages).saturating_add(calls);
    let (done, disk) = with_taken(alloc, rt, disk_with(alloc, rt, pages, Some(stop)), step);
    let disk = disk.crash(alloc, left).expect(rt, "memory");
    (done, answers_of(alloc, rt, disk))
}

/// What is said after a step.
fn said_after(alloc: Global, rt: &impl Abort, pages: &Pages, step: Step) -> List<i64> {
    let (done, disk) = with_taken(alloc, rt, disk_with(alloc, rt, pages, None), step);
    assert!(rt; done);
    answers_of(alloc, rt, disk)
}

/// Whether a step that stops after so many calls, with each kind of crash, leaves what was said before it
/// or what is said after it, the latter where it was done. Whether it was done.
fn is_either(
    alloc: Global,
    rt: &impl Abort,
    pages: &Pages,
    step: Step,
    calls: u64,
    before: &[i64],
    after: &[i64],
) -> bool {
    let mut all_done = true;
    for left in KINDS {
        let (done, said) = stopped(alloc, rt, pages, step, calls, left);
        let is_after = said.items() == after;
        assert!(rt; is_after || (!done && said.items() == before));
        all_done = all_done && done;
    }
    all_done
}

/// Whether the database is that of before or of after wherever a step stops. Answers how many calls the
/// step takes.
fn holds_wherever(alloc: Global, rt: &impl Abort, steps: &[Step], step: Step) -> u64 {
    let pages = begun(alloc, rt, steps);
    let before = answers_of(alloc, rt, disk_with(alloc, rt, &pages, None));
    let after = said_after(alloc, rt, &pages, step);
    assert!(rt; before.items() != after.items());
    for calls in 0..MOST {
        if is_either(
            alloc,
            rt,
            &pages,
            step,
            calls,
            before.items(),
            after.items(),
        ) {
            return calls;
        }
    }
    rt.panic("a step that ends")
}

/// The steps behind each other: after each, the next is tried on a disk that stops.
const STEPS: [Step; 12] = [
    MADE_P,
    MOVED,
    COME,
    MADE_BARE_Q,
    VIEWED,
    PERMITTED,
    RULED,
    INDEXED,
    STORED,
    UNPERMITTED,
    UNRULED,
    GONE_WITH_VIEW,
];

/// How many writes, cuts and syncs each of the steps takes, two syncs of the opening among them.
const CALLS: [u64; 12] = [16, 12, 12, 16, 16, 12, 12, 12, 12, 12, 12, 16];

#[test]
fn a_database_is_that_of_before_or_of_after_wherever_a_change_stops(rt: HostRuntime) {
    let mut calls = [0u64; 12];
    for done in 0..STEPS.len() {
        calls[done] = holds_wherever(rt.alloc(), &rt, &STEPS[..done], STEPS[done]);
    }
    assert!(rt; calls == CALLS);
}

/// A step is taken, and what is kept in memory then is what the disk holds.
fn is_kept<B: Base>(alloc: Global, rt: &impl Abort, base: &mut B, step: Step) {
    assert!(rt; take(alloc, rt, base, step) == Ok(true));
    let kept = says(alloc, rt, base);
    base.hand_over();
    let held = says(alloc, rt, base);
    assert!(rt; kept.items() == held.items());
}

/// All steps are taken on the database of a disk, and what is kept is asked behind each.
fn keep_all<D: Disk + Drop>(alloc: Global, rt: &impl Abort, disk: D) {
    let mut base = DbDisk::later(alloc, disk);
    for step in STEPS {
        is_kept(alloc, rt, &mut base, step);
    }
    drop(base);
}

#[test]
fn what_is_kept_over_changes_is_what_the_disk_holds(rt: HostRuntime) {
    keep_all(rt.alloc(), &rt, new_disk(rt.alloc(), &rt));
}

#[test]
fn what_is_no_database_is_not_opened(rt: HostRuntime) {
    let empty = MemDisk::new(rt.alloc(), Vec::new(rt.alloc()), None);
    let fault = match DbDisk::open_db(rt.alloc(), empty) {
        Ok(_) => rt.panic("no database"),
        Err(unopened) => unopened.fault,
    };
    assert!(rt; fault == OpenFault::NotADatabase);
    let pages = begun(rt.alloc(), &rt, &[]);
    let mut disk = disk_with(rt.alloc(), &rt, &pages, None);
    let dba = named(rt.alloc(), &rt, b"ann");
    assert!(rt; create_db(&mut disk, &dba) == Err(CreateFault::Exists));
    assert!(rt; answers_of(rt.alloc(), &rt, disk).items().first() == Some(&0));
}

/// A disk with these pages, where one byte of one page is another.
fn forged(
    alloc: Global,
    rt: &impl Abort,
    pages: &Pages,
    turned: usize,
    byte: usize,
    by: u8,
) -> MemDisk {
    let mut disk = MemDisk::new(alloc, Vec::new(alloc), None);
    for (i, (at, page)) in pages.pages.iter().enumerate() {
        let mut page = *page;
        if i == turned && byte < 1024 {
            page[byte] ^= by;
        }
        disk.write(*at, &page).expect(rt, "write");
    }
    disk.sync().expect(rt, "sync");
    disk
}

/// What a forged disk is: 0 the same database, 1 another, 2 refused at a page of these files, 3 no
/// database.
fn kind_of_disk<D: Disk + Drop>(alloc: Global, rt: &impl Abort, disk: D, same: &[i64]) -> usize {
    let mut base = match DbDisk::open_db(alloc, disk) {
        Ok(base) => base,
        Err(unopened) => return kind_of_fault(rt, unopened.fault),
    };
    match known(alloc, rt, &mut base) {
        Ok(said) => usize::from(said.items() != same),
        Err(fault) => kind_of_fault(rt, OpenFault::Base(fault)),
    }
}

fn kind_of_fault(rt: &impl Abort, fault: OpenFault) -> usize {
    match fault {
        OpenFault::NotADatabase => 3,
        OpenFault::Base(BaseFault::Damaged { file, page: _ }) => {
            assert!(rt; file == 0 || file >= 5);
            2
        }
        OpenFault::Base(_) => rt.panic("damage"),
    }
}

/// How many of the bytes of a page, each turned so, leave the same database, another one, one that is
/// refused at a page, and none.
fn turned(
    alloc: Global,
    rt: &impl Abort,
    pages: &Pages,
    at: usize,
    by: u8,
    same: &[i64],
) -> [u32; 4] {
    let mut counts = [0u32; 4];
    for byte in 0..1024usize {
        let kind = kind_of_disk(alloc, rt, forged(alloc, rt, pages, at, byte, by), same);
        match counts.get_mut(kind) {
            Some(count) => *count = count.saturating_add(1),
            None => rt.panic("a kind"),
        }
    }
    counts
}

/// A small database, with something in each catalogue.
const SMALL: [Step; 6] = [MADE_P, MADE_Q, VIEWED, PERMITTED, RULED, INDEXED];

#[test]
fn a_forged_page_is_refused_or_is_another_database(rt: HostRuntime) {
    let pages = begun(rt.alloc(), &rt, &SMALL);
    let same = answers_of(rt.alloc(), &rt, forged(rt.alloc(), &rt, &pages, 9, 0, 0));
    assert!(rt; pages.pages.len() == ADDRESSES.len());
    for at in 2..5usize {
        let counts = turned(rt.alloc(), &rt, &pages, at, 1, same.items());
        assert!(rt; counts[0] > 0 && counts[0] < 1024);
    }
}
