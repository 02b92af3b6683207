//! Pages in the files of a real folder.

use disk_model::{Addr, Disk, DiskFailed, Page};
use folder_disk::{Counts, FolderDisk};
use std::fs;
use std::process::Abort;
use std::test::*;

const FOLDER: &str = "folder_disk_test";

const ANEW: &str = "folder_disk_test_anew";

const WRITTEN_ON: &str = "folder_disk_test_written_on";

const NO_FILES: &str = "folder_disk_test_of_faults";

/// Where the pages of the tests lie.
const SECOND_OF_5: Addr = Addr { file: 5, page: 1 };

const THIRD_OF_5: Addr = Addr { file: 5, page: 2 };

const FIRST_OF_16: Addr = Addr { file: 16, page: 0 };

/// The last byte of a page, where the page is there.
fn byte_at<D: Disk>(disk: &mut D, at: Addr) -> Result<Option<u8>, DiskFailed> {
    let mut page: Page = [0; 1024];
    let is_there = disk.read(at, &mut page)?;
    Ok(if is_there { Some(page[1023]) } else { None })
}

/// Whether a page of this byte is written.
fn is_written<D: Disk>(disk: &mut D, at: Addr, byte: u8) -> bool {
    disk.write(at, &[byte; 1024]).is_ok()
}

/// How long a file is, where it is there.
fn length_of(rt: &HostRuntime, path: &str) -> Option<u64> {
    match fs::metadata(rt, path) {
        Ok(found) => Some(found.len()),
        Err(_) => None,
    }
}

/// What is tried on the disk in a folder.
#[derive(Clone, Copy)]
enum Trial {
    TwoFiles,
    WrittenAndCut,
    ReadAnew,
    WrittenAgain,
    WrittenOn,
    NoFile,
}

/// Reads, cuts and syncs where there is no folder: none is made.
fn try_no_folder<D: Disk>(rt: &impl Abort, files: &HostRuntime, disk: &mut D) {
    assert!(rt; byte_at(disk, FIRST_OF_16) == Ok(None));
    assert!(rt; disk.cut(5).is_ok() && disk.sync().is_ok());
    assert!(rt; length_of(files, FOLDER).is_none());
}

/// Writes pages of the files 5 and 16, and cuts the latter.
fn try_two_files<D: Disk>(rt: &impl Abort, files: &HostRuntime, disk: &mut D) {
    assert!(rt; is_written(disk, SECOND_OF_5, 7));
    assert!(rt; is_written(disk, FIRST_OF_16, 8));
    assert!(rt; disk.sync().is_ok());
    assert!(rt; length_of(files, "folder_disk_test/5") == Some(2048));
    assert!(rt; length_of(files, "folder_disk_test/16") == Some(1024));
    assert!(rt; disk.cut(16).is_ok());
}

/// Writes a page of file 5 and one of file 16, which is cut.
fn write_and_cut<D: Disk>(rt: &impl Abort, disk: &mut D) {
    assert!(rt; is_written(disk, SECOND_OF_5, 7));
    assert!(rt; is_written(disk, FIRST_OF_16, 8));
    assert!(rt; disk.cut(16).is_ok());
}

/// Reads what was written so.
fn read_anew<D: Disk>(rt: &impl Abort, disk: &mut D) {
    assert!(rt; byte_at(disk, SECOND_OF_5) == Ok(Some(7)));
    assert!(rt; byte_at(disk, THIRD_OF_5) == Ok(None));
    assert!(rt; byte_at(disk, FIRST_OF_16) == Ok(None));
}

/// Writes on a file that this disk has made.
fn write_again<D: Disk>(rt: &impl Abort, disk: &mut D) {
    assert!(rt; is_written(disk, SECOND_OF_5, 7));
    assert!(rt; is_written(disk, THIRD_OF_5, 8));
    assert!(rt; is_written(disk, SECOND_OF_5, 9));
    assert!(rt; byte_at(disk, THIRD_OF_5) == Ok(Some(8)));
}

/// Writes on that file once it was opened anew.
fn write_on<D: Disk>(rt: &impl Abort, disk: &mut D) {
    assert!(rt; is_written(disk, THIRD_OF_5, 6));
    assert!(rt; byte_at(disk, SECOND_OF_5) == Ok(Some(9)));
    assert!(rt; byte_at(disk, THIRD_OF_5) == Ok(Some(6)));
}

/// Asks for pages of what is no file, and syncs twice: all fail.
fn try_no_file<D: Disk>(rt: &impl Abort, disk: &mut D) {
    assert!(rt; byte_at(disk, SECOND_OF_5).is_err());
    assert!(rt; !is_written(disk, SECOND_OF_5, 7));
    assert!(rt; disk.sync().is_err());
    assert!(rt; disk.sync().is_err());
}

/// Tries this on a disk.
fn try_on<D: Disk>(rt: &impl Abort, files: &HostRuntime, disk: &mut D, trial: Trial) {
    match trial {
        Trial::TwoFiles => {
            try_no_folder(rt, files, disk);
            try_two_files(rt, files, disk);
        }
        Trial::WrittenAndCut => write_and_cut(rt, disk),
        Trial::ReadAnew => read_anew(rt, disk),
        Trial::WrittenAgain => write_again(rt, disk),
        Trial::WrittenOn => write_on(rt, disk),
        Trial::NoFile => try_no_file(rt, disk),
    }
}

/// Tries this on the disk in a folder, opened anew; what was counted then.
fn tried(rt: &impl Abort, files: &HostRuntime, folder: &str, trial: Trial) -> Counts {
    let mut disk = FolderDisk::new(files, files.alloc(), folder).expect(rt, "memory");
    try_on(rt, files, &mut disk, trial);
    let counts = disk.counts();
    drop(disk);
    counts
}

#[test]
fn pages_lie_in_files_that_are_named_by_numbers(rt: HostRuntime) {
    let _ = fs::remove_dir_all(&rt, FOLDER);
    let counts = tried(&rt, &rt, FOLDER, Trial::TwoFiles);
    assert!(rt;
        counts
            == Counts {
                reads: 1,
                writes: 2,
                cuts: 2,
                syncs: 2
            }
    );
    let _ = fs::remove_dir_all(&rt, FOLDER);
}

#[test]
fn pages_are_there_when_the_folder_is_opened_anew(rt: HostRuntime) {
    let _ = fs::remove_dir_all(&rt, ANEW);
    let _ = tried(&rt, &rt, ANEW, Trial::WrittenAndCut);
    let _ = tried(&rt, &rt, ANEW, Trial::ReadAnew);
    let _ = fs::remove_dir_all(&rt, ANEW);
}

#[test]
fn a_file_that_is_there_is_written_on(rt: HostRuntime) {
    let _ = fs::remove_dir_all(&rt, WRITTEN_ON);
    let _ = tried(&rt, &rt, WRITTEN_ON, Trial::WrittenAgain);
    let _ = tried(&rt, &rt, WRITTEN_ON, Trial::WrittenOn);
    let _ = fs::remove_dir_all(&rt, WRITTEN_ON);
}

#[test]
fn what_is_no_file_is_a_fault(rt: HostRuntime) {
    let _ = fs::remove_dir_all(&rt, NO_FILES);
    assert!(rt; fs::create_dir(&rt, NO_FILES).is_ok());
    assert!(rt; fs::create_dir(&rt, "folder_disk_test_of_faults/5").is_ok());
    let _ = tried(&rt, &rt, NO_FILES, Trial::NoFile);
    let _ = fs::remove_dir_all(&rt, NO_FILES);
}
