//! Pages of an open file.

use disk_model::Page;
use std::io;
use std::io::ErrorKind;
use std::os::unix::fs::FileExt;

/// Where a page begins in its file.
fn start_of(page: u32) -> u64 {
    u64::from(page) * 1024
}

/// Reads a page; whether the file reaches to its end.
pub(crate) fn read_page<F: FileExt>(file: &F, page: u32, out: &mut Page) -> io::Result<bool> {
    match file.read_exact_at(out, start_of(page)) {
        Ok(()) => Ok(true),
        Err(error) if error.kind() == ErrorKind::UnexpectedEof => Ok(false),
        Err(error) => Err(error),
    }
}

/// Writes a page.
pub(crate) fn write_page<F: FileExt>(file: &F, page: u32, bytes: &Page) -> io::Result<()> {
    file.write_all_at(bytes, start_of(page))
}
