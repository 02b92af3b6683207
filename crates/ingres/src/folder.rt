//! The current folder as a shelf.

ghost use Rattle.std.specs.Prelude.{None};

use fault_io::{Failed, Shelf, ShelfFault};
use std::alloc::Global;
use std::io::{ErrorKind, Read};
use std::path::Path;
use std::rt::Files;
use std::str::from_utf8;
use std::{fs, io};

/// The bytes of a file that are read: one past those that a copy takes.
const MOST_BYTES: u64 = 4_294_967_296;

/// The current folder, which tells nothing of its files. A name is a path from there, as text. A file is
/// written beside the one that it is to be, and then takes its name, so that a reader meets the whole of
/// the one or of the other.
#[derive(Drop)]
pub struct Folder<'r, R: Files> {
    files: &'r R,
    alloc: Global,
    process: u32,
    faults: u64,
}

impl<'r, R: Files> Folder<'r, R> {
    /// The current folder, for the process of this number.
    pub fn new(files: &'r R, alloc: Global, process: u32) -> Folder<'r, R> {
        Folder {
            files,
            alloc,
            process,
            faults: 0,
        }
    }
}

/// The text of a name; `None` where it is empty or no text.
fn text_of(name: &[u8]) -> Option<&str> {
    match from_utf8(name) {
        Ok(text) if !text.is_empty() => Some(text),
        _ => None,
    }
}

/// The bytes of a file, up to one past the most that are copied.
fn bytes_of<R: Files>(files: &R, alloc: Global, name: &str) -> io::Result<Vec<u8>> {
    let file = fs::open(files, name)?;
    let mut bytes = Vec::new(alloc);
    file.take(MOST_BYTES).read_to_end(&mut bytes)?;
    Ok(bytes)
}

/// Writes a file at one path, and gives it another.
fn write_and_rename<R: Files>(
    files: &R,
    beside: Path<'_>,
    name: &str,
    bytes: &[u8],
) -> io::Result<()> {
    fs::write(files, beside, bytes)?;
    fs::rename(files, beside, name)
}

/// Writes a file beside the one of this name, and gives it the name; where that fails it is gone again.
fn replace_file<R: Files>(
    files: &R,
    alloc: Global,
    process: u32,
    name: &str,
    bytes: &[u8],
) -> io::Result<()> {
    let other = format!(in alloc; ".ingres-{process}")?;
    let beside = Path::new(name).with_file_name(alloc, other.as_str())?;
    let done = write_and_rename(files, beside.as_path(), name, bytes);
    if done.is_err() {
        let _ = fs::remove_file(files, beside.as_path());
    }
    done
}

impl<'r, R: Files> Shelf for Folder<'r, R> {
    ghost files = { λ _. None };

    ghost faults = { λ s. s.faults };

    fn fetch(&mut self, alloc: Global, name: &[u8]) -> Result<Option<Vec<u8>>, ShelfFault> {
        let Some(text) = text_of(name) else {
            return Ok(None);
        };
        match bytes_of(self.files, alloc, text) {
            Ok(bytes) => Ok(Some(bytes)),
            Err(error) => match error.kind() {
                ErrorKind::NotFound => Ok(None),
                ErrorKind::OutOfMemory => Err(ShelfFault::OutOfMemory),
                _ => {
                    self.faults = self.faults.saturating_add(1);
                    Err(ShelfFault::Failed)
                }
            },
        }
    }

    fn store(&mut self, name: &[u8], bytes: &[u8]) -> Result<(), Failed> {
        if let Some(text) = text_of(name) {
            if replace_file(self.files, self.alloc, self.process, text, bytes).is_ok() {
                return Ok(());
            }
        }
        self.faults = self.faults.saturating_add(1);
        Err(Failed)
    }
}
