//! A folder with one file for each file number.

use crate::pages::{read_page, write_page};
use disk_model::{Addr, Page};
use std::alloc::{AllocError, Global};
use std::collections::{HashMap, HashSet};
use std::fs::{OpenFile, OpenOptions};
use std::io::ErrorKind;
use std::mem::replace;
use std::os::unix::fs::FileExt;
use std::path::{Path, PathBuf};
use std::rt::Files;
use std::{fs, io};

/// The most files that are kept open.
const MOST_OPEN: usize = 256;

/// A folder whose files are named by their numbers. It is made when a file is first written.
///
/// What an earlier process left in a file is synced when the file is opened, and the folder at the first
/// sync, so that nothing is read that a crash would take back. Once a sync has failed each further one
/// fails, as the system may have forgotten what it hadn't written.
pub(crate) struct Folder<'r, R: Files> {
    files: &'r R,
    alloc: Global,
    path: PathBuf,
    open: HashMap<u32, R::File>,
    unsynced: HashSet<u32>,
    has_new_names: bool,
    is_lost: bool,
}

impl<'r, R: Files> Drop for Folder<'r, R> {
    fn drop(self) {
        let Self {
            files: _,
            alloc: _,
            path: _,
            open: _,
            unsynced: _,
            has_new_names: _,
            is_lost: _,
        } = self;
    }
}

/// Syncs a folder, where it is there.
fn sync_names<R: Files>(files: &R, path: Path<'_>) -> io::Result<()> {
    match fs::open(files, path) {
        Ok(folder) => folder.sync_all(),
        Err(error) if error.kind() == ErrorKind::NotFound => Ok(()),
        Err(error) => Err(error),
    }
}

/// Makes a folder, and syncs the one that it lies in.
fn make_folder<R: Files>(files: &R, path: Path<'_>) -> io::Result<()> {
    fs::create_dir(files, path)?;
    match path.parent() {
        Some(parent) if !parent.as_str().is_empty() => sync_names(files, parent),
        _ => sync_names(files, Path::new(".")),
    }
}

/// Makes a file that isn't there.
fn make_file<R: Files>(files: &R, path: Path<'_>) -> io::Result<R::File> {
    OpenOptions::new()
        .read(true)
        .write(true)
        .create_new(true)
        .open(files, path)
}

/// Opens a file that is there, and syncs what an earlier process may have left in it.
fn open_file<R: Files>(files: &R, path: Path<'_>) -> io::Result<R::File> {
    let file = OpenOptions::new().read(true).write(true).open(files, path)?;
    file.sync_all()?;
    Ok(file)
}

impl<'r, R: Files> Folder<'r, R>
where
    R::File: FileExt,
{
    /// The folder at this path, which may be there or not.
    pub(crate) fn new(
        files: &'r R,
        alloc: Global,
        path: &str,
    ) -> Result<Folder<'r, R>, AllocError> {
        let path = PathBuf::from_str(alloc, path)?;
        Ok(Folder {
            files,
            alloc,
            path,
            open: HashMap::new(alloc),
            unsynced: HashSet::new(alloc),
            has_new_names: true,
            is_lost: false,
        })
    }

    /// Reads a page; whether it is there.
    pub(crate) fn read(&mut self, a: Addr, out: &mut Page) -> io::Result<bool> {
        if !self.find(a.file)? {
            return Ok(false);
        }
        match self.open.get(&a.file) {
            Some(file) => read_page(file, a.page, out),
            None => Ok(false),
        }
    }

    /// Writes a page. Makes the file, and the folder, where they aren't there.
    pub(crate) fn write(&mut self, a: Addr, page: &Page) -> io::Result<()> {
        self.ready(a.file)?;
        match self.open.get(&a.file) {
            Some(file) => write_page(file, a.page, page),
            None => Err(ErrorKind::NotFound.into()),
        }
    }

    /// Takes all pages of a file away.
    pub(crate) fn cut(&mut self, number: u32) -> io::Result<()> {
        self.unsynced.insert(number)?;
        if !self.find(number)? {
            return Ok(());
        }
        match self.open.get(&number) {
            Some(file) => file.set_len(0),
            None => Ok(()),
        }
    }

    /// Syncs each file that was written or cut since the last sync that succeeded, and the folder where a
    /// file came.
    pub(crate) fn sync(&mut self) -> io::Result<()> {
        if self.is_lost {
            return Err(ErrorKind::Other.into());
        }
        self.is_lost = true;
        self.sync_files()?;
        if self.has_new_names {
            sync_names(self.files, self.path.as_path())?;
        }
        self.has_new_names = false;
        self.is_lost = false;
        Ok(())
    }

    /// Syncs each file that was written or cut.
    fn sync_files(&mut self) -> io::Result<()> {
        let numbers = replace(&mut self.unsynced, HashSet::new(self.alloc));
        for number in numbers {
            self.sync_file(number)?;
        }
        Ok(())
    }

    /// Syncs a file, where it is there.
    fn sync_file(&mut self, number: u32) -> io::Result<()> {
        if !self.find(number)? {
            return Ok(());
        }
        match self.open.get(&number) {
            Some(file) => file.sync_all(),
            None => Ok(()),
        }
    }

    /// Opens a file where it is there and isn't open yet; whether it is there.
    fn find(&mut self, number: u32) -> io::Result<bool> {
        if self.open.contains_key(&number) {
            return Ok(true);
        }
        match self.opened(number) {
            Ok(file) => {
                self.keep(number, file)?;
                Ok(true)
            }
            Err(error) if error.kind() == ErrorKind::NotFound => Ok(false),
            Err(error) => Err(error),
        }
    }

    /// Makes a file, and the folder where it isn't there.
    fn make(&mut self, number: u32) -> io::Result<()> {
        self.has_new_names = true;
        if !fs::exists(self.files, self.path.as_path())? {
            make_folder(self.files, self.path.as_path())?;
        }
        let file = self.made(number)?;
        self.keep(number, file)
    }

    /// Opens a file that is to be written. Makes it, and the folder, where they aren't there.
    fn ready(&mut self, number: u32) -> io::Result<()> {
        self.unsynced.insert(number)?;
        if self.find(number)? {
            return Ok(());
        }
        self.make(number)
    }

    /// A file that is there, opened.
    fn opened(&self, number: u32) -> io::Result<R::File> {
        let path = self.path_of(number)?;
        open_file(self.files, path.as_path())
    }

    /// A file that isn't there, made.
    fn made(&self, number: u32) -> io::Result<R::File> {
        let path = self.path_of(number)?;
        make_file(self.files, path.as_path())
    }

    /// Keeps an open file. Where as many are open as may be, they are closed before.
    fn keep(&mut self, number: u32, file: R::File) -> io::Result<()> {
        if self.open.len() >= MOST_OPEN {
            self.open.clear();
        }
        self.open.insert(number, file)?;
        Ok(())
    }

    /// The path of a file.
    fn path_of(&self, number: u32) -> Result<PathBuf, AllocError> {
        let name = format!(in self.alloc; "{number}")?;
        self.path.join(self.alloc, name.as_str())
    }
}
