//! The disk.

ghost use Rattle.std.specs.Prelude.{◌≡◌, None, IfOk, false};
ghost use Rattle.fault_io.specs.Causes.{HasCause};

use crate::counts::Counts;
use crate::folder::Folder;
use disk_model::{Addr, Disk, DiskFailed, Page};
use memory::OutOfMemory;
use std::alloc::Global;
use std::io;
use std::marker::Model;
use std::os::unix::fs::FileExt;
use std::rt::Files;

/// A disk in a folder, which tells nothing of what it holds. File n lies in the folder under the name n, in
/// decimal, with page p at its bytes 1024 p to 1024 p + 1023. Contracts see how often each call was made,
/// and how often one has failed.
pub struct FolderDisk<'r, R: Files> {
    folder: Folder<'r, R>,
    counts: Counts,
    faults: u64,
}

impl<'r, R: Files> Drop for FolderDisk<'r, R> {
    fn drop(self) {
        let Self {
            folder: _,
            counts: _,
            faults: _,
        } = self;
    }
}

impl<'r, R: Files> Model for FolderDisk<'r, R> {
    ghost use Rattle.folder_disk.specs.Counted.{Counted};

    ghost Value = { Counted };

    ghost view = { λ d. record { counts = d.counts; faults = d.faults } };
}

impl<'r, R: Files> FolderDisk<'r, R>
where
    R::File: FileExt,
{
    /// The disk in the folder at this path, which may be there or not: it is made at the first write.
    pub fn new(files: &'r R, alloc: Global, folder: &str) -> Result<FolderDisk<'r, R>, OutOfMemory>
        ensures { IfOk result (λ d. d ≡ record { counts = record { reads = 0; writes = 0; cuts = 0; syncs = 0 }; faults = 0 }) }
    {
        let folder = Folder::new(files, alloc, folder)?;
        Ok(FolderDisk {
            folder,
            counts: Counts::NONE,
            faults: 0,
        })
    }

    /// How often each call was made so far.
    pub fn counts(&self) -> Counts
        ensures { result ≡ self.now.counts }
    {
        self.counts
    }
}

/// The answer of a call, whose error is counted.
fn counted<T: Drop>(faults: &mut u64, answer: io::Result<T>) -> Result<T, DiskFailed>
    ensures { HasCause faults.old faults.new result }
{
    match answer {
        Ok(value) => Ok(value),
        Err(_) => {
            *faults = faults.saturating_add(1);
            Err(DiskFailed)
        }
    }
}

impl<'r, R: Files> Disk for FolderDisk<'r, R>
where
    R::File: FileExt,
{
    ghost is_known = { false };

    ghost seen = { λ _ _. None };

    ghost touched = { λ _ _. ⊥ };

    ghost clock = { λ _. 0 };

    ghost left_since = { λ _ _ _. ⊥ };

    ghost faults = { λ d. d.faults };

    ghost reads = { λ d. d.counts.reads };

    ghost history = { λ _. None };

    ghost only_now = { λ d m known left. absurd left };

    ghost counts_now = { λ d t m known le image. absurd (Prim.cc known) };

    fn read(&mut self, a: Addr, out: &mut Page) -> Result<bool, DiskFailed> {
        self.counts.reads = self.counts.reads.saturating_add(1);
        let answer = self.folder.read(a, out);
        counted(&mut self.faults, answer)
    }

    fn write(&mut self, a: Addr, page: &Page) -> Result<(), DiskFailed> {
        self.counts.writes = self.counts.writes.saturating_add(1);
        let answer = self.folder.write(a, page);
        counted(&mut self.faults, answer)
    }

    fn cut(&mut self, file: u32) -> Result<(), DiskFailed> {
        self.counts.cuts = self.counts.cuts.saturating_add(1);
        let answer = self.folder.cut(file);
        counted(&mut self.faults, answer)
    }

    fn sync(&mut self) -> Result<(), DiskFailed> {
        self.counts.syncs = self.counts.syncs.saturating_add(1);
        let answer = self.folder.sync();
        counted(&mut self.faults, answer)
    }
}
