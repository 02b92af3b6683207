//! A database on a disk is opened at once.

ghost use Rattle.std.specs.Prelude.{◌≡◌, IsTrue, Some, IfOk, false};
ghost use Rattle.disk_model.specs.Disk.{Image, LeavesOnly};
ghost use Rattle.batch_file.specs.Redone.{redone};
ghost use Rattle.db_disk.specs.Held.{has_head, database_by, SameHeld};
ghost use Rattle.db_disk.specs.Opened.{disk_after, HasOpenCause, IsNot, IsRefused, open_fault};
ghost use Rattle.db_disk.specs.Shown.{db_of};

use crate::DbDisk;
use crate::load::LoadFault;
use base_trait::BaseFault;
use disk_model::Disk;
use std::alloc::Global;

/// Why a database wasn't opened.
#[derive(Clone, Copy, PartialEq, Eq)]
pub enum OpenFault {
    /// The disk holds no header, or no database was born on it.
    NotADatabase,
    /// A call below failed, or the disk is damaged.
    Base(BaseFault),
}

/// A disk that wasn't opened, and why.
pub struct Unopened<D> {
    /// The disk.
    pub disk: D,
    /// Why.
    pub fault: OpenFault,
}

impl<D: Drop> Drop for Unopened<D> {
    fn drop(self) {
        let Self { disk: _, fault: _ } = self;
    }
}

/// The fault with which a database isn't opened.
fn open_fault(fault: LoadFault) -> OpenFault
    ensures { result ≡ open_fault fault }
{
    match fault {
        LoadFault::NoHead(_) => OpenFault::NotADatabase,
        LoadFault::Base(fault) => OpenFault::Base(fault),
    }
}

impl<D: Disk> DbDisk<D> {
    /// Opens the database on a disk: it restores the disk, and reads the header, the birth byte and the
    /// catalogues, each page once. `NotADatabase` where the header isn't of its form or no database was born.
    pub fn open_db(alloc: Global, disk: D) -> Result<DbDisk<D>, Unopened<D>>
        ensures known { IfOk result (λ d. db_of d ≡ database_by D.is_known (D.seen disk)) }
        ensures kept { database_by D.is_known (D.seen (disk_after result)) ≡ database_by D.is_known (D.seen disk) }
        ensures not_one { IsTrue D.is_known → (m : Image) → redone (D.seen disk) ≡ Some m → IsNot result → has_head m ≡ false }
        ensures refused { IsTrue D.is_known → (m : Image) → redone (D.seen disk) ≡ Some m → has_head m ≡ false → IsRefused result }
        ensures crash { IsTrue D.is_known → LeavesOnly D.clock D.left_since disk (disk_after result) (SameHeld (D.seen disk) (D.touched disk)) }
        ensures cause { HasOpenCause (database_by D.is_known (D.seen disk)) (D.faults disk) (D.faults (disk_after result)) result }
    {
        let mut base = DbDisk::later(alloc, disk);
        match base.start(alloc) {
            Ok(()) => Ok(base),
            Err(fault) => Err(Unopened {
                disk: base.into_disk(),
                fault: open_fault(fault),
            }),
        }
    }
}
