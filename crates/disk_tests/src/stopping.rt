ghost use Rattle.std.specs.Prelude.{◌≡◌, ℕ, None, false};
ghost use Rattle.fault_io.specs.Causes.{HasCause};

use disk_model::{Addr, Disk, DiskFailed, MemDisk, Page};

/// A disk over one in memory of whose content nothing is known. After `left` writes, cuts and
/// syncs each fails; a write or a cut that fails is begun all the same, so that a crash may leave it
/// or not.
#[derive(Drop)]
pub struct Stopping {
    pub disk: MemDisk,
    pub left: u64,
    faults: u64,
    reads: u64,
}

impl Stopping {
    pub fn over(disk: MemDisk, left: u64) -> Stopping {
        Stopping {
            disk,
            left,
            faults: 0,
            reads: 0,
        }
    }

    fn passes(&mut self) -> bool
        ensures faults { self.new.faults ≡ self.old.faults }
        ensures reads { self.new.reads ≡ self.old.reads }
    {
        let passes = self.left > 0;
        self.left = self.left.saturating_sub(1);
        passes
    }

    fn answer(&mut self, is_ok: bool) -> Result<(), DiskFailed>
        ensures cause { HasCause self.old.faults self.new.faults result }
        ensures reads { self.new.reads ≡ self.old.reads }
    {
        if is_ok {
            return Ok(());
        }
        self.faults = self.faults.saturating_add(1);
        Err(DiskFailed)
    }
}

impl Disk for Stopping {
    ghost is_known = { false };

    ghost seen = { λ _ _. None };

    ghost touched = { λ _ _. ⊥ };

    ghost clock = { λ _. 0 };

    ghost left_since = { λ _ _ _. ⊥ };

    ghost faults = { λ d. d.faults };

    ghost reads = { λ d. d.reads };

    ghost history = { λ _. None };

    ghost only_now = { λ d m known left. absurd left };

    ghost counts_now = { λ d t m known le image. absurd (Prim.cc known) };

    fn read(&mut self, a: Addr, out: &mut Page) -> Result<bool, DiskFailed> {
        self.reads = self.reads.saturating_add(1);
        match self.disk.read(a, out) {
            Ok(found) => Ok(found),
            Err(DiskFailed) => {
                self.faults = self.faults.saturating_add(1);
                Err(DiskFailed)
            }
        }
    }

    fn write(&mut self, a: Addr, page: &Page) -> Result<(), DiskFailed> {
        let passes = self.passes();
        let is_ok = self.disk.write(a, page).is_ok();
        self.answer(passes && is_ok)
    }

    fn cut(&mut self, file: u32) -> Result<(), DiskFailed> {
        let passes = self.passes();
        let is_ok = self.disk.cut(file).is_ok();
        self.answer(passes && is_ok)
    }

    fn sync(&mut self) -> Result<(), DiskFailed> {
        let passes = self.passes();
        let is_ok = passes && self.disk.sync().is_ok();
        self.answer(is_ok)
    }
}
