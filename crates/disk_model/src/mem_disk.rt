ghost use Rattle.std.specs.Prelude.{◌≡◌, ◌<◌, ◌≤◌, [], ◌∷◌, None, true, IfOk, OnOk, IsTrue, ◌↔◌, if◌then◌else◌, Some};
ghost use Rattle.fault_io.specs.Causes.{HasCause};
ghost use Rattle.disk_model.specs.Disk.{Image, IsImage, IsSettled, Changes, Elapses, OnlyReads, RisesUpTo};
ghost use Rattle.disk_model.specs.History.{Came};

use crate::calls::{Call, failed, fill_all, look, synced};
use crate::disk::{Addr, Disk, DiskFailed, Page};
use memory::OutOfMemory;
use std::alloc::{AllocError, AllocFailed, Global};

/// What a crash leaves at each touched address.
#[derive(Clone, Copy, Debug, PartialEq, Eq)]
pub enum Left {
    /// What stood at the last sync.
    Old,
    /// What stands now.
    New,
    /// A page of this byte.
    Filled(u8),
}

/// A disk in memory, whose content is known and keeps the list of its writes, cuts and syncs. Its
/// clock is their number.
pub struct MemDisk {
    first: Vec<Call>,
    calls: Vec<Call>,
    made: u64,
    failing: Vec<u64>,
    stop: Option<u64>,
    faults: u64,
    reads: u64,
}

impl Drop for MemDisk {
    fn drop(self) {
        let Self {
            first: _,
            calls: _,
            made: _,
            failing: _,
            stop: _,
            faults: _,
            reads: _,
        } = self;
    }
}

impl MemDisk {
    ghost use Rattle.disk_model.specs.MemoryDisk.{state, fresh, seen_now, IsDue, Notes, Leaves};

    /// An empty disk. Of its calls, reads too, those fail whose numbers are in `failing`, counted
    /// from 0; and each fails after `stop` writes, cuts and syncs, where `stop` is given.
    pub fn new(alloc: Global, failing: Vec<u64>, stop: Option<u64>) -> MemDisk
        ensures { state result ≡ fresh [] failing.items stop }
    {
        MemDisk::begun(alloc, Vec::new(alloc), failing, stop)
    }

    /// The disk as a crash leaves it. It never fails, its clock and its counts are 0.
    pub fn crash(self, alloc: Global, left: Left) -> Result<MemDisk, OutOfMemory>
        ensures fresh { IfOk result (λ d. state d ≡ fresh (state d).first [] None) }
        ensures leaves { IfOk result (λ d. Leaves left (state self) (seen_now (state d))) }
    {
        let Self {
            mut first,
            calls,
            made: _,
            failing: _,
            stop: _,
            faults: _,
            reads: _,
        } = self;
        let calls = calls.as_slice();
        let (before, since) = calls.split_at(synced(calls));
        first.extend_from_slice(before)?;
        match left {
            Left::Old => {}
            Left::New => first.extend_from_slice(since)?,
            Left::Filled(byte) => fill_all(&mut first, since, byte)?,
        }
        Ok(MemDisk::begun(alloc, first, Vec::new(alloc), None))
    }

    /// The writes, cuts and syncs so far, in their order, also those that failed.
    pub fn calls(&self) -> &[Call]
        ensures { result.now ≡ (state self.now).calls }
    {
        &self.calls
    }

    /// A disk without a call so far, on which what these entries made stands.
    fn begun(alloc: Global, first: Vec<Call>, failing: Vec<u64>, stop: Option<u64>) -> MemDisk
        ensures { state result ≡ fresh first.items failing.items stop }
    {
        MemDisk {
            first,
            calls: Vec::new(alloc),
            made: 0,
            failing,
            stop,
            faults: 0,
            reads: 0,
        }
    }

    /// Puts the page that stands at an address into `out`, and answers whether there is one.
    fn find(&self, a: Addr, out: &mut Page) -> bool
        ensures { seen_now (state self.now) a ≡ (if result then Some out.new else None) }
    {
        match look(&self.calls, a, out) {
            Some(found) => found,
            None => look(&self.first, a, out).unwrap_or(false),
        }
    }

    /// Whether the next call is to fail.
    fn is_due(&self) -> bool
        ensures { IsTrue result ↔ IsDue (state self.now) }
    {
        let is_stopped = match self.stop {
            Some(stop) => self.calls.len() as u64 >= stop,
            None => false,
        };
        self.failing.contains(&self.made) || is_stopped
    }

    /// Makes a write, a cut or a sync that has this entry, or fails.
    fn note(&mut self, call: Call) -> Result<(), DiskFailed>
        ensures does { Notes (state self.old) (state self.new) call result }
        ensures cause { HasCause (state self.old).faults (state self.new).faults result }
    {
        let due = self.is_due();
        self.made = self.made.saturating_add(1);
        let entry = if due { failed(call) } else { call };
        if self.calls.push(entry).is_err() || due {
            self.faults = self.faults.saturating_add(1);
            return Err(DiskFailed);
        }
        Ok(())
    }
}

impl Disk for MemDisk {
    ghost use Rattle.disk_model.specs.declared.calls.Call.TheVariants.{Write as AWrite, Cut as ACut, Sync as ASync};
    ghost use Rattle.disk_model.specs.declared.disk.Addr.{Addr as Place};
    ghost use Rattle.disk_model.specs.Calls.{seen_of};
    ghost use Rattle.disk_model.specs.MemoryDisk.{state, seen_in, touched_in, clock_in, left_in, Notes, Reads};
    ghost use Rattle.disk_model.specs.LeftSinceLaws.{only_now_of, counts_now_of};

    ghost is_known = { true };

    ghost seen = { seen_in };

    ghost touched = { touched_in };

    ghost clock = { clock_in };

    ghost left_since = { left_in };

    ghost faults = { λ d. (state d).faults };

    ghost reads = { λ d. (state d).reads };

    ghost history = { λ d. Some (state d).calls };

    ghost only_now = { λ d m _ left. only_now_of (seen_of (state d).first) (state d).calls m left };

    ghost counts_now = { λ d t m _ le now. counts_now_of (seen_of (state d).first) (state d).calls t m le now };

    fn read(&mut self, a: Addr, out: &mut Page) -> Result<bool, DiskFailed>
        ensures does { Reads (state self.old) (state self.new) result }
        ensures page { IfOk result (λ found. seen_in self.old a ≡ (if found then Some out.new else None)) }
        ensures same { OnlyReads seen_in touched_in clock_in left_in self.old self.new }
        ensures cause { HasCause (state self.old).faults (state self.new).faults result }
        ensures reads { RisesUpTo 1 (state self.old).reads (state self.new).reads }
        ensures unwritten { Some (state self.new).calls ≡ Some (state self.old).calls }
    {
        let due = self.is_due();
        self.made = self.made.saturating_add(1);
        self.reads = self.reads.saturating_add(1);
        if due {
            self.faults = self.faults.saturating_add(1);
            return Err(DiskFailed);
        }
        Ok(self.find(a, out))
    }

    fn write(&mut self, a: Addr, page: &Page) -> Result<(), DiskFailed>
        ensures does { Notes (state self.old) (state self.new) (AWrite a page.now) result }
        ensures written { OnOk result (seen_in self.new a ≡ Some page.now) }
        ensures change { Changes (λ b. b ≡ a) seen_in touched_in self.old self.new }
        ensures time { Elapses seen_in touched_in clock_in left_in self.old self.new }
        ensures rises { OnOk result (clock_in self.old < clock_in self.new) }
        ensures cause { HasCause (state self.old).faults (state self.new).faults result }
        ensures reads { (state self.new).reads ≡ (state self.old).reads }
        ensures noted { OnOk result (Came (Some (state self.old).calls) (Some (state self.new).calls) (AWrite a page.now ∷ [])) }
    {
        self.note(Call::Write(a, *page))
    }

    fn cut(&mut self, file: u32) -> Result<(), DiskFailed>
        ensures does { Notes (state self.old) (state self.new) (ACut file) result }
        ensures cut { OnOk result ((b : Place) → b.file ≡ file → seen_in self.new b ≡ None) }
        ensures change { Changes (λ b. b.file ≡ file) seen_in touched_in self.old self.new }
        ensures time { Elapses seen_in touched_in clock_in left_in self.old self.new }
        ensures rises { OnOk result (clock_in self.old < clock_in self.new) }
        ensures cause { HasCause (state self.old).faults (state self.new).faults result }
        ensures reads { (state self.new).reads ≡ (state self.old).reads }
        ensures noted { OnOk result (Came (Some (state self.old).calls) (Some (state self.new).calls) (ACut file ∷ [])) }
    {
        self.note(Call::Cut(file))
    }

    fn sync(&mut self) -> Result<(), DiskFailed>
        ensures does { Notes (state self.old) (state self.new) ASync result }
        ensures durable { OnOk result (IsSettled (touched_in self.new)) }
        ensures seen { seen_in self.new ≡ seen_in self.old }
        ensures touched { (b : Place) → touched_in self.new b → touched_in self.old b }
        ensures time { Elapses seen_in touched_in clock_in left_in self.old self.new }
        ensures rises { OnOk result (clock_in self.old < clock_in self.new) }
        ensures cause { HasCause (state self.old).faults (state self.new).faults result }
        ensures reads { (state self.new).reads ≡ (state self.old).reads }
        ensures noted { OnOk result (Came (Some (state self.old).calls) (Some (state self.new).calls) (ASync ∷ [])) }
    {
        self.note(Call::Sync)
    }
}
