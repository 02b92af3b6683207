ghost use Rattle.std.specs.Prelude.{◌≡◌, ◌↔◌, [], map, Contains, IfOk, IsErr, IsErrOf, OnErr, OnOk, Ok, Err, Some, None, option_map};
ghost use Rattle.fault_io.specs.Causes.{HasCause, one_more};
ghost use Rattle.fault_io.specs.Files.{Files, fetched, stored};
ghost use Rattle.fault_io.specs.InMemory.{all_stored, seen_file};
ghost use Rattle.fault_io.specs.Shelves.{HasShelfCause, KeepsOthers, MayHaveStored};

use crate::calls::Calls;
use crate::shelf::{Shelf, ShelfFault};
use crate::traits::Failed;
use memory::OutOfMemory;
use std::alloc::{AllocError, Global};
use std::collections::BTreeMap;
use std::marker::Model;

/// A shelf in memory. Contracts see its files, the number of the next call, the numbers of the calls
/// that are to fail, and the count of faults. Calls are numbered from 0; that number and the count of
/// faults stand still at 2^64 - 1.
pub struct MemShelf {
    files: BTreeMap<Vec<u8>, Vec<u8>>,
    calls: Calls,
    alloc: Global,
}

impl Drop for MemShelf {
    fn drop(self) {
        let Self {
            files: _,
            calls: _,
            alloc: _,
        } = self;
    }
}

impl Model for MemShelf {
    ghost use Rattle.std.specs.Prelude.{map};
    ghost use Rattle.fault_io.specs.InMemory.{ShelfInMemory, seen_file};

    ghost Value = { ShelfInMemory };

    ghost view = { λ s. record {
      files = map seen_file s.files.entries;
      next_call = s.calls.next;
      failing = s.calls.failing.items;
      faults = s.calls.faults;
    } };
}

/// A copy of bytes.
fn copied(alloc: Global, bytes: &[u8]) -> Result<Vec<u8>, AllocError>
    ensures { IfOk result (λ copy. copy.items ≡ bytes.now) }
{
    let mut copy = Vec::new(alloc);
    copy.extend_from_slice(bytes)?;
    Ok(copy)
}

/// Copies bytes to a map under a name, whatever stood there.
fn put(
    alloc: Global,
    files: &mut BTreeMap<Vec<u8>, Vec<u8>>,
    name: &[u8],
    bytes: &[u8],
) -> Result<(), AllocError>
    ensures put { OnOk result (map seen_file files.new.entries ≡ stored (map seen_file files.old.entries) name.now bytes.now) }
    ensures same { OnErr result (files.new.entries ≡ files.old.entries) }
{
    let name = copied(alloc, name)?;
    let bytes = copied(alloc, bytes)?;
    match files.insert(name, bytes) {
        Ok(_) => Ok(()),
        Err(_) => Err(AllocError),
    }
}

/// A copy of the bytes that a map has under a name.
#[tactic(auto, using(crate::proofs::FilesInMemory::seen_fetched))]
fn got(
    alloc: Global,
    files: &BTreeMap<Vec<u8>, Vec<u8>>,
    name: &[u8],
) -> Result<Option<Vec<u8>>, AllocError>
    ensures { IfOk result (λ file. option_map (λ bytes. bytes.items) file ≡ fetched (map seen_file files.now.entries) name.now) }
{
    match files.get(name) {
        None => Ok(None),
        Some(bytes) => Ok(Some(copied(alloc, bytes)?)),
    }
}

impl MemShelf {
    /// A shelf with these files, whose calls with the numbers in `failing` fail. Of two files with one
    /// name the later stands.
    #[tactic(auto, unfolding(crate::specs::InMemory::all_stored), using(crate::proofs::FilesInMemory::stored_last))]
    pub fn new(
        alloc: Global,
        files: Vec<(Vec<u8>, Vec<u8>)>,
        failing: Vec<u64>,
    ) -> Result<MemShelf, OutOfMemory>
        ensures { IfOk result (λ shelf. shelf ≡ record {
          files = all_stored [] (map seen_file files.items);
          next_call = 0;
          failing = failing.items;
          faults = 0;
        }) }
    {
        let mut on_shelf = BTreeMap::new(alloc);
        for (name, bytes) in files {
            put(alloc, &mut on_shelf, &name, &bytes)?;
        }
        Ok(MemShelf {
            files: on_shelf,
            calls: Calls::new(failing),
            alloc,
        })
    }
}

impl Shelf for MemShelf {
    ghost files = { λ s. Some s.files };

    ghost faults = { λ s. s.faults };

    /// Fails exactly where its number is one of those that are to fail.
    fn fetch(&mut self, alloc: Global, name: &[u8]) -> Result<Option<Vec<u8>>, ShelfFault>
        // As every shelf.
        ensures file { (known : Files) → Some self.old.files ≡ Some known → IfOk result (λ file. option_map (λ bytes. bytes.items) file ≡ fetched known name.now) }
        ensures kept { Some self.new.files ≡ Some self.old.files }
        ensures cause { HasShelfCause self.old.faults self.new.faults result }

        // The listed calls fail, and no other.
        ensures fails { IsErrOf result ShelfFault.Failed ↔ Contains self.old.failing self.old.next_call }
        ensures after_failure { IsErrOf result ShelfFault.Failed → self.new ≡ record self.old {
          next_call = one_more self.old.next_call;
          faults = one_more self.old.faults;
        } }
        ensures otherwise { (IsErrOf result ShelfFault.Failed → ⊥) → self.new ≡ record self.old {
          next_call = one_more self.old.next_call;
        } }
    {
        if self.calls.begin().is_err() {
            return Err(ShelfFault::Failed);
        }
        match got(alloc, &self.files, name) {
            Ok(file) => Ok(file),
            Err(_) => Err(ShelfFault::OutOfMemory),
        }
    }

    /// A call that finds no memory fails, counted, and stores nothing.
    fn store(&mut self, name: &[u8], bytes: &[u8]) -> Result<(), Failed>
        // As every shelf.
        ensures file { (known : Files) → Some self.old.files ≡ Some known → OnOk result (Some self.new.files ≡ Some (stored known name.now bytes.now)) }
        ensures others { (known : Files) → Some self.old.files ≡ Some known → OnErr result (KeepsOthers name.now known (Some self.new.files)) }
        ensures failed { (known : Files) → Some self.old.files ≡ Some known → OnErr result (MayHaveStored name.now bytes.now known (Some self.new.files)) }
        ensures cause { HasCause self.old.faults self.new.faults result }

        // The listed calls fail. Any other fails for want of memory alone.
        ensures listed { Contains self.old.failing self.old.next_call → IsErr result }
        ensures after_failure { OnErr result (self.new ≡ record self.old {
          next_call = one_more self.old.next_call;
          faults = one_more self.old.faults;
        }) }
        ensures put { OnOk result (self.new ≡ record self.old {
          files = stored self.old.files name.now bytes.now;
          next_call = one_more self.old.next_call;
        }) }
    {
        self.calls.begin()?;
        match put(self.alloc, &mut self.files, name, bytes) {
            Ok(()) => Ok(()),
            Err(_) => Err(self.calls.fail()),
        }
    }
}
