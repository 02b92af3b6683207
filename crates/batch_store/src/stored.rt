//! The calls of a store of pages.

use crate::BatchStore;
use crate::reading::read_page;
use crate::staging::{forget, stage};
use am_traits::{PageStore, StoreFault};
use disk_model::{Addr, Disk, Page};

impl<D: Disk> PageStore for BatchStore<D> {
    ghost use Rattle.batch_store.specs.Running.{comes_of_itself, reads_of_itself};
    ghost use Rattle.batch_store.specs.Store.{pages_of, CameOf, OnlyReadOf};

    ghost pages = { pages_of };

    ghost faults = { λ s. D.faults s.disk };

    ghost reads = { λ s. D.reads s.disk };

    ghost last = { λ s. s.given };

    ghost came = { CameOf };

    ghost only_read = { OnlyReadOf };

    ghost starts = { comes_of_itself };

    ghost reads_start = { reads_of_itself };

    fn get(&mut self, a: Addr, out: &mut Page) -> Result<bool, StoreFault> {
        if self.given == Some(a) {
            *out = self.page;
            return Ok(self.there);
        }
        self.given = None;
        match read_page(
            &mut self.disk,
            &self.batch,
            &self.numbers,
            a,
            &mut self.page,
        ) {
            Ok(found) => {
                self.given = Some(a);
                self.there = found;
                *out = self.page;
                Ok(found)
            }
            Err(_) => Err(StoreFault::Disk),
        }
    }

    fn put(&mut self, a: Addr, page: &Page) -> Result<(), StoreFault> {
        if self.due {
            return Err(StoreFault::OutOfMemory);
        }
        self.given = None;
        match stage(&mut self.disk, &mut self.batch, &mut self.numbers, a, page) {
            Ok(()) => {
                self.given = Some(a);
                self.there = true;
                self.page = *page;
                Ok(())
            }
            Err(fault) => {
                forget(&mut self.batch, &mut self.numbers);
                Err(fault)
            }
        }
    }
}
