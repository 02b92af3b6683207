ghost use Rattle.std.specs.Prelude.{None};

use am_traits::{PageStore, StoreFault};
use disk_model::{Addr, Page};
use std::alloc::Global;

/// A page at its address.
struct Entry {
    at: Addr,
    page: Page,
}

impl Drop for Entry {
    fn drop(self) {
        let Self { at: _, page: _ } = self;
    }
}

/// Pages in memory, of which nothing is known, and how often they were asked for and put.
pub struct Counting {
    entries: Vec<Entry>,
    last: Option<Addr>,
    pub gets: u32,
    pub puts: u32,
}

impl Drop for Counting {
    fn drop(self) {
        let Self {
            entries: _,
            last: _,
            gets: _,
            puts: _,
        } = self;
    }
}

impl Counting {
    pub fn new(alloc: Global) -> Counting {
        Counting {
            entries: Vec::new(alloc),
            last: None,
            gets: 0,
            puts: 0,
        }
    }

    /// Counts from 0 again.
    pub fn restart(&mut self) {
        self.gets = 0;
        self.puts = 0;
    }

    /// Takes a page away.
    pub fn lose(&mut self, a: Addr) {
        self.entries.retain(|entry| entry.at != a);
    }
}

impl PageStore for Counting {
    ghost pages = { λ _. None };

    ghost faults = { λ _. 0 };

    ghost reads = { λ _. 0 };

    ghost last = { λ s. s.last };

    ghost came = { λ _ _. Unit {0} };

    ghost only_read = { λ _ _. Unit {0} };

    ghost starts = { λ _. tt };

    ghost reads_start = { λ _. tt };

    fn get(&mut self, a: Addr, out: &mut Page) -> Result<bool, StoreFault> {
        self.gets = self.gets.saturating_add(1);
        self.last = Some(a);
        match self.entries.iter().find(|entry| entry.at == a) {
            Some(entry) => {
                *out = entry.page;
                Ok(true)
            }
            None => Ok(false),
        }
    }

    fn put(&mut self, a: Addr, page: &Page) -> Result<(), StoreFault> {
        self.puts = self.puts.saturating_add(1);
        self.lose(a);
        self.last = Some(a);
        match self.entries.push(Entry { at: a, page: *page }) {
            Ok(()) => Ok(()),
            Err(_) => Err(StoreFault::OutOfMemory),
        }
    }
}
