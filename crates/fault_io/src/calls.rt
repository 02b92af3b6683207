ghost use Rattle.std.specs.Prelude.{◌≡◌, ◌≤◌, ◌↔◌, Contains, IsErr, IsTrue, OnErr, OnOk};
ghost use Rattle.fault_io.specs.Causes.{HasCause, Rose, one_more};

use crate::traits::Failed;

/// The calls of an object in memory: which number comes next, which numbers are to fail, and how
/// often a call has failed. Both counts stand still at 2^64 - 1.
pub(crate) struct Calls {
    next: u64,
    failing: Vec<u64>,
    pub(crate) faults: u64,
}

impl Drop for Calls {
    fn drop(self) {
        let Self {
            next: _,
            failing: _,
            faults: _,
        } = self;
    }
}

impl Calls {
    /// No call yet.
    pub(crate) fn new(failing: Vec<u64>) -> Calls
        ensures { result ≡ record { next = 0; failing = failing; faults = 0 } }
    {
        Calls {
            next: 0,
            failing,
            faults: 0,
        }
    }

    /// Begins a call. It fails, counted, where its number is one of those that are to fail.
    pub(crate) fn begin(&mut self) -> Result<(), Failed>
        ensures cause { HasCause self.old.faults self.new.faults result }
        ensures fails { IsErr result ↔ Contains self.old.failing.items self.old.next }
        ensures ok { OnOk result (self.new ≡ record self.old { next = one_more self.old.next }) }
        ensures err { OnErr result (self.new ≡ record self.old {
          next = one_more self.old.next;
          faults = one_more self.old.faults;
        }) }
    {
        let is_listed = is_one_of(self.next, &self.failing);
        self.next = self.next.saturating_add(1);
        if is_listed {
            return Err(self.fail());
        }
        Ok(())
    }

    /// Counts a fault.
    pub(crate) fn fail(&mut self) -> Failed
        ensures counted { self.new ≡ record self.old { faults = one_more self.old.faults } }
        ensures later { self.old.faults ≤ self.new.faults }
        ensures rose { Rose self.old.faults self.new.faults }
    {
        self.faults = self.faults.saturating_add(1);
        Failed
    }
}

fn is_one_of(number: u64, numbers: &[u64]) -> bool
    ensures { IsTrue result ↔ Contains numbers.now number }
{
    numbers.contains(&number)
}
