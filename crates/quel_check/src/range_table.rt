//! Range variables.

ghost use Rattle.std.specs.Prelude.{◌≡◌, [], option_map, OnOk, OnErr};
ghost use Rattle.quel_meaning.specs.Ranges.{range_of, declared};

use calculus::{Name, OutOfMemory, RelKey};
use indexmap::IndexMap;
use std::alloc::Global;
use std::marker::Model;

/// The range variables of a run, each with what it ranges over. Contracts see them in the order in
/// which they were first declared.
pub struct RangeTable {
    ranges: IndexMap<Name, RelKey>,
}

impl Drop for RangeTable {
    fn drop(self) {
        let Self { ranges: _ } = self;
    }
}

impl Model for RangeTable {
    ghost use Rattle.quel_meaning.specs.Ranges.{Ranges};

    ghost Value = { Ranges };

    ghost view = { λ t. t.ranges.entries };
}

impl RangeTable {
    /// The table without variables.
    pub fn new(alloc: Global) -> RangeTable
        ensures { result ≡ [] }
    {
        RangeTable {
            ranges: IndexMap::new(alloc),
        }
    }

    /// Declares the variable for this, whatever it was declared for before. Where there is no room,
    /// the table stays.
    pub fn declare(&mut self, var: Name, rel: RelKey) -> Result<(), OutOfMemory>
        ensures declared { OnOk result (self.new ≡ declared self.old var rel) }
        ensures kept { OnErr result (self.new ≡ self.old) }
    {
        let done = self.ranges.insert(var, rel);
        match done {
            Ok(_) => Ok(()),
            Err(_) => Err(OutOfMemory),
        }
    }

    /// What the variable ranges over; `None` exactly where it was never declared.
    pub fn of(&self, var: &Name) -> Option<&RelKey>
        ensures { option_map (λ key. key.now) result ≡ range_of self.now var.now }
    {
        self.ranges.get(var)
    }
}
