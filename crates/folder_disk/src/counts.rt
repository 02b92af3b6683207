ghost use Rattle.std.specs.Prelude.{◌≡◌, ◌-◌};

/// How often each call of a disk was made, also where it failed. Each count stands still at 2^64 - 1.
#[derive(Clone, Copy, PartialEq, Eq)]
pub struct Counts {
    /// How often a page was read.
    pub reads: u64,
    /// How often a page was written.
    pub writes: u64,
    /// How often a file was cut.
    pub cuts: u64,
    /// How often a sync was made.
    pub syncs: u64,
}

impl Counts {
    /// No call yet.
    pub const NONE: Counts = Counts {
        reads: 0,
        writes: 0,
        cuts: 0,
        syncs: 0,
    };

    /// What was counted since an earlier moment.
    pub fn since(self, before: Counts) -> Counts
        ensures { result ≡ record {
          reads = self.reads - before.reads;
          writes = self.writes - before.writes;
          cuts = self.cuts - before.cuts;
          syncs = self.syncs - before.syncs;
        } }
    {
        Counts {
            reads: self.reads.saturating_sub(before.reads),
            writes: self.writes.saturating_sub(before.writes),
            cuts: self.cuts.saturating_sub(before.cuts),
            syncs: self.syncs.saturating_sub(before.syncs),
        }
    }
}
