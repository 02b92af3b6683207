//! What is left of a line: pieces of text and commands.

ghost use Rattle.std.specs.Prelude.{◌≡◌, ◌∷◌, [], ◌↔◌, IfNone, IfOk, IfSome, IsTrue};
ghost use Rattle.monitor.specs.Seen.{seen_part};
ghost use Rattle.quel_meaning.specs.Monitor.{parts_of};

use crate::line::{Part, parts_of};
use calculus::OutOfMemory;
use std::alloc::Global;
use std::marker::Model;

/// What is left of a line. Contracts see its parts in order.
pub struct Parts {
    /// The next part last.
    parts: Vec<Part>,
}

impl Drop for Parts {
    fn drop(self) {
        let Self { parts: _ } = self;
    }
}

impl Model for Parts {
    ghost use Rattle.std.specs.Prelude.{List, map, reverse};
    ghost use Rattle.monitor.specs.Seen.{seen_part};
    ghost use Rattle.quel_meaning.specs.Monitor.{Part as SeenPart};

    ghost Value = { List SeenPart };

    ghost view = { λ p. map seen_part (reverse p.parts.items) };
}

impl Parts {
    /// Nothing.
    pub(crate) fn none(alloc: Global) -> Parts
        ensures { result ≡ [] }
    {
        Parts {
            parts: Vec::new(alloc),
        }
    }

    /// The parts of a line.
    pub(crate) fn of(alloc: Global, line: &[u8]) -> Result<Parts, OutOfMemory>
        ensures { IfOk result (λ parts. parts ≡ parts_of line.now) }
    {
        let mut parts = parts_of(alloc, line)?;
        parts.reverse();
        Ok(Parts { parts })
    }

    /// Whether nothing is left.
    pub(crate) fn is_empty(&self) -> bool
        ensures { IsTrue result ↔ (self.now ≡ []) }
    {
        self.parts.is_empty()
    }

    /// The next part, which is then no longer left.
    pub(crate) fn next(&mut self) -> Option<Part>
        ensures some { IfSome result (λ part. self.old ≡ seen_part part ∷ self.new) }
        ensures none { IfNone result (self.old ≡ []) }
        ensures stays { IfNone result (self.new ≡ []) }
    {
        self.parts.pop()
    }

    /// Nothing is left.
    pub(crate) fn clear(&mut self)
        ensures { self.new ≡ [] }
    {
        self.parts.clear();
    }
}
