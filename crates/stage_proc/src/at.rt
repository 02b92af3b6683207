//! Where the query processor stands.

ghost use Rattle.std.specs.Prelude.{◌≡◌};
ghost use Rattle.calculus.specs.declared.request.Checked.{Checked as Seen};
ghost use Rattle.quel_tree.specs.Message.{most_tree_levels};
ghost use Rattle.quel_tree.specs.Requests.{checked as checked_codec};
ghost use Rattle.stage_proc.specs.Held.{IsTreeOf};
ghost use Rattle.stage_proc.specs.Standing.{IsWorking};
ghost use Rattle.stage_proc.specs.declared.at.At.TheVariants.{Working};

use crate::held::HeldTree;
use calculus::{Checked, List};

/// Where the query processor stands.
pub enum At {
    /// It waits for a tree.
    Idle,
    /// It has a tree to work on.
    Working(HeldTree),
    /// It waits for the reply of the utilities, which it passes on.
    Passing,
    /// All is over.
    Ended,
}

impl Drop for At {
    fn drop(self) {
        match self {
            At::Idle | At::Working(_) | At::Passing | At::Ended => {}
        }
    }
}

impl At {
    /// The tree that it works on.
    pub(crate) fn tree(&self) -> &Checked
        requires { IsWorking self.now }
        ensures is { self.now ≡ Working result.now }
        ensures spelled { (checked_codec most_tree_levels).Fits result.now }
    {
        match self {
            At::Working(held) => held.tree(),
            At::Idle => unreachable!(),
            At::Passing => unreachable!(),
            At::Ended => unreachable!(),
        }
    }

    /// The bytes of the tree that it works on, taken out. Takes no memory.
    pub(crate) fn into_bytes(self) -> List<u8>
        requires { IsWorking self }
        ensures { (t : Seen) → self ≡ Working t → IsTreeOf t result }
    {
        match self {
            At::Working(held) => held.into_bytes(),
            At::Idle => unreachable!(),
            At::Passing => unreachable!(),
            At::Ended => unreachable!(),
        }
    }
}
