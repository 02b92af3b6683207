//! A tree that came to the query processor.

ghost use Rattle.std.specs.Prelude.{◌≡◌};
ghost use Rattle.quel_tree.specs.Message.{most_tree_levels};
ghost use Rattle.quel_tree.specs.Requests.{checked as checked_codec};
ghost use Rattle.stage_proc.specs.Held.{IsTreeOf};

use calculus::{Boxed, Checked, List};
use std::marker::Model;

/// A tree that came, with its bytes. Contracts see the tree.
pub struct HeldTree {
    tree: Boxed<Checked>,
    bytes: List<u8>,
}

impl Drop for HeldTree {
    fn drop(self) {
        let Self { tree: _, bytes: _ } = self;
    }
}

impl Model for HeldTree {
    ghost use Rattle.calculus.specs.contracts.request.Checked as checked;
    ghost use Rattle.calculus.specs.declared.request.Checked.{Checked as Seen};
    ghost use Rattle.stage_proc.specs.Held.{IsTreeOf};
    ghost use Rattle.std.specs.Coded.{codes};

    ghost Value = { Seen };

    ghost coded = { Prim.hlevel (codes, checked.the_row.coded) };

    ghost view = { λ h. h.tree };

    ghost invariant = { λ h. IsTreeOf h.tree h.bytes };
}

impl HeldTree {
    /// The tree of these bytes. Takes no memory.
    pub(crate) fn of(tree: Boxed<Checked>, bytes: List<u8>) -> HeldTree
        requires { IsTreeOf tree bytes }
        ensures { result ≡ tree }
    {
        HeldTree { tree, bytes }
    }

    /// The tree, which has a spelling.
    #[tactic(auto, using(crate::proofs::Holding::held_fits))]
    pub(crate) fn tree(&self) -> &Checked
        ensures is { result.now ≡ self.now }
        ensures spelled { (checked_codec most_tree_levels).Fits self.now }
    {
        self.tree.get()
    }

    /// Its bytes, taken out. Takes no memory.
    pub(crate) fn into_bytes(self) -> List<u8>
        ensures { IsTreeOf self result }
    {
        let Self { tree, bytes } = self;
        drop(tree);
        bytes
    }
}
