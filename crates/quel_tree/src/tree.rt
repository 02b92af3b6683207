//! Whole trees as bytes: what is sent as one message.

ghost use Rattle.std.specs.Prelude.{IfOk, IfErr};
ghost use Rattle.quel_tree.specs.MessageLaws.{one_of_them, two_of_them};
ghost use Rattle.quel_tree.specs.Message.{most_tree_levels, IsSpelled, IsGiven, IsFirstWrong};

use crate::{CheckedTree, ColumnsTree, DbChangeTree, PermitTree, QueryTree, RowTree, RuleTree};
use memory::OutOfMemory;
use std::alloc::Global;
use tree_words::{Fault, Spelling, read_whole, write_whole};

/// The levels that a tree may have: so many terms, qualifications, aggregates and queries may stand
/// inside one another.
pub const MOST_TREE_LEVELS: u32 = 3_000;

/// Why bytes were not read as a tree.
#[derive(Clone, Copy, PartialEq, Eq)]
pub enum TreeFault {
    /// They spell no lawful tree of at most 3,000 levels.
    NotATree {
        /// The first byte that no spelling of such a tree has there, counted from 0; the number of
        /// the bytes, where they end too early.
        at: u64,
    },
    /// Want of memory.
    OutOfMemory,
}

/// A spelling of trees that are sent as one message.
pub trait Tree: Spelling {
    ghost enough: { Self.Enough most_tree_levels };
}

/// The bytes of a tree: its one spelling, where it is lawful and has at most 3,000 levels. Of any
/// other value nothing is said.
pub fn tree_bytes<T: Tree>(alloc: Global, tree: &T::Value) -> Result<Vec<u8>, OutOfMemory>
    ensures { IfOk result (λ v. (T.codec most_tree_levels).Fits tree.now → IsSpelled T.codec tree.now v.items) }
{
    write_whole::<T>(alloc, tree)
}

/// The tree that the bytes are the spelling of, all of them. Bytes that spell none are refused with
/// the first byte that is wrong.
pub fn tree_of<T: Tree>(alloc: Global, bytes: &[u8]) -> Result<T::Value, TreeFault>
    ensures found { IfOk result (λ tree. IsSpelled T.codec tree bytes.now) }
    ensures only { (tree : T.Value) → IsSpelled T.codec tree bytes.now → IsGiven result tree }
    ensures first { IfErr result (IsFirstWrong T.codec bytes.now) }
{
    match read_whole::<T>(alloc, MOST_TREE_LEVELS, bytes) {
        Ok(tree) => Ok(tree),
        Err(Fault::Wrong(left)) => Err(TreeFault::NotATree {
            at: (bytes.len() - left) as u64,
        }),
        Err(Fault::OutOfMemory) => Err(TreeFault::OutOfMemory),
    }
}

impl Tree for CheckedTree {
    ghost enough = { two_of_them };
}

impl Tree for DbChangeTree {
    ghost enough = { two_of_them };
}

impl Tree for QueryTree {
    ghost enough = { two_of_them };
}

impl Tree for PermitTree {
    ghost enough = { one_of_them };
}

impl Tree for RuleTree {
    ghost enough = { one_of_them };
}

impl Tree for RowTree {
    ghost enough = { tt };
}

impl Tree for ColumnsTree {
    ghost enough = { tt };
}
