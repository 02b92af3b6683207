//! A set of keys.

ghost use Rattle.std.specs.List.Sorted.{IsStrictlySortedBy};
ghost use Rattle.std.proofs.Props.{props};
ghost use Rattle.calculus.specs.Keys.{key_cmp};

mod keeping;

use calculus::RelKey;

/// A set of keys.
pub struct KeySet {
    pub(crate) keys: Vec<RelKey>,
    ghost up: { IsStrictlySortedBy key_cmp keys.items } by { Prim.hlevel props },
}

impl Drop for KeySet {
    fn drop(self) {
        let Self { keys: _ } = self;
    }
}
