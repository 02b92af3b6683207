//! What the tests share: names, trees that are read of their bytes, and the one way in which a change is applied.

use base_trait::{Base, BaseFault};
use calculus::{Checked, DbChange, Name, Query, RelKey};
use change_check::fit_change;
use plain_base::DbPlain;
use quel_tree::{CheckedTree, DbChangeTree, QueryTree, tree_of};
use std::alloc::Global;
use std::process::Abort;
use std::test::*;
use test_bases::TestBase;

pub(crate) fn named<R: Abort>(rt: &R, alloc: Global, bytes: &[u8]) -> Name {
    let name = Name::of(alloc, bytes).expect(rt, "memory");
    name.expect(rt, "a name")
}

pub(crate) fn key_of<R: Abort>(rt: &R, alloc: Global, owner: &[u8], name: &[u8]) -> RelKey {
    RelKey {
        owner: named(rt, alloc, owner),
        name: named(rt, alloc, name),
    }
}

/// The tree that these bytes spell.
pub(crate) fn tree<R: Abort>(rt: &R, alloc: Global, bytes: &[u8]) -> Checked {
    tree_of::<CheckedTree>(alloc, bytes)
        .ok()
        .expect(rt, "a tree")
}

/// The query that these bytes spell.
pub(crate) fn query<R: Abort>(rt: &R, alloc: Global, bytes: &[u8]) -> Query {
    tree_of::<QueryTree>(alloc, bytes)
        .ok()
        .expect(rt, "a query")
}

/// Says whether the change may be applied, and applies it where it may.
pub(crate) fn try_apply<B: Base>(
    alloc: Global,
    base: &mut B,
    change: &DbChange,
) -> Result<bool, BaseFault> {
    let fit = fit_change(alloc, base, change)?;
    if fit {
        base.apply(alloc, change)?;
    }
    Ok(fit)
}

/// Whether the base takes the change that these bytes spell.
pub(crate) fn is_laid<R: Abort>(rt: &R, alloc: Global, base: &mut DbPlain, bytes: &[u8]) -> bool {
    let change = tree_of::<DbChangeTree>(alloc, bytes);
    let change = change.ok().expect(rt, "a change");
    let laid = try_apply(alloc, base, &change);
    drop(change);
    laid.expect(rt, "an answer")
}

/// The database of ann, without anything in it.
pub(crate) fn empty<R: Abort>(rt: &R, alloc: Global) -> DbPlain {
    DbPlain::new(alloc, named(rt, alloc, b"ann"))
}

/// The database of ann on which these changes were applied.
pub(crate) fn laid<R: Abort>(rt: &R, alloc: Global, changes: &[&[u8]]) -> DbPlain {
    let mut base = empty(rt, alloc);
    for change in changes {
        assert!(rt; is_laid(rt, alloc, &mut base, change));
    }
    base
}

/// A base that has no database that is known, and of its schema what these changes make.
pub(crate) fn unknown<R: Abort>(rt: &R, alloc: Global, changes: &[&[u8]]) -> TestBase {
    let mut base = TestBase::of_entries(alloc, 0);
    let given = base.give_all(alloc, changes);
    assert!(rt; given.is_ok());
    base
}
