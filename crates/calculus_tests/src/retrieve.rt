// The tree of `retrieve (x = 3)`: built and written, and what is wrong near it.
ghost use Rattle.std.specs.Prelude.{◌≡◌};

use crate::pieces::{Answer, Named, Pieces, TREE, are_answered};
use calculus::{Asked, Checked, Kind, Name, QQual, QTerm, Query, Target};
use memory::List;
use quel_tree::{CheckedTree, tree_bytes};
use std::alloc::Global;
use std::process::Abort;
use std::test::*;

/// All its bytes.
const WHOLE: &[u8] =
    b"\x00\x00\x01\x00\x00\x00\x01\x01x\x01\x00\x00\x00\x00\x00\x00\x00\x00\x03\x00\x00\x00";

/// The pieces of what is near the tree, by their names.
const PIECES: [Named; 8] = [
    // All its bytes, the last of them missing, and those up to the kind of the target.
    (b"whole", WHOLE),
    (
        b"cut",
        b"\x00\x00\x01\x00\x00\x00\x01\x01x\x01\x00\x00\x00\x00\x00\x00\x00\x00\x03\x00\x00",
    ),
    (b"front", b"\x00\x00\x01\x00\x00\x00\x01\x01x\x01"),
    // A name of a blank, and a text of no bytes.
    (b"blank", b"\x00\x00\x01\x00\x00\x00\x01\x01\x20"),
    (b"narrow", b"\x00\x00\x01\x00\x00\x00\x01\x01x\x00\x03\x00"),
    // The number 3, the true qualification, and no keys of an order.
    (b"end", b"\x00\x00\x00\x00\x00\x00\x00\x00\x03\x00\x00\x00"),
    (b"zero", b"\x00"),
    (b"ten", b"\x0a"),
];

/// The list of this one item.
fn one<T: Drop>(alloc: Global, rt: &impl Abort, item: T) -> List<T> {
    let mut items = Vec::new(alloc);
    items.push(item).expect(rt, "memory");
    List::of(items)
}

/// A query without variables, with the target x of 3.
fn query(alloc: Global, rt: &impl Abort) -> Query {
    let name = Name::of(alloc, b"x")
        .expect(rt, "memory")
        .expect(rt, "name");
    let (kind, term) = (Kind::Wide, QTerm::Int(3));
    Query {
        vars: List::of(Vec::new(alloc)),
        targets: one(alloc, rt, Target { name, kind, term }),
        qual: QQual::True,
    }
}

/// Its rows, in no order of their own.
fn answer(alloc: Global, rt: &impl Abort) -> Checked {
    let query = query(alloc, rt);
    let sort = List::of(Vec::new(alloc));
    Checked::Answer(one(alloc, rt, Asked { query, sort }))
}

#[test]
fn a_tree_that_is_built_is_written(rt: HostRuntime) {
    let tree = answer(rt.alloc(), &rt);
    let written = tree_bytes::<CheckedTree>(rt.alloc(), &tree).expect(&rt, "memory");
    drop(tree);
    assert!(rt; written.as_slice() == WHOLE);
    drop(written);
}

const NEAR: [(Pieces, Answer); 9] = [
    (b"whole", TREE),
    (b"whole zero", Err(22)),
    (b"cut", Err(21)),
    (b"ten", Err(0)),
    (b"", Err(0)),
    (b"blank", Err(8)),
    (b"narrow", Err(11)),
    (b"front 10000 neg", Err(3_008)),
    (b"front 2998 neg end", TREE),
];

#[test]
fn what_is_near_a_tree_is_refused(rt: HostRuntime) {
    assert!(rt; are_answered::<CheckedTree>(rt.alloc(), &rt, &PIECES, &NEAR));
}
