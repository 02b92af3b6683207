// Terms of as many levels as a tree may have, and of one more.
ghost use Rattle.std.specs.Prelude.{◌≡◌};

use crate::pieces::{Answer, Named, Pieces, TREE, are_answered};
use quel_tree::QueryTree;
use std::test::*;

/// The pieces of terms, by their names.
const PIECES: [Named; 5] = [
    (b"abs", b"\x04"),
    // A sum, up to its left side.
    (b"sum", b"\x05\x00"),
    // A remainder, up to its right side.
    (b"mod", b"\x05\x05\x00\x00\x00\x00\x00\x00\x00\x00\x07"),
    // A text behind another, up to the left one and up to the right one.
    (b"left", b"\x06"),
    (b"right", b"\x06\x01\x00"),
];

const TERMS: [(Pieces, Answer); 12] = [
    (b"target 2998 neg int true", TREE),
    (b"target 2999 neg int true", Err(3_005)),
    (b"target 2998 abs int true", TREE),
    (b"target 2999 abs int true", Err(3_005)),
    (b"target 2998 sum 2999 int true", TREE),
    (b"target 2999 sum 3000 int true", Err(6_003)),
    (b"target 2998 mod int true", TREE),
    (b"target 2999 mod int true", Err(32_985)),
    (b"target 2998 left 2999 chars true", TREE),
    (b"target 2999 left 3000 chars true", Err(3_005)),
    (b"target 2998 right chars true", TREE),
    (b"target 2999 right chars true", Err(9_001)),
];

#[test]
fn terms_have_as_many_levels_as_a_tree_may_have(rt: HostRuntime) {
    assert!(rt; are_answered::<QueryTree>(rt.alloc(), &rt, &PIECES, &TERMS));
}
