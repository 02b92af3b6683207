// Lists of as many items as a count can say, and of fewer and more than they say.
ghost use Rattle.std.specs.Prelude.{◌≡◌};

use crate::pieces::{Answer, Named, Pieces, TREE, are_answered};
use quel_tree::{DbChangeTree, QueryTree, RowTree};
use std::test::*;

/// The pieces of lists, by their names.
const PIECES: [Named; 11] = [
    // The greatest count of two bytes, and the empty text.
    (b"many", b"\xff\xff"),
    (b"text", b"\x01\x00"),
    // A row of one text of 255 bytes, up to its bytes.
    (b"long", b"\x00\x01\x01\xff"),
    // The counts of no variables and of 65,535 targets, and a target.
    (b"targets", b"\x00\x00\xff\xff"),
    (b"one_target", b"\x01x\x01\x01\x00"),
    // Rows that go, 65,536 and as many as a count of four bytes can say, up to the first of them.
    (b"go", b"\x00\x01a\x01p\x00\x01\x00\x00"),
    (b"all_go", b"\x00\x01a\x01p\xff\xff\xff\xff"),
    // The row without values, that of one empty text, and the count of no rows.
    (b"empty", b"\x00\x00"),
    (b"one", b"\x00\x01\x01\x00"),
    (b"none", b"\x00\x00\x00\x00"),
    (b"tilde", b"~"),
];

const ROWS: [(Pieces, Answer); 5] = [
    (b"many 65535 text", TREE),
    (b"many 65534 text", Err(131_070)),
    (b"many 65536 text", Err(131_072)),
    (b"long 255 tilde", TREE),
    (b"long 254 tilde", Err(258)),
];

const QUERIES: [(Pieces, Answer); 2] = [
    (b"targets 65535 one_target true", TREE),
    (b"targets 65535 one_target", Err(327_679)),
];

const CHANGES: [(Pieces, Answer); 3] = [
    (b"go 65536 empty none", TREE),
    (b"go 65535 empty", Err(131_079)),
    (b"all_go 1000 one", Err(4_009)),
];

#[test]
fn lists_have_as_many_items_as_they_say(rt: HostRuntime) {
    assert!(rt; are_answered::<RowTree>(rt.alloc(), &rt, &PIECES, &ROWS));
    assert!(rt; are_answered::<QueryTree>(rt.alloc(), &rt, &PIECES, &QUERIES));
    assert!(rt; are_answered::<DbChangeTree>(rt.alloc(), &rt, &PIECES, &CHANGES));
}
