// Bytes of trees in which one is wrong, and its place.
ghost use Rattle.std.specs.Prelude.{◌≡◌};

use crate::trees::are_refused;
use quel_tree::{CheckedTree, DbChangeTree, RuleTree};
use std::test::*;

const RULES: [(&[u8], u64); 12] = [
    // A qualification, a comparison, and whether a pattern is to match.
    (b"\x00\x00\x00\x00\x06", 4),
    (b"\x00\x00\x00\x00\x01\x06", 5),
    (b"\x00\x00\x00\x00\x02\x01\x00\x00\x02", 8),
    // A term, an operation, and a byte of a text constant.
    (b"\x00\x00\x00\x00\x01\x00\x08", 6),
    (b"\x00\x00\x00\x00\x01\x00\x05\x06", 7),
    (b"\x00\x00\x00\x00\x01\x00\x01\x02a\x1f", 9),
    (b"\x00\x00\x00\x00\x01\x00\x01\x02a\x7f", 9),
    // What is made of the values, and where the rows come from.
    (b"\x00\x00\x00\x00\x01\x00\x07\x00\x00\x09", 9),
    (b"\x00\x00\x00\x00\x01\x00\x07\x00\x00\x00\x02", 10),
    (b"\x00\x00\x00\x00\x01\x00\x07\x00\x00\x00\x00\x00", 11),
    // The name and the kind of a target.
    (
        b"\x00\x00\x00\x00\x01\x00\x07\x00\x00\x00\x01\x00\x00\x00\x01\x0d",
        15,
    ),
    (
        b"\x00\x00\x00\x00\x01\x00\x07\x00\x00\x00\x01\x00\x00\x00\x01\x01x\x02",
        17,
    ),
];

const REQUESTS: [(&[u8], u64); 10] = [
    (b"\x03", 0),
    // The key of an order.
    (b"\x00\x00\x01\x00\x00\x00\x00\x00\x00\x01\x00\x00\x02", 12),
    // What an update does, and the owner of its relation.
    (b"\x01\x04", 1),
    (b"\x01\x00\x019", 3),
    // A utility, a domain, a structure, a column's form, and whether rows come from the file.
    (b"\x02\x0a", 1),
    (b"\x02\x00\x01a\x01p\x00\x01\x01x\x00\x04", 11),
    (b"\x02\x02\x01a\x01p\x05", 6),
    (b"\x02\x04\x01a\x01p\x00\x01\x00\x03", 9),
    (b"\x02\x04\x01a\x01p\x00\x01\x00\x02;", 10),
    (b"\x02\x04\x01a\x01p\x00\x00\x02", 8),
];

const CHANGES: [(&[u8], u64); 5] = [
    (b"\x0a", 0),
    // A value, a blank at the end of a text, and a text of which the first byte is none.
    (b"\x00\x01a\x01p\x00\x00\x00\x01\x00\x01\x02", 11),
    (b"\x00\x01a\x01p\x00\x00\x00\x01\x00\x01\x01\x02a\x20", 14),
    (
        b"\x00\x01a\x01p\x00\x00\x00\x01\x00\x01\x01\x02\x0a\x20",
        13,
    ),
    // Whether a permit is for a user.
    (b"\x06\x01a\x01p\x00\x00\x00\x00\x01\x00\x00\x02", 12),
];

#[test]
fn the_first_wrong_byte_of_a_tree_is_named(rt: HostRuntime) {
    assert!(rt; are_refused::<RuleTree>(rt.alloc(), &rt, &RULES));
    assert!(rt; are_refused::<CheckedTree>(rt.alloc(), &rt, &REQUESTS));
    assert!(rt; are_refused::<DbChangeTree>(rt.alloc(), &rt, &CHANGES));
}
